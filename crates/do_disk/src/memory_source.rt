//! A source in memory.
ghost use Rattle.std.specs.Prelude.{◌≡◌, ◌≤◌, ◌<◌, ◌↔◌, [], Some, length, min, take, drop, IfOk, OnErr, IsErr};
ghost use Rattle.do_disk.specs.Disk.{next_count, CountsFaults};
ghost use Rattle.do_disk.specs.Fails.{Names};
ghost use Rattle.do_disk.specs.MemoryStream.{MemorySource, KeepsSource};

use crate::{Failed, Fails, Source};
use std::marker::Model;

/// A source that gives bytes from memory, a piece at a time, and of which chosen calls fail.
#[derive(Debug, Drop)]
pub struct MemSource {
    bytes: Vec<u8>,
    at: usize,
    piece: usize,
    calls: u64,
    faults: u64,
    fails: Fails,
}

impl Model for MemSource {
    ghost Value = { MemorySource };

    ghost view = { λ source. record {
      left = drop source.at source.bytes.items;
      piece = source.piece;
      calls = source.calls;
      faults = source.faults;
      fails = source.fails;
    } };

    ghost invariant = { λ source. (source.at ≤ length source.bytes.items) × (1 ≤ source.piece) };
}

impl MemSource {
    /// A source that gives these bytes, at most `piece` of them a read, and of which these calls fail. The calls are
    /// numbered from 1.
    pub fn new(bytes: Vec<u8>, piece: usize, fails: Fails) -> Self
        requires { 1 ≤ piece }
        ensures { result ≡ record { left = bytes.items; piece = piece; calls = 0; faults = 0; fails = fails } }
    {
        MemSource {
            bytes,
            at: 0,
            piece,
            calls: 0,
            faults: 0,
            fails,
        }
    }
}

impl Source for MemSource {
    ghost left = { λ source. Some source.left };

    ghost faults_of = { λ source. source.faults };

    /// Gives as many bytes as the piece, the buffer and what is left have room for.
    fn read(&mut self, into: &mut [u8]) -> Result<usize, Failed>
        ensures number { IfOk result (λ n. n ≡ min (min self.old.piece (length into.old)) (length self.old.left)) }
        ensures given { IfOk result (λ n. take n into.new ≡ take n self.old.left) }
        ensures left { IfOk result (λ n. self.new.left ≡ drop n self.old.left) }
        ensures end { IfOk result (λ n. n ≡ 0 → 0 < length into.old → self.old.left ≡ []) }
        ensures failed { IsErr result ↔ Names self.old.fails (next_count self.old.calls) }
        ensures same { OnErr result (self.new.left ≡ self.old.left) }
        ensures kept { KeepsSource self.old self.new }
        ensures faults { CountsFaults self.old.faults self.new.faults result }
    {
        self.calls = self.calls.saturating_add(1);
        if self.fails.names(self.calls) {
            self.faults = self.faults.saturating_add(1);
            return Err(Failed);
        }
        let rest = &self.bytes[self.at..];
        let n = self.piece.min(into.len()).min(rest.len());
        into[..n].copy_from_slice(&rest[..n]);
        self.at += n;
        Ok(n)
    }
}
