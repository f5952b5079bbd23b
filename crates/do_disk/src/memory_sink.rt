//! Sinks in memory.
ghost use Rattle.std.specs.Prelude.{◌≡◌, ◌≤◌, ◌<◌, ◌++◌, [], Some, None, length, min, take, IfOk, OnErr};
ghost use Rattle.do_disk.specs.Disk.{next_count, Rose, CountsFaults};
ghost use Rattle.do_disk.specs.Fails.{Names};
ghost use Rattle.do_disk.specs.MemoryStream.{MemorySink, KeepsSink, SinkFailsWhereNamed, SinkFailsOnlyByCause};

use crate::{Failed, Fails, Sink};
use std::alloc::Global;
use std::marker::Model;

/// A sink that keeps what it takes, a piece at a time, and of which chosen calls fail.
#[derive(Debug, Drop)]
pub struct MemSink {
    bytes: Vec<u8>,
    piece: usize,
    calls: u64,
    faults: u64,
    refused: u64,
    fails: Fails,
}

impl Model for MemSink {
    ghost Value = { MemorySink };

    ghost view = { λ sink. record {
      taken = sink.bytes.items;
      piece = sink.piece;
      calls = sink.calls;
      faults = sink.faults;
      refused = sink.refused;
      fails = sink.fails;
    } };

    ghost invariant = { λ sink. 1 ≤ sink.piece };
}

impl MemSink {
    /// A sink that takes at most `piece` bytes a write, and of which these calls fail. The calls are numbered from 1.
    pub fn new(alloc: Global, piece: usize, fails: Fails) -> Self
        requires { 1 ≤ piece }
        ensures { result ≡ record { taken = []; piece = piece; calls = 0; faults = 0; refused = 0; fails = fails } }
    {
        MemSink {
            bytes: Vec::new(alloc),
            piece,
            calls: 0,
            faults: 0,
            refused: 0,
            fails,
        }
    }

    /// The bytes that were taken.
    pub fn taken(&self) -> &[u8]
        ensures { result.now ≡ self.now.taken }
    {
        &self.bytes
    }

    /// How many growths were refused. It stays at u64's greatest value.
    pub fn refused(&self) -> u64
        ensures { result ≡ self.now.refused }
    {
        self.refused
    }
}

impl Sink for MemSink {
    ghost taken = { λ sink. Some sink.taken };

    ghost faults_of = { λ sink. sink.faults };

    /// Takes as many bytes as the piece has room for.
    fn write(&mut self, from: &[u8]) -> Result<usize, Failed>
        ensures number { IfOk result (λ n. n ≡ min self.old.piece (length from.now)) }
        ensures taken { IfOk result (λ n. self.new.taken ≡ self.old.taken ++ take n from.now) }
        ensures some { IfOk result (λ n. 0 < length from.now → 0 < n) }
        ensures same { OnErr result (self.new.taken ≡ self.old.taken) }
        ensures named { SinkFailsWhereNamed self.old result }
        ensures cause { SinkFailsOnlyByCause self.old self.new result }
        ensures kept { KeepsSink self.old self.new result }
        ensures faults { CountsFaults self.old.faults self.new.faults result }
    {
        self.calls = self.calls.saturating_add(1);
        if self.fails.names(self.calls) {
            self.faults = self.faults.saturating_add(1);
            return Err(Failed);
        }
        let n = self.piece.min(from.len());
        match self.bytes.extend_from_slice(&from[..n]) {
            Ok(()) => Ok(n),
            Err(_) => {
                self.faults = self.faults.saturating_add(1);
                self.refused = self.refused.saturating_add(1);
                Err(Failed)
            }
        }
    }
}

/// The sink that takes every piece, keeps nothing, tells nothing and never fails.
#[derive(Clone, Copy, Debug, Drop)]
pub struct VoidSink;

impl Sink for VoidSink {
    ghost taken = { λ _. None };

    ghost faults_of = { λ _. 0 };

    fn write(&mut self, from: &[u8]) -> Result<usize, Failed>
        ensures { result ≡ Ok (length from.now) }
    {
        Ok(from.len())
    }
}
