//! Lines that were made, as a source.
ghost use Rattle.std.specs.Prelude.{◌≡◌, ◌≤◌, ◌<◌, [], Ok, Some, length, min, take, drop, IfOk};

use do_disk::{Failed, Source};
use std::marker::Model;

// Lines in memory, of which no read fails. Contracts see those that are left.
#[derive(Drop)]
pub(crate) struct MadeSource {
    bytes: Vec<u8>,
    at: usize,
}

impl Model for MadeSource {
    ghost use Rattle.std.specs.Prelude.{◌≤◌, ℕ, List, drop, length};

    ghost Value = { List ℕ };

    ghost view = { λ source. drop source.at source.bytes.items };

    ghost invariant = { λ source. source.at ≤ length source.bytes.items };
}

impl MadeSource {
    pub(crate) fn new(bytes: Vec<u8>) -> MadeSource
        ensures { result ≡ bytes.items }
    {
        MadeSource { bytes, at: 0 }
    }
}

impl Source for MadeSource {
    ghost use Rattle.do_disk.specs.Disk.{CountsFaults};

    ghost left = { λ source. Some source };

    ghost faults_of = { λ _. 0 };

    // Gives as many bytes as the buffer has room for and are left.
    fn read(&mut self, into: &mut [u8]) -> Result<usize, Failed>
        ensures number { result ≡ Ok (min (length into.old) (length self.old)) }
        ensures given { IfOk result (λ n. take n into.new ≡ take n self.old) }
        ensures left { IfOk result (λ n. self.new ≡ drop n self.old) }
    {
        let rest = &self.bytes[self.at..];
        let n = into.len().min(rest.len());
        into[..n].copy_from_slice(&rest[..n]);
        self.at += n;
        Ok(n)
    }
}
