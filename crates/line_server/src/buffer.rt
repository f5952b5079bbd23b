// A piece of the input, given to lines.
ghost use Rattle.std.specs.Prelude.{◌≡◌, ◌<◌, ◌≤◌, [], List, ℕ, true, false, OnOk, OnErr, length, drop};
ghost use Rattle.do_disk.specs.Disk.{IfTold};
ghost use Rattle.line_server.specs.Given.{CountsReads};
ghost use Rattle.line_server.specs.Reader.{StartsWith};

use crate::fault::LineFault;
use do_disk::{Failed, Source};
use do_value::{Mem, NoMemory};
use std::alloc::Global;
use std::marker::Model;

// How many bytes a read asks for at most.
const BUFFER_BYTES: usize = 65_536;

// Bytes that were read and not given yet, seen by contracts as their list. It has its memory from the first read on, and not in itself: who
// moves a reader moves few bytes.
pub(crate) struct Buffer {
    bytes: Vec<u8>,
    at: usize,
    end: usize,
}

// Written out, so that letting one go is proved once.
impl Drop for Buffer {
    fn drop(self) {
        let Buffer {
            bytes,
            at: _,
            end: _,
        } = self;
        drop(bytes);
    }
}

impl Model for Buffer {
    ghost use Rattle.std.specs.Prelude.{List, ℕ, ◌≤◌, take, drop, length};

    ghost Value = { List ℕ };

    ghost view = { λ b. drop b.at (take b.end b.bytes.items) };

    ghost invariant = { λ b. (b.at ≤ b.end) × (b.end ≤ length b.bytes.items) };
}

impl Buffer {
    // It takes no memory.
    pub(crate) fn new(alloc: Global) -> Buffer
        ensures { result ≡ [] }
    {
        Buffer {
            bytes: Vec::new(alloc),
            at: 0,
            end: 0,
        }
    }

    // Whether it holds nothing.
    pub(crate) fn is_empty(&self) -> bool
        ensures none { result ≡ true → self.now ≡ [] }
        ensures some { result ≡ false → 0 < length self.now }
    {
        self.at == self.end
    }

    // What it holds.
    pub(crate) fn held(&self) -> &[u8]
        ensures { result.now ≡ self.now }
    {
        &self.bytes[self.at..self.end]
    }

    // So many of its bytes are given.
    pub(crate) fn pass(&mut self, count: usize)
        requires { count ≤ length self.old }
        ensures { self.new ≡ drop count self.old }
    {
        self.at += count;
    }

    // Reads the next piece; none is the input's end.
    pub(crate) fn fill<R: Source>(&mut self, source: &mut R) -> Result<(), LineFault>
        ensures read { OnOk result (IfTold (R.left source.old) (λ before. StartsWith before self.new (R.left source.new))) }
        ensures end { OnOk result (self.new ≡ [] → IfTold (R.left source.new) (λ rest. rest ≡ [])) }
        ensures err { OnErr result ((self.new ≡ []) × (R.left source.new ≡ R.left source.old)) }
        ensures faults { CountsReads (R.faults_of source.old) (R.faults_of source.new) result }
    {
        self.at = 0;
        self.end = 0;
        let Ok(()) = make_room(&mut self.bytes) else {
            return Err(LineFault::NoMemory);
        };
        match source.read(&mut self.bytes) {
            Ok(count) => {
                self.end = count;
                Ok(())
            }
            Err(Failed) => Err(LineFault::ReadFailed),
        }
    }
}

// Gets the memory of a buffer, where it has none yet.
fn make_room(bytes: &mut Vec<u8>) -> Mem<()>
    ensures { OnOk result (0 < length bytes.new.items) }
{
    if !bytes.is_empty() {
        return Ok(());
    }
    match vec![in *bytes.allocator(); 0u8; BUFFER_BYTES] {
        Ok(room) => {
            *bytes = room;
            Ok(())
        }
        Err(_) => Err(NoMemory),
    }
}
