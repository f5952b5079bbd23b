//! A source and a sink over readers and writers of the system. They tell no content.
ghost use Rattle.std.specs.Prelude.{◌≡◌, ◌≤◌, None, length, IfOk};
ghost use Rattle.do_disk.specs.Disk.{next_count, HasRisen};
ghost use Rattle.do_disk.specs.Real.{RealStream};

use crate::{Failed, Sink, Source};
use std::io;
use std::io::{ErrorKind, Read, Write};
use std::marker::Model;

/// A source over a reader. A read that a signal interrupts is tried again and is no fault.
#[derive(Drop)]
pub struct StdSource<R> {
    reader: R,
    faults: u64,
}

impl<R> Model for StdSource<R> {
    ghost Value = { RealStream };

    ghost view = { λ source. record { faults = source.faults } };
}

// Reads until nothing interrupts.
fn read_some<R: Read>(reader: &mut R, into: &mut [u8]) -> io::Result<usize>
    ensures { IfOk result (λ n. n ≤ length into.old) }
{
    for _ in 0..u64::MAX {
        match reader.read(into) {
            Err(error) if error.kind() == ErrorKind::Interrupted => {}
            read => return read,
        }
    }
    Err(io::Error::from(ErrorKind::Interrupted))
}

impl<R: Read + Drop> StdSource<R> {
    /// A source over this reader.
    pub fn new(reader: R) -> Self
        ensures { result.faults ≡ 0 }
    {
        StdSource { reader, faults: 0 }
    }

    // A call fails.
    fn fail(&mut self) -> Failed
        ensures one_more { self.new.faults ≡ next_count self.old.faults }
        ensures rose { HasRisen self.old.faults self.new.faults }
    {
        self.faults = self.faults.saturating_add(1);
        Failed
    }
}

impl<R: Read + Drop> Source for StdSource<R> {
    ghost left = { λ _. None };

    ghost faults_of = { λ source. source.faults };

    fn read(&mut self, into: &mut [u8]) -> Result<usize, Failed> {
        match read_some(&mut self.reader, into) {
            Ok(n) => Ok(n),
            Err(_) => Err(self.fail()),
        }
    }
}

/// A sink over a writer that keeps nothing back, as the standard output and a file do: each write is one of the stream, so
/// that one which fails took nothing. It flushes nothing, since a flush that fails doesn't tell what was taken. A write that
/// a signal interrupts is tried again and is no fault.
#[derive(Drop)]
pub struct StdSink<W> {
    writer: W,
    faults: u64,
}

impl<W> Model for StdSink<W> {
    ghost Value = { RealStream };

    ghost view = { λ sink. record { faults = sink.faults } };
}

// Writes until nothing interrupts.
fn write_some<W: Write>(writer: &mut W, from: &[u8]) -> io::Result<usize>
    ensures { IfOk result (λ n. n ≤ length from.now) }
{
    for _ in 0..u64::MAX {
        match writer.write(from) {
            Err(error) if error.kind() == ErrorKind::Interrupted => {}
            written => return written,
        }
    }
    Err(io::Error::from(ErrorKind::Interrupted))
}

impl<W: Write + Drop> StdSink<W> {
    /// A sink over this writer.
    pub fn new(writer: W) -> Self
        ensures { result.faults ≡ 0 }
    {
        StdSink { writer, faults: 0 }
    }

    // A call fails.
    fn fail(&mut self) -> Failed
        ensures one_more { self.new.faults ≡ next_count self.old.faults }
        ensures rose { HasRisen self.old.faults self.new.faults }
    {
        self.faults = self.faults.saturating_add(1);
        Failed
    }
}

impl<W: Write + Drop> Sink for StdSink<W> {
    ghost taken = { λ _. None };

    ghost faults_of = { λ sink. sink.faults };

    fn write(&mut self, from: &[u8]) -> Result<usize, Failed> {
        match write_some(&mut self.writer, from) {
            Ok(n) if n > 0 || from.is_empty() => Ok(n),
            _ => Err(self.fail()),
        }
    }
}
