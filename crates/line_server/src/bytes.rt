// The bytes of a source, given to lines.
ghost use Rattle.std.specs.Prelude.{◌≡◌, ◌<◌, ◌≤◌, ◌+◌, ◌^◌, [], Err, IfOk, OnErr, OnOk, false};

use crate::buffer::Buffer;
use crate::fault::LineFault;
use crate::front::{Front, front_of};
use crate::raw_line::RawLine;
use do_disk::Source;
use std::alloc::Global;

#[derive(Drop)]
pub(crate) struct Bytes<R> {
    pub(crate) source: R,
    pub(crate) buffer: Buffer,
    // Whether a read gave no byte: the source is asked for none any more.
    pub(crate) ended: bool,
}

// What was given to a line.
pub(crate) enum Given {
    // All of its bytes that were still wanting, and the LF behind them was taken too.
    Rest,
    // Some of its bytes.
    Part,
    // Nothing, since the input is at its end.
    Nothing,
}

impl<R: Source> Bytes<R> {
    ghost use Rattle.line_server.specs.Given.{AddsTo, CountsReads, Gives, IsAtEnd};

    pub(crate) fn new(alloc: Global, source: R) -> Bytes<R>
        ensures source { result.source ≡ source }
        ensures buffer { result.buffer ≡ [] }
        ensures ended { result.ended ≡ false }
    {
        Bytes {
            source,
            buffer: Buffer::new(alloc),
            ended: false,
        }
    }

    // Gives the line at most so many bytes, which it holds or reads.
    pub(crate) fn give(&mut self, line: &mut RawLine, most: u64) -> Result<Given, LineFault>
        requires room { (0 < most) × (line.old.length + most < 2 ^ 64) }
        requires going { self.old.ended ≡ false }
        ensures adds { IfOk result (λ given. AddsTo R.left self.old self.new line.old line.new most given) }
        ensures none_held { result ≡ Err LineFault.ReadFailed → self.new.buffer ≡ [] }
        ensures stays { OnErr result ((self.new.ended ≡ false) × Gives R.left self.old self.new []) }
        ensures faults { CountsReads (R.faults_of self.old.source) (R.faults_of self.new.source) result }
    {
        self.read_where_none()?;
        if self.buffer.is_empty() {
            self.ended = true;
            return Ok(Given::Nothing);
        }
        let held = self.buffer.held();
        match front_of(held, most) {
            Front::Whole(count) => {
                line.add(&held[..count])?;
                self.buffer.pass(count + 1);
                Ok(Given::Rest)
            }
            Front::Part(count) => {
                line.add(&held[..count])?;
                self.buffer.pass(count);
                Ok(Given::Part)
            }
        }
    }

    // Reads the next piece where nothing is held.
    fn read_where_none(&mut self) -> Result<(), LineFault>
        ensures gives { Gives R.left self.old self.new [] }
        ensures end { OnOk result (self.new.buffer ≡ [] → IsAtEnd R.left self.new) }
        ensures none_held { OnErr result (self.new.buffer ≡ []) }
        ensures ended { self.new.ended ≡ self.old.ended }
        ensures faults { CountsReads (R.faults_of self.old.source) (R.faults_of self.new.source) result }
    {
        if !self.buffer.is_empty() {
            return Ok(());
        }
        self.buffer.fill(&mut self.source)?;
        Ok(())
    }
}
