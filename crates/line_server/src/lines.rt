//! The lines of the input.
ghost use Rattle.std.specs.Prelude.{◌≡◌, ◌<◌, ◌≤◌, ◌⊎◌, ◌++◌, [], List, ℕ, Ok, Err, None, Some, true, false, IfOk, IfSome, OnOk, length, min};
ghost use Rattle.do_disk.specs.Disk.{IfTold};
ghost use Rattle.line_server.specs.Limits.{most_lines};

use crate::MOST_LINES;
use crate::bytes::Bytes;
use crate::cut::cut;
use crate::fault::LineFault;
use crate::front::has_line;
use crate::line::Line;
use crate::raw_line::RawLine;
use do_disk::Source;
use std::alloc::Global;

/// The lines of a source, numbered from 1, without the blank ones. It keeps no more of a line than is read of it.
pub struct Lines<R> {
    alloc: Global,
    bytes: Bytes<R>,
    // The line that was read last, whose memory is that of the next.
    raw: RawLine,
    count: u64,
    fault: Option<LineFault>,
    ghost counted: { count ≤ most_lines },
}

// Written out, so that letting one go is proved once.
impl<R: Drop> Drop for Lines<R> {
    fn drop(self) {
        let Lines {
            alloc: _,
            bytes,
            raw,
            count: _,
            fault,
        } = self;
        drop(bytes);
        drop(raw);
        drop(fault);
    }
}

impl<R: Source> Lines<R> {
    ghost use Rattle.line_server.specs.Cut.{lines as all_lines};
    ghost use Rattle.line_server.specs.Ends.{has_line as ends_line};
    ghost use Rattle.line_server.specs.Given.{CountsReads};
    ghost use Rattle.line_server.specs.Requests.{SeenLine, requests, through};
    ghost use Rattle.line_server.specs.Lines.{lines_in, fault_in, source_of, count_of, fault_of, has_ended, held_of, most_left, IsReading, IsFirstOf, LooksAt, IsAllRead, ReadsOn};

    /// The lines of the source from its first byte on. It takes no memory and reads nothing.
    pub fn new(alloc: Global, source: R) -> Lines<R>
        ensures reading { IfTold (R.left source) (λ whole. IsReading R.left whole [] result) }
        ensures source { source_of result ≡ source }
        ensures count { count_of result ≡ 0 }
        ensures fault { fault_of result ≡ None }
        ensures ended { has_ended result ≡ false }
    {
        Lines {
            alloc,
            bytes: Bytes::new(alloc, source),
            raw: RawLine::new(alloc),
            count: 0,
            fault: None,
        }
    }

    /// The next line that isn't blank. `None` comes at the input's end and after line [`MOST_LINES`]. After a fault every
    /// further call gives that fault and reads nothing. Once a read gave no byte the source isn't read any more, also where
    /// `next` is called again.
    pub fn next(&mut self) -> Result<Option<Line>, LineFault>
        ensures reading { OnOk result ((whole : List ℕ) (given : List SeenLine) → IsReading R.left whole given self.old
            → IsReading R.left whole (given ++ lines_in result) self.new) }
        ensures first { (whole : List ℕ) (given : List SeenLine) → IsReading R.left whole given self.old
            → IsFirstOf R.left whole (given ++ lines_in result) self.new }
        ensures looked_at { (whole : List ℕ) (given : List SeenLine) → IsReading R.left whole given self.old
            → LooksAt R.left whole (given ++ lines_in result) (most_left result) self.new }
        // Where the source failed no whole line that was read is lost.
        ensures exact { result ≡ Err LineFault.ReadFailed → (whole : List ℕ) (given : List SeenLine) → IsReading R.left whole given self.old
            → IsAllRead R.left whole given self.new }
        ensures all { result ≡ Ok None → (whole : List ℕ) (given : List SeenLine) → IsReading R.left whole given self.old
            → given ≡ through most_lines (requests whole) }
        ensures total { result ≡ Ok None → (whole : List ℕ) (given : List SeenLine) → IsReading R.left whole given self.old
            → count_of self.new ≡ min most_lines (length (all_lines whole)) }
        ensures end { result ≡ Ok None → (count_of self.new ≡ most_lines) ⊎ (has_ended self.new ≡ true) }
        ensures met_end { has_ended self.old ≡ false → has_ended self.new ≡ true → IfTold (R.left (source_of self.new)) (λ rest. rest ≡ []) }
        ensures ended { has_ended self.old ≡ true → fault_of self.old ≡ None → (result ≡ Ok None) × (self.new ≡ self.old) }
        ensures number { IfOk result (λ o. IfSome o (λ line. line.number ≡ count_of self.new)) }
        ensures further { IfOk result (λ o. IfSome o (λ line. count_of self.old < count_of self.new)) }
        ensures count { (count_of self.old ≤ count_of self.new) × (count_of self.new ≤ most_lines) }
        ensures fault { fault_of self.new ≡ fault_in result }
        ensures again { (fault : LineFault) → fault_of self.old ≡ Some fault → (result ≡ Err fault) × (self.new ≡ self.old) }
        ensures reads { fault_of self.old ≡ None → CountsReads (R.faults_of (source_of self.old)) (R.faults_of (source_of self.new)) result }
    {
        if let Some(fault) = self.fault {
            return Err(fault);
        }
        match self.read() {
            Ok(line) => Ok(line),
            Err(fault) => {
                self.fault = Some(fault);
                Err(fault)
            }
        }
    }

    /// Whether a line that isn't blank is at hand as a whole: then `next` asks the source for nothing, which no clause says. It costs a look
    /// at the bytes that are held, to that line's end at most.
    pub fn is_ready(&self) -> bool
        ensures { result ≡ ends_line (held_of self.now) }
    {
        has_line(self.bytes.buffer.held())
    }

    /// How many lines were read, blank ones included.
    pub fn count(&self) -> u64
        ensures value { result ≡ count_of self.now }
        ensures limit { result ≤ most_lines }
    {
        self.count
    }

    /// The source as reading left it. Bytes that were read of it and not given are lost.
    pub fn into_source(self) -> R
        ensures { result ≡ source_of self }
    {
        let Lines {
            alloc: _,
            bytes: Bytes {
                source,
                buffer,
                ended: _,
            },
            raw,
            count: _,
            fault: _,
        } = self;
        drop(buffer);
        drop(raw);
        source
    }

    fn read(&mut self) -> Result<Option<Line>, LineFault>
        requires { fault_of self.old ≡ None }
        ensures on { ReadsOn R.left self.old self.new result }
        ensures number { IfOk result (λ o. IfSome o (λ line. line.number ≡ count_of self.new)) }
        ensures further { IfOk result (λ o. IfSome o (λ line. count_of self.old < count_of self.new)) }
        ensures fault { fault_of self.new ≡ None }
        ensures ended { has_ended self.old ≡ true → (result ≡ Ok None) × (self.new ≡ self.old) }
        ensures reads { CountsReads (R.faults_of (source_of self.old)) (R.faults_of (source_of self.new)) result }
    {
        if self.bytes.ended {
            return Ok(None);
        }
        while self.count < MOST_LINES {
            let some = cut(&mut self.bytes, &mut self.raw)?;
            if !some {
                return Ok(None);
            }
            self.count += 1;
            if !self.raw.blank {
                let body = self.raw.body(self.alloc)?;
                return Ok(Some(Line {
                    number: self.count,
                    body,
                }));
            }
            if self.bytes.ended {
                return Ok(None);
            }
        }
        Ok(None)
    }
}
