// One line of the input.
ghost use Rattle.std.specs.Prelude.{◌≡◌, false};
ghost use Rattle.line_server.specs.Taken.{ReadsLine};
ghost use Rattle.line_server.specs.Given.{CountsReads};

use crate::MOST_CUT_BYTES;
use crate::bytes::{Bytes, Given};
use crate::fault::LineFault;
use crate::raw_line::RawLine;
use do_disk::Source;

// Reads the next line and its LF, where it has one. No line is the input's end.
pub(crate) fn cut<R: Source>(bytes: &mut Bytes<R>, line: &mut RawLine) -> Result<bool, LineFault>
    requires { bytes.old.ended ≡ false }
    ensures line { ReadsLine R.left bytes.old bytes.new line.new result }
    ensures reads { CountsReads (R.faults_of bytes.old.source) (R.faults_of bytes.new.source) result }
{
    line.clear();
    while line.length < MOST_CUT_BYTES {
        match bytes.give(line, MOST_CUT_BYTES - line.length)? {
            Given::Rest => return Ok(true),
            Given::Part => {}
            Given::Nothing => return Ok(line.length > 0),
        }
    }
    Ok(true)
}
