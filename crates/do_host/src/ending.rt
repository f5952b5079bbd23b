//! How a run shows its end.
ghost use Rattle.std.specs.Prelude.{◌≡◌, ◌≢◌, ◌⊎◌};
ghost use Rattle.do_disk.specs.Disk.{Rose};
ghost use Rattle.do_host.specs.Endings.{EndsAs, TellsEnd};
ghost use Rattle.do_host.specs.Written.{WritesAll, WritesFirstOf};

use crate::bad_slot::bad_line;
use crate::early_end::EarlyEnd;
use crate::program::Ran;
use crate::run_end::RunEnd;
use do_disk::Sink;
use host_core::ServeEnd;
use line_server::put;
use std::alloc::Global;

// Tells why the run ends before a slot is asked for, where that has a line.
pub(crate) fn end_early<R, W: Sink>(end: EarlyEnd, input: R, out: W) -> Ran<R, W>
    ensures ends { EndsAs (W.taken out) (W.taken result.out) result.status end }
    ensures input { result.input ≡ input }
    ensures failed { (end ≡ EarlyEnd.Stopped RunEnd.WriteFailed → ⊥) → result.status ≡ 6 → Rose (W.faults_of out) (W.faults_of result.out) }
{
    match end {
        EarlyEnd::Refused(line) => end_with(line.as_slice(), 2, input, out),
        EarlyEnd::Stopped(stop) => Ran {
            status: stop.status(),
            input,
            out,
        },
    }
}

// Ends as the slots ended. A bad one has its line, where there is memory for it.
pub(crate) fn end_served<R, W: Sink>(alloc: Global, end: ServeEnd, input: R, out: W) -> Ran<R, W>
    ensures tells { TellsEnd W.taken W.faults_of out result.out result.status end }
    ensures input { result.input ≡ input }
{
    match end {
        ServeEnd::BadSlot(bad) => match bad_line(alloc, &bad) {
            Ok(line) => end_with(line.as_slice(), 7, input, out),
            Err(_) => end_at(4, input, out),
        },
        ServeEnd::Finished => end_at(0, input, out),
        ServeEnd::OpenFailed => end_at(3, input, out),
        ServeEnd::NoMemory => end_at(4, input, out),
        ServeEnd::ReadFailed => end_at(5, input, out),
        ServeEnd::WriteFailed => end_at(6, input, out),
    }
}

// Ends with the status, and writes nothing.
pub(crate) fn end_at<R, W>(status: u8, input: R, out: W) -> Ran<R, W>
    ensures { result ≡ record { status = status; input = input; out = out } }
{
    Ran { status, input, out }
}

// Writes a line, and ends with the status, or where a write fails with that of a write fault.
pub(crate) fn end_with<R, W: Sink>(line: &[u8], status: u8, input: R, out: W) -> Ran<R, W>
    requires { status ≢ 6 }
    ensures status { (result.status ≡ status) ⊎ (result.status ≡ 6) }
    ensures input { result.input ≡ input }
    ensures whole { result.status ≢ 6 → WritesAll (W.taken out) (W.taken result.out) line.now }
    ensures written { WritesFirstOf (W.taken out) (W.taken result.out) line.now }
    ensures failed { result.status ≡ 6 → Rose (W.faults_of out) (W.faults_of result.out) }
    ensures steady { result.status ≢ 6 → W.faults_of result.out ≡ W.faults_of out }
{
    let mut out = out;
    let status = match put(&mut out, line) {
        Ok(()) => status,
        Err(_) => RunEnd::WriteFailed.status(),
    };
    Ran { status, input, out }
}
