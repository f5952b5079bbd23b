//! The top call.
ghost use Rattle.std.specs.Prelude.{◌≡◌, ◌≤◌, map, string_bytes};
ghost use Rattle.do_tree.specs.Checked.{tree_of as script_in};
ghost use Rattle.host_core.specs.Report.{AreInRange, IsEmpty};
ghost use Rattle.host_core.specs.declared.report.Report.{Report};
ghost use Rattle.command_words.specs.Asked as spoken;
ghost use Rattle.command_words.specs.Asked.{asked};
ghost use Rattle.do_host.specs.Outside.{depot_of, disks_of, given_of, left_of, outside_of, sink_of, source_of};
ghost use Rattle.do_host.specs.Runs.{Runs};
ghost use Rattle.do_host.specs.ServeRuns.{ServesTree};
ghost use Rattle.do_host.specs.Settings.{serving_in, settings_in};
ghost use Rattle.do_host.specs.Status as spec;

use crate::dump::dump_slots;
use crate::ending::{end_at, end_early, end_served, end_with};
use crate::generating::{GenWords, run_gen};
use crate::mounting::mount_slots;
use crate::run_end::RunEnd;
use crate::script::{read_script, told_script};
use command_words::{Command, ServeWords, command_of};
use do_disk::{Depot, Sink, Source, TurnGate};
use do_tree::Checked;
use do_value::NoMemory;
use host_core::{Report, ServeEnd, Served, Settings, opening_end, serve};
use std::alloc::Global;
use std::sync::Wait;
use std::thread::Threads;

/// The line of a run whose words aren't taken.
const USAGE: &str = "[\"usage\"]\n";

/// A run's exit status, with the source and the sink as it left them.
#[derive(Drop)]
pub struct Ran<R, W> {
    pub status: u8,
    pub input: R,
    pub out: W,
}

/// Runs the program: `serve SCRIPT FOLDER` serves the lines of the input over the slots of the folder, `check SCRIPT` tells of the
/// script alone, `dump FOLDER` prints what the slots of the folder have, and `gen SEED COUNT FOLDER` serves so many lines that the seed makes,
/// over 16 slots of the folder, and prints what they come to. [`command_of`] reads the words, with the options.
///
/// | status | comes |
/// |---|---|
/// | 0 | `serve`: the input was read to its end, or through line [`MOST_LINES`](line_server::MOST_LINES), and nothing is under way |
/// | | `check`: the script is accepted; prints `["script",[names]]`, the classes in the order of the text |
/// | | `dump`: prints for each slot with an object `["object",slot,class,name]`, a `["pair",slot,key,value]` for each pair, ascending by key, |
/// | | and `["alarm",slot,time,retry]` if there is one |
/// | | `gen`: all lines were served, and `["summary",COUNT,replies,total]` is printed: how many lines there were, how many replies, |
/// | | and the sum of what the slots have under `n` |
/// | 1 | exactly where the words are none of the commands; prints `["usage"]` |
/// | 2 | where the script is refused; prints `["script-refused",place,kind]`, its first fault; `gen`, whose own script is accepted, never ends so |
/// | 3 | only where the count of faults of the depot or of a slot's disk rose while the slots were opened, or read by `dump`, or mounted again by `gen` |
/// | 4 | want of memory |
/// | 5 | only where the source's count of faults rose |
/// | 6 | only where the sink's count of faults rose |
/// | 7 | only where, all earlier slots being good, a slot's file is foreign, damaged or mixed, or names the object of an earlier slot |
/// | | prints `["foreign",slot,place]`, `["damaged",slot,place]`, `["mixed",slot,class,name,class,name]` or `["twice",a,b]` |
/// | | the report has its disk as `unopened` |
///
/// No other status comes. It isn't promised to return.
///
/// As many threads serve as the words ask for. The gate is entered and left, with the number of the slot, round the turns that one makes of a slot's object.
pub fn run<
    P: Depot,
    R: Source + Drop + Send,
    W: Sink + Drop + Send,
    G: TurnGate + Sync,
    T: Threads + Wait + Copy + Send + Sync,
>(
    rt: &T,
    alloc: Global,
    words: &[String],
    depot: &mut P,
    input: R,
    out: W,
    gate: &G,
    report: &mut Report<P::Store>,
) -> Ran<R, W>
    requires { IsEmpty report.old }
    ensures { Runs (asked (map string_bytes words.now))
        (outside_of (disks_of P.Store.told P.Store.image P.Store.left_since P.Store.moment_of P.Store.faults_of)
        (source_of R.left R.faults_of) (sink_of W.taken W.faults_of))
        (given_of (depot_of P.text_at P.slot_at P.asked P.faults_of depot.old) input out report.old)
        (left_of (depot_of P.text_at P.slot_at P.asked P.faults_of depot.new) result.input result.out report.new result.status) }
{
    match command_of(alloc, words) {
        Ok(Command::Serve(told)) => run_serve(rt, alloc, told, depot, input, out, gate, report),
        Ok(Command::Check { script }) => check_script(alloc, script.as_str(), depot, input, out),
        Ok(Command::Dump { folder, slots }) => {
            run_dump(alloc, folder.as_str(), slots, depot, input, out, report)
        }
        Ok(
            Command::Gen {
                seed,
                count,
                folder,
            },
        ) => {
            let told = GenWords {
                seed,
                count,
                folder,
            };
            run_gen(rt, alloc, told, depot, input, out, gate, report)
        }
        Ok(Command::Usage) => end_with(USAGE.as_bytes(), 1, input, out),
        Err(NoMemory) => end_at(4, input, out),
    }
}

// Reads the script, and serves the input over the slots where it is accepted.
fn run_serve<
    P: Depot,
    R: Source + Drop + Send,
    W: Sink + Drop + Send,
    G: TurnGate + Sync,
    T: Threads + Wait + Copy + Send + Sync,
>(
    rt: &T,
    alloc: Global,
    told: ServeWords,
    depot: &mut P,
    input: R,
    out: W,
    gate: &G,
    report: &mut Report<P::Store>,
) -> Ran<R, W>
    requires range { AreInRange (settings_in told) }
    requires empty { IsEmpty report.old }
    ensures { Runs (spoken.serves (string_bytes told.script) (string_bytes told.folder) told.slots told.workers told.journal)
        (outside_of (disks_of P.Store.told P.Store.image P.Store.left_since P.Store.moment_of P.Store.faults_of)
        (source_of R.left R.faults_of) (sink_of W.taken W.faults_of))
        (given_of (depot_of P.text_at P.slot_at P.asked P.faults_of depot.old) input out report.old)
        (left_of (depot_of P.text_at P.slot_at P.asked P.faults_of depot.new) result.input result.out report.new result.status) }
{
    match read_script(alloc, depot, told.script.as_str()) {
        Ok(checked) => { serve_checked(rt, alloc, &checked, told, depot, input, out, gate, report) }
        Err(end) => end_early(end, input, out),
    }
}

// Serves the input over the slots, and tells the end.
fn serve_checked<
    P: Depot,
    R: Source + Drop + Send,
    W: Sink + Drop + Send,
    G: TurnGate + Sync,
    T: Threads + Wait + Copy + Send + Sync,
>(
    rt: &T,
    alloc: Global,
    checked: &Checked,
    told: ServeWords,
    depot: &mut P,
    input: R,
    out: W,
    gate: &G,
    report: &mut Report<P::Store>,
) -> Ran<R, W>
    requires range { AreInRange (settings_in told) }
    requires empty { IsEmpty report.old }
    ensures { ServesTree
        (outside_of (disks_of P.Store.told P.Store.image P.Store.left_since P.Store.moment_of P.Store.faults_of)
        (source_of R.left R.faults_of) (sink_of W.taken W.faults_of))
        (script_in checked.now) (serving_in told)
        (given_of (depot_of P.text_at P.slot_at P.asked P.faults_of depot.old) input out report.old)
        (left_of (depot_of P.text_at P.slot_at P.asked P.faults_of depot.new) result.input result.out report.new result.status) }
{
    let settings = settings_of(told);
    let Served { end, input, out } = serve(
        rt, alloc, checked, &settings, depot, input, out, gate, report,
    );
    end_served(alloc, end, input, out)
}

fn settings_of(told: ServeWords) -> Settings
    ensures { result ≡ settings_in told }
{
    let ServeWords {
        script,
        folder,
        slots,
        workers,
        journal,
    } = told;
    drop(script);
    Settings {
        folder,
        slots,
        workers,
        journal,
    }
}

// Tells the classes of the script, or why it is refused.
fn check_script<P: Depot, R: Source, W: Sink>(
    alloc: Global,
    script: &str,
    depot: &mut P,
    input: R,
    out: W,
) -> Ran<R, W>
    ensures { (report : Report P.Store) → IsEmpty report → Runs (spoken.checks script.now)
        (outside_of (disks_of P.Store.told P.Store.image P.Store.left_since P.Store.moment_of P.Store.faults_of)
        (source_of R.left R.faults_of) (sink_of W.taken W.faults_of))
        (given_of (depot_of P.text_at P.slot_at P.asked P.faults_of depot.old) input out report)
        (left_of (depot_of P.text_at P.slot_at P.asked P.faults_of depot.new) result.input result.out report result.status) }
{
    match told_script(alloc, depot, script) {
        Ok(line) => end_with(line.as_slice(), 0, input, out),
        Err(end) => end_early(end, input, out),
    }
}

// Mounts and reads the slots, prints what each has once all are read, and tells the end.
fn run_dump<P: Depot, R: Source, W: Sink>(
    alloc: Global,
    folder: &str,
    slots: u32,
    depot: &mut P,
    input: R,
    out: W,
    report: &mut Report<P::Store>,
) -> Ran<R, W>
    requires empty { IsEmpty report.old }
    requires some { 1 ≤ slots }
    ensures { Runs (spoken.dumps folder.now slots)
        (outside_of (disks_of P.Store.told P.Store.image P.Store.left_since P.Store.moment_of P.Store.faults_of)
        (source_of R.left R.faults_of) (sink_of W.taken W.faults_of))
        (given_of (depot_of P.text_at P.slot_at P.asked P.faults_of depot.old) input out report.old)
        (left_of (depot_of P.text_at P.slot_at P.asked P.faults_of depot.new) result.input result.out report.new result.status) }
{
    let mut out = out;
    match mount_slots(alloc, folder, slots, depot, report) {
        Ok(storages) => {
            let printed = dump_slots(alloc, report.slots.as_slice(), storages, &mut out);
            end_served(alloc, dump_end(printed), input, out)
        }
        Err(end) => end_served(alloc, opening_end(end), input, out),
    }
}

// The end of a run that printed what it had to, or a part of it.
pub(crate) fn dump_end(dumped: Result<(), RunEnd>) -> ServeEnd
    ensures { result ≡ spec.dump_end dumped }
{
    match dumped {
        Ok(()) => ServeEnd::Finished,
        Err(RunEnd::DepotFailed) => ServeEnd::OpenFailed,
        Err(RunEnd::NoMemory) => ServeEnd::NoMemory,
        Err(RunEnd::WriteFailed) => ServeEnd::WriteFailed,
    }
}
