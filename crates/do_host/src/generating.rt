//! `gen`: the lines that a seed makes are served, and what they come to is printed.
ghost use Rattle.std.specs.Prelude.{◌≡◌, ◌≤◌, ℕ, List, IfOk, length, string_bytes};
ghost use Rattle.do_disk.specs.Slots.{most_slots};
ghost use Rattle.do_tree.specs.Checked.{tree_of as script_in};
ghost use Rattle.host_core.specs.Report.{IsEmpty};
ghost use Rattle.command_words.specs.Asked as spoken;
ghost use Rattle.serde_json.specs.View.{view};
ghost use Rattle.do_host.specs.GenRuns as spec;
ghost use Rattle.do_host.specs.GenRuns.{ServesMade, SumsUp, gen_script};
ghost use Rattle.do_host.specs.Generator as made;
ghost use Rattle.do_host.specs.Outside.{depot_of, disks_of, given_of, left_of, outside_of, sink_of, source_of};
ghost use Rattle.do_host.specs.Runs.{Runs};
ghost use Rattle.do_host.specs.Scripts.{IsAccepted};

use crate::accept::accept;
use crate::dump::put_line;
use crate::ending::{end_at, end_early, end_served};
use crate::made_lines::made_lines;
use crate::made_source::MadeSource;
use crate::program::{Ran, dump_end};
use crate::summing::sum_slots;
use do_disk::{Depot, Disk, Sink, Source, TurnGate, VoidSink};
use do_tree::Checked;
use do_value::{Mem, NoMemory};
use host_core::{Report, ServeEnd, Served, Settings, opening_end, serve};
use line_server::{OutLine, json_text};
use serde_json::{Value as Json, json};
use std::alloc::{AllocError, Global};
use std::sync::Wait;
use std::thread::Threads;

// The script that is served.
const SCRIPT: &str = r#"export class G extends DurableObject {
  async add(k) { let n = await this.ctx.storage.get("n") ?? 0; this.ctx.storage.put("n", n + k); return n + k; }
}
"#;

const SLOTS: u32 = 16;

const WORKERS: u32 = 4;

const JOURNAL_BYTES: u64 = 1 << 30;

// What `gen` is told.
#[derive(Drop)]
pub(crate) struct GenWords {
    pub(crate) seed: u64,
    pub(crate) count: u64,
    pub(crate) folder: String,
}

// Makes the lines, and serves them where there is memory for them.
pub(crate) fn run_gen<
    P: Depot,
    R: Source + Drop + Send,
    W: Sink + Drop + Send,
    G: TurnGate + Sync,
    T: Threads + Wait + Copy + Send + Sync,
>(
    rt: &T,
    alloc: Global,
    told: GenWords,
    depot: &mut P,
    input: R,
    out: W,
    gate: &G,
    report: &mut Report<P::Store>,
) -> Ran<R, W>
    requires { IsEmpty report.old }
    ensures { Runs (spoken.gens told.seed told.count (string_bytes told.folder))
        (outside_of (disks_of P.Store.told P.Store.image P.Store.left_since P.Store.moment_of P.Store.faults_of)
        (source_of R.left R.faults_of) (sink_of W.taken W.faults_of))
        (given_of (depot_of P.text_at P.slot_at P.asked P.faults_of depot.old) input out report.old)
        (left_of (depot_of P.text_at P.slot_at P.asked P.faults_of depot.new) result.input result.out report.new result.status) }
{
    let Ok(lines) = made_lines(alloc, told.seed, told.count) else {
        return end_at(4, input, out);
    };
    match accept(alloc, SCRIPT.as_bytes()) {
        Ok(checked) => {
            serve_made(
                rt,
                alloc,
                &checked,
                lines,
                told.count,
                told.folder,
                depot,
                input,
                out,
                gate,
                report,
            )
        }
        Err(end) => end_early(end, input, out),
    }
}

// Serves the lines over the slots, prints what they come to, and tells the end.
fn serve_made<
    P: Depot,
    R: Source + Drop + Send,
    W: Sink + Drop + Send,
    G: TurnGate + Sync,
    T: Threads + Wait + Copy + Send + Sync,
>(
    rt: &T,
    alloc: Global,
    checked: &Checked,
    lines: Vec<u8>,
    count: u64,
    folder: String,
    depot: &mut P,
    input: R,
    out: W,
    gate: &G,
    report: &mut Report<P::Store>,
) -> Ran<R, W>
    requires { IsEmpty report.old }
    ensures { (seed : ℕ) → lines.items ≡ made.made_lines seed count → IsAccepted gen_script (script_in checked.now) → ServesMade
        (outside_of (disks_of P.Store.told P.Store.image P.Store.left_since P.Store.moment_of P.Store.faults_of)
        (source_of R.left R.faults_of) (sink_of W.taken W.faults_of))
        seed count (string_bytes folder)
        (given_of (depot_of P.text_at P.slot_at P.asked P.faults_of depot.old) input out report.old)
        (left_of (depot_of P.text_at P.slot_at P.asked P.faults_of depot.new) result.input result.out report.new result.status) }
{
    let settings = Settings {
        folder,
        slots: SLOTS,
        workers: WORKERS,
        journal: JOURNAL_BYTES,
    };
    let Served {
        end,
        input: _,
        out: _,
    } = serve(
        rt,
        alloc,
        checked,
        &settings,
        depot,
        MadeSource::new(lines),
        VoidSink,
        gate,
        report,
    );
    let mut out = out;
    let end = go_on(alloc, count, end, report, &mut out);
    end_served(alloc, end, input, out)
}

// Adds up what the slots have where all was served, and prints it.
fn go_on<S: Disk + Drop, W: Sink>(
    alloc: Global,
    count: u64,
    served: ServeEnd,
    report: &mut Report<S>,
    out: &mut W,
) -> ServeEnd
    requires { served ≡ ServeEnd.Finished → length report.old.slots.items ≤ most_slots }
    ensures { spec.GoesOn (disks_of S.told S.image S.left_since S.moment_of S.faults_of) (sink_of W.taken W.faults_of)
        count served report.old out.old out.new result report.new }
{
    match served {
        ServeEnd::Finished => sum_up(alloc, count, report, out),
        other => other,
    }
}

// Adds up what the slots have, and prints it behind the number of the lines and that of the replies.
fn sum_up<S: Disk + Drop, W: Sink>(
    alloc: Global,
    count: u64,
    report: &mut Report<S>,
    out: &mut W,
) -> ServeEnd
    requires { length report.old.slots.items ≤ most_slots }
    ensures { SumsUp (disks_of S.told S.image S.left_since S.moment_of S.faults_of) (sink_of W.taken W.faults_of)
        count report.old out.old out.new result report.new }
{
    let replies = replies_in(report.switch.lines.as_slice());
    match sum_slots(alloc, &mut report.slots) {
        Ok(total) => dump_end(put_line(summary_line(alloc, count, replies, total), out)),
        Err(end) => opening_end(end),
    }
}

// How many of the lines are replies.
fn replies_in(lines: &[OutLine]) -> u64
    ensures { result ≡ spec.replies_in lines.now }
{
    let mut replies = 0;
    for line in lines {
        if is_reply(line) {
            replies += 1;
        }
    }
    replies
}

fn is_reply(line: &OutLine) -> bool
    ensures { result ≡ spec.is_reply line.now }
{
    matches!(line, OutLine::Reply { .. })
}

// `["summary",count,replies,total]` and an LF.
fn summary_line(alloc: Global, count: u64, replies: u64, total: i64) -> Mem<Vec<u8>>
    ensures { IfOk result (λ bytes. bytes.items ≡ spec.summary_line count replies total) }
{
    let Ok(json) = summary_json(alloc, count, replies, total) else {
        return Err(NoMemory);
    };
    match json_text(alloc, &json) {
        Ok(text) => Ok(text),
        Err(_) => Err(NoMemory),
    }
}

fn summary_json(alloc: Global, count: u64, replies: u64, total: i64) -> Result<Json, AllocError>
    ensures { IfOk result (λ json. view json ≡ spec.summary_json count replies total) }
{
    json!(in alloc; ["summary", count, replies, total])
}
