//! What a turn gave.
ghost use Rattle.std.specs.Prelude.{◌≡◌, IfOk};
ghost use Rattle.script_eval.specs.Machines.{IsDeep, IsReadyStop};
ghost use Rattle.script_eval.specs.Tasks.{Gives};

use crate::machine::{Machine, Stop};
use crate::outcome::Outcome;
use crate::task::Task;
use do_value::{Fields, Mem, Value};
use script_mean::Ask;
use script_state::{State, Waiting};
use script_steps::Outcome as Ended;
use write_batcher::Made;

/// The task where it waits for the answer to this ask.
#[tactic(auto, using(crate::proofs::Stopped::paused_gives))]
fn paused(machine: Machine, ask: Ask, wait: Waiting, class: u32, starts: bool) -> Outcome
    requires deep { IsDeep machine }
    requires ready { IsReadyStop machine (Stop.Asks ask wait) }
    ensures { Gives class starts (Stop.Asks ask wait) machine result }
{
    let Machine {
        state,
        frames,
        depth,
    } = machine;
    let State {
        vars,
        fields,
        closed,
        awaits,
        calls,
        transaction,
        block,
        ..
    } = state;
    Outcome::Paused {
        task: Task {
            class,
            starts,
            frames,
            vars,
            awaits,
            calls,
            transaction,
            block,
            wait,
            depth,
        },
        batches: closed,
        ask,
        fields,
    }
}

/// The task is at its end: the open batch is closed. A constructor that throws ends the object's incarnation.
fn over(machine: Machine, ended: Ended, class: u32, starts: bool) -> Mem<Outcome>
    ensures { IfOk result (Gives class starts (Stop.Over ended) machine) }
{
    let mut state = machine.state;
    state.cut()?;
    let (batches, fields) = (state.closed, state.fields);
    match ended {
        Ended::Returned(value) => Ok(Outcome::Done {
            batches,
            value,
            fields,
        }),
        Ended::Threw(value) => Ok(Outcome::Threw {
            batches,
            value,
            fields,
            reset: starts,
        }),
        Ended::Gave(_) => Ok(done(batches, fields)),
        Ended::Broke => Ok(done(batches, fields)),
        Ended::Continued => Ok(done(batches, fields)),
    }
}

/// The task is done, and gave nothing.
fn done(batches: Vec<Made>, fields: Fields) -> Outcome
    ensures { result ≡ Outcome.Done batches Value.Undefined fields }
{
    Outcome::Done {
        batches,
        value: Value::Undefined,
        fields,
    }
}

/// What a turn gave that ended so, of a task of this class that runs the constructor or not.
#[tactic(auto, using(crate::proofs::Stopped::exceeded_gives, crate::proofs::Stopped::reset_gives))]
pub(crate) fn given(machine: Machine, stop: Stop, class: u32, starts: bool) -> Mem<Outcome>
    requires deep { IsDeep machine }
    requires ready { IsReadyStop machine stop }
    ensures { IfOk result (Gives class starts stop machine) }
{
    match stop {
        Stop::Asks(ask, wait) => Ok(paused(machine, ask, wait, class, starts)),
        Stop::Exceeded => Ok(Outcome::Exceeded {
            batches: machine.state.closed,
        }),
        Stop::Reset(value) => {
            let (batches, fields) = (machine.state.closed, machine.state.fields);
            Ok(Outcome::Threw {
                batches,
                value,
                fields,
                reset: true,
            })
        }
        Stop::Over(ended) => over(machine, ended, class, starts),
    }
}
