//! The evaluator's tasks, as a front takes them.
ghost use Rattle.std.specs.Prelude.{◌≡◌, ◌∷◌, ℕ, List, IfOk};
ghost use Rattle.do_value.specs.Limits.{IsSafe};
ghost use Rattle.do_value.specs.Seen.{trees_in};
ghost use Rattle.do_tree.specs.Checked.{tree_of};
ghost use Rattle.do_tree.specs.Tree.{Script};
ghost use Rattle.script_mean.specs.Meaning.{meaning};
ghost use Rattle.script_mean.specs.Task.{Resume};
ghost use Rattle.script_eval.specs.Tasks as evaluator;
ghost use Rattle.front_turns.specs.Paused.{HasClass, HasMethod};
ghost use Rattle.front_turns.specs.Outcomes.{IsOfClass, later, segment_of};
ghost use Rattle.object_front.specs.Evaluated.{seen, stays};

use do_tree::Checked;
use do_value::{Fields, Mem, NoMemory, Value};
use front_turns::{Outcome, Task};
use script_mean::Answer;
use std::alloc::Global;

/// A task of the evaluator that waits for an answer.
pub(crate) struct Evaluated {
    task: Box<script_eval::Task>,
}

// Written out, so that it is one function: a derived one is proved again wherever a task is let go.
impl Drop for Evaluated {
    fn drop(self) {
        let Evaluated { task } = self;
        drop(task);
    }
}

impl Task for Evaluated {
    ghost seen = { seen };

    fn start(
        alloc: Global,
        checked: &Checked,
        class: u32,
        method: u32,
        args: Vec<Value>,
        fields: Fields,
        now: i64,
    ) -> Mem<Outcome<Evaluated>> {
        let outcome = script_eval::Task::start(alloc, checked, class, method, args, fields, now)?;
        let turn = turned(alloc, outcome)?;
        Ok(turn)
    }

    fn resume(
        self,
        alloc: Global,
        checked: &Checked,
        answer: Answer,
        fields: Fields,
        now: i64,
    ) -> Mem<Outcome<Evaluated>> {
        let Evaluated { task } = self;
        let task = Box::into_inner(task);
        let outcome = task.resume(alloc, checked, answer, fields, now)?;
        let turn = turned(alloc, outcome)?;
        Ok(turn)
    }

    fn block(&self) -> bool {
        self.task.block()
    }

    ghost stays = { stays };
}

// A task that waits is kept behind a pointer, so that what is moved of it is small.
fn keep(alloc: Global, task: script_eval::Task) -> Mem<Evaluated>
    ensures { IfOk result (λ kept. kept.task.value ≡ task) }
{
    match Box::new(alloc, task) {
        Ok(task) => Ok(Evaluated { task }),
        Err(_) => Err(NoMemory),
    }
}

// The evaluator's turn as the front's.
fn turned(alloc: Global, outcome: script_eval::Outcome) -> Mem<Outcome<Evaluated>>
    ensures turn { IfOk result (λ o. segment_of seen o ≡ evaluator.segment_of outcome) }
    ensures later { IfOk result (λ o. (script : Script) (rs : List Resume) → later seen script o rs ≡ evaluator.later script outcome rs) }
    ensures class { IfOk result (λ o. (class : ℕ) → evaluator.IsOfClass class outcome → IsOfClass seen class o) }
{
    match outcome {
        script_eval::Outcome::Paused {
            task,
            batches,
            ask,
            fields,
        } => Ok(Outcome::Paused {
            task: keep(alloc, task)?,
            batches,
            ask,
            fields,
        }),
        script_eval::Outcome::Done {
            batches,
            value,
            fields,
        } => Ok(Outcome::Done {
            batches,
            value,
            fields,
        }),
        script_eval::Outcome::Threw {
            batches,
            value,
            fields,
            reset,
        } => Ok(Outcome::Threw {
            batches,
            value,
            fields,
            reset,
        }),
        script_eval::Outcome::Exceeded { batches } => Ok(Outcome::Exceeded { batches }),
    }
}
