//! What the front asks of the evaluator of scripts.
ghost use Rattle.std.specs.Prelude.{◌≡◌, ◌∷◌, [], List, IfOk};
ghost use Rattle.do_value.specs.Limits.{IsSafe};
ghost use Rattle.do_value.specs.Seen.{trees_in};
ghost use Rattle.do_tree.specs.Checked.{tree_of};
ghost use Rattle.do_tree.specs.Tree.{Script};
ghost use Rattle.script_mean.specs.Meaning.{meaning};
ghost use Rattle.script_mean.specs.Task.{Resume};
ghost use Rattle.front_turns.specs.Paused.{Paused, HasClass, HasMethod};
ghost use Rattle.front_turns.specs.Outcomes.{IsOfClass, later, segment_of};

use crate::outcome::Outcome;
use do_tree::Checked;
use do_value::{Fields, Mem, Value};
use script_mean::Answer;
use std::alloc::Global;

/// A task of the evaluator that waits for an answer.
pub trait Task {
    /// Its class, whether its block is open, and the turns that it still gives.
    ghost seen: { Self → Paused };

    /// A task runs the method of this number of the class of this number, on an object with these fields, at this moment,
    /// to its end or its first ask.
    fn start(
        alloc: Global,
        checked: &Checked,
        class: u32,
        method: u32,
        args: Vec<Value>,
        fields: Fields,
        now: i64,
    ) -> Mem<Outcome<Self>>
        requires method { HasMethod (tree_of checked.now) class method }
        requires now { IsSafe now }
        ensures meaning { IfOk result (λ o. (rs : List Resume)
            → meaning (tree_of checked.now) class method (trees_in args.items) (record { fields = fields; now = now }) rs
            ≡ segment_of seen o ∷ later seen (tree_of checked.now) o rs) }
        ensures class { IfOk result (IsOfClass seen class) };

    /// The task goes on with the answer to its ask, on its object with these fields, at this moment.
    fn resume(
        self,
        alloc: Global,
        checked: &Checked,
        answer: Answer,
        fields: Fields,
        now: i64,
    ) -> Mem<Outcome<Self>>
        requires class { HasClass (tree_of checked.now) (seen self).class }
        requires now { IsSafe now }
        ensures rest { IfOk result (λ o. (rs : List Resume)
            → (seen self).rest (tree_of checked.now) (record { answer = answer; fields = fields; now = now } ∷ rs)
            ≡ segment_of seen o ∷ later seen (tree_of checked.now) o rs) }
        ensures class { IfOk result (IsOfClass seen (seen self).class) };

    /// Whether its block is open.
    fn block(&self) -> bool
        ensures { result ≡ (seen self.now).block };

    /// Without an answer it gives no turn.
    ghost stays: { (t : Self) (script : Script) → (seen t).rest script [] ≡ [] };
}
