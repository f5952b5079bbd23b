//! Blocks of the context, while which no other event is delivered.
ghost use Rattle.std.specs.Prelude.{◌≡◌, false, IfOk};
ghost use Rattle.do_value.specs.Seen.{tree_of};
ghost use Rattle.script_mean.specs.Answers.{returned};
ghost use Rattle.script_state.specs.Ends.{Does, IsReady, Opens};
ghost use Rattle.script_steps.specs.Paths.{is_present};
ghost use Rattle.script_steps.specs.Seen.{outcome_of, unblocking};

use crate::done::Done;
use crate::state::State;
use crate::thrown::thrown;
use do_value::{Mem, Value};
use script_steps::{Await, Outcome};
use std::alloc::Global;

impl State {
    /// A block is opened; where one is open already, this throws.
    pub fn begin_block(&mut self, alloc: Global) -> Mem<Option<Outcome>>
        ensures { IfOk result (Opens self.old self.new) }
    {
        if self.block {
            return Ok(Some(thrown(alloc, "Error", "block")?));
        }
        self.block = true;
        Ok(None)
    }

    /// A block's body ended so: where it threw, the task and its object's incarnation end.
    pub fn end_block(&mut self, awaited: Await, ended: Outcome) -> Mem<Done>
        ensures same { IfOk result (Does (unblocking (is_present awaited) (outcome_of ended)) self.old self.new) }
        ensures ready { IfOk result (IsReady self.new) }
    {
        match ended {
            Outcome::Gave(_) => self.leave_block(awaited, Value::Undefined),
            Outcome::Returned(value) => self.leave_block(awaited, value),
            Outcome::Threw(value) => {
                self.cut()?;
                Ok(Done::Reset(value))
            }
            Outcome::Broke => Ok(self.exit_block(Outcome::Broke)),
            Outcome::Continued => Ok(self.exit_block(Outcome::Continued)),
        }
    }

    // A block's body ended so, without a value and without a throw.
    fn exit_block(&mut self, ended: Outcome) -> Done
        ensures ended { result ≡ Done.Ended ended }
        ensures open { self.new ≡ record self.old { block = false } }
    {
        self.block = false;
        Done::Ended(ended)
    }

    // A block's body returned this value.
    fn leave_block(&mut self, awaited: Await, value: Value) -> Mem<Done>
        ensures same { IfOk result (Does (unblocking (is_present awaited) (returned (tree_of value))) self.old self.new) }
        ensures ready { IfOk result (IsReady self.new) }
    {
        self.block = false;
        self.cut_after(awaited)?;
        Ok(Done::Ended(Outcome::Gave(value)))
    }
}
