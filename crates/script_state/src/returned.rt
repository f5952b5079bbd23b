//! Returns of helpers.
ghost use Rattle.std.specs.Prelude.{IfOk};
ghost use Rattle.do_value.specs.Seen.{tree_of};
ghost use Rattle.script_mean.specs.Answers.{returned};
ghost use Rattle.script_state.specs.Ends.{Goes};
ghost use Rattle.script_steps.specs.Paths.{is_present};
ghost use Rattle.script_steps.specs.Seen.{outcome_of, returned_to};
ghost use Rattle.script_vars.specs.Seen.{env_of};

use crate::state::State;
use do_value::{Mem, Value};
use script_steps::{Await, Outcome};
use script_vars::Vars;

impl State {
    /// A helper's body ended so: its caller goes on with its own variables.
    pub fn return_to(&mut self, awaited: Await, caller: Vars, ended: Outcome) -> Mem<Outcome>
        ensures { IfOk result (Goes (returned_to (is_present awaited) (env_of caller) (outcome_of ended)) self.old self.new) }
    {
        self.vars = caller;
        match ended {
            Outcome::Gave(_) => self.back(awaited, Value::Undefined),
            Outcome::Returned(value) => self.back(awaited, value),
            Outcome::Threw(value) => Ok(Outcome::Threw(value)),
            Outcome::Broke | Outcome::Continued => Ok(Outcome::Gave(Value::Undefined)),
        }
    }

    // A helper's body returned this value.
    fn back(&mut self, awaited: Await, value: Value) -> Mem<Outcome>
        ensures { IfOk result (Goes (returned_to (is_present awaited) (env_of self.old.vars) (returned (tree_of value))) self.old self.new) }
    {
        self.cut_after(awaited)?;
        Ok(Outcome::Gave(value))
    }
}
