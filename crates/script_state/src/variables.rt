//! Variables.
ghost use Rattle.std.specs.Prelude.{◌≡◌, [], option_map, IfOk, OnOk};
ghost use Rattle.do_tree.specs.Nodes.{block_in};
ghost use Rattle.do_tree.specs.Seen.{expr_of};
ghost use Rattle.do_value.specs.Seen.{tree_of};
ghost use Rattle.script_mean.specs.Places.{value_bound, variable_value};
ghost use Rattle.script_mean.specs.Task.{Env};
ghost use Rattle.script_mean.specs.Turn as turn;
ghost use Rattle.script_state.specs.Ends.{Goes};
ghost use Rattle.script_steps.specs.Parts.{declared_in, items_from, name_of};
ghost use Rattle.script_steps.specs.Seen.{outcome_of, variable_of};
ghost use Rattle.script_vars.specs.Seen.{bound_of, env_of};

use crate::enter::no_name;
use crate::state::State;
use do_tree::{Block, Expr, Item};
use do_value::{Mem, Text, Value};
use script_steps::Outcome;
use script_vars::{Bound, Vars};
use std::alloc::Global;

// The value that a name stands for; what isn't in sight, or stands for no value, is nowhere.
fn read(bound: Option<&Bound>) -> Mem<Outcome>
    ensures { IfOk result (λ o. (env : Env) (next : turn.Next) (st : turn.State)
        → value_bound (option_map (λ found. bound_of found.now) bound.entry) env next st ≡ next (outcome_of o) env st) }
{
    match bound {
        Some(Bound::Value(value)) => Ok(Outcome::Gave(value.copy()?)),
        _ => Ok(Outcome::Threw(Value::Undefined)),
    }
}

// The name that the item at this place of the block declares, or this empty one where it declares none.
#[tactic(auto, using(crate::proofs::Declared::declares_past, crate::proofs::Declared::declares_name, crate::proofs::Declared::declares_none))]
fn declared_name<'a>(block: &'a Block, place: usize, none: &'a Text) -> &'a Text
    requires { none.now ≡ [] }
    ensures { result.now ≡ declared_in (items_from place (block_in block.now)) }
{
    if place >= block.items.len() {
        return none;
    }
    match &block.items[place] {
        Item::Declare { name, .. } => &name.text,
        Item::Stmt(_) => none,
    }
}

// The name that the item at this place of the block declares is bound.
#[tactic(auto, using(crate::proofs::Declared::bound_as))]
fn bind(alloc: Global, vars: &mut Vars, block: &Block, place: usize, value: Value) -> Mem<()>
    ensures { OnOk result (env_of vars.new ≡ turn.with_name (declared_in (items_from place (block_in block.now))) (tree_of value) (env_of vars.old)) }
{
    let none = no_name(alloc)?;
    let name = declared_name(block, place, &none);
    vars.declare(name, value)
}

impl State {
    /// The value of the variable that this expression names.
    pub fn variable(&self, expr: &Expr) -> Mem<Outcome>
        ensures { IfOk result (Goes (variable_of (name_of (expr_of expr.now))) self.now self.now) }
    {
        match expr {
            Expr::Variable(name) => self.named(&name.text),
            _ => Ok(Outcome::Threw(Value::Undefined)),
        }
    }

    /// The value of the variable of this name.
    pub fn named(&self, name: &Text) -> Mem<Outcome>
        ensures { IfOk result (Goes (variable_value name.now) self.now self.now) }
    {
        read(self.vars.get(name.as_str()))
    }

    /// The name that the item at this place of the block declares is bound to this value.
    pub fn declare(
        &mut self,
        alloc: Global,
        block: &Block,
        place: usize,
        value: Value,
    ) -> Mem<Outcome>
        ensures same { IfOk result (Goes (turn.declare (declared_in (items_from place (block_in block.now))) (tree_of value)) self.old self.new) }
    {
        bind(alloc, &mut self.vars, block, place, value)?;
        Ok(Outcome::Gave(Value::Undefined))
    }
}
