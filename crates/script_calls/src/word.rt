//! Calls of the words of the language.
ghost use Rattle.std.specs.Prelude.{◌≡◌, IfOk};
ghost use Rattle.do_value.specs.Seen.{trees_in};
ghost use Rattle.script_asks.specs.Words.{word_call_of};
ghost use Rattle.script_mean.specs.Calls as calls;
ghost use Rattle.script_mean.specs.Meaning.{owner_named, word_named};
ghost use Rattle.script_mean.specs.Storing.{value_of};
ghost use Rattle.script_ops.specs.Calls.{argument};
ghost use Rattle.script_state.specs.Ends.{Does, IsReady};

use crate::ending::{ended, nowhere};
use do_value::{Mem, Value};
use script_asks::{WordCall, owner_call, word_call};
use script_mean::Ask;
use script_ops::builtin;
use script_state::{Done, State};
use script_steps::Outcome;
use std::alloc::Global;

/// A call of a word of the language.
pub fn call_word(alloc: Global, state: &mut State, word: &str, args: Vec<Value>) -> Mem<Done>
    ensures same { IfOk result (Does (word_named word.now (trees_in args.items)) state.old state.new) }
    ensures ready { IfOk result (IsReady state.new) }
{
    match word_call(word) {
        Some(call) => do_word(alloc, state, call, args),
        None => Ok(Done::Ended(nowhere())),
    }
}

/// A call of a part of a word of the language.
pub fn call_owner(
    alloc: Global,
    state: &mut State,
    owner: &str,
    word: &str,
    args: Vec<Value>,
) -> Mem<Done>
    ensures same { IfOk result (Does (owner_named owner.now word.now (trees_in args.items)) state.old state.new) }
    ensures ready { IfOk result (IsReady state.new) }
{
    match owner_call(owner, word) {
        Some(call) => do_word(alloc, state, call, args),
        None => Ok(Done::Ended(nowhere())),
    }
}

// What a call of a word does.
fn do_word(alloc: Global, state: &mut State, call: WordCall, args: Vec<Value>) -> Mem<Done>
    ensures same { IfOk result (Does (calls.call_word (word_call_of call) (trees_in args.items)) state.old state.new) }
    ensures ready { IfOk result (IsReady state.new) }
{
    match call {
        WordCall::Fetches => state.ask_outside(Ask::Fetch(first_of(&args)?)),
        WordCall::TellsTime => Ok(Done::Ended(Outcome::Gave(state.time()))),
        WordCall::Computes(which) => Ok(Done::Ended(ended(builtin(alloc, which, &args))?)),
    }
}

// The first argument, or `undefined`.
fn first_of(args: &[Value]) -> Mem<Value>
    ensures { IfOk result (λ v. v ≡ value_of (argument 0 (trees_in args.now))) }
{
    match args.first() {
        Some(value) => value.copy(),
        None => Ok(Value::Undefined),
    }
}
