//! Calls, whose arguments are evaluated.
ghost use Rattle.std.specs.Prelude.{◌≡◌, IfOk};
ghost use Rattle.do_tree.specs.Seen.{class_of};
ghost use Rattle.script_mean.specs.Meaning.{has_alarm_handler};
ghost use Rattle.script_eval.specs.Acts.{Acts, Changes, Unfolds};
ghost use Rattle.script_eval.specs.Machines.{IsDeep, Steps, leads_of};

use crate::act::Act;
use crate::machine::{Machine, Progress};
use crate::node::again;
use do_tree::{Callback, Class, Expr};
use do_value::{Mem, Text, Value};
use script_calls::{call_handle, call_object, call_owner, call_storage, call_value, call_word};
use script_paths::{identified, instance};
use script_places::Step;
use script_state::{Done, State, enter_callback};
use script_steps::{Await, Callee, Focus, Frame, Root};
use std::alloc::Global;
use std::sync::Arc;

/// A call.
#[tactic(auto, using(crate::proofs::Acted::call_changes, crate::proofs::Acted::call_unfolds, crate::proofs::Acted::call_acts, crate::proofs::Acted::call_helps))]
fn act_on_call(
    alloc: Global,
    state: &mut State,
    has_handler: bool,
    callee: Callee,
    got: Vec<Value>,
) -> Mem<Act>
    ensures { IfOk result (Acts has_handler (Focus.Call callee got) state.old state.new) }
{
    match callee {
        Callee::Storage(awaited, name) => storage(alloc, state, has_handler, awaited, name, got),
        Callee::Handle(awaited, name) => handle(alloc, state, awaited, name, got),
        Callee::Object(awaited, name) => Ok(helper(state, awaited, name, got)),
        Callee::Value(name) => value(alloc, state, name, got),
        Callee::Word(name) => word(alloc, state, name, got),
        Callee::Owner(owner, name) => part(alloc, state, owner, name, got),
        Callee::Place(root, steps) => push(alloc, state, root, steps, got),
        Callee::Transaction(callback) => transaction(alloc, state, callback, got),
        Callee::Block(awaited, callback) => block(alloc, state, awaited, callback, got),
        Callee::Identifier(awaited, class, node, link, next) => identifier(
            alloc, state, awaited, class, node, link, next, got,
        ),
        Callee::Instance(awaited, class, name, node, place) => object(
            alloc, state, awaited, class, name, node, place, got,
        ),
        Callee::Method(class, method, name) => method_of(alloc, state, class, method, name, got),
    }
}

/// A call of a method of the storage.
fn storage(
    alloc: Global,
    state: &mut State,
    has_handler: bool,
    awaited: Await,
    name: Text,
    got: Vec<Value>,
) -> Mem<Act>
    ensures { IfOk result (Acts has_handler (Focus.Call (Callee.Storage awaited name) got) state.old state.new) }
{
    Ok(Act::Does(call_storage(alloc, state, has_handler, awaited, name.as_str(), &got)?))
}

/// A call of a method of a transaction's handle.
fn handle(alloc: Global, state: &mut State, awaited: Await, name: Text, got: Vec<Value>) -> Mem<Act>
    ensures { IfOk result (Changes (Focus.Call (Callee.Handle awaited name) got) state.old state.new) }
{
    Ok(Act::Does(call_handle(alloc, state, awaited, name.as_str(), &got)?))
}

/// A call of a helper, which is the machine's.
#[tactic(auto, using(crate::proofs::Acted::helps_acts))]
fn helper(state: &State, awaited: Await, name: Text, got: Vec<Value>) -> Act
    ensures { Unfolds (Focus.Call (Callee.Object awaited name) got) state.now result }
{
    Act::Helps(awaited, name, got)
}

/// The object whose identifier was made of these arguments.
#[tactic(auto, using(crate::proofs::Moved::move_acts))]
fn identifier(
    alloc: Global,
    state: &State,
    awaited: Await,
    class: Text,
    node: Arc<Expr>,
    link: usize,
    next: usize,
    got: Vec<Value>,
) -> Mem<Act>
    ensures { IfOk result (Unfolds (Focus.Call (Callee.Identifier awaited class node link next) got) state.now) }
{
    Ok(Act::Moves(identified(alloc, awaited, class, node, link, next, got)?))
}

/// The object of this class and name.
#[tactic(auto, using(crate::proofs::Moved::move_acts))]
fn object(
    alloc: Global,
    state: &State,
    awaited: Await,
    class: Text,
    name: Value,
    node: Arc<Expr>,
    place: usize,
    got: Vec<Value>,
) -> Mem<Act>
    ensures { IfOk result (Unfolds (Focus.Call (Callee.Instance awaited class name node place) got) state.now) }
{
    Ok(Act::Moves(instance(alloc, awaited, class, name, node, place, got)?))
}

/// A call of a method of a value.
fn value(alloc: Global, state: &State, name: Text, got: Vec<Value>) -> Mem<Act>
    ensures { IfOk result (Unfolds (Focus.Call (Callee.Value name) got) state.now) }
{
    Ok(Act::Does(Done::Ended(call_value(alloc, name.as_str(), &got)?)))
}

/// A call of a word of the language.
fn word(alloc: Global, state: &mut State, name: Text, got: Vec<Value>) -> Mem<Act>
    ensures { IfOk result (Changes (Focus.Call (Callee.Word name) got) state.old state.new) }
{
    Ok(Act::Does(call_word(alloc, state, name.as_str(), got)?))
}

/// A call of a part of a word of the language.
fn part(alloc: Global, state: &mut State, owner: Text, name: Text, got: Vec<Value>) -> Mem<Act>
    ensures { IfOk result (Changes (Focus.Call (Callee.Owner owner name) got) state.old state.new) }
{
    Ok(Act::Does(call_owner(alloc, state, owner.as_str(), name.as_str(), got)?))
}

/// A push to a place.
fn push(alloc: Global, state: &mut State, root: Root, steps: Vec<Step>, got: Vec<Value>) -> Mem<Act>
    ensures { IfOk result (Changes (Focus.Call (Callee.Place root steps) got) state.old state.new) }
{
    Ok(Act::Does(Done::Ended(state.push(alloc, &root, &steps, got)?)))
}

/// A call of a method of another object.
fn method_of(
    alloc: Global,
    state: &mut State,
    class: Text,
    method: Text,
    name: Value,
    got: Vec<Value>,
) -> Mem<Act>
    ensures { IfOk result (Changes (Focus.Call (Callee.Method class method name) got) state.old state.new) }
{
    Ok(Act::Does(call_object(alloc, state, class, method, name, got)?))
}

/// A transaction, whose body is run. The arguments are dropped.
fn transaction(
    alloc: Global,
    state: &mut State,
    callback: Arc<Callback>,
    dropped: Vec<Value>,
) -> Mem<Act>
    ensures { IfOk result (Changes (Focus.Call (Callee.Transaction callback) dropped) state.old state.new) }
{
    let body = again(&callback.body)?;
    state.begin_transaction(alloc)?;
    enter_callback(&mut state.vars, &callback)?;
    Ok(Act::Enters(Frame::Commit, Focus::Body(body, 0)))
}

/// A block, whose body is run, or which is refused. The arguments are dropped.
fn block(
    alloc: Global,
    state: &mut State,
    awaited: Await,
    callback: Arc<Callback>,
    dropped: Vec<Value>,
) -> Mem<Act>
    ensures { IfOk result (Changes (Focus.Call (Callee.Block awaited callback) dropped) state.old state.new) }
{
    let body = again(&callback.body)?;
    match state.begin_block(alloc)? {
        Some(refused) => Ok(Act::Does(Done::Ended(refused))),
        None => {
            state.vars.enter()?;
            Ok(Act::Enters(Frame::Unblock(awaited), Focus::Body(body, 0)))
        }
    }
}

impl Machine {
    /// A call, whose arguments are evaluated.
    pub(crate) fn call(
        &mut self,
        alloc: Global,
        class: &Class,
        has_handler: bool,
        callee: Callee,
        got: Vec<Value>,
        focus: &mut Focus,
    ) -> Mem<Progress>
        requires deep { IsDeep self.old }
        requires handler { has_alarm_handler (class_of class.now) ≡ has_handler }
        ensures { IfOk result (λ p. Steps (class_of class.now) (Focus.Call callee got) self.old self.new (leads_of p focus.new)) }
    {
        let a = act_on_call(alloc, &mut self.state, has_handler, callee, got)?;
        self.apply(alloc, class, a, focus)
    }
}
