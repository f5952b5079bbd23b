//! Tasks are started, and go on with answers.
ghost use Rattle.std.specs.Prelude.{◌≡◌, ◌∷◌, List, Some, map, slice_get, IfOk};
ghost use Rattle.std.specs.List.{list_any};
ghost use Rattle.do_value.specs.Limits.{IsSafe};
ghost use Rattle.do_value.specs.Seen.{trees_in};
ghost use Rattle.do_tree.specs.Checked.{tree_of};
ghost use Rattle.do_tree.specs.Lookup.{is_constructor, is_named};
ghost use Rattle.do_tree.specs.Seen.{class_of, method_of};
ghost use Rattle.do_tree.specs.Tree.{Method as SeenMethod, Script};
ghost use Rattle.script_mean.specs.Meaning.{has_alarm_handler, meaning};
ghost use Rattle.script_mean.specs.Task.{Resume};
ghost use Rattle.script_eval.specs.Machines.{IsDeep, Runs, turns_of};
ghost use Rattle.script_eval.specs.Tasks.{HasClass, HasMethod, IsOfClass, class_in, has_block, later, rest_in, segment_of};

use crate::frames::Frames;
use crate::giving::given;
use crate::helper::{method_named, method_vars};
use crate::machine::{Machine, Stop};
use crate::node::again;
use crate::outcome::Outcome;
use crate::task::Task;
use do_tree::{Checked, Class, Method, MethodKind};
use do_value::{Fields, Mem, Num, Value};
use script_mean::{Answer, MOST_STEPS};
use script_state::{State, answered};
use script_steps::Focus;
use std::alloc::Global;
use write_batcher::Batcher;

/// The class of this number.
#[tactic(auto, using(crate::proofs::Looked::class_inside, crate::proofs::Looked::class_seen))]
fn class_at(checked: &Checked, class: u32) -> &Class
    requires { HasClass (tree_of checked.now) class }
    ensures { slice_get (tree_of checked.now).classes class ≡ Some (class_of result.now) }
{
    &checked.script().classes[class as usize]
}

/// The method of this number.
#[tactic(auto, using(crate::proofs::Looked::method_inside, crate::proofs::Looked::method_seen))]
fn method_at(class: &Class, method: u32) -> &Method
    requires { (m : SeenMethod) × (slice_get (class_of class.now).methods method ≡ Some m) }
    ensures { slice_get (class_of class.now).methods method ≡ Some (method_of result.now) }
{
    &class.methods[method as usize]
}

/// Whether a class has an alarm handler.
fn has_alarm(class: &Class) -> bool
    ensures { has_alarm_handler (class_of class.now) ≡ result }
{
    is_there(&class.methods, "alarm")
}

/// Whether one of the methods has this name, and is no constructor.
fn is_there(methods: &[Method], name: &str) -> bool
    ensures { list_any (is_named name.now) (map method_of methods.now) ≡ result }
{
    match method_named(methods, name) {
        Some(_) => true,
        None => false,
    }
}

fn is_constructor(kind: MethodKind) -> bool
    ensures { result ≡ is_constructor kind }
{
    match kind {
        MethodKind::Constructor => true,
        MethodKind::Sync | MethodKind::Async => false,
    }
}

/// The moment, as a value's number.
fn moment(now: i64) -> Num
    requires { IsSafe now }
    ensures { result ≡ now }
{
    match Num::new(now) {
        Ok(now) => now,
        Err(_) => unreachable!(),
    }
}

/// One turn of a machine, from what is next, to where it stops.
fn run_turn(alloc: Global, seen: &Class, machine: &mut Machine, focus: Focus) -> Mem<Stop>
    requires { IsDeep machine.old }
    ensures { IfOk result (Runs (class_of seen.now) focus machine.old machine.new) }
{
    let mut focus = focus;
    let has_handler = has_alarm(seen);
    let stop = machine.turn(alloc, seen, has_handler, &mut focus);
    drop(focus);
    stop
}

/// One turn of a machine, from what is next, to the outcome.
fn run(
    alloc: Global,
    seen: &Class,
    machine: Machine,
    focus: Focus,
    class: u32,
    starts: bool,
) -> Mem<Outcome>
    requires { IsDeep machine }
    ensures turns { IfOk result (λ o. (script : Script) (rs : List Resume) → slice_get script.classes class ≡ Some (class_of seen.now)
        → turns_of (class_of seen.now) starts focus machine rs ≡ segment_of o ∷ later script o rs) }
    ensures kept { IfOk result (IsOfClass class) }
{
    let mut machine = machine;
    let stop = run_turn(alloc, seen, &mut machine, focus)?;
    given(machine, stop, class, starts)
}

impl Task {
    /// A task runs the method of this number of the class of this number, on an object with these fields, at this moment
    /// in milliseconds, to its end or its first ask. A constructor is a method here, and is given its context and its
    /// environment in place of arguments. After want of memory nothing of the turn is left.
    pub fn start(
        alloc: Global,
        checked: &Checked,
        class: u32,
        method: u32,
        args: Vec<Value>,
        fields: Fields,
        now: i64,
    ) -> Mem<Outcome>
        requires method { HasMethod (tree_of checked.now) class method }
        requires now { IsSafe now }
        ensures meaning { IfOk result (λ o. (rs : List Resume)
            → meaning (tree_of checked.now) class method (trees_in args.items) (record { fields = fields; now = now }) rs
            ≡ segment_of o ∷ later (tree_of checked.now) o rs) }
        ensures class { IfOk result (IsOfClass class) }
    {
        let seen = class_at(checked, class);
        let runs = method_at(seen, method);
        let starts = is_constructor(runs.kind);
        let body = again(&runs.body)?;
        let state = State {
            vars: method_vars(alloc, runs, args)?,
            fields,
            closed: Vec::new(alloc),
            pending: Batcher::new(alloc),
            left: MOST_STEPS,
            moment: moment(now),
            awaits: 0,
            calls: 0,
            transaction: None,
            block: false,
        };
        let machine = Machine {
            state,
            frames: Frames::new(alloc),
            depth: 0,
        };
        run(alloc, seen, machine, Focus::Body(body, 0), class, starts)
    }

    /// The task goes on with the answer to its ask, on its object with these fields, at this moment in milliseconds, to its
    /// end or its next ask. An answer of another kind than the ask wants gives `undefined`. The task knows its class by its
    /// number in the script that it was started with, so `checked` is that script. After want of memory the task is gone.
    #[tactic(auto, using(crate::proofs::Started::resumed_turns))]
    pub fn resume(
        self,
        alloc: Global,
        checked: &Checked,
        answer: Answer,
        fields: Fields,
        now: i64,
    ) -> Mem<Outcome>
        requires class { HasClass (tree_of checked.now) (class_in self) }
        requires now { IsSafe now }
        ensures rest { IfOk result (λ o. (rs : List Resume)
            → rest_in (tree_of checked.now) self (record { answer = answer; fields = fields; now = now } ∷ rs)
            ≡ segment_of o ∷ later (tree_of checked.now) o rs) }
        ensures class { IfOk result (IsOfClass (class_in self)) }
    {
        let Task {
            class,
            starts,
            frames,
            vars,
            awaits,
            calls,
            transaction,
            block,
            wait,
            depth,
        } = self;
        let ended = answered(alloc, wait, &transaction, answer)?;
        let state = State {
            vars,
            fields,
            closed: Vec::new(alloc),
            pending: Batcher::new(alloc),
            left: MOST_STEPS,
            moment: moment(now),
            awaits,
            calls,
            transaction,
            block,
        };
        let machine = Machine {
            state,
            frames,
            depth,
        };
        run(
            alloc,
            class_at(checked, class),
            machine,
            Focus::Ended(ended),
            class,
            starts,
        )
    }

    /// Whether the task's block is open, while which no other event is delivered to its object.
    pub fn block(&self) -> bool
        ensures { result ≡ has_block self.now }
    {
        self.block
    }
}
