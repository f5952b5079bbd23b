//! A machine that runs a turn.
ghost use Rattle.std.specs.Prelude.{◌≡◌, ◌∷◌, IfOk, OnOk};
ghost use Rattle.do_tree.specs.Seen.{class_of};
ghost use Rattle.do_tree.specs.Tree.{Class as SeenClass};
ghost use Rattle.script_mean.specs.Meaning.{has_alarm_handler};
ghost use Rattle.script_steps.specs.Weight.{move_cost};
ghost use Rattle.script_steps.specs.declared.focus.Focus.{Focus as SeenFocus};
ghost use Rattle.script_eval.specs.Leads.{To};
ghost use Rattle.script_eval.specs.Machines.{Applies, Finishes, IsDeep, Runs, Steps, leads_of};

use crate::act::Act;
use crate::frames::{Frames, Layer};
use do_tree::Class;
use do_value::{Mem, NoMemory, Value};
use script_mean::Ask;
use script_state::{Done, State, Waiting};
use script_steps::{Focus, Frame, Move, Outcome, hand_on};
use std::alloc::Global;
use std::mem;

/// A task that runs: what it has, the frames around the part that is next, and how many helper calls they are inside of.
#[derive(Drop)]
pub(crate) struct Machine {
    pub state: State,
    pub frames: Frames,
    pub depth: usize,
}

/// How a turn ends.
#[derive(Drop)]
pub(crate) enum Stop {
    /// With this ask, for whose answer the task waits so.
    Asks(Ask, Waiting),
    /// At a limit.
    Exceeded,
    /// A block threw this value.
    Reset(Value),
    /// The task's method ended so.
    Over(Outcome),
}

/// What a step leads to.
#[derive(Drop)]
pub(crate) enum Progress {
    /// The turn goes on with what was put as its focus.
    GoesOn,
    /// The turn ends so.
    Stops(Box<Stop>),
}

/// The turn ends so.
fn stop_at(alloc: Global, stop: Stop) -> Mem<Progress>
    ensures { IfOk result (λ p. (f : SeenFocus) → leads_of p f ≡ To stop) }
{
    match Box::new(alloc, stop) {
        Ok(stop) => Ok(Progress::Stops(stop)),
        Err(_) => Err(NoMemory),
    }
}

/// Puts what is next. What stood there is a mark that owns nothing, so nothing is dropped.
#[inline(always)]
pub(crate) fn put_next(focus: &mut Focus, next: Focus)
    ensures { focus.new ≡ next }
{
    mem::forget(mem::replace(focus, next));
}

/// How many steps a move charges.
#[inline(always)]
fn cost_of(m: &Move) -> usize
    ensures { result ≡ move_cost m.now }
{
    match m {
        Move::Then(cost, _) => *cost,
        Move::Inside(cost, _, _) => *cost,
    }
}

impl Machine {
    /// The frame is the innermost from here on.
    #[inline(always)]
    fn push(&mut self, frame: Frame) -> Mem<()>
        ensures { OnOk result (self.new ≡ record self.old { frames = Layer.Inner frame ∷ self.old.frames }) }
    {
        self.frames.push(Layer::Inner(frame))
    }

    /// The frame is pushed, and inside it the end of a block.
    fn push_block(&mut self, frame: Frame) -> Mem<()>
        ensures { OnOk result (self.new ≡ record self.old { frames = Layer.Inner Frame.Leave ∷ Layer.Inner frame ∷ self.old.frames }) }
    {
        self.push(frame)?;
        self.push(Frame::Leave)
    }

    /// The steps of a move are charged, its frame, if it has one, is pushed, and its focus is next.
    #[inline(always)]
    pub(crate) fn apply_move(&mut self, alloc: Global, m: Move, focus: &mut Focus) -> Mem<Progress>
        requires { IsDeep self.old }
        ensures { IfOk result (λ p. (class : SeenClass) → Applies class (Act.Moves m) self.old self.new (leads_of p focus.new)) }
    {
        if !self.state.charge(cost_of(&m)) {
            return stop_at(alloc, Stop::Exceeded);
        }
        match m {
            Move::Then(_, next) => {
                put_next(focus, next);
                Ok(Progress::GoesOn)
            }
            Move::Inside(_, frame, next) => {
                self.push(frame)?;
                put_next(focus, next);
                Ok(Progress::GoesOn)
            }
        }
    }

    /// A block that was entered is left inside this frame.
    fn enter_block(&mut self, frame: Frame, next: Focus, focus: &mut Focus) -> Mem<Progress>
        requires { IsDeep self.old }
        ensures { IfOk result (λ p. (class : SeenClass) → Applies class (Act.Enters frame next) self.old self.new (leads_of p focus.new)) }
    {
        put_next(focus, next);
        self.push_block(frame)?;
        Ok(Progress::GoesOn)
    }

    /// A part has ended: the innermost layer goes on, or, where none is left, the task is at its end. A caller of a helper is
    /// no longer counted.
    pub(crate) fn end_part(
        &mut self,
        alloc: Global,
        outcome: Outcome,
        focus: &mut Focus,
    ) -> Mem<Progress>
        requires { IsDeep self.old }
        ensures { IfOk result (λ p. (class : SeenClass) → Finishes class outcome self.old self.new (leads_of p focus.new)) }
    {
        match self.frames.pop() {
            None => stop_at(alloc, Stop::Over(outcome)),
            Some(Layer::Inner(frame)) => {
                let m = hand_on(alloc, frame, outcome)?;
                self.go_on(alloc, m, focus)
            }
            Some(Layer::Caller(awaited, vars)) => {
                self.depth -= 1;
                put_next(focus, Focus::Return(awaited, vars, outcome));
                Ok(Progress::GoesOn)
            }
        }
    }

    /// The same, by the innermost layer alone: what it unfolds to is next.
    pub(crate) fn end_layer(
        &mut self,
        alloc: Global,
        outcome: Outcome,
        focus: &mut Focus,
    ) -> Mem<Progress>
        requires { IsDeep self.old }
        ensures { IfOk result (λ p. (class : SeenClass) → Finishes class outcome self.old self.new (leads_of p focus.new)) }
    {
        match self.frames.pop() {
            None => stop_at(alloc, Stop::Over(outcome)),
            Some(Layer::Inner(frame)) => {
                let m = hand_on(alloc, frame, outcome)?;
                self.apply_move(alloc, m, focus)
            }
            Some(Layer::Caller(awaited, vars)) => {
                self.depth -= 1;
                put_next(focus, Focus::Return(awaited, vars, outcome));
                Ok(Progress::GoesOn)
            }
        }
    }

    /// What a frame unfolds to is applied as a move is, or, where it has ended, leaves a block or is a part of a path, done at
    /// once.
    #[inline(always)]
    fn go_on(&mut self, alloc: Global, m: Move, focus: &mut Focus) -> Mem<Progress>
        requires { IsDeep self.old }
        ensures { IfOk result (λ p. (class : SeenClass) → Applies class (Act.Moves m) self.old self.new (leads_of p focus.new)) }
    {
        match m {
            Move::Then(0, Focus::Ended(outcome)) => self.end_layer(alloc, outcome, focus),
            Move::Then(0, Focus::Leave(outcome)) => self.leave_block(alloc, outcome, focus),
            Move::Then(0, Focus::Handed(part, value)) => self.hand_to_path(
                alloc, part, value, focus,
            ),
            m => self.apply_move(alloc, m, focus),
        }
    }

    /// What was done at once leads on, or to the turn's end.
    pub(crate) fn finish(&mut self, alloc: Global, d: Done, focus: &mut Focus) -> Mem<Progress>
        requires { IsDeep self.old }
        ensures { IfOk result (λ p. (class : SeenClass) → Applies class (Act.Does d) self.old self.new (leads_of p focus.new)) }
    {
        match d {
            Done::Ended(outcome) => self.end_part(alloc, outcome, focus),
            Done::Asks(ask, wait) => stop_at(alloc, Stop::Asks(ask, wait)),
            Done::Exceeded => stop_at(alloc, Stop::Exceeded),
            Done::Reset(value) => stop_at(alloc, Stop::Reset(value)),
        }
    }

    /// What was done with a call leads on, or to the turn's end.
    pub(crate) fn apply(
        &mut self,
        alloc: Global,
        class: &Class,
        a: Act,
        focus: &mut Focus,
    ) -> Mem<Progress>
        requires { IsDeep self.old }
        ensures { IfOk result (λ p. Applies (class_of class.now) a self.old self.new (leads_of p focus.new)) }
    {
        match a {
            Act::Moves(m) => self.apply_move(alloc, m, focus),
            Act::Enters(frame, next) => self.enter_block(frame, next, focus),
            Act::Does(d) => self.finish(alloc, d, focus),
            Act::Helps(awaited, name, args) => self.call_helper(
                alloc, class, awaited, name, args, focus,
            ),
        }
    }

    /// One step from what is next, in whose place a mark stands meanwhile.
    fn advance(
        &mut self,
        alloc: Global,
        class: &Class,
        has_handler: bool,
        focus: &mut Focus,
    ) -> Mem<Progress>
        requires deep { IsDeep self.old }
        requires handler { has_alarm_handler (class_of class.now) ≡ has_handler }
        ensures { IfOk result (λ p. Steps (class_of class.now) focus.old self.old self.new (leads_of p focus.new)) }
    {
        let part = mem::replace(focus, Focus::Ended(Outcome::Broke));
        self.step(alloc, class, has_handler, part, focus)
    }

    /// One turn, from what is next.
    pub(crate) fn turn(
        &mut self,
        alloc: Global,
        class: &Class,
        has_handler: bool,
        focus: &mut Focus,
    ) -> Mem<Stop>
        requires deep { IsDeep self.old }
        requires handler { has_alarm_handler (class_of class.now) ≡ has_handler }
        ensures { IfOk result (Runs (class_of class.now) focus.old self.old self.new) }
    {
        'steps: loop {
            match self.advance(alloc, class, has_handler, focus)? {
                Progress::GoesOn => {}
                Progress::Stops(stop) => return Ok(Box::into_inner(stop)),
            }
        }
    }
}
