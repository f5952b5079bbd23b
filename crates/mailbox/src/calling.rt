//! Calls of objects, and answers to them.
ghost use Rattle.std.specs.Prelude.{◌≡◌, IfOk, OnOk, length};
ghost use Rattle.do_tree.specs.Checked.{tree_of};
ghost use Rattle.timeline.specs.Switch.{answers_to, calls_object, result_line};
ghost use Rattle.mailbox.specs.Givens.{IsGiven, HasSlot};
ghost use Rattle.mailbox.specs.Seen.{seen_out};

use crate::given::Given;
use crate::state::State;
use do_tree::Checked;
use do_value::{Args, Mem, NoMemory, Text, Value};
use line_server::OutLine;
use placement::{PlaceFault, Placed};
use std::alloc::Global;
use storage_map::Identity;
use timeline::{Caller, Event, Failure};

impl State {
    // Who waits for it gets the result: a request as a line, an object as an answer.
    pub(crate) fn answer(
        &self,
        alloc: Global,
        to: Caller,
        outcome: Result<Value, Failure>,
    ) -> Mem<Given>
        requires slot { HasSlot (length self.now.objects) to }
        ensures given { IfOk result (λ given. IsGiven given (answers_to self.now to outcome)) }
    {
        match to {
            Caller::Request { line: _, number } => Ok(Given::line(
                alloc,
                out_line(number, outcome),
            )),
            Caller::Object {
                slot,
                incarnation,
                number,
            } => Given::post(
                alloc,
                slot,
                Event::Answer {
                    incarnation,
                    number,
                    result: outcome,
                    at: self.tick,
                },
            ),
        }
    }

    // A call of an object that has a slot or gets one; or the first failure that there is.
    pub(crate) fn call(
        &mut self,
        alloc: Global,
        checked: &Checked,
        from: Caller,
        to: &Identity,
        method: &Text,
        args: &Args,
        depth: u32,
    ) -> Mem<Given>
        requires slot { HasSlot (length self.old.objects) from }
        ensures given { IfOk result (λ given.
            IsGiven given (calls_object (tree_of checked.now) self.old from to.now method.now args.now depth)) }
        ensures after { OnOk result (self.new ≡ (calls_object (tree_of checked.now) self.old from to.now method.now args.now depth).after) }
        ensures slots { length self.new.objects ≡ length self.old.objects }
    {
        let Some(class) = checked.class(to.class()) else {
            return self.answer(alloc, from, Err(Failure::NoClass));
        };
        let Some(method) = checked.method(class, method.as_str()) else {
            return self.answer(alloc, from, Err(Failure::NoMethod));
        };
        let call = Event::Call {
            from,
            method,
            args: args.copy()?,
            depth,
            at: self.tick,
        };
        match self.directory.slot_of(to) {
            Ok(Placed::Found(slot)) => Given::post(alloc, slot, call),
            Ok(Placed::New(slot)) => Given::post_both(alloc, slot, Event::Bind(to.copy()?), call),
            Err(PlaceFault::NoSlot { slots }) => {
                self.answer(alloc, from, Err(Failure::NoSlot { slots }))
            }
            Err(PlaceFault::NoMemory) => Err(NoMemory),
        }
    }
}

// The line that a request's result is.
fn out_line(number: i64, outcome: Result<Value, Failure>) -> OutLine
    ensures { seen_out result ≡ result_line number outcome }
{
    match outcome {
        Ok(value) => OutLine::Reply { number, value },
        Err(failure) => OutLine::Error { number, failure },
    }
}
