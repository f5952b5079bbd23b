//! What a message of an object gives.
ghost use Rattle.std.specs.Prelude.{◌≡◌, IfOk, OnOk, Some, true, is_some, length};
ghost use Rattle.do_tree.specs.Checked.{tree_of};
ghost use Rattle.timeline.specs.Lines.{Identity};
ghost use Rattle.timeline.specs.Switch.{routes, fetches_from, object_at};
ghost use Rattle.timeline.specs.Switch as switch;
ghost use Rattle.mailbox.specs.Fit.{fits};
ghost use Rattle.mailbox.specs.Givens.{IsGiven, replies};

use crate::given::Given;
use crate::state::State;
use do_tree::Checked;
use do_value::{Mem, NoMemory, Text, Value};
use line_server::OutLine;
use std::alloc::Global;
use timeline::{Caller, Failure, Message};

impl State {
    // One from a slot without an object, or to one, gives nothing.
    pub(crate) fn route(
        &mut self,
        alloc: Global,
        checked: &Checked,
        slot: u32,
        message: &Message,
    ) -> Mem<Given>
        ensures given { IfOk result (λ given. IsGiven given (routes (tree_of checked.now) self.old (slot, message.now))) }
        ensures after { OnOk result (self.new ≡ (routes (tree_of checked.now) self.old (slot, message.now)).after) }
        ensures slots { length self.new.objects ≡ length self.old.objects }
    {
        if !self.has_object(slot) {
            return Ok(Given::nothing(alloc));
        }
        match message {
            Message::Reply { to, result } => self.reply(alloc, *to, result),
            Message::Call {
                incarnation,
                number,
                to,
                method,
                args,
                depth,
            } => {
                let from = Caller::Object {
                    slot,
                    incarnation: *incarnation,
                    number: *number,
                };
                self.call(alloc, checked, from, to, method, args, *depth)
            }
            Message::Fetch {
                incarnation,
                number,
                value,
            } => self.fetch(alloc, slot, *incarnation, *number, value),
        }
    }

    // Whether the slot that a message comes from has an object, and the one to whose object it replies.
    pub(crate) fn fits(&self, slot: u32, message: &Message) -> bool
        ensures { result ≡ fits self.now (slot, message.now) }
    {
        let there = match message {
            Message::Reply { to, result: _ } => self.is_fit(*to),
            _ => true,
        };
        self.has_object(slot) && there
    }

    fn has_object(&self, slot: u32) -> bool
        ensures { result ≡ is_some (object_at self.now slot) }
    {
        self.directory.at(slot).is_some()
    }

    // Whether there is who waits for it.
    fn is_fit(&self, to: Caller) -> bool
        ensures { result ≡ switch.is_fit self.now to }
    {
        match to {
            Caller::Request { .. } => true,
            Caller::Object { slot, .. } => self.has_object(slot),
        }
    }

    fn reply(&self, alloc: Global, to: Caller, outcome: &Result<Value, Failure>) -> Mem<Given>
        ensures { IfOk result (λ given. IsGiven given (replies self.now to outcome.now)) }
    {
        if self.is_fit(to) {
            self.answer(alloc, to, copy_result(outcome)?)
        } else {
            Ok(Given::nothing(alloc))
        }
    }

    // A fetch of the slot's object gets the next number, and waits for its answer.
    fn fetch(
        &mut self,
        alloc: Global,
        slot: u32,
        incarnation: u64,
        number: u64,
        value: &Value,
    ) -> Mem<Given>
        requires { is_some (object_at self.old slot) ≡ true }
        ensures given { IfOk result (λ given. (object : Identity) → object_at self.old slot ≡ Some object
            → IsGiven given (fetches_from self.old slot incarnation number value.now object)) }
        ensures after { OnOk result ((object : Identity) → object_at self.old slot ≡ Some object
            → self.new ≡ (fetches_from self.old slot incarnation number value.now object).after) }
        ensures slots { length self.new.objects ≡ length self.old.objects }
    {
        let Some(object) = self.directory.at(slot) else {
            unreachable!()
        };
        let class = text(alloc, object.class())?;
        let name = text(alloc, object.name())?;
        let value = value.copy()?;
        let k = self.fetches.issue(slot, incarnation, number)?;
        let line = OutLine::Fetch {
            k,
            class,
            name,
            value,
        };
        Ok(Given::line(alloc, line))
    }
}

fn copy_result(outcome: &Result<Value, Failure>) -> Mem<Result<Value, Failure>>
    ensures { IfOk result (λ copy. copy ≡ outcome.now) }
{
    match outcome {
        Ok(value) => Ok(Ok(value.copy()?)),
        Err(failure) => Ok(Err(failure.copy()?)),
    }
}

// The class and the name of an object are never too long for a text.
fn text(alloc: Global, s: &str) -> Mem<Text>
    ensures { IfOk result (λ text. text ≡ s.now) }
{
    match Text::new(alloc, s) {
        Ok(text) => Ok(text),
        Err(_) => Err(NoMemory),
    }
}
