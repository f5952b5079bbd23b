//! What a line of the input gives.
ghost use Rattle.std.specs.Prelude.{◌≡◌, Ok, Err, IfOk, OnOk, length};
ghost use Rattle.do_tree.specs.Checked.{tree_of};
ghost use Rattle.timeline.specs.Switch.{accepts, accepts_request, answers_fetch, evicts, slot_of};
ghost use Rattle.mailbox.specs.Givens.{IsGiven};
ghost use Rattle.mailbox.specs.Seen.{seen_line, seen_request, seen_why};

use crate::given::Given;
use crate::state::State;
use crate::ticking::knows;
use do_tree::Checked;
use do_value::{Mem, Value};
use line_server::{Line, OutLine, Refusal, Request, Why};
use std::alloc::Global;
use storage_map::Identity;
use timeline::{Caller, Event, Failure};

impl State {
    pub(crate) fn accept(&mut self, alloc: Global, checked: &Checked, line: &Line) -> Mem<Given>
        ensures given { IfOk result (λ given. IsGiven given (accepts (tree_of checked.now) self.old (seen_line line.now))) }
        ensures after { OnOk result (self.new ≡ (accepts (tree_of checked.now) self.old (seen_line line.now)).after) }
        ensures slots { length self.new.objects ≡ length self.old.objects }
    {
        match &line.body {
            Ok(request) => self.accept_request(alloc, checked, line.number, request),
            Err(refusal) => {
                let refused = OutLine::Refused {
                    line: line.number,
                    why: why_of(*refusal),
                };
                Ok(Given::line(alloc, refused))
            }
        }
    }

    fn accept_request(
        &mut self,
        alloc: Global,
        checked: &Checked,
        line: u64,
        request: &Request,
    ) -> Mem<Given>
        ensures given { IfOk result (λ given.
            IsGiven given (accepts_request (tree_of checked.now) self.old line (seen_request request.now))) }
        ensures after { OnOk result (self.new ≡ (accepts_request (tree_of checked.now) self.old line (seen_request request.now)).after) }
        ensures slots { length self.new.objects ≡ length self.old.objects }
    {
        match request {
            Request::Call {
                number,
                to,
                method,
                args,
            } => {
                let from = Caller::Request {
                    line,
                    number: *number,
                };
                self.call(alloc, checked, from, to, method, args, 0)
            }
            Request::Tick(moment) => self.tick(alloc, checked, line, *moment),
            Request::Fetched { k, value } => {
                self.answer_fetch(alloc, line, *k, Ok(value.copy()?))
            }
            Request::FetchFailed { k } => {
                self.answer_fetch(alloc, line, *k, Err(Failure::NoFetch))
            }
            Request::Evict(object) => self.evict(alloc, checked, object),
        }
    }

    // The open fetch of this number gets the answer.
    fn answer_fetch(
        &mut self,
        alloc: Global,
        line: u64,
        k: u64,
        outcome: Result<Value, Failure>,
    ) -> Mem<Given>
        ensures given { IfOk result (λ given. IsGiven given (answers_fetch self.old line k outcome)) }
        ensures after { OnOk result (self.new ≡ (answers_fetch self.old line k outcome).after) }
        ensures slots { length self.new.objects ≡ length self.old.objects }
    {
        let Some((slot, incarnation, number)) = self.fetches.close(k) else {
            let refused = OutLine::Refused {
                line,
                why: Why::Fetch,
            };
            return Ok(Given::line(alloc, refused));
        };
        let answer = Event::Answer {
            incarnation,
            number,
            result: outcome,
            at: self.tick,
        };
        Given::post(alloc, slot, answer)
    }

    fn evict(&self, alloc: Global, checked: &Checked, object: &Identity) -> Mem<Given>
        ensures given { IfOk result (λ given. IsGiven given (evicts (tree_of checked.now) self.now object.now (slot_of self.now object.now))) }
    {
        match self.directory.find(object) {
            Some(slot) if knows(checked, object) => {
                Given::post(alloc, slot, Event::Evict { at: self.tick })
            }
            _ => Ok(Given::nothing(alloc)),
        }
    }
}

fn why_of(refusal: Refusal) -> Why
    ensures { result ≡ seen_why refusal }
{
    match refusal {
        Refusal::Long => Why::Long,
        Refusal::Json => Why::Json,
        Refusal::Shape => Why::Shape,
    }
}
