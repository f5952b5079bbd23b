//! Which calls an incarnation hasn't answered, and the failures that they get when it ends.
ghost use Rattle.std.specs.Prelude.{◌≡◌, ◌||◌, ◌++◌, map, is_some, IfOk, OnOk};
ghost use Rattle.std.specs.List.{flat_map, list_any};
ghost use Rattle.timeline.specs.Replies.{answered_by, caller_of, resets_of, same_caller, unanswered};
ghost use Rattle.timeline.specs.declared.caller.Caller.{Caller as SeenCaller};
ghost use Rattle.timeline.specs.declared.entry.Body.TheVariants as body;
ghost use Rattle.front_half.specs.Answering.{without_reply};
ghost use Rattle.front_half.specs.ByCallers.{kept_for};

use crate::by_caller::ByCaller;
use do_value::{Mem, NoMemory};
use std::alloc::Global;
use timeline::{Body, Caller, Cause, Entry, Event, Failure, Message};

// Whom a reply answers is noted.
fn note_reply(answered: &mut ByCaller<()>, message: &Message) -> Mem<()>
    ensures { OnOk result ((from : SeenCaller) → is_some (kept_for from answered.new)
        ≡ (is_some (kept_for from answered.old) || list_any (same_caller from) (answered_by (body.Message message.now)))) }
{
    match message {
        Message::Reply { to, result: _ } => answered.put(*to, ()),
        Message::Call { .. } => Ok(()),
        Message::Fetch { .. } => Ok(()),
    }
}

// Whom an entry answers is noted.
fn note_answer(answered: &mut ByCaller<()>, body: &Body) -> Mem<()>
    ensures { OnOk result ((from : SeenCaller) → is_some (kept_for from answered.new)
        ≡ (is_some (kept_for from answered.old) || list_any (same_caller from) (answered_by body.now))) }
{
    match body {
        Body::Message(message) => note_reply(answered, message),
        _ => Ok(()),
    }
}

// Who was answered in these entries.
fn find_answered(alloc: Global, sent: &[Entry]) -> Mem<ByCaller<()>>
    ensures { IfOk result (λ answered. (from : SeenCaller) → is_some (kept_for from answered)
        ≡ list_any (same_caller from) (flat_map answered_by (map (λ entry. entry.body) sent.now))) }
{
    let mut answered = ByCaller::new(alloc);
    for entry in sent {
        note_answer(&mut answered, &entry.body)?;
    }
    Ok(answered)
}

// The caller of an event that is a call, where it wasn't answered.
fn note_caller(callers: &mut Vec<Caller>, answered: &ByCaller<()>, event: &Event) -> Mem<()>
    ensures { OnOk result (callers.new.items ≡ callers.old.items ++ without_reply answered.now (caller_of event.now)) }
{
    match event {
        Event::Call { from, .. } => {
            if answered.get(*from).is_none() && callers.push(*from).is_err() {
                return Err(NoMemory);
            }
            Ok(())
        }
        _ => Ok(()),
    }
}

// Who called in these events and wasn't answered.
fn find_callers(
    alloc: Global,
    delivered: &[(u64, Event)],
    answered: &ByCaller<()>,
) -> Mem<Vec<Caller>>
    ensures { IfOk result (λ callers. callers.items ≡ without_reply answered.now (flat_map caller_of (map (λ event. event.1) delivered.now))) }
{
    let mut callers = Vec::new(alloc);
    for logged in delivered {
        note_caller(&mut callers, answered, &logged.1)?;
    }
    Ok(callers)
}

/// Who called in this stretch of a log and has no reply in it, in the order of delivery. A reply answers every call of its caller.
/// It costs a time of n log n in the length of the stretch.
pub(crate) fn find_unanswered(
    alloc: Global,
    delivered: &[(u64, Event)],
    sent: &[Entry],
) -> Mem<Vec<Caller>>
    ensures { IfOk result (λ callers. callers.items
        ≡ unanswered (map (λ event. event.1) delivered.now) (map (λ entry. entry.body) sent.now)) }
{
    let answered = find_answered(alloc, sent)?;
    find_callers(alloc, delivered, &answered)
}

/// The failure for each of these callers that their incarnation ended by this cause.
pub(crate) fn build_resets(alloc: Global, cause: Cause, callers: &[Caller]) -> Mem<Vec<Body>>
    ensures { IfOk result (λ bodies. bodies.items ≡ resets_of cause callers.now) }
{
    let mut bodies = Vec::new(alloc);
    for caller in callers {
        let reset = Body::Message(Message::Reply {
            to: *caller,
            result: Err(Failure::Reset(cause)),
        });
        if bodies.push(reset).is_err() {
            return Err(NoMemory);
        }
    }
    Ok(bodies)
}
