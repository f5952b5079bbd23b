//! Posts.
ghost use Rattle.std.specs.Prelude.{◌≡◌, ◌<◌, ◌≤◌, ◌+◌, ◌++◌, ◌∷◌, [], OnOk, OnErr, length, vec_len};
ghost use Rattle.std.specs.Vec.{vec_capacity};
ghost use Rattle.mailbox.specs.Givens.{AreWithin};
ghost use Rattle.mailbox.specs.Posting.{Posts, SameOutlets, GoesOn};

use do_value::{Mem, NoMemory};
use lane::Outlet;
use timeline::Event;

// Sends each event to the inbox of its slot, and logs it. After `NoMemory` the first of them are sent and logged.
pub(crate) fn post_all<S: Outlet<Event>>(
    log: &mut Vec<(u32, Event)>,
    inboxes: &mut [S],
    posts: Vec<(u32, Event)>,
) -> Mem<()>
    requires within { AreWithin (length inboxes.old) posts.items }
    ensures logged { OnOk result (log.new.items ≡ log.old.items ++ posts.items) }
    ensures begun { OnErr result (GoesOn log.old.items log.new.items posts.items) }
    ensures sent { Posts S.sent inboxes.old inboxes.new log.old.items log.new.items }
    ensures ends { SameOutlets S.outlet S.left inboxes.old inboxes.new }
{
    for item in posts {
        let (slot, event) = item;
        post(log, inboxes, slot, event)?;
    }
    Ok(())
}

// Sends the event to the inbox of the slot, and logs it. For want of memory neither is done.
fn post<S: Outlet<Event>>(
    log: &mut Vec<(u32, Event)>,
    inboxes: &mut [S],
    slot: u32,
    event: Event,
) -> Mem<()>
    requires within { slot < length inboxes.old }
    ensures logged { OnOk result (log.new.items ≡ log.old.items ++ (slot, event) ∷ []) }
    ensures same { OnErr result (log.new.items ≡ log.old.items) }
    ensures sent { Posts S.sent inboxes.old inboxes.new log.old.items log.new.items }
    ensures ends { SameOutlets S.outlet S.left inboxes.old inboxes.new }
{
    let kept = event.copy()?;
    make_room(log)?;
    match inboxes[slot as usize].send(event) {
        Ok(()) => {
            log_post(log, slot, kept);
            Ok(())
        }
        Err(_) => Err(NoMemory),
    }
}

// Makes room for one post more.
fn make_room(log: &mut Vec<(u32, Event)>) -> Mem<()>
    ensures room { OnOk result (vec_len log.new + 1 ≤ vec_capacity log.new) }
    ensures same { log.new.items ≡ log.old.items }
{
    if log.reserve(1).is_err() {
        return Err(NoMemory);
    }
    Ok(())
}

// Logs a post for which there is room.
fn log_post(log: &mut Vec<(u32, Event)>, slot: u32, event: Event)
    requires { vec_len log.old + 1 ≤ vec_capacity log.old }
    ensures { log.new.items ≡ log.old.items ++ (slot, event) ∷ [] }
{
    log.push((slot, event)).unwrap();
}
