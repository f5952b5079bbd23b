//! Messages are taken from the lanes on which objects let them go.
ghost use Rattle.std.specs.Prelude.{◌≡◌, ◌<◌, ◌≤◌, length, map, IfNone, IfSome};
ghost use Rattle.mailbox.specs.Taken.{AreEmpty, SameInlets, got_more};

use lane::Inlet;
use timeline::Message;

// The first message of the lanes from this one on and before that one, with the number of its lane.
pub(crate) fn take_first<O: Inlet<Message>>(
    outs: &mut [O],
    from: u32,
    to: u32,
) -> Option<(u32, Message)>
    requires range { from ≤ to }
    requires within { to ≤ length outs.old }
    ensures none { IfNone result (AreEmpty O.got O.told from to outs.old × (map O.got outs.new ≡ map O.got outs.old)) }
    ensures some { IfSome result (λ taken. map O.got outs.new ≡ got_more taken.0 taken.1 (map O.got outs.old)) }
    ensures there { IfSome result (λ taken. taken.0 < to) }
    ensures ends { SameInlets O.inlet O.told outs.old outs.new }
{
    for slot in from..to {
        if let Some(message) = outs[slot as usize].take() {
            return Some((slot, message));
        }
    }
    None
}

// The first message of the lanes from this one on, or else of those before it. So lanes that all have messages come in turn.
pub(crate) fn take_in_turn<O: Inlet<Message>>(
    outs: &mut [O],
    first: u32,
    count: u32,
) -> Option<(u32, Message)>
    requires range { first ≤ count }
    requires within { count ≤ length outs.old }
    ensures none { IfNone result (AreEmpty O.got O.told 0 count outs.old × (map O.got outs.new ≡ map O.got outs.old)) }
    ensures some { IfSome result (λ taken. map O.got outs.new ≡ got_more taken.0 taken.1 (map O.got outs.old)) }
    ensures there { IfSome result (λ taken. taken.0 < count) }
    ensures ends { SameInlets O.inlet O.told outs.old outs.new }
{
    match take_first(outs, first, count) {
        Some(taken) => Some(taken),
        None => take_first(outs, 0, first),
    }
}
