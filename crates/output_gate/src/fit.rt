//! Which entries a back takes. A front sends no others.
ghost use Rattle.std.specs.Prelude.{◌≡◌, option_copied};
ghost use Rattle.timeline.specs.History as history;
ghost use Rattle.output_gate.specs.Fits as fits;

use timeline::{Body, Cause, Entry, Message};

/// What an entry is to a back.
#[derive(Clone, Copy, Drop)]
pub(crate) enum Fit {
    /// It leaves the back stuck.
    Unfit,
    /// It is of the newest incarnation, which is mounted.
    Own,
    /// It is of the newest incarnation, which isn't mounted.
    Down,
    /// It is of an incarnation that has ended.
    Late,
}

// Whether an entry may stand behind the one before it: it is of a later incarnation, or of the same one and no halt stands
// before it.
pub(crate) fn comes_behind(last: Option<&Entry>, entry: &Entry) -> bool
    ensures { result ≡ fits.comes_behind (option_copied last.entry) entry.now }
{
    match last {
        Some(last) if last.incarnation == entry.incarnation => !is_halt(&last.body),
        Some(last) => last.incarnation < entry.incarnation,
        None => entry.incarnation > 0,
    }
}

fn is_halt(body: &Body) -> bool
    ensures { result ≡ fits.is_halt body.now }
{
    matches!(body, Body::Halt(_))
}

// Whether such an entry may be taken of an incarnation that is mounted or was, where the object is known or isn't.
pub(crate) fn fits_mounted(body: &Body, is_known: bool) -> bool
    ensures { result ≡ fits.fits_mounted body.now is_known }
{
    match body {
        Body::Bind(_) => !is_known,
        Body::Batch { .. } => is_known,
        Body::Halt(cause) => is_halting(*cause),
        Body::Mend => false,
        Body::Ask { .. } | Body::Sync | Body::Message(_) => true,
    }
}

fn is_halting(cause: Cause) -> bool
    ensures { result ≡ history.is_halting cause }
{
    match cause {
        Cause::Disk { .. } | Cause::Full { .. } => false,
        Cause::Exceeded | Cause::StartThrew | Cause::BlockThrew => true,
    }
}

// Whether such an entry may be taken of an incarnation that isn't mounted.
pub(crate) fn fits_down(body: &Body) -> bool
    ensures { result ≡ fits.fits_down body.now }
{
    match body {
        Body::Mend => true,
        Body::Message(Message::Reply { result: Err(_), .. }) => true,
        _ => false,
    }
}
