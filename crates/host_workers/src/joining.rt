//! One object of two cells.
ghost use Rattle.std.specs.Prelude.{◌≡◌, IfErr, IfOk};
ghost use Rattle.object_core.specs.declared.object.Core.{Core as SeenCore};
ghost use Rattle.host_workers.specs.Apart.{CellsAreApart, IsJoined};

use crate::apart::cells_are_apart;
use crate::back_cell::BackCell;
use crate::front_cell::FrontCell;
use do_disk::Disk;
use lane::{SendEnd, TakeEnd, close};
use object_core::Core;
use object_core::apart::halves_meet;
use object_front::Front;
use output_gate::Back;
use std::alloc::Global;
use std::sync::Wait;
use timeline::{Event, Message};

/// The halves of an object of which memory was wanting to keep what its lanes still had.
#[derive(Drop)]
pub struct Halves<D> {
    /// The front half.
    pub front: Front,
    /// The back half.
    pub back: Back<D>,
}

/// The object of a front's and a back's cell, once both have ended, with the other ends of their lanes: the one on which its events
/// were posted, and the one from which its messages were taken. Where memory is wanting for what the lanes still have, that is
/// dropped, and the halves are what they would be in the object.
pub fn join<'s, D: Disk + Drop, T: Wait + Copy>(
    alloc: Global,
    front: FrontCell<'s, T>,
    back: BackCell<D, T>,
    posts: SendEnd<Event, T>,
    messages: TakeEnd<Message, T>,
) -> Result<Core<D>, Halves<D>>
    requires outer { (posts.lane ≡ front.inbox.lane) × (back.out.lane ≡ messages.lane) }
    requires inner { (front.line.lane ≡ back.line.lane) × (back.notices.lane ≡ front.notices.lane) }
    ensures joined { IfOk result (IsJoined D.moment_of D.left_since D.told D.image D.faults_of front.entry back posts.sent messages.got) }
    ensures apart { IfErr result (λ halves. (core : SeenCore D) × (core.front ≡ halves.front) × (core.back ≡ halves.back)
        × IsJoined D.moment_of D.left_since D.told D.image D.faults_of front.entry back posts.sent messages.got core) }
{
    cells_are_apart(&front, &back);
    halves_meet();
    let (front, inbox, notices, line) = front.into_parts();
    let (back, entries, told, out) = back.into_parts();
    let inbox = close(alloc, posts, inbox);
    let line = close(alloc, line, entries);
    let notices = close(alloc, told, notices);
    let out = close(alloc, out, messages);
    match (inbox, line, notices, out) {
        (Ok(inbox), Ok(line), Ok(notices), Ok(out)) => {
            Ok(Core::join(front, back, inbox, line, notices, out))
        }
        _ => Err(Halves { front, back }),
    }
}
