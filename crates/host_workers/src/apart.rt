//! That the cells of an object's halves may be joined once both have ended. A call costs nothing and tells its caller the law.
ghost use Rattle.host_workers.specs.Apart.{CellsAreApart};

use crate::back_cell::BackCell;
use crate::front_cell::FrontCell;
use do_disk::Disk;
use std::sync::Wait;

/// The halves of two cells whose lanes were closed are those of one object.
pub fn cells_are_apart<'s, D: Disk, T: Wait>(front: &FrontCell<'s, T>, back: &BackCell<D, T>)
    ensures { CellsAreApart D.moment_of D.left_since D.told D.image D.faults_of front.now back.now }
{
    let _ = front;
    let _ = back;
}
