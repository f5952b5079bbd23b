//! That cells may go from thread to thread. A call costs nothing.
use crate::back_cell::BackCell;
use crate::front_cell::FrontCell;
use crate::lines_cell::LinesCell;
use crate::names::Names;
use crate::shared::Shared;
use crate::switch_cell::SwitchCell;
use do_disk::{Disk, Sink, Source};
use std::sync::Wait;

fn is_sent<X: Send>() {}

/// A front's cell may go to another thread, which then makes its turns, where the handle of its ends may.
pub fn front_is_sent<'s, T: Wait + Send>() {
    is_sent::<FrontCell<'s, T>>();
}

/// So may a back's, over a disk that may.
pub fn back_is_sent<D: Disk + Send, T: Wait + Send>() {
    is_sent::<BackCell<D, T>>();
}

/// So may the switch's, over a sink that may.
pub fn switch_is_sent<'s, W: Sink + Send, T: Wait + Send>() {
    is_sent::<SwitchCell<'s, W, T>>();
}

/// So may the lines', over a source that may.
pub fn lines_are_sent<R: Source + Send, T: Wait + Send>() {
    is_sent::<LinesCell<R, T>>();
}

fn is_shared<X: Sync>() {}

/// Workers in several threads may share a board.
pub fn board_is_shared<
    's,
    L: Names + Send,
    D: Disk + Send,
    R: Source + Send,
    W: Sink + Send,
    T: Wait + Send,
>() {
    is_shared::<Shared<'s, L, D, R, W, T>>();
}
