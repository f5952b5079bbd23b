//! All cells of a run, and one that is out of its place.
use crate::back_cell::BackCell;
use crate::front_cell::FrontCell;
use crate::lines_cell::LinesCell;
use crate::switch_cell::SwitchCell;
use std::sync::Wait;

/// The cells of a run: those of the fronts and backs by the numbers of their slots. A place is `None` while its cell is out.
#[derive(Drop)]
pub struct Cells<'s, D, R, W, T: Wait> {
    pub fronts: Vec<Option<FrontCell<'s, T>>>,
    pub backs: Vec<Option<BackCell<D, T>>>,
    pub switch: Option<SwitchCell<'s, W, T>>,
    pub lines: Option<LinesCell<R, T>>,
}

// A cell that a worker has taken out of its place.
#[derive(Drop)]
pub(crate) enum Held<'s, D, R, W, T: Wait> {
    Front { slot: u32, cell: FrontCell<'s, T> },
    Back { slot: u32, cell: BackCell<D, T> },
    Switch { cell: SwitchCell<'s, W, T> },
    Lines { cell: LinesCell<R, T> },
}
