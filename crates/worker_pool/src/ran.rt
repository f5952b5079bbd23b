//! What a run of the workers leaves.
use host_workers::Halves;
use lane::Plain;
use line_server::{Line, Lines};
use mailbox::{Switch, SwitchFault};
use object_core::Core;
use timeline::Message;

/// What a run of the workers leaves: the object of each slot, by its number, or, where memory was wanting to keep what the lanes of a slot still had,
/// from that slot on the halves alone; the switch, and a message that it took and didn't route, with the slot that it comes from; the reader, and the lines
/// that were read and not accepted.
#[derive(Drop)]
pub struct Ran<D, R, W> {
    /// What stopped the run; where nothing did, it goes on from here.
    pub end: Result<(), SwitchFault>,
    pub cores: Vec<Core<D>>,
    pub apart: Vec<Halves<D>>,
    pub switch: Switch<W>,
    pub kept: Option<(u32, Message)>,
    pub lines: Lines<R>,
    pub rest: Plain<Line>,
}
