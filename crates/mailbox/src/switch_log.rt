//! What passed between the lines and the objects.
ghost use Rattle.std.specs.Prelude.{◌≡◌, ◌≤◌, ◌+◌, ◌++◌, ◌∷◌, [], OnOk, vec_len};
ghost use Rattle.std.specs.Vec.{vec_capacity};
ghost use Rattle.mailbox.specs.Seen.{seen_log};
ghost use Rattle.timeline.specs.Switch.{no_log};

use do_value::{Mem, NoMemory};
use line_server::{Line, OutLine};
use std::alloc::Global;
use timeline::{Event, Message};

/// What a switch has done, each list in order. Slots are counted from 0.
#[derive(Debug)]
pub struct SwitchLog {
    /// The lines that were accepted, refused ones too.
    pub accepted: Vec<Line>,
    /// The messages that were routed, each with the slot that it came from.
    pub routed: Vec<(u32, Message)>,
    /// The events that were posted, each with the slot that it went to.
    pub posts: Vec<(u32, Event)>,
    /// The lines of the output. A line stands here before it is written.
    pub lines: Vec<OutLine>,
}

// Written out, so that the crates that hold a log prove nothing of what it holds.
impl Drop for SwitchLog {
    fn drop(self) {
        let SwitchLog {
            accepted,
            routed,
            posts,
            lines,
        } = self;
        drop(accepted);
        drop(routed);
        drop(posts);
        drop(lines);
    }
}

impl SwitchLog {
    /// Nothing has happened. It takes no memory.
    pub fn new(alloc: Global) -> SwitchLog
        ensures { seen_log result ≡ no_log }
    {
        SwitchLog {
            accepted: Vec::new(alloc),
            routed: Vec::new(alloc),
            posts: Vec::new(alloc),
            lines: Vec::new(alloc),
        }
    }

    // Makes room for a line.
    pub(crate) fn make_line_room(&mut self) -> Mem<()>
        ensures room { OnOk result (vec_len self.new.accepted + 1 ≤ vec_capacity self.new.accepted) }
        ensures same { seen_log self.new ≡ seen_log self.old }
        ensures rest { (self.new.posts ≡ self.old.posts) × (self.new.lines ≡ self.old.lines) }
    {
        if self.accepted.reserve(1).is_err() {
            return Err(NoMemory);
        }
        Ok(())
    }

    // Logs a line for which there is room.
    pub(crate) fn log_line(&mut self, line: Line)
        requires { vec_len self.old.accepted + 1 ≤ vec_capacity self.old.accepted }
        ensures accepted { self.new.accepted.items ≡ self.old.accepted.items ++ line ∷ [] }
        ensures rest { self.new ≡ record self.old { accepted = self.new.accepted } }
    {
        self.accepted.push(line).unwrap();
    }

    // Makes room for a message.
    pub(crate) fn make_message_room(&mut self) -> Mem<()>
        ensures room { OnOk result (vec_len self.new.routed + 1 ≤ vec_capacity self.new.routed) }
        ensures same { seen_log self.new ≡ seen_log self.old }
        ensures rest { (self.new.posts ≡ self.old.posts) × (self.new.lines ≡ self.old.lines) }
    {
        if self.routed.reserve(1).is_err() {
            return Err(NoMemory);
        }
        Ok(())
    }

    // Logs a message for which there is room.
    pub(crate) fn log_message(&mut self, slot: u32, message: Message)
        requires { vec_len self.old.routed + 1 ≤ vec_capacity self.old.routed }
        ensures routed { self.new.routed.items ≡ self.old.routed.items ++ (slot, message) ∷ [] }
        ensures rest { self.new ≡ record self.old { routed = self.new.routed } }
    {
        self.routed.push((slot, message)).unwrap();
    }
}
