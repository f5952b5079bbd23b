//! What requests wait for at the end.
ghost use Rattle.std.specs.Prelude.{◌≡◌, ◌++◌, ◌∷◌, [], IfOk, OnOk, map, option_map};
ghost use Rattle.std.specs.List.{flat_map};
ghost use Rattle.std.specs.Option.{option_to_list};
ghost use Rattle.timeline.specs.Finish as finish;
ghost use Rattle.timeline.specs.Finish.{ordered};
ghost use Rattle.mailbox.specs.Seen.{seen_wait};
ghost use Rattle.mailbox.specs.Left.{seen_left};

use crate::state::State;
use do_value::{Mem, NoMemory};
use line_server::{OutLine, WaitLine};
use std::alloc::Global;
use timeline::{Caller, Waits};

impl State {
    // The lines of the requests that are left, in the order of their own lines. Each is the slot that was asked, who waits, and
    // what for.
    pub(crate) fn left_lines(
        &self,
        alloc: Global,
        left: Vec<(u32, Caller, Waits)>,
    ) -> Mem<Vec<(u64, OutLine)>>
        ensures { IfOk result (λ lines. map seen_left lines.items ≡ ordered (flat_map (finish.left_line self.now) left.items)) }
    {
        let mut lines = self.unordered(alloc, left)?;
        match lines.sort_by_key(|line| line.0) {
            Ok(()) => Ok(lines),
            Err(_) => Err(NoMemory),
        }
    }

    fn unordered(&self, alloc: Global, left: Vec<(u32, Caller, Waits)>) -> Mem<Vec<(u64, OutLine)>>
        ensures { IfOk result (λ lines. map seen_left lines.items ≡ flat_map (finish.left_line self.now) left.items) }
    {
        let mut lines = Vec::new(alloc);
        for (slot, caller, wait) in left {
            if let Some(line) = self.left_line(slot, caller, wait) {
                add(&mut lines, line)?;
            }
        }
        Ok(lines)
    }

    // The line of one that is left, where it is a request, with the number of its own line.
    fn left_line(&self, slot: u32, caller: Caller, wait: Waits) -> Option<(u64, OutLine)>
        ensures { option_to_list (option_map seen_left result) ≡ finish.left_line self.now (slot, caller, wait) }
    {
        let Caller::Request { line, number } = caller else {
            return None;
        };
        let on = self.wait_line(slot, wait)?;
        Some((line, OutLine::Waiting { number, on }))
    }

    // What a task of this slot waits for. A fetch that has an answer is nothing to wait for.
    fn wait_line(&self, slot: u32, wait: Waits) -> Option<WaitLine>
        ensures { option_to_list (option_map seen_wait result) ≡ finish.wait_line self.now slot wait }
    {
        match wait {
            Waits::Fetch {
                incarnation,
                number,
            } => match self.fetches.find(slot, incarnation, number) {
                Some(k) => Some(WaitLine::Fetch(k)),
                None => None,
            },
            Waits::Call { class, name } => Some(WaitLine::Call { class, name }),
            Waits::Block => Some(WaitLine::Block),
        }
    }
}

fn add(lines: &mut Vec<(u64, OutLine)>, line: (u64, OutLine)) -> Mem<()>
    ensures { OnOk result (lines.new.items ≡ lines.old.items ++ line ∷ []) }
{
    match lines.push(line) {
        Ok(()) => Ok(()),
        Err(_) => Err(NoMemory),
    }
}
