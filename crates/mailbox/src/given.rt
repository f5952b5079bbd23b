//! What one line or message gives.
ghost use Rattle.std.specs.Prelude.{◌≡◌, [], ◌∷◌, ℕ, None, Some, IfOk};

use do_value::{Mem, NoMemory};
use line_server::OutLine;
use std::alloc::Global;
use timeline::Event;

// What is to be posted, each event to its slot, and the line that is to be printed, if there is one.
#[derive(Drop)]
pub(crate) struct Given {
    pub(crate) posts: Vec<(u32, Event)>,
    pub(crate) line: Option<OutLine>,
}

impl Given {
    // Nothing.
    pub(crate) fn nothing(alloc: Global) -> Given
        ensures posts { result.posts.items ≡ [] }
        ensures line { result.line ≡ None }
    {
        Given {
            posts: Vec::new(alloc),
            line: None,
        }
    }

    // The line.
    pub(crate) fn line(alloc: Global, line: OutLine) -> Given
        ensures posts { result.posts.items ≡ [] }
        ensures line { result.line ≡ Some line }
    {
        Given {
            posts: Vec::new(alloc),
            line: Some(line),
        }
    }

    // The event, for this slot.
    pub(crate) fn post(alloc: Global, slot: u32, event: Event) -> Mem<Given>
        ensures posts { IfOk result (λ given. given.posts.items ≡ (slot, event) ∷ []) }
        ensures line { IfOk result (λ given. given.line ≡ None) }
    {
        let mut posts = Vec::new(alloc);
        if posts.push((slot, event)).is_err() {
            return Err(NoMemory);
        }
        Ok(Given { posts, line: None })
    }

    // Both events, for this slot.
    pub(crate) fn post_both(alloc: Global, slot: u32, first: Event, then: Event) -> Mem<Given>
        ensures posts { IfOk result (λ given. given.posts.items ≡ (slot, first) ∷ (slot, then) ∷ []) }
        ensures line { IfOk result (λ given. given.line ≡ None) }
    {
        let mut posts = Vec::new(alloc);
        if posts.push((slot, first)).is_err() || posts.push((slot, then)).is_err() {
            return Err(NoMemory);
        }
        Ok(Given { posts, line: None })
    }
}
