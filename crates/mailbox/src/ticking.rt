//! Ticks.
ghost use Rattle.std.specs.Prelude.{◌≡◌, ◌≤◌, ◌++◌, ◌∷◌, [], IfOk, OnOk, length};
ghost use Rattle.do_tree.specs.Checked.{tree_of};
ghost use Rattle.timeline.specs.Switch.{ticks, tick_posts, is_known};
ghost use Rattle.mailbox.specs.Givens.{IsGiven};

use crate::given::Given;
use crate::state::State;
use do_tree::Checked;
use do_value::{Mem, NoMemory};
use line_server::{OutLine, Why};
use placement::Directory;
use std::alloc::Global;
use storage_map::Identity;
use timeline::Event;

impl State {
    // A tick goes to each slot that has an object of the script, in order; one below the last one is refused.
    pub(crate) fn tick(
        &mut self,
        alloc: Global,
        checked: &Checked,
        line: u64,
        moment: i64,
    ) -> Mem<Given>
        ensures given { IfOk result (λ given. IsGiven given (ticks (tree_of checked.now) self.old line moment)) }
        ensures after { OnOk result (self.new ≡ (ticks (tree_of checked.now) self.old line moment).after) }
        ensures slots { length self.new.objects ≡ length self.old.objects }
    {
        if moment < self.tick {
            let refused = OutLine::Refused {
                line,
                why: Why::Tick,
            };
            return Ok(Given::line(alloc, refused));
        }
        let posts = posts_of_tick(alloc, checked, &self.directory, moment)?;
        self.tick = moment;
        Ok(Given { posts, line: None })
    }
}

// A tick for each slot that has an object of the script, in order.
fn posts_of_tick(
    alloc: Global,
    checked: &Checked,
    directory: &Directory,
    moment: i64,
) -> Mem<Vec<(u32, Event)>>
    ensures { IfOk result (λ posts. posts.items ≡ tick_posts (tree_of checked.now) moment 0 directory.now) }
{
    let mut posts = Vec::new(alloc);
    for slot in 0..directory.slots() {
        if let Some(object) = directory.at(slot) {
            if knows(checked, object) {
                add(&mut posts, (slot, Event::Tick { at: moment }))?;
            }
        }
    }
    Ok(posts)
}

// Whether the script has the object's class.
pub(crate) fn knows(checked: &Checked, object: &Identity) -> bool
    ensures { result ≡ is_known (tree_of checked.now) object.now }
{
    checked.class(object.class()).is_some()
}

fn add(posts: &mut Vec<(u32, Event)>, post: (u32, Event)) -> Mem<()>
    ensures { OnOk result (posts.new.items ≡ posts.old.items ++ post ∷ []) }
{
    match posts.push(post) {
        Ok(()) => Ok(()),
        Err(_) => Err(NoMemory),
    }
}
