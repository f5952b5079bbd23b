//! Pushes to places.
ghost use Rattle.std.specs.Prelude.{◌≡◌, ◌+◌, ◌*◌, ◌<◌, ◌^◌, true, IfOk};
ghost use Rattle.do_tree.specs.Seen.{expr_of};
ghost use Rattle.script_mean.specs.Calls.{Calls};
ghost use Rattle.script_mean.specs.Meaning.{to_push};
ghost use Rattle.script_mean.specs.Paths.{is_called, parts, parts_behind_call};
ghost use Rattle.script_paths.specs.Pushed.{pushed};
ghost use Rattle.script_places.specs.Steps.{steps_in};
ghost use Rattle.script_steps.specs.Parts.{links_in};
ghost use Rattle.script_steps.specs.Paths.{root_of};
ghost use Rattle.script_steps.specs.Seen.{move_run};
ghost use Rattle.script_steps.specs.Weight.{LeavesLess};

use crate::link::{begins_with_call, links_after};
use crate::resumed::add_step;
use crate::walked::nowhere;
use do_tree::{Expr, Link};
use do_value::Mem;
use script_places::Step;
use script_steps::{Await, Callee, Focus, Move, PathFrame, Root, again, link_at, path_frame};
use std::alloc::Global;
use std::sync::Arc;

/// The rest of the place of a push from that link on, whose indexes are evaluated, and then the push.
pub fn push(alloc: Global, root: Root, steps: Vec<Step>, node: Arc<Expr>, place: usize) -> Mem<Move>
    ensures same { IfOk result (λ m. (calls : Calls)
        → to_push calls (root_of root) (steps_in steps.items) (links_in (expr_of node.value) place) ≡ move_run calls m) }
    ensures less { IfOk result (LeavesLess (20 + 10 * parts_behind_call (links_in (expr_of node.value) place))) }
{
    let mut steps = steps;
    let mut place = place;
    'fields: loop {
        match link_at(&node, place) {
            Some(Link::Field(name)) => {
                let next = place + 1;
                if begins_with_call(links_after(&node, next)) {
                    return push_call(alloc, root, steps, node, next);
                }
                add_step(&mut steps, Step::Named(name.text.copy()?))?;
                place = next;
            }
            Some(Link::Index { index, .. }) => {
                let index = again(index)?;
                let part = PathFrame::PushIndex(root, steps, node, place + 1);
                let frame = path_frame(alloc, part)?;
                return Ok(Move::Inside(0, frame, Focus::Value(Await::Absent, index)));
            }
            Some(Link::Call { .. }) => return Ok(nowhere()),
            None => return Ok(nowhere()),
        }
    }
}

/// The call of a push, whose place is found, at that link of the path.
fn push_call(alloc: Global, root: Root, steps: Vec<Step>, node: Arc<Expr>, link: usize) -> Mem<Move>
    requires room { link + 1 < 2 ^ 64 }
    ensures same { IfOk result (λ m. (calls : Calls)
        → pushed calls (root_of root) (steps_in steps.items) (links_in (expr_of node.value) link) ≡ move_run calls m) }
    ensures less { IfOk result (LeavesLess (20 + 10 * parts (links_in (expr_of node.value) (link + 1)))) }
{
    let path = again(&node)?;
    let frame = path_frame(alloc, PathFrame::Walk(Await::Absent, path, link + 1))?;
    Ok(Move::Inside(
        0,
        frame,
        Focus::Arguments(Callee::Place(root, steps), Vec::new(alloc), node, link, 0),
    ))
}
