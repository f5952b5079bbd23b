//! What a turn of the object's tasks says is sent and logged.
ghost use Rattle.std.specs.Prelude.{◌≡◌, ◌++◌, ◌+◌, List, IfOk, OnErr};
ghost use Rattle.do_tree.specs.Checked.{tree_of as script_in};
ghost use Rattle.timeline.specs.Headline.{IsPrefix};
ghost use Rattle.timeline.specs.Intake.{numbered};
ghost use Rattle.timeline.specs.Object.{OpenTask};
ghost use Rattle.timeline.specs.Steps as steps;
ghost use Rattle.front_turns.specs.Paused.{HasClass};
ghost use Rattle.front_turns.specs.Held.{Holds, IsOfMethod, IsPaused, IsTime, life_in, object_of};
ghost use Rattle.front_half.specs.Moving.{Speaks, said_by};
ghost use Rattle.front_half.specs.Sending.{AreSentToo};

use crate::sending::send_all;
use do_tree::Checked;
use do_value::{Mem, NoMemory};
use front_turns::{Object, Running, State, Task, deliver, stored};
use lane::Outlet;
use script_mean::Answer;
use std::alloc::Global;
use timeline::{Entry, Event};

// The event is delivered to an idle object of this class and incarnation, and what it says to it is sent and logged, numbered on.
// Gives how the object stands then, and how many entries the incarnation has sent. For want of memory what was sent is a prefix
// of that.
pub(crate) fn deliver_turn<T: Task + Drop, O: Outlet<Entry>>(
    alloc: Global,
    checked: &Checked,
    class: u32,
    incarnation: u64,
    count: u64,
    object: Object<T>,
    event: Event,
    sent: &mut Vec<Entry>,
    line: &mut O,
) -> Mem<(State<T>, u64)>
    requires class { HasClass (script_in checked.now) class }
    requires method { IsOfMethod (life_in (script_in checked.now) class incarnation) event }
    requires moment { IsTime (steps.moment_of event) }
    requires held { (ts : List OpenTask) × Holds T.seen (life_in (script_in checked.now) class incarnation) object ts }
    ensures speaks { IfOk result (λ r. (ts : List OpenTask) → Holds T.seen (life_in (script_in checked.now) class incarnation) object ts
        → Speaks T.seen (life_in (script_in checked.now) class incarnation) sent.old.items sent.new.items count r.0 r.1
        (steps.delivers (life_in (script_in checked.now) class incarnation) (object_of object ts) event)) }
    ensures prefix { OnErr result ((ts : List OpenTask) → Holds T.seen (life_in (script_in checked.now) class incarnation) object ts
        → IsPrefix sent.new.items (sent.old.items ++ numbered incarnation (1 + count)
        (said_by (steps.delivers (life_in (script_in checked.now) class incarnation) (object_of object ts) event)))) }
    ensures too { AreSentToo (O.sent line.old) (O.sent line.new) sent.old.items sent.new.items }
    ensures lane { O.outlet line.new ≡ O.outlet line.old }
    ensures left { O.left line.new ≡ O.left line.old }
{
    let mut says = Vec::new(alloc);
    let Ok(state) = deliver(alloc, checked, &mut says, class, incarnation, object, event) else {
        return Err(NoMemory);
    };
    match send_all(line, sent, incarnation, count, says) {
        Ok(count) => Ok((state, count)),
        Err(fault) => {
            drop(state);
            Err(fault)
        }
    }
}

// The storage's answer reaches the task that waits for it, and what the object says then is sent and logged, numbered on.
pub(crate) fn answer_turn<T: Task + Drop, O: Outlet<Entry>>(
    alloc: Global,
    checked: &Checked,
    class: u32,
    incarnation: u64,
    count: u64,
    object: Object<T>,
    running: Running,
    task: T,
    answer: Answer,
    sent: &mut Vec<Entry>,
    line: &mut O,
) -> Mem<(State<T>, u64)>
    requires class { HasClass (script_in checked.now) class }
    requires held { (ts : List OpenTask) × (t : OpenTask) × Holds T.seen (life_in (script_in checked.now) class incarnation) object ts
        × IsPaused (life_in (script_in checked.now) class incarnation) (T.seen task) running t }
    ensures speaks { IfOk result (λ r. (ts : List OpenTask) (t : OpenTask) → Holds T.seen (life_in (script_in checked.now) class incarnation) object ts
        → IsPaused (life_in (script_in checked.now) class incarnation) (T.seen task) running t
        → Speaks T.seen (life_in (script_in checked.now) class incarnation) sent.old.items sent.new.items count r.0 r.1
        (steps.answers (life_in (script_in checked.now) class incarnation) (object_of object ts) t answer)) }
    ensures prefix { OnErr result ((ts : List OpenTask) (t : OpenTask) → Holds T.seen (life_in (script_in checked.now) class incarnation) object ts
        → IsPaused (life_in (script_in checked.now) class incarnation) (T.seen task) running t
        → IsPrefix sent.new.items (sent.old.items ++ numbered incarnation (1 + count)
        (said_by (steps.answers (life_in (script_in checked.now) class incarnation) (object_of object ts) t answer)))) }
    ensures too { AreSentToo (O.sent line.old) (O.sent line.new) sent.old.items sent.new.items }
    ensures lane { O.outlet line.new ≡ O.outlet line.old }
    ensures left { O.left line.new ≡ O.left line.old }
{
    let mut says = Vec::new(alloc);
    let Ok(state) = stored(
        alloc,
        checked,
        &mut says,
        class,
        incarnation,
        object,
        running,
        task,
        answer,
    ) else {
        return Err(NoMemory);
    };
    match send_all(line, sent, incarnation, count, says) {
        Ok(count) => Ok((state, count)),
        Err(fault) => {
            drop(state);
            Err(fault)
        }
    }
}
