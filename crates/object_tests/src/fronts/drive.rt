//! A front, step by step.
ghost use Rattle.std.specs.Prelude.{IfSome};
ghost use Rattle.do_tree.specs.Checked.{tree_of};
ghost use Rattle.front_turns.specs.Paused.{HasClass};
ghost use Rattle.object_front.specs.Evaluated.{seen};
ghost use Rattle.front_half.specs.Turning.{CanTurn};

use crate::fronts::given::{answer as answered, event, notice, script};
use crate::fronts::tell::{tell_entry, tell_left};
use do_tree::Checked;
use do_value::{Mem, Value};
use lane::{Inlet, Outlet, Plain};
use object_front::{Front, Turned};
use serde_json::Value as Json;
use std::alloc::Global;
use std::test::Fail;
use test_rows::{Telling, count, word};
use timeline::{Entry, Event, Notice};

/// The lanes of a front.
struct Lanes {
    inbox: Plain<Event>,
    notices: Plain<Notice>,
    line: Plain<Entry>,
}

// Written out, so that letting one go is proved once.
impl Drop for Lanes {
    fn drop(self) {
        let Lanes {
            inbox,
            notices,
            line,
        } = self;
        drop(inbox);
        drop(notices);
        drop(line);
    }
}

impl Lanes {
    fn send(&mut self, event: Event) -> Result<(), Fail> {
        match self.inbox.send(event) {
            Ok(()) => Ok(()),
            Err(_) => Err("no memory")?,
        }
    }

    fn notify(&mut self, notice: Notice) -> Result<(), Fail> {
        match self.notices.send(notice) {
            Ok(()) => Ok(()),
            Err(_) => Err("no memory")?,
        }
    }

    // The step gives the front a notice, or else an event.
    fn give(&mut self, alloc: Global, checked: &Checked, step: &Json) -> Result<(), Fail> {
        match notice(alloc, step)? {
            Some(notice) => self.notify(notice),
            None => self.send(event(alloc, checked, step)?),
        }
    }

    // What the front has sent since it was told last.
    fn tell_sent(&mut self, line: &mut Telling) {
        for _ in 0..u64::MAX {
            let Some(entry) = self.line.take() else {
                break;
            };
            tell_entry(line, &entry);
        }
    }
}

fn turn(alloc: Global, checked: &Checked, front: &mut Front, lanes: &mut Lanes) -> Mem<Turned>
    requires { CanTurn seen (tree_of checked.now) front.old.half }
    ensures { CanTurn seen (tree_of checked.now) front.new.half }
{
    front.turn(
        alloc,
        checked,
        &mut lanes.inbox,
        &mut lanes.notices,
        &mut lanes.line,
    )
}

// A turn, and what it sent.
fn tell_turn(
    alloc: Global,
    checked: &Checked,
    front: &mut Front,
    lanes: &mut Lanes,
    line: &mut Telling,
)
    requires { CanTurn seen (tree_of checked.now) front.old.half }
    ensures { CanTurn seen (tree_of checked.now) front.new.half }
{
    let word = match turn(alloc, checked, front, lanes) {
        Ok(Turned::Idle) => "idle",
        Ok(Turned::Ran) => "ran",
        Err(_) => "no memory",
    };
    line.say(word);
    lanes.tell_sent(line);
    line.say("; ");
}

// The fetches of the first incarnation from the first to this one are answered, each by a turn of its own, of which nothing is told.
fn answer_often(
    alloc: Global,
    checked: &Checked,
    front: &mut Front,
    lanes: &mut Lanes,
    times: u64,
) -> Result<(), Fail>
    requires { CanTurn seen (tree_of checked.now) front.old.half }
    ensures { CanTurn seen (tree_of checked.now) front.new.half }
{
    for number in 0..times {
        lanes.send(answered(1, number + 1, Value::Null))?;
        turn(alloc, checked, front, lanes)?;
    }
    lanes.line = Plain::new(alloc);
    Ok(())
}

// A step of the case: a turn, what is left, or what the front is given.
fn go(
    alloc: Global,
    checked: &Checked,
    front: &mut Front,
    lanes: &mut Lanes,
    step: &Json,
    line: &mut Telling,
) -> Result<(), Fail>
    requires { CanTurn seen (tree_of checked.now) front.old.half }
    ensures { CanTurn seen (tree_of checked.now) front.new.half }
{
    match (step.as_str(), word(step, 0)) {
        (Some("left"), _) => tell_left(alloc, checked, front, line),
        (Some(_), _) => {
            tell_turn(alloc, checked, front, lanes, line);
            Ok(())
        }
        (None, "often") => answer_often(alloc, checked, front, lanes, count(step, 1)),
        (None, _) => lanes.give(alloc, checked, step),
    }
}

// The step at this place of the case, where there is one.
fn go_at(
    alloc: Global,
    checked: &Checked,
    front: &mut Front,
    lanes: &mut Lanes,
    row: &Json,
    at: usize,
    line: &mut Telling,
) -> Result<(), Fail>
    requires { CanTurn seen (tree_of checked.now) front.old.half }
    ensures { CanTurn seen (tree_of checked.now) front.new.half }
{
    match row.get(at) {
        Some(step) => go(alloc, checked, front, lanes, step, line),
        None => Ok(()),
    }
}

// The steps of the case, which are at most 61.
fn go_through(
    alloc: Global,
    checked: &Checked,
    front: &mut Front,
    lanes: &mut Lanes,
    row: &Json,
    line: &mut Telling,
) -> Result<(), Fail>
    requires { CanTurn seen (tree_of checked.now) front.old.half }
{
    for at in 3..64 {
        go_at(alloc, checked, front, lanes, row, at, line)?;
    }
    Ok(())
}

// The number of the script's class of this name, where it has one.
fn class_of(checked: &Checked, name: &str) -> Option<u32>
    ensures { IfSome result (HasClass (tree_of checked.now)) }
{
    checked.class(name)
}

fn open(alloc: Global, checked: &Checked, row: &Json) -> Front
    ensures { CanTurn seen (tree_of checked.now) result.half }
{
    Front::new(alloc, checked, class_of(checked, word(row, 2)), None)
}

// The same, with a new front of the case's class, and lanes of its own.
fn go_alone(alloc: Global, checked: &Checked, row: &Json, line: &mut Telling) -> Result<(), Fail> {
    let mut front = open(alloc, checked, row);
    let mut lanes = Lanes {
        inbox: Plain::new(alloc),
        notices: Plain::new(alloc),
        line: Plain::new(alloc),
    };
    go_through(alloc, checked, &mut front, &mut lanes, row, line)
}

/// `[SCRIPT, CLASS, STEP..]` behind a word: what a front of the script says at these steps. It has an object of the class from the
/// start, and none where the script has no such class.
pub(crate) fn answer(alloc: Global, row: &Json) -> Result<String, Fail> {
    let mut line = Telling::new(alloc);
    let checked = script(alloc, word(row, 1))?;
    go_alone(alloc, &checked, row, &mut line)?;
    line.into_text()
}
