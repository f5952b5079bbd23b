//! What the front half of an object holds.
ghost use Rattle.std.specs.Prelude.{◌≡◌, IfSome};
ghost use Rattle.do_tree.specs.Tree.{Script};
ghost use Rattle.front_turns.specs.Paused.{HasClass};
ghost use Rattle.timeline.specs.Logs.{fronted};
ghost use Rattle.front_half.specs.Standing.{IsHalf, fresh, nothing_logged};

use front_turns::{Object, State, Task};
use input_gate::Deferred;
use std::alloc::Global;
use storage_map::Alarm;
use timeline::{Event, FrontLog};

/// How a front stands.
#[derive(Drop)]
pub(crate) enum Mode<T> {
    /// Its object is mounted.
    Serves(State<T>),
    /// It isn't, and this call waits for the next mounting, or none does.
    Down(Option<Event>),
    /// Memory was wanting: nothing is done any more.
    Stopped,
}

/// The front half of an object, over the tasks of an evaluator.
pub struct Half<T> {
    // the number of the object's class, once it is known
    pub(crate) class: Option<u32>,
    // the number of the newest incarnation, and how many entries of it were sent
    pub(crate) incarnation: u64,
    pub(crate) count: u64,
    pub(crate) mode: Mode<T>,
    // the call that waited for the mounting, which is delivered before those that are deferred
    pub(crate) due: Option<Event>,
    pub(crate) deferred: Deferred,
    // something was taken that no back and no switch sends
    pub(crate) stuck: bool,
    // where the newest incarnation begins in the log
    pub(crate) first_delivered: usize,
    pub(crate) first_sent: usize,
    pub(crate) log: FrontLog,
}

// Written out, so that letting one go is proved once.
impl<T: Drop> Drop for Half<T> {
    fn drop(self) {
        let Half {
            class: _,
            incarnation: _,
            count: _,
            mode,
            due,
            deferred,
            stuck: _,
            first_delivered: _,
            first_sent: _,
            log,
        } = self;
        drop(mode);
        drop(due);
        drop(deferred);
        drop(log);
    }
}

impl<T: Task + Drop> Half<T> {
    /// A front that has taken nothing, of a slot that was just mounted. `class` is the number of the class of the slot's object in the
    /// script, where the slot has an object of one; `alarm` is what was mounted.
    pub fn new(alloc: Global, class: Option<u32>, alarm: Option<Alarm>) -> Half<T>
        ensures stands { (script : Script) → IfSome class (HasClass script) → IsHalf T.seen script result (fresh class alarm) }
        ensures log { fronted result.log ≡ nothing_logged }
    {
        Half {
            class,
            incarnation: 1,
            count: 0,
            mode: Mode::Serves(State::Idle {
                object: Object::begin(alloc, alarm),
            }),
            due: None,
            deferred: Deferred::new(alloc),
            stuck: false,
            first_delivered: 0,
            first_sent: 0,
            log: FrontLog {
                delivered: Vec::new(alloc),
                downed: Vec::new(alloc),
                dropped: Vec::new(alloc),
                sent: Vec::new(alloc),
                ends: Vec::new(alloc),
            },
        }
    }
}

impl<T: Drop> Half<T> {
    /// What it has done.
    pub fn log(&self) -> &FrontLog
        ensures { result.now ≡ self.now.log }
    {
        &self.log
    }

    /// The history. It takes no memory.
    pub fn into_log(self) -> FrontLog
        ensures { result ≡ self.log }
    {
        let Half {
            class: _,
            incarnation: _,
            count: _,
            mode,
            due,
            deferred,
            stuck: _,
            first_delivered: _,
            first_sent: _,
            log,
        } = self;
        drop(mode);
        drop(due);
        drop(deferred);
        log
    }
}
