//! What a front does with a notice.
ghost use Rattle.std.specs.Prelude.{◌≡◌, List, Some, None, true, false, OnErr, OnOk};
ghost use Rattle.do_tree.specs.Checked.{tree_of as script_in};
ghost use Rattle.front_turns.specs.declared.object.Asked.{Asked as SeenAsked};
ghost use Rattle.timeline.specs.declared.notice.Notice.{Notice as SeenNotice};
ghost use Rattle.front_half.specs.Noticing as noticing;
ghost use Rattle.front_half.specs.Noticing.{GoesOn, IsStoppedBy, in_mode, in_wait, is_end};
ghost use Rattle.front_half.specs.Sending.{AreSentToo};
ghost use Rattle.front_half.specs.Standing.{Stood, IsHalf, is_stopped};
ghost use Rattle.front_half.specs.declared.half.Mode.TheVariants as held;

use crate::fitting::answer_to;
use crate::half::{Half, Mode};
use crate::turns::answer_turn;
use do_tree::Checked;
use do_value::{Mem, NoMemory};
use front_turns::{Asked, Object, Running, State, Task};
use lane::Outlet;
use script_mean::Answer;
use std::alloc::Global;
use timeline::{Entry, Event, Notice};

impl<T: Task + Drop> Half<T> {
    // A notice that was taken is what is waited for, or leaves the front stuck.
    pub(crate) fn take_notice<O: Outlet<Entry>>(
        &mut self,
        alloc: Global,
        checked: &Checked,
        notice: Notice,
        line: &mut O,
    ) -> Mem<()>
        requires { (st : Stood) × IsHalf T.seen (script_in checked.now) self.old st }
        ensures moves { OnOk result (GoesOn T.seen (script_in checked.now) self.old self.new notice) }
        ensures stops { OnErr result (IsStoppedBy T.seen (script_in checked.now) self.old self.new notice) }
        ensures too { AreSentToo (O.sent line.old) (O.sent line.new) self.old.log.sent.items self.new.log.sent.items }
        ensures lane { O.outlet line.new ≡ O.outlet line.old }
        ensures left { O.left line.new ≡ O.left line.old }
    {
        let mode = std::mem::replace(&mut self.mode, Mode::Stopped);
        match mode {
            Mode::Serves(state) => self.take_serving(alloc, checked, state, notice, line),
            Mode::Down(call) => self.take_unmounted(alloc, call, notice, line),
            Mode::Stopped => unreachable!(),
        }
    }

    // A front whose object is mounted takes what its task waits for, or the end of the incarnation.
    fn take_serving<O: Outlet<Entry>>(
        &mut self,
        alloc: Global,
        checked: &Checked,
        state: State<T>,
        notice: Notice,
        line: &mut O,
    ) -> Mem<()>
        requires half { (st : Stood) × IsHalf T.seen (script_in checked.now) (in_mode self.old (held.Serves state)) st }
        requires stopped { is_stopped self.old ≡ true }
        ensures moves { OnOk result (GoesOn T.seen (script_in checked.now) (in_mode self.old (held.Serves state)) self.new notice) }
        ensures stops { OnErr result (IsStoppedBy T.seen (script_in checked.now) (in_mode self.old (held.Serves state)) self.new notice) }
        ensures too { AreSentToo (O.sent line.old) (O.sent line.new) self.old.log.sent.items self.new.log.sent.items }
        ensures lane { O.outlet line.new ≡ O.outlet line.old }
        ensures left { O.left line.new ≡ O.left line.old }
    {
        match notice {
            Notice::Read { number, reading } => {
                let notice = Notice::Read { number, reading };
                self.take_stored(alloc, checked, state, notice, line)
            }
            Notice::Taken { number, count } => {
                let notice = Notice::Taken { number, count };
                self.take_stored(alloc, checked, state, notice, line)
            }
            Notice::Synced { number } => {
                self.take_stored(alloc, checked, state, Notice::Synced { number }, line)
            }
            Notice::Fresh {
                incarnation: _,
                alarm,
                cause,
            } => {
                drop(state);
                self.end_mounted(alloc, alarm, cause, line)
            }
            Notice::Down {
                cause,
                before: _,
                after: _,
            } => {
                drop(state);
                self.end_down(alloc, cause, line)
            }
        }
    }

    // A notice of the storage reaches the task that waits for it, or leaves the front stuck.
    fn take_stored<O: Outlet<Entry>>(
        &mut self,
        alloc: Global,
        checked: &Checked,
        state: State<T>,
        notice: Notice,
        line: &mut O,
    ) -> Mem<()>
        requires half { (st : Stood) × IsHalf T.seen (script_in checked.now) (in_mode self.old (held.Serves state)) st }
        requires stopped { is_stopped self.old ≡ true }
        requires stored { is_end notice ≡ false }
        ensures moves { OnOk result (GoesOn T.seen (script_in checked.now) (in_mode self.old (held.Serves state)) self.new notice) }
        ensures stops { OnErr result (IsStoppedBy T.seen (script_in checked.now) (in_mode self.old (held.Serves state)) self.new notice) }
        ensures too { AreSentToo (O.sent line.old) (O.sent line.new) self.old.log.sent.items self.new.log.sent.items }
        ensures lane { O.outlet line.new ≡ O.outlet line.old }
        ensures left { O.left line.new ≡ O.left line.old }
    {
        match state {
            State::Waiting {
                object,
                running,
                task,
                asked,
            } => self.take_waited(alloc, checked, object, running, task, asked, notice, line),
            State::Idle { object } => {
                drop(notice);
                self.stick(Mode::Serves(State::Idle { object }));
                Ok(())
            }
            State::Ended { cause } => {
                drop(notice);
                self.stick(Mode::Serves(State::Ended { cause }));
                Ok(())
            }
        }
    }

    // A notice of the storage that a task waits for: if it is the right one, the task goes on.
    fn take_waited<O: Outlet<Entry>>(
        &mut self,
        alloc: Global,
        checked: &Checked,
        object: Object<T>,
        running: Running,
        task: T,
        asked: Asked,
        notice: Notice,
        line: &mut O,
    ) -> Mem<()>
        requires half { (st : Stood) × IsHalf T.seen (script_in checked.now) (in_wait self.old object running task asked) st }
        requires stopped { is_stopped self.old ≡ true }
        requires stored { is_end notice ≡ false }
        ensures moves { OnOk result (GoesOn T.seen (script_in checked.now) (in_wait self.old object running task asked) self.new notice) }
        ensures stops { OnErr result (IsStoppedBy T.seen (script_in checked.now) (in_wait self.old object running task asked) self.new notice) }
        ensures too { AreSentToo (O.sent line.old) (O.sent line.new) self.old.log.sent.items self.new.log.sent.items }
        ensures lane { O.outlet line.new ≡ O.outlet line.old }
        ensures left { O.left line.new ≡ O.left line.old }
    {
        match answer_to(&asked, self.count, notice) {
            Some(answer) => {
                drop(asked);
                self.go_on(alloc, checked, object, running, task, answer, line)
            }
            None => {
                self.stick(Mode::Serves(State::Waiting {
                    object,
                    running,
                    task,
                    asked,
                }));
                Ok(())
            }
        }
    }

    // The task goes on with what the notice answers. A front whose task waits knows its class.
    fn go_on<O: Outlet<Entry>>(
        &mut self,
        alloc: Global,
        checked: &Checked,
        object: Object<T>,
        running: Running,
        task: T,
        answer: Answer,
        line: &mut O,
    ) -> Mem<()>
        requires half { (a : SeenAsked) × (st : Stood) × IsHalf T.seen (script_in checked.now) (in_wait self.old object running task a) st }
        requires stopped { is_stopped self.old ≡ true }
        ensures moves { OnOk result ((a : SeenAsked) (n : SeenNotice) → noticing.answer_to self.old.count a n ≡ Some answer
            → GoesOn T.seen (script_in checked.now) (in_wait self.old object running task a) self.new n) }
        ensures stops { OnErr result ((a : SeenAsked) (n : SeenNotice) → noticing.answer_to self.old.count a n ≡ Some answer
            → IsStoppedBy T.seen (script_in checked.now) (in_wait self.old object running task a) self.new n) }
        ensures too { AreSentToo (O.sent line.old) (O.sent line.new) self.old.log.sent.items self.new.log.sent.items }
        ensures lane { O.outlet line.new ≡ O.outlet line.old }
        ensures left { O.left line.new ≡ O.left line.old }
    {
        match self.class {
            Some(class) => {
                self.go_on_in(alloc, checked, class, object, running, task, answer, line)
            }
            None => unreachable!(),
        }
    }

    // The task of this class goes on: what is said then is sent and logged.
    fn go_on_in<O: Outlet<Entry>>(
        &mut self,
        alloc: Global,
        checked: &Checked,
        class: u32,
        object: Object<T>,
        running: Running,
        task: T,
        answer: Answer,
        line: &mut O,
    ) -> Mem<()>
        requires half { (a : SeenAsked) × (st : Stood) × IsHalf T.seen (script_in checked.now) (in_wait self.old object running task a) st }
        requires stopped { is_stopped self.old ≡ true }
        requires class { self.old.class ≡ Some class }
        ensures moves { OnOk result ((a : SeenAsked) (n : SeenNotice) → noticing.answer_to self.old.count a n ≡ Some answer
            → GoesOn T.seen (script_in checked.now) (in_wait self.old object running task a) self.new n) }
        ensures stops { OnErr result ((a : SeenAsked) (n : SeenNotice) → noticing.answer_to self.old.count a n ≡ Some answer
            → IsStoppedBy T.seen (script_in checked.now) (in_wait self.old object running task a) self.new n) }
        ensures too { AreSentToo (O.sent line.old) (O.sent line.new) self.old.log.sent.items self.new.log.sent.items }
        ensures lane { O.outlet line.new ≡ O.outlet line.old }
        ensures left { O.left line.new ≡ O.left line.old }
    {
        let Ok((state, count)) = answer_turn(
            alloc,
            checked,
            class,
            self.incarnation,
            self.count,
            object,
            running,
            task,
            answer,
            &mut self.log.sent,
            line,
        ) else {
            return Err(NoMemory);
        };
        self.mode = Mode::Serves(state);
        self.count = count;
        Ok(())
    }

    // What no back sends leaves the front stuck, and all else as it was.
    pub(crate) fn stick(&mut self, mode: Mode<T>)
        ensures { self.new ≡ record self.old { mode = mode; stuck = true } }
    {
        self.mode = mode;
        self.stuck = true;
    }
}
