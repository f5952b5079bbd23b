//! A switch of two slots, whose objects are played by hand.
ghost use Rattle.std.specs.Prelude.{◌≡◌, length};
ghost use Rattle.mailbox.specs.Runs.{slots_of};

use crate::switches::tell::tell_event;
use do_disk::{Fails, MemSink};
use do_tree::Checked;
use lane::{Inlet, Outlet, Plain};
use line_server::Line;
use mailbox::{Switch, SwitchFault};
use placement::Directory;
use std::alloc::Global;
use std::test::Fail;
use test_rows::Telling;
use timeline::{Caller, Event, Message, Stepped, Waits};

/// A switch, with the ends that its objects hold.
pub(crate) struct Table {
    switch: Switch<MemSink>,
    inboxes: Vec<Plain<Event>>,
    outs: Vec<Plain<Message>>,
    ghost inboxes_fit: { length inboxes.items ≡ slots_of switch },
    ghost outs_fit: { length outs.items ≡ slots_of switch },
}

impl Drop for Table {
    fn drop(self) {
        let Table {
            switch,
            inboxes,
            outs,
        } = self;
        drop(switch);
        drop(inboxes);
        drop(outs);
    }
}

impl Table {
    /// Two slots without an object, and a sink of which these writes fail.
    pub(crate) fn open(alloc: Global, checked: &Checked, fails: Fails) -> Result<Table, Fail> {
        let directory = Directory::new(alloc, 2);
        let sink = MemSink::new(alloc, 4096, fails);
        let switch = Switch::new(alloc, checked, directory, sink);
        Ok(Table {
            switch,
            inboxes: vec![in alloc; Plain::new(alloc), Plain::new(alloc)]?,
            outs: vec![in alloc; Plain::new(alloc), Plain::new(alloc)]?,
        })
    }

    /// The switch takes a line.
    pub(crate) fn accept(&mut self, checked: &Checked, line: Line) -> Result<(), SwitchFault> {
        self.switch
            .accept(checked, line, self.inboxes.as_mut_slice())
    }

    /// The object of the slot says this.
    pub(crate) fn say(&mut self, slot: usize, message: Message) -> Result<(), Fail> {
        let Some(out) = self.outs.get_mut(slot) else {
            return Err("no slot")?;
        };
        match out.send(message) {
            Ok(()) => Ok(()),
            Err(_) => Err("no memory")?,
        }
    }

    /// The switch takes a message.
    pub(crate) fn route(&mut self, checked: &Checked) -> Result<Stepped, SwitchFault> {
        self.switch.route(
            checked,
            self.outs.as_mut_slice(),
            self.inboxes.as_mut_slice(),
        )
    }

    /// The switch prints what is left.
    pub(crate) fn finish(&mut self, left: Vec<(u32, Caller, Waits)>) -> Result<(), SwitchFault> {
        self.switch.finish(left)
    }

    /// What the objects have got, at most two events each.
    pub(crate) fn tell_got(&mut self, alloc: Global, line: &mut Telling) {
        for turn in 0..4 {
            self.tell_next(alloc, line, turn / 2);
        }
    }

    fn tell_next(&mut self, alloc: Global, line: &mut Telling, slot: usize) {
        let Some(inbox) = self.inboxes.get_mut(slot) else {
            return;
        };
        let Some(event) = inbox.take() else {
            return;
        };
        line.tell(format!(in alloc; "; {slot}: "));
        tell_event(alloc, line, &event)
    }

    /// What was written, a space for each line's end.
    pub(crate) fn tell_written(self, line: &mut Telling) -> Result<(), Fail> {
        let Table {
            switch,
            inboxes,
            outs,
        } = self;
        drop(inboxes);
        drop(outs);
        let (sink, log) = switch.into_parts();
        drop(log);
        let text = str::from_utf8(sink.taken())?;
        for c in text.trim_end().chars() {
            line.letter(if c == '\n' { ' ' } else { c });
        }
        Ok(())
    }
}
