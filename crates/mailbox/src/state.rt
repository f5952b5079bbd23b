//! What the switch goes by: which object has which slot, which fetches have no answer, and the time.
ghost use Rattle.std.specs.Prelude.{◌≡◌, length};
ghost use Rattle.timeline.specs.Switch.{opened};

use object_calls::Fetches;
use placement::Directory;
use std::alloc::Global;
use std::marker::Model;

// Contracts see it as the definition of a switch does.
pub(crate) struct State {
    pub(crate) directory: Directory,
    pub(crate) fetches: Fetches,
    // the last accepted tick, in milliseconds
    pub(crate) tick: i64,
}

// Written out, so that letting one go is proved once.
impl Drop for State {
    fn drop(self) {
        let State {
            directory,
            fetches,
            tick: _,
        } = self;
        drop(directory);
        drop(fetches);
    }
}

impl Model for State {
    ghost use Rattle.timeline.specs.Switch.{Switch};
    ghost use Rattle.mailbox.specs.States.{switch_of, IsSound};

    ghost Value = { Switch };

    ghost view = { λ s. switch_of s.directory s.fetches s.tick };

    ghost invariant = { λ s. IsSound s.directory s.fetches };
}

impl State {
    // No fetch, and no tick yet.
    pub(crate) fn new(alloc: Global, directory: Directory) -> State
        ensures { result ≡ opened directory }
    {
        State {
            directory,
            fetches: Fetches::new(alloc),
            tick: 0,
        }
    }

    // How many slots there are.
    pub(crate) fn slots(&self) -> u32
        ensures { result ≡ length self.now.objects }
    {
        self.directory.slots()
    }
}
