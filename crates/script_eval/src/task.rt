//! A suspended task.
ghost use Rattle.std.specs.Prelude.{◌≡◌};
ghost use Rattle.script_eval.specs.Machines.{frames_of};
ghost use Rattle.script_mean.specs.Frames.{callers};
ghost use Rattle.script_state.specs.Ends.{IsOpenFor};
ghost use Rattle.script_state.specs.Seen.{wait_of};
ghost use Rattle.script_eval.specs.Waits.{open_prop};

use crate::frames::Frames;
use script_state::Waiting;
use script_vars::Vars;
use storage_txn::Txn;

/// A task that waits for an answer: the class of its object, by its number in the script; whether it runs the constructor;
/// the parts that are still to run, with the variables; what it holds from turn to turn; and what it waits for.
#[derive(Drop)]
pub struct Task {
    pub(crate) class: u32,
    pub(crate) starts: bool,
    pub(crate) frames: Frames,
    pub(crate) vars: Vars,
    pub(crate) awaits: u32,
    pub(crate) calls: u32,
    pub(crate) transaction: Option<Txn>,
    pub(crate) block: bool,
    pub(crate) wait: Waiting,
    pub(crate) depth: usize,
    pub ghost deep: { depth ≡ callers (frames_of frames) },
    pub ghost ready: { IsOpenFor (wait_of wait transaction) transaction } by { open_prop (wait_of wait transaction) transaction },
}
