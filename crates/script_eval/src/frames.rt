//! What a task still has to run around the part that runs.
ghost use Rattle.std.specs.Prelude.{◌≡◌, [], ◌∷◌, OnOk, MatchOption};

use do_value::{Mem, NoMemory};
use script_steps::{Await, Frame};
use script_vars::Vars;
use std::alloc::Global;
use std::marker::Model;

/// What is around the part that runs.
#[derive(Drop)]
pub enum Layer {
    /// The rest of what the part belongs to.
    Inner(Frame),
    /// The caller of the helper that the part belongs to, with its variables.
    Caller(Await, Vars),
}

/// A stack of layers. Contracts see the list of them, the innermost first.
#[derive(Drop)]
pub struct Frames {
    items: Vec<Layer>,
}

impl Model for Frames {
    ghost use Rattle.std.specs.Prelude.{List, reverse};
    ghost use Rattle.std.specs.Coded.{coded_list};
    ghost use Rattle.script_eval.specs.declared.frames.Layer.{Layer as OneLayer};
    ghost use Rattle.script_eval.specs.contracts.frames.Layer as one_layer;

    ghost Value = { List OneLayer };

    ghost coded = { coded_list one_layer.the_row.coded };

    ghost view = { λ frames. reverse frames.items.items };
}

impl Frames {
    /// No layer.
    pub(crate) fn new(alloc: Global) -> Frames
        ensures { result ≡ [] }
    {
        Frames {
            items: Vec::new(alloc),
        }
    }

    /// The layer is the innermost from here on.
    #[inline(always)]
    pub(crate) fn push(&mut self, layer: Layer) -> Mem<()>
        ensures { OnOk result (self.new ≡ layer ∷ self.old) }
    {
        match self.items.push(layer) {
            Ok(()) => Ok(()),
            Err(_) => Err(NoMemory),
        }
    }

    /// The innermost layer is taken out.
    pub(crate) fn pop(&mut self) -> Option<Layer>
        ensures { MatchOption result ((self.old ≡ []) × (self.new ≡ [])) (λ layer. self.old ≡ layer ∷ self.new) }
    {
        self.items.pop()
    }
}
