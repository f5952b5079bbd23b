//! Texts by number.
ghost use Rattle.std.specs.Prelude.{◌≡◌, Some, [], IfOk, OnOk, OnErr};
ghost use Rattle.placement.specs.Numbers.{number_of, noted};

use do_value::{Mem, NoMemory};
use indexmap::IndexSet;
use std::alloc::Global;
use std::marker::Model;

// Texts in the order in which they came, each once. The number of a text is its place, counted from 0. Contracts see the list of
// their UTF-8 bytes.
pub(crate) struct Texts {
    alloc: Global,
    texts: IndexSet<String>,
}

// Written out, so that letting one go is proved once.
impl Drop for Texts {
    fn drop(self) {
        let Texts { alloc: _, texts } = self;
        drop(texts);
    }
}

impl Model for Texts {
    ghost use Rattle.std.specs.Prelude.{List, ℕ, map, string_bytes};

    ghost Value = { List (List ℕ) };

    ghost view = { λ a. map string_bytes a.texts.keys };
}

impl Texts {
    pub(crate) fn new(alloc: Global) -> Texts
        ensures { result ≡ [] }
    {
        Texts {
            alloc,
            texts: IndexSet::new(alloc),
        }
    }

    // The number of the text, if it has one. It takes no memory.
    pub(crate) fn number_of(&self, text: &str) -> Option<usize>
        ensures { result ≡ number_of self.now text.now }
    {
        self.texts.get_index_of(text)
    }

    // The number of the text, which comes last if it isn't there. After `NoMemory` nothing is changed.
    pub(crate) fn note(&mut self, text: &str) -> Mem<usize>
        ensures noted { OnOk result (self.new ≡ noted self.old text.now) }
        ensures number { IfOk result (λ number. number_of self.new text.now ≡ Some number) }
        ensures same { OnErr result (self.new ≡ self.old) }
    {
        if let Some(number) = self.number_of(text) {
            return Ok(number);
        }
        let Ok(owned) = String::from_str(self.alloc, text) else {
            return Err(NoMemory);
        };
        let Ok((number, _)) = self.texts.insert_full(owned) else {
            return Err(NoMemory);
        };
        Ok(number)
    }
}
