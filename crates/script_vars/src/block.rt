//! One block of names.
ghost use Rattle.std.specs.Prelude.{◌≡◌, ◌++◌, [], ◌∷◌, ◌<◌, length, set, get_or, option_map, IfOk, OnOk, OnErr, MatchOption, None};
ghost use Rattle.do_value.specs.Seen.{tree_of};
ghost use Rattle.script_mean.specs.Turn.{bound_in};
ghost use Rattle.script_vars.specs.Seen.{bound_of, value_in, emptied, scope_of};
ghost use Rattle.script_vars.specs.Places.{IsLatest, no_name};

use crate::bound::Bound;
use do_value::{Mem, NoMemory, Text, Value};
use std::alloc::Global;
use std::marker::Model;

/// The names of one block with what they stand for, the latest last.
#[derive(Debug, Drop)]
pub(crate) struct Block {
    names: Vec<(Text, Bound)>,
}

impl Model for Block {
    ghost use Rattle.std.specs.Prelude.{List, ℕ};
    ghost use Rattle.std.specs.Coded.{coded_list, coded×, coded_ℕ};
    ghost use Rattle.script_vars.specs.declared.bound.Bound.{Bound as OneBound};
    ghost use Rattle.script_vars.specs.contracts.bound.Bound as one_bound;

    ghost Value = { List (List ℕ × OneBound) };

    ghost coded = { coded_list (coded× (coded_list coded_ℕ) one_bound.the_row.coded) };

    ghost view = { λ block. block.names.items };
}

impl Block {
    /// A block without names.
    pub(crate) fn new(alloc: Global) -> Block
        ensures { result ≡ [] }
    {
        Block {
            names: Vec::new(alloc),
        }
    }

    /// A name is bound, over an earlier one of the same spelling.
    pub(crate) fn add(&mut self, name: &Text, bound: Bound) -> Mem<()>
        ensures added { OnOk result (self.new ≡ self.old ++ (name.now, bound) ∷ []) }
        ensures kept { OnErr result (self.new ≡ self.old) }
    {
        let name = name.copy()?;
        match self.names.push((name, bound)) {
            Ok(()) => Ok(()),
            Err(_) => Err(NoMemory),
        }
    }

    /// Where the latest binding of the name stands, counted from the first.
    pub(crate) fn place_of(&self, name: &str) -> Option<usize>
        ensures { MatchOption result (bound_in name.now (scope_of self.now) ≡ None) (IsLatest name.now self.now) }
    {
        for place in (0..self.names.len()).rev() {
            if self.names[place].0.as_str() == name {
                return Some(place);
            }
        }
        None
    }

    /// What the name at the place stands for.
    pub(crate) fn at(&self, place: usize) -> &Bound
        requires { place < length self.now }
        ensures { result.now ≡ (get_or self.now place no_name).1 }
    {
        &self.names[place].1
    }

    /// The name at the place stands for this from here on.
    pub(crate) fn write(&mut self, place: usize, bound: Bound)
        requires { place < length self.old }
        ensures { self.new ≡ set self.old place ((get_or self.old place no_name).0, bound) }
    {
        self.names[place].1 = bound;
    }

    /// The value of the variable at the place, which is `undefined` from then on; `None` where it is no variable.
    pub(crate) fn take(&mut self, place: usize) -> Option<Value>
        requires { place < length self.old }
        ensures value { option_map tree_of result ≡ value_in (bound_of (get_or self.old place no_name).1) }
        ensures after { self.new ≡ set self.old place ((get_or self.old place no_name).0, emptied (get_or self.old place no_name).1) }
    {
        let (_, bound) = &mut self.names[place];
        bound.take()
    }
}
