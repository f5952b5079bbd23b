//! The blocks in sight.
ghost use Rattle.std.specs.Prelude.{◌≡◌, [], ◌∷◌, option_map, OnOk, OnErr, MatchOption, map, None};
ghost use Rattle.do_value.specs.Seen.{tree_of, trees_in};
ghost use Rattle.do_tree.specs.Seen.{named_of};
ghost use Rattle.script_mean.specs.Turn.{outer, with_name, bound, rebound};
ghost use Rattle.script_mean.specs.Meaning.{with_parameters, with_given};
ghost use Rattle.script_vars.specs.Seen.{bound_of, scope_of, env_of, value_of, emptied_in};
ghost use Rattle.script_vars.specs.Places.{IsInnermost};

use crate::block::Block;
use crate::bound::Bound;
use crate::calls::{constructor_block, parameters_block};
use do_tree::Name;
use do_value::{Mem, NoMemory, Text, Value};
use std::alloc::Global;
use std::marker::Model;

/// The variables of a task: the names in sight, in blocks inside each other. Contracts see the list of the blocks, the
/// outermost first, each the list of its names, the latest last. Want of memory leaves them as they were.
#[derive(Debug, Drop)]
pub struct Vars {
    blocks: Vec<Block>,
}

impl Model for Vars {
    ghost use Rattle.std.specs.Prelude.{List, ℕ};
    ghost use Rattle.std.specs.Coded.{coded_list, coded×, coded_ℕ};
    ghost use Rattle.script_vars.specs.declared.bound.Bound.{Bound as OneBound};
    ghost use Rattle.script_vars.specs.contracts.bound.Bound as one_bound;

    ghost Value = { List (List (List ℕ × OneBound)) };

    ghost coded = { coded_list (coded_list (coded× (coded_list coded_ℕ) one_bound.the_row.coded)) };

    ghost view = { λ vars. vars.blocks.items };
}

// Where a name's binding stands: the block, counted from the outermost, and the place in it, from the first.
#[derive(Clone, Copy)]
struct Place {
    block: usize,
    name: usize,
}

impl Vars {
    // A block begins.
    fn add(&mut self, block: Block) -> Mem<()>
        ensures added { OnOk result (env_of self.new ≡ scope_of block ∷ env_of self.old) }
        ensures kept { OnErr result (self.new ≡ self.old) }
    {
        match self.blocks.push(block) {
            Ok(()) => Ok(()),
            Err(_) => Err(NoMemory),
        }
    }

    // Where the innermost binding of the name stands.
    fn place_of(&self, name: &str) -> Option<Place>
        ensures { MatchOption result (bound name.now (env_of self.now) ≡ None) (λ place. IsInnermost name.now self.now place.block place.name) }
    {
        for block in (0..self.blocks.len()).rev() {
            if let Some(name) = self.blocks[block].place_of(name) {
                return Some(Place { block, name });
            }
        }
        None
    }

    /// No block, and no name in sight.
    pub fn new(alloc: Global) -> Vars
        ensures { env_of result ≡ [] }
    {
        Vars {
            blocks: Vec::new(alloc),
        }
    }

    /// A block without names begins.
    pub fn enter(&mut self) -> Mem<()>
        ensures entered { OnOk result (env_of self.new ≡ [] ∷ env_of self.old) }
        ensures kept { OnErr result (self.new ≡ self.old) }
    {
        let block = Block::new(*self.blocks.allocator());
        self.add(block)
    }

    /// A block begins that has this name alone.
    pub fn enter_with(&mut self, name: &Text, bound: Bound) -> Mem<()>
        ensures entered { OnOk result (env_of self.new ≡ ((name.now, bound_of bound) ∷ []) ∷ env_of self.old) }
        ensures kept { OnErr result (self.new ≡ self.old) }
    {
        let mut block = Block::new(*self.blocks.allocator());
        block.add(name, bound)?;
        self.add(block)
    }

    /// The innermost block ends, and its names with it. Where there is no block, nothing changes.
    pub fn leave(&mut self)
        ensures { env_of self.new ≡ outer (env_of self.old) }
    {
        let _ = self.blocks.pop();
    }

    /// The name is bound in the innermost block, or in a new one where there is no block.
    pub fn declare(&mut self, name: &Text, value: Value) -> Mem<()>
        ensures declared { OnOk result (env_of self.new ≡ with_name name.now (tree_of value) (env_of self.old)) }
        ensures kept { OnErr result (self.new ≡ self.old) }
    {
        let count = self.blocks.len();
        if count == 0 {
            return self.enter_with(name, Bound::Value(value));
        }
        self.blocks[count - 1].add(name, Bound::Value(value))
    }

    /// What the name stands for: its innermost binding, `None` exactly where it isn't in sight.
    pub fn get(&self, name: &str) -> Option<&Bound>
        ensures { option_map (λ found. bound_of found.now) result ≡ bound name.now (env_of self.now) }
    {
        let place = self.place_of(name)?;
        Some(self.blocks[place.block].at(place.name))
    }

    /// The name's innermost binding is this value from here on. Where the name isn't in sight, nothing changes.
    pub fn set(&mut self, name: &str, value: Value)
        ensures { env_of self.new ≡ rebound name.now (tree_of value) (env_of self.old) }
    {
        if let Some(place) = self.place_of(name) {
            self.blocks[place.block].write(place.name, Bound::Value(value));
        }
    }

    /// The variable's value, which is `undefined` until it is set again, so that a part of it can be changed without
    /// copying the rest. `None` exactly where the name isn't in sight or stands for no value, and then nothing changes.
    pub fn take(&mut self, name: &str) -> Option<Value>
        ensures value { option_map tree_of result ≡ value_of (bound name.now (env_of self.old)) }
        ensures after { env_of self.new ≡ emptied_in name.now (env_of self.old) }
    {
        let place = self.place_of(name)?;
        self.blocks[place.block].take(place.name)
    }

    /// A block begins that has the parameters of a method or a helper. One that no argument is given for is
    /// `undefined`; arguments past the last parameter are dropped (ECMA-262, FunctionDeclarationInstantiation).
    pub fn parameters(&mut self, names: &[Name], values: Vec<Value>) -> Mem<()>
        ensures entered { OnOk result (env_of self.new ≡ with_parameters (map named_of names.now) (trees_in values.items) [] ∷ env_of self.old) }
        ensures kept { OnErr result (self.new ≡ self.old) }
    {
        let block = parameters_block(*self.blocks.allocator(), names, values)?;
        self.add(block)
    }

    /// A block begins that has a constructor's parameters: `ctx` stands for its context, any other for its environment.
    pub fn constructor(&mut self, names: &[Name]) -> Mem<()>
        ensures entered { OnOk result (env_of self.new ≡ with_given (map named_of names.now) [] ∷ env_of self.old) }
        ensures kept { OnErr result (self.new ≡ self.old) }
    {
        let block = constructor_block(*self.blocks.allocator(), names)?;
        self.add(block)
    }
}
