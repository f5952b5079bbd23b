//! What the items of a block declare, to be looked up among many.
#![tactic(auto, using(std::proofs::lemmas::Grind::common_steps, crate::proofs::Append::least_append))]

ghost use Rattle.std.specs.Prelude.{◌≡◌, [], ℕ, List, OnOk};
ghost use Rattle.std.specs.BTreeMap.{get_by_text};
ghost use Rattle.do_check.specs.Sorts.{AreSorts, declared_sort, declares, or_else};

use crate::sort::{Sort, bound_as};
use do_tree::Item;
use do_value::{Mem, NoMemory};
use std::alloc::Global;
use std::collections::BTreeMap;

/// Items of a block, with a sorted map of the names that they declare.
#[derive(Drop)]
pub struct Declared<'a> {
    pub items: &'a [Item],
    pub sorts: &'a BTreeMap<String, Sort>,
    ghost told: { AreSorts sorts.now items.now },
}

impl<'a> Declared<'a> {
    /// The items, with the map of the names that they declare.
    pub fn new(items: &'a [Item], sorts: &'a BTreeMap<String, Sort>) -> Declared<'a>
        requires { AreSorts sorts.now items.now }
        ensures { result.items.now ≡ items.now }
    {
        Declared { items, sorts }
    }

    /// What the last declaration of this name makes of it.
    pub fn sort(&self, text: &str) -> Option<Sort>
        ensures { result ≡ declared_sort self.now.items.now text.now }
    {
        self.sorts.get(text).copied()
    }
}

/// The map of no items.
pub fn no_sorts(alloc: Global) -> BTreeMap<String, Sort>
    ensures { AreSorts result [] }
{
    BTreeMap::new(alloc)
}

/// Keeps what one more item declares.
#[tactic(auto, using(std::proofs::lemmas::Map::Text::text_keys))]
pub fn declare(alloc: Global, sorts: &mut BTreeMap<String, Sort>, item: &Item) -> Mem<()>
    ensures { OnOk result ((text : List ℕ) → get_by_text sorts.new text ≡ or_else (declares item.now text) (get_by_text sorts.old text)) }
{
    match item {
        Item::Declare { binding, name, .. } => {
            let Ok(text) = String::from_str(alloc, name.text.as_str()) else {
                return Err(NoMemory);
            };
            match sorts.insert(text, bound_as(*binding)) {
                Ok(_) => Ok(()),
                Err(_) => Err(NoMemory),
            }
        }
        Item::Stmt(_) => Ok(()),
    }
}
