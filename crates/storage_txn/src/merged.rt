//! The pairs of a listing that a transaction sees, lent.
ghost use Rattle.std.specs.Prelude.{◌≡◌, ◌≢◌, Some};
ghost use Rattle.std.specs.Map.Iter.{TakesFirst, deref_pair};
ghost use Rattle.storage_map.specs.Lent.{one_fewer};
ghost use Rattle.storage_map.specs.Orders.{IsOrderly};
ghost use Rattle.storage_txn.specs.Overlay.{view};
ghost use Rattle.storage_txn.specs.Placed.{ArePlaced};

use crate::places::Places;
use crate::walk::Walk;
use do_value::Value;
use std::marker::Model;
use storage_map::{Key, Op, Options, Pairs, Reading, StoreAsk};

/// The pairs of a listing through a transaction's writes, lent in its order, each from the writes or from the pairs below.
/// Contracts see those that are still to be lent.
#[derive(Drop)]
pub struct Merged<'a> {
    walk: Walk<'a>,
    left: Option<u64>,
}

impl<'a> Model for Merged<'a> {
    ghost use Rattle.std.specs.Prelude.{List, ℕ};
    ghost use Rattle.std.specs.Coded.{coded_list, coded×, coded_ℕ};
    ghost use Rattle.do_value.specs.declared.value.Value.{Value as OneValue};
    ghost use Rattle.do_value.specs.contracts.value.Value as one_value;
    ghost use Rattle.storage_map.specs.Readings.{limited};
    ghost use Rattle.storage_txn.specs.Walked.{IsWalk, left_of};

    ghost Value = { List (List ℕ × OneValue) };

    ghost coded = { coded_list (coded× (coded_list coded_ℕ) one_value.the_row.coded) };

    ghost view = { λ merged. limited merged.left (left_of merged.walk) };

    ghost invariant = { λ merged. IsWalk merged.walk };
}

impl<'a> Merged<'a> {
    /// The listing of the pairs below through the operations, whose places these are.
    pub(crate) fn new(
        ops: &'a [Op],
        places: &'a Places,
        options: &'a Options,
        below: &'a Pairs,
    ) -> Merged<'a>
        requires { ArePlaced places.now ops.now }
        ensures listed { Reading.Pairs result ≡ view ops.now (StoreAsk.List options.now) (Reading.Pairs below.now) }
        ensures order { IsOrderly result }
    {
        Merged {
            walk: Walk::new(ops, places, options, below),
            left: options.limit,
        }
    }

    /// The next pair, with its key as it is held.
    pub(crate) fn next_pair(&mut self) -> Option<(&'a Key, &'a Value)>
        ensures { TakesFirst deref_pair self.old result self.new }
    {
        if let Some(0) = self.left {
            return None;
        }
        let lent = self.walk.next()?;
        self.left = one_fewer(self.left);
        Some(lent)
    }
}

impl<'a> Iterator for Merged<'a> {
    type Item = (&'a str, &'a Value);

    ghost use Rattle.std.specs.Prelude.{length};
    ghost use Rattle.std.specs.Iterator.{at_most};
    ghost use Rattle.std.specs.Map.Iter.{TakesFirst, deref_pair};

    ghost next_gives = { TakesFirst deref_pair };

    ghost remaining = { λ s. at_most (length s) };

    fn next(&mut self) -> Option<(&'a str, &'a Value)> {
        let (key, value) = self.next_pair()?;
        Some((key.as_str(), value))
    }
}

// How many are left behind the first.
fn one_fewer(left: Option<u64>) -> Option<u64>
    requires { left ≢ Some 0 }
    ensures { result ≡ one_fewer left }
{
    match left {
        Some(left) => Some(left - 1),
        None => None,
    }
}
