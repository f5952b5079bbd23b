//! What a merged listing has left of the places of a transaction's operations, and of the pairs below.
ghost use Rattle.std.specs.Prelude.{◌≡◌, ◌∷◌, [], MatchOption, not, option_map, if◌then◌else◌};
ghost use Rattle.std.specs.FinMap.{from_entries};
ghost use Rattle.std.specs.Ordering.{is_lt};
ghost use Rattle.storage_map.specs.Contents.{Values, by_bytes};
ghost use Rattle.storage_map.specs.Orders.{IsOrderly};
ghost use Rattle.storage_map.specs.Readings.{turned};
ghost use Rattle.storage_txn.specs.Ahead.{IsToward, first_key, first_value, at_front, without};

use do_value::Value;
use std::marker::Model;
use storage_map::{Key, Pairs, Range};

/// The keys of a listing with the places of the last operations on them, one of them held in front. Contracts see all of them.
#[derive(Drop)]
pub(crate) struct PlacesLeft<'a> {
    held: Option<(&'a str, &'a usize)>,
    rest: Range<'a, usize>,
}

impl<'a> Model for PlacesLeft<'a> {
    ghost use Rattle.std.specs.Prelude.{List, ℕ, ◌≡◌, None, []};
    ghost use Rattle.std.specs.Coded.{coded_list, coded×, coded_ℕ};
    ghost use Rattle.storage_txn.specs.Ahead.{held_first};

    ghost Value = { List (List ℕ × ℕ) };

    ghost coded = { coded_list (coded× (coded_list coded_ℕ) coded_ℕ) };

    ghost view = { λ left. held_first left.held left.rest };

    ghost invariant = { λ left. left.held ≡ None → left.rest ≡ [] };
}

impl<'a> PlacesLeft<'a> {
    pub(crate) fn new(mut rest: Range<'a, usize>) -> PlacesLeft<'a>
        ensures { result ≡ rest.entry }
    {
        let held = rest.next();
        PlacesLeft { held, rest }
    }

    /// The place in front.
    pub(crate) fn first(&self) -> Option<usize>
        ensures { result ≡ first_value self.now }
    {
        match self.held {
            Some((_, place)) => Some(*place),
            None => None,
        }
    }

    /// Takes the place in front, where it is this key's.
    pub(crate) fn take(&mut self, key: &Key) -> Option<usize>
        ensures place { result ≡ at_front key.now self.old }
        ensures left { self.new ≡ without key.now self.old }
    {
        let (text, place) = self.held?;
        if key.as_str() != text {
            return None;
        }
        self.held = self.rest.next();
        Some(*place)
    }
}

/// The pairs below in the direction of a listing. Contracts see those that are left.
#[derive(Drop)]
pub(crate) struct PairsLeft<'a> {
    pairs: &'a [(Key, Value)],
    // Whether the last of them is the next.
    backward: bool,
}

impl<'a> Model for PairsLeft<'a> {
    ghost use Rattle.std.specs.Prelude.{List, ℕ};
    ghost use Rattle.std.specs.Coded.{coded_list, coded×, coded_ℕ};
    ghost use Rattle.do_value.specs.declared.value.Value.{Value as OneValue};
    ghost use Rattle.do_value.specs.contracts.value.Value as one_value;
    ghost use Rattle.storage_map.specs.Readings.{turned};

    ghost Value = { List (List ℕ × OneValue) };

    ghost coded = { coded_list (coded× (coded_list coded_ℕ) one_value.the_row.coded) };

    ghost view = { λ left. turned left.backward left.pairs.now };
}

impl<'a> PairsLeft<'a> {
    /// The pairs in this direction, whichever they stand in.
    pub(crate) fn new(pairs: &'a Pairs, reverse: bool) -> PairsLeft<'a>
        ensures sorted { IsToward reverse result }
        ensures same { ◌≡◌ {A = Values} (from_entries result) (from_entries pairs.now) }
    {
        let pairs = pairs.as_slice();
        let ascending = ascends(pairs);
        PairsLeft {
            pairs,
            backward: is_backward(ascending, reverse),
        }
    }

    /// The key in front.
    pub(crate) fn first(&self) -> Option<&'a Key>
        ensures { option_map (λ key. key.now) result ≡ first_key self.now }
    {
        let (pair, _) = split(self.pairs, self.backward)?;
        Some(&pair.0)
    }

    /// Takes the value in front, where it is this key's.
    pub(crate) fn take(&mut self, key: &Key) -> Option<&'a Value>
        ensures value { option_map (λ value. value.now) result ≡ at_front key.now self.old }
        ensures left { self.new ≡ without key.now self.old }
    {
        let (pair, rest) = split(self.pairs, self.backward)?;
        if key.as_str() != pair.0.as_str() {
            return None;
        }
        self.pairs = rest;
        Some(&pair.1)
    }
}

// The next of the pairs and the others.
fn split<'a>(
    pairs: &'a [(Key, Value)],
    backward: bool,
) -> Option<(&'a (Key, Value), &'a [(Key, Value)])>
    ensures { MatchOption result (turned backward pairs.now ≡ [])
        (λ x. turned backward pairs.now ≡ x.0.now ∷ turned backward x.1.now) }
{
    if backward {
        pairs.split_last()
    } else {
        pairs.split_first()
    }
}

// Whether the last of such pairs is the next in this direction.
fn is_backward(ascending: bool, reverse: bool) -> bool
    ensures { result ≡ (if reverse then ascending else not ascending) }
{
    if reverse { ascending } else { !ascending }
}

// Whether the pairs, which ascend or descend, ascend.
fn ascends(pairs: &[(Key, Value)]) -> bool
    requires { IsOrderly pairs.now }
    ensures { IsToward (not result) pairs.now }
{
    if pairs.len() < 2 {
        return true;
    }
    rises(&pairs[0].0, &pairs[1].0)
}

fn rises(one: &Key, other: &Key) -> bool
    ensures { result ≡ is_lt (by_bytes one.now other.now) }
{
    one.as_str() < other.as_str()
}
