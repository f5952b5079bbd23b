//! The walk of a merged listing: over the places of a transaction's operations and the pairs below, one of each held.
ghost use Rattle.std.specs.Prelude.{◌≡◌, ◌++◌, ◌<◌, Some, None, option_map, length};
ghost use Rattle.std.specs.FinMap.{from_entries};
ghost use Rattle.std.specs.Map.Iter.{TakesFirst, deref_pair};
ghost use Rattle.std.specs.Ordering.{is_lt, is_le};
ghost use Rattle.storage_txn.specs.Ahead.{toward, ahead, pair_at, first_key, nearer, key_in, if_ahead, nearest_on};
ghost use Rattle.storage_txn.specs.Placed.{ArePlaced, op_at};
ghost use Rattle.storage_txn.specs.Touched.{through};
ghost use Rattle.storage_txn.specs.Walked.{IsWalk, left_of, nearest_of, most_left};

use crate::left::{PairsLeft, PlacesLeft};
use crate::places::{Latest, Places, key_of};
use do_value::Value;
use storage_map::{Key, Op, Options, Pairs};

/// What a listing has to lend ahead of the last key that was passed: of a transaction's operations with their places, and of the
/// pairs below.
#[derive(Drop)]
pub(crate) struct Walk<'a> {
    ops: &'a [Op],
    places: &'a Places,
    options: &'a Options,
    placed: PlacesLeft<'a>,
    below: PairsLeft<'a>,
    last: Option<&'a Key>,
}

impl<'a> Walk<'a> {
    /// Before the first key.
    pub(crate) fn new(
        ops: &'a [Op],
        places: &'a Places,
        options: &'a Options,
        below: &'a Pairs,
    ) -> Walk<'a>
        requires { ArePlaced places.now ops.now }
        ensures left { left_of result ≡ ahead options.now None (from_entries below.now) ops.now }
        ensures walk { IsWalk result }
    {
        Walk {
            ops,
            places,
            options,
            placed: PlacesLeft::new(places.at.within(options)),
            below: PairsLeft::new(below, options.reverse),
            last: None,
        }
    }

    /// The next pair.
    pub(crate) fn next(&mut self) -> Option<(&'a Key, &'a Value)>
        requires { IsWalk self.old }
        ensures next { TakesFirst deref_pair (left_of self.old) result (left_of self.new) }
        ensures walk { IsWalk self.new }
    {
        while let Some(key) = self.nearest() {
            if let Some(value) = self.pass(key) {
                return Some((key, value));
            }
        }
        None
    }

    // The nearest key ahead. Operations without a place, which are there only where memory was wanting, are all walked over.
    fn nearest(&self) -> Option<&'a Key>
        requires { IsWalk self.now }
        ensures { option_map (λ key. key.now) result ≡ nearest_of self.now }
    {
        let reverse = self.options.reverse;
        let held = nearer(reverse, self.first_placed(), self.below.first());
        let other = nearest_on(reverse, self.last, &self.ops[self.places.count..]);
        nearer(reverse, held, other)
    }

    // The key of the place in front.
    fn first_placed(&self) -> Option<&'a Key>
        requires { IsWalk self.now }
        ensures { option_map (λ key. key.now) result ≡ first_key self.now.placed }
    {
        let place = self.placed.first()?;
        key_at(self.ops, place)
    }

    // Passes the nearest key, and gives its value where the listing has it.
    fn pass(&mut self, key: &'a Key) -> Option<&'a Value>
        requires walk { IsWalk self.old }
        requires nearest { nearest_of self.old ≡ Some key.now }
        ensures left { left_of self.old ≡ pair_at key.now (option_map (λ value. value.now) result) ++ left_of self.new }
        ensures walk { IsWalk self.new }
        ensures fewer { most_left self.new < most_left self.old }
    {
        let place = self.placed.take(key);
        let below = self.below.take(key);
        self.last = Some(key);
        if !self.options.keeps(key.as_str()) {
            return None;
        }
        over(self.places.latest_at(self.ops, key.as_str(), place), below)
    }
}

// The value, from the one below.
fn over<'a>(latest: Latest<'a>, below: Option<&'a Value>) -> Option<&'a Value>
    ensures { option_map (λ value. value.now) result ≡ through latest.entry (option_map (λ value. value.now) below.entry) }
{
    match latest {
        Latest::Is(value) => Some(value),
        Latest::Gone => None,
        Latest::Untouched => below,
    }
}

// The key of the operation at the place.
fn key_at<'a>(ops: &'a [Op], place: usize) -> Option<&'a Key>
    requires { place < length ops.now }
    ensures { option_map (λ key. key.now) result ≡ key_in (op_at ops.now place) }
{
    key_of(&ops[place])
}

// The nearer of two keys.
fn nearer<'a>(reverse: bool, one: Option<&'a Key>, other: Option<&'a Key>) -> Option<&'a Key>
    ensures { option_map (λ key. key.now) result
        ≡ nearer reverse (option_map (λ key. key.now) one.entry) (option_map (λ key. key.now) other.entry) }
{
    match (one, other) {
        (Some(one), Some(other)) => Some(nearer_of(reverse, one, other)),
        (Some(one), None) => Some(one),
        (None, other) => other,
    }
}

fn nearer_of<'a>(reverse: bool, one: &'a Key, other: &'a Key) -> &'a Key
    ensures { Some result.now ≡ nearer reverse (Some one.now) (Some other.now) }
{
    if is_up_to(reverse, one, other) {
        one
    } else {
        other
    }
}

// Whether the one key is the other or before it in this direction.
fn is_up_to(reverse: bool, one: &Key, other: &Key) -> bool
    ensures { result ≡ is_le (toward reverse one.now other.now) }
{
    if reverse {
        other.as_str() <= one.as_str()
    } else {
        one.as_str() <= other.as_str()
    }
}

// Whether the one key is before the other in this direction.
fn is_before(reverse: bool, one: &Key, other: &Key) -> bool
    ensures { result ≡ is_lt (toward reverse one.now other.now) }
{
    if reverse {
        other.as_str() < one.as_str()
    } else {
        one.as_str() < other.as_str()
    }
}

// The nearest key ahead of the last one that the operations are on.
fn nearest_on<'a>(reverse: bool, last: Option<&Key>, ops: &'a [Op]) -> Option<&'a Key>
    ensures { option_map (λ key. key.now) result ≡ nearest_on reverse (option_map (λ key. key.now) last.entry) None ops.now }
{
    let mut found = None;
    for op in ops {
        found = nearer(reverse, found, if_ahead(reverse, last, key_of(op)));
    }
    found
}

// The key, where it lies ahead of the last one.
fn if_ahead<'a>(reverse: bool, last: Option<&Key>, key: Option<&'a Key>) -> Option<&'a Key>
    ensures { option_map (λ key. key.now) result
        ≡ if_ahead reverse (option_map (λ key. key.now) last.entry) (option_map (λ key. key.now) key.entry) }
{
    match (last, key) {
        (Some(last), Some(key)) if !is_before(reverse, last, key) => None,
        _ => key,
    }
}
