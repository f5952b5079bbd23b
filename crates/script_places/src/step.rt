//! Steps from a value to a part of it, and what a write does at their end.
ghost use Rattle.std.specs.Prelude.{◌≡◌};
ghost use Rattle.script_places.specs.Steps.{levels_of, place_of};

use do_value::{Num, Text, Value};

/// A step from a value to a part of it.
#[derive(Debug, Drop)]
pub enum Step {
    /// `x.name`
    Named(Text),
    /// `x[index]`: an item of a list by its place, or a field of a record by its name.
    Indexed(Value),
}

/// What a write does with the part at the end of its steps.
#[derive(Debug, Drop)]
pub(crate) enum Write {
    /// `=` puts the value in its place.
    Put(Value),
    /// `push` puts the value behind its last item.
    Push(Value),
}

/// How many levels of lists and records nest in what the write puts at the end of its steps.
pub(crate) fn levels(write: &Write) -> u32
    ensures { result ≡ levels_of write.now }
{
    match write {
        Write::Put(value) => value.depth(),
        Write::Push(value) => 1 + value.depth(),
    }
}

/// The place of an item that a number names, counted from 0.
pub(crate) fn place_of(n: Num) -> Option<usize>
    ensures { result ≡ place_of n }
{
    let n = n.get();
    if n < 0 { None } else { Some(n as usize) }
}
