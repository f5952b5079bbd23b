//! The names in sight, and those that are bound.
#![tactic(auto, using(std::proofs::lemmas::Grind::common_steps, crate::proofs::Append::least_append))]

ghost use Rattle.std.specs.Prelude.{◌≡◌, map, option_map};
ghost use Rattle.do_check.specs.First.{least};
ghost use Rattle.do_check.specs.Parts.{all_bound_faults, bound_faults, option_bound_faults};
ghost use Rattle.do_check.specs.Sight.{names_of, parameters_of};
ghost use Rattle.do_check.specs.Sorts.{sort_of};
ghost use Rattle.do_tree.specs.Forms.{among, sort_in};
ghost use Rattle.do_tree.specs.Names.{reserved};
ghost use Rattle.do_tree.specs.Seen.{named_of, option_named_of};

use crate::declared::Declared;
use crate::found::{Found, keep_when};
use crate::known::Known;
use crate::sort::{Sort, parameter_sort};
use do_tree::{CheckKind, MethodKind, Name};

/// The names in sight, the innermost first.
#[derive(Clone, Copy)]
pub enum Names<'a> {
    /// The parameters of a method of this kind.
    Parameters {
        kind: MethodKind,
        known: &'a Known<'a>,
    },
    /// Those that the items of a block have declared so far, and those outside of the block.
    Declared {
        block: &'a Declared<'a>,
        outer: &'a Names<'a>,
    },
    /// One more.
    Bound {
        name: &'a Name,
        sort: Sort,
        outer: &'a Names<'a>,
    },
}

/// What the innermost binding of a name makes of it, `None` where it isn't in sight.
#[tactic(auto, using(std::proofs::lemmas::Grind::common_steps, crate::proofs::Append::least_append, crate::proofs::Walked::behind_found, crate::proofs::Walked::behind_missing))]
pub fn find(names: &Names, text: &str) -> Option<Sort>
    ensures { option_map sort_of result ≡ sort_in (names_of names.now) text.now }
{
    match names {
        Names::Parameters { kind, known } => find_parameter(*kind, known, text),
        Names::Declared { block, outer } => match block.sort(text) {
            Some(sort) => Some(sort),
            None => find(outer, text),
        },
        Names::Bound { name, sort, outer } => {
            if name.text.as_str() == text {
                Some(*sort)
            } else {
                find(outer, text)
            }
        }
    }
}

/// What a parameter of this name is.
#[tactic(auto, using(std::proofs::lemmas::Grind::common_steps, crate::proofs::Told::parameter_is, crate::proofs::Told::no_parameter))]
fn find_parameter(kind: MethodKind, known: &Known, text: &str) -> Option<Sort>
    ensures { option_map sort_of result ≡ sort_in (parameters_of kind known.now.names.now) text.now }
{
    if known.has(text) {
        Some(parameter_sort(kind, text))
    } else {
        None
    }
}

/// Finds a reserved name that is bound.
pub fn check_bound(name: &Name, found: Found) -> Found
    ensures { result ≡ least found (bound_faults (named_of name.now)) }
{
    keep_when(
        found,
        is_reserved(name.text.as_str()),
        name.at,
        CheckKind::Reserved,
    )
}

fn is_reserved(name: &str) -> bool
    ensures { result ≡ among reserved name.now }
{
    "ctx" == name
        || "env" == name
        || "fetch" == name
        || "Date" == name
        || "Object" == name
        || "String" == name
        || "Number" == name
        || "Array" == name
        || "Error" == name
        || "DurableObject" == name
}

/// As `check_bound`, where there is a name.
pub fn check_option_bound(name: &Option<Name>, found: Found) -> Found
    ensures { result ≡ least found (option_bound_faults (option_named_of name.now)) }
{
    match name {
        Some(name) => check_bound(name, found),
        None => found,
    }
}

/// As `check_bound`, of each of the names.
pub fn check_all_bound(names: &[Name], found: Found) -> Found
    ensures { result ≡ least found (all_bound_faults (map named_of names.now)) }
{
    let mut found = found;
    for name in names {
        found = check_bound(name, found);
    }
    found
}
