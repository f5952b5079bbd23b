//! Texts that were noted, to be looked up among many.
#![tactic(auto, using(std::proofs::lemmas::Grind::common_steps, crate::proofs::Append::least_append))]

ghost use Rattle.std.specs.Prelude.{◌≡◌, ◌&&◌, ◌||◌, false, ℕ, List, IfOk, OnOk, map};
ghost use Rattle.std.specs.BTreeSet.{contains_text};
ghost use Rattle.std.specs.List.{list_any};
ghost use Rattle.std.specs.Str.{bytes_eq};
ghost use Rattle.do_check.specs.Parts.{has_text};
ghost use Rattle.do_check.specs.Told.{Tells};
ghost use Rattle.do_tree.specs.Seen.{named_of};

use do_tree::Name;
use do_value::{Mem, NoMemory};
use std::alloc::Global;
use std::collections::BTreeSet;

/// Names, with a sorted set of their texts.
#[derive(Drop)]
pub struct Known<'a> {
    pub names: &'a [Name],
    pub texts: &'a BTreeSet<String>,
    ghost tells: { Tells texts.now has_text (map named_of names.now) },
}

impl<'a> Known<'a> {
    /// The names, with the set of their texts.
    pub fn new(names: &'a [Name], texts: &'a BTreeSet<String>) -> Known<'a>
        requires { Tells texts.now has_text (map named_of names.now) }
        ensures { result.names.now ≡ names.now }
    {
        Known { names, texts }
    }

    /// Whether one of the names has this text.
    pub fn has(&self, text: &str) -> bool
        ensures { result ≡ list_any (has_text text.now) (map named_of self.now.names.now) }
    {
        self.texts.contains(text)
    }
}

/// No texts.
pub fn no_texts(alloc: Global) -> BTreeSet<String>
    ensures { (text : List ℕ) → contains_text result text ≡ false }
{
    BTreeSet::new(alloc)
}

/// Notes the text, and tells whether it was there before.
pub fn note(alloc: Global, texts: &mut BTreeSet<String>, text: &str) -> Mem<bool>
    ensures was { IfOk result (λ was. was ≡ contains_text texts.old text.now) }
    ensures noted { OnOk result ((other : List ℕ) → contains_text texts.new other
        ≡ (bytes_eq text.now other || contains_text texts.old other)) }
{
    let was = texts.contains(text);
    let Ok(owned) = String::from_str(alloc, text) else {
        return Err(NoMemory);
    };
    match texts.insert(owned) {
        Ok(_) => Ok(was),
        Err(_) => Err(NoMemory),
    }
}

/// Notes the text, where the test is true.
pub fn note_when(alloc: Global, texts: &mut BTreeSet<String>, test: bool, text: &str) -> Mem<()>
    ensures { OnOk result ((other : List ℕ) → contains_text texts.new other
        ≡ ((test && bytes_eq text.now other) || contains_text texts.old other)) }
{
    if test {
        note(alloc, texts, text)?;
    }
    Ok(())
}
