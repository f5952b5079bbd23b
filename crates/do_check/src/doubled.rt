//! Names for the second time.
#![tactic(auto, using(std::proofs::lemmas::Grind::common_steps, crate::proofs::Append::least_append))]

ghost use Rattle.std.specs.Prelude.{◌≡◌, ◌||◌, ◌++◌, [], ℕ, List, IfOk, OnOk, map};
ghost use Rattle.std.specs.BTreeSet.{contains_text};
ghost use Rattle.std.specs.List.{list_any};
ghost use Rattle.std.specs.Str.{bytes_eq};
ghost use Rattle.do_check.specs.First.{least};
ghost use Rattle.do_check.specs.Parts.{doubles, has_text, when};
ghost use Rattle.do_check.specs.Told.{Tells};
ghost use Rattle.do_tree.specs.Names.{declared_in, name_of_class, name_of_method};
ghost use Rattle.do_tree.specs.Seen.{class_of, items_in, method_of, named_of, with_item};
ghost use Rattle.do_tree.specs.Tree.{Named, no_items};

use crate::found::{Found, keep_when};
use crate::known::{Known, no_texts, note};
use do_tree::{CheckKind, Class, Item, Method, Name};
use do_value::Mem;
use std::alloc::Global;
use std::collections::BTreeSet;

/// Notes the name. It is found where its text was noted before.
fn check_name(alloc: Global, texts: &mut BTreeSet<String>, name: &Name, found: Found) -> Mem<Found>
    ensures found { IfOk result (λ now. now ≡ least found
        (when (contains_text texts.old (named_of name.now).text) (named_of name.now).at CheckKind.Doubled)) }
    ensures noted { OnOk result ((other : List ℕ) → contains_text texts.new other
        ≡ (bytes_eq (named_of name.now).text other || contains_text texts.old other)) }
{
    let was = note(alloc, texts, name.text.as_str())?;
    Ok(keep_when(found, was, name.at, CheckKind::Doubled))
}

/// Finds names for the second time, and notes them in a set that is empty.
pub fn check_names(
    alloc: Global,
    texts: &mut BTreeSet<String>,
    names: &[Name],
    found: Found,
) -> Mem<Found>
    requires { Tells texts.old has_text [] }
    ensures found { IfOk result (λ now. now ≡ least found (doubles [] (map named_of names.now))) }
    ensures noted { OnOk result (Tells texts.new has_text (map named_of names.now)) }
{
    let mut found = found;
    for i in 0..names.len() {
        found = check_name(alloc, texts, &names[i], found)?;
    }
    Ok(found)
}

/// Finds classes for the second time.
pub fn check_class_names(alloc: Global, classes: &[Class], found: Found) -> Mem<Found>
    ensures { IfOk result (λ now. now ≡ least found (doubles [] (map name_of_class (map class_of classes.now)))) }
{
    let mut texts = no_texts(alloc);
    let mut found = found;
    for i in 0..classes.len() {
        found = check_name(alloc, &mut texts, &classes[i].name, found)?;
    }
    Ok(found)
}

/// Finds methods for the second time. A constructor has a name too.
pub fn check_method_names(alloc: Global, methods: &[Method], found: Found) -> Mem<Found>
    ensures { IfOk result (λ now. now ≡ least found (doubles [] (map name_of_method (map method_of methods.now)))) }
{
    let mut texts = no_texts(alloc);
    let mut found = found;
    for i in 0..methods.len() {
        found = check_name(alloc, &mut texts, &methods[i].name, found)?;
    }
    Ok(found)
}

/// Finds names that the items of a block declare for the second time.
pub fn check_block(alloc: Global, items: &[Item], found: Found) -> Mem<Found>
    ensures { IfOk result (λ now. now ≡ least found (doubles [] (declared_in (items_in items.now)))) }
{
    let texts = no_texts(alloc);
    check_declared(alloc, &Known::new(&[], &texts), items, found)
}

/// Finds names that the items declare for the second time, or that stand before them.
pub fn check_declared(alloc: Global, front: &Known, items: &[Item], found: Found) -> Mem<Found>
    ensures { IfOk result (λ now. now ≡ least found (doubles (map named_of front.now.names.now) (declared_in (items_in items.now)))) }
{
    let mut texts = no_texts(alloc);
    let mut found = found;
    for i in 0..items.len() {
        found = check_item(alloc, front, &mut texts, &items[i], found)?;
    }
    Ok(found)
}

/// Notes the name that an item declares. It is found where it stands before all items, or was noted before.
fn check_item(
    alloc: Global,
    front: &Known,
    texts: &mut BTreeSet<String>,
    item: &Item,
    found: Found,
) -> Mem<Found>
    ensures found { (before : List Named) → Tells texts.old has_text before → IfOk result (λ now. now ≡ least found
        (doubles (map named_of front.now.names.now ++ before) (declared_in (with_item item.now no_items)))) }
    ensures noted { OnOk result ((other : List ℕ) → contains_text texts.new other
        ≡ (list_any (has_text other) (declared_in (with_item item.now no_items)) || contains_text texts.old other)) }
{
    match item {
        Item::Declare { name, .. } => {
            let before = front.has(name.text.as_str());
            let was = note(alloc, texts, name.text.as_str())?;
            Ok(keep_when(found, before || was, name.at, CheckKind::Doubled))
        }
        Item::Stmt(_) => Ok(found),
    }
}
