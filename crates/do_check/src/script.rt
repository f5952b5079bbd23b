//! The check of a whole script.
#![tactic(auto, using(std::proofs::lemmas::Grind::common_steps, crate::proofs::Append::least_append))]

ghost use Rattle.std.specs.Prelude.{◌≡◌, IfErr, IfOk, OnOk, map};
ghost use Rattle.do_check.specs.First.{IsRefusal, least};
ghost use Rattle.do_check.specs.Parts.{class_faults, classes_faults, method_faults, methods_faults, parameter_faults, script_faults};
ghost use Rattle.do_tree.specs.Checked.{tree_of};
ghost use Rattle.do_tree.specs.Faults.{IsFaultless};
ghost use Rattle.do_tree.specs.Seen.{class_of, method_of, script_of};

use crate::doubled::{check_class_names, check_declared, check_method_names, check_names};
use crate::fault::CheckFault;
use crate::found::Found;
use crate::known::{Known, no_texts};
use crate::methods::{Methods, is_constructor};
use crate::named::{Names, check_all_bound, check_bound};
use crate::scope::Scope;
use crate::walk::walk_items;
use do_tree::{CheckKind, Checked, Class, Method, Script};
use do_value::Mem;
use std::alloc::Global;

/// Gives the script as one in which the check finds no fault, or its first fault: the one of the smallest place, and at
/// one place the one of the kind that stands first in [`CheckKind`]. The names in sight are kept in sorted maps, so that a
/// script with many names is checked in about the time that its text takes to read. [`CheckKind::NoMemory`], at place 0, is
/// want of memory for them; the script is let go then, and nothing is said of it.
#[tactic(auto, using(std::proofs::lemmas::Grind::common_steps, crate::proofs::Append::least_append, crate::proofs::Least::faultless))]
pub fn check(alloc: Global, script: Script) -> Result<Checked, CheckFault>
    ensures ok { IfOk result (λ checked. tree_of checked ≡ script_of script) }
    ensures faultless { OnOk result (IsFaultless (script_of script)) }
    ensures err { IfErr result (λ fault. IsRefusal (script_of script) fault) }
{
    match find_fault(alloc, &script) {
        Ok(None) => Ok(Checked::new(script)),
        Ok(Some(fault)) => Err(fault),
        Err(_) => Err(CheckFault {
            place: 0,
            kind: CheckKind::NoMemory,
        }),
    }
}

/// The first fault of the script, if it has one.
fn find_fault(alloc: Global, script: &Script) -> Mem<Found>
    ensures { IfOk result (λ now. now ≡ least None (script_faults (script_of script.now))) }
{
    let found = check_class_names(alloc, &script.classes, None)?;
    Ok(check_classes(alloc, &script.classes, found)?)
}

fn check_classes(alloc: Global, classes: &[Class], found: Found) -> Mem<Found>
    ensures { IfOk result (λ now. now ≡ least found (classes_faults (map class_of classes.now))) }
{
    let mut found = found;
    for class in classes {
        found = check_class(alloc, class, found)?;
    }
    Ok(found)
}

fn check_class(alloc: Global, class: &Class, found: Found) -> Mem<Found>
    ensures { IfOk result (λ now. now ≡ least found (class_faults (class_of class.now))) }
{
    let found = check_bound(&class.name, found);
    let found = check_method_names(alloc, &class.methods, found)?;
    let methods = Methods::of(alloc, class)?;
    Ok(check_methods(alloc, &methods, &class.methods, found)?)
}

fn check_methods(alloc: Global, all: &Methods, methods: &[Method], found: Found) -> Mem<Found>
    ensures { IfOk result (λ now. now ≡ least found (methods_faults (class_of all.now.class.now) (map method_of methods.now))) }
{
    let mut found = found;
    for method in methods {
        found = check_method(alloc, all, method, found)?;
    }
    Ok(found)
}

#[tactic(auto, using(std::proofs::lemmas::Grind::common_steps, crate::proofs::Append::least_append, crate::proofs::Walked::doubles_append))]
fn check_method(alloc: Global, all: &Methods, method: &Method, found: Found) -> Mem<Found>
    ensures { IfOk result (λ now. now ≡ least found (method_faults (class_of all.now.class.now) (method_of method.now))) }
{
    let mut texts = no_texts(alloc);
    let found = check_names(alloc, &mut texts, &method.parameters, found)?;
    let known = Known::new(&method.parameters, &texts);
    let found = check_declared(alloc, &known, &method.body.items, found)?;
    let found = check_parameters(method, found);
    let scope = Scope {
        alloc,
        methods: all,
        method: method.kind,
        names: Names::Parameters {
            kind: method.kind,
            known: &known,
        },
        in_loop: false,
        in_transaction: false,
        in_block: false,
        last: is_constructor(method.kind),
    };
    Ok(walk_items(&scope, &method.body.items, found)?)
}

/// Finds reserved names among the parameters of a method. A constructor's are given.
fn check_parameters(method: &Method, found: Found) -> Found
    ensures { result ≡ least found (parameter_faults (method_of method.now)) }
{
    if is_constructor(method.kind) {
        found
    } else {
        check_all_bound(&method.parameters, found)
    }
}
