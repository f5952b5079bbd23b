//! The directory of objects and slots.
ghost use Rattle.std.specs.Prelude.{◌≡◌, ◌≤◌, ℕ, Some, None, Ok, Err, OnOk, OnErr, IfOk, IsOkUnless, length, replicate, nat_eq};
ghost use Rattle.std.specs.Option.{option_copied};
ghost use Rattle.indexmap.specs.IndexMap.{get};
ghost use Rattle.placement.specs.declared.answers.Placed.{Placed};
ghost use Rattle.placement.specs.Slots.{slot_of, least_free, object_at, with_object, place, after, IsFree, IsOneEach};
ghost use Rattle.placement.specs.Numbers.{IsFirstWithout};

use crate::answers::{AdoptFault, PlaceFault, Placed};
use crate::texts::Texts;
use do_value::{Mem, NoMemory};
use indexmap::IndexMap;
use std::alloc::Global;
use std::marker::Model;
use storage_map::Identity;

/// The slots of a run, and the object of each that has one. Contracts see the list of the slots, each with its object if it has
/// one; no object stands in two of them. Slots are counted from 0.
pub struct Directory {
    slots: u32,
    // each slot below has an object
    passed: u32,
    texts: Texts,
    // the slot of each object, by the numbers of its class and its name
    named: IndexMap<(usize, usize), u32>,
    objects: IndexMap<u32, Identity>,
}

// Written out, as each crate above would prove a derived one again wherever it lets one go.
impl Drop for Directory {
    fn drop(self) {
        let Directory {
            slots: _,
            passed: _,
            texts,
            named,
            objects,
        } = self;
        drop(texts);
        drop(named);
        drop(objects);
    }
}

impl Model for Directory {
    ghost use Rattle.std.specs.Prelude.{nat_eq};
    ghost use Rattle.indexmap.specs.IndexMap.{get};
    ghost use Rattle.placement.specs.Slots.{Slots};
    ghost use Rattle.placement.specs.Numbers.{listed, same_numbers, IsIndex};

    ghost Value = { Slots };

    ghost view = { λ a. listed (get nat_eq a.objects) a.slots };

    ghost invariant = { λ a. IsIndex a.slots a.passed a.texts (get same_numbers a.named) (get nat_eq a.objects) };
}

impl Directory {
    /// So many slots without an object. It takes no memory.
    pub fn new(alloc: Global, slots: u32) -> Directory
        ensures { result ≡ replicate slots None }
    {
        Directory {
            slots,
            passed: 0,
            texts: Texts::new(alloc),
            named: IndexMap::new(alloc),
            objects: IndexMap::new(alloc),
        }
    }

    /// How many slots there are. It takes no memory.
    pub fn slots(&self) -> u32
        ensures { result ≡ length self.now }
    {
        self.slots
    }

    /// Gives the slot the object that its journal names. `Twice` comes exactly where another slot, its `a`, has this object.
    /// After an error nothing is changed.
    pub fn adopt(&mut self, slot: u32, identity: Identity) -> Result<(), AdoptFault>
        requires free { IsFree self.old slot }
        ensures adopted { OnOk result (self.new ≡ with_object self.old slot identity) }
        ensures same { OnErr result (self.new ≡ self.old) }
        ensures twice { (first : ℕ) → slot_of self.old identity ≡ Some first → result ≡ Err (AdoptFault.Twice first slot) }
        ensures once { slot_of self.old identity ≡ None → IsOkUnless result AdoptFault.NoMemory }
    {
        if let Some(first) = self.find(&identity) {
            return Err(AdoptFault::Twice { a: first, b: slot });
        }
        match self.put(slot, identity) {
            Ok(()) => Ok(()),
            Err(NoMemory) => Err(AdoptFault::NoMemory),
        }
    }

    /// The slot of the object: `Found` where it has one, else `New` with the least slot that has no object, which is the
    /// object's from now on. `NoSlot` comes exactly where it has none and none is free. After an error nothing is changed. A
    /// slot that is found takes no memory.
    pub fn slot_of(&mut self, identity: &Identity) -> Result<Placed, PlaceFault>
        ensures placed { IfOk result (λ placed. place self.old identity.now ≡ Some placed) }
        ensures after { OnOk result (self.new ≡ after self.old identity.now) }
        ensures same { OnErr result (self.new ≡ self.old) }
        ensures found { (slot : ℕ) → slot_of self.old identity.now ≡ Some slot → result ≡ Ok (Placed.Found slot) }
        ensures no_slot { place self.old identity.now ≡ None → result ≡ Err (PlaceFault.NoSlot (length self.old)) }
        ensures room { (placed : Placed) → place self.old identity.now ≡ Some placed → IsOkUnless result PlaceFault.NoMemory }
    {
        if let Some(slot) = self.find(identity) {
            return Ok(Placed::Found(slot));
        }
        let Some(slot) = self.least_free() else {
            return Err(PlaceFault::NoSlot { slots: self.slots });
        };
        match self.put_copy(slot, identity) {
            Ok(()) => Ok(Placed::New(slot)),
            Err(NoMemory) => Err(PlaceFault::NoMemory),
        }
    }

    /// The slot of the object, `None` exactly where it has none. It takes no memory.
    pub fn find(&self, identity: &Identity) -> Option<u32>
        ensures found { result ≡ slot_of self.now identity.now }
        ensures one_each { IsOneEach self.now }
    {
        let class = self.texts.number_of(identity.class())?;
        let name = self.texts.number_of(identity.name())?;
        self.named.get(&(class, name)).copied()
    }

    /// The object of the slot, `None` exactly where the slot has none. It takes no memory.
    pub fn at(&self, slot: u32) -> Option<&Identity>
        ensures { option_copied result ≡ object_at self.now slot }
    {
        self.objects.get(&slot)
    }

    // The least slot that has no object.
    fn least_free(&mut self) -> Option<u32>
        ensures free { result ≡ least_free self.old }
        ensures same { self.new ≡ self.old }
    {
        self.passed = first_without(&self.objects, self.passed, self.slots);
        if self.passed < self.slots {
            Some(self.passed)
        } else {
            None
        }
    }

    fn put_copy(&mut self, slot: u32, identity: &Identity) -> Mem<()>
        requires free { IsFree self.old slot }
        requires absent { slot_of self.old identity.now ≡ None }
        ensures put { OnOk result (self.new ≡ with_object self.old slot identity.now) }
        ensures same { OnErr result (self.new ≡ self.old) }
    {
        self.put(slot, identity.copy()?)
    }

    // Gives the free slot an object that has none. After `NoMemory` nothing is changed but what texts have numbers.
    fn put(&mut self, slot: u32, identity: Identity) -> Mem<()>
        requires free { IsFree self.old slot }
        requires absent { slot_of self.old identity ≡ None }
        ensures put { OnOk result (self.new ≡ with_object self.old slot identity) }
        ensures same { OnErr result (self.new ≡ self.old) }
    {
        let class = self.texts.note(identity.class())?;
        let name = self.texts.note(identity.name())?;
        let Ok(()) = self.named.reserve(1) else {
            return Err(NoMemory);
        };
        let Ok(_) = self.objects.insert(slot, identity) else {
            return Err(NoMemory);
        };
        match self.named.insert((class, name), slot) {
            Ok(_) => Ok(()),
            Err(_) => unreachable!(),
        }
    }
}

// The first slot from this one on that has no object, or the number of slots.
fn first_without(objects: &IndexMap<u32, Identity>, from: u32, slots: u32) -> u32
    requires { from ≤ slots }
    ensures { IsFirstWithout (get nat_eq objects.now) from slots result }
{
    for slot in from..slots {
        if !objects.contains_key(&slot) {
            return slot;
        }
    }
    slots
}
