//! What stands at keys, in their order.
ghost use Rattle.std.specs.Prelude.{◌≡◌, ◌≤◌, OnOk, OnErr, length, option_map};
ghost use Rattle.std.specs.List.{AllByRecursion, filter};
ghost use Rattle.std.specs.FinMap.{empty, get, insert, remove, contains_key, entries};
ghost use Rattle.storage_map.specs.Limits.{most_key_bytes};
ghost use Rattle.storage_map.specs.Kept.{with_bytes, HasShortKey};
ghost use Rattle.storage_map.specs.Orders.{IsOrderly};
ghost use Rattle.storage_map.specs.Readings.{keeps, turned, listed};
ghost use Rattle.storage_map.specs.Span.{text_of, IsBehind};

use crate::key::Key;
use crate::options::Options;
use crate::past::first_past;
use crate::range::Range;
use do_value::{Mem, NoMemory};
use std::alloc::Global;
use std::collections::{BTreeMap, btree_map};
use std::marker::Model;

/// What stands at each of some keys, in the order of the keys' UTF-8 bytes. Contracts see a finite map.
#[derive(Drop)]
pub struct ByKey<V> {
    alloc: Global,
    entries: BTreeMap<String, V>,
}

impl<V> Model for ByKey<V> {
    ghost use Rattle.std.specs.Coded.{coded_list, coded_ℕ};
    ghost use Rattle.std.specs.FinMap.{FinMap, code};
    ghost use Rattle.storage_map.specs.Contents.{by_bytes};
    ghost use Rattle.storage_map.specs.Kept.{kept, IsKept};

    ghost Value = { FinMap by_bytes V };

    ghost coded = { code (coded_list coded_ℕ) V.code };

    ghost view = { λ map. kept map.entries };

    ghost invariant = { λ map. IsKept map.entries };
}

impl<V: Drop> ByKey<V> {
    /// Nothing at any key.
    pub fn new(alloc: Global) -> ByKey<V>
        ensures { result ≡ empty }
    {
        ByKey {
            alloc,
            entries: BTreeMap::new(alloc),
        }
    }

    /// Puts the value at the key, in place of what stood there. After `NoMemory` nothing is changed.
    pub fn set(&mut self, key: &Key, value: V) -> Mem<()>
        ensures set { OnOk result (self.new ≡ insert self.old key.now value) }
        ensures same { OnErr result (self.new ≡ self.old) }
    {
        self.put(key.as_str(), value)
    }

    /// The same for a key that is lent, which is copied only where nothing stood there.
    pub fn put(&mut self, key: &str, value: V) -> Mem<()>
        requires { length key.now ≤ most_key_bytes }
        ensures set { OnOk result (self.new ≡ insert self.old key.now value) }
        ensures same { OnErr result (self.new ≡ self.old) }
    {
        if let Some(there) = self.entries.get_mut(key) {
            *there = value;
            return Ok(());
        }
        self.add(key, value)
    }

    // The same, with a copy of the key.
    fn add(&mut self, key: &str, value: V) -> Mem<()>
        requires { length key.now ≤ most_key_bytes }
        ensures set { OnOk result (self.new ≡ insert self.old key.now value) }
        ensures same { OnErr result (self.new ≡ self.old) }
    {
        let Ok(text) = String::from_str(self.alloc, key) else {
            return Err(NoMemory);
        };
        match self.entries.insert(text, value) {
            Ok(_) => Ok(()),
            Err(_) => Err(NoMemory),
        }
    }

    /// Takes out what stands at the key, and tells whether something did.
    pub fn take_out(&mut self, key: &Key) -> bool
        ensures out { self.new ≡ remove self.old key.now }
        ensures there { result ≡ contains_key self.old key.now }
    {
        self.remove(key.as_str())
    }

    /// The same for a key that is lent.
    pub fn remove(&mut self, key: &str) -> bool
        ensures out { self.new ≡ remove self.old key.now }
        ensures there { result ≡ contains_key self.old key.now }
    {
        self.entries.remove(key).is_some()
    }

    /// Takes out all.
    pub fn clear(&mut self)
        ensures { self.new ≡ empty }
    {
        self.entries = BTreeMap::new(self.alloc);
    }

    /// What stands at the key, `None` exactly where nothing does.
    pub fn get(&self, key: &str) -> Option<&V>
        ensures { option_map (λ value. value.now) result ≡ get self.now key.now }
    {
        self.entries.get(key)
    }

    /// All keys with what stands there, in order.
    pub(crate) fn pairs(&self) -> btree_map::Iter<'_, String, V>
        ensures { with_bytes result ≡ entries self.now }
    {
        self.entries.iter()
    }

    /// What the options list, in order, lent one after the other. It takes no memory. No key before the first or behind the
    /// last is passed over, but in reverse with a prefix: there all with the prefix are.
    pub fn range<'a>(&'a self, options: &'a Options) -> Range<'a, V>
        ensures listed { result ≡ listed options.now (entries self.now) }
        ensures short { AllByRecursion HasShortKey result }
        ensures order { IsOrderly result }
    {
        let past = first_past(&self.entries, options);
        Range::new(&self.entries, options, past)
    }

    /// The same, where the text, if there is one, is behind all that is listed: no key is passed over.
    pub(crate) fn before<'a, 'x>(
        &'a self,
        options: &'a Options,
        text: Option<&'x String>,
    ) -> Range<'a, V>
        requires { IsBehind options.now (text_of text) }
        ensures listed { result ≡ listed options.now (entries self.now) }
        ensures short { AllByRecursion HasShortKey result }
        ensures order { IsOrderly result }
    {
        Range::new(&self.entries, options, text)
    }

    /// All that the options keep, in their direction, without their limit.
    pub fn within<'a>(&'a self, options: &'a Options) -> Range<'a, V>
        ensures { result ≡ turned options.now.reverse (filter (λ p. keeps options.now p.0) (entries self.now)) }
    {
        let past = first_past(&self.entries, options);
        Range::unlimited(&self.entries, options, past)
    }
}
