//! Where the values of an object stand, and its alarm.
ghost use Rattle.std.specs.Prelude.{◌≡◌, ◌≤◌, OnOk, OnErr, IfOk, None, length};
ghost use Rattle.std.specs.Str.{bytes_eq};
ghost use Rattle.std.specs.Set.{is_member};
ghost use Rattle.std.specs.List.{AllByRecursion, filter};
ghost use Rattle.std.specs.FinMap.{get, contains_key, entries};
ghost use Rattle.storage_map.specs.Limits.{most_key_bytes};
ghost use Rattle.storage_map.specs.Indexed.{no_places, put_place, delete_place, clear_places, change_alarm};
ghost use Rattle.storage_map.specs.Kept.{HasShortKey};
ghost use Rattle.storage_map.specs.Picked.{put_found};
ghost use Rattle.storage_map.specs.Readings.{listed};

use crate::alarm::Alarm;
use crate::by_key::ByKey;
use crate::key::Key;
use crate::keys::Keys;
use crate::options::Options;
use crate::place::Place;
use crate::places::Places;
use crate::range::Range;
use do_value::Mem;
use std::alloc::Global;
use std::marker::Model;

/// The place of each key's value, and the alarm. Contracts see a finite map from keys to places with at most one alarm.
pub struct Index {
    places: ByKey<Place>,
    alarm: Option<Alarm>,
}

// Written out, as each crate above would prove a derived one again wherever it lets one go.
impl Drop for Index {
    fn drop(self) {
        let Index { places, alarm: _ } = self;
        drop(places);
    }
}

impl Model for Index {
    ghost use Rattle.storage_map.specs.Indexed.{Indexed};
    ghost use Rattle.storage_map.specs.IndexedCode.{indexed_code};

    ghost Value = { Indexed };

    ghost coded = { indexed_code };

    ghost view = { λ index. record { places = index.places; alarm = index.alarm } };
}

impl Index {
    /// No key and no alarm.
    pub fn new(alloc: Global) -> Index
        ensures { result ≡ no_places }
    {
        Index {
            places: ByKey::new(alloc),
            alarm: None,
        }
    }

    /// The value of the key stands at this place from here on. After `NoMemory` nothing is changed.
    pub fn put(&mut self, key: &str, place: Place) -> Mem<()>
        requires { length key.now ≤ most_key_bytes }
        ensures put { OnOk result (self.new ≡ put_place self.old key.now place) }
        ensures same { OnErr result (self.new ≡ self.old) }
    {
        self.places.put(key, place)
    }

    /// Takes the key out, and tells whether it was there.
    pub fn delete(&mut self, key: &str) -> bool
        ensures out { self.new ≡ delete_place self.old key.now }
        ensures there { result ≡ contains_key self.old.places key.now }
    {
        self.places.remove(key)
    }

    /// Takes all keys out. The alarm stays.
    pub fn clear(&mut self)
        ensures { self.new ≡ clear_places self.old }
    {
        self.places.clear();
    }

    /// Sets the alarm, or takes it out.
    pub fn set_alarm(&mut self, alarm: Option<Alarm>)
        ensures { self.new ≡ change_alarm self.old alarm }
    {
        self.alarm = alarm;
    }

    /// The alarm, where there is one.
    pub fn alarm(&self) -> Option<Alarm>
        ensures { result ≡ self.now.alarm }
    {
        self.alarm
    }

    /// Where the value of the key stands, `None` exactly where the key isn't there.
    pub fn get(&self, key: &str) -> Option<Place>
        ensures { result ≡ get self.now.places key.now }
    {
        self.places.get(key).copied()
    }

    /// The part with these keys, as far as they are there, and no alarm.
    pub fn pick(&self, alloc: Global, keys: &Keys) -> Mem<Index>
        ensures part { IfOk result (λ part. entries part.places
            ≡ filter (λ p. is_member bytes_eq keys.now p.0) (entries self.now.places)) }
        ensures no_alarm { IfOk result (λ part. part.alarm ≡ None) }
    {
        let mut found = ByKey::new(alloc);
        for key in keys.as_slice() {
            self.add_found(&mut found, key)?;
        }
        Ok(Index {
            places: found,
            alarm: None,
        })
    }

    // Gives the key its place, where it has one.
    fn add_found(&self, found: &mut ByKey<Place>, key: &Key) -> Mem<()>
        ensures { OnOk result (found.new ≡ put_found found.old key.now (get self.now.places key.now)) }
    {
        match self.get(key.as_str()) {
            Some(place) => found.set(key, place),
            None => Ok(()),
        }
    }

    /// All keys with their places, in ascending order of keys, lent one after the other. It takes no memory.
    pub fn places(&self) -> Places<'_>
        ensures { result ≡ entries self.now.places }
    {
        Places::new(self.places.pairs())
    }

    /// The keys that the options list with their places, in order, lent one after the other. It takes no memory.
    pub fn range<'a>(&'a self, options: &'a Options) -> Range<'a, Place>
        ensures listed { result ≡ listed options.now (entries self.now.places) }
        ensures short { AllByRecursion HasShortKey result }
    {
        self.places.range(options)
    }
}
