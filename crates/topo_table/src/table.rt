//! A table of values by ids that rise.

ghost use Rattle.std.specs.Prelude.{◌≡◌, ◌+◌, ◌/◌, ◌<◌, ◌≤◌, ◌++◌, ◌∷◌, [], ℕ, true};
ghost use Rattle.std.specs.Prelude.{IfNone, IfOk, IfSome, None, OnOk, Some};
ghost use Rattle.std.specs.Prelude.{Option, is_some, length, option_copied, slice_get};
ghost use Rattle.std.specs.List.Sorted.{IsStrictlyIncreasing};
ghost use Rattle.std.specs.Map.{values_of};
ghost use Rattle.indexmap.specs.IndexMap.{set_value_at};
ghost use Rattle.topo_table.specs.Places.{AreBelow, AreOwnPlaces, EntriesRise, IsEmptyAt};
ghost use Rattle.topo_table.specs.Places.{IsLiveAt, entries, ids_of, value_of, without_id};

use indexmap::IndexMap;
use std::alloc::{AllocError, Global};
use std::marker::Model;

/// Values by ids, in rising order of the ids. A place whose value was taken out stays, empty, until
/// the empty ones are closed up. A value is looked for at the place with the number of its id, and
/// by the hash of the id where another id is there.
pub struct Table<V> {
    slots: IndexMap<u32, Option<V>>,
    live: usize,
}

// Written out, so that it is proved once: a derived one is proved anew in each function that lets
// such a value go.
impl<V: Drop> Drop for Table<V> {
    fn drop(self) {
        let Table { slots, live: _ } = self;
        drop(slots);
    }
}

impl<V> Model for Table<V> {
    ghost use Rattle.std.specs.Prelude.{◌≡◌, length};
    ghost use Rattle.indexmap.specs.IndexMap.{spare};
    ghost use Rattle.std.specs.List.Sorted.{IsStrictlyIncreasing};
    ghost use Rattle.topo_table.specs.Places.{Places, ids_of, places_code, present};

    ghost Value = { Places V };

    ghost coded = { places_code V.code };

    ghost view = { λ t. record { slots = t.slots.entries; room = spare t.slots } };

    ghost invariant = { λ t. IsStrictlyIncreasing (ids_of t.slots.entries)
        × (t.live ≡ length (present t.slots.entries)) };
}

impl<V> Table<V> {
    /// An empty table. It takes no memory.
    pub fn new(alloc: Global) -> Self
        ensures { result.slots ≡ [] }
    {
        Table {
            slots: IndexMap::new(alloc),
            live: 0,
        }
    }

    /// How many values there are.
    pub fn len(&self) -> usize
        ensures len { result ≡ length (entries self.now) }
        ensures rise { EntriesRise (entries self.now) }
    {
        self.live
    }

    /// How many places there are, the empty ones among them.
    pub fn places(&self) -> usize
        ensures len { result ≡ length self.now.slots }
        ensures rise { IsStrictlyIncreasing (ids_of self.now.slots) }
    {
        self.slots.len()
    }

    /// The id and the value at a place; none where it is empty.
    pub fn at(&self, place: usize) -> Option<(u32, &V)>
        requires { place < length self.now.slots }
        ensures there { IfSome result
            (λ e. slice_get self.now.slots place ≡ Some (e.0, Some e.1.now)) }
        ensures empty { IfNone result
            ((id : ℕ) × slice_get self.now.slots place ≡ Some (id, None)) }
    {
        let (id, value) = self.slots.get_index(place)?;
        match value {
            Some(value) => Some((*id, value)),
            None => None,
        }
    }

    /// Room for so many more values.
    pub fn reserve(&mut self, more: usize) -> Result<(), AllocError>
        ensures same { self.new.slots ≡ self.old.slots }
        ensures ok { OnOk result (more ≤ self.new.room) }
    {
        self.slots.reserve(more)
    }

    /// The value with an id.
    pub fn get(&self, id: u32) -> Option<&V>
        ensures { option_copied result ≡ value_of id (entries self.now) }
    {
        match self.slots.get_index(id as usize) {
            Some((key, value)) if *key == id => value.as_ref(),
            _ => self.find(id),
        }
    }

    // As `get`, by the hash of the id.
    fn find(&self, id: u32) -> Option<&V>
        ensures { option_copied result ≡ value_of id (entries self.now) }
    {
        match self.slots.get(&id) {
            Some(value) => value.as_ref(),
            None => None,
        }
    }

    /// The place of the value with an id.
    pub fn place_of(&self, id: u32) -> Option<usize>
        ensures there { IfSome result (λ place. IsLiveAt id place self.now.slots) }
        ensures none { IfNone result (value_of id (entries self.now) ≡ None) }
        ensures rise { IfSome result (λ _. IsStrictlyIncreasing (ids_of self.now.slots)) }
    {
        let place = self.slot_of(id)?;
        match &self.slots[place] {
            Some(_) => Some(place),
            None => None,
        }
    }

    // The place with an id, whether or not it is empty.
    fn slot_of(&self, id: u32) -> Option<usize>
        ensures there { IfSome result (λ place. (value : Option V)
            × (slice_get self.now.slots place ≡ Some (id, value))) }
        ensures none { IfNone result (value_of id (entries self.now) ≡ None) }
    {
        let place = id as usize;
        match self.slots.get_index(place) {
            Some((key, _)) if *key == id => Some(place),
            _ => self.slots.get_index_of(&id),
        }
    }

    /// Takes out the value at a place, which stays empty until another is put there.
    pub fn take(&mut self, place: usize) -> V
        requires { (id : ℕ) × IsLiveAt id place self.old.slots }
        ensures value { slice_get (values_of self.old.slots) place ≡ Some (Some result) }
        ensures slots { self.new.slots ≡ set_value_at self.old.slots place None }
        ensures room { self.new.room ≡ self.old.room }
    {
        let value = self.slots[place].take().unwrap();
        self.live -= 1;
        value
    }

    /// Puts a value at a place that is empty.
    pub fn put(&mut self, place: usize, value: V)
    where
        V: Drop,
        requires { IsEmptyAt place self.old.slots }
        ensures slots { self.new.slots ≡ set_value_at self.old.slots place (Some value) }
        ensures room { self.new.room ≡ self.old.room }
    {
        // For the proof: what the type keeps.
        self.slots.len();
        let live = self.live + 1;
        self.slots[place] = Some(value);
        self.live = live;
    }

    /// Puts a value behind the others, and answers its place. There is room for it, so it takes no
    /// memory.
    pub fn push(&mut self, id: u32, value: V) -> usize
    where
        V: Drop,
        requires room { 0 < self.old.room }
        requires last { AreBelow id self.old.slots }
        ensures place { result ≡ length self.old.slots }
        ensures slots { self.new.slots ≡ self.old.slots ++ (id, Some value) ∷ [] }
        ensures entries { entries self.new ≡ entries self.old ++ (id, value) ∷ [] }
        ensures room { self.old.room ≤ self.new.room + 1 }
    {
        let place = self.slots.len();
        self.slots.insert(id, Some(value)).unwrap();
        self.live += 1;
        place
    }

    /// Adds an empty place for an id behind the others. There is room for it.
    fn push_empty(&mut self, id: u32)
    where
        V: Drop,
        requires room { 0 < self.old.room }
        requires last { AreBelow id self.old.slots }
        ensures slots { self.new.slots ≡ self.old.slots ++ (id, None) ∷ [] }
        ensures room { self.old.room ≤ self.new.room + 1 }
    {
        self.slots.insert(id, None).unwrap();
    }

    // A number above all ids, which is not above one that is.
    fn next_id(&self, limit: u32) -> u32
        requires { AreBelow limit self.now.slots }
        ensures above { AreBelow result self.now.slots }
        ensures least { result ≤ limit }
        ensures own { AreOwnPlaces self.now.slots → result ≡ length self.now.slots }
    {
        let count = self.slots.len();
        if count == 0 {
            return 0;
        }
        match self.slots.get_index(count - 1) {
            Some((id, _)) => *id + 1,
            None => unreachable!(),
        }
    }

    /// Gives each id below this one that is above all others an empty place. So ids that begin at 0
    /// have the places with their numbers, whichever of them are missing.
    pub fn skip_to(&mut self, id: u32) -> Result<(), AllocError>
    where
        V: Drop,
        requires { AreBelow id self.old.slots }
        ensures entries { entries self.new ≡ entries self.old }
        ensures below { OnOk result (AreBelow id self.new.slots) }
        ensures own { OnOk result (AreOwnPlaces self.old.slots
            → AreOwnPlaces self.new.slots × (length self.new.slots ≡ id)) }
    {
        for missing in self.next_id(id)..id {
            self.reserve(1)?;
            self.push_empty(missing);
        }
        Ok(())
    }

    /// An equal table, with the same places, in memory of its own.
    pub fn copy(&self) -> Result<Self, AllocError>
    where
        V: Copy,
        ensures { IfOk result (λ copy. copy.slots ≡ self.now.slots) }
    {
        let mut slots = self.slots.clone()?;
        // A clone of a value need not be equal to it, a copy is: each value is written over by its
        // copy.
        for place in 0..self.slots.len() {
            slots[place] = self.slots[place];
        }
        Ok(Table {
            slots,
            live: self.live,
        })
    }

    /// Takes out the value with an id, if there is one. Its place stays, empty. It takes no memory,
    /// and time that grows with nothing.
    pub fn remove(&mut self, id: u32) -> Option<V>
    where
        V: Drop,
        ensures value { result ≡ value_of id (entries self.old) }
        ensures entries { entries self.new ≡ without_id id (entries self.old) }
        ensures below { (limit : ℕ) → AreBelow limit self.old.slots
            → AreBelow limit self.new.slots }
    {
        let place = self.place_of(id)?;
        Some(self.take(place))
    }

    /// Closes the empty places up where they are more than half. It takes no memory. Done behind
    /// each removal, it takes time that grows with nothing, on the whole.
    pub fn close_up(&mut self)
    where
        V: Drop,
        ensures entries { entries self.new ≡ entries self.old }
        ensures closed { length (entries self.old) < length self.old.slots / 2
            → length self.new.slots ≡ length (entries self.new) }
        ensures below { (limit : ℕ) → AreBelow limit self.old.slots
            → AreBelow limit self.new.slots }
    {
        if self.live < self.slots.len() / 2 {
            self.slots.retain(
                |_id: &u32, value: &mut Option<V>| -> bool
                    ensures { (result ≡ is_some value.old) × (value.new ≡ value.old) }
                { value.is_some() },
            );
        }
    }
}
