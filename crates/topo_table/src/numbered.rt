//! A table of values by numbers.

ghost use Rattle.std.specs.Prelude.{◌≡◌, ◌+◌, ◌<◌, ◌≤◌, ◌++◌, ◌∷◌, [], ℕ};
ghost use Rattle.std.specs.Prelude.{IfNone, IfOk, IfSome, None, OnOk, Some};
ghost use Rattle.std.specs.Prelude.{Option, length, option_copied, slice_get};
ghost use Rattle.std.specs.List.Sorted.{IsStrictlyIncreasing};
ghost use Rattle.std.specs.Map.{values_of};
ghost use Rattle.indexmap.specs.IndexMap.{set_value_at};
ghost use Rattle.topo_table.specs.Places.{AreBelow, IsEmptyAt, IsLiveAt, entries, ids_of};
ghost use Rattle.topo_table.specs.Places.{value_of, without_id};

use std::alloc::{AllocError, Global};
use std::marker::Model;

/// A value that can be copied where there is memory for it.
pub trait TryCopy {
    /// An equal value, in memory of its own.
    fn try_copy(&self, alloc: Global) -> Result<Self, AllocError>
        ensures { IfOk result (λ copy. copy ≡ self.now) };
}

/// Values by ids that are numbers from 0 on. Each number that was ever given has the place with its
/// number, so a value is found in one look, and by no hash. A place whose value was taken out
/// stays, empty.
pub struct NumberedTable<V> {
    slots: Vec<(u32, Option<V>)>,
}

// Written out, so that it is proved once: a derived one is proved anew in each function that lets
// such a value go.
impl<V: Drop> Drop for NumberedTable<V> {
    fn drop(self) {
        let NumberedTable { slots } = self;
        drop(slots);
    }
}

impl<V> Model for NumberedTable<V> {
    ghost use Rattle.std.specs.Prelude.{◌-◌, vec_capacity, vec_len};
    ghost use Rattle.topo_table.specs.Places.{AreOwnPlaces, Places, places_code};

    ghost Value = { Places V };

    ghost coded = { places_code V.code };

    ghost view = { λ t. record {
      slots = t.slots.items;
      room = vec_capacity t.slots - vec_len t.slots;
    } };

    ghost invariant = { λ t. AreOwnPlaces t.slots.items };
}

impl<V> NumberedTable<V> {
    /// An empty table. It takes no memory.
    pub fn new(alloc: Global) -> Self
        ensures { result.slots ≡ [] }
    {
        NumberedTable {
            slots: Vec::new(alloc),
        }
    }

    /// How many places there are, the empty ones among them.
    pub fn places(&self) -> usize
        ensures len { result ≡ length self.now.slots }
        ensures rise { IsStrictlyIncreasing (ids_of self.now.slots) }
    {
        self.slots.len()
    }

    /// The id and the value at a place; none where it is empty.
    pub fn at(&self, place: usize) -> Option<(u32, &V)>
        requires { place < length self.now.slots }
        ensures there { IfSome result
            (λ e. slice_get self.now.slots place ≡ Some (e.0, Some e.1.now)) }
        ensures empty { IfNone result
            ((id : ℕ) × slice_get self.now.slots place ≡ Some (id, None)) }
    {
        let (id, value) = &self.slots[place];
        match value {
            Some(value) => Some((*id, value)),
            None => None,
        }
    }

    /// Room for so many more values.
    pub fn reserve(&mut self, more: usize) -> Result<(), AllocError>
        ensures same { self.new.slots ≡ self.old.slots }
        ensures ok { OnOk result (more ≤ self.new.room) }
    {
        self.slots.reserve(more)
    }

    /// The value with an id.
    pub fn get(&self, id: u32) -> Option<&V>
        ensures { option_copied result ≡ value_of id (entries self.now) }
    {
        match self.slots.get(id as usize) {
            Some((_, value)) => value.as_ref(),
            None => None,
        }
    }

    /// The place of the value with an id.
    pub fn place_of(&self, id: u32) -> Option<usize>
        ensures there { IfSome result (λ place. IsLiveAt id place self.now.slots) }
        ensures none { IfNone result (value_of id (entries self.now) ≡ None) }
        ensures rise { IfSome result (λ _. IsStrictlyIncreasing (ids_of self.now.slots)) }
    {
        // For the proof: what the type keeps.
        let _slots = &self.slots;
        match self.get(id) {
            Some(_) => Some(id as usize),
            None => None,
        }
    }

    /// Takes out the value at a place, which stays empty until another is put there.
    pub fn take(&mut self, place: usize) -> V
        requires { (id : ℕ) × IsLiveAt id place self.old.slots }
        ensures value { slice_get (values_of self.old.slots) place ≡ Some (Some result) }
        ensures slots { self.new.slots ≡ set_value_at self.old.slots place None }
        ensures room { self.new.room ≡ self.old.room }
    {
        self.slots[place].1.take().unwrap()
    }

    /// Puts a value at a place that is empty.
    pub fn put(&mut self, place: usize, value: V)
    where
        V: Drop,
        requires { IsEmptyAt place self.old.slots }
        ensures slots { self.new.slots ≡ set_value_at self.old.slots place (Some value) }
        ensures room { self.new.room ≡ self.old.room }
    {
        self.slots[place].1 = Some(value);
    }

    /// Puts a value behind the others. Its id is the number of its place. There is room for it, so
    /// it takes no memory.
    pub fn push(&mut self, id: u32, value: V)
    where
        V: Drop,
        requires room { 0 < self.old.room }
        requires own { id ≡ length self.old.slots }
        ensures slots { self.new.slots ≡ self.old.slots ++ (id, Some value) ∷ [] }
        ensures entries { entries self.new ≡ entries self.old ++ (id, value) ∷ [] }
        ensures room { self.old.room ≤ self.new.room + 1 }
    {
        self.slots.push_reserved((id, Some(value)));
    }

    /// Gives each number below this one that has no place yet an empty one.
    pub fn skip_to(&mut self, id: u32) -> Result<(), AllocError>
    where
        V: Drop,
        requires { AreBelow id self.old.slots }
        ensures entries { entries self.new ≡ entries self.old }
        ensures below { AreBelow id self.new.slots }
        ensures own { OnOk result (length self.new.slots ≡ id) }
    {
        for missing in self.slots.len()..id as usize {
            self.slots.push((missing as u32, None))?;
        }
        Ok(())
    }

    /// An equal table, with the same places, in memory of its own.
    pub fn try_copy(&self, alloc: Global) -> Result<Self, AllocError>
    where
        V: TryCopy + Drop,
        ensures { IfOk result (λ copy. copy.slots ≡ self.now.slots) }
    {
        let mut slots = Vec::with_capacity(alloc, self.slots.len())?;
        for place in 0..self.slots.len() {
            let (id, value) = &self.slots[place];
            slots.push((*id, copied(alloc, value)?))?;
        }
        Ok(NumberedTable { slots })
    }

    /// Takes out the value with an id, if there is one. Its place stays, empty. It takes no memory,
    /// and time that grows with nothing.
    pub fn remove(&mut self, id: u32) -> Option<V>
    where
        V: Drop,
        ensures value { result ≡ value_of id (entries self.old) }
        ensures entries { entries self.new ≡ without_id id (entries self.old) }
        ensures below { (limit : ℕ) → AreBelow limit self.old.slots
            → AreBelow limit self.new.slots }
        ensures count { length self.new.slots ≡ length self.old.slots }
    {
        let place = self.place_of(id)?;
        Some(self.take(place))
    }
}

/// An equal value, if there is one.
fn copied<V: TryCopy + Drop>(alloc: Global, value: &Option<V>) -> Result<Option<V>, AllocError>
    ensures { IfOk result (λ copy. copy ≡ value.now) }
{
    match value {
        Some(value) => Ok(Some(value.try_copy(alloc)?)),
        None => Ok(None),
    }
}
