//! The lists that number darts.

ghost use Rattle.std.specs.Prelude.{◌≡◌, ◌<◌, ◌^◌, ℕ, OnOk, length, slice_index};
ghost use Rattle.topo_core.specs.Lawful.{Lawful};
ghost use Rattle.topo_route.specs.Names.{canonical, next_name};
ghost use Rattle.topo_dual.specs.NumberedRows.{AreApart, AreListsOf, AreNumbersOf};

use std::alloc::{AllocError, Global};
use topo_embedded::Embedded;
use topo_map::Half;

/// For each dart in canonical order its half, for each half the number of its dart, and for each
/// dart the number of the next one along its face and the label of that face. The lists are written
/// anew for each picture, and their memory serves for the next one.
pub struct NumberLists {
    pub(crate) halves: Vec<u32>,
    pub(crate) numbers: Vec<u32>,
    pub(crate) nexts: Vec<u32>,
    pub(crate) faces: Vec<u32>,
    // All labels of faces are below it.
    pub(crate) bound: u32,
}

// Written out, so that it is proved once: a derived one is proved anew in each function that lets
// such a value go.
impl Drop for NumberLists {
    fn drop(self) {
        let NumberLists {
            halves,
            numbers,
            nexts,
            faces,
            bound: _,
        } = self;
        drop(halves);
        drop(numbers);
        drop(nexts);
        drop(faces);
    }
}

impl NumberLists {
    /// Empty lists. They take no memory until they are written.
    pub fn new(alloc: Global) -> Self {
        NumberLists {
            halves: Vec::new(alloc),
            numbers: Vec::new(alloc),
            nexts: Vec::new(alloc),
            faces: Vec::new(alloc),
            bound: 0,
        }
    }

    /// Writes the lists of these rows over what they held.
    pub(crate) fn fill(&mut self, embedded: &Embedded) -> Result<(), AllocError>
        requires lawful { Lawful embedded.now.rows }
        requires vertices { length embedded.now.rows.rotations < 2 ^ 32 }
        ensures { OnOk result (AreListsOf embedded.now self.new.halves.items self.new.numbers.items
            self.new.nexts.items self.new.faces.items self.new.bound) }
    {
        embedded.fill_halves(&mut self.halves)?;
        let halves = self.halves.as_slice();
        self.numbers.resize(embedded.size() as usize, 0)?;
        self.nexts.resize(halves.len(), 0)?;
        self.faces.resize(halves.len(), 0)?;
        write_numbers(&mut self.numbers, halves);
        write_nexts(&mut self.nexts, embedded, halves, self.numbers.as_slice());
        self.bound = embedded.fill_faces(&mut self.faces, halves);
        Ok(())
    }

    /// The half of the dart with a number.
    pub(crate) fn half(&self, number: u32) -> Half
        requires { number < length self.now.halves.items }
        ensures { result ≡ slice_index self.now.halves.items number }
    {
        Half::numbered(self.halves[number as usize])
    }

    /// The number of the dart of a half.
    pub(crate) fn number(&self, half: Half) -> u32
        requires { half < length self.now.numbers.items }
        ensures { result ≡ slice_index self.now.numbers.items half }
    {
        self.numbers[half.number() as usize]
    }

    /// The number of the next dart along the face of the dart with a number.
    pub(crate) fn next(&self, number: u32) -> u32
        requires { number < length self.now.nexts.items }
        ensures { result ≡ slice_index self.now.nexts.items number }
    {
        self.nexts[number as usize]
    }

    /// The label of the face of the dart with a number.
    pub(crate) fn face(&self, number: u32) -> u32
        requires { number < length self.now.faces.items }
        ensures { result ≡ slice_index self.now.faces.items number }
    {
        self.faces[number as usize]
    }
}

/// Writes for each half its place among the halves.
fn write_numbers(numbers: &mut [u32], halves: &[u32])
    requires apart { AreApart halves.now }
    requires within { (i : ℕ) → i < length halves.now
        → slice_index halves.now i < length numbers.old }
    requires few { length halves.now < 2 ^ 32 }
    ensures { (i : ℕ) → i < length halves.now
        → slice_index numbers.new (slice_index halves.now i) ≡ i }
{
    for number in 0..halves.len() {
        numbers[halves[number] as usize] = number as u32;
    }
}

/// Writes for each dart the number of the next one along its face.
fn write_nexts(nexts: &mut [u32], embedded: &Embedded, halves: &[u32], numbers: &[u32])
    requires lawful { Lawful embedded.now.rows }
    requires named { AreNumbersOf embedded.now halves.now numbers.now }
    requires as_many { length nexts.old ≡ length halves.now }
    ensures { (k : ℕ) → k < length halves.now
        → slice_index nexts.new k ≡ next_name (canonical embedded.now.rows) k }
{
    for dart in 0..halves.len() {
        let next = embedded.face_next(Half::numbered(halves[dart]));
        nexts[dart] = numbers[next.number() as usize];
    }
}
