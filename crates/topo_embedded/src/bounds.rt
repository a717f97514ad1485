//! Potentials of the faces, which guide a search to its target. They are made for a picture as it
//! is, and go with the changes that come after.

ghost use Rattle.std.specs.Prelude.{◌≡◌, ◌<◌, [], ℕ, is_some, true};
ghost use Rattle.topo_core.specs.Edits.{IsChord};
ghost use Rattle.topo_core.specs.Lawful.{IsWellFormed};
ghost use Rattle.topo_core.specs.Picture.{edge_row};
ghost use Rattle.topo_embedded.specs.Bounds.{AreConsistentOn, GoesOn, IsConsistentAt, IsGiven};
ghost use Rattle.topo_embedded.specs.Bounds.{at_face, floor_of, slope_by};
ghost use Rattle.topo_embedded.specs.KnownKinds.{AreKindsOf};
ghost use Rattle.topo_map.specs.Rotation.{AddsLabel, Grows, edge_of, half_limit, is_live, turn};

use crate::kinds::Kinds;
use std::alloc::Global;
use std::marker::Model;
use topo_kept_rows::KeptRows;
use topo_map::{Embedding, Half};
use topo_route::guided::potentials::Potentials;

/// Potentials by the label of a face, none where nothing guides a search, and the floors of the
/// kinds for which they are made: across a segment they differ by no more.
pub(crate) struct Bounds {
    potentials: Vec<Potentials>,
    floors: Vec<u16>,
}

// Written out, so that it is proved once: a derived one is proved anew in each function that lets
// such a value go.
impl Drop for Bounds {
    fn drop(self) {
        let Bounds { potentials, floors } = self;
        drop(potentials);
        drop(floors);
    }
}

impl Model for Bounds {
    ghost use Rattle.topo_embedded.specs.Bounds.{BoundsState};

    ghost Value = { BoundsState };

    ghost view = { λ b. record {
      potentials = b.potentials.items;
      floors = b.floors.items;
    } };
}

impl Bounds {
    /// Bounds of a picture without faces.
    pub(crate) fn none(alloc: Global) -> Self
        ensures { (result.potentials ≡ []) × (result.floors ≡ []) }
    {
        Bounds {
            potentials: Vec::new(alloc),
            floors: Vec::new(alloc),
        }
    }

    /// Bounds with these potentials and floors.
    pub(crate) fn new(potentials: Vec<Potentials>, floors: Vec<u16>) -> Self
        ensures potentials { result.potentials ≡ potentials.items }
        ensures floors { result.floors ≡ floors.items }
    {
        Bounds { potentials, floors }
    }

    /// Takes all out. It takes no memory.
    pub(crate) fn clear(&mut self)
        ensures potentials { self.new.potentials ≡ [] }
        ensures floors { self.new.floors ≡ self.old.floors }
    {
        self.potentials.clear();
    }

    /// Whether there are any.
    pub(crate) fn are_there(&self) -> bool {
        !self.potentials.is_empty()
    }

    /// The potentials of a face, by its label.
    pub(crate) fn at(&self, face: u32) -> Potentials
        ensures { result ≡ at_face self.now face }
    {
        match self.potentials.get(face as usize) {
            Some(potentials) => *potentials,
            None => Potentials::all(0),
        }
    }

    /// The floor of a kind.
    pub(crate) fn floor(&self, kind: u8) -> u16
        ensures { result ≡ floor_of self.now kind }
    {
        match self.floors.get(kind as usize) {
            Some(floor) => *floor,
            None => 0,
        }
    }

    // Gives a face potentials. A new one has the label behind the last. Where there is no place for
    // them, and none can be made, all go.
    fn give(&mut self, face: u32, here: Potentials)
        ensures { IsGiven self.old self.new face here }
    {
        let place = face as usize;
        let places = self.potentials.len();
        if place < places {
            self.potentials[place] = here;
        } else if places == 0 || place > places || self.potentials.push(here).is_err() {
            self.potentials.clear();
        }
    }
}

/// `Embedding::chord`, with the potentials of the face that it parts. Where the corners lie in two
/// faces whose potentials differ, or all faces have other labels now, all go.
pub(crate) fn chord(
    segments: &mut Embedding,
    bounds: &mut Bounds,
    c: Half,
    d: Half,
    edge: u32,
) -> Half
    requires live { is_live segments.old c ≡ true }
    requires live_end { is_live segments.old d ≡ true }
    requires room { 0 < segments.old.room }
    ensures edit { IsChord (turn segments.old) (turn segments.new) half_limit c d result }
    ensures grows { Grows segments.old segments.new result }
    ensures label { AddsLabel (is_live segments.old) (edge_of segments.old)
        (edge_of segments.new) result edge }
    ensures bounds { GoesOn segments.old segments.new bounds.old bounds.new }
{
    segments.laws();
    let here = bounds.at(segments.face(c));
    let is_even = here == bounds.at(segments.face(d));
    let (half, are_kept) = segments.chord(c, d, edge);
    if is_even && are_kept {
        bounds.give(segments.face(half), here);
        bounds.give(segments.face(segments.twin(half)), here);
    } else {
        bounds.clear();
    }
    half
}

/// The floor of the kind of an edge that is there.
fn slope(rows: &KeptRows, kinds: &Kinds, bounds: &Bounds, edge: u32) -> u16
    requires formed { IsWellFormed rows.now }
    requires kinds { AreKindsOf rows.now kinds.now }
    requires there { is_some (edge_row rows.now edge) ≡ true }
    ensures { result ≡ slope_by rows.now bounds.now edge }
{
    bounds.floor(kinds.kind(rows, edge))
}

/// Whether the potentials on the left of a half are above those on its right by no more than the
/// floor of the kind of its edge.
fn is_consistent_at(
    rows: &KeptRows,
    kinds: &Kinds,
    segments: &Embedding,
    bounds: &Bounds,
    half: Half,
) -> bool
    requires formed { IsWellFormed rows.now }
    requires kinds { AreKindsOf rows.now kinds.now }
    requires live { is_live segments.now half ≡ true }
    requires there { is_some (edge_row rows.now (edge_of segments.now half)) ≡ true }
    ensures { result ≡ true
        → IsConsistentAt bounds.now (slope_by rows.now bounds.now) segments.now half }
{
    let here = bounds.at(segments.face(half));
    let there = bounds.at(segments.face(segments.twin(half)));
    here.are_within(slope(rows, kinds, bounds, segments.edge(half)), &there)
}

/// Whether bounds are consistent at all halves, which lie on edges that are there.
pub(crate) fn are_consistent(
    rows: &KeptRows,
    kinds: &Kinds,
    segments: &Embedding,
    bounds: &Bounds,
) -> bool
    requires formed { IsWellFormed rows.now }
    requires kinds { AreKindsOf rows.now kinds.now }
    requires there { (a : ℕ) → is_live segments.now a ≡ true
        → is_some (edge_row rows.now (edge_of segments.now a)) ≡ true }
    ensures { result ≡ true
        → AreConsistentOn bounds.now (slope_by rows.now bounds.now) segments.now }
{
    for number in 0..segments.limit() {
        let half = Half::numbered(number as u32);
        if segments.contains(half) && !is_consistent_at(rows, kinds, segments, bounds, half) {
            return false;
        }
    }
    true
}
