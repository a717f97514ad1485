//! Rows that are handed in: the first test that they fail.

use crate::faults::{are_crossings_good, are_paths_good, are_rotations_good, within_limits};
use crate::flat::{Turns, turns_from};
use crate::id_index::IdIndex;
use std::alloc::{AllocError, Global};
use std::fmt;
use thiserror::Error;
use topo_core::limits::Limits;
use topo_core::listed::Listed;
use topo_core::rows::Rows;
use topo_faults::Fault;
use topo_perm::{cycles, is_connected};

/// Why rows are not loaded: the fault of the same name.
#[derive(Clone, Copy, Debug, Drop, PartialEq, Eq, Error)]
pub enum LoadFault {
    TooMany,
    BadPath,
    BadCrossing,
    BadRotation,
    NotConnected,
    NotPlanar,
    Memory,
}

impl LoadFault {
    ghost use Rattle.std.specs.Prelude.{◌≡◌};
    ghost use Rattle.topo_rows.specs.FaultTexts.{fault_of};

    /// The fault that it is.
    pub fn fault(&self) -> Fault
        ensures { result ≡ fault_of self.now }
    {
        match self {
            LoadFault::TooMany => Fault::TooMany,
            LoadFault::BadPath => Fault::BadPath,
            LoadFault::BadCrossing => Fault::BadCrossing,
            LoadFault::BadRotation => Fault::BadRotation,
            LoadFault::NotConnected => Fault::NotConnected,
            LoadFault::NotPlanar => Fault::NotPlanar,
            LoadFault::Memory => Fault::Memory,
        }
    }
}

impl fmt::Display for LoadFault {
    ghost use Rattle.std.specs.Prelude.{Some};
    ghost use Rattle.topo_faults.specs.Faults.{told};
    ghost use Rattle.topo_rows.specs.FaultTexts.{fault_of};

    ghost output = { λ fault. Some (told (fault_of fault)) };

    fn fmt<W: fmt::Write>(&self, f: &mut fmt::Formatter<W>) -> fmt::Result {
        let fault = self.fault();
        write!(f, "{fault}")
    }
}

ghost use Rattle.std.specs.Prelude.{◌≡◌, ◌≢◌, ◌==◌, ◌+◌, ◌%◌, ◌<◌, ◌≤◌, ◌*◌, ◌^◌, ℕ};
ghost use Rattle.std.specs.Prelude.{◌↔◌, IfErr, IfNone, IfOk, IfSome, IsTrue};
ghost use Rattle.std.specs.Prelude.{length, slice_index, sum_by, true};
ghost use Rattle.std.specs.List.{list_any};
ghost use Rattle.topo_core.specs.declared.limits.Limits.{Limits};
ghost use Rattle.topo_core.specs.Cycles.{IsPermutationList, map_of};
ghost use Rattle.topo_core.specs.Lawful.{HasGenusZero, IsWellFormed};
ghost use Rattle.topo_core.specs.Picture.{segment_count, system, turn_images};
ghost use Rattle.topo_core.specs.Rotations.{face_next, faces_of};
ghost use Rattle.topo_core.specs.Systems.{Connected};
ghost use Rattle.topo_rows.specs.Flats.{AreAhead, AreTurnsOf};
ghost use Rattle.topo_rows.specs.Loading.{FailsFirst, fits};
ghost use Rattle.topo_rows.specs.Shown.{IsPicture};

/// Writes for each dart the next one of its face: the turn of its twin.
fn write_nexts(nexts: &mut [u32], images: &[u32])
    requires even { length images.now % 2 ≡ 0 }
    requires room { length nexts.old ≡ length images.now }
    ensures as_many { length nexts.new ≡ length images.now }
    ensures next { (a : ℕ) → a < length images.now
        → slice_index nexts.new a ≡ face_next (map_of images.now) a }
{
    for dart in 0..images.len() {
        let twin = if dart % 2 == 0 { dart + 1 } else { dart - 1 };
        nexts[dart] = images[twin];
    }
}

/// The number of faces of a rotation system: the cycles of the turn after the twin.
fn faces(alloc: Global, images: &[u32]) -> Result<u64, AllocError>
    requires permutation { IsPermutationList images.now }
    requires even { length images.now % 2 ≡ 0 }
    ensures { IfOk result (λ count. count ≡ faces_of images.now) }
{
    let mut nexts = vec![in alloc; 0; images.len()]?;
    write_nexts(&mut nexts, images);
    let count = cycles(alloc, &nexts)?;
    Ok(count)
}

/// Whether a vertex has no edge.
fn has_bare_vertex(rotations: &[Listed<u32>]) -> bool
    ensures { result ≡ list_any (λ around. length around == 0) rotations.now }
{
    rotations.iter().any(|around| around.as_slice().is_empty())
}

/// Whether the rotation system of rows is connected, from the images of its turn.
fn is_whole(alloc: Global, rows: &Rows, images: &[u32]) -> Result<bool, AllocError>
    requires well_formed { IsWellFormed rows.now }
    requires images { images.now ≡ turn_images rows.now }
    ensures { IfOk result (λ yes. IsTrue yes ↔ Connected (system rows.now)) }
{
    if has_bare_vertex(rows.rotations.as_slice()) {
        return Ok(false);
    }
    let joined = is_connected(alloc, images)?;
    Ok(joined)
}

/// Whether Euler's formula gives 2.
fn has_genus_zero(alloc: Global, rows: &Rows, images: &[u32]) -> Result<bool, AllocError>
    requires well_formed { IsWellFormed rows.now }
    requires images { images.now ≡ turn_images rows.now }
    requires few { 2 * sum_by segment_count rows.now.edges < 2 ^ 32 }
    requires vertices { length rows.now.rotations < 2 ^ 32 }
    requires crossings { length rows.now.crossings < 2 ^ 32 }
    ensures { IfOk result (λ yes. IsTrue yes ↔ HasGenusZero rows.now) }
{
    let points = rows.rotations.as_slice().len() + rows.crossings.as_slice().len();
    let segments = images.len() / 2;
    Ok(faces(alloc, images)? + points as u64 == segments as u64 + 2)
}

/// The first test that rows within the limits fail of those that say whether they are well formed.
/// Of rows that fail none the numbers of the darts ahead of crossings are noted in a list, over
/// what it held.
fn fault_of_rows(
    alloc: Global,
    ahead: &mut Vec<u32>,
    limits: &Limits,
    rows: &Rows,
    hints: &IdIndex,
) -> Result<Option<LoadFault>, AllocError>
    requires { fits limits.now rows.now ≡ true }
    ensures first { IfOk result (λ fault. IfSome fault (FailsFirst limits.now rows.now)) }
    ensures no_memory { IfOk result (λ fault. IfSome fault (λ it. it ≢ LoadFault.Memory)) }
    ensures well_formed { IfOk result (λ fault. IfNone fault (IsWellFormed rows.now)) }
    ensures few { IfOk result
        (λ fault. IfNone fault (2 * sum_by segment_count rows.now.edges < 2 ^ 32)) }
    ensures crossings { IfOk result (λ fault. IfNone fault (length rows.now.crossings < 2 ^ 32)) }
    ensures ahead { IfOk result (λ fault. IfNone fault (AreAhead rows.now ahead.new.items)) }
{
    if !are_paths_good(alloc, rows, hints)? {
        return Ok(Some(LoadFault::BadPath));
    }
    if !are_crossings_good(alloc, ahead, rows, hints)? {
        return Ok(Some(LoadFault::BadCrossing));
    }
    if !are_rotations_good(alloc, rows, hints)? {
        return Ok(Some(LoadFault::BadRotation));
    }
    Ok(None)
}

/// The first test that well-formed rows fail of those of how their darts turn, from the images of
/// the turn.
fn fault_of_turns(
    alloc: Global,
    rows: &Rows,
    images: &[u32],
) -> Result<Option<LoadFault>, AllocError>
    requires well_formed { IsWellFormed rows.now }
    requires images { images.now ≡ turn_images rows.now }
    requires few { 2 * sum_by segment_count rows.now.edges < 2 ^ 32 }
    requires vertices { length rows.now.rotations < 2 ^ 32 }
    requires crossings { length rows.now.crossings < 2 ^ 32 }
    ensures first { IfOk result (λ fault. IfSome fault
        (λ it. (limits : Limits) → fits limits rows.now ≡ true → FailsFirst limits rows.now it)) }
    ensures no_memory { IfOk result (λ fault. IfSome fault (λ it. it ≢ LoadFault.Memory)) }
    ensures connected { IfOk result (λ fault. IfNone fault (Connected (system rows.now))) }
    ensures planar { IfOk result (λ fault. IfNone fault (HasGenusZero rows.now)) }
{
    if !is_whole(alloc, rows, images)? {
        return Ok(Some(LoadFault::NotConnected));
    }
    if !has_genus_zero(alloc, rows, images)? {
        return Ok(Some(LoadFault::NotPlanar));
    }
    Ok(None)
}

/// Tests rows within the limits, with places for their ids.
fn judge_within(
    alloc: Global,
    limits: &Limits,
    rows: &Rows,
    hints: &IdIndex,
) -> Result<Result<Turns, LoadFault>, AllocError>
    requires { fits limits.now rows.now ≡ true }
    ensures picture { IfOk result (λ judged. IfOk judged (λ _. IsPicture limits.now rows.now)) }
    ensures turns { IfOk result
        (λ judged. IfOk judged
        (λ turns. AreTurnsOf rows.now turns.begins.items turns.images.items)) }
    ensures first { IfOk result (λ judged. IfErr judged (FailsFirst limits.now rows.now)) }
    ensures no_memory { IfOk result (λ judged. IfErr judged (λ fault. fault ≢ LoadFault.Memory)) }
{
    let mut ahead = Vec::new(alloc);
    if let Some(fault) = fault_of_rows(alloc, &mut ahead, limits, rows, hints)? {
        return Ok(Err(fault));
    }
    let turns = turns_from(alloc, rows, hints, ahead)?;
    if let Some(fault) = fault_of_turns(alloc, rows, &turns.images)? {
        return Ok(Err(fault));
    }
    Ok(Ok(turns))
}

/// Tests rows. Answers their rotation system if they are a picture within the limits, and else the
/// first test that they fail. Out of memory is an error, and no such test.
pub fn judge(
    alloc: Global,
    limits: &Limits,
    rows: &Rows,
) -> Result<Result<Turns, LoadFault>, AllocError>
    ensures picture { IfOk result (λ judged. IfOk judged (λ _. IsPicture limits.now rows.now)) }
    ensures turns { IfOk result
        (λ judged. IfOk judged
        (λ turns. AreTurnsOf rows.now turns.begins.items turns.images.items)) }
    ensures first { IfOk result (λ judged. IfErr judged (FailsFirst limits.now rows.now)) }
    ensures no_memory { IfOk result (λ judged. IfErr judged (λ fault. fault ≢ LoadFault.Memory)) }
{
    if !within_limits(limits, rows) {
        return Ok(Err(LoadFault::TooMany));
    }
    let hints = IdIndex::of(alloc, rows)?;
    judge_within(alloc, limits, rows, &hints)
}
