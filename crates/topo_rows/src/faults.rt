//! The tests of rows that say whether they are an embedding, each in little more than linear time.

ghost use Rattle.std.specs.Prelude.{◌≡◌, ◌*◌, ◌^◌, ◌<◌, ◌==◌, ◌&&◌, ◌↔◌, ℕ};
ghost use Rattle.std.specs.Prelude.{IfOk, IsTrue, true, not, length, map, sum_by};
ghost use Rattle.std.specs.List.{list_any, list_all};
ghost use Rattle.std.specs.List.Sorted.{IsNonDecreasing, IsPermutation};
ghost use Rattle.topo_core.specs.Items.{occurrences, rises_below};
ghost use Rattle.topo_core.specs.Lawful.{has_good_paths, has_good_crossings, has_good_rotations};
ghost use Rattle.topo_core.specs.Picture.{segment_count};
ghost use Rattle.topo_rows.specs.Flats.{AreNoted};
ghost use Rattle.topo_rows.specs.Loading.{fits};
ghost use Rattle.topo_rows.specs.Pairs.{begins_with_least, end_pairs};
ghost use Rattle.topo_rows.specs.Pairs.{is_valid_edge, path_pairs, rotation_pairs};

use crate::flat::note_all;
use crate::id_index::IdIndex;
use crate::pairs::{end_pairs, is_same_multiset, rotation_pairs};
use std::alloc::{AllocError, Global};
use topo_core::limits::Limits;
use topo_core::listed::Listed;
use topo_core::rows::{CrossRow, EdgeRow, KINDS, Rows};

/// Whether the vertices and the counters are within the limits.
pub(crate) fn within_limits(limits: &Limits, rows: &Rows) -> bool
    ensures { result ≡ fits limits.now rows.now }
{
    rows.rotations.as_slice().len() <= limits.vertices as usize
        && rows.next_edge <= limits.edges
        && rows.next_crossing <= limits.crossings
}

/// Whether numbers rise and stay below a limit.
fn rise_below(limit: u32, ids: &[u32]) -> bool
    ensures { result ≡ rises_below limit ids.now }
{
    for i in 0..ids.len() {
        let next = if i + 1 < ids.len() { ids[i + 1] } else { limit };
        if ids[i] >= next {
            return false;
        }
    }
    true
}

/// Whether x is one of the numbers, which are in order. One look finds it where it is expected;
/// else a binary search does.
fn has_number(numbers: &[u32], expected: usize, x: u32) -> bool
    requires { IsNonDecreasing numbers.now }
    ensures { result ≡ list_any (λ y. y == x) numbers.now }
{
    if expected < numbers.len() && numbers[expected] == x {
        return true;
    }
    numbers.binary_search(&x).is_ok()
}

/// Whether each number is one of those of the first list, which are in order.
fn has_numbers(numbers: &[u32], hints: &IdIndex, xs: &[u32]) -> bool
    requires { IsNonDecreasing numbers.now }
    ensures { result ≡ list_all (λ x. list_any (λ y. y == x) numbers.now) xs.now }
{
    xs.iter()
        .all(|x| has_number(numbers, hints.crossing(*x), *x))
}

/// Whether an edge has two vertices for its ends, a kind that is known, and a path of crossings
/// that are there.
fn is_valid_edge(vertices: usize, ids: &[u32], hints: &IdIndex, row: &EdgeRow) -> bool
    requires { IsNonDecreasing ids.now }
    ensures { result ≡ is_valid_edge vertices ids.now row.now }
{
    (row.a as usize) < vertices
        && (row.b as usize) < vertices
        && row.a != row.b
        && (row.kind as usize) < KINDS
        && has_numbers(ids, hints, row.crossings.as_slice())
}

/// Whether that holds of each edge.
fn are_valid_edges(vertices: usize, ids: &[u32], hints: &IdIndex, edges: &[EdgeRow]) -> bool
    requires { IsNonDecreasing ids.now }
    ensures { result ≡ list_all (is_valid_edge vertices ids.now) edges.now }
{
    edges
        .iter()
        .all(|row| is_valid_edge(vertices, ids, hints, row))
}

/// The ids of edges.
pub(crate) fn edge_ids(alloc: Global, edges: &[EdgeRow]) -> Result<Vec<u32>, AllocError>
    ensures { IfOk result (λ ids. ids.items ≡ map (λ row. row.id) edges.now) }
{
    edges.iter().map(|row| row.id).collect(alloc)
}

/// The ids of crossings.
pub(crate) fn crossing_ids(alloc: Global, crossings: &[CrossRow]) -> Result<Vec<u32>, AllocError>
    ensures { IfOk result (λ ids. ids.items ≡ map (λ x. x.id) crossings.now) }
{
    crossings.iter().map(|row| row.id).collect(alloc)
}

/// Whether the ids of edges rise and stay below the next.
fn edge_ids_rise(alloc: Global, rows: &Rows) -> Result<bool, AllocError>
    ensures { IfOk result
        (λ yes. yes ≡ rises_below rows.now.next_edge (map (λ row. row.id) rows.now.edges)) }
{
    let ids = edge_ids(alloc, rows.edges.as_slice())?;
    Ok(rise_below(rows.next_edge, ids.as_slice()))
}

/// The ids of crossings, in order.
fn sorted_ids(alloc: Global, crossings: &[CrossRow]) -> Result<Vec<u32>, AllocError>
    ensures sorted { IfOk result (λ ids. IsNonDecreasing ids.items) }
    ensures permutation { IfOk result
        (λ ids. IsPermutation (map (λ x. x.id) crossings.now) ids.items) }
{
    let mut ids = crossing_ids(alloc, crossings)?;
    ids.sort_unstable();
    Ok(ids)
}

/// Whether the paths are good.
pub(crate) fn are_paths_good(
    alloc: Global,
    rows: &Rows,
    hints: &IdIndex,
) -> Result<bool, AllocError>
    ensures { IfOk result (λ yes. yes ≡ has_good_paths rows.now) }
{
    if !edge_ids_rise(alloc, rows)? {
        return Ok(false);
    }
    let ids = sorted_ids(alloc, rows.crossings.as_slice())?;
    let vertices = rows.rotations.as_slice().len();
    Ok(are_valid_edges(vertices, ids.as_slice(), hints, rows.edges.as_slice()))
}

/// Whether each crossing is of two different edges.
fn differ(crossings: &[CrossRow]) -> bool
    ensures { result ≡ list_all (λ x. not (x.crossed == x.newcomer)) crossings.now }
{
    crossings.iter().all(|row| row.crossed != row.newcomer)
}

/// Whether the ids of crossings rise and stay below the next, and each is of two different edges.
fn rise_and_differ(alloc: Global, rows: &Rows) -> Result<bool, AllocError>
    ensures { IfOk result
        (λ yes. yes ≡ (rises_below rows.now.next_crossing (map (λ x. x.id) rows.now.crossings)
        && list_all (λ x. not (x.crossed == x.newcomer)) rows.now.crossings)) }
{
    let crossings = rows.crossings.as_slice();
    let ids = crossing_ids(alloc, crossings)?;
    Ok(rise_below(rows.next_crossing, ids.as_slice()) && differ(crossings))
}

/// Whether the crossings are good, where the paths are. If they are, there is a path entry for each
/// end of an edge at a crossing, so there are two for each crossing, and the numbers of the darts
/// ahead of them are noted in a list, over what it held.
pub(crate) fn are_crossings_good(
    alloc: Global,
    ahead: &mut Vec<u32>,
    rows: &Rows,
    hints: &IdIndex,
) -> Result<bool, AllocError>
    requires { has_good_paths rows.now ≡ true }
    ensures good { IfOk result (λ yes. yes ≡ has_good_crossings rows.now) }
    ensures two_each { IfOk result
        (λ yes. IsTrue yes → length (path_pairs rows.now.edges) ≡ 2 * length rows.now.crossings) }
    ensures noted { IfOk result
        (λ yes. IsTrue yes → 2 * sum_by segment_count rows.now.edges < 2 ^ 32
        → AreNoted rows.now ahead.new.items) }
{
    // For the proof: what the type keeps.
    let _next = rows.next_crossing;
    if !rise_and_differ(alloc, rows)? {
        return Ok(false);
    }
    let is_same = note_all(ahead, rows, hints)?;
    Ok(is_same)
}

/// Whether a list begins with its least number.
fn begins_with_least(around: &[u32]) -> bool
    ensures { result ≡ begins_with_least around.now }
{
    let first = match around.first() {
        Some(x) => *x,
        None => 0,
    };
    around.iter().all(|x| first <= *x)
}

/// Whether each list does.
fn begin_with_least(rotations: &[Listed<u32>]) -> bool
    ensures { result ≡ list_all begins_with_least rotations.now }
{
    rotations
        .iter()
        .all(|around| begins_with_least(around.as_slice()))
}

/// Whether the lists of the vertices have just the edges that have an end there.
fn rotations_agree(
    alloc: Global,
    rotations: &[Listed<u32>],
    edges: &[EdgeRow],
    hints: &IdIndex,
) -> Result<bool, AllocError>
    requires { length rotations.now < 2 ^ 32 }
    ensures { IfOk result
        (λ yes. IsTrue yes ↔ ((k : ℕ)
        → occurrences k (rotation_pairs 0 rotations.now) ≡ occurrences k (end_pairs edges.now))) }
{
    let mut expected = end_pairs(alloc, edges)?;
    let mut found = rotation_pairs(alloc, rotations, expected.len())?;
    Ok(is_same_multiset(&mut found, &mut expected, hints))
}

/// Whether the rotations are good, where the paths are.
pub(crate) fn are_rotations_good(
    alloc: Global,
    rows: &Rows,
    hints: &IdIndex,
) -> Result<bool, AllocError>
    requires paths { has_good_paths rows.now ≡ true }
    requires few { length rows.now.rotations < 2 ^ 32 }
    ensures { IfOk result (λ yes. yes ≡ has_good_rotations rows.now) }
{
    let rotations = rows.rotations.as_slice();
    if !begin_with_least(rotations) {
        return Ok(false);
    }
    let is_same = rotations_agree(alloc, rotations, rows.edges.as_slice(), hints)?;
    Ok(is_same)
}
