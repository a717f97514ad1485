//! The flat lists of a well-formed picture: its darts as numbers in canonical order.

ghost use Rattle.std.specs.Prelude.{◌≡◌, ◌+◌, ◌*◌, ◌<◌, ◌≤◌, ◌^◌, ◌++◌, ◌==◌, ℕ, true, false};
ghost use Rattle.std.specs.Prelude.{IfOk, OnOk, IfSome, IfNone, MatchOption, IsTrue, ◌↔◌, find};
ghost use Rattle.std.specs.Prelude.{length, map, flat_map, replicate, sum_by, is_some, not};
ghost use Rattle.std.specs.Prelude.{slice_index};
ghost use Rattle.std.specs.List.{list_all};
ghost use Rattle.topo_core.specs.Items.{occurrences, rises_below};
ghost use Rattle.topo_core.specs.Lawful.{IsWellFormed, has_good_paths};
ghost use Rattle.topo_core.specs.Picture.{segment_count, index_of, end_dart, edge_row};
ghost use Rattle.topo_core.specs.Picture.{darts, rotation, vertices, turn_images};
ghost use Rattle.topo_rows.specs.Ids.{IdsRise};
ghost use Rattle.topo_rows.specs.Flats.{begins_from, written, links, note_place};
ghost use Rattle.topo_rows.specs.Flats.{path_notes, notes_from, vertex_round, AreTurnsOf};
ghost use Rattle.topo_rows.specs.Flats.{crossing_round, round_ahead, AreAhead, AreNoted};
ghost use Rattle.topo_rows.specs.Notes.{Fills, IsNotePlace, IsOfOthers, IsOverfull};
ghost use Rattle.topo_rows.specs.Pairs.{crossing_pairs, pair, path_pairs};

use crate::by_id::{place_of_crossing, place_of_edge};
use crate::id_index::IdIndex;
use std::alloc::{AllocError, Global};
use topo_core::darts::Sign;
use topo_core::rows::{CrossRow, EdgeRow, Rows};

/// Writes for each edge the number of its first dart, and last the number of all darts.
fn write_begins(begins: &mut [u32], edges: &[EdgeRow])
    requires few { 2 * sum_by segment_count edges.now < 2 ^ 32 }
    requires room { length begins.old ≡ length edges.now + 1 }
    ensures { begins.new ≡ begins_from 0 edges.now }
{
    let mut next = 0;
    for i in 0..edges.len() {
        begins[i] = next;
        next += 2 * (edges[i].crossings.as_slice().len() as u32 + 1);
    }
    begins[edges.len()] = next;
}

/// For each edge the number of its first dart, and last the number of all darts.
fn begins_of(alloc: Global, edges: &[EdgeRow]) -> Result<Vec<u32>, AllocError>
    requires { 2 * sum_by segment_count edges.now < 2 ^ 32 }
    ensures { IfOk result (λ begins. begins.items ≡ begins_from 0 edges.now) }
{
    let mut begins = vec![in alloc; 0; edges.len() + 1]?;
    write_begins(&mut begins, edges);
    Ok(begins)
}

/// Writes for each entry of a round what follows it.
fn link_round(images: &mut [u32], round: &[u32])
    requires { (k : ℕ) → k < length round.now → slice_index round.now k < length images.old }
    ensures { images.new ≡ written images.old (links round.now) }
{
    for i in 0..round.len() {
        let next = if i + 1 < round.len() {
            round[i + 1]
        } else {
            round[0]
        };
        images[round[i] as usize] = next;
    }
}

/// Where the dart ahead of crossing `x` on edge `e` is noted; none where the crossing is of two
/// other edges.
fn note_place(crossings: &[CrossRow], hints: &IdIndex, e: u32, x: u32) -> Option<usize>
    requires rise { IdsRise (map (λ c. c.id) crossings.now) }
    requires there { is_some (find (λ c. c.id == x) crossings.now) ≡ true }
    requires few { length crossings.now < 2 ^ 32 }
    ensures { MatchOption result (IsOfOthers crossings.now e x) (IsNotePlace crossings.now e x) }
{
    let place = place_of_crossing(crossings, hints, x);
    if e == crossings[place].crossed {
        Some(2 * place)
    } else if e == crossings[place].newcomer {
        Some(2 * place + 1)
    } else {
        None
    }
}

/// Notes for each crossing of a path the number of the dart ahead, where the path's first dart has
/// the number `begin`. Answers the number that follows those of the path. It stops, and answers
/// none, at a crossing that is of two other edges or that the edge has met before.
fn note_path(
    ahead: &mut [u32],
    crossings: &[CrossRow],
    hints: &IdIndex,
    e: u32,
    begin: u32,
    path: &[u32],
) -> Option<u32>
    requires rise { IdsRise (map (λ c. c.id) crossings.now) }
    requires known { list_all (λ x. is_some (find (λ c. c.id == x) crossings.now)) path.now ≡ true }
    requires few { length crossings.now < 2 ^ 32 }
    requires room { length ahead.old ≡ 2 * length crossings.now }
    ensures filled { IfSome result
        (λ _. Fills crossings.now ahead.old ahead.new (map (pair e) path.now)) }
    ensures noted { IfSome result (λ next. begin + 2 * (length path.now + 1) < 2 ^ 32
        → (next ≡ begin + 2 * (length path.now + 1))
        × (ahead.new ≡ written ahead.old (path_notes crossings.now e begin path.now))) }
    ensures overfull { IfNone result
        (IsOverfull crossings.now ahead.old (map (pair e) path.now)) }
{
    let mut number = begin;
    for s in 0..path.len() {
        let Some(place) = note_place(crossings, hints, e, path[s]) else {
            return None;
        };
        if ahead[place] != 0 {
            return None;
        }
        number = number.saturating_add(2);
        ahead[place] = number;
    }
    Some(number.saturating_add(2))
}

/// Notes that for each path. Answers whether each crossing of each path is of the path's edge and
/// once on it, and stops at the first path where it is not so.
fn note_paths(ahead: &mut [u32], crossings: &[CrossRow], hints: &IdIndex, edges: &[EdgeRow]) -> bool
    requires rise { IdsRise (map (λ c. c.id) crossings.now) }
    requires known { list_all (λ row. list_all (λ x. is_some (find (λ c. c.id == x) crossings.now))
        row.crossings) edges.now ≡ true }
    requires few { length crossings.now < 2 ^ 32 }
    requires room { length ahead.old ≡ 2 * length crossings.now }
    ensures filled { IsTrue result
        → Fills crossings.now ahead.old ahead.new (path_pairs edges.now) }
    ensures noted { IsTrue result → 2 * sum_by segment_count edges.now < 2 ^ 32
        → ahead.new ≡ written ahead.old (notes_from crossings.now 0 edges.now) }
    ensures overfull { result ≡ false
        → IsOverfull crossings.now ahead.old (path_pairs edges.now) }
{
    let mut begin = 0;
    for row in edges {
        let path = row.crossings.as_slice();
        match note_path(ahead, crossings, hints, row.id, begin, path) {
            Some(next) => begin = next,
            None => return false,
        }
    }
    true
}

/// Whether there is a number at each place.
fn is_full(ahead: &[u32]) -> bool
    ensures { result ≡ list_all (λ n. not (n == 0)) ahead.now }
{
    ahead.iter().all(|number| *number != 0)
}

/// Notes the numbers of the darts ahead of crossings where none is noted yet. Answers whether the
/// paths have just the crossings that the crossings want.
fn note_blank(ahead: &mut [u32], rows: &Rows, hints: &IdIndex) -> bool
    requires paths { has_good_paths rows.now ≡ true }
    requires rise { rises_below rows.now.next_crossing (map (λ x. x.id) rows.now.crossings)
        ≡ true }
    requires differ { list_all (λ x. not (x.crossed == x.newcomer)) rows.now.crossings ≡ true }
    requires room { length ahead.old ≡ 2 * length rows.now.crossings }
    requires blank { (i : ℕ) → i < length ahead.old → slice_index ahead.old i ≡ 0 }
    ensures same { IsTrue result ↔ ((k : ℕ) → occurrences k (path_pairs rows.now.edges)
        ≡ occurrences k (crossing_pairs rows.now.crossings)) }
    ensures noted { IsTrue result → 2 * sum_by segment_count rows.now.edges < 2 ^ 32
        → AreNoted rows.now ahead.new }
{
    // For the proof: what the type keeps.
    let _next = rows.next_crossing;
    let crossings = rows.crossings.as_slice();
    let edges = rows.edges.as_slice();
    if !note_paths(ahead, crossings, hints, edges) {
        return false;
    }
    is_full(ahead)
}

/// Notes for each crossing the numbers of the darts ahead of it, on the crossed edge and on the
/// newcomer, over what the list held. Answers whether the paths have just the crossings that the
/// crossings want; where they have others, the list may lack some.
pub(crate) fn note_all(
    ahead: &mut Vec<u32>,
    rows: &Rows,
    hints: &IdIndex,
) -> Result<bool, AllocError>
    requires paths { has_good_paths rows.now ≡ true }
    requires rise { rises_below rows.now.next_crossing (map (λ x. x.id) rows.now.crossings)
        ≡ true }
    requires differ { list_all (λ x. not (x.crossed == x.newcomer)) rows.now.crossings ≡ true }
    ensures same { IfOk result
        (λ yes. IsTrue yes ↔ ((k : ℕ) → occurrences k (path_pairs rows.now.edges)
        ≡ occurrences k (crossing_pairs rows.now.crossings))) }
    ensures noted { IfOk result
        (λ yes. IsTrue yes → 2 * sum_by segment_count rows.now.edges < 2 ^ 32
        → AreNoted rows.now ahead.new.items) }
{
    ahead.clear();
    ahead.resize(2 * rows.crossings.as_slice().len(), 0)?;
    let is_same = note_blank(ahead, rows, hints);
    Ok(is_same)
}

/// Writes for each crossing of well-formed rows the numbers of the darts ahead of it.
fn fill_ahead(ahead: &mut Vec<u32>, rows: &Rows, hints: &IdIndex) -> Result<(), AllocError>
    requires well_formed { IsWellFormed rows.now }
    requires few { 2 * sum_by segment_count rows.now.edges < 2 ^ 32 }
    requires crossings { length rows.now.crossings < 2 ^ 32 }
    ensures { OnOk result (AreAhead rows.now ahead.new.items) }
{
    // For the proof: what the type keeps.
    let _next = rows.next_crossing;
    if rows.crossings.as_slice().is_empty() {
        ahead.clear();
        return Ok(());
    }
    note_all(ahead, rows, hints)?;
    Ok(())
}

/// The number of the dart of edge `e` that starts at its end `v`.
pub fn end_number(rows: &Rows, begins: &[u32], hints: &IdIndex, v: u32, e: u32) -> u32
    requires paths { has_good_paths rows.now ≡ true }
    requires begins { begins.now ≡ begins_from 0 rows.now.edges }
    requires there { is_some (edge_row rows.now e) ≡ true }
    ensures { result ≡ index_of rows.now (end_dart rows.now v e) }
{
    let edges = rows.edges.as_slice();
    let place = place_of_edge(edges, hints, e);
    let row = &edges[place];
    if row.a == v {
        begins[place]
    } else {
        begins[place + 1] - 1
    }
}

/// Writes the turns round a vertex.
fn link_vertex(images: &mut [u32], rows: &Rows, begins: &[u32], hints: &IdIndex, v: u32)
    requires well_formed { IsWellFormed rows.now }
    requires begins { begins.now ≡ begins_from 0 rows.now.edges }
    requires vertex { v < length rows.now.rotations }
    requires room { length images.old ≡ length (darts rows.now) }
    ensures { images.new ≡ written images.old (links (vertex_round rows.now v)) }
{
    let around = rows.rotations.as_slice()[v as usize].as_slice();
    if around.is_empty() {
        return;
    }
    let first = end_number(rows, begins, hints, v, around[0]);
    let mut here = first;
    for i in 1..around.len() {
        let next = end_number(rows, begins, hints, v, around[i]);
        images[here as usize] = next;
        here = next;
    }
    images[here as usize] = first;
}

/// Writes the turns round the vertices.
fn link_vertices(images: &mut [u32], rows: &Rows, begins: &[u32], hints: &IdIndex)
    requires well_formed { IsWellFormed rows.now }
    requires begins { begins.now ≡ begins_from 0 rows.now.edges }
    requires vertices { length rows.now.rotations < 2 ^ 32 }
    requires room { length images.old ≡ length (darts rows.now) }
    ensures { images.new
        ≡ written images.old (flat_map (λ v. links (vertex_round rows.now v)) (vertices rows.now)) }
{
    for v in 0..rows.rotations.as_slice().len() {
        link_vertex(images, rows, begins, hints, v as u32);
    }
}

/// Writes the turns round a crossing, from the numbers of the darts ahead of it.
fn link_crossing(images: &mut [u32], sign: Sign, crossed: u32, newcomer: u32)
    requires crossed { 0 < crossed }
    requires newcomer { 0 < newcomer }
    requires crossed_within { crossed < length images.old }
    requires newcomer_within { newcomer < length images.old }
    ensures { images.new ≡ written images.old (links (round_ahead sign crossed newcomer)) }
{
    let round = match sign {
        Sign::LeftToRight => [crossed, newcomer, crossed - 1, newcomer - 1],
        Sign::RightToLeft => [crossed, newcomer - 1, crossed - 1, newcomer],
    };
    link_round(images, &round);
}

/// Writes the turns round the crossings.
fn link_crossings(images: &mut [u32], rows: &Rows, ahead: &[u32])
    requires well_formed { IsWellFormed rows.now }
    requires crossings { length rows.now.crossings < 2 ^ 32 }
    requires ahead { AreAhead rows.now ahead.now }
    requires room { length images.old ≡ length (darts rows.now) }
    ensures { images.new
        ≡ written images.old
        (flat_map (λ x. links (crossing_round rows.now x)) rows.now.crossings) }
{
    let crossings = rows.crossings.as_slice();
    for i in 0..crossings.len() {
        link_crossing(images, crossings[i].sign, ahead[2 * i], ahead[2 * i + 1]);
    }
}

/// Writes the images of the turn, from the numbers of the darts ahead of the crossings.
fn link_points(images: &mut [u32], rows: &Rows, begins: &[u32], hints: &IdIndex, ahead: &[u32])
    requires well_formed { IsWellFormed rows.now }
    requires begins { begins.now ≡ begins_from 0 rows.now.edges }
    requires vertices { length rows.now.rotations < 2 ^ 32 }
    requires crossings { length rows.now.crossings < 2 ^ 32 }
    requires ahead { AreAhead rows.now ahead.now }
    requires room { length images.old ≡ length (darts rows.now) }
    ensures { images.new ≡ turn_images rows.now }
{
    link_vertices(images, rows, begins, hints);
    link_crossings(images, rows, ahead);
}

/// How many darts there are.
pub(crate) fn dart_count(rows: &Rows, begins: &[u32]) -> usize
    requires { begins.now ≡ begins_from 0 rows.now.edges }
    ensures { result ≡ length (darts rows.now) }
{
    let last = rows.edges.as_slice().len();
    begins[last] as usize
}

/// The images of the turn in canonical numbers, from the numbers of the darts ahead of the
/// crossings.
fn images_of(
    alloc: Global,
    rows: &Rows,
    begins: &[u32],
    hints: &IdIndex,
    ahead: &[u32],
) -> Result<Vec<u32>, AllocError>
    requires well_formed { IsWellFormed rows.now }
    requires begins { begins.now ≡ begins_from 0 rows.now.edges }
    requires vertices { length rows.now.rotations < 2 ^ 32 }
    requires crossings { length rows.now.crossings < 2 ^ 32 }
    requires ahead { AreAhead rows.now ahead.now }
    ensures { IfOk result (λ images. images.items ≡ turn_images rows.now) }
{
    let mut images = vec![in alloc; 0; dart_count(rows, begins)]?;
    link_points(&mut images, rows, begins, hints, ahead);
    Ok(images)
}

/// How the darts of rows turn, in canonical numbers.
#[derive(Drop)]
pub struct Turns {
    /// For each dart the next one clockwise at its point.
    pub images: Vec<u32>,
    /// For each edge the number of its first dart, and last the number of all darts.
    pub begins: Vec<u32>,
}

/// How the darts of rows turn, in canonical numbers.
pub fn turns_of(alloc: Global, rows: &Rows) -> Result<Turns, AllocError>
    requires well_formed { IsWellFormed rows.now }
    requires few { 2 * sum_by segment_count rows.now.edges < 2 ^ 32 }
    requires vertices { length rows.now.rotations < 2 ^ 32 }
    requires crossings { length rows.now.crossings < 2 ^ 32 }
    ensures { IfOk result (λ turns. AreTurnsOf rows.now turns.begins.items turns.images.items) }
{
    let hints = IdIndex::of(alloc, rows)?;
    let mut ahead = Vec::new(alloc);
    fill_ahead(&mut ahead, rows, &hints)?;
    turns_from(alloc, rows, &hints, ahead)
}

/// How the darts of rows turn, from the numbers of the darts ahead of the crossings.
pub(crate) fn turns_from(
    alloc: Global,
    rows: &Rows,
    hints: &IdIndex,
    ahead: Vec<u32>,
) -> Result<Turns, AllocError>
    requires well_formed { IsWellFormed rows.now }
    requires few { 2 * sum_by segment_count rows.now.edges < 2 ^ 32 }
    requires vertices { length rows.now.rotations < 2 ^ 32 }
    requires crossings { length rows.now.crossings < 2 ^ 32 }
    requires ahead { AreAhead rows.now ahead.items }
    ensures { IfOk result (λ turns. AreTurnsOf rows.now turns.begins.items turns.images.items) }
{
    let begins = begins_of(alloc, rows.edges.as_slice())?;
    let images = images_of(alloc, rows, &begins, hints, &ahead)?;
    Ok(Turns { images, begins })
}
