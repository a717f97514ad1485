//! Rows by their ids.

ghost use Rattle.std.specs.Prelude.{◌≡◌, ◌==◌, ℕ, MatchOption, None, find, is_some, map, true};
ghost use Rattle.topo_rows.specs.Ids.{IdsRise, IsPlaceOf};

use crate::id_index::IdIndex;
use topo_core::rows::{CrossRow, EdgeRow};

/// A row that has an id.
pub(crate) trait Identified {
    /// The id of a row.
    ghost id_of: { Self → ℕ };

    /// The id of a row.
    fn id(&self) -> u32
        ensures { result ≡ id_of self.now };
}

impl Identified for EdgeRow {
    ghost id_of = { λ row. row.id };

    fn id(&self) -> u32 {
        self.id
    }
}

impl Identified for CrossRow {
    ghost id_of = { λ row. row.id };

    fn id(&self) -> u32 {
        self.id
    }
}

/// The place of the row with an id, by a binary search. It halves what is left whatever it reads.
fn searched_place<T: Identified>(rows: &[T], id: u32) -> Option<usize>
    requires { IdsRise (map T.id_of rows.now) }
    ensures { MatchOption result (find (λ row. T.id_of row == id) rows.now ≡ None)
        (IsPlaceOf rows.now T.id_of id) }
{
    if rows.is_empty() {
        return None;
    }
    let mut base = 0;
    let mut left = rows.len();
    while left > 1 {
        let half = left / 2;
        let middle = base + half;
        if rows[middle].id() <= id {
            base = middle;
        }
        left -= half;
    }
    if rows[base].id() == id {
        Some(base)
    } else {
        None
    }
}

/// The place of the row with an id, where ids rise; none where there is no such row. One look finds
/// it where it is expected; else a binary search does.
fn row_place<T: Identified>(rows: &[T], expected: usize, id: u32) -> Option<usize>
    requires { IdsRise (map T.id_of rows.now) }
    ensures { MatchOption result (find (λ row. T.id_of row == id) rows.now ≡ None)
        (IsPlaceOf rows.now T.id_of id) }
{
    if expected < rows.len() && rows[expected].id() == id {
        return Some(expected);
    }
    searched_place(rows, id)
}

/// The place of the edge with an id, where ids rise; none where there is no such edge.
pub fn edge_place(edges: &[EdgeRow], hints: &IdIndex, id: u32) -> Option<usize>
    requires { IdsRise (map (λ row. row.id) edges.now) }
    ensures { MatchOption result (find (λ row. row.id == id) edges.now ≡ None)
        (IsPlaceOf edges.now (λ row. row.id) id) }
{
    row_place(edges, hints.edge(id), id)
}

/// The place of the crossing with an id, in the same way.
pub fn crossing_place(crossings: &[CrossRow], hints: &IdIndex, id: u32) -> Option<usize>
    requires { IdsRise (map (λ row. row.id) crossings.now) }
    ensures { MatchOption result (find (λ row. row.id == id) crossings.now ≡ None)
        (IsPlaceOf crossings.now (λ row. row.id) id) }
{
    row_place(crossings, hints.crossing(id), id)
}

/// The place of an edge that is there.
pub fn place_of_edge(edges: &[EdgeRow], hints: &IdIndex, id: u32) -> usize
    requires rise { IdsRise (map (λ row. row.id) edges.now) }
    requires there { is_some (find (λ row. row.id == id) edges.now) ≡ true }
    ensures { IsPlaceOf edges.now (λ row. row.id) id result }
{
    match edge_place(edges, hints, id) {
        Some(place) => place,
        None => unreachable!(),
    }
}

/// The place of a crossing that is there.
pub fn place_of_crossing(crossings: &[CrossRow], hints: &IdIndex, id: u32) -> usize
    requires rise { IdsRise (map (λ row. row.id) crossings.now) }
    requires there { is_some (find (λ row. row.id == id) crossings.now) ≡ true }
    ensures { IsPlaceOf crossings.now (λ row. row.id) id result }
{
    match crossing_place(crossings, hints, id) {
        Some(place) => place,
        None => unreachable!(),
    }
}
