//! Deletion on plain rows. It takes no memory, so it cannot fail.

ghost use Rattle.std.specs.Prelude.{Some, ◌≡◌, ◌≢◌, ◌<◌, ◌==◌, ℕ, true};
ghost use Rattle.std.specs.Prelude.{not, filter, find, is_some, length, map};
ghost use Rattle.std.specs.Prelude.{slice_index, slice_index_or, [], ◌∷◌};
ghost use Rattle.topo_core.specs.Changes.{uncrossed_row, without};
ghost use Rattle.topo_core.specs.Items.{IsIn, has_id};
ghost use Rattle.topo_core.specs.Lawful.{IsWellFormed};
ghost use Rattle.topo_core.specs.Picture.{edge_row, rotation};
ghost use Rattle.topo_kept_rows.specs.Keeping.{HaveOwnIds, edges_of, rows_of};
ghost use Rattle.topo_table.specs.Places.{AreBelow, entries, ids_of};
ghost use Rattle.topo_kept_rows.specs.Deleting.{IsCrossed, IsRotation};
ghost use Rattle.topo_kept_rows.specs.Deleting.{left_by, other_edge};

use crate::kept::{Crossing, KeptRows};
use crate::rotation::Rotation;
use topo_core::listed::Listed;
use topo_core::rows::EdgeRow;
use topo_table::Table;

/// Takes an id out of a list.
fn take_id(list: &mut Listed<u32>, id: u32)
    ensures { list.new ≡ filter (λ y. not (y == id)) list.old }
{
    list.as_vec_mut().retain(|y| *y != id);
}

/// Takes an edge out of the rotation of a vertex.
fn leave_vertex(rotations: &mut Vec<Rotation>, v: u32, e: u32)
    requires vertex { v < length rotations.old.items }
    requires rotation { IsRotation (slice_index_or rotations.old.items v []) }
    ensures { rotations.new.items ≡ left_by e v rotations.old.items }
{
    rotations[v as usize].leave(e);
}

/// The other edge of a crossing of `e`.
fn edge_across(crossings: &Table<Crossing>, e: u32, x: u32) -> u32
    requires { is_some (find (λ row. row.id == x) (rows_of crossings.now)) ≡ true }
    ensures { result ≡ other_edge (rows_of crossings.now) e x }
{
    match crossings.get(x) {
        Some(crossing) => crossing.other(e),
        None => unreachable!(),
    }
}

/// Takes a crossing of `e` out of the path of the other edge.
fn leave_path(edges: &mut Table<EdgeRow>, crossings: &Table<Crossing>, e: u32, x: u32)
    requires own { HaveOwnIds edges.old }
    requires crossed { IsCrossed (rows_of crossings.now) e (edges_of edges.old) x }
    ensures edges { edges_of edges.new ≡ map (uncrossed_row (x ∷ [])) (edges_of edges.old) }
    ensures ids { ids_of edges.new.slots ≡ ids_of edges.old.slots }
    ensures own { HaveOwnIds edges.new }
{
    let other = edge_across(crossings, e, x);
    match edges.place_of(other) {
        Some(place) => {
            let mut row = edges.take(place);
            take_id(&mut row.crossings, x);
            edges.put(place, row);
        }
        None => unreachable!(),
    }
}

/// Takes the crossings of `e` out of the paths of the other edges.
fn leave_paths(edges: &mut Table<EdgeRow>, crossings: &Table<Crossing>, e: u32, path: &[u32])
    requires own { HaveOwnIds edges.old }
    requires crossed { (x : ℕ) → IsIn x path.now
        → IsCrossed (rows_of crossings.now) e (edges_of edges.old) x }
    ensures edges { edges_of edges.new ≡ map (uncrossed_row path.now) (edges_of edges.old) }
    ensures ids { ids_of edges.new.slots ≡ ids_of edges.old.slots }
    ensures own { HaveOwnIds edges.new }
{
    for x in path {
        leave_path(edges, crossings, e, *x);
    }
}

/// Takes out the row of an edge, and its crossings out of the paths of the others.
fn delete_edge(rows: &mut KeptRows, e: u32) -> EdgeRow
    requires well_formed { IsWellFormed rows.old }
    requires there { is_some (edge_row rows.old e) ≡ true }
    ensures row { edge_row rows.old e ≡ Some result }
    ensures rows { rows.new ≡ record rows.old {
      edges =
          map (uncrossed_row result.crossings) (filter (λ row. not (row.id == e)) rows.old.edges);
    } }
{
    let Some(row) = rows.edges.remove(e) else {
        unreachable!()
    };
    let path = row.crossings.as_slice();
    leave_paths(&mut rows.edges, &rows.crossings, e, path);
    row
}

/// Takes an edge out of the rotations of its two ends.
fn leave_ends(rows: &mut KeptRows, row: &EdgeRow)
    requires a { row.now.a < length rows.old.rotations }
    requires b { row.now.b < length rows.old.rotations }
    requires apart { row.now.a ≢ row.now.b }
    requires rotation_a { IsRotation (rotation rows.old row.now.a) }
    requires rotation_b { IsRotation (rotation rows.old row.now.b) }
    ensures { rows.new ≡ record rows.old {
      rotations =
          left_by row.now.id row.now.b (left_by row.now.id row.now.a rows.old.rotations);
    } }
{
    let rotations = rows.rotations.as_vec_mut();
    leave_vertex(rotations, row.a, row.id);
    leave_vertex(rotations, row.b, row.id);
}

/// Takes out the crossings on a path.
fn delete_crossings(crossings: &mut Table<Crossing>, path: &[u32])
    ensures entries { entries crossings.new
        ≡ filter (λ e. not (has_id path.now e.0)) (entries crossings.old) }
    ensures below { (limit : ℕ) → AreBelow limit crossings.old.slots
        → AreBelow limit crossings.new.slots }
{
    for x in path {
        crossings.remove(*x);
    }
    crossings.close_up();
}

/// Takes out an edge and its crossings. The counters stay.
pub fn delete_rows(rows: &mut KeptRows, e: u32)
    requires well_formed { IsWellFormed rows.old }
    requires there { is_some (edge_row rows.old e) ≡ true }
    ensures { rows.new ≡ without rows.old e }
{
    let row = delete_edge(rows, e);
    leave_ends(rows, &row);
    delete_crossings(&mut rows.crossings, row.crossings.as_slice());
}
