//! Growth on plain rows. What can fail comes first, so that a failure leaves the rows as they were.

ghost use Rattle.std.specs.Prelude.{◌≡◌, ◌+◌, ◌<◌, ◌≤◌, ◌^◌, IfOk, OnOk, OnErr};
ghost use Rattle.std.specs.Prelude.{length, slice_index_or, [], ◌∷◌, ◌++◌};
ghost use Rattle.topo_core.specs.Picture.{rotation};
ghost use Rattle.topo_core.specs.Changes.{put_in, with_end, grown};
ghost use Rattle.topo_kept_rows.specs.Keeping.{HaveOwnIds, edges_of};
ghost use Rattle.topo_table.specs.Places.{AreBelow};

use crate::kept::{KeptRows, put_edge};
use crate::rotation::Rotation;
use std::alloc::{AllocError, Global};
use topo_core::listed::Listed;
use topo_core::rows::EdgeRow;
use topo_table::Table;

/// The list of one number.
pub fn one_listed(alloc: Global, x: u32) -> Result<Listed<u32>, AllocError>
    ensures { IfOk result (λ list. list ≡ x ∷ []) }
{
    let mut items = Vec::new(alloc);
    items.push(x)?;
    Ok(Listed::from_vec(items))
}

/// Puts `e` into the corner at a position of `v`, and a new vertex with `e` alone at the end.
fn grow_rotations(
    alloc: Global,
    rotations: &mut Vec<Rotation>,
    v: u32,
    position: u32,
    e: u32,
) -> Result<(), AllocError>
    requires vertex { v < length rotations.old.items }
    requires position { position ≤ length (slice_index_or rotations.old.items v []) }
    ensures ok { OnOk result
        (rotations.new.items ≡ with_end rotations.old.items v position e ++ (e ∷ []) ∷ []) }
    ensures err { OnErr result (rotations.new.items ≡ rotations.old.items) }
{
    rotations.push(Rotation::one(alloc, e)?)?;
    if rotations[v as usize].put_in(position, e).is_err() {
        let _ = rotations.pop();
        return Err(AllocError);
    }
    Ok(())
}

/// Puts a new vertex on a new edge into the corner at a position of `u`.
pub fn grow_rows(
    alloc: Global,
    rows: &mut KeptRows,
    u: u32,
    position: u32,
    kind: u32,
) -> Result<(), AllocError>
    requires vertex { u < length rows.old.rotations }
    requires position { position < length (rotation rows.old u) }
    requires vertices { length rows.old.rotations < 2 ^ 32 }
    requires edges { rows.old.next_edge + 1 < 2 ^ 32 }
    ensures ok { OnOk result (rows.new ≡ grown rows.old u position kind) }
    ensures err { OnErr result (rows.new ≡ rows.old) }
{
    let row = EdgeRow {
        id: rows.next_edge,
        a: u,
        b: rows.rotations.len() as u32,
        kind,
        crossings: Listed::new(alloc),
    };
    let rotations = rows.rotations.as_vec_mut();
    grow_lists(alloc, rotations, &mut rows.edges, row, position)?;
    rows.next_edge += 1;
    Ok(())
}

/// Puts the new edge into the lists and the table, or leaves them as they were.
fn grow_lists(
    alloc: Global,
    rotations: &mut Vec<Rotation>,
    edges: &mut Table<EdgeRow>,
    row: EdgeRow,
    position: u32,
) -> Result<(), AllocError>
    requires vertex { row.a < length rotations.old.items }
    requires position { position ≤ length (slice_index_or rotations.old.items row.a []) }
    requires below { AreBelow row.id edges.old.slots }
    requires own { HaveOwnIds edges.old }
    ensures rotations { OnOk result (rotations.new.items
        ≡ with_end rotations.old.items row.a position row.id ++ (row.id ∷ []) ∷ []) }
    ensures edges { OnOk result (edges_of edges.new ≡ edges_of edges.old ++ row ∷ []) }
    ensures edges_below { OnOk result (AreBelow (row.id + 1) edges.new.slots) }
    ensures own { HaveOwnIds edges.new }
    ensures rotations_stay { OnErr result (rotations.new.items ≡ rotations.old.items) }
    ensures edges_stay { OnErr result (edges.new.slots ≡ edges.old.slots) }
{
    edges.reserve(1)?;
    grow_rotations(alloc, rotations, row.a, position, row.id)?;
    put_edge(edges, row);
    Ok(())
}
