//! What is seen of rows without knowing the routes: whether a picture falls apart without an edge,
//! found by loading what is left.

use std::alloc::{AllocError, Global};
use std::test::Fail;
use topo_core::limits::Limits;
use topo_core::listed::Listed;
use topo_core::rows::{CrossRow, EdgeRow, Rows};
use topo_picture::Picture;
use topo_rows::LoadFault;

/// The edges round a vertex but one, from the least on.
fn turned_to_least(alloc: Global, around: &[u32], e: u32) -> Result<Listed<u32>, AllocError> {
    let least = around.iter().copied().filter(|id| *id != e).min();
    let place = around.iter().position(|id| Some(*id) == least).unwrap_or(0);
    let (before, after) = around.split_at(place);
    let mut turned = Vec::new(alloc);
    for id in after.iter().chain(before) {
        if *id != e {
            turned.push(*id)?;
        }
    }
    Ok(Listed::from_vec(turned))
}

/// The edges round each vertex without one.
fn rotations_without(
    alloc: Global,
    rotations: &[Listed<u32>],
    e: u32,
) -> Result<Listed<Listed<u32>>, AllocError> {
    let mut left = Vec::new(alloc);
    for around in rotations {
        left.push(turned_to_least(alloc, around.as_slice(), e)?)?;
    }
    Ok(Listed::from_vec(left))
}

/// The crossings that are not on an edge.
fn crossings_without(
    alloc: Global,
    crossings: &[CrossRow],
    e: u32,
) -> Result<Listed<CrossRow>, AllocError> {
    let mut left = Vec::new(alloc);
    for row in crossings {
        if row.crossed != e && row.newcomer != e {
            left.push(*row)?;
        }
    }
    Ok(Listed::from_vec(left))
}

/// The crossings of a path that are left.
fn path_of(alloc: Global, path: &[u32], left: &[CrossRow]) -> Result<Listed<u32>, AllocError> {
    let mut ids = Vec::new(alloc);
    for id in path {
        if left.iter().any(|row| row.id == *id) {
            ids.push(*id)?;
        }
    }
    Ok(Listed::from_vec(ids))
}

/// The edges but one, with the crossings that are left.
fn edges_without(
    alloc: Global,
    edges: &[EdgeRow],
    e: u32,
    left: &[CrossRow],
) -> Result<Listed<EdgeRow>, AllocError> {
    let mut rows = Vec::new(alloc);
    for row in edges {
        if row.id != e {
            rows.push(EdgeRow {
                id: row.id,
                a: row.a,
                b: row.b,
                kind: row.kind,
                crossings: path_of(alloc, row.crossings.as_slice(), left)?,
            })?;
        }
    }
    Ok(Listed::from_vec(rows))
}

/// The rows without an edge and its crossings.
fn without(alloc: Global, rows: &Rows, e: u32) -> Result<Rows, AllocError> {
    let crossings = crossings_without(alloc, rows.crossings.as_slice(), e)?;
    Ok(Rows {
        rotations: rotations_without(alloc, rows.rotations.as_slice(), e)?,
        edges: edges_without(alloc, rows.edges.as_slice(), e, crossings.as_slice())?,
        crossings,
        next_edge: rows.next_edge,
        next_crossing: rows.next_crossing,
    })
}

/// Whether the rows without an edge are refused as not connected.
pub(crate) fn falls_apart(
    alloc: Global,
    limits: Limits,
    rows: &Rows,
    e: u32,
) -> Result<bool, Fail> {
    let left = without(alloc, rows, e)?;
    let loaded = Picture::load(alloc, limits, &left);
    drop(left);
    let falls = matches!(loaded, Err(LoadFault::NotConnected));
    drop(loaded);
    Ok(falls)
}
