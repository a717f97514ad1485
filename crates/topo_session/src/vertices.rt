//! What a session answers about a vertex.

ghost use Rattle.std.specs.Prelude.{◌≡◌, IfOk, map, true};
ghost use Rattle.topo_session.specs.Questions.{end_at, vertex_asked};

use std::alloc::{AllocError, Global};
use topo_core::listed::Listed;
use topo_kept_rows::{KeptRows, Rotation};

/// An end of an edge.
#[derive(Clone, Copy, Debug, PartialEq, Eq)]
pub enum End {
    A,
    B,
}

/// The edges round a vertex, clockwise, and for each of them which of its ends is there.
#[derive(Drop, Debug)]
pub struct VertexAnswer {
    pub edges: Listed<u32>,
    pub ends: Listed<End>,
}

/// Which end of edge `e` is at `v`.
fn end_at(rows: &KeptRows, v: u32, e: u32) -> End
    ensures { result ≡ end_at rows.now v e }
{
    match rows.edge(e) {
        Some(edge) if edge.a == v => End::A,
        _ => End::B,
    }
}

/// The edges of a rotation.
fn edges_of(alloc: Global, around: &Rotation) -> Result<Listed<u32>, AllocError>
    ensures { IfOk result (λ edges. edges ≡ around.now) }
{
    let mut edges = Vec::with_capacity(alloc, around.len())?;
    for position in 0..around.len() {
        edges.push(around.at(position))?;
    }
    Ok(Listed::from_vec(edges))
}

/// The ends of these edges at `v`.
fn ends_at(alloc: Global, rows: &KeptRows, v: u32, edges: &[u32]) -> Result<Listed<End>, AllocError>
    ensures { IfOk result (λ ends. ends ≡ map (end_at rows.now v) edges.now) }
{
    let mut ends = Vec::with_capacity(alloc, edges.len())?;
    for e in edges {
        ends.push(end_at(rows, v, *e))?;
    }
    Ok(Listed::from_vec(ends))
}

/// The edges round a vertex of these rows, clockwise; none where it is no vertex.
pub(crate) fn vertex_asked(
    alloc: Global,
    rows: &KeptRows,
    v: u32,
) -> Result<Option<VertexAnswer>, AllocError>
    ensures { IfOk result (λ found. found ≡ vertex_asked rows.now v) }
{
    let Some(around) = rows.rotations().get(v as usize) else {
        return Ok(None);
    };
    let edges = edges_of(alloc, around)?;
    let ends = ends_at(alloc, rows, v, edges.as_slice())?;
    Ok(Some(VertexAnswer { edges, ends }))
}
