//! What a component's picture shows of its graph.

ghost use Rattle.std.specs.Prelude.{◌≡◌, ◌↔◌, IfOk, IsTrue};
ghost use Rattle.std.specs.List.{list_all};
ghost use Rattle.topo_shown.specs.Parts.{IsPart, agrees, has_all_numbers, may_have_its_crossings, shows_edge};

use std::alloc::{AllocError, Global};
use topo_core::limits::Limits;
use topo_core::rows::{EdgeRow, KINDS};
use topo_graph::{Graph, GraphEdge, Part};
use topo_price::table::PriceTable;
use topo_rows::load::judge;

/// Whether a row is this edge of the graph.
fn agrees_with(part: &Part, row: &EdgeRow, edge: &GraphEdge) -> bool
    ensures { result ≡ agrees part.now row.now edge.now }
{
    let vertices = part.vertices.as_slice();
    vertices.get(row.a as usize) == Some(&edge.a)
        && vertices.get(row.b as usize) == Some(&edge.b)
        && row.kind == edge.kind
}

/// Whether a row is the edge of the graph that it is said to be.
fn is_shown(edges: &[GraphEdge], part: &Part, row: &EdgeRow) -> bool
    ensures { result ≡ shows_edge edges.now part.now row.now }
{
    let Some(place) = part.edges.as_slice().get(row.id as usize) else {
        return false;
    };
    match edges.get(*place as usize) {
        Some(edge) => agrees_with(part, row, edge),
        None => false,
    }
}

/// Whether an edge has no crossing, or is of a kind that may be crossed.
fn is_free(prices: &PriceTable, row: &EdgeRow) -> bool
    ensures { result ≡ may_have_its_crossings prices.now row.now }
{
    if row.crossings.as_slice().is_empty() {
        return true;
    }
    (row.kind as usize) < KINDS && prices.price(row.kind as u8).is_some()
}

/// Whether all rows are the edges of the graph that they are said to be.
fn are_shown(edges: &[GraphEdge], part: &Part) -> bool
    ensures { result ≡ list_all (shows_edge edges.now part.now) part.now.rows.edges }
{
    part.rows
        .edges
        .as_slice()
        .iter()
        .all(|row| is_shown(edges, part, row))
}

/// Whether no edge that must not be crossed has a crossing.
fn are_free(prices: &PriceTable, edges: &[EdgeRow]) -> bool
    ensures { result ≡ list_all (may_have_its_crossings prices.now) edges.now }
{
    edges.iter().all(|row| is_free(prices, row))
}

/// Whether the lists of a part have a number for each vertex and each edge, and all ids are given.
fn is_full(part: &Part) -> bool
    ensures { result ≡ has_all_numbers part.now }
{
    let rows = &part.rows;
    part.vertices.len() == rows.rotations.len()
        && part.edges.len() == rows.edges.len()
        && rows.next_edge as usize == rows.edges.len()
        && rows.next_crossing as usize == rows.crossings.len()
}

/// Whether a picture is one of a part of the graph.
pub(crate) fn is_part(
    alloc: Global,
    limits: &Limits,
    graph: &Graph,
    prices: &PriceTable,
    part: &Part,
) -> Result<bool, AllocError>
    ensures { IfOk result (λ yes. IsTrue yes ↔ IsPart limits.now graph.now prices.now part.now) }
{
    if !is_full(part) || !are_shown(graph.edges(), part) {
        return Ok(false);
    }
    if !are_free(prices, part.rows.edges.as_slice()) {
        return Ok(false);
    }
    let judged = judge(alloc, limits, &part.rows)?;
    Ok(judged.is_ok())
}
