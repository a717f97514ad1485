//! Edges turned round, so that they lead as in the graph.

use crate::lists::{at, is_set};
use std::alloc::{AllocError, Global};
use topo_core::rows::{CrossRow, EdgeRow, Rows};
use topo_graph::GraphEdge;

/// Whether each of these rows leads from `b` to `a` of its edge. The list has the edge of each row.
fn turned_edges(
    alloc: Global,
    rows: &[EdgeRow],
    edges: &[u32],
    graph: &[GraphEdge],
) -> Result<Vec<bool>, AllocError> {
    let mut turned = Vec::with_capacity(alloc, rows.len())?;
    for row in rows {
        let is_turned = match graph.get(at(edges, row.id) as usize) {
            Some(edge) => row.a != edge.a,
            None => false,
        };
        turned.push(is_turned)?;
    }
    Ok(turned)
}

/// Turns an edge round.
fn turn(row: &mut EdgeRow) {
    let (a, b) = (row.a, row.b);
    row.a = b;
    row.b = a;
    row.crossings.as_vec_mut().reverse();
}

/// Turns these edges round.
fn turn_edges(rows: &mut [EdgeRow], turned: &[bool]) {
    for i in 0..rows.len() {
        if is_set(turned, rows[i].id) {
            turn(&mut rows[i]);
        }
    }
}

/// Changes the signs of the crossings of which one of the two edges was turned round.
fn turn_crossings(rows: &mut [CrossRow], turned: &[bool]) {
    for i in 0..rows.len() {
        let row = rows[i];
        if is_set(turned, row.crossed) != is_set(turned, row.newcomer) {
            rows[i].sign = row.sign.opposite();
        }
    }
}

/// Turns edges round, so that each leads from `a` to `b` of its edge in the graph. The rows have
/// ids from 0 on, and the list has the edge of each.
pub(crate) fn turn_as_in(
    alloc: Global,
    graph: &[GraphEdge],
    edges: &[u32],
    rows: &mut Rows,
) -> Result<(), AllocError> {
    let turned = turned_edges(alloc, rows.edges.as_slice(), edges, graph)?;
    turn_edges(rows.edges.as_vec_mut(), &turned);
    turn_crossings(rows.crossings.as_vec_mut(), &turned);
    Ok(())
}
