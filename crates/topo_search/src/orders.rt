//! The beginning of an order: a picture of a planar part of the graph.

use crate::board::{Board, is_too_large};
use crate::graph::Graph;
use crate::lists::{at, equal_items, first_numbers, is_set, key_of, length_of, ordered_by, set};
use crate::search::SearchFault;
use std::alloc::{AllocError, Global};
use topo_core::listed::Listed;
use topo_core::rows::{EdgeRow, MAX_PRICE, Rows};
use topo_left_right::{PlanarPart, by_short_cycles, planar_part};
use topo_price::tariff::PriceFn;

/// What the beginning of an order costs for each edge, in faces looked at.
const COST_OF_EDGE: u64 = 50;

/// A list of edges, those first that must not be crossed, then the dearest.
fn dearest_first(alloc: Global, graph: &Graph, edges: Vec<u32>) -> Result<Vec<u32>, AllocError> {
    if graph.is_plain {
        return Ok(edges);
    }
    let mut keys = Vec::with_capacity(alloc, edges.len())?;
    for place in 0..length_of(&edges) {
        let rank = match graph.price(at(&edges, place)) {
            Some(price) => 1 + MAX_PRICE.saturating_sub(price),
            None => 0,
        };
        keys.push(key_of(rank, place))?;
    }
    ordered_by(alloc, &edges, &mut keys)
}

/// The edges in the order in which they are to be in the planar part: those on short cycles first.
/// Where cycles are as long they go as in the graph, or in random order.
fn order_of<F: PriceFn>(
    alloc: Global,
    board: &mut Board<F>,
    is_random: bool,
) -> Result<Vec<u32>, AllocError> {
    let mut first = first_numbers(alloc, board.graph.edge_count())?;
    if is_random {
        board.random.shuffle(&mut first);
    }
    let graph = &board.graph;
    let order = by_short_cycles(alloc, graph.vertices, &graph.ends, &first)?;
    dearest_first(alloc, graph, order)
}

/// Turns a list so that it begins with its least number.
fn begin_with_least(list: &mut Vec<u32>) {
    let mut least = 0;
    for place in 0..list.len() {
        if least < list.len() && list[place] < list[least] {
            least = place;
        }
    }
    if least < list.len() {
        list.rotate_left(least);
    }
}

/// Lists round vertices, each from its least edge on.
pub(crate) fn rotations_of(
    alloc: Global,
    lists: Vec<Vec<u32>>,
) -> Result<Listed<Listed<u32>>, AllocError> {
    let mut rotations = Vec::with_capacity(alloc, lists.len())?;
    for mut list in lists {
        begin_with_least(&mut list);
        rotations.push(Listed::from_vec(list))?;
    }
    Ok(Listed::from_vec(rotations))
}

/// Whether each edge is in a list.
fn are_in(alloc: Global, edges: u32, list: &[u32]) -> Result<Vec<bool>, AllocError> {
    let mut are = equal_items(alloc, edges as usize, false)?;
    for edge in list {
        set(&mut are, *edge, true);
    }
    Ok(are)
}

/// The rows of the edges that are not left out. Their ids are their places in the graph.
fn edge_rows(
    alloc: Global,
    graph: &Graph,
    left_out: &[u32],
) -> Result<Listed<EdgeRow>, AllocError> {
    let is_out = are_in(alloc, graph.edge_count(), left_out)?;
    let mut rows = Vec::with_capacity(alloc, graph.edges.len())?;
    for id in 0..graph.edge_count() {
        if let (false, Some(edge)) = (is_set(&is_out, id), graph.edge(id)) {
            rows.push(EdgeRow {
                id,
                a: edge.a,
                b: edge.b,
                kind: edge.kind,
                crossings: Listed::new(alloc),
            })?;
        }
    }
    Ok(Listed::from_vec(rows))
}

/// The rows of a planar part, and the edges that it leaves out.
fn rows_of(alloc: Global, graph: &Graph, part: PlanarPart) -> Result<(Rows, Vec<u32>), AllocError> {
    let PlanarPart {
        rotations,
        left_out,
    } = part;
    let edges = edge_rows(alloc, graph, &left_out)?;
    let rows = Rows {
        rotations: rotations_of(alloc, rotations)?,
        edges,
        crossings: Listed::new(alloc),
        next_edge: graph.edge_count(),
        next_crossing: 0,
    };
    Ok((rows, left_out))
}

/// Makes a planar part of the graph the picture, and answers the other edges in random order.
pub(crate) fn begin_order<F: PriceFn>(
    alloc: Global,
    board: &mut Board<F>,
    is_random: bool,
) -> Result<Vec<u32>, SearchFault> {
    if is_too_large(board.graph.vertices, board.graph.edges.len()) {
        return Err(SearchFault::TooLarge);
    }
    let order = order_of(alloc, board, is_random)?;
    let graph = &board.graph;
    let part = planar_part(alloc, graph.vertices, &graph.ends, &order)?;
    let (rows, mut left_out) = rows_of(alloc, graph, part)?;
    let all = first_numbers(alloc, graph.edge_count())?;
    board.load(alloc, &rows, &all, 0)?;
    for edge in &left_out {
        board.ids.forget(*edge);
    }
    board.random.shuffle(&mut left_out);
    let edges = board.graph.edge_count() as u64;
    board.spent = board
        .spent
        .saturating_add(edges.saturating_mul(COST_OF_EDGE));
    Ok(left_out)
}

/// The first edge of a list that must not be crossed.
pub(crate) fn first_forbidden(graph: &Graph, edges: &[u32]) -> Option<u32> {
    for edge in edges {
        if graph.price(*edge).is_none() {
            return Some(*edge);
        }
    }
    None
}
