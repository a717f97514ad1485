//! The graph, as the search reads it.

use crate::lists::{is_set, length_of};
use std::alloc::{AllocError, Global};
use topo_core::rows::{CrossRow, KINDS, Rows};
use topo_graph::GraphEdge;
use topo_left_right::{Ends, bridges};
use topo_price::tariff::{PriceFn, Tariff};

/// A connected graph. Edges are named by their places.
#[derive(Drop)]
pub(crate) struct Graph {
    pub vertices: usize,
    pub edges: Vec<GraphEdge>,
    /// The ends of each edge, without its kind.
    pub ends: Vec<Ends>,
    /// For each vertex its edges.
    around: Vec<Vec<u32>>,
    /// For each edge what it costs to cross it; none where that is forbidden.
    prices: Vec<Option<u32>>,
    /// Whether all edges cost 1.
    pub is_plain: bool,
    /// For each edge whether it is a bridge.
    bridges: Vec<bool>,
}

/// The price of a kind. It counts as 1 where it is not known by the kind alone.
fn price_of<F: PriceFn>(tariff: &Tariff<F>, kind: u32) -> Option<u32> {
    if kind as usize >= KINDS {
        return None;
    }
    match tariff.price_of_kind(kind as u8) {
        Some(price) => price,
        None => Some(1),
    }
}

/// The ends of edges.
fn ends_of(alloc: Global, edges: &[GraphEdge]) -> Result<Vec<Ends>, AllocError> {
    let mut ends = Vec::with_capacity(alloc, edges.len())?;
    for edge in edges {
        ends.push(Ends {
            a: edge.a,
            b: edge.b,
        })?;
    }
    Ok(ends)
}

/// The prices of edges.
fn prices_of<F: PriceFn>(
    alloc: Global,
    edges: &[GraphEdge],
    tariff: &Tariff<F>,
) -> Result<Vec<Option<u32>>, AllocError> {
    let mut prices = Vec::with_capacity(alloc, edges.len())?;
    for edge in edges {
        prices.push(price_of(tariff, edge.kind))?;
    }
    Ok(prices)
}

/// What a crossing costs: the product of the prices of its edges.
fn cost_at(graph: &Graph, crossing: &CrossRow) -> u64 {
    let crossed = graph.price(crossing.crossed).unwrap_or(1) as u64;
    let newcomer = graph.price(crossing.newcomer).unwrap_or(1) as u64;
    crossed.saturating_mul(newcomer)
}

/// What the crossings of rows cost, whose edge ids are places in the graph.
pub(crate) fn cost_of_rows(graph: &Graph, rows: &Rows) -> u64 {
    let mut cost: u64 = 0;
    for crossing in rows.crossings.as_slice() {
        cost = cost.saturating_add(cost_at(graph, crossing));
    }
    cost
}

/// So many empty lists.
pub(crate) fn empty_lists(alloc: Global, count: usize) -> Result<Vec<Vec<u32>>, AllocError> {
    let mut lists = Vec::with_capacity(alloc, count)?;
    for _ in 0..count {
        lists.push(Vec::new(alloc))?;
    }
    Ok(lists)
}

/// Puts an edge into the list of a vertex.
pub(crate) fn list_at(lists: &mut [Vec<u32>], vertex: u32, edge: u32) -> Result<(), AllocError> {
    let place = vertex as usize;
    if place < lists.len() {
        lists[place].push(edge)?;
    }
    Ok(())
}

/// Puts each edge into the lists of its ends.
fn list_edges(lists: &mut [Vec<u32>], ends: &[Ends]) -> Result<(), AllocError> {
    for edge in 0..length_of(ends) {
        if let Some(ends) = ends.get(edge as usize) {
            list_at(lists, ends.a, edge)?;
            list_at(lists, ends.b, edge)?;
        }
    }
    Ok(())
}

impl Graph {
    /// The graph with these edges, at these prices.
    pub(crate) fn new<F: PriceFn>(
        alloc: Global,
        vertices: usize,
        edges: Vec<GraphEdge>,
        tariff: &Tariff<F>,
    ) -> Result<Self, AllocError> {
        let ends = ends_of(alloc, &edges)?;
        let prices = prices_of(alloc, &edges, tariff)?;
        let bridges = bridges(alloc, vertices, &ends)?;
        let mut around = empty_lists(alloc, vertices)?;
        list_edges(&mut around, &ends)?;
        let is_plain = prices.iter().all(|price| *price == Some(1));
        Ok(Graph {
            vertices,
            edges,
            ends,
            around,
            prices,
            is_plain,
            bridges,
        })
    }

    /// How many edges there are.
    pub(crate) fn edge_count(&self) -> u32 {
        length_of(&self.edges)
    }

    /// An edge, where it is one.
    pub(crate) fn edge(&self, edge: u32) -> Option<GraphEdge> {
        self.edges.get(edge as usize).copied()
    }

    /// What it costs to cross an edge; none where that is forbidden.
    pub(crate) fn price(&self, edge: u32) -> Option<u32> {
        match self.prices.get(edge as usize) {
            Some(price) => *price,
            None => None,
        }
    }

    /// Whether a picture may do without an edge for a time: it may be crossed, and the graph is
    /// connected without it.
    pub(crate) fn is_movable(&self, edge: u32) -> bool {
        self.price(edge).is_some() && !is_set(&self.bridges, edge)
    }

    /// Adds the edges of a vertex to a list.
    pub(crate) fn add_edges_of(&self, vertex: u32, list: &mut Vec<u32>) -> Result<(), AllocError> {
        if let Some(edges) = self.around.get(vertex as usize) {
            list.extend_from_slice(edges)?;
        }
        Ok(())
    }
}
