//! The components of a graph.

use std::alloc::{AllocError, Global};
use topo_graph::{Graph, GraphEdge, Part};

/// Where a list has no entry.
const NONE: u32 = u32::MAX;

/// A component that has an edge: its vertices and edges by their numbers in the graph, and its edges
/// between the places of their ends in the list of vertices.
#[derive(Drop)]
pub(crate) struct Component {
    pub vertices: Vec<u32>,
    pub edges: Vec<u32>,
    pub own_edges: Vec<GraphEdge>,
}

/// The components that have an edge, and the vertices that have none.
#[derive(Drop)]
pub(crate) struct Components {
    pub parts: Vec<Component>,
    pub others: Vec<u32>,
}

/// The entry at a place.
fn entry(list: &[u32], place: u32) -> u32 {
    match list.get(place as usize) {
        Some(found) => *found,
        None => NONE,
    }
}

/// Writes the entry at a place, where there is one.
fn put(list: &mut [u32], place: u32, value: u32) {
    let place = place as usize;
    if place < list.len() {
        list[place] = value;
    }
}

/// The component that a picture shows, with its edges in the order of the picture's rows.
fn component_of(alloc: Global, part: &Part) -> Result<Component, AllocError> {
    let rows = part.rows.edges.as_slice();
    let mut own_edges = Vec::with_capacity(alloc, rows.len())?;
    for row in rows {
        own_edges.push(GraphEdge {
            a: row.a,
            b: row.b,
            kind: row.kind,
        })?;
    }
    Ok(Component {
        vertices: Vec::from_slice(alloc, part.vertices.as_slice())?,
        edges: Vec::from_slice(alloc, part.edges.as_slice())?,
        own_edges,
    })
}

/// The components that pictures show, and the vertices that have no edge.
pub(crate) fn shown_components(
    alloc: Global,
    parts: &[Part],
    others: &[u32],
) -> Result<Components, AllocError> {
    let mut components = Vec::with_capacity(alloc, parts.len())?;
    for part in parts {
        components.push(component_of(alloc, part)?)?;
    }
    Ok(Components {
        parts: components,
        others: Vec::from_slice(alloc, others)?,
    })
}

/// The numbers below `count`.
fn numbers(alloc: Global, count: u32) -> Result<Vec<u32>, AllocError> {
    let mut list = Vec::with_capacity(alloc, count as usize)?;
    for number in 0..count {
        list.push(number)?;
    }
    Ok(list)
}

/// The vertex that stands for the group of a vertex. The way there becomes half as long.
fn group_of(groups: &mut [u32], vertex: u32) -> u32 {
    let mut at = vertex;
    for _ in 0..groups.len() {
        let above = entry(groups, at);
        if above == at {
            return at;
        }
        let next = entry(groups, above);
        put(groups, at, next);
        at = next;
    }
    at
}

/// Joins the groups of the ends of each edge.
fn join_ends(groups: &mut [u32], edges: &[GraphEdge]) {
    for edge in edges {
        let a = group_of(groups, edge.a);
        let b = group_of(groups, edge.b);
        put(groups, a, b);
    }
}

/// Numbers the groups that have an edge, and gives how many there are.
fn number_groups(numbers: &mut [u32], groups: &mut [u32], edges: &[GraphEdge]) -> u32 {
    let mut count = 0;
    for edge in edges {
        let group = group_of(groups, edge.a);
        if entry(numbers, group) == NONE && count < NONE {
            put(numbers, group, count);
            count += 1;
        }
    }
    count
}

/// So many components without anything.
fn empty_parts(alloc: Global, count: u32) -> Result<Vec<Component>, AllocError> {
    let mut parts = Vec::with_capacity(alloc, count as usize)?;
    for _ in 0..count {
        parts.push(Component {
            vertices: Vec::new(alloc),
            edges: Vec::new(alloc),
            own_edges: Vec::new(alloc),
        })?;
    }
    Ok(parts)
}

/// Adds a vertex to its component, and gives its place there.
fn add_vertex(parts: &mut [Component], part: u32, vertex: u32) -> Result<u32, AllocError> {
    let part = part as usize;
    if part >= parts.len() {
        return Ok(NONE);
    }
    let place = parts[part].vertices.len();
    parts[part].vertices.push(vertex)?;
    if place < NONE as usize {
        Ok(place as u32)
    } else {
        Ok(NONE)
    }
}

/// Adds an edge to its component.
fn add_edge(
    parts: &mut [Component],
    part: u32,
    number: u32,
    edge: GraphEdge,
) -> Result<(), AllocError> {
    let part = part as usize;
    if part < parts.len() {
        parts[part].edges.push(number)?;
        parts[part].own_edges.push(edge)?;
    }
    Ok(())
}

/// Puts each vertex into its component, or among the others, and gives the place of each there.
fn share_vertices(
    alloc: Global,
    found: &mut Components,
    of_group: &[u32],
    groups: &mut [u32],
    count: u32,
) -> Result<Vec<u32>, AllocError> {
    let mut places = Vec::with_capacity(alloc, groups.len())?;
    for vertex in 0..count {
        let part = entry(of_group, group_of(groups, vertex));
        if part == NONE {
            found.others.push(vertex)?;
        }
        let place = add_vertex(&mut found.parts, part, vertex)?;
        places.push(place)?;
    }
    Ok(places)
}

/// Puts each edge into the component of its ends.
fn share_edges(
    parts: &mut [Component],
    of_group: &[u32],
    groups: &mut [u32],
    places: &[u32],
    edges: &[GraphEdge],
) -> Result<(), AllocError> {
    let mut number = 0u32;
    for edge in edges {
        let part = entry(of_group, group_of(groups, edge.a));
        let own = GraphEdge {
            a: entry(places, edge.a),
            b: entry(places, edge.b),
            kind: edge.kind,
        };
        add_edge(parts, part, number, own)?;
        number = number.wrapping_add(1);
    }
    Ok(())
}

/// The components of a graph that have an edge, in the order of their first edges, and the vertices
/// that have none. (Sets that are joined, with halving of ways; Cormen and others, Introduction to
/// Algorithms, the chapter on disjoint sets.)
pub(crate) fn split_graph(alloc: Global, graph: &Graph) -> Result<Components, AllocError> {
    let mut groups = numbers(alloc, graph.vertices())?;
    join_ends(&mut groups, graph.edges());
    let mut of_group = vec![in alloc; NONE; groups.len()]?;
    let count = number_groups(&mut of_group, &mut groups, graph.edges());
    let mut found = Components {
        parts: empty_parts(alloc, count)?,
        others: Vec::new(alloc),
    };
    let places = share_vertices(alloc, &mut found, &of_group, &mut groups, graph.vertices())?;
    share_edges(
        &mut found.parts,
        &of_group,
        &mut groups,
        &places,
        graph.edges(),
    )?;
    Ok(found)
}
