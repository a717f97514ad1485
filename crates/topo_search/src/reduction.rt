//! A graph made smaller: leaves are left out, and a path whose edges are of one kind is one edge.
//!
//! It has pictures with as few crossings as the whole graph has: a leaf can be drawn close to its
//! vertex, and a crossing on one edge of such a path could as well be on another.

use crate::board::is_too_large;
use crate::groups::Groups;
use crate::lists::{NONE, append, at, equal_items, is_set, length_of, set};
use std::alloc::{AllocError, Global};
use topo_graph::GraphEdge;

/// A vertex that has one edge, once those before it are left out, and that edge.
#[derive(Clone, Copy)]
pub(crate) struct Leaf {
    pub vertex: u32,
    pub edge: u32,
}

/// How a smaller graph came of a whole one.
#[derive(Drop)]
pub(crate) struct Reduction {
    /// How many vertices the whole graph has, and its edges.
    pub vertices: usize,
    pub edges: Vec<GraphEdge>,
    /// The vertex of the whole graph that each vertex is.
    pub kept: Vec<u32>,
    /// The path in the whole graph that each edge is, from its `a` to its `b`.
    pub paths: Groups,
    /// The vertices that were left out, the last one first.
    pub leaves: Vec<Leaf>,
}

/// What is left at a vertex: how many edges, and their places by exclusive or, so that one edge is
/// known, and of two edges each by the other.
#[derive(Clone, Copy)]
struct Left {
    count: u32,
    places: u32,
}

impl Left {
    const NONE: Left = Left {
        count: 0,
        places: 0,
    };
}

/// A graph while it is made smaller.
#[derive(Drop)]
struct Rest {
    edges: Vec<GraphEdge>,
    /// How many edges are left.
    count: u32,
    left: Vec<Left>,
    /// For each edge whether it was left out or is on a path.
    is_done: Vec<bool>,
    /// For each vertex whether it is inside a path.
    is_inner: Vec<bool>,
    leaves: Vec<Leaf>,
    paths: Groups,
    /// The first and the last vertex of each path, and its kind.
    ends: Vec<GraphEdge>,
}

/// The other end of an edge.
pub(crate) fn other_end(edge: GraphEdge, vertex: u32) -> u32 {
    if edge.a == vertex { edge.b } else { edge.a }
}

/// Adds an edge to those left at a vertex, or takes it from them.
fn note_at(left: &mut [Left], vertex: u32, edge: u32, is_left: bool) {
    let vertex = vertex as usize;
    if vertex < left.len() {
        let Left { count, places } = left[vertex];
        left[vertex] = Left {
            count: if is_left {
                count.saturating_add(1)
            } else {
                count.saturating_sub(1)
            },
            places: places ^ edge,
        };
    }
}

/// The edges at each vertex.
fn all_left(alloc: Global, vertices: usize, edges: &[GraphEdge]) -> Result<Vec<Left>, AllocError> {
    let mut left = equal_items(alloc, vertices, Left::NONE)?;
    for place in 0..length_of(edges) {
        if let Some(edge) = edges.get(place as usize) {
            note_at(&mut left, edge.a, place, true);
            note_at(&mut left, edge.b, place, true);
        }
    }
    Ok(left)
}

impl Rest {
    /// A graph of which nothing was left out.
    fn new(alloc: Global, vertices: usize, edges: Vec<GraphEdge>) -> Result<Self, AllocError> {
        let left = all_left(alloc, vertices, &edges)?;
        let is_done = equal_items(alloc, edges.len(), false)?;
        Ok(Rest {
            count: length_of(&edges),
            edges,
            left,
            is_done,
            is_inner: equal_items(alloc, vertices, false)?,
            leaves: Vec::new(alloc),
            paths: Groups::new(alloc)?,
            ends: Vec::new(alloc),
        })
    }

    /// What is left at a vertex.
    fn left_at(&self, vertex: u32) -> Left {
        match self.left.get(vertex as usize) {
            Some(left) => *left,
            None => Left::NONE,
        }
    }

    /// An edge that was neither left out nor is on a path yet.
    fn edge_left(&self, place: u32) -> Option<GraphEdge> {
        if is_set(&self.is_done, place) {
            return None;
        }
        self.edges.get(place as usize).copied()
    }

    /// The vertices with one edge.
    fn first_leaves(&self, alloc: Global) -> Result<Vec<u32>, AllocError> {
        let mut leaves = Vec::new(alloc);
        for vertex in 0..length_of(&self.left) {
            if self.left_at(vertex).count == 1 {
                leaves.push(vertex)?;
            }
        }
        Ok(leaves)
    }

    /// Leaves a vertex out that has one edge, and answers the other end of that.
    fn leave_out(&mut self, vertex: u32) -> Result<Option<u32>, AllocError> {
        let Left {
            count,
            places: place,
        } = self.left_at(vertex);
        let Some(edge) = self.edges.get(place as usize).copied() else {
            return Ok(None);
        };
        if count != 1 || self.count <= 1 {
            return Ok(None);
        }
        let other = other_end(edge, vertex);
        note_at(&mut self.left, vertex, place, false);
        note_at(&mut self.left, other, place, false);
        set(&mut self.is_done, place, true);
        self.count = self.count.saturating_sub(1);
        self.leaves.push(Leaf {
            vertex,
            edge: place,
        })?;
        Ok(Some(other))
    }

    /// Leaves out all vertices with one edge, until there is none or one edge is left.
    fn leave_out_leaves(&mut self, alloc: Global) -> Result<(), AllocError> {
        let mut waiting = self.first_leaves(alloc)?;
        for _ in 0..self.left.len() {
            let Some(vertex) = waiting.pop() else {
                break;
            };
            if let Some(other) = self.leave_out(vertex)? {
                if self.left_at(other).count == 1 {
                    append(&mut waiting, other)?;
                }
            }
        }
        Ok(())
    }

    /// Notes where an edge and the other one at a vertex of two are of one kind.
    fn note_inner(&mut self, vertex: u32, place: u32, kind: u32) {
        let Left { count, places } = self.left_at(vertex);
        if count == 2 {
            if let Some(other) = self.edges.get((places ^ place) as usize) {
                let is_inner = other.kind == kind;
                set(&mut self.is_inner, vertex, is_inner);
            }
        }
    }

    /// Notes which vertices are inside paths, and says whether some are.
    fn note_inners(&mut self) -> bool {
        for place in 0..length_of(&self.edges) {
            if let Some(edge) = self.edge_left(place) {
                self.note_inner(edge.a, place, edge.kind);
                self.note_inner(edge.b, place, edge.kind);
            }
        }
        self.is_inner.iter().any(|is_inner| *is_inner)
    }

    /// The next edge and vertex on a path that has come to this vertex by this edge; none where the
    /// path ends there.
    fn next_on_path(&self, vertex: u32, place: u32) -> Option<(u32, u32)> {
        if !is_set(&self.is_inner, vertex) {
            return None;
        }
        let next = self.left_at(vertex).places ^ place;
        let edge = self.edges.get(next as usize)?;
        Some((other_end(*edge, vertex), next))
    }

    /// The first vertex and the first edge of the path that this edge is on. A path that runs
    /// round begins with this edge.
    fn begin_of(&self, place: u32, edge: GraphEdge) -> (u32, u32) {
        let (mut vertex, mut first) = (edge.a, place);
        for _ in 0..self.edges.len() {
            let Some((before, next)) = self.next_on_path(vertex, first) else {
                break;
            };
            if next == place {
                return (edge.a, place);
            }
            vertex = before;
            first = next;
        }
        (vertex, first)
    }

    /// Goes along a path, which begins with this edge at this vertex, and answers its last vertex.
    fn follow(&mut self, vertex: u32, place: u32, edge: GraphEdge) -> Result<u32, AllocError> {
        let (mut end, mut last) = (other_end(edge, vertex), place);
        for _ in 0..self.edges.len() {
            self.paths.push(last)?;
            set(&mut self.is_done, last, true);
            let Some((behind, next)) = self.next_on_path(end, last) else {
                break;
            };
            end = behind;
            last = next;
        }
        Ok(end)
    }

    /// Makes the path that begins with this edge at this vertex an edge. Where it runs round, it
    /// makes two edges of it, for an edge has two ends.
    fn take_path(&mut self, vertex: u32, place: u32, edge: GraphEdge) -> Result<(), AllocError> {
        // It ends there, also where it runs round.
        set(&mut self.is_inner, vertex, false);
        let kind = edge.kind;
        let mut begin = vertex;
        let end = self.follow(vertex, place, edge)?;
        if begin == end {
            let second = other_end(edge, vertex);
            set(&mut self.is_inner, second, false);
            self.paths.close_first()?;
            self.ends.push(GraphEdge {
                a: begin,
                b: second,
                kind,
            })?;
            begin = second;
        } else {
            self.paths.close()?;
        }
        self.ends.push(GraphEdge {
            a: begin,
            b: end,
            kind,
        })?;
        Ok(())
    }

    /// Makes each path an edge, in the order of their first edges.
    fn take_paths(&mut self) -> Result<(), AllocError> {
        for place in 0..length_of(&self.edges) {
            if let Some(edge) = self.edge_left(place) {
                let (vertex, first) = self.begin_of(place, edge);
                if let Some(edge) = self.edges.get(first as usize).copied() {
                    self.take_path(vertex, first, edge)?;
                }
            }
        }
        Ok(())
    }

    /// The vertices that are neither left out nor inside a path.
    fn kept(&self, alloc: Global) -> Result<Vec<u32>, AllocError> {
        let mut is_out = equal_items(alloc, self.left.len(), false)?;
        for leaf in &self.leaves {
            set(&mut is_out, leaf.vertex, true);
        }
        let mut kept = Vec::new(alloc);
        for vertex in 0..length_of(&self.left) {
            if !is_set(&is_out, vertex) && !is_set(&self.is_inner, vertex) {
                kept.push(vertex)?;
            }
        }
        Ok(kept)
    }
}

/// Names the ends of edges by the places of vertices in a list.
fn renumber(
    alloc: Global,
    vertices: usize,
    kept: &[u32],
    edges: &mut [GraphEdge],
) -> Result<(), AllocError> {
    let mut places = equal_items(alloc, vertices, NONE)?;
    for place in 0..length_of(kept) {
        set(&mut places, at(kept, place), place);
    }
    for i in 0..edges.len() {
        let GraphEdge { a, b, kind } = edges[i];
        edges[i] = GraphEdge {
            a: at(&places, a),
            b: at(&places, b),
            kind,
        };
    }
    Ok(())
}

/// A graph made smaller: how many vertices it has and its edges, and how it came of the whole one.
/// Where nothing makes it smaller, or it is too large for a picture, it is the whole graph.
pub(crate) fn reduced(
    alloc: Global,
    vertices: usize,
    edges: Vec<GraphEdge>,
) -> Result<(usize, Vec<GraphEdge>, Option<Reduction>), AllocError> {
    if is_too_large(vertices, edges.len()) {
        return Ok((vertices, edges, None));
    }
    let mut rest = Rest::new(alloc, vertices, edges)?;
    rest.leave_out_leaves(alloc)?;
    if !rest.note_inners() && rest.leaves.is_empty() {
        let Rest { edges, .. } = rest;
        return Ok((vertices, edges, None));
    }
    rest.take_paths()?;
    let kept = rest.kept(alloc)?;
    let Rest {
        edges: whole,
        mut leaves,
        paths,
        mut ends,
        ..
    } = rest;
    leaves.reverse();
    renumber(alloc, vertices, &kept, &mut ends)?;
    let count = kept.len();
    let reduction = Reduction {
        vertices,
        edges: whole,
        kept,
        paths,
        leaves,
    };
    Ok((count, ends, Some(reduction)))
}
