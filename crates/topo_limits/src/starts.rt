//! Pictures at the limits to begin with. Their rows are made by functions and loaded.

use anyhow::Result;
use std::alloc::{AllocError, Global};
use topo_core::darts::Sign;
use topo_core::listed::Listed;
use topo_core::rows::{CrossRow, EdgeRow, Rows};
use topo_picture::Picture;
use topo_test_support::pictures::greatest_limits;

/// A chain of edges from vertex 0 in the middle to a vertex outside, the *ray*, and one edge from the
/// middle to the outside, which winds round and crosses the ray in each winding:
///
///        .---------------.
///        |  .---------.  |
///        |  |  .---.  |  |
///        |  |  * 0-x--x--x--*
///        |  |      |  |  |
///        |  '------'  |  |
///        |            |  *
///        '------------'
///
/// Ray edge k has id k and leads from vertex k to vertex k + 1. The edge that winds has the next id
/// and leads between the next two vertices. All crossings lie on the ray in the order of their ids,
/// the first ones on ray edge 0.
///
/// Between two windings lies one face, which begins left of the ray behind a crossing, and ends
/// right of the ray before the same crossing. To come from one face to the next a route crosses the
/// ray or the edge that winds. The darts of the ray come first, and where a vertex lies between two
/// crossings, the last segment of the ray edge before it. So the first route from vertex 0 to the
/// end of the ray crosses of each ray edge the segments 1, 2, .., but not the last of the last edge.
#[derive(Clone, Copy)]
pub(crate) struct Spiral {
    /// How many edges the ray has.
    pub parts: u32,
    /// How often each of them is crossed.
    pub each: u32,
    /// How far the ids of crossings lie apart: others between them are gone.
    pub stride: u32,
    /// How many ids of crossings were given.
    pub given: u32,
}

/// The picture that a row of a table begins with.
#[derive(Clone, Copy)]
pub(crate) enum Start {
    /// Two vertices and the edge 0 between them, after so many edge ids were given.
    Seed(u32),
    /// So many vertices, each joined to the next.
    Line(u32),
    /// So many vertices in a ring, each joined to the next, and the last to the first.
    Ring(u32),
    /// An edge that winds round and crosses a ray of one edge so often.
    Wound(u32),
    /// An edge that winds round and crosses a ray.
    Spiral(Spiral),
}

impl Start {
    /// How often each edge of the ray is crossed.
    pub(crate) fn each(&self) -> u32 {
        match self {
            Start::Wound(each) => *each,
            Start::Spiral(spiral) => spiral.each,
            _ => 1,
        }
    }

    /// The rows of the picture.
    pub(crate) fn rows(&self, alloc: Global) -> Result<Rows, AllocError> {
        match self {
            Start::Seed(given) => seed_rows(alloc, *given),
            Start::Line(vertices) => chain_rows(alloc, *vertices, vertices.saturating_sub(1)),
            Start::Ring(vertices) => chain_rows(alloc, *vertices, *vertices),
            Start::Wound(each) => Spiral::new(1, *each).rows(alloc),
            Start::Spiral(spiral) => spiral.rows(alloc),
        }
    }

    /// The picture within the greatest limits.
    pub(crate) fn picture(&self, alloc: Global) -> Result<Picture> {
        let rows = self.rows(alloc)?;
        let picture = Picture::load(alloc, greatest_limits(), &rows);
        drop(rows);
        Ok(picture?)
    }
}

/// A list of these numbers.
fn listed(alloc: Global, numbers: &[u32]) -> Result<Listed<u32>, AllocError> {
    Ok(Listed::from_vec(Vec::from_slice(alloc, numbers)?))
}

/// An edge of kind 0.
fn edge(id: u32, a: u32, b: u32, crossings: Listed<u32>) -> EdgeRow {
    EdgeRow {
        id,
        a,
        b,
        kind: 0,
        crossings,
    }
}

/// Two vertices and the edge 0 between them, after so many edge ids were given.
pub(crate) fn seed_rows(alloc: Global, given: u32) -> Result<Rows, AllocError> {
    let mut rotations = Vec::with_capacity(alloc, 2)?;
    rotations.push(listed(alloc, &[0])?)?;
    rotations.push(listed(alloc, &[0])?)?;
    let mut edges = Vec::with_capacity(alloc, 1)?;
    edges.push(edge(0, 0, 1, Listed::new(alloc)))?;
    Ok(Rows {
        rotations: Listed::from_vec(rotations),
        edges: Listed::from_vec(edges),
        crossings: Listed::new(alloc),
        next_edge: given,
        next_crossing: 0,
    })
}

/// The edges round a vertex of a chain: from the one before, to the next, and round a ring from the
/// last.
fn chained(alloc: Global, v: u32, vertices: u32, edges: u32) -> Result<Listed<u32>, AllocError> {
    let mut around = Vec::with_capacity(alloc, 2)?;
    if v > 0 {
        around.push(v - 1)?;
    }
    if v < edges {
        around.push(v)?;
    }
    if v == 0 && edges == vertices {
        around.push(edges.saturating_sub(1))?;
    }
    Ok(Listed::from_vec(around))
}

/// The edges round each vertex of a chain.
fn chain_rotations(
    alloc: Global,
    vertices: u32,
    edges: u32,
) -> Result<Listed<Listed<u32>>, AllocError> {
    let mut rotations = Vec::with_capacity(alloc, vertices as usize)?;
    for v in 0..vertices {
        rotations.push(chained(alloc, v, vertices, edges)?)?;
    }
    Ok(Listed::from_vec(rotations))
}

/// The edges of a chain: each leads from the vertex of its number to the next one, or to the first.
fn chain_edges(alloc: Global, vertices: u32, edges: u32) -> Result<Listed<EdgeRow>, AllocError> {
    let mut rows = Vec::with_capacity(alloc, edges as usize)?;
    for id in 0..edges {
        let next = id.saturating_add(1);
        let b = if next < vertices { next } else { 0 };
        rows.push(edge(id, id, b, Listed::new(alloc)))?;
    }
    Ok(Listed::from_vec(rows))
}

/// So many vertices, each joined to the next, by so many edges.
fn chain_rows(alloc: Global, vertices: u32, edges: u32) -> Result<Rows, AllocError> {
    Ok(Rows {
        rotations: chain_rotations(alloc, vertices, edges)?,
        edges: chain_edges(alloc, vertices, edges)?,
        crossings: Listed::new(alloc),
        next_edge: edges,
        next_crossing: 0,
    })
}

/// The ids of crossings, so many from one on.
fn ids_from(alloc: Global, first: u32, count: u32, stride: u32) -> Result<Listed<u32>, AllocError> {
    let mut ids = Vec::with_capacity(alloc, count as usize)?;
    let mut id = first;
    for _ in 0..count {
        ids.push(id)?;
        id = id.saturating_add(stride);
    }
    Ok(Listed::from_vec(ids))
}

impl Spiral {
    /// A ray of so many edges, each of which is crossed so often, with all ids of crossings there.
    pub(crate) fn new(parts: u32, each: u32) -> Self {
        Spiral {
            parts,
            each,
            stride: 1,
            given: parts.saturating_mul(each),
        }
    }

    /// How often the edge that winds crosses the ray.
    pub(crate) fn windings(&self) -> u32 {
        self.parts.saturating_mul(self.each)
    }

    /// The id of the first crossing of a ray edge.
    fn first_on(&self, part: u32) -> u32 {
        part.saturating_mul(self.each).saturating_mul(self.stride)
    }

    /// The ray, and the edge that winds.
    fn edges(&self, alloc: Global) -> Result<Listed<EdgeRow>, AllocError> {
        let mut rows = Vec::new(alloc);
        for k in 0..self.parts {
            let path = ids_from(alloc, self.first_on(k), self.each, self.stride)?;
            rows.push(edge(k, k, k.saturating_add(1), path))?;
        }
        let path = ids_from(alloc, 0, self.windings(), self.stride)?;
        let a = self.parts.saturating_add(1);
        rows.push(edge(self.parts, a, a.saturating_add(1), path))?;
        Ok(Listed::from_vec(rows))
    }

    /// The edges round the vertices of the ray, and round the ends of the edge that winds.
    fn rotations(&self, alloc: Global) -> Result<Listed<Listed<u32>>, AllocError> {
        let mut rotations = Vec::new(alloc);
        for v in 0..self.parts.saturating_add(1) {
            rotations.push(chained(alloc, v, u32::MAX, self.parts)?)?;
        }
        rotations.push(listed(alloc, &[self.parts])?)?;
        rotations.push(listed(alloc, &[self.parts])?)?;
        Ok(Listed::from_vec(rotations))
    }

    /// The crossings: in each the edge that winds passes from left to right of the ray.
    fn crossings(&self, alloc: Global) -> Result<Listed<CrossRow>, AllocError> {
        let mut rows = Vec::with_capacity(alloc, self.windings() as usize)?;
        let mut id = 0u32;
        for crossed in 0..self.parts {
            for _ in 0..self.each {
                rows.push(CrossRow {
                    id,
                    crossed,
                    newcomer: self.parts,
                    sign: Sign::LeftToRight,
                })?;
                id = id.saturating_add(self.stride);
            }
        }
        Ok(Listed::from_vec(rows))
    }

    /// The rows of the picture.
    pub(crate) fn rows(&self, alloc: Global) -> Result<Rows, AllocError> {
        Ok(Rows {
            rotations: self.rotations(alloc)?,
            edges: self.edges(alloc)?,
            crossings: self.crossings(alloc)?,
            next_edge: self.parts.saturating_add(1),
            next_crossing: self.given,
        })
    }
}
