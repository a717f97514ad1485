//! The picture of a whole graph, from one of the graph made smaller.

use crate::graph::{empty_lists, list_at};
use crate::lists::{at, length_of};
use crate::orders::rotations_of;
use crate::reduction::{Leaf, Reduction, other_end};
use crate::turning::turn_as_in;
use std::alloc::{AllocError, Global};
use topo_core::listed::Listed;
use topo_core::rows::{CrossRow, EdgeRow, Rows};
use topo_graph::GraphEdge;

/// The rows of the whole graph while they are written. Its edges are numbered along each path, in
/// the order of the rows of the smaller graph, and then come those of leaves.
#[derive(Drop)]
struct Expanding {
    rotations: Vec<Vec<u32>>,
    edges: Vec<EdgeRow>,
    crossings: Vec<CrossRow>,
    /// The edge of the whole graph that each row is of.
    places: Vec<u32>,
}

/// The first of so many crossings on a path that is on this edge or behind it, of so many edges.
fn share(crossings: usize, edges: usize, edge: usize) -> usize {
    crossings.saturating_mul(edge) / edges.max(1)
}

/// The crossings on this edge of a path: each edge takes as many as the others, or one more.
fn crossings_on(crossings: &[u32], edges: usize, edge: usize) -> &[u32] {
    let count = crossings.len();
    let begin = share(count, edges, edge);
    let end = share(count, edges, edge.saturating_add(1));
    crossings.get(begin..end).unwrap_or(&[])
}

/// Names another edge at some crossings, in place of this one. `old` has the crossings with the
/// edges of before.
fn rename(crossings: &mut [CrossRow], old: &[CrossRow], at: &[u32], edge: u32, new: u32) {
    for id in at {
        let place = *id as usize;
        if place < crossings.len() && place < old.len() {
            if old[place].crossed == edge {
                crossings[place].crossed = new;
            } else {
                crossings[place].newcomer = new;
            }
        }
    }
}

impl Expanding {
    /// The crossings, and nothing else yet.
    fn new(alloc: Global, reduction: &Reduction, rows: &Rows) -> Result<Self, AllocError> {
        let edges = reduction.edges.len();
        Ok(Expanding {
            rotations: empty_lists(alloc, reduction.vertices)?,
            edges: Vec::with_capacity(alloc, edges)?,
            crossings: Vec::from_slice(alloc, rows.crossings.as_slice())?,
            places: Vec::with_capacity(alloc, edges)?,
        })
    }

    /// How many edges have their rows.
    fn count(&self) -> u32 {
        length_of(&self.places)
    }

    /// Writes the row of an edge with these ends and crossings, which is at this place in the whole
    /// graph.
    fn add(
        &mut self,
        alloc: Global,
        place: u32,
        ends: GraphEdge,
        crossings: &[u32],
    ) -> Result<(), AllocError> {
        let id = self.count();
        let crossings = Listed::from_vec(Vec::from_slice(alloc, crossings)?);
        let GraphEdge { a, b, kind } = ends;
        self.edges.push(EdgeRow {
            id,
            a,
            b,
            kind,
            crossings,
        })?;
        self.places.push(place)?;
        Ok(())
    }

    /// Writes the rows of a path, and the rotations of the vertices inside it.
    fn add_path(
        &mut self,
        alloc: Global,
        reduction: &Reduction,
        row: &EdgeRow,
        old: &[CrossRow],
        path: &[u32],
    ) -> Result<(), AllocError> {
        let mut vertex = at(&reduction.kept, row.a);
        for i in 0..path.len() {
            let place = path[i];
            let Some(edge) = reduction.edges.get(place as usize).copied() else {
                break;
            };
            let next = other_end(edge, vertex);
            let id = self.count();
            let crossings = crossings_on(row.crossings.as_slice(), path.len(), i);
            rename(&mut self.crossings, old, crossings, row.id, id);
            let ends = GraphEdge {
                a: vertex,
                b: next,
                kind: edge.kind,
            };
            self.add(alloc, place, ends, crossings)?;
            if i > 0 {
                list_at(&mut self.rotations, vertex, id)?;
            }
            if i + 1 < path.len() {
                list_at(&mut self.rotations, next, id)?;
            }
            vertex = next;
        }
        Ok(())
    }

    /// Writes the rotation of a vertex of the smaller graph. `firsts` has the id of the first edge
    /// of each path, and of what comes behind the last one.
    fn turn_at(
        &mut self,
        vertex: u32,
        rows: &Rows,
        firsts: &[u32],
        kept: u32,
    ) -> Result<(), AllocError> {
        let Some(around) = rows.rotations.as_slice().get(vertex as usize) else {
            return Ok(());
        };
        for id in around.iter() {
            let Some(row) = rows.edges.as_slice().get(*id as usize) else {
                break;
            };
            let edge = if row.a == vertex {
                at(firsts, *id)
            } else {
                at(firsts, id.saturating_add(1)).saturating_sub(1)
            };
            list_at(&mut self.rotations, kept, edge)?;
        }
        Ok(())
    }

    /// Writes the row of a leaf, and puts it last at its vertex.
    fn add_leaf(
        &mut self,
        alloc: Global,
        reduction: &Reduction,
        leaf: &Leaf,
    ) -> Result<(), AllocError> {
        let Some(edge) = reduction.edges.get(leaf.edge as usize).copied() else {
            return Ok(());
        };
        let id = self.count();
        self.add(alloc, leaf.edge, edge, &[])?;
        list_at(&mut self.rotations, edge.a, id)?;
        list_at(&mut self.rotations, edge.b, id)
    }

    /// Writes the rows of all paths, and answers the id of the first edge of each, and of what
    /// comes behind the last one.
    fn add_paths(
        &mut self,
        alloc: Global,
        reduction: &Reduction,
        rows: &Rows,
        edges: &[u32],
    ) -> Result<Vec<u32>, AllocError> {
        let mut firsts = Vec::with_capacity(alloc, edges.len().saturating_add(1))?;
        for row in rows.edges.iter() {
            firsts.push(self.count())?;
            let path = reduction.paths.get(at(edges, row.id));
            self.add_path(alloc, reduction, row, rows.crossings.as_slice(), path)?;
        }
        firsts.push(self.count())?;
        Ok(firsts)
    }
}

/// The rows of a picture of the whole graph, with ids from 0 on, and the edge of each, from those
/// of the smaller graph.
pub(crate) fn expanded(
    alloc: Global,
    reduction: &Reduction,
    rows: &Rows,
    edges: &[u32],
) -> Result<(Rows, Vec<u32>), AllocError> {
    let mut expanding = Expanding::new(alloc, reduction, rows)?;
    let firsts = expanding.add_paths(alloc, reduction, rows, edges)?;
    for vertex in 0..length_of(&reduction.kept) {
        let kept = at(&reduction.kept, vertex);
        expanding.turn_at(vertex, rows, &firsts, kept)?;
    }
    for leaf in &reduction.leaves {
        expanding.add_leaf(alloc, reduction, leaf)?;
    }
    let next_edge = expanding.count();
    let Expanding {
        rotations,
        edges: whole,
        crossings,
        places,
    } = expanding;
    let mut rows = Rows {
        rotations: rotations_of(alloc, rotations)?,
        edges: Listed::from_vec(whole),
        crossings: Listed::from_vec(crossings),
        next_edge,
        next_crossing: rows.next_crossing,
    };
    turn_as_in(alloc, &reduction.edges, &places, &mut rows)?;
    Ok((rows, places))
}
