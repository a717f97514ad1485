//! Which edge of the picture is which edge of the graph.

use crate::lists::{NONE, at, equal_items, set};
use std::alloc::{AllocError, Global};

/// Edge ids of pictures are below this number.
pub(crate) const MAX_EDGE_IDS: u32 = 65_536;

/// The id in the picture of each edge of the graph, and the edge of each id.
#[derive(Drop)]
pub(crate) struct Ids {
    of_edges: Vec<u32>,
    edges: Vec<u32>,
}

impl Ids {
    /// No id, for a graph with so many edges.
    pub(crate) fn new(alloc: Global, edges: usize) -> Result<Self, AllocError> {
        Ok(Ids {
            of_edges: equal_items(alloc, edges, NONE)?,
            edges: Vec::new(alloc),
        })
    }

    /// The id of an edge of the graph; none where it is not in the picture.
    pub(crate) fn id(&self, edge: u32) -> Option<u32> {
        let id = at(&self.of_edges, edge);
        if id == NONE { None } else { Some(id) }
    }

    /// The edge of the graph with this id in the picture.
    pub(crate) fn edge(&self, id: u32) -> Option<u32> {
        let edge = at(&self.edges, id);
        if edge == NONE { None } else { Some(edge) }
    }

    /// Notes that an edge has this id.
    pub(crate) fn note(&mut self, edge: u32, id: u32) -> Result<(), AllocError> {
        for _ in self.edges.len()..=id as usize {
            self.edges.push(NONE)?;
        }
        set(&mut self.of_edges, edge, id);
        set(&mut self.edges, id, edge);
        Ok(())
    }

    /// Notes that an edge has no id.
    pub(crate) fn forget(&mut self, edge: u32) {
        set(&mut self.of_edges, edge, NONE);
    }

    /// Notes that no edge has an id.
    pub(crate) fn clear(&mut self) {
        for id in self.of_edges.iter_mut() {
            *id = NONE;
        }
    }

    /// Notes that the edges in the list have the ids from 0 on.
    pub(crate) fn note_all(&mut self, edges: &[u32]) -> Result<(), AllocError> {
        self.clear();
        let mut id = 0;
        for edge in edges {
            self.note(*edge, id)?;
            id = id.wrapping_add(1);
        }
        Ok(())
    }
}
