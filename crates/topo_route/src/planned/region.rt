//! What a search has seen of a picture.

ghost use Rattle.std.specs.Prelude.{◌≡◌, ◌==◌, ◌||◌, ℕ, OnOk, false, slice_index_or};
ghost use Rattle.topo_route.specs.Regions.{holds_edge, holds_vertex};

use std::alloc::{AllocError, Global};
use std::marker::Model;
use topo_core::rows::Facts;

/// Edges and vertices of a picture, marked by their ids. A picture that comes later keeps the
/// region if its edges, with the crossings on them, and the edges round its vertices are as they
/// were.
pub struct Region {
    // A 1 for each that is marked. To let a list of `bool` go takes a look at each of them.
    edges: Vec<u8>,
    vertices: Vec<u8>,
}

// Written out, so that it is proved once: a derived one is proved anew in each function that lets
// such a value go.
impl Drop for Region {
    fn drop(self) {
        let Region { edges, vertices } = self;
        drop(edges);
        drop(vertices);
    }
}

impl Model for Region {
    ghost use Rattle.topo_route.specs.Regions.{RegionState};

    ghost Value = { RegionState };

    ghost view = { λ r. record { edges = r.edges.items; vertices = r.vertices.items } };
}

impl Region {
    /// A region with nothing in it.
    pub(crate) fn new(alloc: Global) -> Self
        ensures edges { (e : ℕ) → holds_edge result e ≡ false }
        ensures vertices { (w : ℕ) → holds_vertex result w ≡ false }
    {
        Region {
            edges: Vec::new(alloc),
            vertices: Vec::new(alloc),
        }
    }

    /// Whether the edge is in it.
    pub fn has_edge(&self, edge: u32) -> bool
        ensures { result ≡ holds_edge self.now edge }
    {
        is_marked(self.edges.as_slice(), edge)
    }

    /// Whether the vertex is in it.
    pub fn has_vertex(&self, vertex: u32) -> bool
        ensures { result ≡ holds_vertex self.now vertex }
    {
        is_marked(self.vertices.as_slice(), vertex)
    }

    /// Puts the edge with these facts into it, and both ends of it.
    pub(crate) fn mark(&mut self, facts: &Facts) -> Result<(), AllocError>
        ensures edges { OnOk result
            ((e : ℕ) → holds_edge self.new e ≡ (facts.now.id == e || holds_edge self.old e)) }
        ensures vertices { OnOk result ((w : ℕ) → holds_vertex self.new w
            ≡ (facts.now.b == w || (facts.now.a == w || holds_vertex self.old w))) }
    {
        mark_id(&mut self.edges, facts.id)?;
        mark_id(&mut self.vertices, facts.a)?;
        mark_id(&mut self.vertices, facts.b)
    }
}

/// Whether an id is marked.
fn is_marked(marks: &[u8], id: u32) -> bool
    ensures { result ≡ (slice_index_or marks.now id 0 == 1) }
{
    match marks.get(id as usize) {
        Some(mark) => *mark == 1,
        None => false,
    }
}

/// Marks an id. The list grows as far as that takes.
fn mark_id(marks: &mut Vec<u8>, id: u32) -> Result<(), AllocError>
    ensures { OnOk result ((k : ℕ) → (slice_index_or marks.new.items k 0 == 1)
        ≡ (id == k || slice_index_or marks.old.items k 0 == 1)) }
{
    let place = id as usize;
    if marks.len() <= place {
        marks.resize(place + 1, 0)?;
    }
    marks[place] = 1;
    Ok(())
}
