//! The size of a picture.

ghost use Rattle.topo_core.specs.declared.rows.Rows.{Rows};
ghost use Rattle.topo_picture.specs.Totals.{AreCountsOf, HasTotals};

/// How many there are of each: vertices, crossings, edges, segments (an edge has one more than
/// crossings on its path) and faces.
#[derive(Clone, Copy, Debug, PartialEq, Eq)]
pub struct Counts {
    pub vertices: u32,
    pub crossings: u32,
    pub edges: u32,
    pub segments: u32,
    pub faces: u32,
}

/// How large a picture with so many vertices, crossings and edges is. Each crossing stands on two
/// paths, so it makes two segments more, and the faces follow by Euler's formula.
pub(crate) fn counted(vertices: usize, crossings: usize, edges: usize) -> Counts
    requires { (rows : Rows) × HasTotals rows vertices crossings edges }
    ensures { (rows : Rows) → HasTotals rows vertices crossings edges → AreCountsOf rows result }
{
    let vertices = vertices as u32;
    let crossings = crossings as u32;
    let edges = edges as u32;
    let segments = edges + 2 * crossings;
    Counts {
        vertices,
        crossings,
        edges,
        segments,
        faces: segments + 2 - (vertices + crossings),
    }
}
