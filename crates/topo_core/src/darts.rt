//! Segments with a direction, and the points where they start.

use crate::ids::{CrossId, EdgeId, VertexId};

/// Which way along an edge: Forward is from its end `a` to its end `b`.
#[derive(Clone, Copy, Debug, PartialEq, Eq)]
pub enum Way {
    Forward,
    Back,
}

/// A segment of an edge with a direction, also called a half-edge. Segment 0 starts at the edge's
/// end `a`, and segment i lies between the crossings i - 1 and i of the path. In
/// canonical order darts go by edge, then by segment, then Forward before Back.
#[derive(Clone, Copy, Debug, PartialEq, Eq)]
pub struct Dart {
    pub edge: EdgeId,
    pub seg: u32,
    pub way: Way,
}

/// Where darts start: a vertex of the graph, or a crossing.
#[derive(Clone, Copy, Debug, PartialEq, Eq)]
pub enum Point {
    Vertex(VertexId),
    Crossing(CrossId),
}

/// Which way the newcomer of a crossing passes over the crossed edge, seen along the crossed edge
/// from its end `a` to its end `b`.
#[derive(Clone, Copy, Debug, PartialEq, Eq)]
pub enum Sign {
    LeftToRight,
    RightToLeft,
}

impl Sign {
    ghost use Rattle.std.specs.Prelude.{◌≡◌};
    ghost use Rattle.topo_core.specs.Darts.{opposite};

    /// The sign that is seen once one of the two edges is turned round, or along the other one.
    pub fn opposite(self) -> Self
        ensures { result ≡ opposite self }
    {
        match self {
            Sign::LeftToRight => Sign::RightToLeft,
            Sign::RightToLeft => Sign::LeftToRight,
        }
    }
}
