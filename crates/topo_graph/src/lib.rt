//! Graphs whose edges have kinds.
//!
//! A `Graph` has vertices that are numbered from 0, and edges in an order; parallel edges may be,
//! loops not.
//!
//! A caller:
//!
//! ```rust
//! /// Whether edges are those of a graph with so many vertices.
//! pub fn is_graph(vertices: u32, edges: Vec<GraphEdge>) -> bool {
//!     Graph::new(vertices, edges).is_ok()
//! }
//! ```
#![tactic(auto)]

pub mod parts;

ghost use Rattle.std.specs.Prelude.{◌≡◌, ◌<◌, length, None};
ghost use Rattle.topo_graph.specs.Graphs.{IsFaultAt, first_fault, is_within};

pub use parts::Part;
use std::fmt;
use std::marker::Model;
use thiserror::Error;
use topo_faults::Fault;

/// An edge of a graph, from one vertex to another, with its kind.
#[derive(Clone, Copy, Debug, PartialEq, Eq)]
pub struct GraphEdge {
    pub a: u32,
    pub b: u32,
    pub kind: u32,
}

/// How long is searched.
#[derive(Clone, Copy, Debug, Drop, PartialEq, Eq)]
pub enum Effort {
    /// Until there is a first good picture.
    Quick,
    /// Until nothing was saved for a while.
    Default,
    /// Until nothing was saved for a long while.
    Thorough,
}

/// Why a graph has no answer: the fault of the same name. It is printed as that and its value, the
/// place of an edge, counted from 0.
#[derive(Clone, Copy, Debug, Drop, PartialEq, Eq, Error)]
pub enum GraphFault {
    /// The edge at this place is the first that cannot be.
    Loop(usize),
    /// The edge at this place is the first that cannot be.
    NoEnd(usize),
    TooLarge,
    /// The edge at this place must not be crossed.
    NotPlanarized(usize),
    OtherGraph,
    NotShown,
}

impl GraphFault {
    ghost use Rattle.topo_graph.specs.FaultTexts.{fault_of};

    /// The fault that it is.
    pub fn fault(&self) -> Fault
        ensures { result ≡ fault_of self.now }
    {
        match self {
            GraphFault::Loop(_) => Fault::Loop,
            GraphFault::NoEnd(_) => Fault::NoEnd,
            GraphFault::TooLarge => Fault::TooLarge,
            GraphFault::NotPlanarized(_) => Fault::NotPlanarized,
            GraphFault::OtherGraph => Fault::OtherGraph,
            GraphFault::NotShown => Fault::NotShown,
        }
    }
}

impl fmt::Display for GraphFault {
    ghost use Rattle.std.specs.Prelude.{Some};
    ghost use Rattle.topo_graph.specs.FaultTexts.{fault_text};

    ghost output = { λ fault. Some (fault_text fault) };

    fn fmt<W: fmt::Write>(&self, f: &mut fmt::Formatter<W>) -> fmt::Result {
        let fault = self.fault();
        match self {
            GraphFault::Loop(place) => write!(f, "{fault} {place}"),
            GraphFault::NoEnd(place) => write!(f, "{fault} {place}"),
            GraphFault::NotPlanarized(place) => write!(f, "{fault} {place}"),
            _ => write!(f, "{fault}"),
        }
    }
}

/// A graph: so many vertices, numbered from 0, and its edges in order. Parallel edges may be, loops
/// not.
pub struct Graph {
    vertices: u32,
    edges: Vec<GraphEdge>,
}

// Written out, so that it is proved once: a derived one is proved anew in each function that lets
// such a value go.
impl Drop for Graph {
    fn drop(self) {
        let Graph { vertices: _, edges } = self;
        drop(edges);
    }
}

impl Model for Graph {
    ghost use Rattle.std.specs.Prelude.{◌≡◌, None};
    ghost use Rattle.topo_graph.specs.Graphs.{Drawn, first_fault};

    ghost Value = { Drawn };

    ghost view = { λ g. record { vertices = g.vertices; edges = g.edges.items } };

    ghost invariant = { λ g. first_fault g.vertices g.edges.items ≡ None };
}

/// Whether an edge has two ends among so many vertices.
fn has_two_ends(vertices: u32, edge: &GraphEdge) -> bool
    ensures { result ≡ is_within vertices edge.now }
{
    edge.a < vertices && edge.b < vertices && edge.a != edge.b
}

/// The place of the first edge that has not two ends among so many vertices.
fn first_bad(vertices: u32, edges: &[GraphEdge]) -> Option<usize>
    ensures { result ≡ first_fault vertices edges.now }
{
    edges.iter().position(|edge| !has_two_ends(vertices, edge))
}

/// What is wrong with the edge at a place.
fn fault_at(edges: &[GraphEdge], place: usize) -> GraphFault
    requires { place < length edges.now }
    ensures { IsFaultAt edges.now place result }
{
    let edge = edges[place];
    if edge.a == edge.b {
        GraphFault::Loop(place)
    } else {
        GraphFault::NoEnd(place)
    }
}

impl Graph {
    ghost use Rattle.std.specs.Prelude.{IfOk, IfErr, length};
    ghost use Rattle.topo_graph.specs.Graphs.{IsFaultOf};

    /// The graph with so many vertices and these edges; else what is wrong with the first edge that
    /// cannot be.
    pub fn new(vertices: u32, edges: Vec<GraphEdge>) -> Result<Self, GraphFault>
        ensures made { IfOk result
            (λ g. (g.vertices ≡ vertices) × (g.edges ≡ edges.items)) }
        ensures good { IfOk result (λ _. first_fault vertices edges.items ≡ None) }
        ensures refused { IfErr result (IsFaultOf vertices edges.items) }
    {
        match first_bad(vertices, &edges) {
            None => Ok(Graph { vertices, edges }),
            Some(place) => Err(fault_at(&edges, place)),
        }
    }

    /// How many vertices it has.
    pub fn vertices(&self) -> u32
        ensures { result ≡ self.now.vertices }
    {
        self.vertices
    }

    /// Its edges, in order.
    pub fn edges(&self) -> &[GraphEdge]
        ensures { result.now ≡ self.now.edges }
    {
        self.edges.as_slice()
    }
}
