//! Pictures that show a graph, and the judge that makes them.

ghost use Rattle.std.specs.Prelude.{◌≡◌, ◌≢◌, ◌↔◌, ◌++◌, IfErr, IfOk, IsNone, IsTrue};
ghost use Rattle.topo_shown.specs.Planarizations.{AreParts, IsNumbering, Shows, edges_of, vertices_of};

use crate::numbering::has_each_once;
use crate::parts::is_part;
use std::alloc::{AllocError, Global};
use std::marker::Model;
use topo_core::limits::Limits;
use topo_graph::{Graph, Part};
use topo_price::table::PriceTable;

/// Why parts do not show a graph.
#[derive(Clone, Copy, Debug, Drop, PartialEq, Eq)]
pub enum ShowFault {
    /// Rows are no lawful picture within the limits, an edge is another one than the graph has, or
    /// one that must not be crossed has a crossing.
    WrongPart,
    /// A vertex is missing, stands twice, or is none of the graph.
    WrongVertices,
    /// An edge is missing, stands twice, or is none of the graph.
    WrongEdges,
    /// A growth of memory was refused.
    Memory,
}

/// Pictures that show a graph, one for each component that has an edge, and the vertices that have
/// no edge.
pub struct Planarized<'a> {
    limits: Limits,
    graph: &'a Graph,
    prices: &'a PriceTable,
    parts: Vec<Part>,
    others: Vec<u32>,
}

// Written out, so that it is proved once: a derived one is proved anew in each function that lets
// such a value go.
impl<'a> Drop for Planarized<'a> {
    fn drop(self) {
        let Planarized {
            limits: _,
            graph: _,
            prices: _,
            parts,
            others,
        } = self;
        drop(parts);
        drop(others);
    }
}

impl<'a> Model for Planarized<'a> {
    ghost use Rattle.topo_shown.specs.Planarizations.{Planarization, Shows};

    ghost Value = { Planarization };

    ghost view = { λ p. record {
      limits = p.limits;
      graph = p.graph.now;
      prices = p.prices.now;
      parts = p.parts.items;
      others = p.others.items;
    } };

    ghost invariant = { λ p. Shows p.limits p.graph.now p.prices.now p.parts.items p.others.items };
}

/// Whether a list has each number below `count` once, and nothing else.
fn is_numbering(alloc: Global, count: usize, list: &[u32]) -> Result<bool, AllocError>
    ensures { IfOk result (λ yes. IsTrue yes ↔ IsNumbering count list.now) }
{
    if list.len() != count {
        return Ok(false);
    }
    has_each_once(alloc, list)
}

/// Whether all are parts of the graph.
fn are_parts(
    alloc: Global,
    limits: &Limits,
    graph: &Graph,
    prices: &PriceTable,
    parts: &[Part],
) -> Result<bool, AllocError>
    ensures { IfOk result
        (λ yes. IsTrue yes ↔ AreParts limits.now graph.now prices.now parts.now) }
{
    for part in parts {
        if !is_part(alloc, limits, graph, prices, part)? {
            return Ok(false);
        }
    }
    Ok(true)
}

/// The vertices of the graph that the parts show, and the others behind them.
fn all_vertices(alloc: Global, parts: &[Part], others: &[u32]) -> Result<Vec<u32>, AllocError>
    ensures { IfOk result (λ all. all.items ≡ vertices_of parts.now ++ others.now) }
{
    let mut all = Vec::new(alloc);
    for part in parts {
        all.extend_from_slice(part.vertices.as_slice())?;
    }
    all.extend_from_slice(others)?;
    Ok(all)
}

/// The edges of the graph that the parts show.
fn all_edges(alloc: Global, parts: &[Part]) -> Result<Vec<u32>, AllocError>
    ensures { IfOk result (λ all. all.items ≡ edges_of parts.now) }
{
    let mut all = Vec::new(alloc);
    for part in parts {
        all.extend_from_slice(part.edges.as_slice())?;
    }
    Ok(all)
}

/// What keeps parts from showing a graph; nothing where they show it.
fn fault_of(
    alloc: Global,
    limits: &Limits,
    graph: &Graph,
    prices: &PriceTable,
    parts: &[Part],
    others: &[u32],
) -> Result<Option<ShowFault>, AllocError>
    ensures { IfOk result (λ found. IsNone found
        ↔ Shows limits.now graph.now prices.now parts.now others.now) }
{
    if !is_numbering(
        alloc,
        graph.vertices() as usize,
        &all_vertices(alloc, parts, others)?,
    )? {
        return Ok(Some(ShowFault::WrongVertices));
    }
    if !is_numbering(alloc, graph.edges().len(), &all_edges(alloc, parts)?)? {
        return Ok(Some(ShowFault::WrongEdges));
    }
    if !are_parts(alloc, limits, graph, prices, parts)? {
        return Ok(Some(ShowFault::WrongPart));
    }
    Ok(None)
}

/// Pictures of the components of a graph, if they show it, with the vertices that have no edge.
pub fn shown<'a>(
    alloc: Global,
    limits: Limits,
    graph: &'a Graph,
    prices: &'a PriceTable,
    parts: Vec<Part>,
    others: Vec<u32>,
) -> Result<Planarized<'a>, ShowFault>
    ensures made { IfOk result (λ p. (p.limits ≡ limits) × (p.graph ≡ graph.now)
        × (p.prices ≡ prices.now) × (p.parts ≡ parts.items) × (p.others ≡ others.items)) }
    ensures shows { IfOk result
        (λ _. Shows limits graph.now prices.now parts.items others.items) }
    ensures refused { IfErr result (λ fault. fault ≢ ShowFault.Memory
        → Shows limits graph.now prices.now parts.items others.items → ⊥) }
{
    match fault_of(alloc, &limits, graph, prices, &parts, &others) {
        Ok(None) => Ok(Planarized {
            limits,
            graph,
            prices,
            parts,
            others,
        }),
        Ok(Some(fault)) => Err(fault),
        Err(_) => Err(ShowFault::Memory),
    }
}

impl<'a> Planarized<'a> {
    /// The parts of the planarized graph.
    pub fn parts(&self) -> &[Part]
        ensures { result.now ≡ self.now.parts }
    {
        self.parts.as_slice()
    }

    /// The parts, and the vertices that have no edge.
    pub fn into_lists(self) -> (Vec<Part>, Vec<u32>)
        ensures parts { result.0.items ≡ self.entry.parts }
        ensures others { result.1.items ≡ self.entry.others }
    {
        let Planarized {
            limits: _,
            graph: _,
            prices: _,
            parts,
            others,
        } = self;
        (parts, others)
    }
}
