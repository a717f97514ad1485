//! The planar part of a graph.

ghost use Rattle.std.specs.Prelude.{◌≡◌, IfOk, vec_len};

use crate::Ends;
use crate::groups::Groups;
use crate::left_right::LeftRight;
use crate::numbers::{NONE, Numbers, number_at, number_of};
use crate::orientation::fill_incidences;
use std::alloc::{AllocError, Global};

/// A planar part of a graph.
#[derive(Drop)]
pub struct PlanarPart {
    /// For each vertex its edges of the planar part, clockwise, by their numbers in the graph.
    pub rotations: Vec<Vec<u32>>,
    /// The edges that are not in the planar part, in the order in which they were left out.
    pub left_out: Vec<u32>,
}

/// A part of the order that is still to be tried.
#[derive(Clone, Copy, Drop)]
struct Part {
    start: u32,
    end: u32,
    /// With so many edges taken it is known that they and the part are not planar; `NONE` where
    /// nothing is known.
    refused_at: u32,
}

/// Edges taken one after the other as long as they are planar.
#[derive(Drop)]
struct Halving {
    test: LeftRight,
    vertices: u32,
    /// A number that no planar graph has more edges than.
    most: u32,
    taken: Vec<Ends>,
    /// The numbers of the edges taken.
    numbers: Vec<u32>,
    left_out: Vec<u32>,
    /// A stack: what is last is tried next.
    parts: Vec<Part>,
}

impl Halving {
    /// No edge was tried.
    fn new(alloc: Global, vertices: u32, most: u32, edges: u32) -> Result<Self, AllocError> {
        let whole = Part {
            start: 0,
            end: edges,
            refused_at: NONE,
        };
        let parts = vec![in alloc; whole]?;
        Ok(Halving {
            test: LeftRight::new(alloc),
            vertices,
            most,
            taken: Vec::new(alloc),
            numbers: Vec::new(alloc),
            left_out: Vec::new(alloc),
            parts,
        })
    }

    /// Tries all parts of the graph.
    fn run(&mut self, edges: &[Ends], order: &[u32]) -> Result<(), AllocError> {
        // A part of k edges falls into less than 2 k parts.
        let bound = 2 * number_of(order.len()) as u64;
        for _part in 0..=bound {
            let Some(part) = self.parts.pop() else {
                return Ok(());
            };
            self.attempt(edges, order, part)?;
        }
        Ok(())
    }

    /// Takes a part whole where that is planar, and else parts it.
    fn attempt(&mut self, edges: &[Ends], order: &[u32], part: Part) -> Result<(), AllocError> {
        let before = self.taken.len();
        if number_of(before) != part.refused_at {
            take_part(&mut self.taken, &mut self.numbers, edges, order, part)?;
            if self.is_planar()? {
                return Ok(());
            }
            self.taken.truncate(before);
            self.numbers.truncate(before);
        }
        self.halve(order, part, number_of(before))
    }

    /// Whether the edges taken are planar.
    fn is_planar(&mut self) -> Result<bool, AllocError> {
        if number_of(self.taken.len()) > self.most {
            return Ok(false);
        }
        self.test.test(self.vertices, self.taken.as_slice())
    }

    /// Has the two halves of a part tried, the first one next; leaves a single edge out. Where the
    /// first half is taken whole the second is refused, as both were.
    fn halve(&mut self, order: &[u32], part: Part, taken: u32) -> Result<(), AllocError> {
        let half = part.end.saturating_sub(part.start) / 2;
        if half == 0 {
            self.left_out.push(number_at(order, part.start))?;
            return Ok(());
        }
        let middle = part.start.saturating_add(half);
        self.parts.push(Part {
            start: middle,
            end: part.end,
            refused_at: taken.saturating_add(half),
        })?;
        self.parts.push(Part {
            start: part.start,
            end: middle,
            refused_at: NONE,
        })?;
        Ok(())
    }
}

/// Takes the edges of a part of the order.
fn take_part(
    taken: &mut Vec<Ends>,
    numbers: &mut Vec<u32>,
    edges: &[Ends],
    order: &[u32],
    part: Part,
) -> Result<(), AllocError> {
    for place in part.start..part.end {
        let number = number_at(order, place);
        if let Some(ends) = edges.get(number as usize) {
            taken.push(*ends)?;
            numbers.push(number)?;
        }
    }
    Ok(())
}

/// How many edges have the same ends as another one before them.
fn count_parallel(alloc: Global, vertices: u32, edges: &[Ends]) -> Result<u32, AllocError> {
    let mut incidences = Groups::new(alloc);
    let count = number_of(edges.len());
    incidences.begin(vertices, count.saturating_add(count))?;
    fill_incidences(&mut incidences, edges);
    let mut met = Numbers::new(alloc);
    met.reset(vertices, NONE)?;
    let mut parallel: u32 = 0;
    for vertex in 0..vertices {
        parallel = parallel.saturating_add(count_parallel_at(&incidences, &mut met, edges, vertex));
    }
    Ok(parallel)
}

/// How many edges that lead from a vertex to greater ones have the same ends as another one before
/// them.
fn count_parallel_at(incidences: &Groups, met: &mut Numbers, edges: &[Ends], vertex: u32) -> u32 {
    let mut parallel: u32 = 0;
    for place in incidences.start(vertex)..incidences.end(vertex) {
        let Some(ends) = edges.get(incidences.item(place) as usize) else {
            return parallel;
        };
        let other = ends.other(vertex);
        if other > vertex && met.at(other) == vertex {
            parallel = parallel.saturating_add(1);
        }
        met.set(other, vertex);
    }
    parallel
}

/// A number that no planar graph on so many vertices has more edges than, where so many of them are
/// parallel to others: 3 n - 6 for three or more vertices without parallel edges (Euler's formula).
fn most_edges(vertices: u32, parallel: u32) -> u32 {
    if vertices < 3 {
        return NONE;
    }
    let most = vertices.saturating_mul(3).saturating_sub(6);
    most.saturating_add(parallel)
}

/// The rotations of the edges that a halving has taken.
fn rotations_of(
    alloc: Global,
    vertices: usize,
    halving: &mut Halving,
) -> Result<Vec<Vec<u32>>, AllocError>
    ensures { IfOk result (λ rotations. vec_len rotations ≡ vertices) }
{
    halving.is_planar()?;
    let embedding = halving.test.embed(alloc)?;
    let mut rotations = Vec::new(alloc);
    for vertex in 0..vertices {
        let numbers = halving.numbers.as_slice();
        rotations.push(embedding.rotation(alloc, number_of(vertex), numbers)?)?;
    }
    Ok(rotations)
}

/// A planar part of a graph: the edges are taken in the order given, and each is left out that
/// would make those taken before it not planar. So the first edges of the order are kept first, the
/// planar part of a planar graph is the whole, and that of a connected graph is connected, since an
/// edge between two components never makes a graph not planar.
///
/// Many edges are tried at a time, and halved where they are refused: with r of m edges left out
/// that takes some r (1 + log (m / r)) tests, each in time that is linear in the graph.
pub fn planar_part(
    alloc: Global,
    vertices: usize,
    edges: &[Ends],
    order: &[u32],
) -> Result<PlanarPart, AllocError>
    ensures { IfOk result (λ part. vec_len part.rotations ≡ vertices) }
{
    let count = number_of(vertices);
    let most = most_edges(count, count_parallel(alloc, count, edges)?);
    let mut halving = Halving::new(alloc, count, most, number_of(order.len()))?;
    halving.run(edges, order)?;
    let rotations = rotations_of(alloc, vertices, &mut halving)?;
    Ok(PlanarPart {
        rotations,
        left_out: halving.left_out,
    })
}
