//! What the search works on: the picture, and what it knows of it.

use crate::finder::Finder;
use crate::graph::Graph;
use crate::ids::{Ids, MAX_EDGE_IDS};
use crate::lists::Marks;
use crate::random::Random;
use crate::search::SearchFault;
use std::alloc::{AllocError, Global};
use std::sync::Arc;
use topo_core::limits::Limits;
use topo_core::rows::Rows;
use topo_picture::{LoadFault, Picture};
use topo_price::tariff::{PriceFn, Tariff};
use topo_renumbering::close_up;

/// Crossing ids of pictures are below this number.
const MAX_CROSSING_IDS: u32 = 1_048_576;

/// Ids begin anew when so many times as many were given as are in use.
const IDS_FOR_EACH: u32 = 16;

/// But not before so many.
const IDS_AT_LEAST: u32 = 4096;

/// The limits of all pictures: the greatest ones.
const LIMITS: Limits = Limits {
    vertices: 65_536,
    edges: MAX_EDGE_IDS,
    crossings: MAX_CROSSING_IDS,
};

/// How dear a picture is: first by its cost, the sum over crossings of the product of both prices,
/// and then by how many crossings it has.
#[derive(Clone, Copy, Debug, PartialEq, Eq, PartialOrd, Ord)]
pub(crate) struct Score {
    pub cost: u64,
    pub crossings: u64,
}

/// The graph, the picture of some or all of its edges, and what the search writes on.
pub(crate) struct Board<F: PriceFn> {
    pub graph: Graph,
    pub tariff: Arc<Tariff<F>>,
    pub picture: Picture,
    pub ids: Ids,
    /// What the crossings of the picture cost.
    pub cost: u64,
    pub finder: Finder,
    pub random: Random,
    pub marks: Marks,
    /// What was done in this step, in faces looked at.
    pub spent: u64,
}

// Written out, so that it is proved once: a derived one is proved anew in each function that lets
// such a value go.
impl<F: PriceFn + Drop> Drop for Board<F> {
    fn drop(self) {
        let Board {
            graph,
            tariff,
            picture,
            ids,
            cost: _,
            finder,
            random,
            marks,
            spent: _,
        } = self;
        drop(graph);
        drop(tariff);
        drop(picture);
        drop(ids);
        drop(finder);
        drop(random);
        drop(marks);
    }
}

/// How many ids may have been given when so many are in use and there are so many in all.
fn ids_before_renumbering(used: u32, limit: u32) -> u32 {
    let spare = used
        .saturating_mul(IDS_FOR_EACH)
        .saturating_add(IDS_AT_LEAST);
    let left = limit.saturating_sub(used) / 2;
    used.saturating_add(spare.min(left))
}

/// Whether there are more vertices or edges than a picture may have.
pub(crate) fn is_too_large(vertices: usize, edges: usize) -> bool {
    vertices > LIMITS.vertices as usize || edges > LIMITS.edges as usize
}

/// How many there are, as a number of 32 bits.
fn narrow(count: usize) -> u32 {
    u32::try_from(count).unwrap_or(u32::MAX)
}

impl<F: PriceFn> Board<F> {
    /// The graph, and no picture of it yet.
    pub(crate) fn new(
        alloc: Global,
        graph: Graph,
        tariff: Arc<Tariff<F>>,
        seed: u32,
    ) -> Result<Self, AllocError>
    where
        F: Drop,
    {
        let edges = graph.edges.len();
        let finder = Finder::new(alloc, graph.is_plain, seed)?;
        Ok(Board {
            graph,
            tariff,
            picture: Picture::seed(alloc, LIMITS)?,
            ids: Ids::new(alloc, edges)?,
            cost: 0,
            finder,
            random: Random::new(seed),
            marks: Marks::new(alloc, edges)?,
            spent: 0,
        })
    }

    /// How many crossings the picture has.
    pub(crate) fn crossings(&self) -> u64 {
        self.picture.kept_rows().crossing_count() as u64
    }

    /// How dear the picture is.
    pub(crate) fn score(&self) -> Score {
        Score {
            cost: self.cost,
            crossings: self.crossings(),
        }
    }

    /// Whether the picture has all edges.
    pub(crate) fn is_whole(&self) -> bool {
        self.picture.kept_rows().edge_count() == self.graph.edges.len()
    }

    /// Makes these rows the picture, whose ids from 0 on are of the edges in the list, and whose
    /// crossings cost so much.
    pub(crate) fn load(
        &mut self,
        alloc: Global,
        rows: &Rows,
        edges: &[u32],
        cost: u64,
    ) -> Result<(), SearchFault> {
        match Picture::load(alloc, LIMITS, rows) {
            Ok(picture) => self.picture = picture,
            Err(LoadFault::Memory) => return Err(SearchFault::Memory),
            Err(LoadFault::TooMany) => return Err(SearchFault::TooLarge),
            Err(why) => return Err(SearchFault::NotLoaded(why)),
        }
        self.ids.note_all(edges)?;
        self.cost = cost;
        Ok(())
    }

    /// Whether it is time to give ids anew.
    pub(crate) fn has_used_many_ids(&self) -> bool {
        let rows = self.picture.kept_rows();
        let edges = narrow(rows.edge_count());
        let crossings = narrow(rows.crossing_count());
        rows.next_edge() > ids_before_renumbering(edges, MAX_EDGE_IDS)
            || rows.next_crossing() > ids_before_renumbering(crossings, MAX_CROSSING_IDS)
    }

    /// Gives ids anew, from 0 on.
    pub(crate) fn renumber(&mut self, alloc: Global) -> Result<(), SearchFault> {
        let old = self.picture.rows(alloc)?;
        let Some((ids, rows)) = close_up(alloc, &old)? else {
            return Err(SearchFault::TooLarge);
        };
        let edges = self.edges_of(alloc, ids.edges.as_slice())?;
        let cost = self.cost;
        self.load(alloc, &rows, &edges, cost)
    }

    /// The edges of the graph that have these ids.
    pub(crate) fn edges_of(&self, alloc: Global, ids: &[u32]) -> Result<Vec<u32>, AllocError> {
        let mut edges = Vec::with_capacity(alloc, ids.len())?;
        for id in ids {
            edges.push(self.ids.edge(*id).unwrap_or(*id))?;
        }
        Ok(edges)
    }
}
