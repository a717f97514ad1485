//! Edges to be put in again, the most crossed first.

use crate::board::Board;
use crate::lists::{append, at, key_of, length_of, ordered_by};
use crate::moves::{add_crossed, crossings_of, put_again};
use crate::search::SearchFault;
use std::alloc::{AllocError, Global};
use topo_price::tariff::PriceFn;

/// Edges that wait to be put in again. After them come, so many times at most, those about the ones
/// that have saved something.
#[derive(Drop)]
pub(crate) struct Repair {
    // The next one is the last.
    waiting: Vec<u32>,
    about: Vec<u32>,
    passes: u32,
}

/// The keys of the edges in a list that are crossed.
fn keys_of<F: PriceFn>(
    alloc: Global,
    board: &Board<F>,
    edges: &[u32],
) -> Result<Vec<u64>, AllocError> {
    let mut keys = Vec::with_capacity(alloc, edges.len())?;
    for place in 0..length_of(edges) {
        let crossings = crossings_of(board, at(edges, place));
        if crossings > 0 {
            keys.push(key_of(crossings, place))?;
        }
    }
    Ok(keys)
}

/// The edges of a list that are crossed, the least crossed first, and in random order where they
/// are crossed as often.
fn crossed_in_order<F: PriceFn>(
    alloc: Global,
    board: &mut Board<F>,
    mut edges: Vec<u32>,
) -> Result<Vec<u32>, AllocError> {
    board.random.shuffle(&mut edges);
    let mut keys = keys_of(alloc, board, &edges)?;
    ordered_by(alloc, &edges, &mut keys)
}

impl Repair {
    /// A repair with nothing to do.
    pub(crate) fn none(alloc: Global) -> Self {
        Repair {
            waiting: Vec::new(alloc),
            about: Vec::new(alloc),
            passes: 0,
        }
    }

    /// From then on those of these edges that are crossed wait, and after them, in so many passes
    /// in all, those about the ones that have saved something.
    pub(crate) fn begin<F: PriceFn>(
        &mut self,
        alloc: Global,
        board: &mut Board<F>,
        edges: Vec<u32>,
        passes: u32,
    ) -> Result<(), AllocError> {
        self.waiting = crossed_in_order(alloc, board, edges)?;
        self.about.clear();
        self.passes = passes;
        board.marks.clear();
        Ok(())
    }

    /// Puts one of the edges in again, and says whether there was one.
    pub(crate) fn advance<F: PriceFn>(
        &mut self,
        alloc: Global,
        board: &mut Board<F>,
    ) -> Result<bool, SearchFault> {
        if let Some(edge) = self.waiting.pop() {
            self.put_again(alloc, board, edge)?;
            return Ok(true);
        }
        if self.about.is_empty() {
            return Ok(false);
        }
        let about = board.marks.keep_unmarked(alloc, &self.about)?;
        let passes = self.passes.saturating_sub(1);
        self.begin(alloc, board, about, passes)?;
        Ok(true)
    }

    /// Puts an edge in again. Where that saves something, and another pass is to come, the edges
    /// that it has crossed and crosses now take part in that.
    fn put_again<F: PriceFn>(
        &mut self,
        alloc: Global,
        board: &mut Board<F>,
        edge: u32,
    ) -> Result<(), SearchFault> {
        if self.passes <= 1 {
            put_again(alloc, board, edge)?;
            return Ok(());
        }
        let before = self.about.len();
        add_crossed(board, edge, &mut self.about)?;
        if put_again(alloc, board, edge)? == 0 {
            self.about.truncate(before);
            return Ok(());
        }
        add_crossed(board, edge, &mut self.about)?;
        append(&mut self.about, edge)?;
        Ok(())
    }
}
