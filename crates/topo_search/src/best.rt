//! The best picture so far.

use crate::board::{Board, Score};
use crate::search::SearchFault;
use crate::turning::turn_as_in;
use std::alloc::Global;
use topo_core::rows::Rows;
use topo_price::tariff::PriceFn;
use topo_renumbering::close_up;

/// The rows of a picture with all edges, with ids from 0 on, the edge of each row, and how dear it
/// is.
#[derive(Drop)]
pub(crate) struct Best {
    pub rows: Rows,
    pub edges: Vec<u32>,
    pub score: Score,
}

/// The picture as it is now.
fn taken<F: PriceFn>(alloc: Global, board: &Board<F>) -> Result<Best, SearchFault> {
    let old = board.picture.rows(alloc)?;
    let Some((ids, mut rows)) = close_up(alloc, &old)? else {
        return Err(SearchFault::TooLarge);
    };
    let edges = board.edges_of(alloc, ids.edges.as_slice())?;
    turn_as_in(alloc, &board.graph.edges, &edges, &mut rows)?;
    Ok(Best {
        rows,
        edges,
        score: board.score(),
    })
}

/// Whether a picture is better than the best one so far.
fn is_better(score: Score, best: &Option<Best>) -> bool {
    match best {
        Some(best) => score < best.score,
        None => true,
    }
}

/// Keeps the picture where it has all edges and is better than the best one so far, and says
/// whether it did.
pub(crate) fn keep<F: PriceFn>(
    alloc: Global,
    board: &Board<F>,
    best: &mut Option<Best>,
) -> Result<bool, SearchFault> {
    if !board.is_whole() || !is_better(board.score(), best) {
        return Ok(false);
    }
    *best = Some(taken(alloc, board)?);
    Ok(true)
}
