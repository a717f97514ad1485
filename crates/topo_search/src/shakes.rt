//! Shakes: some edges that lie close together are taken out and put in again.

use crate::board::Board;
use crate::lists::append;
use crate::moves::{add_crossed, crossings_of, take_out};
use std::alloc::{AllocError, Global};
use topo_price::tariff::PriceFn;

/// So many edges are taken out at least.
const LEAST: usize = 2;

/// The greatest number of edges taken out lies between these.
const FEW: u64 = 25;

const MANY: u64 = 128;

/// Between them it is one for so many crossings.
const CROSSINGS_FOR_EACH: u64 = 16;

/// So many edges about one that was chosen are looked at.
const ABOUT_EACH: usize = 3;

/// So often a crossed edge is sought at random.
const RANDOM_TRIES: u32 = 64;

/// The edges that were taken out, in random order, and those that they have crossed.
#[derive(Drop)]
pub(crate) struct Shaken {
    pub out: Vec<u32>,
    pub crossed: Vec<u32>,
}

/// How many edges are to be taken out.
fn count_of<F: PriceFn>(board: &mut Board<F>) -> usize {
    let by_crossings = (board.crossings() / CROSSINGS_FOR_EACH).clamp(FEW, MANY) as usize;
    let by_edges = (board.graph.edges.len() / 4).max(3);
    let most = by_crossings.min(by_edges);
    LEAST.saturating_add(
        board
            .random
            .below(most.saturating_sub(LEAST).saturating_add(1)),
    )
}

/// The first crossed edge from one on, round the whole list.
fn crossed_from<F: PriceFn>(board: &Board<F>, first: u32) -> Option<u32> {
    let count = board.graph.edge_count();
    for edge in first..count {
        if crossings_of(board, edge) > 0 {
            return Some(edge);
        }
    }
    for edge in 0..first.min(count) {
        if crossings_of(board, edge) > 0 {
            return Some(edge);
        }
    }
    None
}

/// An edge chosen at random.
fn random_edge<F: PriceFn>(board: &mut Board<F>) -> u32 {
    let place = board.random.below(board.graph.edges.len());
    u32::try_from(place).unwrap_or(0)
}

/// A random crossed edge; none where there is none.
fn random_crossed<F: PriceFn>(board: &mut Board<F>) -> Option<u32> {
    for _ in 0..RANDOM_TRIES {
        let edge = random_edge(board);
        if crossings_of(board, edge) > 0 {
            return Some(edge);
        }
    }
    let first = random_edge(board);
    crossed_from(board, first)
}

/// Writes into the list the edges that an edge crosses and those that it meets at its ends.
fn list_about<F: PriceFn>(
    board: &Board<F>,
    edge: u32,
    about: &mut Vec<u32>,
) -> Result<(), AllocError> {
    about.clear();
    add_crossed(board, edge, about)?;
    if let Some(ends) = board.graph.edge(edge) {
        board.graph.add_edges_of(ends.a, about)?;
        board.graph.add_edges_of(ends.b, about)?;
    }
    Ok(())
}

/// Takes a random number off a list.
fn take_random<F: PriceFn>(board: &mut Board<F>, list: &mut Vec<u32>) -> Option<u32> {
    let place = board.random.below(list.len());
    if place < list.len() {
        Some(list.swap_remove(place))
    } else {
        None
    }
}

/// Adds some of the edges about one to those that were chosen, and to those whose turn is to come.
fn add_some<F: PriceFn>(
    board: &mut Board<F>,
    about: &[u32],
    count: usize,
    chosen: &mut Vec<u32>,
    waiting: &mut Vec<u32>,
) -> Result<(), AllocError> {
    for _ in 0..ABOUT_EACH.min(about.len()) {
        if let Some(edge) = board.random.item(about) {
            if chosen.len() < count && board.marks.mark(edge) {
                append(chosen, edge)?;
                append(waiting, edge)?;
            }
        }
    }
    Ok(())
}

/// Chooses edges to be taken out: a crossed one, and always some that cross or meet one of those
/// before.
fn choose<F: PriceFn>(alloc: Global, board: &mut Board<F>) -> Result<Vec<u32>, AllocError> {
    let count = count_of(board);
    let mut chosen = Vec::new(alloc);
    let Some(first) = random_crossed(board) else {
        return Ok(chosen);
    };
    board.marks.clear();
    board.marks.mark(first);
    chosen.push(first)?;
    let mut waiting = Vec::new(alloc);
    waiting.push(first)?;
    let mut about = Vec::new(alloc);
    for _ in 0..count {
        let Some(edge) = take_random(board, &mut waiting) else {
            break;
        };
        list_about(board, edge, &mut about)?;
        add_some(board, &about, count, &mut chosen, &mut waiting)?;
    }
    Ok(chosen)
}

/// Takes out some edges that lie close together.
pub(crate) fn shake<F: PriceFn>(alloc: Global, board: &mut Board<F>) -> Result<Shaken, AllocError> {
    let chosen = choose(alloc, board)?;
    let mut out = Vec::new(alloc);
    let mut crossed = Vec::new(alloc);
    for edge in &chosen {
        let before = crossed.len();
        add_crossed(board, *edge, &mut crossed)?;
        if take_out(alloc, board, *edge)? {
            out.push(*edge)?;
        } else {
            crossed.truncate(before);
        }
    }
    board.random.shuffle(&mut out);
    Ok(Shaken { out, crossed })
}

/// The edges that were taken out, those that they have crossed, and those that they cross now, each
/// once.
pub(crate) fn about_shaken<F: PriceFn>(
    alloc: Global,
    board: &mut Board<F>,
    shaken: &mut Shaken,
) -> Result<Vec<u32>, AllocError> {
    let Shaken { out, crossed } = shaken;
    for edge in out.iter() {
        add_crossed(board, *edge, crossed)?;
    }
    crossed.extend_from_slice(out)?;
    board.marks.clear();
    board.marks.keep_unmarked(alloc, crossed)
}
