//! Edges put in and taken out.

use crate::board::Board;
use crate::finder::{Finder, Found};
use crate::lists::length_of;
use crate::search::SearchFault;
use std::alloc::{AllocError, Global};
use topo_core::calls::Refusal;
use topo_picture::Picture;
use topo_price::tariff::{PriceFn, Tariff};

/// What it costs to put an edge in, beside the faces looked at, in such faces.
const MOVE_COST: u64 = 30;

/// An edge from `u` to `v`.
#[derive(Clone, Copy)]
struct NewEdge {
    u: u32,
    v: u32,
    kind: u32,
    may_cross: bool,
}

/// An edge that was put in: its id, what it crosses at these prices, and the faces looked at.
#[derive(Clone, Copy)]
struct Made {
    id: u32,
    price: u64,
    faces: usize,
}

/// Puts an edge in along a least route. It is refused as NoRoute where it has none, too, and where
/// it has to cross others and may not.
fn insert<F: PriceFn>(
    alloc: Global,
    picture: &mut Picture,
    tariff: &Tariff<F>,
    edge: NewEdge,
    finder: &mut Finder,
) -> Result<Made, Refusal> {
    let NewEdge { u, v, kind, .. } = edge;
    picture.admit(u, v, kind)?;
    let Ok(found) = finder.route(alloc, picture, tariff, u, v) else {
        return Err(Refusal::Memory);
    };
    let Some(
        Found {
            route,
            price,
            faces,
        },
    ) = found
    else {
        return Err(Refusal::NoRoute);
    };
    if route.crossed.len() > 0 && !edge.may_cross {
        return Err(Refusal::NoRoute);
    }
    let id = picture.apply_route(alloc, u, v, kind, &route)?;
    Ok(Made {
        id: id.number(),
        price,
        faces,
    })
}

/// An edge of the graph with its ends in a random order.
fn new_edge<F: PriceFn>(board: &mut Board<F>, edge: u32) -> Option<NewEdge> {
    let ends = board.graph.edge(edge)?;
    let may_cross = board.graph.price(edge).is_some();
    let (u, v) = if board.random.flip() {
        (ends.b, ends.a)
    } else {
        (ends.a, ends.b)
    };
    Some(NewEdge {
        u,
        v,
        kind: ends.kind,
        may_cross,
    })
}

/// Puts an edge of the graph in, along a least route. Where ids run out they are given anew.
pub(crate) fn put_in<F: PriceFn>(
    alloc: Global,
    board: &mut Board<F>,
    edge: u32,
) -> Result<(), SearchFault> {
    let Some(new) = new_edge(board, edge) else {
        return Ok(());
    };
    if board.has_used_many_ids() {
        board.renumber(alloc)?;
    }
    let mut made = insert(
        alloc,
        &mut board.picture,
        &board.tariff,
        new,
        &mut board.finder,
    );
    if matches!(made, Err(Refusal::Full)) {
        board.renumber(alloc)?;
        made = insert(
            alloc,
            &mut board.picture,
            &board.tariff,
            new,
            &mut board.finder,
        );
    }
    match made {
        Ok(made) => {
            note_made(board, edge, &made)?;
            Ok(())
        }
        Err(Refusal::Memory) => Err(SearchFault::Memory),
        Err(Refusal::Full) => Err(SearchFault::TooLarge),
        Err(_) => Err(SearchFault::NotPlanarized(edge)),
    }
}

/// Notes an edge that was put in.
fn note_made<F: PriceFn>(board: &mut Board<F>, edge: u32, made: &Made) -> Result<(), AllocError> {
    let price = board.graph.price(edge).unwrap_or(1) as u64;
    let added = price.saturating_mul(made.price);
    let faces = made.faces as u64;
    board.ids.note(edge, made.id)?;
    board.cost = board.cost.saturating_add(added);
    board.spent = board.spent.saturating_add(faces).saturating_add(MOVE_COST);
    Ok(())
}

/// How many crossings an edge has, and 0 where it is not in the picture.
pub(crate) fn crossings_of<F: PriceFn>(board: &Board<F>, edge: u32) -> u32 {
    let Some(id) = board.ids.id(edge) else {
        return 0;
    };
    match board.picture.kept_rows().edge(id) {
        Some(row) => length_of(row.crossings.as_slice()),
        None => 0,
    }
}

/// The edge of the graph that an edge of the picture crosses there.
fn other_edge<F: PriceFn>(board: &Board<F>, id: u32, crossing: u32) -> Option<u32> {
    let crossing = board.picture.kept_rows().crossing(crossing)?;
    if crossing.crossed == id {
        board.ids.edge(crossing.newcomer)
    } else {
        board.ids.edge(crossing.crossed)
    }
}

/// Adds to a list the edges that an edge of the picture crosses at these crossings.
fn add_others<F: PriceFn>(
    board: &Board<F>,
    id: u32,
    crossings: &[u32],
    list: &mut Vec<u32>,
) -> Result<(), AllocError> {
    for crossing in crossings {
        if let Some(edge) = other_edge(board, id, *crossing) {
            list.push(edge)?;
        }
    }
    Ok(())
}

/// Adds to a list the edges that an edge crosses, each as often as it crosses it.
pub(crate) fn add_crossed<F: PriceFn>(
    board: &Board<F>,
    edge: u32,
    list: &mut Vec<u32>,
) -> Result<(), AllocError> {
    let Some(id) = board.ids.id(edge) else {
        return Ok(());
    };
    match board.picture.kept_rows().edge(id) {
        Some(row) => add_others(board, id, row.crossings.as_slice(), list),
        None => Ok(()),
    }
}

/// What the crossings of an edge cost.
pub(crate) fn cost_of<F: PriceFn>(
    alloc: Global,
    board: &Board<F>,
    edge: u32,
) -> Result<u64, AllocError> {
    if board.graph.is_plain {
        return Ok(crossings_of(board, edge) as u64);
    }
    let mut crossed = Vec::new(alloc);
    add_crossed(board, edge, &mut crossed)?;
    let price = board.graph.price(edge).unwrap_or(1) as u64;
    let mut cost: u64 = 0;
    for other in &crossed {
        let other = board.graph.price(*other).unwrap_or(1) as u64;
        cost = cost.saturating_add(price.saturating_mul(other));
    }
    Ok(cost)
}

/// Takes an edge out, where the picture is connected without it, and says whether it did.
pub(crate) fn take_out<F: PriceFn>(
    alloc: Global,
    board: &mut Board<F>,
    edge: u32,
) -> Result<bool, AllocError> {
    if !board.graph.is_movable(edge) {
        return Ok(false);
    }
    let Some(id) = board.ids.id(edge) else {
        return Ok(false);
    };
    let cost = cost_of(alloc, board, edge)?;
    board.spent = board.spent.saturating_add(MOVE_COST);
    if board.picture.delete(id).is_err() {
        return Ok(false);
    }
    board.ids.forget(edge);
    board.cost = board.cost.saturating_sub(cost);
    Ok(true)
}

/// Takes an edge that is crossed out and puts it in again, and says what that has saved.
pub(crate) fn put_again<F: PriceFn>(
    alloc: Global,
    board: &mut Board<F>,
    edge: u32,
) -> Result<u64, SearchFault> {
    if crossings_of(board, edge) == 0 {
        return Ok(0);
    }
    let before = board.cost;
    if !take_out(alloc, board, edge)? {
        return Ok(0);
    }
    put_in(alloc, board, edge)?;
    Ok(before.saturating_sub(board.cost))
}
