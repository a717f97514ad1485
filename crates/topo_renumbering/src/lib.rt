//! Rows whose ids are closed up.
//!
//! Ids run out where many edges come and go. Then the rows of a picture are written anew, with ids
//! from 0 in the order of the old ones, and a list tells the id of before of each.
//!
//! A caller:
//!
//! ```rust
//! /// The rows of a picture with their ids from 0 on.
//! pub fn begun_anew(alloc: Global, rows: &Rows) -> Result<Option<Rows>, AllocError> {
//!     let closed = close_up(alloc, rows)?;
//!     Ok(closed.map(|(_ids, rows)| rows))
//! }
//! ```
#![tactic(auto)]

ghost use Rattle.std.specs.Prelude.{◌≡◌, IfOk, IfSome, length, map};
ghost use Rattle.std.specs.List.{range_with_len};
ghost use Rattle.topo_renumbering.specs.Renumbering.{IsRenumbered, cross_named, edge_named, named};

use std::alloc::{AllocError, Global};
use topo_core::listed::Listed;
use topo_core::rows::{CrossRow, EdgeRow, Rows};

/// What a renumbering did: at place i stands the id of before of the edge, or of the crossing, that
/// has id i now.
#[derive(Drop, Debug)]
pub struct Renumbered {
    pub crossings: Listed<u32>,
    pub edges: Listed<u32>,
}

/// The ids of edges, in their order.
fn edge_ids(alloc: Global, edges: &[EdgeRow]) -> Result<Listed<u32>, AllocError>
    ensures { IfOk result (λ ids. ids ≡ map (λ e. e.id) edges.now) }
{
    let mut ids = Vec::with_capacity(alloc, edges.len())?;
    for edge in edges {
        ids.push(edge.id)?;
    }
    Ok(Listed::from_vec(ids))
}

/// The ids of crossings, in their order.
fn cross_ids(alloc: Global, crossings: &[CrossRow]) -> Result<Listed<u32>, AllocError>
    ensures { IfOk result (λ ids. ids ≡ map (λ x. x.id) crossings.now) }
{
    let mut ids = Vec::with_capacity(alloc, crossings.len())?;
    for crossing in crossings {
        ids.push(crossing.id)?;
    }
    Ok(Listed::from_vec(ids))
}

/// The place of an id in a list of rising ids; none where it is not there.
fn place_of(ids: &[u32], id: u32) -> Option<u32>
    ensures { IfSome result (λ place. named ids.now place ≡ id) }
{
    let place = ids.binary_search(&id).ok()?;
    if place > u32::MAX as usize {
        return None;
    }
    Some(place as u32)
}

/// The new ids of some edges, or of some crossings; none where one has none.
fn renamed(alloc: Global, ids: &[u32], old: &[u32]) -> Result<Option<Listed<u32>>, AllocError>
    ensures { IfOk result (λ found. IfSome found (λ new. map (named ids.now) new ≡ old.now)) }
{
    let mut new = Vec::with_capacity(alloc, old.len())?;
    for id in old {
        let Some(place) = place_of(ids, *id) else {
            return Ok(None);
        };
        new.push(place)?;
    }
    Ok(Some(Listed::from_vec(new)))
}

/// Lists of edges round vertices with the new ids.
fn renamed_rotations(
    alloc: Global,
    ids: &[u32],
    old: &[Listed<u32>],
) -> Result<Option<Listed<Listed<u32>>>, AllocError>
    ensures { IfOk result (λ found. IfSome found (λ new. map (map (named ids.now)) new ≡ old.now)) }
{
    let mut new = Vec::with_capacity(alloc, old.len())?;
    for around in old {
        let Some(around) = renamed(alloc, ids, around.as_slice())? else {
            return Ok(None);
        };
        new.push(around)?;
    }
    Ok(Some(Listed::from_vec(new)))
}

/// The new id of what stands at this place with this id of before; none where another id does.
fn new_id(ids: &[u32], place: usize, old: u32) -> Option<u32>
    ensures { IfSome result (λ id. (id ≡ place) × (named ids.now id ≡ old)) }
{
    if place > u32::MAX as usize || place >= ids.len() || ids[place] != old {
        return None;
    }
    Some(place as u32)
}

/// The edge at this place with the new ids.
fn renamed_edge(
    alloc: Global,
    ids: &Renumbered,
    place: usize,
    old: &EdgeRow,
) -> Result<Option<EdgeRow>, AllocError>
    ensures { IfOk result (λ found. IfSome found
        (λ new. (edge_named ids.now new ≡ old.now) × (new.id ≡ place))) }
{
    let Some(id) = new_id(ids.edges.as_slice(), place, old.id) else {
        return Ok(None);
    };
    let found = renamed(alloc, ids.crossings.as_slice(), old.crossings.as_slice())?;
    let Some(crossings) = found else {
        return Ok(None);
    };
    Ok(Some(EdgeRow {
        id,
        a: old.a,
        b: old.b,
        kind: old.kind,
        crossings,
    }))
}

/// The edges with the new ids.
fn renamed_edges(
    alloc: Global,
    ids: &Renumbered,
    old: &[EdgeRow],
) -> Result<Option<Listed<EdgeRow>>, AllocError>
    ensures named { IfOk result
        (λ found. IfSome found (λ new. map (edge_named ids.now) new ≡ old.now)) }
    ensures closed_up { IfOk result (λ found. IfSome found
        (λ new. map (λ e. e.id) new ≡ range_with_len 0 (length old.now))) }
{
    let mut new = Vec::with_capacity(alloc, old.len())?;
    for (place, edge) in old.iter().enumerate() {
        let Some(edge) = renamed_edge(alloc, ids, place, edge)? else {
            return Ok(None);
        };
        new.push(edge)?;
    }
    Ok(Some(Listed::from_vec(new)))
}

/// The crossing at this place with the new ids.
fn renamed_crossing(ids: &Renumbered, place: usize, old: CrossRow) -> Option<CrossRow>
    ensures { IfSome result (λ new. (cross_named ids.now new ≡ old) × (new.id ≡ place)) }
{
    let id = new_id(ids.crossings.as_slice(), place, old.id)?;
    let crossed = place_of(ids.edges.as_slice(), old.crossed)?;
    let newcomer = place_of(ids.edges.as_slice(), old.newcomer)?;
    Some(CrossRow {
        id,
        crossed,
        newcomer,
        sign: old.sign,
    })
}

/// The crossings with the new ids.
fn renamed_crossings(
    alloc: Global,
    ids: &Renumbered,
    old: &[CrossRow],
) -> Result<Option<Listed<CrossRow>>, AllocError>
    ensures named { IfOk result
        (λ found. IfSome found (λ new. map (cross_named ids.now) new ≡ old.now)) }
    ensures closed_up { IfOk result (λ found. IfSome found
        (λ new. map (λ x. x.id) new ≡ range_with_len 0 (length old.now))) }
{
    let mut new = Vec::with_capacity(alloc, old.len())?;
    for (place, crossing) in old.iter().enumerate() {
        let Some(crossing) = renamed_crossing(ids, place, *crossing) else {
            return Ok(None);
        };
        new.push(crossing)?;
    }
    Ok(Some(Listed::from_vec(new)))
}

/// The number of rows that have ids, as the next id.
fn next_id(rows: usize) -> Option<u32>
    ensures { IfSome result (λ next. next ≡ rows) }
{
    if rows > u32::MAX as usize {
        return None;
    }
    Some(rows as u32)
}

/// Rows with their ids closed up from 0 in their order, and what that did. Rows of a picture have
/// such rows.
pub fn close_up(alloc: Global, old: &Rows) -> Result<Option<(Renumbered, Rows)>, AllocError>
    ensures { IfOk result (λ found. IfSome found (λ made. IsRenumbered old.now made.0 made.1)) }
{
    let ids = Renumbered {
        crossings: cross_ids(alloc, old.crossings.as_slice())?,
        edges: edge_ids(alloc, old.edges.as_slice())?,
    };
    let found = renamed_rotations(alloc, ids.edges.as_slice(), old.rotations.as_slice())?;
    let Some(rotations) = found else {
        return Ok(None);
    };
    let Some(edges) = renamed_edges(alloc, &ids, old.edges.as_slice())? else {
        return Ok(None);
    };
    let Some(crossings) = renamed_crossings(alloc, &ids, old.crossings.as_slice())? else {
        return Ok(None);
    };
    let (Some(next_edge), Some(next_crossing)) = (next_id(edges.len()), next_id(crossings.len()))
    else {
        return Ok(None);
    };
    let new = Rows {
        rotations,
        edges,
        crossings,
        next_edge,
        next_crossing,
    };
    Ok(Some((ids, new)))
}
