//! Tables of the places of edges and crossings, by their ids.

use crate::by_id::Identified;
use std::alloc::{AllocError, Global};
use topo_core::rows::Rows;

/// No places are noted for ids when more than this many ids were given for each row that is there.
const MAX_IDS_PER_ROW: usize = 16;

/// For the ids of edges and of crossings the places of their rows. It is a cache: each hit is
/// checked, and a miss falls back to binary search. So no result depends on it, and nothing is
/// claimed of it.
#[derive(Drop)]
pub struct IdIndex {
    edges: Vec<u32>,
    crossings: Vec<u32>,
}

impl IdIndex {
    /// The places in these rows.
    pub fn of(alloc: Global, rows: &Rows) -> Result<Self, AllocError> {
        let edges = places_by_id(alloc, rows.edges.as_slice(), rows.next_edge)?;
        let crossings = places_by_id(alloc, rows.crossings.as_slice(), rows.next_crossing)?;
        Ok(IdIndex { edges, crossings })
    }

    /// Where the edge with an id is expected.
    pub(crate) fn edge(&self, id: u32) -> usize {
        expected(self.edges.as_slice(), id)
    }

    /// Where the crossing with an id is expected.
    pub(crate) fn crossing(&self, id: u32) -> usize {
        expected(self.crossings.as_slice(), id)
    }
}

/// Where something with a number is expected: at the place that is noted, and else where nothing
/// smaller is gone.
pub fn expected(places: &[u32], number: u32) -> usize {
    match places.get(number as usize) {
        Some(place) => *place as usize,
        None => number as usize,
    }
}

/// A place as it is noted. No rows are so many that one does not fit.
fn noted(place: usize) -> u32 {
    if place < u32::MAX as usize {
        place as u32
    } else {
        u32::MAX
    }
}

/// The places of rows by their ids, of which so many were given. Where there are as many rows, each
/// id is expected at its own place, and no place is noted.
fn places_by_id<T: Identified>(
    alloc: Global,
    rows: &[T],
    given: u32,
) -> Result<Vec<u32>, AllocError> {
    if given as usize == rows.len() || given as usize / MAX_IDS_PER_ROW > rows.len() {
        return Ok(Vec::new(alloc));
    }
    let mut places = vec![in alloc; 0; given as usize]?;
    note_places(&mut places, rows);
    Ok(places)
}

/// Notes the place of each row at its id, as far as there is room.
fn note_places<T: Identified>(places: &mut [u32], rows: &[T]) {
    for place in 0..rows.len() {
        let id = rows[place].id() as usize;
        if id < places.len() {
            places[id] = noted(place);
        }
    }
}
