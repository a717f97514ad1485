//! Lists of numbers by place, read and written with a test in place of a bound that is known.

use std::alloc::{AllocError, Global};

/// Stands where there is no number.
pub(crate) const NONE: u32 = u32::MAX;

/// The number at a place, and `NONE` where there is no such place.
pub(crate) fn at(list: &[u32], place: u32) -> u32 {
    match list.get(place as usize) {
        Some(number) => *number,
        None => NONE,
    }
}

/// Puts an item at a place, where there is one.
pub(crate) fn set<T: Copy>(list: &mut [T], place: u32, item: T) {
    let place = place as usize;
    if place < list.len() {
        list[place] = item;
    }
}

/// Whether it is true at a place. It is false where there is no such place.
pub(crate) fn is_set(list: &[bool], place: u32) -> bool {
    match list.get(place as usize) {
        Some(value) => *value,
        None => false,
    }
}

/// So many equal items.
pub(crate) fn equal_items<T: Copy>(
    alloc: Global,
    count: usize,
    item: T,
) -> Result<Vec<T>, AllocError> {
    let mut list = Vec::with_capacity(alloc, count)?;
    for _ in 0..count {
        list.push(item)?;
    }
    Ok(list)
}

/// The numbers from 0, so many.
pub(crate) fn first_numbers(alloc: Global, count: u32) -> Result<Vec<u32>, AllocError> {
    let mut list = Vec::with_capacity(alloc, count as usize)?;
    for number in 0..count {
        list.push(number)?;
    }
    Ok(list)
}

/// How long a list is, as a number of 32 bits: at most the greatest of these.
pub(crate) fn length_of<T>(list: &[T]) -> u32 {
    u32::try_from(list.len()).unwrap_or(u32::MAX)
}

/// Puts a number behind the others.
pub(crate) fn append(list: &mut Vec<u32>, number: u32) -> Result<(), AllocError> {
    list.push(number)?;
    Ok(())
}

/// A key that is above those with a lesser rank, and above those with this rank and a lesser place.
pub(crate) fn key_of(rank: u32, place: u32) -> u64 {
    rank as u64 * 0x1_0000_0000 + place as u64
}

/// The numbers of a list at the places that the keys name, the least key first.
pub(crate) fn ordered_by(
    alloc: Global,
    list: &[u32],
    keys: &mut [u64],
) -> Result<Vec<u32>, AllocError> {
    keys.sort_unstable();
    let mut ordered = Vec::with_capacity(alloc, keys.len())?;
    for key in keys.iter() {
        let place = (*key % 0x1_0000_0000) as u32;
        ordered.push(at(list, place))?;
    }
    Ok(ordered)
}

/// Marks on numbers, all taken away at once.
#[derive(Drop)]
pub(crate) struct Marks {
    rounds: Vec<u32>,
    round: u32,
}

impl Marks {
    /// Marks on the numbers below a bound, none of which has one.
    pub(crate) fn new(alloc: Global, bound: usize) -> Result<Self, AllocError> {
        Ok(Marks {
            rounds: equal_items(alloc, bound, 0)?,
            round: 1,
        })
    }

    /// Takes all marks away.
    pub(crate) fn clear(&mut self) {
        self.round = self.round.wrapping_add(1);
    }

    /// Marks a number, and says whether it had no mark. A number above the bound counts as marked.
    pub(crate) fn mark(&mut self, number: u32) -> bool {
        let place = number as usize;
        if place >= self.rounds.len() || self.rounds[place] == self.round {
            return false;
        }
        self.rounds[place] = self.round;
        true
    }

    /// Marks numbers, and leaves those in the list that had no mark.
    pub(crate) fn keep_unmarked(
        &mut self,
        alloc: Global,
        list: &[u32],
    ) -> Result<Vec<u32>, AllocError> {
        let mut kept = Vec::new(alloc);
        for number in list {
            if self.mark(*number) {
                kept.push(*number)?;
            }
        }
        Ok(kept)
    }
}
