//! Lists of numbers that may be read and written at any place.

use std::alloc::{AllocError, Global};

/// Stands for no vertex, no edge and no place.
pub(crate) const NONE: u32 = u32::MAX;

/// A number as 32 bits, and the greatest such number where it is greater.
pub(crate) fn number_of(count: usize) -> u32 {
    u32::try_from(count).unwrap_or(NONE)
}

/// The number in a place, and `NONE` where the list has no such place.
pub(crate) fn number_at(list: &[u32], place: u32) -> u32 {
    let place = place as usize;
    if place < list.len() {
        list[place]
    } else {
        NONE
    }
}

/// Numbers by their places. Outside of the list each number is `NONE`, and writing one changes
/// nothing.
#[derive(Drop)]
pub(crate) struct Numbers {
    items: Vec<u32>,
}

impl Numbers {
    /// A list without numbers.
    pub(crate) fn new(alloc: Global) -> Self {
        Numbers {
            items: Vec::new(alloc),
        }
    }

    /// Makes it a list of so many times the same number.
    pub(crate) fn reset(&mut self, count: u32, number: u32) -> Result<(), AllocError> {
        self.items.clear();
        self.items.resize(count as usize, number)
    }

    /// The number in a place.
    pub(crate) fn at(&self, place: u32) -> u32 {
        number_at(self.items.as_slice(), place)
    }

    /// Writes the number in a place.
    pub(crate) fn set(&mut self, place: u32, number: u32) {
        let place = place as usize;
        if place < self.items.len() {
            self.items[place] = number;
        }
    }

    /// Makes the number in a place greater by one.
    pub(crate) fn increase(&mut self, place: u32) {
        let more = self.at(place).saturating_add(1);
        self.set(place, more);
    }

    /// Makes the number in a place this one where it is greater.
    pub(crate) fn lower(&mut self, place: u32, number: u32) {
        if number < self.at(place) {
            self.set(place, number);
        }
    }
}
