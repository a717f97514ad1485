//! Lists of numbers, one behind the other in one list, so that none takes memory of its own.

use crate::lists::{NONE, at, length_of};
use std::alloc::{AllocError, Global};

/// Lists of numbers, named by their places.
#[derive(Drop)]
pub(crate) struct Groups {
    // Where each list begins, and where the last one ends.
    begins: Vec<u32>,
    numbers: Vec<u32>,
}

impl Groups {
    /// Groups without a list.
    pub(crate) fn new(alloc: Global) -> Result<Self, AllocError> {
        let mut begins = Vec::new(alloc);
        begins.push(0)?;
        Ok(Groups {
            begins,
            numbers: Vec::new(alloc),
        })
    }

    /// Puts a number behind the last list.
    pub(crate) fn push(&mut self, number: u32) -> Result<(), AllocError> {
        self.numbers.push(number)?;
        Ok(())
    }

    /// Makes the numbers behind the last list a list.
    pub(crate) fn close(&mut self) -> Result<(), AllocError> {
        let end = length_of(&self.numbers);
        self.begins.push(end)?;
        Ok(())
    }

    /// Makes the first of the numbers behind the last list a list, and then the others.
    pub(crate) fn close_first(&mut self) -> Result<(), AllocError> {
        let begin = self.begins.last().copied().unwrap_or(0);
        self.begins.push(begin.saturating_add(1))?;
        self.close()
    }

    /// A list; the empty one where there is no such list.
    pub(crate) fn get(&self, list: u32) -> &[u32] {
        let begin = at(&self.begins, list) as usize;
        let end = at(&self.begins, list.saturating_add(1)) as usize;
        self.numbers.get(begin..end).unwrap_or(&[])
    }

    /// The first number of a list; `NONE` where there is none.
    pub(crate) fn first(&self, list: u32) -> u32 {
        self.get(list).first().copied().unwrap_or(NONE)
    }
}
