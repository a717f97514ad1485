//! How many pictures passes have of their own.

use std::sync::atomic::{AtomicU32, Ordering};

/// Of so many passes each may have a picture of its own.
const FEW_PASSES: u32 = 4;

/// Of more passes so many have one at most.
const MAX_COPIES: u32 = 2;

/// How many passes have a picture of their own, on which they look for routes. It bounds memory
/// alone: no answer depends on it.
#[derive(Drop)]
pub(crate) struct Copies {
    taken: AtomicU32,
    most: u32,
}

impl Copies {
    /// Of a service of so many passes at most, none of which has a picture of its own.
    pub(crate) fn new(passes: u32) -> Self {
        let most = if passes <= FEW_PASSES {
            passes
        } else {
            MAX_COPIES
        };
        Copies {
            taken: AtomicU32::new(0),
            most,
        }
    }

    /// Whether one more pass may have a picture of its own: from now on it has one.
    pub(crate) fn take(&self) -> bool {
        if self.taken.fetch_add(1, Ordering::SeqCst) < self.most {
            return true;
        }
        self.give_back();
        false
    }

    /// Lets a pass go that had a picture of its own.
    pub(crate) fn give_back(&self) {
        let _ = self.taken.fetch_sub(1, Ordering::SeqCst);
    }
}
