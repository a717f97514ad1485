//! When a pass looks for routes before it has the lock.

/// So many routes in a row are looked for under the lock at most.
const MAX_PAUSE: u32 = 63;

/// Whether it is worth looking ahead for a route. One that is found ahead is lost work if others
/// change what its search has seen. Once that may be chance. After two such routes in a row the
/// pass looks for one route under the lock, and for some twice as many after each further one. It
/// is speed alone: no answer depends on it.
#[derive(Clone, Copy, Debug, Drop)]
pub(crate) struct Lookahead {
    pause: u32,
    left: u32,
}

impl Lookahead {
    /// Of a new pass: it looks ahead.
    pub(crate) fn new() -> Self {
        Lookahead { pause: 0, left: 0 }
    }

    /// Whether the next route is looked for ahead.
    pub(crate) fn is_due(&mut self) -> bool {
        if self.left == 0 {
            return true;
        }
        self.left -= 1;
        false
    }

    /// Takes note, if a call brought a route that was found ahead, of whether it was taken without
    /// a search.
    pub(crate) fn note(&mut self, is_found: bool, is_taken: bool) {
        if is_found && is_taken {
            self.pause = 0;
        } else if is_found {
            self.left = self.pause;
            self.pause = self
                .pause
                .saturating_mul(2)
                .saturating_add(1)
                .min(MAX_PAUSE);
        }
    }
}
