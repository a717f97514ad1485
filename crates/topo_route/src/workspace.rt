//! What searches write on.

ghost use Rattle.std.specs.Prelude.{◌≡◌, ◌+◌, ◌<◌, ◌^◌, [], IfOk, length};

use crate::spread::SearchState;
use std::alloc::{AllocError, Global};

/// What a search knows of the faces from both of its ends, kept for the next one. Each search
/// begins with all of it blank, whatever the one before it left, and that takes no time that grows
/// with the picture, but where the picture has more labels of faces than any before.
pub struct Workspace {
    pub(crate) to_end: SearchState,
    pub(crate) to_start: SearchState,
}

// Written out, so that it is proved once: a derived one is proved anew in each function that lets
// such a value go.
impl Drop for Workspace {
    fn drop(self) {
        let Workspace { to_end, to_start } = self;
        drop(to_end);
        drop(to_start);
    }
}

impl Workspace {
    /// A workspace for pictures of any size.
    pub fn new(alloc: Global) -> Result<Self, AllocError> {
        Workspace::with_room(alloc, 0)
    }

    /// A workspace with room for so many faces that wait for the target, before it asks for more.
    pub(crate) fn with_room(alloc: Global, room: usize) -> Result<Self, AllocError>
        ensures { IfOk result (λ work. work.to_start.heights ≡ []) }
    {
        Ok(Workspace {
            to_end: SearchState::new(alloc, room)?,
            to_start: SearchState::new(alloc, 0)?,
        })
    }

    /// How many faces the last search has reached, from both ends together: what it has cost. A
    /// route that crosses nothing is found without a search, and then it is of the one before.
    pub fn reached(&self) -> usize
        ensures { length self.now.to_end.names.items + length self.now.to_start.names.items < 2 ^ 64
            → result ≡ length self.now.to_end.names.items + length self.now.to_start.names.items }
    {
        let from_start = self.to_start.names.len();
        self.to_end.names.len().saturating_add(from_start)
    }
}
