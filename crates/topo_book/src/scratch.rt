//! What the calls of a book write on.

use crate::search_cost::SearchCost;
use std::alloc::{AllocError, Global};
use topo_dual::NumberLists;
use topo_route::workspace::Workspace;

/// What searches write on, and the lists in which the check of a plan numbers the darts, kept from
/// one call to the next. Each call writes what it reads, whatever the one before it left. Beside
/// them is what the searches have cost.
#[derive(Drop)]
pub(crate) struct Scratch {
    pub work: Workspace,
    pub lists: NumberLists,
    pub cost: SearchCost,
}

impl Scratch {
    /// Scratch space for pictures of any size.
    pub(crate) fn new(alloc: Global) -> Result<Self, AllocError> {
        Ok(Scratch {
            work: Workspace::new(alloc)?,
            lists: NumberLists::new(alloc),
            cost: SearchCost::none(),
        })
    }
}
