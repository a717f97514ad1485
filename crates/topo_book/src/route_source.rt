//! Where the route of an insertion comes from.

ghost use Rattle.std.specs.Prelude.{◌≡◌, ⊤};

use std::alloc::AllocError;
use topo_route::plan::Plan;

/// Where the route of an insertion comes from, so that a search may be spared. `R` is what a known
/// route is handed over as.
pub enum RouteSource<'a, R> {
    /// A search: nothing is known.
    Search,
    /// A plan that nothing is known of: its route is taken where the plan passes the check, and
    /// else there is a search.
    Plan(&'a Plan),
    /// A route that was found before.
    Found(&'a R),
}

// Both are written out: derived ones would want a route that can be copied, and only a reference to
// it is here.
impl<'a, R> Clone for RouteSource<'a, R> {
    ghost is_clone = { λ before after. after ≡ before };

    ghost is_infallible = { λ _. ⊤ };

    fn clone(&self) -> Result<Self, AllocError> {
        Ok(*self)
    }
}

impl<'a, R> Copy for RouteSource<'a, R> {}
