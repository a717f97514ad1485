//! Walks through the faces of a picture.

ghost use Rattle.std.specs.Prelude.{◌≡◌, IfOk};

use crate::darts::Dart;
use crate::ids::EdgeId;
use crate::listed::Listed;
use std::alloc::{AllocError, Global};

/// A walk in the dual graph: from the corner at position `start` of one vertex, across the darts in
/// order, to the corner at position `end` of another. The corner at position p of a vertex is the
/// one before entry p of its list, and crossing a dart leads from the face on its left to the face
/// on the left of its twin.
#[derive(Drop, Debug)]
pub struct Route {
    pub start: u32,
    pub crossed: Listed<Dart>,
    pub end: u32,
}

impl Route {
    /// A copy of a route.
    pub fn copy(&self, alloc: Global) -> Result<Self, AllocError>
        ensures { IfOk result (λ route. route ≡ self.now) }
    {
        let crossed = Vec::from_slice(alloc, self.crossed.as_slice())?;
        Ok(Route {
            start: self.start,
            crossed: Listed::from_vec(crossed),
            end: self.end,
        })
    }
}

/// An edge that was put in along a route of this price.
#[derive(Drop, Debug)]
pub struct Inserted {
    pub id: EdgeId,
    pub route: Route,
    pub price: u64,
}

impl Inserted {
    /// A copy of an insertion.
    pub fn copy(&self, alloc: Global) -> Result<Self, AllocError>
        ensures { IfOk result (λ made. made ≡ self.now) }
    {
        Ok(Inserted {
            id: self.id,
            route: self.route.copy(alloc)?,
            price: self.price,
        })
    }
}
