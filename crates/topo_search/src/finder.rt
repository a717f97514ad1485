//! How the route of an edge is found.

ghost use Rattle.std.specs.Prelude.{◌<◌, ◌≢◌, IfOk, IfSome, length};
ghost use Rattle.topo_core.specs.Routes.{IsSimpleRoute};

use crate::levels::Levels;
use crate::simple::simple_route;
use std::alloc::{AllocError, Global};
use topo_core::routes::Route;
use topo_picture::Picture;
use topo_price::tariff::{PriceFn, Tariff};
use topo_route::search::first_route;
use topo_route::workspace::Workspace;

/// A route, what it crosses at these prices, and the faces looked at.
#[derive(Drop)]
pub(crate) struct Found {
    pub route: Route,
    pub price: u64,
    pub faces: usize,
}

/// What finds routes.
#[derive(Drop)]
pub(crate) struct Finder {
    work: Workspace,
    // Where all edges cost the same.
    levels: Option<Levels>,
}

impl Finder {
    /// What finds routes where all edges cost the same, or do not.
    pub(crate) fn new(alloc: Global, is_plain: bool, seed: u32) -> Result<Self, AllocError> {
        let levels = if is_plain {
            Some(Levels::new(alloc, seed))
        } else {
            None
        };
        Ok(Finder {
            work: Workspace::new(alloc)?,
            levels,
        })
    }

    /// A route from `u` to `v` that crosses the fewest edges, where all cost the same; none where
    /// it is not found so.
    pub(crate) fn by_levels(
        &mut self,
        alloc: Global,
        picture: &Picture,
        u: u32,
        v: u32,
    ) -> Result<Option<Found>, AllocError>
        ensures { IfOk result (λ found. IfSome found
            (λ found. IsSimpleRoute picture.now.rows u v found.route)) }
    {
        let Some(levels) = &mut self.levels else {
            return Ok(None);
        };
        let graph = picture.embedded();
        let Some(walk) = levels.find(alloc, &graph, u, v)? else {
            return Ok(None);
        };
        let Some(route) = simple_route(alloc, &graph, u, v, &walk)? else {
            return Ok(None);
        };
        let crossed = route.crossed.len();
        let faces = if crossed > 0 { levels.reached() } else { 0 };
        Ok(Some(Found {
            route,
            price: crossed as u64,
            faces,
        }))
    }

    /// A least route from `u` to `v`; none where there is none.
    pub(crate) fn route<F: PriceFn>(
        &mut self,
        alloc: Global,
        picture: &Picture,
        tariff: &Tariff<F>,
        u: u32,
        v: u32,
    ) -> Result<Option<Found>, AllocError>
        requires u_there { u < length picture.now.rows.rotations }
        requires v_there { v < length picture.now.rows.rotations }
        requires apart { u ≢ v }
        ensures { IfOk result (λ found. IfSome found
            (λ found. IsSimpleRoute picture.now.rows u v found.route)) }
    {
        // For the proof: what the types keep.
        tariff.keeps_promise();
        picture.kept_rows();
        let found = self.by_levels(alloc, picture, u, v)?;
        if found.is_some() {
            return Ok(found);
        }
        let Ok(first) = first_route(alloc, &picture.embedded(), tariff, u, v, &mut self.work) else {
            return Err(AllocError);
        };
        let Some(first) = first else {
            return Ok(None);
        };
        let faces = if first.route.crossed.len() > 0 {
            self.work.reached()
        } else {
            0
        };
        Ok(Some(Found {
            route: first.route,
            price: first.price,
            faces,
        }))
    }
}
