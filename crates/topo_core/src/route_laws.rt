//! Laws of routes, prices and certificates. The functions do nothing: their contracts are the laws.

ghost use Rattle.topo_core.specs.RouteLaws.{CertificateBounds, CornersAreDarts};
ghost use Rattle.topo_core.specs.RouteLaws.{CostsAtLeastLength, FirstByHeightsIsFirst};
ghost use Rattle.topo_core.specs.RouteLaws.{HasOneCost, LeastIsSimple, RoutesExist};

use crate::prices::Prices;

/// The corners of a vertex are named by darts of the picture.
pub fn corners_are_darts()
    ensures { CornersAreDarts }
{}

/// Under a certificate no route costs less than the height of the corner where it starts.
pub fn certificate_bounds<P: Prices>()
    ensures { CertificateBounds P.price }
{}

/// Under a certificate a route that is first by its heights is the first of the least routes.
pub fn first_by_heights_is_first<P: Prices>()
    ensures { FirstByHeightsIsFirst P.price }
{}

/// A walk costs at least the number of darts that it crosses.
pub fn costs_at_least_length<P: Prices>()
    ensures { CostsAtLeastLength P.price }
{}

/// A walk has at most one cost.
pub fn has_one_cost<P: Prices>()
    ensures { HasOneCost P.price }
{}

/// A least route meets no face twice.
pub fn least_is_simple<P: Prices>()
    ensures { LeastIsSimple P.price }
{}

/// Where every edge of a connected picture has a price, a route with a cost leads from any vertex
/// to any other: an insertion between two of its vertices is never refused for want of a route.
pub fn routes_exist<P: Prices>()
    ensures { RoutesExist P.price }
{}
