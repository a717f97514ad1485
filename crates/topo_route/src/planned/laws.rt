//! Laws of routes in two pictures. The functions do nothing: their contracts are the laws.

ghost use Rattle.topo_route.specs.Regions.{KeptRegionsKeepFaces, SparedRegionsStayKept};
ghost use Rattle.topo_route.specs.Surviving.{CoveredRoutesSurvive, FoundRoutesSurvive};
ghost use Rattle.topo_route.specs.Surviving.{KeptEndsStay, KeptFacesStay};
ghost use Rattle.topo_route.specs.Surviving.{MetRoutesSurvive, PicturesCoverSearches};
ghost use Rattle.topo_route.specs.Surviving.{PicturesKeepThemselves, RoutesSurvive};

use topo_core::prices::Prices;

/// A later picture that still has each face whose darts are lower than the price of the first
/// route, and the corners at both ends, has the same first route at the same price.
pub fn routes_survive<P: Prices>()
    ensures { RoutesSurvive P.price }
{}

/// A later picture that keeps a region of whole faces outside of which all darts are equally high,
/// and the corners at both ends, has the same first route at the same price.
pub fn covered_routes_survive<P: Prices>()
    ensures { CoveredRoutesSurvive P.price }
{}

/// A later picture that keeps what a search has reached, by the heights that it leaves, has the
/// same first route.
pub fn found_routes_survive<P: Prices>()
    ensures { FoundRoutesSurvive P.price }
{}

/// A later picture that keeps what a search from both ends has reached has the same first route:
/// the darts that it has settled from either end are enough.
pub fn met_routes_survive<P: Prices>()
    ensures { MetRoutesSurvive P.price }
{}

/// A picture keeps its own faces and corners, in any region of whole faces.
pub fn pictures_keep_themselves()
    ensures { PicturesKeepThemselves }
{}

/// All darts of a picture are a region, and it covers each search: what the first law asks for can
/// be had.
pub fn pictures_cover_searches<P: Prices>()
    ensures { PicturesCoverSearches P.price }
{}

/// Faces that are kept from one picture to the next, and from there to a third, are kept from the
/// first to the third.
pub fn kept_faces_stay()
    ensures { KeptFacesStay }
{}

/// So are the corners at both ends.
pub fn kept_ends_stay()
    ensures { KeptEndsStay }
{}

/// A picture that has kept a region that a search has seen keeps it when a call spares it.
pub fn regions_stay_kept<P: Prices>()
    ensures { SparedRegionsStayKept P.price }
{}

/// Where a picture has kept a region, it keeps the faces whose edges the region holds, and the
/// corners at both ends.
pub fn kept_regions_keep_faces()
    ensures { KeptRegionsKeepFaces }
{}
