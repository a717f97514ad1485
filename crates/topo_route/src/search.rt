//! The search for the first of the least routes.

ghost use Rattle.std.specs.Prelude.{◌≡◌, ◌≢◌, ◌<◌, [], IfOk, IfSome, MatchOption, length};
ghost use Rattle.topo_core.specs.Picture.{darts};
ghost use Rattle.topo_core.specs.Routes.{HasNoRoute, IsFirst, KeepsPromise};
ghost use Rattle.topo_price.specs.Prices.{prices_of};
ghost use Rattle.topo_route.specs.Descents.{AreHeightsFor, IsFirstRoute};
ghost use Rattle.topo_route.specs.Plans.{IsPlan};
ghost use Rattle.topo_route.specs.PricedFaces.{heights_over};
ghost use Rattle.topo_route.specs.Searches.{HasHeights, HasStopped, KeepsPrices, heights_on};
ghost use Rattle.topo_route.specs.Searches.{priced_faces};
ghost use Rattle.topo_route.specs.Regions.{IsFirstWhileKept, IsRegionOf};
ghost use Rattle.topo_route.specs.Seen.{RestsOn};

use crate::both_ends::{Stop, heights_for, least_heights};
use crate::descent::{descend, end_corner, start_corner};
use crate::direct::direct_route;
use crate::dual::Dual;
use crate::face_graph::FaceGraph;
use crate::faces::dart_count;
use crate::guided::guide::{Guide, is_guided};
use crate::guided::toward::heights_toward;
use crate::plan::{Plan, PricedRoute, SeenRoute};
use crate::planned::seen::seen_region;
use crate::priced_graph::{PricedGraph, SegmentPrices, segment_prices};
use crate::stamped_array::StampedArray;
use crate::steps::height_at;
use crate::workspace::Workspace;
use std::alloc::{AllocError, Global};
use topo_core::listed::Listed;
use topo_core::routes::Route;
use topo_price::tariff::{PriceFn, Tariff};

/// Down the heights from `u` to `v`; none where no corner of `u` is reached.
fn route_by_heights<W: FaceGraph, F: PriceFn>(
    alloc: Global,
    priced: &PricedGraph<W, F>,
    u: u32,
    v: u32,
    heights: &StampedArray,
) -> Result<Option<PricedRoute>, AllocError>
    requires has { HasHeights (priced_faces W.FaceGraph F.PriceFn priced.now) heights.now }
    requires known { let p = priced_faces W.FaceGraph F.PriceFn priced.now in
        AreHeightsFor p.price p.named u v (heights_over p heights.now) }
    requires some { 0 < length (darts (W.named priced.now.graph.now).rows) }
    ensures { let p = priced_faces W.FaceGraph F.PriceFn priced.now in
        IfOk result (λ found. MatchOption found (HasNoRoute p.price p.named.rows u v)
        (IsFirstRoute p.price p.named u v (heights_over p heights.now))) }
{
    match start_corner(priced.graph, u, heights) {
        Some((start, from)) => {
            let price = height_at(priced.graph, heights, from);
            let (crossed, last) = descend(alloc, priced, heights, v, from)?;
            match end_corner(priced.graph, v, last) {
                Some(end) => {
                    let route = Route {
                        start,
                        crossed: Listed::from_vec(crossed),
                        end,
                    };
                    Ok(Some(PricedRoute { route, price }))
                }
                None => unreachable!(),
            }
        }
        None => Ok(None),
    }
}

/// The height of each dart, in canonical order.
fn numbers_of<D: Dual>(
    alloc: Global,
    dual: &D,
    heights: &StampedArray,
) -> Result<Vec<u64>, AllocError>
    requires { length heights.now ≡ D.face_bound dual.now }
    ensures { IfOk result
        (λ numbers. numbers.items ≡ heights_on D.FaceGraph dual.now heights.now) }
{
    let darts = dart_count(dual);
    let mut numbers = Vec::with_capacity(alloc, darts as usize)?;
    for dart in 0..darts {
        numbers.push(height_at(dual, heights, dart))?;
    }
    Ok(numbers)
}

/// The plan that the heights above `v` give, which are written on what is handed in.
fn plan_on<D: Dual, F: PriceFn>(
    alloc: Global,
    priced: &PricedGraph<D, F>,
    u: u32,
    v: u32,
    work: &mut Workspace,
) -> Result<Option<Plan>, AllocError>
    requires right { KeepsPrices (priced_faces D.FaceGraph F.PriceFn priced.now) }
    requires u_there { u < length (D.shows priced.now.graph.now).rotations }
    requires alone { work.old.to_start.heights ≡ [] }
    ensures { let price = prices_of (F.may_return priced.now.tariff.now) in
        let rows = D.shows priced.now.graph.now in
        IfOk result
        (λ found. MatchOption found (HasNoRoute price rows u v) (IsPlan price rows u v)) }
{
    least_heights(priced, v, work)?;
    let numbers = numbers_of(alloc, priced.graph, &work.to_end.heights)?;
    let found = route_by_heights(alloc, priced, u, v, &work.to_end.heights)?;
    match found {
        Some(PricedRoute { route, price }) => Ok(Some(Plan {
            route,
            price,
            heights: Listed::from_vec(numbers),
        })),
        None => Ok(None),
    }
}

/// The first of the least routes from `u` to `v`, two different vertices, with its price and for
/// each dart the least price from its face to a face at `v`; none where no route crosses only
/// edges that have a price. Each edge is asked for its price once.
pub fn search<D: Dual, F: PriceFn>(
    alloc: Global,
    dual: &D,
    tariff: &Tariff<F>,
    u: u32,
    v: u32,
) -> Result<Option<Plan>, AllocError>
    requires u_there { u < length (D.shows dual.now).rotations }
    requires v_there { v < length (D.shows dual.now).rotations }
    requires apart { u ≢ v }
    ensures { IfOk result (λ found. MatchOption found
        (HasNoRoute (prices_of (F.may_return tariff.now)) (D.shows dual.now) u v)
        (IsPlan (prices_of (F.may_return tariff.now)) (D.shows dual.now) u v)) }
{
    let SegmentPrices { prices, asked } = segment_prices(alloc, dual, tariff)?;
    drop(asked);
    let priced = PricedGraph {
        graph: dual,
        tariff,
        prices,
    };
    let mut work = Workspace::with_room(alloc, dual.size() as usize)?;
    plan_on(alloc, &priced, u, v, &mut work)
}

/// A route that was found, and where the search from both ends has stopped; none where there was no
/// search.
#[derive(Drop)]
struct Found {
    first: PricedRoute,
    stop: Option<Stop>,
}

/// As `first_route`, from both ends, with where the search has stopped.
fn find_route<W: FaceGraph, F: PriceFn>(
    alloc: Global,
    graph: &W,
    tariff: &Tariff<F>,
    u: u32,
    v: u32,
    work: &mut Workspace,
) -> Result<Option<Found>, AllocError>
    requires u_there { u < length (W.named graph.now).rows.rotations }
    requires v_there { v < length (W.named graph.now).rows.rotations }
    requires apart { u ≢ v }
    ensures first { let price = prices_of (F.may_return tariff.now) in
        let rows = (W.named graph.now).rows in
        IfOk result (λ found. MatchOption found (HasNoRoute price rows u v)
        (λ r. IsFirst price rows u v r.first.route r.first.price)) }
    ensures stop { IfOk result (λ found. IfSome found (λ r. IfSome r.stop (λ stop.
        RestsOn (prices_of (F.may_return tariff.now)) (W.named graph.now) u v
        (heights_on W.FaceGraph graph.now work.new.to_end.heights)
        (heights_on W.FaceGraph graph.now work.new.to_start.heights)
        stop.level stop.least r.first.route r.first.price))) }
    ensures seen { IfOk result (λ found. IfSome found
        (λ r. IfSome r.stop (HasStopped W.FaceGraph graph.now work.new))) }
    ensures promise { KeepsPromise (prices_of (F.may_return tariff.now)) }
{
    // For the proof: what the type keeps.
    tariff.keeps_promise();
    if let Some(route) = direct_route(alloc, graph, u, v) {
        let first = PricedRoute { route, price: 0 };
        return Ok(Some(Found { first, stop: None }));
    }
    let priced = PricedGraph {
        graph,
        tariff,
        prices: Vec::new(alloc),
    };
    let stop = heights_for(&priced, u, v, work)?;
    let found = route_by_heights(alloc, &priced, u, v, &work.to_end.heights)?;
    match found {
        Some(first) => Ok(Some(Found {
            first,
            stop: Some(stop),
        })),
        None => Ok(None),
    }
}

/// The first of the least routes from `u` to `v`, two different vertices, with its price; none
/// where no route crosses only edges that have a price.
///
/// As `search`, for a call that hands out no heights. Where the potentials of the graph say
/// something of these prices, it searches from `v` alone, guided to `u`. Else it searches from both
/// ends until the two searches meet, so its time follows the faces of two discs, one round each
/// end, which together reach as far as the route is dear. What it writes on is handed in, and costs nothing for the
/// rest of the picture. An edge is asked for its price each time that it is needed.
///
/// If a face at one of the first corners of `u` is also at `v`, nothing is crossed and nothing is
/// searched.
///
/// Shortest paths in the dual graph (Dijkstra 1959) from both ends (Nicholson 1966) or guided by
/// potentials (A*, Hart, Nilsson and Raphael 1968), by buckets of equal height (Dial 1969). What is
/// spread from `u`, or the potentials, say how high above `v` a dart may be that no spread from `v`
/// has reached: the heights, cut off there, are a certificate. This is what proves the route,
/// whatever the order in which faces were taken and wherever the two ends met.
pub fn first_route<W: FaceGraph, F: PriceFn>(
    alloc: Global,
    graph: &W,
    tariff: &Tariff<F>,
    u: u32,
    v: u32,
    work: &mut Workspace,
) -> Result<Option<PricedRoute>, AllocError>
    requires u_there { u < length (W.named graph.now).rows.rotations }
    requires v_there { v < length (W.named graph.now).rows.rotations }
    requires apart { u ≢ v }
    ensures { IfOk result (λ found. MatchOption found
        (HasNoRoute (prices_of (F.may_return tariff.now)) (W.named graph.now).rows u v)
        (λ r. IsFirst (prices_of (F.may_return tariff.now))
        (W.named graph.now).rows u v r.route r.price)) }
{
    // For the proof: what the type keeps.
    tariff.keeps_promise();
    if let Some(route) = direct_route(alloc, graph, u, v) {
        return Ok(Some(PricedRoute { route, price: 0 }));
    }
    let priced = PricedGraph {
        graph,
        tariff,
        prices: Vec::new(alloc),
    };
    if is_guided(graph, tariff) {
        let guide = Guide::to(graph, u);
        heights_toward(&priced, u, v, &guide, work)?;
    } else {
        let _stop = heights_for(&priced, u, v, work)?;
    }
    route_by_heights(alloc, &priced, u, v, &work.to_end.heights)
}

/// As `first_route`, with what the search has seen: on each later picture that has kept that
/// region, the route is still the first, at the same price. No region is handed out for a route
/// that crosses nothing.
///
/// What is seen are the faces that the two ends have settled, so to go through them takes less time
/// than the search did. The marks take a byte for each id up to the greatest that was seen.
pub fn first_route_seen<W: FaceGraph, F: PriceFn>(
    alloc: Global,
    graph: &W,
    tariff: &Tariff<F>,
    u: u32,
    v: u32,
    work: &mut Workspace,
) -> Result<Option<SeenRoute>, AllocError>
    requires u_there { u < length (W.named graph.now).rows.rotations }
    requires v_there { v < length (W.named graph.now).rows.rotations }
    requires apart { u ≢ v }
    ensures first { IfOk result (λ found. MatchOption found
        (HasNoRoute (prices_of (F.may_return tariff.now)) (W.named graph.now).rows u v)
        (λ r. IsFirst (prices_of (F.may_return tariff.now))
        (W.named graph.now).rows u v r.first.route r.first.price)) }
    ensures region { IfOk result (λ found. IfSome found (λ r. IfSome r.region (λ region.
        IsRegionOf (W.named graph.now).rows region
        × IsFirstWhileKept (prices_of (F.may_return tariff.now))
        (W.named graph.now).rows u v region r.first.route r.first.price))) }
{
    let found = find_route(alloc, graph, tariff, u, v, work)?;
    match found {
        Some(Found { first, stop }) => {
            let region = seen_region(alloc, graph, work, stop)?;
            Ok(Some(SeenRoute { first, region }))
        }
        None => Ok(None),
    }
}
