//! One step of a picture, in two parts: `decide` gives the reply, `apply_entry` then makes its
//! change.

ghost use Rattle.std.specs.Prelude.{◌≡◌, ◌≢◌, ◌<◌, IfOk, MatchOption, MatchResult};
ghost use Rattle.std.specs.Prelude.{OnErr, OnOk, None, length, true};
ghost use Rattle.std.specs.Arc.{arc_value};
ghost use Rattle.topo_core.specs.Routes.{HasNoRoute, IsFirst};
ghost use Rattle.topo_core.specs.Steps.{IsRefused, Step, insert_refusal};
ghost use Rattle.topo_core.specs.declared.calls.Call.TheVariants.{Insert};
ghost use Rattle.topo_core.specs.declared.calls.Refusal.TheVariants.{Memory};
ghost use Rattle.topo_core.specs.declared.calls.Reply.TheVariants.{Refused};
ghost use Rattle.topo_price.specs.Prices.{prices_of};
ghost use Rattle.topo_rows.specs.Shown.{IsPicture};
ghost use Rattle.topo_book.specs.Books.{IsDue};
ghost use Rattle.topo_book.specs.RouteSources.{IsSourceFor, IsTrueOf};

use crate::fullness::{are_all_priced, find_direct};
use crate::route_source::RouteSource;
use crate::scratch::Scratch;
use crate::search_cost::measure_if_due;
use std::alloc::{AllocError, Global};
use std::sync::Arc;
use topo_core::calls::{Call, Entry, Refusal, Reply};
use topo_core::ids::EdgeId;
use topo_core::routes::{Inserted, Route};
use topo_dual::NumberLists;
use topo_picture::Picture;
use topo_price::tariff::{PriceFn, Tariff};
use topo_route::check::check;
use topo_route::plan::{Plan, PricedRoute};
use topo_route::search::first_route;

/// Whether a plan has as many heights as the picture has darts. A plan of an earlier picture mostly
/// has not, and need not be compared with the picture then.
fn has_height_for_each_dart(picture: &Picture, plan: &Plan) -> bool {
    plan.heights.len() == 2 * picture.counts().segments as usize
}

/// Whether a plan between these ends passes the check on the picture, of which nothing is copied:
/// its darts are numbered in the lists.
fn passes<F: PriceFn>(
    picture: &Picture,
    tariff: &Tariff<F>,
    ends: (u32, u32),
    plan: &Plan,
    lists: &mut NumberLists,
) -> Result<bool, AllocError>
    requires u_there { ends.0 < length picture.now.rows.rotations }
    requires v_there { ends.1 < length picture.now.rows.rotations }
    requires apart { ends.0 ≢ ends.1 }
    ensures { IfOk result
        (λ good. good ≡ true → IsFirst (prices_of (F.may_return tariff.now))
        picture.now.rows ends.0 ends.1 plan.now.route plan.now.price) }
{
    if !has_height_for_each_dart(picture, plan) {
        return Ok(false);
    }
    let numbered = picture.numbered(lists)?;
    match check(&numbered, tariff, ends.0, ends.1, plan) {
        Ok(()) => Ok(true),
        Err(_) => Ok(false),
    }
}

/// A copy of a route with its price.
fn route_of(alloc: Global, route: &Route, price: u64) -> Result<PricedRoute, AllocError>
    ensures { IfOk result (λ r. (r.route ≡ route.now) × (r.price ≡ price)) }
{
    Ok(PricedRoute {
        route: route.copy(alloc)?,
        price,
    })
}

/// The first route: the one that is known, the plan's where it passes the check, and else the one
/// that a search finds.
fn find_first<F: PriceFn>(
    alloc: Global,
    picture: &Picture,
    tariff: &Tariff<F>,
    ends: (u32, u32),
    source: RouteSource<PricedRoute>,
    scratch: &mut Scratch,
) -> Result<Option<PricedRoute>, AllocError>
    requires known { IsTrueOf (prices_of (F.may_return tariff.now))
        picture.now.rows ends.0 ends.1 source }
    requires start_there { ends.0 < length picture.now.rows.rotations }
    requires end_there { ends.1 < length picture.now.rows.rotations }
    requires apart { ends.0 ≢ ends.1 }
    ensures { IfOk result (λ found. MatchOption found
        (HasNoRoute (prices_of (F.may_return tariff.now)) picture.now.rows ends.0 ends.1)
        (λ r. IsFirst (prices_of (F.may_return tariff.now))
        picture.now.rows ends.0 ends.1 r.route r.price)) }
{
    match source {
        RouteSource::Search => {}
        RouteSource::Plan(plan) => {
            if passes(picture, tariff, ends, plan, &mut scratch.lists)? {
                return Ok(Some(route_of(alloc, &plan.route, plan.price)?));
            }
        }
        RouteSource::Found(first) => {
            return Ok(Some(route_of(alloc, &first.route, first.price)?));
        }
    }
    let (u, v) = ends;
    first_route(alloc, &picture.embedded(), tariff, u, v, &mut scratch.work)
}

/// The first route, or why the insertion is refused that admits its ends and its kind: there is no
/// route, or the first needs more crossing ids than are left. Where none is left and every edge has
/// a price, a route that crosses nothing is looked for and no other, since there is some route.
fn find_or_refuse<F: PriceFn>(
    alloc: Global,
    picture: &Picture,
    tariff: &Tariff<F>,
    edge: (u32, u32, u32),
    source: RouteSource<PricedRoute>,
    scratch: &mut Scratch,
) -> Result<Result<PricedRoute, Refusal>, AllocError>
    requires known { IsTrueOf (prices_of (F.may_return tariff.now))
        picture.now.rows edge.0 edge.1 source }
    requires admitted { insert_refusal picture.now.limits
        picture.now.rows edge.0 edge.1 edge.2 ≡ None }
    ensures { IfOk result (λ found. MatchResult found
        (λ r. IsFirst (prices_of (F.may_return tariff.now))
        picture.now.rows edge.0 edge.1 r.route r.price)
        (IsRefused (prices_of (F.may_return tariff.now))
        picture.now.limits picture.now.rows (Insert edge.0 edge.1 edge.2))) }
{
    let (u, v, _) = edge;
    if matches!(source, RouteSource::Search)
        && picture.has_no_crossing_left()
        && are_all_priced(tariff)
    {
        // For the proof: what the types keep.
        tariff.keeps_promise();
        picture.kept_rows();
        let ends = (u, v);
        let direct = find_direct(alloc, &picture.embedded(), tariff, ends, &mut scratch.work)?;
        return match direct {
            Some(first) => Ok(Ok(first)),
            None => Ok(Err(Refusal::Full)),
        };
    }
    let found = find_first(alloc, picture, tariff, (u, v), source, scratch)?;
    Ok(found.ok_or(Refusal::NoRoute))
}

/// The reply that is due to an insertion of an edge with these ends and of this kind, for which
/// what it brings along may spare the search.
fn decide_insertion<F: PriceFn>(
    alloc: Global,
    picture: &Picture,
    tariff: &Tariff<F>,
    edge: (u32, u32, u32),
    source: RouteSource<PricedRoute>,
    scratch: &mut Scratch,
) -> Result<Reply, AllocError>
    requires { IsTrueOf (prices_of (F.may_return tariff.now))
        picture.now.rows edge.0 edge.1 source }
    ensures { IfOk result (IsDue (prices_of (F.may_return tariff.now))
        picture.now.limits picture.now.rows (Insert edge.0 edge.1 edge.2)) }
{
    let (u, v, kind) = edge;
    if let Err(why) = picture.admit(u, v, kind) {
        return Ok(Reply::Refused(why));
    }
    let first = match find_or_refuse(alloc, picture, tariff, edge, source, scratch)? {
        Ok(first) => first,
        Err(why) => return Ok(Reply::Refused(why)),
    };
    match picture.admit_route(&first.route) {
        Ok(id) => Ok(Reply::Inserted(Inserted {
            id,
            route: first.route,
            price: first.price,
        })),
        Err(why) => Ok(Reply::Refused(why)),
    }
}

/// The reply that is due to a call. An insertion takes a first route that is known, and a plan's
/// route where the plan passes the check. The picture is only read.
pub(crate) fn decide<F: PriceFn>(
    alloc: Global,
    picture: &Picture,
    tariff: &Tariff<F>,
    call: Call,
    source: RouteSource<PricedRoute>,
    scratch: &mut Scratch,
) -> Result<Reply, AllocError>
    requires { IsSourceFor (prices_of (F.may_return tariff.now)) picture.now.rows call source }
    ensures due { IfOk result
        (IsDue (prices_of (F.may_return tariff.now)) picture.now.limits picture.now.rows call) }
    ensures no_memory { IfOk result (λ reply. reply ≢ Refused Memory) }
{
    match call {
        Call::Grow { u, position, kind } => match picture.admit_growth(u, position, kind) {
            Ok((vertex, edge)) => Ok(Reply::Grown { vertex, edge }),
            Err(why) => Ok(Reply::Refused(why)),
        },
        Call::Insert { u, v, kind } => {
            decide_insertion(alloc, picture, tariff, (u, v, kind), source, scratch)
        }
        Call::Delete { edge } => match picture.admit_deletion(edge) {
            Ok(()) => Ok(Reply::Deleted(EdgeId::new(edge))),
            Err(why) => Ok(Reply::Refused(why)),
        },
    }
}

/// As `decide`, on a picture that nobody else reads, which is measured where that pays.
pub(crate) fn decide_in_place<F: PriceFn>(
    alloc: Global,
    picture: &mut Picture,
    tariff: &Tariff<F>,
    call: Call,
    source: RouteSource<PricedRoute>,
    scratch: &mut Scratch,
) -> Result<Reply, AllocError>
    requires { IsSourceFor (prices_of (F.may_return tariff.now)) picture.old.rows call source }
    ensures due { IfOk result
        (IsDue (prices_of (F.may_return tariff.now)) picture.old.limits picture.old.rows call) }
    ensures no_memory { IfOk result (λ reply. reply ≢ Refused Memory) }
    ensures unchanged { picture.new ≡ picture.old }
{
    measure_if_due(alloc, picture, tariff, &mut scratch.cost);
    let reply = decide(alloc, picture, tariff, call, source, scratch)?;
    scratch.cost.note(&reply, scratch.work.reached());
    Ok(reply)
}

/// Carries out in place what the reply of an entry says: an insertion along the route that it
/// holds, with no search. A refusal changes nothing. Whatever fails, fails before the picture
/// changes.
pub fn apply_entry<F: PriceFn>(
    alloc: Global,
    picture: &mut Picture,
    tariff: &Tariff<F>,
    entry: &Entry,
) -> Result<(), AllocError>
    requires lawful { IsPicture picture.old.limits picture.old.rows }
    requires due { IsDue (prices_of (F.may_return tariff.now))
        picture.old.limits picture.old.rows entry.now.call entry.now.reply }
    ensures step { OnOk result (Step (prices_of (F.may_return tariff.now))
        picture.old.limits picture.old.rows entry.now.call entry.now.reply picture.new.rows) }
    ensures same_limits { picture.new.limits ≡ picture.old.limits }
    ensures lawful { IsPicture picture.new.limits picture.new.rows }
    ensures unchanged { OnErr result (picture.new ≡ picture.old) }
{
    match (entry.call, &entry.reply) {
        (Call::Grow { u, position, kind }, Reply::Grown { .. }) => {
            match picture.grow(alloc, u, position, kind) {
                Ok(_) => Ok(()),
                Err(_) => Err(AllocError),
            }
        }
        (Call::Insert { u, v, kind }, Reply::Inserted(made)) => {
            // For the proof: what the type keeps.
            tariff.keeps_promise();
            match picture.apply_route(alloc, u, v, kind, &made.route) {
                Ok(_) => Ok(()),
                Err(_) => Err(AllocError),
            }
        }
        (Call::Delete { edge }, Reply::Deleted(_)) => {
            picture.delete_known(edge);
            Ok(())
        }
        _ => Ok(()),
    }
}

/// As `apply_entry`, on a picture that nobody else holds. One that others hold is left as it is.
pub(crate) fn apply_entry_unshared<F: PriceFn>(
    alloc: Global,
    picture: &mut Arc<Picture>,
    tariff: &Tariff<F>,
    entry: &Entry,
) -> Result<(), AllocError>
    requires lawful { IsPicture (arc_value picture.old).limits (arc_value picture.old).rows }
    requires due { IsDue (prices_of (F.may_return tariff.now))
        (arc_value picture.old).limits (arc_value picture.old).rows entry.now.call entry.now.reply }
    ensures step { OnOk result
        (Step (prices_of (F.may_return tariff.now)) (arc_value picture.old).limits
        (arc_value picture.old).rows entry.now.call entry.now.reply (arc_value picture.new).rows) }
    ensures same_limits { (arc_value picture.new).limits ≡ (arc_value picture.old).limits }
    ensures lawful { IsPicture (arc_value picture.new).limits (arc_value picture.new).rows }
    ensures unchanged { OnErr result (arc_value picture.new ≡ arc_value picture.old) }
{
    match Arc::get_mut(picture) {
        Some(picture) => apply_entry(alloc, picture, tariff, entry),
        None => Err(AllocError),
    }
}
