//! The tests of a plan's route.

ghost use Rattle.std.specs.Prelude.{◌≡◌, ◌<◌, ◌↔◌, false, IsTrue, MatchOption, length};
ghost use Rattle.topo_core.specs.declared.darts.Dart.{Dart};
ghost use Rattle.topo_core.specs.Picture.{darts, index_of, system};
ghost use Rattle.topo_core.specs.RouteLaws.{IsTight, TakesFirstDarts, arrival};
ghost use Rattle.topo_core.specs.Routes.{Crosses, IsPricedRoute};
ghost use Rattle.topo_core.specs.Systems.{has_dart};
ghost use Rattle.topo_price.specs.Prices.{prices_of};
ghost use Rattle.topo_route.specs.Numbers.{CannotCross, CannotPay, Crossing};
ghost use Rattle.topo_route.specs.Numbers.{HasTightBefore, Payment, Walks, dart_of};
ghost use Rattle.topo_route.specs.Plans.{ComesFirst, HasFirstEnd, HasOneEach, height_in};

use crate::dual::Dual;
use crate::faces::{across, corner_at, dart_count, next_along, price_at, same_face};
use crate::heights::has_first_start;
use crate::plan::Plan;
use topo_core::darts::Dart;
use topo_core::routes::Route;
use topo_price::tariff::{PriceFn, Tariff};

/// The number of a dart of the picture.
fn number_of<D: Dual>(dual: &D, dart: Dart) -> Option<u32>
    ensures { MatchOption result (has_dart (darts (D.shows dual.now)) dart ≡ false)
        (λ number. (number < length (darts (D.shows dual.now)))
        × (dart_of (D.shows dual.now) number ≡ dart)
        × (index_of (D.shows dual.now) dart ≡ number)) }
{
    dual.index(dart)
}

/// What is left of an amount when the price of a dart is taken from it.
fn pay<D: Dual, F: PriceFn>(dual: &D, tariff: &Tariff<F>, number: u32, left: u64) -> Option<u64>
    requires { number < length (darts (D.shows dual.now)) }
    ensures { let price = prices_of (F.may_return tariff.now) in let rows = D.shows dual.now in
        MatchOption result (CannotPay price rows (dart_of rows number) left)
        (Payment price rows (dart_of rows number) left) }
{
    match price_at(dual, tariff, number) {
        Some(price) => {
            let price = price as u64;
            if price <= left {
                Some(left - price)
            } else {
                None
            }
        }
        None => None,
    }
}

/// Crosses a dart from the face of `at`: where that leads, and what is left of an amount.
fn cross<D: Dual, F: PriceFn>(
    dual: &D,
    tariff: &Tariff<F>,
    at: u32,
    dart: Dart,
    left: u64,
) -> Option<(u32, u64)>
    requires { at < length (darts (D.shows dual.now)) }
    ensures { let price = prices_of (F.may_return tariff.now) in let rows = D.shows dual.now in
        MatchOption result (CannotCross price rows at dart left)
        (λ r. Crossing price rows at dart left r.0 r.1) }
{
    match number_of(dual, dart) {
        Some(number) => {
            if !same_face(dual, at, number) {
                return None;
            }
            match pay(dual, tariff, number, left) {
                Some(rest) => Some((across(dual, number), rest)),
                None => None,
            }
        }
        None => None,
    }
}

/// Whether the darts lead from the face of `from` to that of `to` at this price.
fn walks<D: Dual, F: PriceFn>(
    dual: &D,
    tariff: &Tariff<F>,
    from: u32,
    crossed: &[Dart],
    to: u32,
    price: u64,
) -> bool
    requires from_within { from < length (darts (D.shows dual.now)) }
    requires to_within { to < length (darts (D.shows dual.now)) }
    ensures { IsTrue result ↔ Walks (prices_of (F.may_return tariff.now)) (D.shows dual.now)
        (dart_of (D.shows dual.now) from) crossed.now (dart_of (D.shows dual.now) to) price }
{
    let mut at = from;
    let mut left = price;
    for dart in crossed {
        match cross(dual, tariff, at, *dart, left) {
            Some((next, rest)) => {
                at = next;
                left = rest;
            }
            None => return false,
        }
    }
    left == 0 && same_face(dual, at, to)
}

/// The corner where a route starts, if it leads from `u` to `v` at this price.
pub(crate) fn start_of_route<D: Dual, F: PriceFn>(
    dual: &D,
    tariff: &Tariff<F>,
    u: u32,
    v: u32,
    route: &Route,
    price: u64,
) -> Option<u32>
    ensures { let rows = D.shows dual.now in
        let P = IsPricedRoute (prices_of (F.may_return tariff.now)) rows u v route.now price in
        MatchOption result (P → ⊥) (λ from. (from < length (darts rows))
        × (priced : P) × (priced.route.from ≡ dart_of rows from)) }
{
    match (
        corner_at(dual, u, route.start),
        corner_at(dual, v, route.end),
    ) {
        (Some(from), Some(to)) => {
            if walks(dual, tariff, from, route.crossed.as_slice(), to, price) {
                Some(from)
            } else {
                None
            }
        }
        _ => None,
    }
}

/// Whether crossing the dart costs just what its height is above that of its twin.
fn is_tight<D: Dual, F: PriceFn>(dual: &D, tariff: &Tariff<F>, heights: &[u64], dart: u32) -> bool
    requires one_each { HasOneEach (D.shows dual.now) heights.now }
    requires within { dart < length (darts (D.shows dual.now)) }
    ensures { IsTrue result ↔ IsTight (prices_of (F.may_return tariff.now)) (D.shows dual.now)
        (height_in (D.shows dual.now) heights.now) (dart_of (D.shows dual.now) dart) }
{
    let other = heights[across(dual, dart) as usize];
    let height = heights[dart as usize];
    match price_at(dual, tariff, dart) {
        Some(price) => {
            if height < other {
                return false;
            }
            height - other == price as u64
        }
        None => false,
    }
}

/// Whether a tight dart with a smaller number lies in the face of `at`.
fn has_tight_before<D: Dual, F: PriceFn>(
    dual: &D,
    tariff: &Tariff<F>,
    heights: &[u64],
    at: u32,
    number: u32,
) -> bool
    requires one_each { HasOneEach (D.shows dual.now) heights.now }
    requires within { at < length (darts (D.shows dual.now)) }
    ensures { IsTrue result ↔ HasTightBefore (prices_of (F.may_return tariff.now))
        (D.shows dual.now) heights.now at number }
{
    let mut dart = at;
    for _steps in 0..dart_count(dual) {
        if dart < number && is_tight(dual, tariff, heights, dart) {
            return true;
        }
        dart = next_along(dual, dart);
        if dart == at {
            return false;
        }
    }
    false
}

/// Where the walk leads, if it crosses the first tight dart of its face each time.
fn first_walk<D: Dual, F: PriceFn>(
    dual: &D,
    tariff: &Tariff<F>,
    heights: &[u64],
    from: u32,
    crossed: &[Dart],
) -> Option<u32>
    requires one_each { HasOneEach (D.shows dual.now) heights.now }
    requires within { from < length (darts (D.shows dual.now)) }
    requires walk { (to : Dart)
        × Crosses (system (D.shows dual.now)) (dart_of (D.shows dual.now) from) crossed.now to }
    ensures { let rows = D.shows dual.now in
        let P = TakesFirstDarts (prices_of (F.may_return tariff.now)) rows
        (height_in rows heights.now) (dart_of rows from) crossed.now in
        MatchOption result (P → ⊥) (λ last. (last < length (darts rows))
        × (dart_of rows last ≡ arrival (dart_of rows from) crossed.now) × P) }
{
    let mut at = from;
    for dart in crossed {
        match number_of(dual, *dart) {
            Some(number) => {
                if has_tight_before(dual, tariff, heights, at, number) {
                    return None;
                }
                at = across(dual, number);
            }
            None => return None,
        }
    }
    Some(at)
}

/// Whether no corner at the target before this position lies in the face of `last`.
pub(crate) fn has_first_end<D: Dual>(dual: &D, v: u32, end: u32, last: u32) -> bool
    requires { last < length (darts (D.shows dual.now)) }
    ensures { IsTrue result
        ↔ HasFirstEnd (D.shows dual.now) v end (dart_of (D.shows dual.now) last) }
{
    for position in 0..end {
        if let Some(corner) = corner_at(dual, v, position) {
            if same_face(dual, last, corner) {
                return false;
            }
        }
    }
    true
}

/// Whether no start, crossed dart or end before those of the plan's route would do.
pub(crate) fn comes_first<D: Dual, F: PriceFn>(
    dual: &D,
    tariff: &Tariff<F>,
    u: u32,
    v: u32,
    plan: &Plan,
    from: u32,
) -> bool
    requires one_each { HasOneEach (D.shows dual.now) plan.now.heights }
    requires within { from < length (darts (D.shows dual.now)) }
    requires walk { (to : Dart) × Crosses (system (D.shows dual.now))
        (dart_of (D.shows dual.now) from) plan.now.route.crossed to }
    ensures { IsTrue result ↔ ComesFirst (prices_of (F.may_return tariff.now))
        (D.shows dual.now) u v plan.now (dart_of (D.shows dual.now) from) }
{
    let heights = plan.heights.as_slice();
    if !has_first_start(dual, u, heights, plan.route.start, plan.price) {
        return false;
    }
    match first_walk(dual, tariff, heights, from, plan.route.crossed.as_slice()) {
        Some(last) => has_first_end(dual, v, plan.route.end, last),
        None => false,
    }
}
