//! The check of a plan that somebody hands in.

ghost use Rattle.std.specs.Prelude.{◌≡◌, ◌≢◌, ◌<◌, Ok, MatchResult, OnOk, length};
ghost use Rattle.topo_core.specs.Routes.{IsFirst, KeepsPromise};
ghost use Rattle.topo_price.specs.Prices.{prices_of};
ghost use Rattle.topo_route.specs.Plans.{FailsFirst, IsPlan, PassesAll};

use crate::dual::Dual;
use crate::faces::dart_count;
use crate::heights::{is_even, is_gentle, is_least_height, meets_target};
use crate::plan::{Plan, PlanFault};
use crate::walks::{comes_first, start_of_route};
use topo_price::tariff::{PriceFn, Tariff};

/// The tests, in their order.
fn verdict<D: Dual, F: PriceFn>(
    dual: &D,
    tariff: &Tariff<F>,
    u: u32,
    v: u32,
    plan: &Plan,
) -> Result<(), PlanFault>
    ensures verdict { MatchResult result
        (λ _. PassesAll (prices_of (F.may_return tariff.now)) (D.shows dual.now) u v plan.now)
        (FailsFirst (prices_of (F.may_return tariff.now)) (D.shows dual.now) u v plan.now) }
    ensures promise { OnOk result (KeepsPromise (prices_of (F.may_return tariff.now))) }
{
    let heights = plan.heights.as_slice();
    if heights.len() != dart_count(dual) as usize {
        return Err(PlanFault::WrongLength);
    }
    if !is_even(dual, heights) {
        return Err(PlanFault::UnevenFace);
    }
    if !is_gentle(dual, tariff, heights) {
        return Err(PlanFault::TooSteep);
    }
    if !meets_target(dual, v, heights) {
        return Err(PlanFault::TargetNotZero);
    }
    match start_of_route(dual, tariff, u, v, &plan.route, plan.price) {
        Some(from) => {
            if !is_least_height(dual, u, heights, plan.price) {
                return Err(PlanFault::NotLeast);
            }
            if !comes_first(dual, tariff, u, v, plan, from) {
                return Err(PlanFault::NotFirst);
            }
            Ok(())
        }
        None => Err(PlanFault::NotARoute),
    }
}

/// Says of a plan from `u` to `v`, two different vertices, whether its route is the first of the
/// least ones and its heights prove it; else the first test that it fails. A plan that `search`
/// makes on the same picture and tariff passes.
pub fn check<D: Dual, F: PriceFn>(
    dual: &D,
    tariff: &Tariff<F>,
    u: u32,
    v: u32,
    plan: &Plan,
) -> Result<(), PlanFault>
    requires u_there { u < length (D.shows dual.now).rotations }
    requires v_there { v < length (D.shows dual.now).rotations }
    requires apart { u ≢ v }
    ensures verdict { MatchResult result
        (λ _. PassesAll (prices_of (F.may_return tariff.now)) (D.shows dual.now) u v plan.now)
        (FailsFirst (prices_of (F.may_return tariff.now)) (D.shows dual.now) u v plan.now) }
    ensures first { OnOk result (IsFirst (prices_of (F.may_return tariff.now))
        (D.shows dual.now) u v plan.now.route plan.now.price) }
    ensures own { IsPlan (prices_of (F.may_return tariff.now)) (D.shows dual.now) u v plan.now
        → result ≡ Ok tt }
{
    verdict(dual, tariff, u, v, plan)
}
