//! The tests of a plan's heights.

ghost use Rattle.std.specs.Prelude.{◌≡◌, ◌<◌, ◌↔◌, IsTrue, length};
ghost use Rattle.topo_core.specs.Picture.{darts};
ghost use Rattle.topo_core.specs.Routes.{KeepsPromise};
ghost use Rattle.topo_price.specs.Prices.{prices_of};
ghost use Rattle.topo_route.specs.Plans.{HasFirstStart, HasOneEach, IsEven};
ghost use Rattle.topo_route.specs.Plans.{IsGentle, IsLeastHeight, MeetsTarget};

use crate::dual::Dual;
use crate::faces::{across, corner_at, dart_count, degree, next_along, price_at};
use topo_price::tariff::{PriceFn, Tariff};

/// Whether each dart has the height of the next along its face.
pub(crate) fn is_even<D: Dual>(dual: &D, heights: &[u64]) -> bool
    requires { HasOneEach (D.shows dual.now) heights.now }
    ensures { IsTrue result ↔ IsEven (D.shows dual.now) heights.now }
{
    for dart in 0..dart_count(dual) {
        let next = next_along(dual, dart);
        if heights[next as usize] != heights[dart as usize] {
            return false;
        }
    }
    true
}

/// Whether no dart with a price is higher than its twin by more than that price.
pub(crate) fn is_gentle<D: Dual, F: PriceFn>(dual: &D, tariff: &Tariff<F>, heights: &[u64]) -> bool
    requires { HasOneEach (D.shows dual.now) heights.now }
    ensures gentle { IsTrue result
        ↔ IsGentle (prices_of (F.may_return tariff.now)) (D.shows dual.now) heights.now }
    ensures promise { 0 < length (darts (D.shows dual.now))
        → KeepsPromise (prices_of (F.may_return tariff.now)) }
{
    for dart in 0..dart_count(dual) {
        if let Some(price) = price_at(dual, tariff, dart) {
            let other = heights[across(dual, dart) as usize];
            if heights[dart as usize].saturating_sub(other) > price as u64 {
                return false;
            }
        }
    }
    true
}

/// Whether the corners of the target have height 0.
pub(crate) fn meets_target<D: Dual>(dual: &D, v: u32, heights: &[u64]) -> bool
    requires { HasOneEach (D.shows dual.now) heights.now }
    ensures { IsTrue result ↔ MeetsTarget (D.shows dual.now) v heights.now }
{
    for position in 0..degree(dual, v) {
        if let Some(corner) = corner_at(dual, v, position) {
            if heights[corner as usize] != 0 {
                return false;
            }
        }
    }
    true
}

/// Whether this is the least height of a corner at the start.
pub(crate) fn is_least_height<D: Dual>(dual: &D, u: u32, heights: &[u64], price: u64) -> bool
    requires { HasOneEach (D.shows dual.now) heights.now }
    ensures { IsTrue result ↔ IsLeastHeight (D.shows dual.now) u heights.now price }
{
    let mut found = false;
    for position in 0..degree(dual, u) {
        if let Some(corner) = corner_at(dual, u, position) {
            let height = heights[corner as usize];
            if height < price {
                return false;
            }
            if height == price {
                found = true;
            }
        }
    }
    found
}

/// Whether no corner at the start before this position has the height.
pub(crate) fn has_first_start<D: Dual>(
    dual: &D,
    u: u32,
    heights: &[u64],
    start: u32,
    price: u64,
) -> bool
    requires { HasOneEach (D.shows dual.now) heights.now }
    ensures { IsTrue result ↔ HasFirstStart (D.shows dual.now) u heights.now start price }
{
    for position in 0..start {
        if let Some(corner) = corner_at(dual, u, position) {
            if heights[corner as usize] == price {
                return false;
            }
        }
    }
    true
}
