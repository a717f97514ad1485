//! Steps from dart to dart by their numbers in canonical order, and which darts have one face.

ghost use Rattle.std.specs.Prelude.{◌≡◌, ◌<◌, ◌≤◌, ◌↔◌, IsTrue, length, Some};
ghost use Rattle.std.specs.Prelude.{None, MatchOption, IfSome, slice_get};
ghost use Rattle.topo_core.specs.Cycles.{SameCycle};
ghost use Rattle.topo_core.specs.Picture.{corner, darts, rotation};
ghost use Rattle.topo_core.specs.Rotations.{twin};
ghost use Rattle.topo_core.specs.Routes.{KeepsPromise};
ghost use Rattle.topo_price.specs.Prices.{prices_of};
ghost use Rattle.topo_route.specs.Numbers.{IsPriceAt, dart_of, next_of};
ghost use Rattle.topo_core.specs.declared.rows.TheConstants.{MAX_PRICE};

use crate::dual::Dual;
use crate::steps;
use topo_price::tariff::{PriceFn, Tariff};

/// How many darts there are.
pub(crate) fn dart_count<D: Dual>(dual: &D) -> u32
    ensures { result ≡ length (darts (D.shows dual.now)) }
{
    dual.size()
}

/// How many corners a vertex has, and 0 where it is no vertex.
pub(crate) fn degree<D: Dual>(dual: &D, v: u32) -> u32
    ensures { result ≡ length (rotation (D.shows dual.now) v) }
{
    dual.degree(v)
}

/// The id of the edge of the dart of a number.
pub(crate) fn edge_at<D: Dual>(dual: &D, dart: u32) -> u32
    requires { dart < length (darts (D.shows dual.now)) }
    ensures { result ≡ (dart_of (D.shows dual.now) dart).edge }
{
    dual.edge(dart)
}

/// The next dart along the face on the left.
pub(crate) fn next_along<D: Dual>(dual: &D, dart: u32) -> u32
    requires { dart < length (darts (D.shows dual.now)) }
    ensures next { result ≡ next_of (D.shows dual.now) dart }
    ensures within { result < length (darts (D.shows dual.now)) }
{
    steps::next_along(dual, dart)
}

/// The dart on the same segment that leads the other way.
pub(crate) fn across<D: Dual>(dual: &D, dart: u32) -> u32
    requires { dart < length (darts (D.shows dual.now)) }
    ensures twin { result ≡ twin dart }
    ensures within { result < length (darts (D.shows dual.now)) }
{
    steps::across(dual, dart)
}

/// The dart that names a corner.
pub(crate) fn corner_at<D: Dual>(dual: &D, v: u32, position: u32) -> Option<u32>
    ensures { MatchOption result (corner (D.shows dual.now) v position ≡ None)
        (λ c. (c < length (darts (D.shows dual.now)))
        × (corner (D.shows dual.now) v position ≡ Some (dart_of (D.shows dual.now) c))) }
{
    steps::corner_at(dual, v, position)
}

/// The price of crossing a dart.
pub(crate) fn price_at<D: Dual, F: PriceFn>(dual: &D, tariff: &Tariff<F>, dart: u32) -> Option<u32>
    requires { dart < length (darts (D.shows dual.now)) }
    ensures price { IsPriceAt (prices_of (F.may_return tariff.now)) (D.shows dual.now) dart result }
    ensures in_range { IfSome result (λ p. (1 ≤ p) × (p ≤ MAX_PRICE)) }
    ensures promise { KeepsPromise (prices_of (F.may_return tariff.now)) }
{
    steps::price_at(dual, tariff, dart)
}

/// Whether two darts have one face on their left.
pub(crate) fn same_face<D: Dual>(dual: &D, a: u32, b: u32) -> bool
    requires a_within { a < length (darts (D.shows dual.now)) }
    requires b_within { b < length (darts (D.shows dual.now)) }
    ensures { IsTrue result ↔ SameCycle (next_of (D.shows dual.now)) a b }
{
    steps::same_face(dual, a, b)
}
