//! Insertions where no crossing id is left: only a route that crosses nothing can be taken then, so
//! no other is looked for.

ghost use Rattle.std.specs.Prelude.{◌≡◌, ◌≢◌, ◌<◌, IfOk, MatchOption, None, Option, length, true, ℕ};
ghost use Rattle.topo_core.specs.declared.rows.Facts.{Facts};
ghost use Rattle.topo_core.specs.Routes.{IsFirst};
ghost use Rattle.topo_price.specs.Prices.{prices_of};
ghost use Rattle.topo_book.specs.Fullness.{AreAllPriced, CrossesAlways};

use std::alloc::{AllocError, Global};
use topo_core::rows::{Facts, KINDS};
use topo_price::tariff::{PriceFn, Tariff};
use topo_route::face_graph::FaceGraph;
use topo_route::plan::PricedRoute;
use topo_route::search::first_route;
use topo_route::workspace::Workspace;

/// What answers that no edge may be crossed.
#[derive(Drop)]
struct NoCrossing;

impl PriceFn for NoCrossing {
    ghost use Rattle.std.specs.Prelude.{◌≡◌, ⊤, None, Some};

    ghost is_callable = { λ f. ⊤ };

    ghost may_return = { λ f facts answer. answer ≡ None };

    ghost of_kind = { λ f kind. Some None };

    fn price(&self, _facts: &Facts) -> Option<u32> {
        None
    }

    fn price_of_kind(&self, _kind: u8) -> Option<Option<u32>> {
        Some(None)
    }
}

/// Whether edges of all kinds have a price, which is known by the kind.
pub(crate) fn are_all_priced<F: PriceFn>(tariff: &Tariff<F>) -> bool
    ensures { result ≡ true → AreAllPriced (prices_of (F.may_return tariff.now)) }
{
    for kind in 0..KINDS {
        let Some(Some(_)) = tariff.price_of_kind(kind as u8) else {
            return false;
        };
    }
    true
}

/// As `find_direct`, with what answers that no edge may be crossed.
fn find_uncrossed<W: FaceGraph, F: PriceFn, N: PriceFn + Drop>(
    alloc: Global,
    graph: &W,
    tariff: &Tariff<F>,
    ends: (u32, u32),
    none: N,
    work: &mut Workspace,
) -> Result<Option<PricedRoute>, AllocError>
    requires u_there { ends.0 < length (W.named graph.now).rows.rotations }
    requires v_there { ends.1 < length (W.named graph.now).rows.rotations }
    requires apart { ends.0 ≢ ends.1 }
    requires callable { N.is_callable none }
    requires none { (facts : Facts) (answer : Option ℕ) → N.may_return none facts answer
        → answer ≡ None }
    ensures { IfOk result (λ found. MatchOption found
        (CrossesAlways (W.named graph.now).rows ends.0 ends.1)
        (λ r. IsFirst (prices_of (F.may_return tariff.now))
        (W.named graph.now).rows ends.0 ends.1 r.route r.price)) }
{
    // For the proof: what the type keeps.
    tariff.keeps_promise();
    let closed = Tariff::new(none);
    let (u, v) = ends;
    first_route(alloc, graph, &closed, u, v, work)
}

/// The first route between two different vertices, where that crosses nothing; none where each
/// route crosses something. It looks at the faces at both and at no other.
pub(crate) fn find_direct<W: FaceGraph, F: PriceFn>(
    alloc: Global,
    graph: &W,
    tariff: &Tariff<F>,
    ends: (u32, u32),
    work: &mut Workspace,
) -> Result<Option<PricedRoute>, AllocError>
    requires u_there { ends.0 < length (W.named graph.now).rows.rotations }
    requires v_there { ends.1 < length (W.named graph.now).rows.rotations }
    requires apart { ends.0 ≢ ends.1 }
    ensures { IfOk result (λ found. MatchOption found
        (CrossesAlways (W.named graph.now).rows ends.0 ends.1)
        (λ r. IsFirst (prices_of (F.may_return tariff.now))
        (W.named graph.now).rows ends.0 ends.1 r.route r.price)) }
{
    find_uncrossed(alloc, graph, tariff, ends, NoCrossing, work)
}
