//! A picture with the prices of its segments.

ghost use Rattle.std.specs.Prelude.{◌+◌, ◌*◌, ◌<◌, length, IfOk, OnOk};
ghost use Rattle.topo_core.specs.Picture.{darts};
ghost use Rattle.topo_core.specs.Routes.{KeepsPromise};
ghost use Rattle.topo_price.specs.Prices.{prices_of};
ghost use Rattle.topo_route.specs.EachOnce.{AreAsked, IsEachAskedOnce};
ghost use Rattle.topo_route.specs.Names.{IsName, dart_named};
ghost use Rattle.topo_route.specs.Numbers.{IsPriceAt, IsPriceFor};
ghost use Rattle.topo_route.specs.Searches.{KeepsPrices, priced_faces};
ghost use Rattle.topo_route.specs.Settling.{ArePrices};

use crate::dual::Dual;
use crate::face_graph::FaceGraph;
use crate::faces;
use crate::steps::price_at;
use std::alloc::{AllocError, Global};
use topo_price::asked::Asked;
use topo_price::tariff::{PriceFn, Tariff};

/// A picture with prices. Those of the first segments are kept, by half of a dart's name; the
/// others are asked for each time.
#[derive(Drop)]
pub(crate) struct PricedGraph<'a, W: FaceGraph, F: PriceFn> {
    pub graph: &'a W,
    pub tariff: &'a Tariff<F>,
    pub prices: Vec<Option<u32>>,
}

impl<W: FaceGraph, F: PriceFn> PricedGraph<'_, W, F> {
    /// The price of crossing a dart.
    pub(crate) fn price(&self, dart: u32) -> Option<u32>
        requires name { IsName (W.named self.now.graph.now) dart }
        requires right { KeepsPrices (priced_faces W.FaceGraph F.PriceFn self.now) }
        ensures price { let p = priced_faces W.FaceGraph F.PriceFn self.now in
            IsPriceFor p.price p.named.rows (dart_named p.named dart) result }
        ensures promise { KeepsPromise (prices_of (F.may_return self.now.tariff.now)) }
    {
        let segment = (dart / 2) as usize;
        if segment < self.prices.len() {
            return self.prices[segment];
        }
        price_at(self.graph, self.tariff, dart)
    }
}

/// The prices of all segments, and what was asked for them.
#[derive(Drop)]
pub(crate) struct SegmentPrices {
    pub prices: Vec<Option<u32>>,
    pub asked: Asked,
}

/// The price of a segment. Where it lies on the edge of the segment before it, that is the last
/// answer; else its edge is asked for.
fn ask_once<D: Dual, F: PriceFn>(
    dual: &D,
    tariff: &Tariff<F>,
    asked: &mut Asked,
    segment: u32,
) -> Result<Option<u32>, AllocError>
    requires within { 2 * segment < length (darts (D.shows dual.now)) }
    requires before { AreAsked (prices_of (F.may_return tariff.now))
        (D.shows dual.now) asked.old segment }
    ensures asked { OnOk result (AreAsked (prices_of (F.may_return tariff.now))
        (D.shows dual.now) asked.new (segment + 1)) }
    ensures price { IfOk result (λ price. IsPriceAt (prices_of (F.may_return tariff.now))
        (D.shows dual.now) (2 * segment) price) }
{
    // For the proof: what the type keeps.
    faces::dart_count(dual);
    let dart = 2 * segment;
    if dart > 0 {
        let edge = faces::edge_at(dual, dart);
        let before = faces::edge_at(dual, dart - 2);
        if before == edge {
            return Ok(asked.price(asked.count() - 1));
        }
    }
    asked.ask(tariff, &dual.facts(dart))?;
    Ok(asked.price(asked.count() - 1))
}

/// The prices of all segments. Each edge is asked for once.
pub(crate) fn segment_prices<D: Dual, F: PriceFn>(
    alloc: Global,
    dual: &D,
    tariff: &Tariff<F>,
) -> Result<SegmentPrices, AllocError>
    ensures right { IfOk result
        (λ all. ArePrices (prices_of (F.may_return tariff.now))
        (D.named dual.now) all.prices.items) }
    ensures once { IfOk result
        (λ all. IsEachAskedOnce (prices_of (F.may_return tariff.now))
        (D.shows dual.now) all.asked) }
{
    // For the proof: what the type keeps.
    tariff.keeps_promise();
    let segments = faces::dart_count(dual) / 2;
    let mut prices = Vec::with_capacity(alloc, segments as usize)?;
    let mut asked = Asked::new(alloc);
    for segment in 0..segments {
        let price = ask_once(dual, tariff, &mut asked, segment)?;
        prices.push(price)?;
    }
    Ok(SegmentPrices { prices, asked })
}
