//! Calls of a service that take no memory: those that read a pass, a view, and the end.

ghost use Rattle.std.specs.Prelude.{◌≡◌, Some};
ghost use Rattle.std.specs.Arc.{arc_value};
ghost use Rattle.topo_core.specs.declared.limits.TheConstants.{MAX_PASSES};
ghost use Rattle.topo_price.specs.Prices.{IsPromise};

use crate::marks::{Console, begin, number, says};
use anyhow::Result;
use std::alloc::AllocError;
use std::io;
use std::marker::Brand;
use std::sync::{Arc, Wait};
use topo_core::calls::Call;
use topo_core::rows::Facts;
use topo_picture::Picture;
use topo_price::tariff::{PriceFn, Tariff};
use topo_service::{FreshService, Pass, Service};
use topo_service_test_support::calls::make;
use topo_test_support::pictures::{BIPYRAMID, picture_of};
use topo_test_support::prices::{FIVE_TWO_NINE, table_of};
use topo_versions::ServiceBrand;

/// The calls before the views: one is refused.
const CALLS: &[Call] = &[
    Call::Insert {
        u: 3,
        v: 4,
        kind: 0,
    },
    Call::Grow {
        u: 0,
        position: 0,
        kind: 0,
    },
    Call::Delete { edge: 60 },
];

/// A service that begins with the bipyramid.
pub(crate) fn serve<R: Wait + Console + Sync>(rt: &R) -> Result<()> {
    let table = table_of(Some(1), FIVE_TWO_NINE)?;
    let start = picture_of(rt.alloc(), &BIPYRAMID)?;
    serve_with(rt, start, |facts: &Facts| table.price(facts.kind))
}

/// A service with the prices of a closure.
fn serve_with<F: PriceFn + Drop + Send + Sync, R: Wait + Console + Sync>(
    rt: &R,
    start: Picture,
    ask: F,
) -> Result<()>
    requires callable { F.is_callable ask }
    requires promise { IsPromise (F.may_return ask) }
{
    let tariff = Arc::new(rt.alloc(), Tariff::new(ask)).map_err(AllocError::from)?;
    named::<F, Brand, R>(rt, FreshService::new(), start, tariff)
}

/// Calls the service that K names in the way of `serve_with`.
fn named<
    F: PriceFn + Drop + Send + Sync,
    K: ServiceBrand<F> + Send + Sync,
    R: Wait + Console + Sync,
>(rt: &R, fresh: FreshService, start: Picture, tariff: Arc<Tariff<F>>) -> Result<()>
    requires ledger { (fresh.blank.name ≡ K.name) × (fresh.blank.parts ≡ K.parts) }
    requires parts { K.parts ≡ MAX_PASSES }
    requires list { fresh.log.seen.book ≡ K.book }
    requires start { start ≡ K.start }
    requires prices { K.closure ≡ Some (arc_value tariff) }
{
    match Service::<F, K>::new(rt.alloc(), fresh, start, tariff) {
        Ok(service) => use_and_close(rt, service),
        Err(_) => Ok(println!(rt; "no service")?),
    }
}

/// Uses a service and closes it.
fn use_and_close<
    F: PriceFn + Drop + Send + Sync,
    K: ServiceBrand<F> + Send + Sync,
    R: Wait + Console + Sync,
>(rt: &R, mut service: Service<F, K>) -> Result<()> {
    let mut passes = Vec::new(rt.alloc());
    let told = use_pass(rt, &mut service, &mut passes);
    let begun = begin(rt, "Service::close");
    let end = service.close(rt, passes);
    let ended = says(rt, end.is_ok());
    drop(end);
    told?;
    begun?;
    Ok(ended?)
}

/// Gives out a pass, and makes the calls.
fn use_pass<
    F: PriceFn + Drop + Send + Sync,
    K: ServiceBrand<F> + Send + Sync,
    R: Wait + Console + Sync,
>(rt: &R, service: &mut Service<F, K>, passes: &mut Vec<Pass<F, K>>) -> Result<()> {
    passes.reserve(1)?;
    passes.push(service.pass()?)?;
    for pass in passes.iter_mut() {
        make_calls(rt, &*service, pass)?;
        view(rt, pass)?;
        read(rt, pass)?;
    }
    Ok(())
}

/// Makes the calls, each of which takes memory.
fn make_calls<F: PriceFn + Drop, K: ServiceBrand<F>, R: Wait>(
    rt: &R,
    service: &Service<F, K>,
    pass: &mut Pass<F, K>,
) -> Result<()> {
    for call in CALLS {
        drop(make(rt, service, pass, *call)?);
    }
    Ok(())
}

/// Takes a view, and reads it.
fn view<F: PriceFn + Drop, K: ServiceBrand<F>, R: Print>(
    rt: &R,
    pass: &mut Pass<F, K>,
) -> Result<()> {
    begin(rt, "Pass::view")?;
    let view = pass.view()?;
    let told = number(rt, view.number());
    let begun = begin(rt, "View::number and picture");
    let accepted = view.number();
    let edges = view.picture().counts().edges;
    let read = says(rt, accepted < edges as u64);
    drop(view);
    told?;
    begun?;
    Ok(read?)
}

/// Calls that read a pass.
fn read<F: PriceFn + Drop, K: ServiceBrand<F>, R: Print>(
    rt: &R,
    pass: &Pass<F, K>,
) -> io::Result<()> {
    begin(rt, "Pass::number")?;
    let own = pass.number();
    number(rt, own as u64)?;
    begin(rt, "Pass::receipts")?;
    let receipts = pass.receipts().len();
    number(rt, receipts as u64)?;
    begin(rt, "Pass::seen")?;
    let seen = pass.seen();
    number(rt, seen)
}
