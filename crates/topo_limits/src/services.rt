//! A service whose routes cross thousands of segments: they are copied for receipts and versions.

ghost use Rattle.std.specs.Prelude.{◌≡◌, Some};
ghost use Rattle.std.specs.Arc.{arc_value};
ghost use Rattle.topo_core.specs.declared.limits.TheConstants.{MAX_PASSES};
ghost use Rattle.topo_price.specs.Prices.{IsPromise};

use crate::replies::reply_text;
use crate::starts::{Spiral, Start};
use anyhow::{Result, bail};
use std::alloc::{AllocError, Global};
use std::marker::Brand;
use std::sync::{Arc, Wait};
use topo_book::{Book, replay};
use topo_core::calls::{Call, Reply};
use topo_core::rows::Facts;
use topo_picture::Picture;
use topo_price::tariff::{PriceFn, Tariff};
use topo_service::close::CloseFault;
use topo_service::{FreshService, Pass, Receipt, Service};
use topo_service_test_support::calls::make;
use topo_versions::ServiceBrand;

/// What is told of a reply, where each edge of the ray is crossed so often.
fn told(alloc: Global, reply: Result<Reply, AllocError>, each: u32) -> Result<String, AllocError> {
    let text = reply_text(alloc, &reply, each);
    drop(reply);
    text
}

/// Finds the route outside the lock, and puts an edge in along it.
fn insert_found<F: PriceFn + Drop, K: ServiceBrand<F>, R: Wait>(
    rt: &R,
    alloc: Global,
    service: &Service<F, K>,
    pass: &mut Pass<F, K>,
    spiral: &Spiral,
) -> Result<String> {
    let Ok(found) = pass.find(alloc, service.tariff(), 0, spiral.parts) else {
        bail!("no route is found");
    };
    let price = found.first().price;
    let reply = service.insert_found(rt, pass, 0, &found);
    drop(found);
    let text = told(alloc, reply, spiral.each)?;
    Ok(format!(in alloc; "found at {price}: {text}")?)
}

/// Prints what is told of a call.
fn tell_call<F: PriceFn + Drop, K: ServiceBrand<F>, R: Wait + Print>(
    rt: &R,
    alloc: Global,
    service: &Service<F, K>,
    pass: &mut Pass<F, K>,
    call: Call,
    each: u32,
) -> Result<()> {
    let text = told(alloc, make(rt, service, pass, call), each)?;
    println!(rt; "  {text}")?;
    Ok(())
}

/// Prints how large the picture is that a pass sees.
fn tell_view<F: PriceFn + Drop, K: ServiceBrand<F>, R: Print>(
    rt: &R,
    pass: &mut Pass<F, K>,
) -> Result<()> {
    let Ok(view) = pass.view() else {
        bail!("no view");
    };
    let (number, counts) = (view.number(), view.picture().counts());
    drop(view);
    println!(rt;
        "  version {number}: {} crossings, {} faces",
        counts.crossings, counts.faces
    )?;
    Ok(())
}

/// Prints what is told of each receipt.
fn tell_receipts<R: Print>(rt: &R, alloc: Global, receipts: &[Receipt], each: u32) -> Result<()> {
    for receipt in receipts {
        let text = told(alloc, receipt.reply.copy(alloc), each)?;
        println!(rt; "  receipt: {text}")?;
    }
    Ok(())
}

/// Puts an edge across, takes it out, and puts one in along a route that is found outside the lock.
fn use_pass<F: PriceFn + Drop, K: ServiceBrand<F>, R: Wait + Print>(
    rt: &R,
    alloc: Global,
    service: &Service<F, K>,
    pass: &mut Pass<F, K>,
    spiral: &Spiral,
) -> Result<()> {
    let (end, each) = (spiral.parts, spiral.each);
    let across = Call::Insert {
        u: 0,
        v: end,
        kind: 0,
    };
    let gone = Call::Delete {
        edge: end.saturating_add(1),
    };
    tell_call(rt, alloc, service, pass, across, each)?;
    tell_call(rt, alloc, service, pass, gone, each)?;
    let text = insert_found(rt, alloc, service, pass, spiral)?;
    println!(rt; "  {text}")?;
    tell_view(rt, pass)?;
    tell_receipts(rt, alloc, pass.receipts(), each)
}

/// Gives a pass out, which is then used.
fn use_service<F: PriceFn + Drop, K: ServiceBrand<F>, R: Wait + Print>(
    rt: &R,
    alloc: Global,
    service: &mut Service<F, K>,
    passes: &mut Vec<Pass<F, K>>,
    spiral: &Spiral,
) -> Result<()> {
    passes.push(service.pass()?)?;
    match passes.as_mut_slice().first_mut() {
        Some(pass) => use_pass(rt, alloc, &*service, pass, spiral),
        None => Ok(()),
    }
}

/// How a service ended.
fn end_text<F: PriceFn + Drop, K: ServiceBrand<F>>(
    alloc: Global,
    end: &Result<Book<F>, CloseFault<F, K>>,
) -> Result<String, AllocError> {
    match end {
        Ok(book) => {
            let again = replay(alloc, book.start(), book.history(), book.tariff());
            let is_replayed = again.is_ok();
            drop(again);
            format!(in alloc; "{} calls, replayed: {is_replayed}", book.history().len())
        }
        Err(end) => format!(in alloc; "{:?}", end.fault),
    }
}

/// The service that K names. The service and its passes are owned here alone, and nothing returns
/// early while they are.
fn named<F: PriceFn + Drop, K: ServiceBrand<F>, R: Wait + Print>(
    rt: &R,
    alloc: Global,
    fresh: FreshService,
    start: Picture,
    tariff: Arc<Tariff<F>>,
    spiral: &Spiral,
) -> Result<()>
    requires ledger { (fresh.blank.name ≡ K.name) × (fresh.blank.parts ≡ K.parts) }
    requires parts { K.parts ≡ MAX_PASSES }
    requires list { fresh.log.seen.book ≡ K.book }
    requires start { start ≡ K.start }
    requires prices { K.closure ≡ Some (arc_value tariff) }
{
    let mut service = Service::<F, K>::new(alloc, fresh, start, tariff)?;
    let mut passes = Vec::new(alloc);
    let used = use_service(rt, alloc, &mut service, &mut passes, spiral);
    let end = service.close(rt, passes);
    let text = end_text(alloc, &end);
    drop(end);
    used?;
    println!(rt; "  {}", text?)?;
    Ok(())
}

/// A service at the prices of a closure.
fn tell_service<F: PriceFn + Drop, R: Wait + Print>(
    rt: &R,
    alloc: Global,
    spiral: &Spiral,
    ask: F,
) -> Result<()>
    requires callable { F.is_callable ask }
    requires promise { IsPromise (F.may_return ask) }
{
    let tariff = Arc::new(alloc, Tariff::new(ask))?;
    let start = Start::Spiral(*spiral).picture(alloc)?;
    named::<F, Brand, R>(rt, alloc, FreshService::new(), start, tariff, spiral)
}

/// A service for each number of windings.
pub(crate) fn tell_services<R: Print + AllocGlobal + Wait>(rt: &R) -> Result<()> {
    for (parts, each) in [(1, 4_097), (1, 5_001), (66, 1_000)] {
        let spiral = Spiral::new(parts, each);
        println!(rt; "service with {} windings:", spiral.windings())?;
        tell_service(rt, rt.alloc(), &spiral, |_facts: &Facts| Some(1000))?;
    }
    Ok(())
}
