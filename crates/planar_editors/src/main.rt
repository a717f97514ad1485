//! Two editors and a viewer on one picture, each in a thread of its own.
//!
//! A service keeps the picture under one lock. Whoever wants to call it is given a pass: the
//! editors change the picture by calls of the service, the viewer only looks at versions of it, for
//! which nobody waits. At the end the service is closed with all passes, which compares every
//! receipt with the history. What is printed is the same whichever thread is faster.
#![tactic(auto)]

ghost use Rattle.std.specs.Prelude.{◌≡◌, Some};
ghost use Rattle.std.specs.Arc.{arc_value};
ghost use Rattle.topo_core.specs.declared.limits.TheConstants.{MAX_PASSES};
ghost use Rattle.topo_price.specs.Prices.{IsPromise};

mod editing;
mod summary;

use anyhow::{Error, Result};
use editing::{edit, watch};
use std::alloc::Global;
use std::marker::Brand;
use std::sync::atomic::{AtomicBool, Ordering};
use std::sync::{Arc, Wait};
use std::thread;
use std::thread::Threads;
use summary::tell;
use topo_core::limits::Limits;
use topo_core::rows::Facts;
use topo_picture::Picture;
use topo_price::tariff::{PriceFn, Tariff};
use topo_service::{FreshService, Pass, Service};
use topo_versions::ServiceBrand;

/// How many editors there are. Their passes have the numbers from 0 on, the viewer's comes after
/// them.
const EDITORS: u32 = 2;

fn main(rt: HostRuntime) -> Result<()> {
    // What it costs to cross an edge: those of the second editor, of kind 1, are dear.
    begin(
        &rt,
        |facts: &Facts| Some(if facts.kind == 1 { 5 } else { 1 }),
    )
}

/// Makes what a service begins with: an empty ledger of receipts, a picture and the prices. `Brand`
/// is the type that stands for this one service, so that a pass of another cannot be handed in.
fn begin<F: PriceFn + Drop + Send + Sync, R: Threads + Wait + Print + AllocGlobal + Sync>(
    rt: &R,
    prices: F,
) -> Result<()>
    requires callable { F.is_callable prices }
    requires promise { IsPromise (F.may_return prices) }
{
    let alloc = rt.alloc();
    let limits = Limits::new(1_000, 1_000, 10_000)?;
    // two vertices, 0 and 1, with an edge between them
    let start = Picture::seed(alloc, limits)?;
    let tariff = Arc::new(alloc, Tariff::new(prices))?;
    share::<F, Brand, R>(rt, alloc, FreshService::new(), start, tariff)
}

/// Two editors and a viewer at one service. The service and the passes are owned here, and handed
/// back to it whatever happened: it has to be closed.
fn share<
    F: PriceFn + Drop + Send + Sync,
    K: ServiceBrand<F> + Send + Sync,
    R: Threads + Wait + Print + AllocGlobal + Sync,
>(rt: &R, alloc: Global, fresh: FreshService, start: Picture, tariff: Arc<Tariff<F>>) -> Result<()>
    requires ledger { (fresh.blank.name ≡ K.name) × (fresh.blank.parts ≡ K.parts) }
    requires parts { K.parts ≡ MAX_PASSES }
    requires list { fresh.log.seen.book ≡ K.book }
    requires start { start ≡ K.start }
    requires prices { K.closure ≡ Some (arc_value tariff) }
{
    let mut service = Service::<F, K>::new(alloc, fresh, start, tariff)?;
    let mut passes = Vec::new(alloc);
    let served = serve(rt, alloc, &mut service, &mut passes);
    let end = service.close(rt, passes);
    tell(rt, served, &end)
}

/// Gives the passes out, and lets everybody do their work.
fn serve<
    F: PriceFn + Drop + Send + Sync,
    K: ServiceBrand<F> + Send + Sync,
    R: Threads + Wait + Sync,
>(rt: &R, alloc: Global, service: &mut Service<F, K>, passes: &mut Vec<Pass<F, K>>) -> Result<()> {
    give_out(service, passes)?;
    if work(rt, alloc, &*service, passes.as_mut_slice()) {
        Ok(())
    } else {
        Err(Error::msg("an editor or the viewer stopped early"))
    }
}

/// A pass for each editor and one for the viewer.
fn give_out<F: PriceFn + Drop, K: ServiceBrand<F>>(
    service: &mut Service<F, K>,
    passes: &mut Vec<Pass<F, K>>,
) -> Result<()> {
    for _ in 0..EDITORS + 1 {
        passes.push(service.pass()?)?;
    }
    Ok(())
}

/// A thread for each pass: the first ones edit, the last one looks. It says whether each came to
/// its end.
fn work<
    F: PriceFn + Drop + Send + Sync,
    K: ServiceBrand<F> + Send + Sync,
    R: Threads + Wait + Sync,
>(rt: &R, alloc: Global, service: &Service<F, K>, passes: &mut [Pass<F, K>]) -> bool {
    let well = AtomicBool::new(true);
    thread::for_each_mut(
        rt,
        passes,
        EDITORS as usize + 1,
        &|_at, pass: &mut Pass<F, K>| {
            let ended = if pass.number() < EDITORS {
                edit(rt, alloc, service, pass).is_ok()
            } else {
                watch(pass)
            };
            if !ended {
                well.store(false, Ordering::SeqCst);
            }
        },
    );
    well.load(Ordering::SeqCst)
}
