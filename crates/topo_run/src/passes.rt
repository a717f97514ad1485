//! Lists of commands, carried out by the passes of one service.

ghost use Rattle.std.specs.Prelude.{◌≡◌, ◌+◌, ◌<◌, ◌≤◌, ℕ, List, [], All};
ghost use Rattle.std.specs.Prelude.{IfErr, IfOk, OnOk, Some, length, true};
ghost use Rattle.std.specs.Arc.{arc_value};
ghost use Rattle.topo_core.specs.History.{IsRun};
ghost use Rattle.topo_price.specs.Prices.{prices_of};
ghost use Rattle.topo_run.specs.Working.{AreOpened, HaveWorked, IsOfOpening, IsOfRun};
ghost use Rattle.topo_run.specs.Working.{IsOfService};
ghost use Rattle.topo_core.specs.declared.limits.TheConstants.{MAX_PASSES};

use crate::alone::outcome_alone;
use crate::outcome::{RunOutcome, outcome_of};
use std::alloc::Global;
use std::marker::Brand;
use std::sync::{Arc, Wait};
use std::thread::Threads;
use topo_core::calls::Command;
use topo_core::limits::MAX_PASSES;
use topo_core::listed::Listed;
use topo_io::RunFault;
use topo_picture::Picture;
use topo_price::tariff::{PriceFn, Tariff};
use topo_service::{EndFault, FreshService, Gate, Pass, Service, WorkerEnd, run_workers};
use topo_versions::ServiceBrand;

/// The next pass of a service.
fn open_pass<F: PriceFn + Drop, K: ServiceBrand<F>>(
    service: &mut Service<F, K>,
) -> Result<Pass<F, K>, RunFault>
    ensures number { IfOk result (λ p. p.number ≡ service.old.given) }
    ensures receipts { IfOk result (λ p. p.receipts ≡ []) }
    ensures given { IfOk result (λ p. service.new.given ≡ service.old.given + 1) }
    ensures seat { IfOk result (λ p. service.old.given < MAX_PASSES) }
    ensures same { service.new.tariff ≡ service.old.tariff }
    ensures fault { IfErr result (λ fault. fault ≡ RunFault.NoSeat) }
{
    match service.pass() {
        Ok(pass) => Ok(pass),
        Err(_) => Err(RunFault::NoSeat),
    }
}

/// The first passes of a service, so many of them.
fn open_passes<F: PriceFn + Drop, K: ServiceBrand<F>>(
    alloc: Global,
    service: &mut Service<F, K>,
    count: usize,
) -> Result<Vec<Pass<F, K>>, RunFault>
    requires { service.old.given ≡ 0 }
    ensures opened { IfOk result (λ passes. AreOpened passes.items) }
    ensures count { IfOk result (λ passes. length passes.items ≡ count) }
    ensures given { IfOk result (λ passes. service.new.given ≡ count) }
    ensures seats { IfOk result (λ passes. count ≤ MAX_PASSES) }
    ensures same { service.new.tariff ≡ service.old.tariff }
    ensures fault { IfErr result (IsOfOpening count) }
{
    let mut passes = Vec::new(alloc);
    for _i in 0..count {
        let pass = open_pass(service)?;
        if passes.push(pass).is_err() {
            return Err(RunFault::Memory);
        }
    }
    Ok(passes)
}

/// Whether each list was carried out to its end.
fn are_done(ends: &[WorkerEnd]) -> bool
    ensures { result ≡ true → All (λ end. end ≡ WorkerEnd.Done) ends.now }
{
    for end in ends {
        match end {
            WorkerEnd::Done => {}
            WorkerEnd::OutOfMemory(_) => return false,
        }
    }
    true
}

/// Carries the lists out, each with a pass of its own.
fn run_all<
    F: PriceFn + Drop + Send + Sync,
    K: ServiceBrand<F> + Send + Sync,
    R: Threads + Wait + Sync,
    T: Gate,
>(
    rt: &R,
    alloc: Global,
    service: &mut Service<F, K>,
    lists: &[Listed<Command>],
    gate: &T,
) -> Result<Vec<Pass<F, K>>, RunFault>
    requires { service.old.given ≡ 0 }
    ensures worked { IfOk result (λ passes. HaveWorked lists.now passes.items) }
    ensures given { IfOk result (λ passes. service.new.given ≡ length passes.items) }
    ensures seats { IfOk result (λ passes. length lists.now ≤ MAX_PASSES) }
    ensures same { service.new.tariff ≡ service.old.tariff }
    ensures fault { IfErr result (IsOfOpening (length lists.now)) }
{
    let mut passes = open_passes(alloc, service, lists.len())?;
    let ran = run_workers(rt, alloc, &*service, passes.as_mut_slice(), lists, gate);
    let Ok(ends) = ran else {
        return Err(RunFault::Memory);
    };
    if are_done(ends.as_slice()) {
        Ok(passes)
    } else {
        Err(RunFault::Memory)
    }
}

/// Runs the lists on a new service, from the start and at the prices that K names: the history, and
/// the picture at the end.
fn serve<
    F: PriceFn + Drop + Send + Sync,
    K: ServiceBrand<F> + Send + Sync,
    R: Threads + Wait + Sync,
    T: Gate,
>(
    rt: &R,
    alloc: Global,
    fresh: FreshService,
    beginning: (Picture, Arc<Tariff<F>>),
    lists: &[Listed<Command>],
    gate: &T,
) -> Result<RunOutcome, RunFault>
    requires ledger { (fresh.blank.name ≡ K.name) × (fresh.blank.parts ≡ K.parts) }
    requires parts { K.parts ≡ MAX_PASSES }
    requires list { fresh.log.seen.book ≡ K.book }
    requires start { beginning.0 ≡ K.start }
    requires prices { K.closure ≡ Some (arc_value beginning.1) }
    ensures run { IfOk result
        (λ outcome. IsRun (prices_of (F.may_return (arc_value beginning.1)))
        beginning.0.limits beginning.0.rows lists.now outcome.history
        outcome.picture) }
    ensures seats { OnOk result (length lists.now ≤ MAX_PASSES) }
    ensures fault { IfErr result (IsOfService lists.now) }
{
    let (start, tariff) = beginning;
    let places = lists.len().max(1).min(MAX_PASSES as usize) as u32;
    let Ok(mut service) = Service::<F, K>::with_places(alloc, fresh, start, tariff, places) else {
        return Err(RunFault::Memory);
    };
    match run_all(rt, alloc, &mut service, lists, gate) {
        Ok(passes) => match service.close(rt, passes) {
            Ok(book) => outcome_of(alloc, book),
            Err(end) => match end.fault {
                EndFault::PassMissing(_) => unreachable!(),
                EndFault::Mismatch(number, k) => Err(RunFault::Mismatch(number, k)),
            },
        },
        Err(fault) => {
            let _ = service.close(rt, Vec::new(alloc));
            Err(fault)
        }
    }
}

/// Carries out the lists on a new service, each in a thread of its own.
fn run_together<F: PriceFn + Drop + Send + Sync, R: Threads + Wait + Sync, T: Gate>(
    rt: &R,
    alloc: Global,
    start: Picture,
    tariff: Arc<Tariff<F>>,
    lists: &[Listed<Command>],
    gate: &T,
) -> Result<RunOutcome, RunFault>
    ensures run { IfOk result (λ outcome. IsRun (prices_of (F.may_return (arc_value tariff)))
        start.limits start.rows lists.now outcome.history outcome.picture) }
    ensures seats { OnOk result (length lists.now ≤ MAX_PASSES) }
    ensures fault { IfErr result (IsOfService lists.now) }
{
    let fresh = FreshService::new();
    serve::<F, Brand, R, T>(rt, alloc, fresh, (start, tariff), lists, gate)
}

/// Carries out lists of commands from a start, each in a thread of its own, and says what they have
/// led to. One list alone is carried out on a book, as it stands.
pub(crate) fn run_lists<F: PriceFn + Drop + Send + Sync, R: Threads + Wait + Sync, T: Gate>(
    rt: &R,
    alloc: Global,
    start: Picture,
    tariff: Arc<Tariff<F>>,
    lists: &[Listed<Command>],
    gate: &T,
) -> Result<RunOutcome, RunFault>
    ensures run { IfOk result (λ outcome. IsRun (prices_of (F.may_return (arc_value tariff)))
        start.limits start.rows lists.now outcome.history outcome.picture) }
    ensures seats { OnOk result (length lists.now ≤ MAX_PASSES) }
    ensures fault { IfErr result (IsOfRun lists.now) }
{
    match lists {
        [list] => outcome_alone(alloc, start, tariff, list.as_slice(), gate),
        _ => run_together(rt, alloc, start, tariff, lists, gate),
    }
}
