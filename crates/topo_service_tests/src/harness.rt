//! A service that is begun, used by its passes and closed, and what is told of it.

ghost use Rattle.std.specs.Prelude.{◌≡◌, ◌<◌, ◌≤◌, Some};
ghost use Rattle.std.specs.Arc.{arc_value};
ghost use Rattle.topo_core.specs.declared.limits.TheConstants.{MAX_PASSES};
ghost use Rattle.topo_price.specs.Prices.{IsPromise};

use crate::crowds::{Watch, tree, work_all};
use crate::gates::{EarlierView, Round};
use crate::steps::{Kept, Play, Steps};
use crate::survivors::GRID;
use std::alloc::{AllocError, Global};
use std::marker::Brand;
use std::process::Abort;
use std::sync::atomic::{AtomicU64, Ordering};
use std::sync::{Arc, Wait};
use std::test::Fail;
use std::thread::Threads;
use topo_book::replay;
use topo_core::calls::Command;
use topo_core::limits::MAX_PASSES;
use topo_core::listed::Listed;
use topo_core::rows::Facts;
use topo_picture::Picture;
use topo_price::tariff::{PriceFn, Tariff};
use topo_route::plan::Plan;
use topo_service::{FreshService, Pass, Service, run_workers};
use topo_test_support::pictures::{BIPYRAMID, greatest_limits, picture_of};
use topo_test_support::prices::{Entries, table_of};
use topo_versions::ServiceBrand;

/// What a test hands on to what it calls.
pub(crate) trait TestRuntime: Threads + Wait + Abort + AllocGlobal + Sync {}

impl<R: Threads + Wait + Abort + AllocGlobal + Sync> TestRuntime for R {}

/// The picture that a service begins with.
#[derive(Clone, Copy)]
pub(crate) enum Start {
    /// Two vertices and the edge between them.
    Seed,
    /// A triangle between two apexes, 3 and 4.
    Bipyramid,
    /// The grid of `survivors`.
    Grid,
    /// The seed with two hundred vertices more.
    Tree,
}

/// How many passes are asked for, and what they do before the steps.
#[derive(Drop)]
pub(crate) enum Work<'a> {
    /// So many do nothing.
    Nothing(usize),
    /// Two do nothing, and the test gives a plan for an insertion.
    Given(&'a Plan),
    /// So many do nothing, and of those that are given out the second alone is handed back.
    SecondAlone(usize),
    /// Of a service of so many places one pass more than it has is asked for, and refused.
    Seats(u32),
    /// A worker for each list carries it out, with the gate's calls round each command.
    Lists(&'a [&'a [Command]], &'a Round),
    /// So many make calls of their own, and look at versions meanwhile.
    Crowd(usize, &'a Watch),
}

impl Work<'_> {
    /// How many places the service has.
    fn places(&self) -> u32
        ensures { (0 < result) × (result ≤ MAX_PASSES) }
    {
        match self {
            Work::Seats(places) => (*places).max(1).min(MAX_PASSES),
            _ => MAX_PASSES,
        }
    }

    /// A price is asked for.
    fn ask(&self) {
        if let Work::Lists(_, Round::FromFirstPrice(turns)) = self {
            turns.begin();
        }
    }
}

/// What a service begins with, the steps after the work of its passes, and what is told then.
#[derive(Clone, Copy)]
pub(crate) struct Scene<'a> {
    pub start: Start,
    /// The price of all kinds of edges but some, and of those.
    pub prices: (Option<u32>, Entries),
    pub steps: Steps<'a>,
    pub due: &'a str,
}

/// The text is the one that is due.
pub(crate) fn is_due(rt: &impl Abort, told: &str, due: &str) {
    assert!(rt; told == due, "{told}");
}

/// After this work what is told is what is due.
pub(crate) fn is_played<R: TestRuntime>(
    rt: &R,
    scene: &Scene<'_>,
    work: Work<'_>,
) -> Result<(), Fail> {
    let told = told_of(rt, scene.start, scene.prices, work, scene.steps)?;
    is_due(rt, told.as_str(), scene.due);
    Ok(())
}

/// So it is after these lists, with the calls of a gate round each command, which come as they are
/// to.
pub(crate) fn are_carried_out<R: TestRuntime>(
    rt: &R,
    scene: &Scene<'_>,
    lists: &[&[Command]],
    round: &Round,
) -> Result<(), Fail> {
    is_played(rt, scene, Work::Lists(lists, round))?;
    assert!(rt; round.is_well());
    Ok(())
}

/// The text of the work of the passes and of the steps after it, and how the service ended. Prices
/// are one for all kinds of edges, and those of some kinds. How often one was asked for is counted.
pub(crate) fn told_of<R: TestRuntime>(
    rt: &R,
    start: Start,
    (rest, entries): (Option<u32>, Entries),
    work: Work<'_>,
    steps: Steps<'_>,
) -> Result<String, Fail> {
    let table = table_of(rest, entries)?;
    let start = picture_at(rt, start)?;
    let asked = AtomicU64::new(0);
    let round = &work;
    let ask = |facts: &Facts| {
        let _ = asked.fetch_add(1, Ordering::SeqCst);
        round.ask();
        table.price(facts.kind)
    };
    let play = Play {
        work: &work,
        steps,
        asked: &asked,
    };
    run_work(rt, ask, start, &play)
}

/// The picture that a service begins with.
fn picture_at<R: Abort + AllocGlobal>(rt: &R, start: Start) -> Result<Picture, Fail> {
    match start {
        Start::Seed => Ok(Picture::seed(rt.alloc(), greatest_limits())?),
        Start::Bipyramid => Ok(picture_of(rt.alloc(), &BIPYRAMID)?),
        Start::Grid => Ok(GRID.picture(rt.alloc())?),
        Start::Tree => Ok(tree(rt, rt.alloc())?),
    }
}

/// Runs the work at the prices of a closure.
fn run_work<F: PriceFn + Drop + Send + Sync, R: TestRuntime>(
    rt: &R,
    ask: F,
    start: Picture,
    play: &Play<'_>,
) -> Result<String, Fail>
    requires callable { F.is_callable ask }
    requires promise { IsPromise (F.may_return ask) }
{
    let tariff = Arc::new(rt.alloc(), Tariff::new(ask))?;
    named::<F, Brand, R>(rt, FreshService::new(), start, tariff, play)
}

/// Runs the work over the service that K names. The service and its passes are owned here alone,
/// and nothing returns early while they are.
fn named<F: PriceFn + Drop + Send + Sync, K: ServiceBrand<F> + Send + Sync, R: TestRuntime>(
    rt: &R,
    fresh: FreshService,
    start: Picture,
    tariff: Arc<Tariff<F>>,
    play: &Play<'_>,
) -> Result<String, Fail>
    requires ledger { (fresh.blank.name ≡ K.name) × (fresh.blank.parts ≡ K.parts) }
    requires parts { K.parts ≡ MAX_PASSES }
    requires list { fresh.log.seen.book ≡ K.book }
    requires start { start ≡ K.start }
    requires prices { K.closure ≡ Some (arc_value tariff) }
{
    let places = play.work.places();
    let mut service = Service::<F, K>::with_places(rt.alloc(), fresh, start, tariff, places)?;
    let mut passes = Vec::new(rt.alloc());
    let told = tell(rt, &mut service, &mut passes, play);
    let end = close(rt, rt.alloc(), service, passes);
    let (told, end) = (told?, end?);
    Ok(format!(in rt.alloc(); "{told}; {end}")?)
}

/// Gives out the passes that are asked for, or as many as there are, lets them do their work, and
/// takes the steps. The passes that it leaves are those that the service is closed with.
fn tell<F: PriceFn + Drop + Send + Sync, K: ServiceBrand<F> + Send + Sync, R: TestRuntime>(
    rt: &R,
    service: &mut Service<F, K>,
    passes: &mut Vec<Pass<F, K>>,
    play: &Play<'_>,
) -> Result<String, Fail> {
    let pass_count = match play.work {
        Work::Nothing(count) => *count,
        Work::Given(_) => 2,
        Work::SecondAlone(count) => *count,
        Work::Seats(places) => *places as usize,
        Work::Lists(lists, _) => lists.len(),
        Work::Crowd(count, _) => *count,
    };
    for _ in 0..pass_count {
        let Ok(pass) = service.pass() else {
            break;
        };
        passes.push(pass)?;
    }
    let text = match play.work {
        Work::Seats(_) => ask_for_one_more(rt.alloc(), service, passes.len())?,
        work => carry_out(rt, &*service, passes, work)?,
    };
    let mut kept = Kept {
        views: Vec::new(rt.alloc()),
        routes: Vec::new(rt.alloc()),
        plans: Vec::new(rt.alloc()),
    };
    let told = play.play(rt, &*service, passes.as_mut_slice(), &mut kept, text);
    drop(kept);
    told
}

/// Asks for one pass more than so many that were given out. The text says what was answered.
fn ask_for_one_more<F: PriceFn + Drop, K: ServiceBrand<F>>(
    alloc: Global,
    service: &mut Service<F, K>,
    given: usize,
) -> Result<String, AllocError> {
    match service.pass() {
        Ok(_pass) => format!(in alloc; "{given} given out, and one more\n"),
        Err(fault) => {
            let number = fault.fault().number();
            format!(in alloc; "{given} given out, then {number}\n")
        }
    }
}

/// Closes the service with these passes. The text says with how many calls it ended, and whether
/// their replay gives their replies; or else with which fault, and how many passes are left.
fn close<F: PriceFn + Drop, K: ServiceBrand<F>, R: Wait>(
    rt: &R,
    alloc: Global,
    service: Service<F, K>,
    passes: Vec<Pass<F, K>>,
) -> Result<String, AllocError> {
    match service.close(rt, passes) {
        Ok(book) => {
            let calls = book.history().len();
            let again = replay(alloc, book.start(), book.history(), book.tariff());
            let is_replayed = again.is_ok();
            drop(again);
            drop(book);
            format!(in alloc; "{calls} calls, replayed: {is_replayed}")
        }
        Err(end) => {
            let (fault, left) = (end.fault, end.passes.len());
            drop(end);
            let number = fault.fault().number();
            format!(in alloc; "{number} {fault:?}, {left} passes")
        }
    }
}

/// Lets the passes do their work, each in a thread of its own. The text says how lists ended, or
/// how many passes were given out where one alone is handed back.
fn carry_out<F: PriceFn + Drop + Send + Sync, K: ServiceBrand<F> + Send + Sync, R: TestRuntime>(
    rt: &R,
    service: &Service<F, K>,
    passes: &mut Vec<Pass<F, K>>,
    work: &Work<'_>,
) -> Result<String, Fail> {
    match work {
        Work::Nothing(_) | Work::Given(_) | Work::Seats(_) => Ok(String::new(rt.alloc())),
        Work::SecondAlone(_) => {
            let given = passes.len();
            passes.truncate(2);
            if passes.len() == 2 {
                drop(passes.remove(0));
            }
            Ok(format!(in rt.alloc(); "{given} given out\n")?)
        }
        Work::Crowd(_, watch) => {
            work_all(rt, rt.alloc(), service, passes.as_mut_slice(), watch);
            Ok(String::new(rt.alloc()))
        }
        Work::Lists(lists, gate) => { run_lists(rt, service, passes.as_mut_slice(), lists, gate) }
    }
}

/// The lists as workers take them.
fn lists_of(alloc: Global, lists: &[&[Command]]) -> Result<Vec<Listed<Command>>, AllocError> {
    let mut made = Vec::new(alloc);
    for list in lists {
        made.push(Listed::from_vec(Vec::from_slice(alloc, *list)?))?;
    }
    Ok(made)
}

/// Lets each pass carry out its list. The text says how the lists ended.
fn run_made<F: PriceFn + Drop + Send + Sync, K: ServiceBrand<F> + Send + Sync, R: TestRuntime>(
    rt: &R,
    service: &Service<F, K>,
    passes: &mut [Pass<F, K>],
    lists: &[Listed<Command>],
    gate: &Round,
) -> Result<String, Fail> {
    if passes.len() != lists.len() {
        return Err("a pass for each list".into());
    }
    let ends = match (gate, passes.first_mut()) {
        (Round::Viewed(edges), Some(first)) => {
            let view = &first.view()?;
            run_workers(
                rt,
                rt.alloc(),
                service,
                passes,
                lists,
                &EarlierView { view, edges },
            )?
        }
        _ => run_workers(rt, rt.alloc(), service, passes, lists, gate)?,
    };
    let text = format!(in rt.alloc(); "{:?}\n", ends.as_slice());
    drop(ends);
    Ok(text?)
}

/// Runs lists that are made first.
fn run_lists<F: PriceFn + Drop + Send + Sync, K: ServiceBrand<F> + Send + Sync, R: TestRuntime>(
    rt: &R,
    service: &Service<F, K>,
    passes: &mut [Pass<F, K>],
    lists: &[&[Command]],
    gate: &Round,
) -> Result<String, Fail> {
    let lists = lists_of(rt.alloc(), lists)?;
    let told = run_made(rt, service, passes, lists.as_slice(), gate);
    drop(lists);
    told
}
