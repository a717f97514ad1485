//! Searches from both ends on pictures that grow at random, and searches that are guided to their
//! targets, beside searches from one end.

ghost use Rattle.topo_price.specs.Prices.{IsPromise};

use crate::generated::{ENTRIES, Numbers, next_call};
use crate::searches::are_ends;
use crate::stories::{Story, tell_at};
use std::alloc::Global;
use std::process::Abort;
use std::sync::atomic::AtomicU32;
use std::test::Fail;
use topo_book::Book;
use topo_core::limits::Limits;
use topo_core::rows::Facts;
use topo_picture::{Frozen, Picture};
use topo_price::tariff::{PriceFn, Tariff};
use topo_route::plan::{Plan, PricedRoute};
use topo_route::search::{first_route, search};
use topo_route::workspace::Workspace;
use topo_test_support::books::make;
use topo_test_support::plans::are_ends as are_ends_of;
use topo_test_support::prices::{Entries, table_of};

/// The price of all kinds but some, and of those.
type Prices = (Option<u32>, Entries);

/// Prices with many ties, with few, and with edges that are closed.
const PRICES: &[Prices] = &[
    (Some(1), &[]),
    (Some(1), &[(1, Some(5)), (2, Some(2))]),
    (Some(1), &[(0, None), (3, Some(7))]),
    (Some(1000), &[(1, Some(999)), (3, None)]),
    (None, &[(2, Some(1)), (3, Some(3))]),
];

/// How many pairs of vertices are asked for on each picture with each of the prices.
const PAIRS: usize = 8;

/// How many calls lead from the first picture of a run to its last.
const CALLS: u32 = 40;

/// How many runs there are for each number of hubs, with numbers of their own. With all pairs these
/// are 25,600 insertions.
const RUNS: u32 = 16;

/// Whether both searches found the same: the same route at the same price, or none.
fn is_same(found: &Option<PricedRoute>, plan: &Option<Plan>) -> bool {
    match (found, plan) {
        (Some(found), Some(plan)) => found.price == plan.price && found.route.equals(&plan.route),
        (None, None) => true,
        _ => false,
    }
}

/// So does a search of a measured picture, which is guided to its target if all prices are 1.
fn is_led<F: PriceFn>(
    rt: &impl Abort,
    alloc: Global,
    measured: &Picture,
    tariff: &Tariff<F>,
    due: ((u32, u32), &Option<Plan>),
    work: &mut Workspace,
) -> Result<(), Fail> {
    let (ends, plan) = due;
    let (u, v) = ends;
    assert!(rt; are_ends(measured, u, v));
    let found = first_route(alloc, &measured.embedded(), tariff, u, v, work)?;
    let same = is_same(&found, plan);
    drop(found);
    assert!(rt; same, "{ends:?}");
    Ok(())
}

/// The two searches of a pair find the same, with the prices of a closure. From vertex 0 a search
/// of a measured copy does so too.
fn is_agreed<F: PriceFn + Drop>(
    rt: &impl Abort,
    alloc: Global,
    pictures: (&Picture, &Frozen),
    ask: F,
    ends: (u32, u32),
    work: &mut Workspace,
) -> Result<(), Fail>
    requires callable { F.is_callable ask }
    requires promise { IsPromise (F.may_return ask) }
{
    let ((picture, frozen), (u, v)) = (pictures, ends);
    assert!(rt; are_ends(picture, u, v));
    assert!(rt; are_ends_of(frozen, u, v));
    let tariff = Tariff::new(ask);
    let plan = search(alloc, frozen, &tariff, u, v);
    let found = first_route(alloc, &picture.embedded(), &tariff, u, v, work);
    let same = match (&found, &plan) {
        (Ok(found), Ok(plan)) => is_same(found, plan),
        _ => false,
    };
    drop(found);
    assert!(rt; same, "{ends:?}");
    let plan = plan?;
    if u > 0 {
        return Ok(());
    }
    let mut measured = picture.copy(alloc)?;
    measured.guide_searches(alloc, &tariff)?;
    is_led(rt, alloc, &measured, &tariff, (ends, &plan), work)
}

/// Two different ones of so many vertices.
fn two_of(numbers: &mut Numbers, vertices: u32) -> (u32, u32) {
    let u = numbers.below(vertices);
    let further = numbers.below(vertices.saturating_sub(1));
    let v = u.wrapping_add(1).wrapping_add(further);
    (u, v.checked_rem(vertices).unwrap_or(0))
}

/// So do those of some pairs, with each of the prices.
fn are_agreed(
    rt: &impl Abort,
    alloc: Global,
    pictures: (&Picture, &Frozen),
    numbers: &mut Numbers,
    work: &mut Workspace,
) -> Result<(), Fail> {
    let vertices = pictures.0.counts().vertices;
    for turn in 0..PRICES.len().saturating_mul(PAIRS) {
        let (rest, entries) = PRICES.get(turn / PAIRS).ok_or("prices")?;
        let table = table_of(*rest, *entries)?;
        let ask = |facts: &Facts| table.price(facts.kind);
        is_agreed(rt, alloc, pictures, ask, two_of(numbers, vertices), work)?;
    }
    Ok(())
}

/// Searches from both ends of some pairs of a picture agree with those from one end.
fn is_searched(
    rt: &impl Abort,
    alloc: Global,
    picture: &Picture,
    numbers: &mut Numbers,
    work: &mut Workspace,
) -> Result<(), Fail> {
    let frozen = picture.freeze(alloc)?;
    let told = are_agreed(rt, alloc, (picture, &frozen), numbers, work);
    drop(frozen);
    told
}

/// Random calls, most of whose new edges end at so many vertices.
#[derive(Drop)]
struct Run<'a> {
    state: u32,
    hubs: u32,
    work: &'a mut Workspace,
}

impl Story for Run<'_> {
    /// The two searches agree on each picture.
    fn tell<F: PriceFn + Drop, R: Abort>(
        &mut self,
        rt: &R,
        alloc: Global,
        book: &mut Book<F>,
        _asked: &AtomicU32,
    ) -> Result<(), Fail> {
        let mut numbers = Numbers { state: self.state };
        for _ in 0..CALLS {
            let call = next_call(alloc, &mut numbers, book.picture(), Some(self.hubs))?;
            drop(make(alloc, book, 0, call)?);
            is_searched(rt, alloc, book.picture(), &mut numbers, &mut *self.work)?;
        }
        Ok(())
    }
}

/// All runs with so many hubs, on one workspace.
fn run_all<R: Abort>(rt: &R, alloc: Global, hubs: u32, work: &mut Workspace) -> Result<(), Fail> {
    let table = table_of(Some(1), ENTRIES)?;
    for state in 0..RUNS {
        let mut run = Run {
            state,
            hubs,
            work: &mut *work,
        };
        let start = Picture::seed(alloc, Limits::new(40, 1_000, 2_000)?);
        tell_at(rt, alloc, start, &table, &mut run)?;
    }
    Ok(())
}

/// Runs all with a new workspace.
fn run_anew<R: Abort>(rt: &R, alloc: Global, hubs: u32) -> Result<(), Fail> {
    let mut work = Workspace::new(alloc)?;
    let told = run_all(rt, alloc, hubs, &mut work);
    drop(work);
    told
}

#[test]
fn searches_from_both_ends_and_from_one_agree(rt: HostRuntime) -> Result<(), Fail> {
    run_anew(&rt, rt.alloc(), 40)
}

#[test]
fn searches_from_both_ends_agree_with_one_hub(rt: HostRuntime) -> Result<(), Fail> {
    run_anew(&rt, rt.alloc(), 1)
}

#[test]
fn searches_from_both_ends_agree_with_three_hubs(rt: HostRuntime) -> Result<(), Fail> {
    run_anew(&rt, rt.alloc(), 3)
}

#[test]
fn searches_from_both_ends_agree_with_twelve_hubs(rt: HostRuntime) -> Result<(), Fail> {
    run_anew(&rt, rt.alloc(), 12)
}
