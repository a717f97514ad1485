//! How many prices a search asks for in a picture that was measured, beside one that was not.

ghost use Rattle.topo_price.specs.Prices.{IsPromise};

use crate::searches::are_ends;
use std::alloc::Global;
use std::process::Abort;
use std::sync::atomic::{AtomicU32, Ordering};
use std::test::Fail;
use topo_core::rows::Facts;
use topo_picture::Picture;
use topo_price::tariff::{PriceFn, Tariff};
use topo_route::search::first_route;
use topo_route::workspace::Workspace;
use topo_test_support::grids::Grid;
use topo_test_support::prices::table_of;

/// The grid, of 1,104 edges.
const GRID: Grid = Grid { width: 24 };

/// Two vertices half across the grid from each other.
const ENDS: (u32, u32) = (12 * 24 + 6, 12 * 24 + 17);

/// How many prices a search asks for.
fn asked_for<F: PriceFn>(
    rt: &impl Abort,
    alloc: Global,
    picture: &Picture,
    tariff: &Tariff<F>,
    asked: &AtomicU32,
) -> Result<u32, Fail> {
    let (u, v) = ENDS;
    assert!(rt; are_ends(picture, u, v));
    let mut work = Workspace::new(alloc)?;
    asked.store(0, Ordering::SeqCst);
    let found = first_route(alloc, &picture.embedded(), tariff, u, v, &mut work);
    drop(work);
    let is_found = match &found {
        Ok(Some(_)) => true,
        _ => false,
    };
    drop(found);
    assert!(rt; is_found);
    Ok(asked.load(Ordering::SeqCst))
}

/// Once the picture was measured, a search asks for three quarters of the prices at most. A copy is
/// not measured, and a deletion takes out what was.
fn asks_for_fewer<F: PriceFn>(
    rt: &impl Abort,
    alloc: Global,
    picture: &mut Picture,
    tariff: &Tariff<F>,
    asked: &AtomicU32,
) -> Result<(), Fail> {
    assert!(rt; !picture.has_guided_searches());
    let before = asked_for(rt, alloc, picture, tariff, asked)?;
    picture.guide_searches(alloc, tariff)?;
    assert!(rt; picture.has_guided_searches());
    let after = asked_for(rt, alloc, picture, tariff, asked)?;
    assert!(rt; after <= before / 4 * 3, "{before} and then {after}");
    let copy = picture.copy(alloc)?;
    let is_measured = copy.has_guided_searches();
    drop(copy);
    assert!(rt; !is_measured);
    assert!(rt; picture.delete(0).is_ok());
    assert!(rt; !picture.has_guided_searches());
    Ok(())
}

/// Searches on the grid are guided at the prices of a closure, which counts its calls.
fn is_guided<F: PriceFn + Drop>(
    rt: &impl Abort,
    alloc: Global,
    ask: F,
    asked: &AtomicU32,
) -> Result<(), Fail>
    requires callable { F.is_callable ask }
    requires promise { IsPromise (F.may_return ask) }
{
    let tariff = Tariff::new(ask);
    let mut picture = GRID.picture(alloc)?;
    let told = asks_for_fewer(rt, alloc, &mut picture, &tariff, asked);
    drop(picture);
    told
}

/// At prices above 1 of a closure nothing is kept of a measuring: no price is known before it is
/// asked for, and what is measured must fit all prices.
fn is_measured_in_vain<F: PriceFn + Drop>(
    rt: &impl Abort,
    alloc: Global,
    ask: F,
) -> Result<(), Fail>
    requires callable { F.is_callable ask }
    requires promise { IsPromise (F.may_return ask) }
{
    let tariff = Tariff::new(ask);
    assert!(rt; !tariff.is_by_kind() && tariff.floor(0) == 1);
    let mut picture = GRID.picture(alloc)?;
    let measured = picture.guide_searches(alloc, &tariff);
    let is_guided = picture.has_guided_searches();
    drop(picture);
    assert!(rt; measured.is_ok() && !is_guided);
    Ok(())
}

#[test]
fn a_closure_at_higher_prices_guides_no_search(rt: HostRuntime) -> Result<(), Fail> {
    is_measured_in_vain(&rt, rt.alloc(), |_facts: &Facts| Some(7))
}

#[test]
fn a_search_of_a_measured_picture_asks_for_fewer_prices(rt: HostRuntime) -> Result<(), Fail> {
    let table = table_of(Some(1), &[])?;
    let asked = AtomicU32::new(0);
    let ask = |facts: &Facts| {
        let _ = asked.fetch_add(1, Ordering::SeqCst);
        table.price(facts.kind)
    };
    is_guided(&rt, rt.alloc(), ask, &asked)
}
