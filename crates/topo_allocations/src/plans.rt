//! Calls of a frozen picture, and the check of a plan.

ghost use Rattle.topo_price.specs.Prices.{IsPromise};

use crate::marks::{Console, begin, number, says};
use anyhow::Result;
use std::alloc::Global;
use std::io;
use topo_core::rows::Facts;
use topo_dual::Frozen;
use topo_picture::Picture;
use topo_price::tariff::{PriceFn, Tariff};
use topo_route::check::check;
use topo_route::dual::{Dual, has_number};
use topo_route::face_graph::FaceGraph;
use topo_route::plan::Plan;
use topo_route::search::search;
use topo_test_support::pictures::{BIPYRAMID, picture_of};
use topo_test_support::plans::are_ends;
use topo_test_support::prices::{FIVE_TWO_NINE, table_of};

/// Calls that read what is at the first dart.
fn walk<R: Print>(rt: &R, frozen: &Frozen) -> io::Result<()> {
    if !has_number(frozen, 0) {
        return says(rt, false);
    }
    begin(rt, "Dual: size, faces and degree")?;
    let (darts, faces, degree) = (frozen.size(), frozen.faces(), frozen.degree(0));
    says(rt, faces < darts && degree < darts)?;
    begin(rt, "Dual: next, twin, edge, kind and face")?;
    let (next, twin) = (frozen.next(0), frozen.twin(0));
    let (edge, kind, face) = (frozen.edge(0), frozen.kind(0), frozen.face(0));
    number(rt, next as u64)?;
    begin(rt, "Dual: dart, tail, index and corner")?;
    let dart = frozen.dart(0);
    let tail = frozen.tail(0);
    let (index, corner) = (frozen.index(dart), frozen.corner(0, 0));
    says(rt, index.is_some() && corner.is_some())?;
    println!(rt; "  {twin} {edge} {kind} {face} {tail:?}")
}

/// Judges a plan for an insertion.
fn judge<F: PriceFn, R: Print>(
    rt: &R,
    frozen: &Frozen,
    tariff: &Tariff<F>,
    plan: &Plan,
    v: u32,
) -> io::Result<()> {
    if !are_ends(frozen, 3, v) {
        return says(rt, false);
    }
    begin(rt, "check")?;
    let passed = check(frozen, tariff, 3, v, plan);
    says(rt, passed.is_ok())
}

/// Judges the plan of a search between its ends, and between others.
fn judge_found<F: PriceFn, R: Print>(
    rt: &R,
    alloc: Global,
    frozen: &Frozen,
    tariff: &Tariff<F>,
) -> Result<()> {
    if !are_ends(frozen, 3, 4) {
        return Ok(says(rt, false)?);
    }
    if let Some(plan) = search(alloc, frozen, tariff, 3, 4)? {
        let right = judge(rt, frozen, tariff, &plan, 4);
        let wrong = judge(rt, frozen, tariff, &plan, 0);
        drop(plan);
        right?;
        wrong?;
    }
    Ok(())
}

/// A search and its judgement at the prices of a closure.
fn judge_at<F: PriceFn + Drop, R: Print>(
    rt: &R,
    alloc: Global,
    frozen: &Frozen,
    ask: F,
) -> Result<()>
    requires callable { F.is_callable ask }
    requires promise { IsPromise (F.may_return ask) }
{
    let tariff = Tariff::new(ask);
    let told = judge_found(rt, alloc, frozen, &tariff);
    drop(tariff);
    told
}

/// Calls of a frozen picture.
fn use_frozen<R: Console>(rt: &R, frozen: &Frozen) -> Result<()> {
    walk(rt, frozen)?;
    let table = table_of(Some(1), FIVE_TWO_NINE)?;
    judge_at(rt, rt.alloc(), frozen, |facts: &Facts| {
        table.price(facts.kind)
    })
}

/// The frozen picture, which is used.
fn freeze<R: Console>(rt: &R, picture: &Picture) -> Result<()> {
    let frozen = picture.freeze(rt.alloc())?;
    let told = use_frozen(rt, &frozen);
    drop(frozen);
    told
}

/// Calls of the frozen bipyramid.
pub(crate) fn use_plan<R: Console>(rt: &R) -> Result<()> {
    let picture = picture_of(rt.alloc(), &BIPYRAMID)?;
    let told = freeze(rt, &picture);
    drop(picture);
    told
}
