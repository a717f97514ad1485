//! Calls of a picture.

ghost use Rattle.std.specs.Prelude.{OnOk};
ghost use Rattle.topo_core.specs.Routes.{IsSimpleRoute};

use crate::judge::{Done, bookkept, unless};
use anyhow::{Result, bail};
use std::alloc::{AllocError, Global};
use topo_core::calls::Refusal;
use topo_dual::{Frozen, NumberLists};
use topo_picture::Picture;
use topo_price::tariff::{PriceFn, Tariff};
use topo_route::check::check;
use topo_route::face_graph::FaceGraph;
use topo_route::plan::Plan;
use topo_route::search::search;
use topo_test_support::plans::are_ends;

/// The rows of a picture as JSON, and its limits.
pub(crate) fn text_of(alloc: Global, picture: &Picture) -> Result<String, AllocError> {
    let rows = picture.rows(alloc)?;
    let text = topo_script::picture_text(alloc, &rows);
    drop(rows);
    let (mut text, limits) = (text?, picture.limits());
    write!(text, " within {limits:?}")?;
    Ok(text)
}

/// Numbers the darts of a picture in new lists.
pub(crate) fn number(alloc: Global, picture: &Picture, told: &mut String) -> Done {
    told.push_str("Picture::numbered")?;
    let mut lists = NumberLists::new(alloc);
    let numbered = picture.numbered(&mut lists)?;
    write!(told, ": {} darts", numbered.size())
}

/// The plan of the first route between two vertices.
pub(crate) fn plan_of<F: PriceFn>(
    alloc: Global,
    frozen: &Frozen,
    tariff: &Tariff<F>,
    (u, v): (u32, u32),
    told: &mut String,
) -> Result<Option<Plan>, AllocError> {
    if !are_ends(frozen, u, v) {
        return Ok(None);
    }
    told.push_str("search")?;
    let plan = search(alloc, frozen, tariff, u, v)?;
    write!(told, " {u} {v}: {plan:?}")?;
    Ok(plan)
}

/// Lets a plan pass whose route is the first.
fn pass<F: PriceFn>(frozen: &Frozen, tariff: &Tariff<F>, u: u32, v: u32, plan: &Plan) -> Result<()>
    ensures { OnOk result (IsSimpleRoute frozen.now.rows u v plan.now.route) }
{
    if !are_ends(frozen, u, v) {
        bail!("no two vertices");
    }
    tariff.keeps_promise();
    match check(frozen, tariff, u, v, plan) {
        Ok(()) => Ok(()),
        Err(fault) => bail!("{fault}"),
    }
}

/// Puts an edge in along the route of a plan, if it passes the check.
pub(crate) fn apply<F: PriceFn>(
    alloc: Global,
    picture: &mut Picture,
    tariff: &Tariff<F>,
    (u, v): (u32, u32),
    plan: &Plan,
    told: &mut String,
) -> Done {
    let frozen = match picture.freeze(alloc) {
        Ok(frozen) => frozen,
        Err(error) => return bookkept(told, Err(error)),
    };
    let passed = pass(&frozen, tariff, u, v, plan);
    drop(frozen);
    if let Err(fault) = passed {
        return write!(told, "check: {fault}");
    }
    if let Err(why) = picture.admit(u, v, 0) {
        return write!(told, "Picture::admit: {why:?}");
    }
    told.push_str("Picture::apply")?;
    let answer = unless(Refusal::Memory, picture.apply(alloc, u, v, 0, plan))?;
    write!(told, " {u} {v}: {answer:?}")
}
