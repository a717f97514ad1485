//! What passes do after their work, as lists of steps of one thread.

use crate::harness::{TestRuntime, Work};
use std::alloc::{AllocError, Global};
use std::sync::atomic::{AtomicU64, Ordering};
use std::test::Fail;
use topo_core::calls::Call;
use topo_price::tariff::PriceFn;
use topo_route::check::check;
use topo_route::plan::Plan;
use topo_service::{FoundRoute, Pass, Service};
use topo_service_test_support::calls::make;
use topo_test_support::plans::are_ends;
use topo_versions::{ServiceBrand, Version};

/// What a pass does at one step. What is kept is named by its place among what is kept of its kind.
/// Edges are put in between two vertices, and are of kind 0.
#[derive(Clone, Copy)]
pub(crate) enum Step {
    /// It makes a call.
    Make(Call),
    /// It tells how many accepted calls it has seen, and how many receipts it has.
    Seen,
    /// It tells what its first call was answered.
    FirstReply,
    /// It takes a view, which is kept.
    View,
    /// It tells whether the version that it sees has at least so many accepted calls.
    Accepted(u64),
    /// It tells the rows of the picture that it sees.
    Rows,
    /// It finds a route, which is kept.
    Find(u32, u32),
    /// It inserts an edge along a route that is kept.
    InsertFound(usize),
    /// It makes a plan, which is kept.
    Plan(u32, u32),
    /// It checks a plan that is kept on the picture that it sees.
    Check(u32, u32, usize),
    /// It inserts an edge by a plan that is kept.
    InsertPlanned(u32, u32, usize),
    /// It inserts an edge by the plan that the test has given.
    InsertGiven(u32, u32),
    /// How often a price was asked for since that was told.
    Asked,
}

/// Steps with the numbers of the passes that take them.
pub(crate) type Steps<'a> = &'a [(usize, Step)];

/// What the steps have kept.
#[derive(Drop)]
pub(crate) struct Kept<F: PriceFn, K: ServiceBrand<F>> {
    pub views: Vec<Version<F, K>>,
    pub routes: Vec<FoundRoute<F, K>>,
    pub plans: Vec<Plan>,
}

impl<F: PriceFn + Drop, K: ServiceBrand<F>> Kept<F, K> {
    /// Finds a route or makes a plan, which is kept, or says why there is none.
    fn search(
        &mut self,
        alloc: Global,
        service: &Service<F, K>,
        pass: &mut Pass<F, K>,
        (u, v): (u32, u32),
        is_plan: bool,
    ) -> Result<String, Fail> {
        if is_plan {
            return match pass.plan(alloc, service.tariff(), u, v) {
                Ok(plan) => {
                    let price = plan.price;
                    self.plans.push(plan)?;
                    Ok(format!(in alloc; "planned for {price}")?)
                }
                Err(fault) => Ok(format!(in alloc; "{fault:?}")?),
            };
        }
        match pass.find(alloc, service.tariff(), u, v) {
            Ok(found) => {
                let (ends, price) = (found.ends(), found.first().price);
                self.routes.push(found)?;
                Ok(format!(in alloc; "{ends:?} for {price}")?)
            }
            Err(fault) => Ok(format!(in alloc; "{fault:?}")?),
        }
    }

    /// Whether a plan that is kept passes the check on the newest version.
    fn check(
        &self,
        alloc: Global,
        service: &Service<F, K>,
        pass: &mut Pass<F, K>,
        (u, v): (u32, u32),
        at: usize,
    ) -> Result<String, Fail> {
        let plan = self.plans.as_slice().get(at).ok_or("a plan")?;
        let view = pass.view()?;
        let frozen = view.picture().freeze(alloc);
        drop(view);
        let frozen = frozen?;
        let is_good = are_ends(&frozen, u, v)
            && check(&frozen, service.tariff(), u, v, plan).is_ok();
        drop(frozen);
        Ok(format!(in alloc; "good: {is_good}")?)
    }

    /// The numbers of the views and how many edges their pictures have.
    fn text_of_views(&self, alloc: Global) -> Result<String, AllocError> {
        let mut numbers = Vec::new(alloc);
        for view in self.views.as_slice() {
            numbers.push((view.number(), view.picture().counts().edges))?;
        }
        format!(in alloc; "{numbers:?}")
    }

    /// Takes a step that makes no call and looks for nothing, and tells what the pass sees.
    fn look(&mut self, alloc: Global, pass: &mut Pass<F, K>, step: Step) -> Result<String, Fail> {
        match step {
            Step::Seen => {
                let (seen, receipts) = (pass.seen(), pass.receipts().len());
                Ok(format!(in alloc; "{seen} seen, {receipts} receipts")?)
            }
            Step::FirstReply => {
                let receipt = pass.receipts().first().ok_or("a receipt")?;
                Ok(format!(in alloc; "{:?}", receipt.reply)?)
            }
            Step::View => {
                let view = pass.view()?;
                let (number, edges) = (view.number(), view.picture().counts().edges);
                self.views.push(view)?;
                Ok(format!(in alloc; "version {number} with {edges} edges")?)
            }
            Step::Accepted(least) => {
                let view = pass.view()?;
                let is_so = view.number() >= least;
                drop(view);
                Ok(format!(in alloc; "accepted: {is_so}")?)
            }
            Step::Rows => {
                let view = pass.view()?;
                let rows = view.picture().rows(alloc);
                drop(view);
                let rows = rows?;
                let text = format!(in alloc; "{rows:?}");
                drop(rows);
                Ok(text?)
            }
            _ => Err("a step that looks".into()),
        }
    }
}

/// The work of the passes, the steps after it, and a count of the prices that are asked for.
#[derive(Drop)]
pub(crate) struct Play<'a> {
    pub work: &'a Work<'a>,
    pub steps: Steps<'a>,
    pub asked: &'a AtomicU64,
}

impl Play<'_> {
    /// Takes a step, and tells what came of it.
    fn take<F: PriceFn + Drop, K: ServiceBrand<F>, R: TestRuntime>(
        &self,
        rt: &R,
        service: &Service<F, K>,
        pass: &mut Pass<F, K>,
        kept: &mut Kept<F, K>,
        step: Step,
    ) -> Result<String, Fail> {
        let alloc = rt.alloc();
        let reply = match step {
            Step::Make(call) => make(rt, service, pass, call)?,
            Step::InsertFound(at) => {
                let found = kept.routes.as_slice().get(at).ok_or("a route")?;
                service.insert_found(rt, pass, 0, found)?
            }
            Step::InsertPlanned(u, v, at) => {
                let plan = kept.plans.as_slice().get(at).ok_or("a plan")?;
                service.insert_planned(rt, pass, u, v, 0, plan)?
            }
            Step::InsertGiven(u, v) => match self.work {
                Work::Given(plan) => service.insert_planned(rt, pass, u, v, 0, *plan)?,
                _ => return Err("a given plan".into()),
            },
            Step::Find(u, v) => return kept.search(alloc, service, pass, (u, v), false),
            Step::Plan(u, v) => return kept.search(alloc, service, pass, (u, v), true),
            Step::Check(u, v, at) => return kept.check(alloc, service, pass, (u, v), at),
            Step::Asked => {
                let asked = self.asked.swap(0, Ordering::SeqCst);
                return Ok(format!(in alloc; "asked {asked} times")?);
            }
            _ => return kept.look(alloc, pass, step),
        };
        let text = format!(in alloc; "{reply:?}");
        drop(reply);
        Ok(text?)
    }

    /// A line more for each step, and the views as they are at the end.
    pub(crate) fn play<F: PriceFn + Drop, K: ServiceBrand<F>, R: TestRuntime>(
        &self,
        rt: &R,
        service: &Service<F, K>,
        passes: &mut [Pass<F, K>],
        kept: &mut Kept<F, K>,
        mut text: String,
    ) -> Result<String, Fail> {
        for row in self.steps {
            let (number, step) = *row;
            let Some(pass) = passes.get_mut(number) else {
                return Err("a pass".into());
            };
            let told = self.take(rt, service, pass, kept, step)?;
            text.push_str(told.as_str())?;
            text.push_str("\n")?;
        }
        text.push_str(kept.text_of_views(rt.alloc())?.as_str())?;
        Ok(text)
    }
}
