//! A service that is begun, used by one thread and closed.

ghost use Rattle.std.specs.Prelude.{◌≡◌, Some};
ghost use Rattle.std.specs.Arc.{arc_value};
ghost use Rattle.topo_core.specs.declared.limits.TheConstants.{MAX_PASSES};

use crate::books::method;
use crate::judge::{Case, Done, Runtime, bookkept, judge_all, refused, room, twice, unless};
use crate::lists::Watch;
use crate::pictures::text_of;
use Act::{Begin, Find, Found, Keep, Kept, Make, Plan, Planned, See};
use anyhow::Result;
use std::alloc::{AllocError, Global};
use std::marker::Brand;
use std::sync::{Arc, Wait};
use topo_book::Book;
use topo_core::calls::{Call, Refusal};
use topo_picture::Picture;
use topo_price::tariff::{PriceFn, Tariff};
use topo_route::plan::Plan as RoutePlan;
use topo_service::{FoundRoute, FreshService, Pass, PassFault, Service, ServiceOver, View};
use topo_test_support::calls::{delete, insert};
use topo_versions::{ServiceBrand, VersionWriter};

/// What a pass does.
#[derive(Clone, Copy)]
pub(crate) enum Act {
    /// It is given out.
    Begin,
    /// It takes a view, which is kept, so that its picture cannot be carried on.
    Keep,
    /// It has then seen the newest version.
    See,
    Make(Call),
    Plan(u32, u32),
    /// It makes a call, an insertion by the plan.
    Planned(Call),
    Find(u32, u32),
    /// It inserts by the route that was found.
    Found,
    /// The rows of the version that was kept are told.
    Kept,
}

/// The pass that makes the calls. The first one looks at versions.
pub(crate) const CALLER: usize = 1;

/// A service with its passes, and what was kept for its calls. It is closed by who made it.
pub(crate) struct ServiceCase<'a, F: PriceFn, K: ServiceBrand<F>, W: VersionWriter<F, K>> {
    pub service: ServiceOver<F, K, W>,
    pub passes: Vec<Pass<F, K>>,
    pub watch: &'a Watch,
    kept: Option<View<F, K>>,
    plan: Option<RoutePlan>,
    found: Option<FoundRoute<F, K>>,
}

/// Writes how many receipts a pass has, the last of them, and how many accepted calls it has seen.
fn write_pass<F: PriceFn + Drop, K: ServiceBrand<F>>(text: &mut String, pass: &Pass<F, K>) -> Done {
    let (number, many, seen) = (pass.number(), pass.receipts().len(), pass.seen());
    write!(text, "; pass {number} has seen {seen}, {many} receipts")?;
    match pass.receipts().last() {
        Some(last) => write!(text, ", the last {:?}: {:?}", last.call, last.reply),
        None => Ok(()),
    }
}

impl<F: PriceFn + Drop, K: ServiceBrand<F>, W: VersionWriter<F, K>> ServiceCase<'_, F, K, W> {
    /// Gives a pass out.
    fn give_out(&mut self, told: &mut String) -> Done {
        told.push_str("Service::pass")?;
        bookkept(told, self.passes.reserve(1))?;
        let Ok(pass) = self.service.pass() else {
            return Err(AllocError);
        };
        self.passes.push(pass)?;
        Ok(())
    }

    /// Takes a view, makes a plan or finds a route, which is kept.
    fn search(&mut self, alloc: Global, at: usize, act: Act, told: &mut String) -> Done {
        let Some(pass) = self.passes.get_mut(at) else {
            return told.push_str("no pass");
        };
        let memory = PassFault::Refused(Refusal::Memory);
        match act {
            Act::Plan(u, v) => {
                told.push_str("Pass::plan")?;
                let made = pass.plan(alloc, self.service.tariff(), u, v);
                let answer = unless(memory, made)?;
                write!(told, ": {answer:?}")?;
                self.plan = answer.ok();
            }
            Act::Find(u, v) => {
                told.push_str("Pass::find")?;
                let made = pass.find(alloc, self.service.tariff(), u, v);
                let found = unless(memory, made)?.ok();
                let first = found.as_ref().map(|found| found.first());
                write!(told, ": {first:?}")?;
                self.found = found;
            }
            _ => {
                let view = pass.view().ok();
                let number = view.as_ref().map(|view| view.number());
                write!(told, "Pass::view: {number:?}")?;
                if let Act::Keep = act {
                    self.kept = view;
                }
            }
        }
        Ok(())
    }

    /// Makes a call by a pass.
    fn call<R: Wait>(&mut self, rt: &R, at: usize, act: Act, told: &mut String) -> Done {
        let Some(pass) = self.passes.get_mut(at) else {
            return told.push_str("no pass");
        };
        let reply = match (act, &self.plan, &self.found) {
            (Act::Planned(Call::Insert { u, v, kind }), Some(plan), _) => {
                told.push_str("Service::insert_planned")?;
                self.service.insert_planned(rt, pass, u, v, kind, plan)?
            }
            (Act::Found, _, Some(found)) => {
                told.push_str("Service::insert_found")?;
                self.service.insert_found(rt, pass, 0, found)?
            }
            (Act::Make(call), _, _) => {
                write!(told, "Service::{}", method(call))?;
                match call {
                    Call::Grow { u, position, kind } => {
                        self.service.grow(rt, pass, u, position, kind)?
                    }
                    Call::Insert { u, v, kind } => self.service.insert(rt, pass, u, v, kind)?,
                    Call::Delete { edge } => self.service.delete(rt, pass, edge)?,
                }
            }
            _ => return told.push_str("no route"),
        };
        write!(told, ": {reply:?}")
    }
}

impl<F: PriceFn + Drop, K: ServiceBrand<F>, W: VersionWriter<F, K>> Case
    for ServiceCase<'_, F, K, W> {
    type Row = (usize, Act);

    /// The newest version, at which the first pass looks, and the passes.
    fn look(&mut self, alloc: Global) -> Result<String, AllocError> {
        let Some(looker) = self.passes.first_mut() else {
            return Ok(String::new(alloc));
        };
        let Ok(version) = looker.view() else {
            return Err(AllocError);
        };
        let (text, number) = (text_of(alloc, version.picture()), version.number());
        drop(version);
        let mut text = text?;
        write!(text, ", version {number}")?;
        for pass in self.passes.as_slice() {
            write_pass(&mut text, pass)?;
        }
        Ok(text)
    }

    fn make<R: Runtime>(&mut self, rt: &R, row: &(usize, Act), told: &mut String) -> Done {
        let (at, act) = *row;
        match (act, &self.kept) {
            (Act::Begin, _) => self.give_out(told),
            (Act::Kept, Some(kept)) => {
                let text = bookkept(told, text_of(rt.alloc(), kept.picture()))?;
                write!(told, "View::picture of {}: {text}", kept.number())
            }
            (Act::Make(_) | Act::Planned(_) | Act::Found, _) => self.call(rt, at, act, told),
            _ => self.search(rt.alloc(), at, act, told),
        }
    }
}

/// A service that begins with a picture is used and closed, and its book is given.
pub(crate) fn serve<F: PriceFn + Drop + Send + Sync, R: Runtime>(
    rt: &R,
    start: &Picture,
    tariff: &Arc<Tariff<F>>,
    watch: &Watch,
) -> Result<Option<Book<F>>> {
    let before = twice(rt, |alloc| text_of(alloc, start))?;
    let mut told = room(rt)?;
    let book = match begin(rt, start, tariff, watch, &mut told) {
        Ok(book) => book,
        Err(_) => {
            let after = twice(rt, |alloc| text_of(alloc, start))?;
            refused(rt, &mut told, before.as_str(), after.as_str())?;
            begin(rt, start, tariff, watch, &mut told)?
        }
    };
    println!(rt; "{told}")?;
    Ok(book)
}

/// Begins a service, which is then used and closed.
fn begin<F: PriceFn + Drop + Send + Sync, R: Runtime>(
    rt: &R,
    start: &Picture,
    tariff: &Arc<Tariff<F>>,
    watch: &Watch,
    told: &mut String,
) -> Result<Option<Book<F>>, AllocError> {
    told.push_str("Service::new")?;
    let tariff = Arc::try_clone(tariff)?;
    let start = bookkept(told, start.copy(rt.alloc()))?;
    named::<F, Brand, R>(rt, FreshService::new(), start, tariff, watch, told)
}

/// Begins the service that K names in the way of `begin`.
fn named<F: PriceFn + Drop + Send + Sync, K: ServiceBrand<F> + Send + Sync, R: Runtime>(
    rt: &R,
    fresh: FreshService,
    start: Picture,
    tariff: Arc<Tariff<F>>,
    watch: &Watch,
    told: &mut String,
) -> Result<Option<Book<F>>, AllocError>
    requires ledger { (fresh.blank.name ≡ K.name) × (fresh.blank.parts ≡ K.parts) }
    requires parts { K.parts ≡ MAX_PASSES }
    requires list { fresh.log.seen.book ≡ K.book }
    requires start { start ≡ K.start }
    requires prices { K.closure ≡ Some (arc_value tariff) }
{
    match Service::<F, K>::new(rt.alloc(), fresh, start, tariff) {
        Ok(service) => use_and_close(rt, service, watch, told),
        Err(_) => Err(AllocError),
    }
}

/// Passes, by their places, make the calls: an edge that crosses another, a vertex on an edge that
/// cannot be taken out, and an edge for which there is no way to end; a plan, which passes the check
/// once; the edge that is crossed; a list; and a route that is found, which suits the first insertion.
fn use_passes<
    F: PriceFn + Drop + Send + Sync,
    K: ServiceBrand<F> + Send + Sync,
    W: VersionWriter<F, K> + Send,
    R: Runtime,
>(rt: &R, case: &mut ServiceCase<'_, F, K, W>) -> Result<()> {
    let (join, leaf) = (
        insert(3, 4),
        Call::Grow {
            u: 3,
            position: 1,
            kind: 7,
        },
    );
    let first: &[&[(usize, Act)]] = &[
        &[(0, Begin), (1, Begin), (2, Begin), (0, Keep)],
        &[(1, Make(join)), (1, Make(leaf)), (1, Make(delete(10)))],
        &[(1, Make(insert(3, 3))), (2, See), (2, Plan(3, 4))],
        &[(1, Planned(join)), (1, Planned(join)), (1, Make(delete(1)))],
    ];
    judge_all(rt, case, first)?;
    case.judge_list(rt)?;
    let found = &[(2, See), (2, Find(3, 4)), (1, Found), (1, Found), (0, Kept)];
    judge_all(rt, case, &[found])
}

/// Uses a service and closes it, and gives its book. The service and its passes are owned here
/// alone, and nothing returns early while they are.
fn use_and_close<F: PriceFn + Drop + Send + Sync, K: ServiceBrand<F> + Send + Sync, R: Runtime>(
    rt: &R,
    service: Service<F, K>,
    watch: &Watch,
    told: &mut String,
) -> Result<Option<Book<F>>, AllocError> {
    let mut case = ServiceCase {
        service,
        passes: Vec::new(rt.alloc()),
        watch,
        kept: None,
        plan: None,
        found: None,
    };
    let used = use_passes(rt, &mut case);
    let ServiceCase {
        service,
        passes,
        kept,
        plan,
        found,
        watch: _,
    } = case;
    drop(kept);
    drop(plan);
    drop(found);
    let end = service.close(rt, passes);
    write!(told, ": {used:?}")?;
    match end {
        Ok(book) => Ok(Some(book)),
        Err(end) => {
            write!(told, ", {:?}", end.fault)?;
            Ok(None)
        }
    }
}
