//! The locked service.

ghost use Rattle.std.specs.Prelude.{◌≡◌, ◌+◌, ◌<◌, ◌≤◌};
ghost use Rattle.std.specs.Prelude.{true, false, IfOk, OnErr, Some, is_some};
ghost use Rattle.topo_core.specs.History.{IsPrefix};
ghost use Rattle.topo_core.specs.declared.calls.Call.TheVariants.{Grow, Insert, Delete};
ghost use Rattle.topo_versions.specs.Names.{prices_named};
ghost use Rattle.topo_versions.specs.Versions.{AreLegal};
ghost use Rattle.topo_service.specs.Answers.{AnswersCall, HasOnlySeen, HasReceiptOf, IsAnswered};
ghost use Rattle.topo_service.specs.Passes.{Begins};
ghost use Rattle.topo_core.specs.declared.limits.TheConstants.{MAX_PASSES};

use crate::faults::ServiceFault;
use crate::locked_state::{Demand, LockedState};
use crate::pass::{Pass, Receipt};
use crate::planned::copies::Copies;
use crate::planned::found::FoundRoute;
use crate::planned::inbox::Inbox;
use crate::planned::lookahead::Lookahead;
use crate::reply_pair::ReplyPair;
use crate::share_pool::SharePool;
use std::alloc::{AllocError, Global};
use std::marker::{Model, PhantomData};
use std::sync::{Arc, Mutex, Wait};
use topo_book::RouteSource;
use topo_core::calls::{Call, Reply};
use topo_price::tariff::{PriceFn, Tariff};
use topo_route::plan::Plan;
use topo_versions::{LogPrefix, ServiceBrand, VersionWriter, wait_forever};

/// A service: one lock round a book, with the passes that were given out. Contracts see what
/// answers its prices, how many passes it gives out at most, and how many it has given out.
pub struct ServiceOver<F: PriceFn, K: ServiceBrand<F>, W: VersionWriter<F, K>> {
    pub(crate) alloc: Global,
    pub(crate) tariff: Arc<Tariff<F>>,
    pub(crate) state: Mutex<LockedState<F, K, W>>,
    // Out of the reach of calls, which have a shared reference to the service.
    pub(crate) pool: SharePool<K>,
    // What a new pass has seen.
    pub(crate) nothing: LogPrefix<F, K>,
    pub(crate) places: u32,
    // How many passes have a picture of their own.
    pub(crate) copies: Copies,
}

impl<F: PriceFn, K: ServiceBrand<F>, W: VersionWriter<F, K>> Model for ServiceOver<F, K, W> {
    ghost use Rattle.std.specs.Prelude.{◌≡◌, ◌≤◌, [], Some};
    ghost use Rattle.std.specs.Arc.{arc_value};
    ghost use Rattle.topo_service.specs.Passes.{ServiceState};
    ghost use Rattle.topo_core.specs.declared.limits.TheConstants.{MAX_PASSES};

    ghost Value = { ServiceState F };

    ghost view = { λ s. record {
      tariff = arc_value s.tariff;
      places = s.places;
      given = s.pool;
    } };

    ghost invariant = { λ s. (K.closure ≡ Some (arc_value s.tariff)) × (K.parts ≡ MAX_PASSES)
        × (s.places ≤ MAX_PASSES) × (s.nothing ≡ []) };
}

impl<F: PriceFn, K: ServiceBrand<F>, W: VersionWriter<F, K>> ServiceOver<F, K, W> {
    /// The prices. It takes no lock.
    pub fn tariff(&self) -> &Tariff<F>
        ensures tariff { result.now ≡ self.now.tariff }
        ensures named { K.closure ≡ Some self.now.tariff }
    {
        &self.tariff
    }

    /// The next pass, with no receipt. NoSeat is answered where as many were given out as there may
    /// be, or the version store has no place for a reader. It waits for nobody.
    pub fn pass(&mut self) -> Result<Pass<F, K>, ServiceFault>
        ensures begins { IfOk result (Begins self.old.given) }
        ensures given { IfOk result
            (λ p. (self.old.given < self.old.places) × (self.new.given ≡ self.old.given + 1)) }
        ensures refused { OnErr result (self.new.given ≡ self.old.given) }
        ensures at_most { self.old.places ≤ MAX_PASSES }
        ensures same { (self.new.tariff ≡ self.old.tariff) × (self.new.places ≡ self.old.places) }
    {
        if self.pool.given() >= self.places {
            return Err(ServiceFault::NoSeat);
        }
        let Ok(reader) = self.state.get_mut().reader() else {
            return Err(ServiceFault::NoSeat);
        };
        let Some((number, share)) = self.pool.take() else {
            return Err(ServiceFault::NoSeat);
        };
        Ok(Pass {
            number,
            receipts: Vec::new(self.alloc),
            share,
            reader,
            prefix: self.nothing.share(),
            work: None,
            own: None,
            may_copy: false,
            inbox: Inbox::new(self.alloc, &self.nothing),
            lookahead: Lookahead::new(),
            of: PhantomData,
        })
    }

    /// Inserts an edge of this kind from `u` to `v` along the first of the cheapest routes, or
    /// answers the first reason why not, under the lock. The pass gains a receipt, and has then
    /// seen the version of its call. Out of memory may stand in place of any answer; nothing was
    /// published then, and the pass is as it was.
    pub fn insert<R: Wait>(
        &self,
        rt: &R,
        pass: &mut Pass<F, K>,
        u: u32,
        v: u32,
        kind: u32,
    ) -> Result<Reply, AllocError>
        ensures { AnswersCall (prices_named F.may_return K.closure) K.start
            pass.old pass.new (Insert u v kind) result }
    {
        self.call(rt, pass, Call::Insert { u, v, kind }, RouteSource::Search)
    }

    /// As `insert`, whatever the plan: its route is taken where the plan passes the check on the
    /// picture of now, which spares the search, and else the route is looked for.
    pub fn insert_planned<R: Wait>(
        &self,
        rt: &R,
        pass: &mut Pass<F, K>,
        u: u32,
        v: u32,
        kind: u32,
        plan: &Plan,
    ) -> Result<Reply, AllocError>
        ensures { AnswersCall (prices_named F.may_return K.closure) K.start
            pass.old pass.new (Insert u v kind) result }
    {
        let planned = RouteSource::Plan(plan);
        self.call(rt, pass, Call::Insert { u, v, kind }, planned)
    }

    /// As `insert` between the ends of a route that was found. The route is taken as it is if the
    /// entries since then are looked through and changed nothing that its search has seen; else
    /// the route is looked for.
    pub fn insert_found<R: Wait>(
        &self,
        rt: &R,
        pass: &mut Pass<F, K>,
        kind: u32,
        found: &FoundRoute<F, K>,
    ) -> Result<Reply, AllocError>
        ensures { AnswersCall (prices_named F.may_return K.closure) K.start
            pass.old pass.new (Insert found.now.u found.now.v kind) result }
    {
        let (u, v) = found.ends();
        let source = RouteSource::Found(found);
        self.call(rt, pass, Call::Insert { u, v, kind }, source)
    }

    /// Takes an edge out, or answers why not; in all else as `insert`.
    pub fn delete<R: Wait>(
        &self,
        rt: &R,
        pass: &mut Pass<F, K>,
        edge: u32,
    ) -> Result<Reply, AllocError>
        ensures { AnswersCall (prices_named F.may_return K.closure) K.start
            pass.old pass.new (Delete edge) result }
    {
        self.call(rt, pass, Call::Delete { edge }, RouteSource::Search)
    }

    /// Puts a new vertex on a new edge of this kind into the corner at `position` of `u`, or
    /// answers the first reason why not; in all else as `insert`.
    pub fn grow<R: Wait>(
        &self,
        rt: &R,
        pass: &mut Pass<F, K>,
        u: u32,
        position: u32,
        kind: u32,
    ) -> Result<Reply, AllocError>
        ensures { AnswersCall (prices_named F.may_return K.closure) K.start
            pass.old pass.new (Grow u position kind) result }
    {
        let growth = Call::Grow { u, position, kind };
        self.call(rt, pass, growth, RouteSource::Search)
    }

    /// Makes one call under the lock, and gives its reply.
    pub(crate) fn call<'a, R: Wait>(
        &'a self,
        rt: &R,
        pass: &mut Pass<F, K>,
        call: Call,
        source: RouteSource<'a, FoundRoute<F, K>>,
    ) -> Result<Reply, AllocError>
        ensures { AnswersCall (prices_named F.may_return K.closure) K.start
            pass.old pass.new call result }
    {
        let demand = Demand {
            call,
            source,
            is_asked: true,
        };
        match self.enter(rt, pass, demand)? {
            Some(reply) => Ok(reply),
            None => unreachable!(),
        }
    }

    /// Makes one call under the lock, of which the pass keeps the receipt. The reply is copied once
    /// more only if it is asked for.
    pub(crate) fn enter<'a, R: Wait>(
        &'a self,
        rt: &R,
        pass: &mut Pass<F, K>,
        demand: Demand<'a, F, K>,
    ) -> Result<Option<Reply>, AllocError>
        ensures number { pass.new.number ≡ pass.old.number }
        ensures asked { IfOk result (λ reply. is_some reply ≡ demand.entry.is_asked) }
        ensures answered { IfOk result (IsAnswered (prices_named F.may_return K.closure)
            K.start pass.old pass.new demand.entry.call) }
        ensures later { IsPrefix pass.old.seen pass.new.seen }
        ensures legal { AreLegal (prices_named F.may_return K.closure) K.start pass.new.seen }
        ensures unchanged { OnErr result (pass.new ≡ pass.old) }
    {
        let mut guard = self.state.lock(rt);
        enter_in(rt, self.alloc, &mut *guard, pass, demand)
    }

    /// As `enter` of an insertion, if the route that was found for it still stands. Else nothing is
    /// entered, and the pass has seen what it had missed.
    pub(crate) fn enter_standing<R: Wait>(
        &self,
        rt: &R,
        pass: &mut Pass<F, K>,
        kind: u32,
        found: &FoundRoute<F, K>,
    ) -> Result<bool, AllocError>
        ensures number { pass.new.number ≡ pass.old.number }
        ensures receipt { IfOk result (λ entered. entered ≡ true
            → HasReceiptOf (prices_named F.may_return K.closure)
            K.start pass.old pass.new (Insert found.now.u found.now.v kind)) }
        ensures late { IfOk result
            (λ entered. entered ≡ false → pass.new.receipts ≡ pass.old.receipts) }
        ensures later { IsPrefix pass.old.seen pass.new.seen }
        ensures unchanged { OnErr result (pass.new ≡ pass.old) }
    {
        let (u, v) = found.ends();
        let mut guard = self.state.lock(rt);
        if !guard.stands(found, u, v) {
            pass.lookahead.note(true, false);
            catch_up(rt, self.alloc, &*guard, pass);
            return Ok(false);
        }
        let demand = Demand {
            call: Call::Insert { u, v, kind },
            source: RouteSource::Found(found),
            is_asked: false,
        };
        enter_in(rt, self.alloc, &mut *guard, pass, demand)?;
        Ok(true)
    }
}

/// The pass sees what it has missed.
fn catch_up<F, K, W, R>(rt: &R, alloc: Global, state: &LockedState<F, K, W>, pass: &mut Pass<F, K>)
where
    F: PriceFn,
    K: ServiceBrand<F>,
    W: VersionWriter<F, K>,
    R: Wait,
    ensures { HasOnlySeen pass.old pass.new }
{
    let all = state.prefix();
    if !pass.prefix.is_prefix_of(all) {
        wait_forever(rt);
    }
    pass.prefix = all.share();
    pass.inbox.learn(alloc, state.history(), &pass.prefix);
}

/// Makes one call on what lies under the lock, of which the pass keeps the receipt. Its place is
/// taken first.
fn enter_in<'a, F, K, W, R>(
    rt: &R,
    alloc: Global,
    state: &mut LockedState<F, K, W>,
    pass: &mut Pass<F, K>,
    demand: Demand<'a, F, K>,
) -> Result<Option<Reply>, AllocError>
where
    F: PriceFn,
    K: ServiceBrand<F>,
    W: VersionWriter<F, K>,
    R: Wait,
    ensures number { pass.new.number ≡ pass.old.number }
    ensures asked { IfOk result (λ reply. is_some reply ≡ demand.entry.is_asked) }
    ensures answered { IfOk result (IsAnswered (prices_named F.may_return K.closure)
        K.start pass.old pass.new demand.entry.call) }
    ensures later { IsPrefix pass.old.seen pass.new.seen }
    ensures legal { AreLegal (prices_named F.may_return K.closure) K.start pass.new.seen }
    ensures unchanged { OnErr result (pass.new ≡ pass.old) }
{
    // For the proof: what the type keeps.
    pass.seen();
    pass.receipts.reserve(1)?;
    let call = demand.call;
    let is_found = matches!(demand.source, RouteSource::Found(_));
    if !pass.prefix.is_prefix_of(state.prefix()) {
        wait_forever(rt);
    }
    let made = state.call(rt, alloc, &mut pass.share, pass.number, demand);
    let ReplyPair { receipt, answer } = made?;
    pass.lookahead.note(is_found, state.was_known());
    pass.receipts.push_reserved(Receipt {
        call,
        reply: receipt,
    });
    pass.prefix = state.prefix().share();
    pass.inbox.learn(alloc, state.history(), &pass.prefix);
    Ok(answer)
}
