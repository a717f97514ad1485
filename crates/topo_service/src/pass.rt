//! What one caller has.

ghost use Rattle.std.specs.Prelude.{◌≡◌, ◌≢◌, length, IfOk, IfErr};
ghost use Rattle.topo_picture.specs.Ends.{HasVertices};
ghost use Rattle.topo_price.specs.Prices.{prices_of};
ghost use Rattle.topo_route.specs.Plans.{IsPlan};
ghost use Rattle.topo_rows.specs.Shown.{Shown};
ghost use Rattle.topo_versions.specs.Names.{prices_named};
ghost use Rattle.topo_versions.specs.Versions.{AreLegal, IsVersionFrom};
ghost use Rattle.topo_service.specs.Answers.{HasOnlySeen};
ghost use Rattle.topo_service.specs.Faults.{IsPlanFault, IsPlanRefusal};

use crate::faults::PassFault;
use crate::planned::copies::Copies;
use crate::planned::inbox::Inbox;
use crate::planned::lookahead::Lookahead;
use std::alloc::Global;
use std::marker::{Model, PhantomData};
use std::sync::ledger::Share;
use topo_core::calls::{Call, Refusal, Reply};
use topo_dual::Frozen;
use topo_picture::Picture;
use topo_price::tariff::{PriceFn, Tariff};
use topo_route::plan::Plan;
use topo_route::search::search;
use topo_route::workspace::Workspace;
use topo_versions::{LogPrefix, ServiceBrand, Version, VersionReader};

/// A call of a pass, and what it was answered.
#[derive(Drop)]
pub struct Receipt {
    pub call: Call,
    pub reply: Reply,
}

/// A caller's number, its receipts, its share of the ledger, its reader of versions and the
/// accepted entries that it has seen. Contracts see its number, its receipts and these entries.
pub struct Pass<F: PriceFn, K: ServiceBrand<F>> {
    pub(crate) number: u32,
    pub(crate) receipts: Vec<Receipt>,
    pub(crate) share: Share<K>,
    pub(crate) reader: VersionReader<F, K>,
    // The accepted entries that it has seen.
    pub(crate) prefix: LogPrefix<F, K>,
    // What its searches write on, once there was one.
    pub(crate) work: Option<Workspace>,
    // A version of its own, on which its planned commands look for their routes, once there was
    // one.
    pub(crate) own: Option<Version<F, K>>,
    // Whether it may have such a version: it is counted among those that do.
    pub(crate) may_copy: bool,
    // What was accepted since that version.
    pub(crate) inbox: Inbox<F, K>,
    // Whether its planned insertions look for their routes ahead.
    pub(crate) lookahead: Lookahead,
    pub(crate) of: PhantomData<F>,
}

/// A view: a version, with the picture that its accepted entries lead to.
pub type View<F, K> = Version<F, K>;

// Written out, so that it is proved once: a derived one is proved anew in each function that lets
// such a value go.
impl<F: PriceFn, K: ServiceBrand<F>> Drop for Pass<F, K> {
    fn drop(self) {
        let (prefix, share) = self.into_parts();
        drop(prefix);
        drop(share);
    }
}

impl<F: PriceFn, K: ServiceBrand<F>> Model for Pass<F, K> {
    ghost use Rattle.std.specs.Prelude.{◌≡◌, length};
    ghost use Rattle.topo_service.specs.Passes.{PassState};

    ghost Value = { PassState };

    ghost view = { λ p. record {
      number = p.number;
      receipts = p.receipts.items;
      seen = p.prefix;
    } };

    ghost invariant = { λ p. (p.share.parts ≡ 1) × (p.share.amount ≡ length p.receipts.items) };
}

/// The first cheapest route on a frozen picture, or why there is none.
fn plan_in<A: PriceFn>(
    alloc: Global,
    frozen: &Frozen,
    tariff: &Tariff<A>,
    u: u32,
    v: u32,
) -> Result<Plan, Refusal>
    requires there { HasVertices frozen.now.rows u v }
    requires apart { u ≢ v }
    ensures planned { IfOk result
        (IsPlan (prices_of (A.may_return tariff.now)) frozen.now.rows u v) }
    ensures refused { IfErr result
        (IsPlanRefusal (prices_of (A.may_return tariff.now)) frozen.now.rows u v) }
{
    match search(alloc, frozen, tariff, u, v) {
        Ok(Some(plan)) => Ok(plan),
        Ok(None) => Err(Refusal::NoRoute),
        Err(_) => Err(Refusal::Memory),
    }
}

/// The first cheapest route on a picture, or the first reason why there is no plan.
#[tactic(auto, using(crate::proofs::Refusals::ends_refused))]
fn plan_on<A: PriceFn>(
    alloc: Global,
    picture: &Picture,
    tariff: &Tariff<A>,
    u: u32,
    v: u32,
) -> Result<Plan, Refusal>
    ensures planned { IfOk result
        (IsPlan (prices_of (A.may_return tariff.now)) picture.now.rows u v) }
    ensures refused { IfErr result
        (IsPlanRefusal (prices_of (A.may_return tariff.now)) picture.now.rows u v) }
{
    picture.admit_ends(u, v)?;
    match picture.freeze(alloc) {
        Ok(frozen) => plan_in(alloc, &frozen, tariff, u, v),
        Err(_) => Err(Refusal::Memory),
    }
}

impl<F: PriceFn, K: ServiceBrand<F>> Pass<F, K> {
    /// Its number: the caller in the entries of its calls.
    pub fn number(&self) -> u32
        ensures { result ≡ self.now.number }
    {
        self.number
    }

    /// Its calls that were answered otherwise than by out of memory, with the replies, the oldest
    /// first.
    pub fn receipts(&self) -> &[Receipt]
        ensures { result.now ≡ self.now.receipts }
    {
        self.receipts.as_slice()
    }

    /// How many accepted entries it has seen: they lead by steps from the start to some picture.
    pub fn seen(&self) -> u64
        ensures count { result ≡ length self.now.seen }
        ensures legal { AreLegal (prices_named F.may_return K.closure) K.start self.now.seen }
    {
        self.prefix.len()
    }

    /// The accepted entries that it has seen, and its share of the ledger. The pass ends.
    pub(crate) fn into_parts(self) -> (LogPrefix<F, K>, Share<K>)
        ensures seen { result.0 ≡ self.seen }
        ensures parts { result.1.parts ≡ 1 }
        ensures amount { result.1.amount ≡ length self.receipts }
    {
        let Pass {
            number: _,
            receipts: _receipts,
            share,
            reader: _reader,
            prefix,
            work: _work,
            own: _own,
            may_copy: _,
            inbox: _inbox,
            lookahead: _,
            of: _,
        } = self;
        (prefix, share)
    }

    /// Whether its next planned insertion looks for its route ahead.
    pub(crate) fn looks_ahead(&mut self) -> bool
        ensures { self.new ≡ self.old }
    {
        self.lookahead.is_due()
    }

    /// Whether it may have a version of its own: it may from the first time that one more may.
    pub(crate) fn takes_copy(&mut self, copies: &Copies) -> bool
        ensures { self.new ≡ self.old }
    {
        if !self.may_copy {
            self.may_copy = copies.take();
        }
        self.may_copy
    }

    /// Lets its own version go, so that another pass may have one.
    pub(crate) fn give_copy_back(&mut self, copies: &Copies)
        ensures { self.new ≡ self.old }
    {
        drop(self.own.take());
        if self.may_copy {
            self.may_copy = false;
            copies.give_back();
        }
    }

    /// The version of now: the picture after accepted entries that begin with all that the pass has
    /// seen, and that it has seen from then on. It takes no memory and waits for nobody. NoView is
    /// answered where the service has ended or no further share of the version is left.
    pub fn view(&mut self) -> Result<View<F, K>, PassFault>
        ensures only_seen { HasOnlySeen self.old self.new }
        ensures seen { IfOk result (λ v. v.entries ≡ self.new.seen) }
        ensures version { IfOk result
            (λ v. IsVersionFrom (prices_named F.may_return K.closure) K.start v.entries v.picture) }
        ensures fault { IfErr result (λ e. e ≡ PassFault.NoView) }
    {
        let Some(version) = self.reader.current() else {
            return Err(PassFault::NoView);
        };
        if !self.prefix.is_prefix_of(version.prefix()) {
            return Err(PassFault::NoView);
        }
        self.prefix = version.prefix().share();
        // For the proof: what the type keeps.
        version.picture();
        Ok(version)
    }

    /// The pass's own version, brought up to what its last call has seen; none where there is none,
    /// or that cannot be done.
    fn take_up_to_date(&mut self, alloc: Global, tariff: &Tariff<F>) -> Option<Version<F, K>>
        requires named { K.closure ≡ Some tariff.now }
        ensures same { self.new ≡ self.old }
    {
        let version = self.own.take()?;
        let own = self.inbox.bring_up_to_date(alloc, tariff, version)?;
        self.inbox.restart(own.prefix());
        Some(own)
    }

    /// A version of the pass's own, whose picture nobody else holds: the one that it had, brought
    /// up to what its last call has seen, and else a copy of the version of now.
    #[tactic(auto, using(crate::proofs::Missed::begins_itself))]
    pub(crate) fn take_own(
        &mut self,
        alloc: Global,
        tariff: &Tariff<F>,
    ) -> Result<Version<F, K>, PassFault>
        requires named { K.closure ≡ Some tariff.now }
        ensures only_seen { HasOnlySeen self.old self.new }
    {
        if let Some(own) = self.take_up_to_date(alloc, tariff) {
            return Ok(own);
        }
        let Ok(own) = self.view()?.copy(alloc) else {
            return Err(PassFault::Refused(Refusal::Memory));
        };
        self.inbox.restart(own.prefix());
        Ok(own)
    }

    /// The first cheapest route from `u` to `v` at these prices on the version of now, with its
    /// price and the least heights. It waits for nobody. NoView comes first, then NoVertex, then
    /// SameEnds, by the picture of that version, then NoRoute; Memory if the search is out of
    /// memory.
    pub fn plan<A: PriceFn>(
        &mut self,
        alloc: Global,
        tariff: &Tariff<A>,
        u: u32,
        v: u32,
    ) -> Result<Plan, PassFault>
        ensures only_seen { HasOnlySeen self.old self.new }
        ensures planned { IfOk result (λ plan. (picture : Shown)
            × IsVersionFrom (prices_named F.may_return K.closure) K.start self.new.seen picture
            × IsPlan (prices_of (A.may_return tariff.now)) picture.rows u v plan) }
        ensures fault { IfErr result (IsPlanFault (prices_named F.may_return K.closure)
            (prices_of (A.may_return tariff.now)) K.start self.new.seen u v) }
    {
        let version = self.view()?;
        match plan_on(alloc, version.picture(), tariff, u, v) {
            Ok(plan) => Ok(plan),
            Err(why) => Err(PassFault::Refused(why)),
        }
    }
}
