//! A route that carries its proof.

ghost use Rattle.std.specs.Prelude.{◌≡◌, ◌≢◌, IfErr, IfOk, IfSome, OnOk, Some, true};
ghost use Rattle.topo_core.specs.History.{versions};
ghost use Rattle.topo_core.specs.Routes.{IsFirst};
ghost use Rattle.topo_price.specs.Prices.{prices_of};
ghost use Rattle.topo_versions.specs.Names.{prices_named};
ghost use Rattle.topo_picture.specs.Ends.{HasVertices};
ghost use Rattle.topo_service.specs.Faults.{IsPlanFault, IsPlanRefusal};
ghost use Rattle.topo_service.specs.Answers.{HasOnlySeen};
ghost use Rattle.topo_service.specs.Found.{IsFoundFor, IsFoundRoute, IsHeldBy};

use crate::faults::PassFault;
use crate::pass::Pass;
use std::alloc::Global;
use std::marker::Model;
use topo_book::Book;
use topo_core::calls::Refusal;
use topo_picture::Picture;
use topo_price::tariff::{PriceFn, Tariff};
use topo_route::plan::{PricedRoute, SeenRoute};
use topo_route::planned::region::Region;
use topo_route::search::first_route_seen;
use topo_route::workspace::Workspace;
use topo_versions::{LogPrefix, ServiceBrand, Version};

/// The first of the cheapest routes between two vertices at the service's prices, as it was found
/// on one version. It holds that version, and remembers what the search has seen of it. So the
/// service takes the route with no search if that version is still the newest, and also if the
/// calls since then have changed nothing that the search has seen.
pub struct FoundRoute<F: PriceFn, K: ServiceBrand<F>> {
    u: u32,
    v: u32,
    first: PricedRoute,
    // What the search has seen, where that is known.
    region: Option<Region>,
    version: Version<F, K>,
}

// Written out, so that it is proved once: a derived one is proved anew in each function that lets
// such a value go.
impl<F: PriceFn, K: ServiceBrand<F>> Drop for FoundRoute<F, K> {
    fn drop(self) {
        let FoundRoute {
            u: _,
            v: _,
            first,
            region,
            version,
        } = self;
        drop(first);
        drop(region);
        drop(version);
    }
}

impl<F: PriceFn, K: ServiceBrand<F>> Model for FoundRoute<F, K> {
    ghost use Rattle.std.specs.Prelude.{IfSome};
    ghost use Rattle.topo_core.specs.Routes.{IsFirst};
    ghost use Rattle.topo_versions.specs.Names.{prices_named};
    ghost use Rattle.topo_service.specs.Found.{FoundState, IsHeldBy};

    ghost Value = { FoundState };

    ghost view = { λ f. record {
      u = f.u;
      v = f.v;
      route = f.first.route;
      price = f.first.price;
      entries = f.version.entries;
    } };

    ghost invariant = { λ f. IsFirst (prices_named F.may_return K.closure)
        f.version.picture.rows f.u f.v f.first.route f.first.price
        × IfSome f.region (IsHeldBy (prices_named F.may_return K.closure)
        f.version.picture.rows f.u f.v f.first.route f.first.price) };
}

impl<F: PriceFn, K: ServiceBrand<F>> FoundRoute<F, K> {
    /// The route and its price.
    pub fn first(&self) -> &PricedRoute
        ensures route { result.now.route ≡ self.now.route }
        ensures price { result.now.price ≡ self.now.price }
        ensures found { IsFoundRoute (prices_named F.may_return K.closure) K.start self.now }
    {
        // For the proof: what the type keeps.
        self.version.picture();
        &self.first
    }

    /// The two vertices that the route joins.
    pub fn ends(&self) -> (u32, u32)
        ensures u { result.0 ≡ self.now.u }
        ensures v { result.1 ≡ self.now.v }
    {
        (self.u, self.v)
    }

    /// Whether it leads between these.
    pub(crate) fn is_between(&self, u: u32, v: u32) -> bool
        ensures u { result ≡ true → self.now.u ≡ u }
        ensures v { result ≡ true → self.now.v ≡ v }
    {
        self.u == u && self.v == v
    }

    /// Whether it was found on the version after these entries.
    pub(crate) fn is_of(&self, prefix: &LogPrefix<F, K>) -> bool
        ensures { result ≡ true → self.now.entries ≡ prefix.now }
    {
        self.version.prefix().same_as(prefix)
    }

    /// Whether it is still the first on the picture of a book with these accepted entries, since
    /// the calls since it was found have changed nothing that its search has seen. No price is
    /// asked.
    pub(crate) fn outlives(&self, book: &Book<F>, prefix: &LogPrefix<F, K>) -> bool
        requires begun { book.now.start ≡ K.start }
        requires named { K.closure ≡ Some book.now.tariff }
        requires entries { prefix.now ≡ versions book.now.history }
        ensures { result ≡ true → IsFirst (prices_of (F.may_return book.now.tariff))
            book.now.picture.rows self.now.u self.now.v self.now.route self.now.price }
    {
        // For the proof: what the type keeps.
        book.history();
        self.version.picture();
        let Some(region) = &self.region else {
            return false;
        };
        let before = self.version.prefix();
        before.is_prefix_of(prefix)
            && book.has_spared(self.version.picture(), region, prefix.len() - before.len())
    }

    /// The search on a version.
    fn on(
        alloc: Global,
        version: Version<F, K>,
        tariff: &Tariff<F>,
        ends: (u32, u32),
        work: &mut Option<Workspace>,
    ) -> Result<FoundRoute<F, K>, Refusal>
        requires named { K.closure ≡ Some tariff.now }
        ensures u { IfOk result (λ f. f.u ≡ ends.0) }
        ensures v { IfOk result (λ f. f.v ≡ ends.1) }
        ensures entries { IfOk result (λ f. f.entries ≡ version.entries) }
        ensures refused { IfErr result
            (IsPlanRefusal (prices_named F.may_return K.closure)
            version.picture.rows ends.0 ends.1) }
    {
        let seen = first_on(alloc, version.picture(), tariff, ends.0, ends.1, work)?;
        Ok(FoundRoute::of(version, ends, seen))
    }

    /// A route that a search has found on a version, with what it has seen.
    pub(crate) fn of(version: Version<F, K>, ends: (u32, u32), seen: SeenRoute) -> FoundRoute<F, K>
        requires first { IsFirst (prices_named F.may_return K.closure)
            version.picture.rows ends.0 ends.1 seen.first.route seen.first.price }
        requires region { IfSome seen.region (IsHeldBy (prices_named F.may_return K.closure)
            version.picture.rows ends.0 ends.1 seen.first.route seen.first.price) }
        ensures u { result.u ≡ ends.0 }
        ensures v { result.v ≡ ends.1 }
        ensures entries { result.entries ≡ version.entries }
    {
        let SeenRoute { first, region } = seen;
        FoundRoute {
            u: ends.0,
            v: ends.1,
            first,
            region,
            version,
        }
    }

    /// The version that it was found on.
    pub(crate) fn into_version(self) -> Version<F, K>
        ensures { result.entries ≡ self.entries }
    {
        let FoundRoute {
            u: _,
            v: _,
            first,
            region,
            version,
        } = self;
        drop(first);
        drop(region);
        version
    }
}

/// The first of the cheapest routes on a picture, or the first reason why there is none. What the
/// search writes on is made where there is none yet, and kept.
#[tactic(auto, using(crate::proofs::Refusals::ends_refused))]
pub(crate) fn first_on<A: PriceFn>(
    alloc: Global,
    picture: &Picture,
    tariff: &Tariff<A>,
    u: u32,
    v: u32,
    work: &mut Option<Workspace>,
) -> Result<SeenRoute, Refusal>
    ensures first { IfOk result (λ r. IsFirst (prices_of (A.may_return tariff.now))
        picture.now.rows u v r.first.route r.first.price) }
    ensures region { IfOk result
        (λ r. IfSome r.region (IsHeldBy (prices_of (A.may_return tariff.now))
        picture.now.rows u v r.first.route r.first.price)) }
    ensures refused { IfErr result
        (IsPlanRefusal (prices_of (A.may_return tariff.now)) picture.now.rows u v) }
    ensures there { OnOk result (HasVertices picture.now.rows u v) }
    ensures apart { OnOk result (u ≢ v) }
{
    picture.admit_ends(u, v)?;
    let mut workspace = match work.take() {
        Some(workspace) => workspace,
        None => match Workspace::new(alloc) {
            Ok(workspace) => workspace,
            Err(_) => return Err(Refusal::Memory),
        },
    };
    let found = first_route_seen(alloc, &picture.embedded(), tariff, u, v, &mut workspace);
    *work = Some(workspace);
    match found {
        Ok(Some(first)) => Ok(first),
        Ok(None) => Err(Refusal::NoRoute),
        Err(_) => Err(Refusal::Memory),
    }
}

impl<F: PriceFn, K: ServiceBrand<F>> Pass<F, K> {
    /// The first of the cheapest routes from `u` to `v` at the service's prices on the version of
    /// now. It copies nothing of the picture, and waits for nobody. NoView comes first, then
    /// NoVertex, then SameEnds, by the picture of that version, then NoRoute; Memory if the search
    /// is out of memory.
    pub fn find(
        &mut self,
        alloc: Global,
        tariff: &Tariff<F>,
        u: u32,
        v: u32,
    ) -> Result<FoundRoute<F, K>, PassFault>
        requires named { K.closure ≡ Some tariff.now }
        ensures only_seen { HasOnlySeen self.old self.new }
        ensures found { IfOk result
            (IsFoundFor (prices_named F.may_return K.closure) K.start self.new.seen u v) }
        ensures fault { IfErr result (IsPlanFault (prices_named F.may_return K.closure)
            (prices_named F.may_return K.closure) K.start self.new.seen u v) }
    {
        let version = self.view()?;
        let found = match FoundRoute::on(alloc, version, tariff, (u, v), &mut self.work) {
            Ok(found) => found,
            Err(why) => return Err(PassFault::Refused(why)),
        };
        // For the proof: what the type keeps.
        found.first();
        Ok(found)
    }
}
