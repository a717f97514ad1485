//! The stored closure with its promise.

use crate::table::PriceTable;
use std::marker::Model;
use topo_core::rows::Facts;

/// What answers a price: each closure `Fn(&Facts) -> Option<u32>` that threads may share does, and
/// each `PriceTable`.
pub trait PriceFn {
    ghost use Rattle.std.specs.Prelude.{◌≡◌, ◌<◌, ℕ, IfSome, Option};
    ghost use Rattle.topo_core.specs.declared.rows.Facts.{Facts};
    ghost use Rattle.topo_core.specs.declared.rows.TheConstants.{KINDS};

    /// It may be asked for any edge.
    ghost is_callable: { Self → Type 0 };

    /// What it may answer.
    ghost may_return: { Self → Facts → Option ℕ → Type 0 };

    /// What it answers for all edges of a kind, where that is known.
    ghost of_kind: { Self → ℕ → Option (Option ℕ) };

    fn price(&self, facts: &Facts) -> Option<u32>
        requires { is_callable self.now }
        ensures { may_return self.now facts.now result };

    /// What it answers for all edges of a kind, where that is known: so a search need not look at
    /// the other facts of an edge.
    fn price_of_kind(&self, kind: u8) -> Option<Option<u32>>
        requires { kind < KINDS }
        ensures known { result ≡ of_kind self.now kind }
        ensures answer { IfSome result
            (λ answer. (facts : Facts) → facts.kind ≡ kind → may_return self.now facts answer) };
}

impl<F: Fn(&Facts) -> Option<u32> + Send + Sync> PriceFn for F {
    ghost use Rattle.std.specs.Fn.{FnReturnsAt};
    ghost use Rattle.std.specs.Prelude.{None};

    ghost is_callable = { λ f. F.IsAlwaysCallable f };

    ghost may_return = { λ f facts answer. FnReturnsAt F.Fn f facts answer };

    ghost of_kind = { λ f kind. None };

    fn price(&self, facts: &Facts) -> Option<u32> {
        self(facts)
    }

    fn price_of_kind(&self, _kind: u8) -> Option<Option<u32>> {
        None
    }
}

impl PriceFn for PriceTable {
    ghost use Rattle.std.specs.Prelude.{⊤, slice_get};
    ghost use Rattle.topo_price.specs.Prices.{table_answers};

    ghost is_callable = { λ table. ⊤ };

    ghost may_return = { λ table. table_answers table };

    ghost of_kind = { λ table kind. slice_get table kind };

    fn price(&self, facts: &Facts) -> Option<u32> {
        PriceTable::price(self, facts.kind)
    }

    fn price_of_kind(&self, kind: u8) -> Option<Option<u32>> {
        Some(PriceTable::price(self, kind))
    }
}

/// The stored closure. Contracts see the closure, and its promise always holds.
#[derive(Drop)]
pub struct Tariff<F: PriceFn> {
    ask: F,
}

impl<F: PriceFn> Model for Tariff<F> {
    ghost use Rattle.topo_price.specs.Prices.{IsPromise};

    ghost Value = { F };

    ghost view = { λ t. t.ask };

    ghost invariant = { λ t. F.is_callable t.ask × IsPromise (F.may_return t.ask) };
}

impl<F: PriceFn> Tariff<F> {
    ghost use Rattle.std.specs.Prelude.{◌≡◌, ◌<◌, ◌≤◌, ℕ, IfSome, is_some};
    ghost use Rattle.topo_core.specs.declared.rows.Facts.{Facts};
    ghost use Rattle.topo_core.specs.declared.rows.TheConstants.{KINDS};
    ghost use Rattle.topo_core.specs.Routes.{KeepsPromise};
    ghost use Rattle.topo_price.specs.Prices.{IsPriceOf, IsPromise, floor_of, prices_of};

    /// Stores the closure. The promise is the caller's: it may be asked for any edge, answers none
    /// or from 1 to `MAX_PRICE`, and answers the same for the same facts.
    pub fn new(ask: F) -> Tariff<F>
        requires callable { F.is_callable ask }
        requires promise { IsPromise (F.may_return ask) }
        ensures { result ≡ ask }
    {
        Tariff { ask }
    }

    /// Whether it knows its prices by the kind of an edge alone, as those of a table are.
    pub fn is_by_kind(&self) -> bool
        ensures { result ≡ is_some (F.of_kind self.now 0) }
    {
        self.ask.price_of_kind(0).is_some()
    }

    /// The price of all edges of a kind, where it is known by the kind alone: none where they must
    /// not be crossed.
    pub fn price_of_kind(&self, kind: u8) -> Option<Option<u32>>
        requires { kind < KINDS }
        ensures known { result ≡ F.of_kind self.now kind }
        ensures price { IfSome result (λ answer. (facts : Facts) → facts.kind ≡ kind
            → IsPriceOf (prices_of (F.may_return self.now)) facts answer) }
        ensures promise { KeepsPromise (prices_of (F.may_return self.now)) }
    {
        self.ask.price_of_kind(kind)
    }

    /// A number that no price of this kind is below: its price where that is known, at most the
    /// greatest of sixteen bits, which is also that of a kind that must not be crossed; else 1.
    pub fn floor(&self, kind: u8) -> u16
        requires { kind < KINDS }
        ensures known { result ≡ floor_of (F.of_kind self.now kind) }
        ensures below { (facts : Facts) (n : ℕ) → facts.kind ≡ kind
            → prices_of (F.may_return self.now) facts n → result ≤ n }
    {
        match self.ask.price_of_kind(kind) {
            Some(Some(price)) => price.min(u16::MAX as u32) as u16,
            Some(None) => u16::MAX,
            None => 1,
        }
    }

    /// The price of an edge with these facts; none where it must not be crossed.
    pub fn price(&self, facts: &Facts) -> Option<u32>
        ensures answer { F.may_return self.now facts.now result }
        ensures price { IsPriceOf (prices_of (F.may_return self.now)) facts.now result }
        ensures promise { KeepsPromise (prices_of (F.may_return self.now)) }
    {
        self.ask.price(facts)
    }

    /// The promise holds of every tariff. This asks nothing: its contract is the fact.
    pub fn keeps_promise(&self)
        ensures { KeepsPromise (prices_of (F.may_return self.now)) }
    {
        let _ = &self.ask;
    }
}
