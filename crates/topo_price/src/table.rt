//! A price for each kind of edge.

ghost use Rattle.std.specs.Prelude.{◌≡◌, ◌<◌, ◌≤◌, Some, None, Err, IfSome};
ghost use Rattle.std.specs.Prelude.{IsSomeAnd, MatchResult, slice_get, length};
ghost use Rattle.topo_price.specs.Prices.{IsPromise, first_bad, is_good, table_answers};
ghost use Rattle.topo_core.specs.declared.rows.TheConstants.{KINDS, MAX_PRICE};

use std::fmt;
use std::marker::Model;
use thiserror::Error;
use topo_core::rows::{KINDS, MAX_PRICE};
use topo_faults::Fault;

/// Why there is no table: the fault of the same name. It is printed as that and its kind.
#[derive(Clone, Copy, Debug, Drop, PartialEq, Eq, Error)]
pub enum PriceFault {
    /// The kind is the least whose price is 0 or above `MAX_PRICE`.
    BadPrice(u8),
}

impl PriceFault {
    /// The fault that it is.
    pub fn fault(&self) -> Fault
        ensures { result ≡ Fault.BadPrice }
    {
        match self {
            PriceFault::BadPrice(_) => Fault::BadPrice,
        }
    }
}

impl fmt::Display for PriceFault {
    ghost use Rattle.topo_price.specs.FaultTexts.{fault_text};

    ghost output = { λ fault. Some (fault_text fault) };

    fn fmt<W: fmt::Write>(&self, f: &mut fmt::Formatter<W>) -> fmt::Result {
        let fault = self.fault();
        match self {
            PriceFault::BadPrice(kind) => write!(f, "{fault} {kind}"),
        }
    }
}

/// Whether a table may have this entry.
fn is_good_price(entry: Option<u32>) -> bool
    ensures { result ≡ is_good entry }
{
    match entry {
        Some(n) => 1 <= n && n <= MAX_PRICE,
        None => true,
    }
}

/// The least kind with an entry that no table may have.
fn first_bad_kind(prices: &[Option<u32>]) -> Option<usize>
    ensures { result ≡ first_bad prices.now }
{
    prices.iter().position(|entry| !is_good_price(*entry))
}

/// A price from 1 to `MAX_PRICE` for each kind, or none.
#[derive(Drop)]
pub struct PriceTable {
    prices: [Option<u32>; KINDS],
}

impl Model for PriceTable {
    ghost use Rattle.std.specs.Prelude.{◌≡◌, ℕ, List, Option, length, None};
    ghost use Rattle.topo_core.specs.declared.rows.TheConstants.{KINDS};
    ghost use Rattle.topo_price.specs.Prices.{first_bad};

    ghost Value = { List (Option ℕ) };

    ghost view = { λ t. t.prices };

    ghost invariant = { λ t. (length t.prices ≡ KINDS) × (first_bad t.prices ≡ None) };
}

impl PriceTable {
    /// The table with these entries, by kind; else the least kind whose entry is no price.
    pub fn new(prices: [Option<u32>; KINDS]) -> Result<Self, PriceFault>
        ensures { MatchResult result (λ t. (t ≡ prices) × (first_bad prices ≡ None))
            (λ e. IsSomeAnd (first_bad prices) (λ kind. e ≡ PriceFault.BadPrice kind)) }
    {
        match first_bad_kind(&prices) {
            Some(kind) => Err(PriceFault::BadPrice(kind as u8)),
            None => Ok(PriceTable { prices }),
        }
    }

    /// The price of a kind.
    pub fn price(&self, kind: u8) -> Option<u32>
        requires { kind < KINDS }
        ensures entry { slice_get self.now kind ≡ Some result }
        ensures in_range { IfSome result (λ n. (1 ≤ n) × (n ≤ MAX_PRICE)) }
    {
        self.prices[kind as usize]
    }

    /// A table keeps the promise that a tariff wants. This does nothing: its contract is the fact.
    pub fn laws(&self)
        ensures { IsPromise (table_answers self.now) }
    {
        let _prices = &self.prices;
    }
}
