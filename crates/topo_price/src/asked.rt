//! A list of answers, each asked for once.

ghost use Rattle.std.specs.Prelude.{◌≡◌, ◌<◌, [], OnErr, OnOk, Some, length, slice_get};
ghost use Rattle.topo_price.specs.Prices.{IsAsked};

use crate::tariff::{PriceFn, Tariff};
use std::alloc::{AllocError, Global};
use std::marker::Model;
use topo_core::rows::Facts;

/// The answers to all that was asked, in the order in which it was asked. A tariff that keeps its
/// promise would give the same answers again, so who keeps them asks for each edge once.
#[derive(Drop)]
pub struct Asked {
    answers: Vec<Option<u32>>,
}

impl Model for Asked {
    ghost use Rattle.std.specs.Prelude.{ℕ, List, Option};

    ghost Value = { List (Option ℕ) };

    ghost view = { λ a. a.answers.items };
}

impl Asked {
    /// Nothing was asked. It takes no memory.
    pub fn new(alloc: Global) -> Asked
        ensures { result ≡ [] }
    {
        Asked {
            answers: Vec::new(alloc),
        }
    }

    /// Asks a tariff for the price of an edge with these facts, and adds the answer at the end; out
    /// of memory, nothing was added.
    pub fn ask<F: PriceFn>(&mut self, tariff: &Tariff<F>, facts: &Facts) -> Result<(), AllocError>
        ensures asked { OnOk result (IsAsked (F.may_return tariff.now) facts.now self.old self.new) }
        ensures unchanged { OnErr result (self.new ≡ self.old) }
    {
        self.answers.reserve(1)?;
        let answer = tariff.price(facts);
        self.answers.push_reserved(answer);
        Ok(())
    }

    /// How many were asked for.
    pub fn count(&self) -> usize
        ensures { result ≡ length self.now }
    {
        self.answers.len()
    }

    /// The answer for the edge that was asked for in this place, counted from 0: its price, and none
    /// where it must not be crossed.
    pub fn price(&self, place: usize) -> Option<u32>
        requires { place < length self.now }
        ensures { slice_get self.now place ≡ Some result }
    {
        self.answers[place]
    }
}
