//! Plans: a route with its price and the heights that certify it.

use crate::planned::region::Region;
use std::fmt;
use thiserror::Error;
use topo_core::listed::Listed;
use topo_core::routes::Route;
use topo_faults::Fault;

/// A route and its price: the sum of the prices of the edges that it crosses.
#[derive(Drop, Debug)]
pub struct PricedRoute {
    pub route: Route,
    pub price: u64,
}

/// A route, and the region that it rests on: while a picture keeps that, the route is its first
/// too. None where nothing is known of it.
#[derive(Drop)]
pub struct SeenRoute {
    pub first: PricedRoute,
    pub region: Option<Region>,
}

/// A route, its price, and for each dart in canonical order its height: the least price from its
/// face to a face at the target, the greatest number where no route leads there.
#[derive(Drop, Debug)]
pub struct Plan {
    pub route: Route,
    pub price: u64,
    pub heights: Listed<u64>,
}

/// The first test that a plan fails: the fault of the same name.
#[derive(Clone, Copy, Debug, Drop, PartialEq, Eq, Error)]
pub enum PlanFault {
    WrongLength,
    UnevenFace,
    TooSteep,
    TargetNotZero,
    NotARoute,
    NotLeast,
    NotFirst,
}

impl PlanFault {
    ghost use Rattle.std.specs.Prelude.{◌≡◌};
    ghost use Rattle.topo_route.specs.FaultTexts.{fault_of};

    /// The fault that it is.
    pub fn fault(&self) -> Fault
        ensures { result ≡ fault_of self.now }
    {
        match self {
            PlanFault::WrongLength => Fault::WrongLength,
            PlanFault::UnevenFace => Fault::UnevenFace,
            PlanFault::TooSteep => Fault::TooSteep,
            PlanFault::TargetNotZero => Fault::TargetNotZero,
            PlanFault::NotARoute => Fault::NotARoute,
            PlanFault::NotLeast => Fault::NotLeast,
            PlanFault::NotFirst => Fault::NotFirst,
        }
    }
}

impl fmt::Display for PlanFault {
    ghost use Rattle.std.specs.Prelude.{Some};
    ghost use Rattle.topo_faults.specs.Faults.{told};
    ghost use Rattle.topo_route.specs.FaultTexts.{fault_of};

    ghost output = { λ fault. Some (told (fault_of fault)) };

    fn fmt<W: fmt::Write>(&self, f: &mut fmt::Formatter<W>) -> fmt::Result {
        let fault = self.fault();
        write!(f, "{fault}")
    }
}
