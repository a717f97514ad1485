//! The parts of the ledger that were not given out.

ghost use Rattle.std.specs.Prelude.{◌≡◌, ◌+◌, ◌<◌, IfNone, IfSome};
ghost use Rattle.topo_core.specs.declared.limits.TheConstants.{MAX_PASSES};

use std::marker::Model;
use std::sync::ledger::Share;
use std::sync::{Mutex, Wait};
use topo_core::limits::MAX_PASSES;
use topo_versions::{LogBrand, wait_forever};

/// What is left after so many parts were given out.
#[derive(Drop)]
struct Rest<K: LogBrand> {
    share: Share<K>,
    given: u32,
}

impl<K: LogBrand> Model for Rest<K> {
    ghost use Rattle.std.specs.Prelude.{◌≡◌, ◌+◌, ℕ};
    ghost use Rattle.topo_core.specs.declared.limits.TheConstants.{MAX_PASSES};

    ghost Value = { ℕ };

    ghost view = { λ r. r.given };

    ghost invariant = { λ r. (r.share.parts + r.given ≡ MAX_PASSES) × (r.share.amount ≡ 0) };
}

impl<K: LogBrand> Rest<K> {
    /// The rest while nothing was given out.
    fn new(share: Share<K>) -> Rest<K>
        requires { (share.parts ≡ MAX_PASSES) × (share.amount ≡ 0) }
        ensures { result ≡ 0 }
    {
        Rest { share, given: 0 }
    }

    /// Takes one part, if one is left.
    fn take(&mut self) -> Option<Share<K>>
        ensures { IfSome result (λ share. (share.parts ≡ 1) × (share.amount ≡ 0)) }
    {
        if self.given >= MAX_PASSES {
            return None;
        }
        self.given += 1;
        Some(self.share.split_off(1, 0))
    }

    /// How many were given out, and what is left.
    fn into_parts(self) -> (u32, Share<K>)
        ensures { (result.1.parts + result.0 ≡ MAX_PASSES) × (result.1.amount ≡ 0) }
    {
        let Rest { share, given } = self;
        (given, share)
    }
}

/// The parts that were not given out. They lie in a lock that nobody takes: threads share the
/// service, and a share of a ledger may not be shared. Only the owner of a pool takes parts from
/// it: a reference to it, which is what the calls of a service have, gives nothing. Contracts see
/// how many were given out, which is the only count of a service's passes. They do not see into a
/// lock, so the number stands on both sides of it.
#[derive(Drop)]
pub struct SharePool<K: LogBrand> {
    rest: Mutex<Rest<K>>,
    given: u32,
}

impl<K: LogBrand> Model for SharePool<K> {
    ghost use Rattle.std.specs.Prelude.{ℕ};

    ghost Value = { ℕ };

    ghost view = { λ p. p.given };
}

impl<K: LogBrand> SharePool<K> {
    /// A pool of which nothing was given out.
    pub fn new(share: Share<K>) -> SharePool<K>
        requires { (share.parts ≡ MAX_PASSES) × (share.amount ≡ 0) }
        ensures { result ≡ 0 }
    {
        SharePool {
            rest: Mutex::new(Rest::new(share)),
            given: 0,
        }
    }

    /// How many were given out.
    pub fn given(&self) -> u32
        ensures { result ≡ self.now }
    {
        self.given
    }

    /// Takes one part with its number, counted from 0, if one is left.
    pub fn take(&mut self) -> Option<(u32, Share<K>)>
        ensures number { IfSome result (λ taken. taken.0 ≡ self.old) }
        ensures part { IfSome result (λ taken. (taken.1.parts ≡ 1) × (taken.1.amount ≡ 0)) }
        ensures counted { IfSome result (λ taken. self.new ≡ self.old + 1) }
        ensures none { IfNone result (self.new ≡ self.old) }
    {
        if self.given >= MAX_PASSES {
            return None;
        }
        let share = self.rest.get_mut().take()?;
        let number = self.given;
        self.given += 1;
        Some((number, share))
    }

    /// How many were given out, and all that is left. It does not return where the two sides of the
    /// lock tell different numbers, which they never do.
    pub fn into_parts<R: Wait>(self, rt: &R) -> (u32, Share<K>)
        ensures number { result.0 ≡ self }
        ensures parts { result.1.parts + result.0 ≡ MAX_PASSES }
        ensures amount { result.1.amount ≡ 0 }
    {
        let SharePool { rest, given } = self;
        let (counted, share) = rest.into_inner().into_parts();
        if counted != given {
            wait_forever(rt);
        }
        (given, share)
    }
}
