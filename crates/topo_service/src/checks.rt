//! What the end of a service tests.

ghost use Rattle.std.specs.Prelude.{◌≡◌, ◌↔◌, IsTrue, ◌+◌, ◌<◌, ◌≤◌, ◌∷◌, ◌++◌, [], ℕ, List};
ghost use Rattle.std.specs.Prelude.{length, true, false, All, vec_len, IfNone, IfSome};
ghost use Rattle.topo_core.specs.declared.calls.Entry.{Entry};
ghost use Rattle.topo_core.specs.History.{IsPrefix, versions};
ghost use Rattle.topo_service.specs.Faults.{HasDifference, IsEndFault};
ghost use Rattle.topo_service.specs.Receipts.{AreFirst, AreFound, Differs};
ghost use Rattle.topo_service.specs.Receipts.{HasNumber, receipt_count, receipt_in};

use crate::faults::EndFault;
use crate::locked_state::LockedState;
use crate::pass::{Pass, Receipt};
use std::sync::Wait;
use std::sync::ledger::Share;
use topo_core::calls::Entry;
use topo_price::tariff::PriceFn;
use topo_versions::{ServiceBrand, VersionWriter, wait_forever};

/// Whether a pass with this number is there.
fn is_there<F: PriceFn, K: ServiceBrand<F>>(number: u32, passes: &[Pass<F, K>]) -> bool
    ensures yes { result ≡ true → HasNumber number passes.now }
    ensures no { result ≡ false → HasNumber number passes.now → ⊥ }
{
    for pass in passes {
        if pass.number() == number {
            return true;
        }
    }
    false
}

/// The least number below `given` that no pass has.
fn first_missing<F: PriceFn, K: ServiceBrand<F>>(given: u32, passes: &[Pass<F, K>]) -> Option<u32>
    ensures none { IfNone result ((n : ℕ) → n < given → HasNumber n passes.now) }
    ensures some { IfSome result
        (λ n. (n < given) × (HasNumber n passes.now → ⊥)
        × ((m : ℕ) → m < n → HasNumber m passes.now)) }
{
    for number in 0..given {
        if !is_there(number, passes) {
            return Some(number);
        }
    }
    None
}

/// Whether a receipt is of this entry.
fn is_of(receipt: &Receipt, entry: &Entry) -> bool
    ensures { IsTrue result ↔ (receipt.now ≡ receipt_in entry.now) }
{
    receipt.call == entry.call && receipt.reply.equals(&entry.reply)
}

/// How many receipts are found after one entry more; none where the entry is the caller's, and the
/// next receipt is not this entry.
fn found_after(number: u32, receipts: &[Receipt], entry: &Entry, k: usize) -> Option<usize>
    requires { k ≤ length receipts.now }
    ensures some { IfSome result (λ j. (before : List Entry) → AreFound before number receipts.now k
        → AreFound (before ++ entry.now ∷ []) number receipts.now j) }
    ensures none { IfNone result
        ((before after : List Entry) → AreFound before number receipts.now k
        → Differs (before ++ entry.now ∷ after) number receipts.now k) }
{
    if entry.caller != number {
        return Some(k);
    }
    if k >= receipts.len() {
        return Some(k);
    }
    if is_of(&receipts[k], entry) {
        return Some(k + 1);
    }
    None
}

/// The first receipt that is not the caller's entry at its place.
fn first_difference(number: u32, receipts: &[Receipt], history: &[Entry]) -> Option<usize>
    ensures none { IfNone result (AreFirst history.now number receipts.now) }
    ensures some { IfSome result (λ k. Differs history.now number receipts.now k) }
{
    let mut k = 0;
    for entry in history {
        match found_after(number, receipts, entry, k) {
            Some(next) => k = next,
            None => return Some(k),
        }
    }
    if k < receipts.len() { Some(k) } else { None }
}

/// The first pass with a receipt that is not its caller's entry at its place, and the place.
fn first_mismatch<F: PriceFn, K: ServiceBrand<F>>(
    passes: &[Pass<F, K>],
    history: &[Entry],
) -> Option<(u32, usize)>
    ensures none { IfNone result (All (λ p. AreFirst history.now p.number p.receipts) passes.now) }
    ensures some { IfSome result (λ found. HasDifference history.now passes.now found.0 found.1) }
{
    for pass in passes {
        if let Some(k) = first_difference(pass.number(), pass.receipts(), history) {
            return Some((pass.number(), k));
        }
    }
    None
}

/// Why the service does not end well, if so.
pub(crate) fn first_fault<F: PriceFn, K: ServiceBrand<F>>(
    given: u32,
    passes: &[Pass<F, K>],
    history: &[Entry],
) -> Option<EndFault>
    ensures all_there { IfNone result ((n : ℕ) → n < given → HasNumber n passes.now) }
    ensures agree { IfNone result (All (λ p. AreFirst history.now p.number p.receipts) passes.now) }
    ensures fault { IfSome result (IsEndFault given history.now passes.now) }
{
    if let Some(number) = first_missing(given, passes) {
        return Some(EndFault::PassMissing(number));
    }
    match first_mismatch(passes, history) {
        Some((number, k)) => Some(EndFault::Mismatch(number, k)),
        None => None,
    }
}

/// Joins the shares of the ledger. What each pass has seen begins the accepted entries.
pub(crate) fn gather<F: PriceFn, K: ServiceBrand<F>, W: VersionWriter<F, K>, R: Wait>(
    rt: &R,
    state: &LockedState<F, K, W>,
    rest: Share<K>,
    passes: Vec<Pass<F, K>>,
) -> Share<K>
    ensures parts { result.parts ≡ rest.parts + vec_len passes }
    ensures amount { result.amount ≡ rest.amount + receipt_count passes.items }
    ensures apart { 0 < vec_len passes → result.parts ≤ K.parts }
    ensures seen { All (λ p. IsPrefix p.seen (versions state.now.history)) passes.items }
{
    let mut rest = rest;
    for pass in passes {
        let (prefix, share) = pass.into_parts();
        if !prefix.is_prefix_of(state.prefix()) {
            wait_forever(rt);
        }
        rest.merge(share);
    }
    rest
}
