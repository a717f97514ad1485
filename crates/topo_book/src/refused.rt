//! Insertions that were refused on the picture of now.

ghost use Rattle.std.specs.Prelude.{◌≢◌, IfSome};
ghost use Rattle.topo_core.specs.declared.calls.Refusal.TheVariants.{Memory};
ghost use Rattle.topo_book.specs.RefusedCalls.{WasRefused};

use crate::book::Book;
use topo_core::calls::{Call, Entry, Refusal, Reply};
use topo_price::tariff::PriceFn;

/// So many entries are looked at at most.
const MAX_ENTRIES: u32 = 4;

/// Why a call was refused by one of the last entries, so many at most, where they are all refused.
#[tactic(auto, using(crate::proofs::RefusedCalls::refused_last))]
fn refused_among(entries: &[Entry], call: Call, most: u32) -> Option<Refusal>
    ensures was_refused { IfSome result (WasRefused entries.now call) }
    ensures no_memory { IfSome result (λ why. why ≢ Memory) }
{
    if most == 0 {
        return None;
    }
    let [older @ .., entry] = entries else {
        return None;
    };
    let Reply::Refused(why) = entry.reply else {
        return None;
    };
    if entry.call == call && why != Refusal::Memory {
        return Some(why);
    }
    refused_among(older, call, most - 1)
}

impl<F: PriceFn> Book<F> {
    ghost use Rattle.std.specs.Prelude.{◌≢◌, IfSome};
    ghost use Rattle.topo_core.specs.declared.calls.Refusal.TheVariants.{Memory};
    ghost use Rattle.topo_core.specs.declared.calls.Reply.TheVariants.{Refused};
    ghost use Rattle.topo_book.specs.Books.{IsDueIn};

    /// Why an insertion is refused again: it was among the last entries, none of which has changed
    /// the picture. So the same is not looked for twice.
    pub(crate) fn known_refusal(&self, call: Call) -> Option<Refusal>
        ensures due { IfSome result (λ why. IsDueIn F.may_return self.now call (Refused why)) }
        ensures no_memory { IfSome result (λ why. why ≢ Memory) }
    {
        match call {
            Call::Insert { .. } => { refused_among(self.history(), call, MAX_ENTRIES) }
            _ => None,
        }
    }
}
