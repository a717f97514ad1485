//! Limits, prices and start, of which each may be missing, and the version: what a script and an
//! opening have in common.

ghost use Rattle.std.specs.Prelude.{◌≡◌, IfSome, Some, ℕ};
ghost use Rattle.topo_script.specs.TokenParts.{AreSettings};

use crate::script_forms::GREATEST_LIMITS;
use crate::scripts::LimitRows;
use crate::sessions::Opening;
use crate::slots::Slot;
use crate::token_reports::kept_prices;
use std::alloc::Global;
use topo_core::listed::Listed;
use topo_core::rows::Rows;

/// Slots for them, in the order of their keys, before others.
pub type SettingsSlots<R> = Slot<
    LimitRows,
    Slot<Listed<Option<u32>>, Slot<Option<Rows>, Slot<u32, R>>>,
>;

/// What was read into the slots, or what is meant where nothing was, and the slots behind them.
pub fn settings_due<R: Drop>(alloc: Global, slots: SettingsSlots<R>) -> Option<(Opening, R)>
    ensures settings { IfSome result (λ r. (version : ℕ)
        × (slots.rest.rest.rest.found ≡ Some version)
        × AreSettings slots.found slots.rest.found slots.rest.rest.found version
        r.0.limits r.0.prices r.0.start) }
    ensures rest { IfSome result (λ r. slots.rest.rest.rest.rest ≡ r.1) }
{
    let (limits, slots) = slots.maybe();
    let (prices, slots) = slots.maybe();
    let (start, slots) = slots.maybe();
    let (version, rest) = slots.due()?;
    let prices = kept_prices(prices.unwrap_or(Listed::new(alloc)), version)?;
    let opening = Opening {
        limits: limits.unwrap_or(GREATEST_LIMITS),
        prices,
        start: start.unwrap_or(None),
    };
    Some((opening, rest))
}
