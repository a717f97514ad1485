//! Reports, read from the tokens of a text.

ghost use Rattle.std.specs.Prelude.{◌≡◌, IfSome, true};
ghost use Rattle.std.specs.Option.{is_none};
ghost use Rattle.std.specs.List.{list_any};
ghost use Rattle.topo_script.specs.TokenParts.{ArePricesOf};
ghost use Rattle.topo_script.specs.Scripts.{limits_form, price_form, report_form};

use crate::keys::{LIMITS_KEYS, REPORT_KEYS};
use crate::prices::{MAX_PRICES, without_ones};
use crate::reader::TokenReader;
use crate::reports::Report;
use crate::script_forms::nulls_of;
use crate::scripts::LimitRows;
use crate::slots::{NoSlot, Slot, read_object};
use crate::tokens::FromTokens;
use std::alloc::Global;
use topo_core::calls::Entry;
use topo_core::listed::Listed;
use topo_core::rows::Rows;

/// The slots of limits, in the order of their keys.
type LimitsSlots = Slot<u32, Slot<u32, Slot<u32, NoSlot>>>;

impl FromTokens for LimitRows {
    ghost form = { limits_form };

    ghost nesting = { 1 };

    fn from_tokens(alloc: Global, reader: &mut TokenReader<'_>) -> Option<Self> {
        let slots: LimitsSlots = read_object(alloc, &LIMITS_KEYS, reader)?;
        let (crossings, edges, vertices, _slots) = slots.three_due()?;
        Some(LimitRows {
            vertices,
            edges,
            crossings,
        })
    }
}

impl FromTokens for Option<u32> {
    ghost form = { price_form true };

    ghost nesting = { 0 };

    fn from_tokens(alloc: Global, reader: &mut TokenReader<'_>) -> Option<Self> {
        if reader.take_null() {
            return Some(None);
        }
        let price = u32::from_tokens(alloc, reader)?;
        Some(Some(price))
    }
}

/// Whether a price is null.
fn has_null(prices: &[Option<u32>]) -> bool
    ensures { result ≡ list_any is_none prices.now }
{
    prices.iter().any(|price| price.is_none())
}

/// The prices of a report of this version, without the ones at their end.
pub fn kept_prices(prices: Listed<Option<u32>>, version: u32) -> Option<Listed<Option<u32>>>
    ensures { IfSome result (λ kept. ArePricesOf version prices kept) }
{
    let nulls = nulls_of(version).ok()?;
    if prices.len() > MAX_PRICES || (!nulls && has_null(prices.as_slice())) {
        return None;
    }
    Some(without_ones(prices))
}

/// The slots of a report, in the order of its keys.
type ReportSlots = Slot<
    Listed<Entry>,
    Slot<LimitRows, Slot<Rows, Slot<Listed<Option<u32>>, Slot<Rows, Slot<u32, NoSlot>>>>>,
>;

impl FromTokens for Report {
    ghost form = { report_form };

    ghost nesting = { 6 };

    fn from_tokens(alloc: Global, reader: &mut TokenReader<'_>) -> Option<Self> {
        let slots: ReportSlots = read_object(alloc, &REPORT_KEYS, reader)?;
        let (history, limits, picture, slots) = slots.three_due()?;
        let (prices, start, version, _slots) = slots.three_due()?;
        let prices = kept_prices(prices, version)?;
        Some(Report {
            limits,
            prices,
            start,
            history,
            picture,
        })
    }
}
