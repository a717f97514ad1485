//! Lists of prices, read from their JSON form.

ghost use Rattle.std.specs.Prelude.{◌≡◌, ◌≤◌, length, take, nat_le};
ghost use Rattle.topo_script.specs.declared.fault.ScriptFault.TheVariants.{BadShape};
ghost use Rattle.serde_json.specs.View.{view, items_view};
ghost use Rattle.topo_script.specs.Reads.{Gives, passes, element_count, list_form, items_from};
ghost use Rattle.topo_script.specs.Prices.{is_one, without_ones};
ghost use Rattle.topo_script.specs.Scripts.{some_price, price_form, prices_form};
ghost use Rattle.topo_core.specs.declared.rows.TheConstants.{KINDS};

use crate::fault::ScriptFault;
use crate::form::{Form, element_count};
use crate::path::JsonPath;
use serde_json::Value;
use std::alloc::Global;
use topo_core::listed::Listed;
use topo_core::rows::KINDS;

/// The greatest number of prices in a list: one for each kind.
pub(crate) const MAX_PRICES: usize = KINDS;

/// A number, as a price.
pub(crate) fn read_some_price(
    alloc: Global,
    path: JsonPath,
    value: &Value,
) -> Result<Option<u32>, ScriptFault>
    ensures { Gives result (some_price path (view value.now)) }
{
    let price = u32::read(alloc, path, value)?;
    Ok(Some(price))
}

/// A number, or null where the version has that.
#[tactic(auto, unfolding(crate::specs::Scripts::price_form))]
fn read_price(
    alloc: Global,
    nulls: bool,
    path: JsonPath,
    value: &Value,
) -> Result<Option<u32>, ScriptFault>
    ensures { Gives result (price_form nulls path (view value.now)) }
{
    if nulls && value.is_null() {
        Ok(None)
    } else {
        read_some_price(alloc, path, value)
    }
}

/// Tests that there is at most one price for each kind.
fn check_prices(path: JsonPath, value: &Value) -> Result<(), ScriptFault>
    ensures { result ≡ passes (BadShape path) (nat_le (element_count (view value.now)) KINDS) }
{
    if element_count(value) <= MAX_PRICES {
        Ok(())
    } else {
        Err(ScriptFault::BadShape(path))
    }
}

/// At most 64 prices, without the ones at their end.
pub fn read_prices(
    alloc: Global,
    nulls: bool,
    path: JsonPath,
    value: &Value,
) -> Result<Listed<Option<u32>>, ScriptFault>
    ensures { Gives result (prices_form nulls path (view value.now)) }
{
    check_prices(path, value)?;
    let prices = read_price_list(alloc, nulls, path, value)?;
    Ok(without_ones(prices))
}

/// What the elements of an array are read as, up to the first fault.
fn read_price_list(
    alloc: Global,
    nulls: bool,
    path: JsonPath,
    value: &Value,
) -> Result<Listed<Option<u32>>, ScriptFault>
    ensures { Gives result (list_form (price_form nulls) path (view value.now)) }
{
    match value.as_array() {
        Some(items) => read_price_items(alloc, nulls, path, items.as_slice()),
        None => Err(ScriptFault::BadShape(path)),
    }
}

/// What each element is read as, up to the first fault.
fn read_price_items(
    alloc: Global,
    nulls: bool,
    path: JsonPath,
    items: &[Value],
) -> Result<Listed<Option<u32>>, ScriptFault>
    ensures { Gives result (items_from (price_form nulls) path 0 (items_view items.now)) }
{
    let mut prices = Vec::new(alloc);
    for (i, item) in items.iter().enumerate() {
        match read_price(alloc, nulls, path.element(i), item) {
            Ok(price) => if prices.push(price).is_err() {
                return Err(ScriptFault::Memory);
            },
            Err(fault) => return Err(fault),
        }
    }
    Ok(Listed::from_vec(prices))
}

/// The prices without the ones at their end.
pub(crate) fn without_ones(prices: Listed<Option<u32>>) -> Listed<Option<u32>>
    ensures { result ≡ without_ones prices }
{
    let mut prices = prices.into_vec();
    let kept = kept_len(prices.as_slice());
    prices.truncate(kept);
    Listed::from_vec(prices)
}

/// Whether a price is 1.
fn is_one(price: Option<u32>) -> bool
    ensures { result ≡ is_one price }
{
    match price {
        Some(number) => number == 1,
        None => false,
    }
}

/// How many prices there are up to the last one that is not 1.
pub fn kept_len(prices: &[Option<u32>]) -> usize
    ensures within { result ≤ length prices.now }
    ensures kept { take result prices.now ≡ without_ones prices.now }
{
    let mut kept = 0;
    for (i, price) in prices.iter().enumerate() {
        if !is_one(*price) {
            kept = i + 1;
        }
    }
    kept
}
