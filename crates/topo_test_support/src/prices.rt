//! Prices of kinds of edges.

ghost use Rattle.std.specs.Prelude.{◌≡◌, IsSomeAnd, MatchResult, replicate};
ghost use Rattle.topo_price.specs.Prices.{first_bad};
ghost use Rattle.topo_test_support.specs.Tables.{entered};

use topo_price::table::{PriceFault, PriceTable};

/// Kinds with their prices. An edge of a kind without a price must not be crossed.
pub type Entries = &'static [(u8, Option<u32>)];

/// Prices of the edges of the triangle in the bipyramid. At them the cheapest route from apex to
/// apex crosses edge 1.
pub const FIVE_TWO_NINE: Entries = &[(1, Some(5)), (2, Some(2)), (3, Some(9))];

/// Prices as `FIVE_TWO_NINE`, but the second edge must not be crossed.
pub const SECOND_CLOSED: Entries = &[(1, Some(5)), (2, None), (3, Some(9))];

/// No edge of the triangle may be crossed.
pub const CLOSED: Entries = &[(1, None), (2, None), (3, None)];

/// A table with these entries, and with one price for all other kinds. An entry for a kind above 63
/// is left out. The fault is the least kind whose price is 0 or above 1000.
pub fn table_of(rest: Option<u32>, entries: &[(u8, Option<u32>)]) -> Result<PriceTable, PriceFault>
    ensures { MatchResult result (λ table. table ≡ entered (replicate 64 rest) entries.now)
        (λ fault. IsSomeAnd (first_bad (entered (replicate 64 rest) entries.now))
        (λ kind. fault ≡ PriceFault.BadPrice kind)) }
{
    let mut prices = [rest; 64];
    for entry in entries {
        let (kind, price) = *entry;
        if kind < 64 {
            prices[kind as usize] = price;
        }
    }
    PriceTable::new(prices)
}
