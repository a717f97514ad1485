//! What a table of prices becomes, for code that is generic in what answers a price.

use topo_price::table::PriceTable;
use topo_price::tariff::PriceFn;

/// What answers a price, and can be made of a table of prices.
pub trait FromTable: PriceFn + Drop {
    ghost use Rattle.std.specs.Prelude.{◌≡◌, List, Option, ℕ};
    ghost use Rattle.topo_price.specs.Prices.{IsPromise};
    ghost use Rattle.topo_io.specs.Settings.{AnswersPrices, price_table};

    /// What answers the prices of a table.
    fn from_table(table: PriceTable) -> Self
        ensures callable { Self.is_callable result }
        ensures promise { IsPromise (Self.may_return result) }
        ensures own { (prices : List (Option ℕ)) → table ≡ price_table prices
            → AnswersPrices (Self.may_return result) prices };
}

impl FromTable for PriceTable {
    fn from_table(table: PriceTable) -> Self {
        // For the proof: what the type keeps.
        table.laws();
        table
    }
}
