//! Calls of plain values.

ghost use Rattle.topo_price.specs.Prices.{IsPromise};

use crate::marks::{Console, begin, number, says};
use anyhow::Result;
use std::io;
use topo_core::limits::Limits;
use topo_core::listed::Listed;
use topo_core::rows::{EdgeRow, Facts};
use topo_perm::laws::{bypass, exchange};
use topo_perm::same_cycle;
use topo_price::table::PriceTable;
use topo_price::tariff::{PriceFn, Tariff};

/// Limits that are sound, and some that are not.
fn make_limits<R: Print>(rt: &R) -> io::Result<()> {
    begin(rt, "Limits::new")?;
    let sound = Limits::new(10, 10, 10);
    says(rt, sound.is_ok())?;
    begin(rt, "Limits::new, refused")?;
    let unsound = Limits::new(1, 10, 10);
    says(rt, unsound.is_ok())
}

/// The facts of an edge.
fn read_facts<R: Print>(rt: &R, row: &EdgeRow) -> io::Result<()> {
    begin(rt, "Facts::from_row")?;
    let facts = Facts::from_row(row);
    says(rt, facts.is_some())
}

/// Whether two places lie on one cycle, which is then changed.
fn follow_cycle<R: Print>(rt: &R) -> io::Result<()> {
    let mut images = [1, 2, 0, 3];
    begin(rt, "same_cycle")?;
    let answer = same_cycle(&images, 0, 2);
    says(rt, answer)?;
    begin(rt, "exchange and bypass")?;
    exchange(&mut images, 0, 3);
    bypass(&mut images, 1);
    number(rt, images[0] as u64)
}

/// A price of a closure's prices, which is asked for.
fn ask_price<F: PriceFn, R: Print>(rt: &R, tariff: &Tariff<F>, facts: &Facts) -> io::Result<()> {
    begin(rt, "Tariff::price")?;
    let price = tariff.price(facts);
    says(rt, price == Some(5))
}

/// The prices of a closure.
fn make_tariff<F: PriceFn + Drop, R: Print>(rt: &R, ask: F, facts: &Facts) -> io::Result<()>
    requires callable { F.is_callable ask }
    requires promise { IsPromise (F.may_return ask) }
{
    let begun = begin(rt, "Tariff::new");
    let tariff = Tariff::new(ask);
    let made = number(rt, 0);
    let asked = ask_price(rt, &tariff, facts);
    drop(tariff);
    begun?;
    made?;
    asked
}

/// A table of prices, and prices that are read off it.
fn make_table<R: Print>(rt: &R, facts: &Facts) -> io::Result<()> {
    begin(rt, "PriceTable::new")?;
    let made = PriceTable::new([Some(5); 64]);
    says(rt, made.is_ok())?;
    begin(rt, "PriceTable::new, refused")?;
    let refused = PriceTable::new([Some(1001); 64]);
    says(rt, refused.is_ok())?;
    let Ok(table) = made else {
        return Ok(());
    };
    begin(rt, "PriceTable::price")?;
    let price = table.price(facts.kind);
    says(rt, price == Some(5))?;
    make_tariff(rt, |facts: &Facts| table.price(facts.kind), facts)
}

/// Calls of plain values.
pub(crate) fn make_values<R: Console>(rt: &R) -> Result<()> {
    make_limits(rt)?;
    follow_cycle(rt)?;
    let row = EdgeRow {
        id: 0,
        a: 0,
        b: 1,
        kind: 3,
        crossings: Listed::new(rt.alloc()),
    };
    let told = read_facts(rt, &row);
    let facts = Facts::from_row(&row);
    drop(row);
    told?;
    if let Some(facts) = facts {
        make_table(rt, &facts)?;
    }
    Ok(())
}
