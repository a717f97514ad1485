//! What a script or a report sets beside its calls: limits, prices, and the picture that it starts
//! with.

ghost use Rattle.std.specs.Prelude.{◌≡◌, IfOk, IfErr, None, Option, option_copied};
ghost use Rattle.topo_core.specs.declared.rows.Rows.{Rows};
ghost use Rattle.topo_script.specs.Scripts.{greatest_limits};
ghost use Rattle.topo_io.specs.Limiting.{AreLimits};
ghost use Rattle.topo_io.specs.Settings.{IsBadPrice, IsSound, IsUnsound};
ghost use Rattle.topo_io.specs.Settings.{price_of_kind, price_table, start_of};
ghost use Rattle.topo_price.specs.Prices.{first_bad};

use crate::fault::RunFault;
use std::alloc::Global;
use topo_core::limits::Limits;
use topo_core::rows::{KINDS, Rows};
use topo_picture::Picture;
use topo_price::table::{PriceFault, PriceTable};
use topo_rows::LoadFault;
use topo_script::LimitRows;

/// What is set, once it is judged: the prices of all kinds, and the picture that is started with,
/// under its limits.
#[derive(Drop)]
pub struct Setting {
    pub table: PriceTable,
    pub start: Picture,
}

/// What is set, or the first fault of the limits, the prices and the start.
pub fn validate(
    alloc: Global,
    numbers: LimitRows,
    prices: &[Option<u32>],
    start: Option<&Rows>,
) -> Result<Setting, RunFault>
    ensures prices { IfOk result (λ set. set.table ≡ price_table prices.now) }
    ensures sound { IfOk result
        (λ set. IsSound numbers prices.now (option_copied start.entry) set.start.limits) }
    ensures rows { IfOk result (λ set. set.start.rows ≡ start_of (option_copied start.entry)) }
    ensures fault { IfErr result (IsUnsound numbers prices.now (option_copied start.entry)) }
{
    let (limits, table) = judge(numbers, prices)?;
    match start {
        Some(rows) => match Picture::load(alloc, limits, rows) {
            Ok(start) => Ok(Setting { table, start }),
            Err(LoadFault::Memory) => Err(RunFault::Memory),
            Err(fault) => Err(RunFault::Load(fault)),
        },
        None => match Picture::seed(alloc, limits) {
            Ok(start) => Ok(Setting { table, start }),
            Err(_) => Err(RunFault::Memory),
        },
    }
}

/// The limits and the prices of all kinds, or the first fault of both, whatever the start.
pub fn judge(numbers: LimitRows, prices: &[Option<u32>]) -> Result<(Limits, PriceTable), RunFault>
    ensures limits { IfOk result (λ judged. AreLimits numbers judged.0) }
    ensures prices { IfOk result (λ judged. judged.1 ≡ price_table prices.now) }
    ensures good { IfOk result (λ judged. first_bad (price_table prices.now) ≡ None) }
    ensures fault { IfErr result
        (λ fault. (start : Option Rows) → IsUnsound numbers prices.now start fault) }
{
    match Limits::new(numbers.vertices, numbers.edges, numbers.crossings) {
        Ok(limits) => match table_of(prices) {
            Ok(table) => Ok((limits, table)),
            Err(fault) => Err(RunFault::Price(fault)),
        },
        Err(_) => Err(RunFault::BadLimits),
    }
}

/// The greatest limits of a picture.
pub fn greatest_limits() -> Limits
    ensures { AreLimits greatest_limits result }
{
    Limits {
        vertices: 65_536,
        edges: 65_536,
        crossings: 1_048_576,
    }
}

/// The table of the prices of all kinds, where each is one.
pub fn table_of(prices: &[Option<u32>]) -> Result<PriceTable, PriceFault>
    ensures table { IfOk result (λ table. table ≡ price_table prices.now) }
    ensures good { IfOk result (λ _. first_bad (price_table prices.now) ≡ None) }
    ensures bad { IfErr result (IsBadPrice prices.now) }
{
    PriceTable::new(price_table(prices))
}

/// The prices of all kinds.
fn price_table(prices: &[Option<u32>]) -> [Option<u32>; KINDS]
    ensures { result ≡ price_table prices.now }
{
    let mut table = [Some(1); KINDS];
    for kind in 0..KINDS {
        table[kind] = price_of_kind(prices, kind);
    }
    table
}

/// The price of a kind: 1 past the end of the list.
pub fn price_of_kind(prices: &[Option<u32>], kind: usize) -> Option<u32>
    ensures { result ≡ price_of_kind prices.now kind }
{
    match prices.get(kind) {
        Some(price) => *price,
        None => Some(1),
    }
}
