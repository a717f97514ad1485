//! What is answered of a graph.

ghost use Rattle.std.specs.Prelude.{◌≡◌, ◌≤◌, IfSome, option_copied};
ghost use Rattle.topo_planarize.specs.Answers.{answer_data, cost_at, cost_of, price_of, total_cost};
ghost use Rattle.topo_planarize.specs.Answers.{total_crossings};

use std::alloc::AllocError;
use topo_core::listed::Listed;
use topo_core::rows::{CrossRow, EdgeRow, KINDS, Rows};
use topo_graph::Part;
use topo_price::table::PriceTable;
use topo_script::written::{Written, write_after};

/// Pictures that show a graph, with what their crossings cost and how many they are, the vertices
/// that have no edge, and the crossings at the end of each order that was tried.
#[derive(Drop, Debug)]
pub struct Answer {
    pub cost: u64,
    pub crossings: u64,
    pub lonely: Listed<u32>,
    pub parts: Listed<Part>,
    pub tries: Listed<u64>,
}

impl Written for Answer {
    ghost value = { answer_data };

    fn write(&self, out: &mut String) -> Result<(), AllocError> {
        write_after(out, "{\"cost\":", &self.cost)?;
        write_after(out, ",\"crossings\":", &self.crossings)?;
        write_after(out, ",\"lonely\":", &self.lonely)?;
        write_after(out, ",\"parts\":", &self.parts)?;
        write_after(out, ",\"tries\":", &self.tries)?;
        out.push('}')
    }
}

/// The price of an edge, and 0 where it has none.
fn price_of(prices: &PriceTable, row: Option<&EdgeRow>) -> u64
    ensures price { result ≡ price_of prices.now (option_copied row.entry) }
    ensures at_most { result ≤ 1000 }
{
    match row {
        Some(row) if (row.kind as usize) < KINDS => match prices.price(row.kind as u8) {
            Some(price) => u64::from(price),
            None => 0,
        },
        _ => 0,
    }
}

/// What a crossing costs: the product of the prices of its edges.
fn cost_at(prices: &PriceTable, rows: &Rows, crossing: &CrossRow) -> u64
    ensures { result ≡ cost_at prices.now rows.now crossing.now }
{
    let edges = rows.edges.as_slice();
    let crossed = price_of(prices, edges.get(crossing.crossed as usize));
    let newcomer = price_of(prices, edges.get(crossing.newcomer as usize));
    crossed * newcomer
}

/// What the crossings of a picture cost; none where that is no number of 64 bits.
fn cost_of(prices: &PriceTable, part: &Part) -> Option<u64>
    ensures { IfSome result (λ cost. cost ≡ cost_of prices.now part.now) }
{
    let mut cost = 0u64;
    for crossing in part.rows.crossings.as_slice() {
        cost = cost.checked_add(cost_at(prices, &part.rows, crossing))?;
    }
    Some(cost)
}

/// What the crossings of all pictures cost; none where that is no number of 64 bits.
pub(crate) fn total_cost(prices: &PriceTable, parts: &[Part]) -> Option<u64>
    ensures { IfSome result (λ cost. cost ≡ total_cost prices.now parts.now) }
{
    let mut total = 0u64;
    for part in parts {
        total = total.checked_add(cost_of(prices, part)?)?;
    }
    Some(total)
}

/// How many crossings all pictures have; none where that is no number of 64 bits.
pub(crate) fn total_crossings(parts: &[Part]) -> Option<u64>
    ensures { IfSome result (λ count. count ≡ total_crossings parts.now) }
{
    let mut total = 0u64;
    for part in parts {
        total = total.checked_add(part.rows.crossings.len() as u64)?;
    }
    Some(total)
}
