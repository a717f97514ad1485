//! An edge between two vertices becomes a triangle: a picture, prices of one's own, and a book.
#![tactic(auto)]

ghost use Rattle.topo_price.specs.Prices.{IsPromise};

use anyhow::Result;
use std::sync::Arc;
use topo_book::Book;
use topo_core::limits::Limits;
use topo_core::rows::Facts;
use topo_picture::Picture;
use topo_price::tariff::{PriceFn, Tariff};
use topo_script::{picture_text, read_rows};

/// Two vertices, and the edge 0 between them.
const START: &str = r#"{"crossings":[],"edges":[{"a":0,"b":1,"crossings":[],"id":0,"kind":0}],
    "next_crossing":0,"next_edge":1,"rotations":[[0],[0]]}"#;

fn main(rt: HostRuntime) -> Result<()> {
    // An edge of kind 1 is dear to cross.
    triangle(
        &rt,
        |facts: &Facts| Some(if facts.kind == 1 { 5 } else { 1 }),
    )
}

/// Grows a vertex, inserts an edge from it, and prints the reply and the picture.
fn triangle<F: PriceFn + Drop, R: Print + AllocGlobal>(rt: &R, prices: F) -> Result<()>
    requires callable { F.is_callable prices }
    requires promise { IsPromise (F.may_return prices) }
{
    let alloc = rt.alloc();
    let rows = read_rows(alloc, START.as_bytes())?;
    let start = Picture::load(alloc, Limits::new(100, 100, 1_000)?, &rows)?;
    let mut book = Book::new(alloc, start, Arc::new(alloc, Tariff::new(prices))?)?;
    book.grow(alloc, 0, 1, 0, 1)?; // a vertex on an edge of kind 1, at position 0 of vertex 1
    let reply = book.insert(alloc, 0, 2, 0, 0)?; // an edge of kind 0, from vertex 2 to vertex 0
    println!(rt; "{reply:?}")?;
    let rows = book.picture().rows(alloc)?;
    println!(rt; "{}", picture_text(alloc, &rows)?)?;
    Ok(())
}
