//! Insertions where no crossing id is left.

ghost use Rattle.topo_price.specs.Prices.{IsPromise};

use std::alloc::{AllocError, Global};
use std::process::Abort;
use std::test::Fail;
use topo_book::Book;
use topo_core::calls::Reply;
use topo_core::limits::Limits;
use topo_core::rows::{Facts, Rows};
use topo_picture::Picture;
use topo_price::tariff::PriceFn;
use topo_test_support::books::book_of;
use topo_test_support::pictures::{BARRIER, BIPYRAMID, HEXAGON, JOINED, Named, rows_of};
use topo_test_support::prices::table_of;

/// Pictures with crossings and without, in which some vertices share no face.
const PICTURES: &[&Named] = &[&BIPYRAMID, &JOINED, &BARRIER, &HEXAGON];

/// The reply where a route needs more crossing ids than are left.
const FULL: &str = "Refused(Full)";

/// The picture with these rows, and no crossing id left.
fn full_picture(alloc: Global, rows: &Rows) -> Result<Picture, Fail> {
    let limits = Limits::new(65_536, 65_536, rows.next_crossing)?;
    Ok(Picture::load(alloc, limits, rows)?)
}

/// The reply to an insertion, as a text.
fn text_of_insertion<F: PriceFn>(
    alloc: Global,
    book: &mut Book<F>,
    ends: (u32, u32),
) -> Result<String, AllocError> {
    let reply: Reply = book.insert(alloc, 0, ends.0, ends.1, 0)?;
    let text = format!(in alloc; "{reply:?}");
    drop(reply);
    text
}

/// The reply to an insertion into such a picture at these prices, as a text. One that is refused is
/// refused again.
fn told<F: PriceFn + Drop>(
    rt: &impl Abort,
    alloc: Global,
    rows: &Rows,
    ask: F,
    ends: (u32, u32),
) -> Result<String, Fail>
    requires callable { F.is_callable ask }
    requires promise { IsPromise (F.may_return ask) }
{
    let mut book = book_of(alloc, full_picture(alloc, rows)?, ask)?;
    assert!(rt; book.picture().has_no_crossing_left());
    let text = text_of_insertion(alloc, &mut book, ends);
    let again = text_of_insertion(alloc, &mut book, ends);
    drop(book);
    let (text, again) = (text?, again?);
    assert!(rt;
        text.as_str() != FULL || again.as_str() == FULL,
        "{ends:?}: {again}"
    );
    Ok(text)
}

/// Whether an insertion is answered alike where its prices are known by the kind, so that no whole
/// search is made, and where they are not; and whether it is refused.
fn is_refused<R: Abort>(
    rt: &R,
    alloc: Global,
    rows: &Rows,
    ends: (u32, u32),
) -> Result<bool, Fail> {
    let table = table_of(Some(3), &[])?;
    let searched = told(
        rt,
        alloc,
        rows,
        |facts: &Facts| table.price(facts.kind),
        ends,
    )?;
    let known = table_of(Some(3), &[])?;
    // For the proof: what a table promises.
    known.laws();
    let direct = told(rt, alloc, rows, known, ends)?;
    assert!(rt;
        searched.as_str() == direct.as_str(),
        "{ends:?}: {direct}, not {searched}"
    );
    Ok(direct.as_str() == FULL)
}

/// How many of the insertions between any two vertices are refused.
fn count_refused<R: Abort>(rt: &R, alloc: Global, rows: &Rows) -> Result<u32, Fail> {
    let vertices = u32::try_from(rows.rotations.len()).unwrap_or(0);
    let mut refused = 0u32;
    for u in 0..vertices {
        for v in 0..vertices {
            if u != v && is_refused(rt, alloc, rows, (u, v))? {
                refused = refused.saturating_add(1);
            }
        }
    }
    Ok(refused)
}

#[test]
fn full_pictures_answer_alike_however_prices_are_known(rt: HostRuntime) -> Result<(), Fail> {
    for named in PICTURES {
        let rows = rows_of(rt.alloc(), *named)?;
        let refused = count_refused(&rt, rt.alloc(), &rows);
        drop(rows);
        let refused = refused?;
        assert!(rt; refused > 0, "{refused}");
    }
    Ok(())
}
