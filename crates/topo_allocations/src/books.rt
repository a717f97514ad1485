//! Calls of a book that read it, and what was made ready is entered.

ghost use Rattle.topo_price.specs.Prices.{IsPromise};

use crate::marks::{Console, begin, number, says};
use anyhow::Result;
use std::io;
use topo_book::Book;
use topo_core::calls::Call;
use topo_core::rows::Facts;
use topo_price::tariff::PriceFn;
use topo_test_support::books::book_of;
use topo_test_support::pictures::{BIPYRAMID, picture_of};
use topo_test_support::prices::{FIVE_TWO_NINE, table_of};

/// Who makes the calls.
const CALLER: u32 = 3;

/// The calls: an insertion across an edge, a growth, a deletion, and one that is refused.
const CALLS: &[Call] = &[
    Call::Insert {
        u: 3,
        v: 4,
        kind: 0,
    },
    Call::Grow {
        u: 0,
        position: 0,
        kind: 0,
    },
    Call::Delete { edge: 9 },
    Call::Delete { edge: 9 },
];

/// Makes a call ready and enters it.
fn commit<R: Console, F: PriceFn>(rt: &R, book: &mut Book<F>, call: Call) -> Result<()> {
    let next = book.prepare(rt.alloc(), CALLER, call)?;
    let begun = begin(rt, "Next::entry");
    let caller = next.entry().caller;
    let told = number(rt, caller as u64);
    let came = begin(rt, "Book::commit");
    book.commit(next);
    let entered = number(rt, book.history().len() as u64);
    begun?;
    told?;
    came?;
    entered?;
    Ok(())
}

/// Calls that read a book.
fn read<R: Print, F: PriceFn>(rt: &R, book: &Book<F>) -> io::Result<()> {
    begin(rt, "Book::history")?;
    let entries = book.history().len();
    number(rt, entries as u64)?;
    begin(rt, "Book::picture and start")?;
    let (now, first) = (book.picture().counts(), book.start().counts());
    says(rt, now.vertices > first.vertices)?;
    begin(rt, "Book::tariff")?;
    let floor = book.tariff().floor(1);
    number(rt, floor as u64)
}

/// All calls of a book.
fn make_calls<R: Console, F: PriceFn>(rt: &R, book: &mut Book<F>) -> Result<()> {
    for call in CALLS {
        commit(rt, book, *call)?;
    }
    Ok(read(rt, book)?)
}

/// A book with the prices of a closure.
fn use_book_at<R: Console, F: PriceFn + Drop>(rt: &R, ask: F) -> Result<()>
    requires callable { F.is_callable ask }
    requires promise { IsPromise (F.may_return ask) }
{
    let picture = picture_of(rt.alloc(), &BIPYRAMID)?;
    let mut book = book_of(rt.alloc(), picture, ask)?;
    let told = make_calls(rt, &mut book);
    drop(book);
    told
}

/// Calls of a book that begins with the bipyramid.
pub(crate) fn use_book<R: Console>(rt: &R) -> Result<()> {
    let table = table_of(Some(1), FIVE_TWO_NINE)?;
    use_book_at(rt, |facts: &Facts| table.price(facts.kind))
}
