//! A book that is begun, used by a story and dropped.

ghost use Rattle.topo_price.specs.Prices.{IsPromise};

use std::alloc::Global;
use std::fmt::Debug;
use std::process::Abort;
use std::sync::atomic::{AtomicU32, Ordering};
use std::test::Fail;
use topo_book::Book;
use topo_core::rows::Facts;
use topo_picture::Picture;
use topo_price::table::PriceTable;
use topo_price::tariff::PriceFn;
use topo_test_support::books::book_of;

/// What is done with a book.
pub(crate) trait Story {
    /// Uses the book, and asserts what it is to see. How often a price was asked for is counted.
    fn tell<F: PriceFn + Drop, R: Abort>(
        &mut self,
        rt: &R,
        alloc: Global,
        book: &mut Book<F>,
        asked: &AtomicU32,
    ) -> Result<(), Fail>;
}

/// Tells the story of a book that begins with this picture, at the prices of a table.
pub(crate) fn tell_at<S: Story, R: Abort, E: Debug + Drop>(
    rt: &R,
    alloc: Global,
    start: Result<Picture, E>,
    table: &PriceTable,
    story: &mut S,
) -> Result<(), Fail> {
    let asked = AtomicU32::new(0);
    let ask = |facts: &Facts| {
        let _ = asked.fetch_add(1, Ordering::SeqCst);
        table.price(facts.kind)
    };
    tell(rt, alloc, start, ask, &asked, story)
}

/// Tells the story of a book that begins with this picture, at the prices of a closure, which
/// counts its calls.
fn tell<F: PriceFn + Drop, S: Story, R: Abort, E: Debug + Drop>(
    rt: &R,
    alloc: Global,
    start: Result<Picture, E>,
    ask: F,
    asked: &AtomicU32,
    story: &mut S,
) -> Result<(), Fail>
    requires callable { F.is_callable ask }
    requires promise { IsPromise (F.may_return ask) }
{
    let mut book = book_of(alloc, start?, ask)?;
    let told = story.tell(rt, alloc, &mut book, asked);
    drop(book);
    told
}
