//! A book that begins with a picture, and a call of it.

ghost use Rattle.std.specs.Prelude.{◌≡◌, [], IfOk};
ghost use Rattle.topo_price.specs.Prices.{IsPromise};
ghost use Rattle.topo_book.specs.Books.{AnswersCall};

use std::alloc::{AllocError, Global};
use std::sync::Arc;
use topo_book::Book;
use topo_core::calls::{Call, Reply};
use topo_picture::Picture;
use topo_price::tariff::{PriceFn, Tariff};

/// The book that begins with a picture, at the prices of a closure.
pub fn book_of<F: PriceFn + Drop>(
    alloc: Global,
    start: Picture,
    ask: F,
) -> Result<Book<F>, AllocError>
    requires callable { F.is_callable ask }
    requires promise { IsPromise (F.may_return ask) }
    ensures start { IfOk result (λ book. book.start ≡ start) }
    ensures picture { IfOk result (λ book. book.picture ≡ start) }
    ensures history { IfOk result (λ book. book.history ≡ []) }
{
    let tariff = Arc::new(alloc, Tariff::new(ask))?;
    Book::new(alloc, start, tariff)
}

/// Makes a call of a book. Out of memory may stand in place of any answer, and leaves history and
/// picture as they were.
pub fn make<F: PriceFn>(
    alloc: Global,
    book: &mut Book<F>,
    caller: u32,
    call: Call,
) -> Result<Reply, AllocError>
    ensures { AnswersCall F.may_return caller call book.old book.new result }
{
    match call {
        Call::Grow { u, position, kind } => book.grow(alloc, caller, u, position, kind),
        Call::Insert { u, v, kind } => book.insert(alloc, caller, u, v, kind),
        Call::Delete { edge } => book.delete(alloc, caller, edge),
    }
}
