//! Calls of a book.

ghost use Rattle.std.specs.Prelude.{IfOk};
ghost use Rattle.topo_price.specs.Prices.{prices_of};
ghost use Rattle.topo_book.specs.Books.{CanFollow};

use crate::judge::{Done, bookkept, unless};
use crate::pictures::text_of;
use std::alloc::{AllocError, Global};
use topo_book::{Book, Next, ReplayFault, replay};
use topo_core::calls::Call;
use topo_picture::Picture;
use topo_price::tariff::PriceFn;
use topo_route::plan::Plan;
use topo_test_support::books::make;

/// Who makes the calls.
const CALLER: u32 = 3;

/// The picture of a book, how many entries it has, and the last of them.
pub(crate) fn text_of_book<F: PriceFn>(
    alloc: Global,
    book: &Book<F>,
) -> Result<String, AllocError> {
    let mut text = text_of(alloc, book.picture())?;
    let (many, last) = (book.history().len(), book.history().last());
    write!(text, " after {many} entries, the last {last:?}")?;
    Ok(text)
}

/// The method of a book or a service that makes a call.
pub(crate) fn method(call: Call) -> &'static str {
    match call {
        Call::Grow { .. } => "grow",
        Call::Insert { .. } => "insert",
        Call::Delete { .. } => "delete",
    }
}

/// Carries a call out and enters it, an insertion with the plan if there is one.
pub(crate) fn enter<F: PriceFn>(
    alloc: Global,
    book: &mut Book<F>,
    call: Call,
    plan: Option<&Plan>,
    told: &mut String,
) -> Done {
    let reply = if let (Call::Insert { u, v, kind }, Some(plan)) = (call, plan) {
        told.push_str("Book::insert_planned")?;
        book.insert_planned(alloc, CALLER, u, v, kind, plan)?
    } else {
        write!(told, "Book::{}", method(call))?;
        make(alloc, book, CALLER, call)?
    };
    write!(told, ": {reply:?}")
}

/// Makes a call ready, an insertion with the plan if there is one.
fn prepared<F: PriceFn>(
    alloc: Global,
    book: &mut Book<F>,
    call: Call,
    plan: Option<&Plan>,
    told: &mut String,
) -> Result<Next, AllocError>
    ensures ready { IfOk result (CanFollow (prices_of (F.may_return book.new.tariff)) book.new) }
{
    if let (Call::Insert { u, v, kind }, Some(plan)) = (call, plan) {
        told.push_str("Book::prepare_planned")?;
        return book.prepare_planned(alloc, CALLER, u, v, kind, plan);
    }
    told.push_str("Book::prepare")?;
    book.prepare(alloc, CALLER, call)
}

/// Tells of a call that is ready, with the picture after it, and whether the book is as it was.
fn tell_ready<F: PriceFn>(
    alloc: Global,
    book: &Book<F>,
    next: &Next,
    before: &str,
    told: &mut String,
) -> Done {
    let after = bookkept(told, text_of_book(alloc, book))?;
    write!(
        told,
        ": as before {}, {:?}",
        before == after.as_str(),
        next.entry()
    )?;
    if let Some(picture) = next.picture() {
        let text = bookkept(told, text_of(alloc, picture))?;
        write!(told, ", to come {text}")?;
    }
    Ok(())
}

/// Makes a call ready, and enters it. Until it is entered nothing has changed.
pub(crate) fn enter_ready<F: PriceFn>(
    alloc: Global,
    book: &mut Book<F>,
    call: Call,
    plan: Option<&Plan>,
    told: &mut String,
) -> Done {
    let before = bookkept(told, text_of_book(alloc, book))?;
    let next = prepared(alloc, book, call, plan, told)?;
    let shown = tell_ready(alloc, book, &next, before.as_str(), told);
    if shown.is_ok() {
        book.commit(next);
    } else {
        drop(next);
    }
    shown
}

/// Replays the history of a book from a picture.
pub(crate) fn replay_from<F: PriceFn>(
    alloc: Global,
    book: &Book<F>,
    start: &Picture,
    told: &mut String,
) -> Done {
    told.push_str("replay")?;
    let made = replay(alloc, start, book.history(), book.tariff());
    match unless(ReplayFault::Memory, made)? {
        Ok(picture) => {
            let text = bookkept(told, text_of(alloc, &picture))?;
            write!(told, ": {text}")
        }
        Err(fault) => write!(told, ": {fault}"),
    }
}
