//! What is printed at the end.

use crate::EDITORS;
use crate::editing::LOOKS;
use anyhow::Result;
use std::alloc::Global;
use topo_book::{Book, replay};
use topo_core::calls::{Entry, Reply};
use topo_picture::Picture;
use topo_price::tariff::PriceFn;
use topo_service::close::CloseFault;
use topo_versions::ServiceBrand;

/// How the service ended: with a book, whose history is that of one thread, or with a fault.
pub(crate) fn tell<F: PriceFn + Drop, K: ServiceBrand<F>, R: Print + AllocGlobal>(
    rt: &R,
    served: Result<()>,
    end: &Result<Book<F>, CloseFault<F, K>>,
) -> Result<()> {
    served?;
    match end {
        Ok(book) => tell_book(rt, rt.alloc(), book),
        Err(end) => Err(end.fault.into()),
    }
}

/// The calls of each editor, the whole history, what the viewer saw, and the size of the picture.
fn tell_book<F: PriceFn + Drop, R: Print>(rt: &R, alloc: Global, book: &Book<F>) -> Result<()> {
    for editor in 0..EDITORS {
        tell_editor(rt, book.history(), editor)?;
    }
    tell_history(rt, alloc, book)?;
    println!(rt; "viewer: {LOOKS} views, none earlier than the one before")?;
    tell_picture(rt, book.picture())
}

/// The calls of an editor by their replies.
fn tell_editor<R: Print>(rt: &R, history: &[Entry], editor: u32) -> Result<()> {
    let grown = count(history, editor, Sort::Grown);
    let inserted = count(history, editor, Sort::Inserted);
    let deleted = count(history, editor, Sort::Deleted);
    let refused = count(history, editor, Sort::Refused);
    println!(rt;
        "editor {editor}: {grown} grown, {inserted} inserted, {deleted} deleted, {refused} refused"
    )?;
    Ok(())
}

/// How many calls there were, and whether a single thread that makes them all again gets the same
/// replies.
fn tell_history<F: PriceFn + Drop, R: Print>(rt: &R, alloc: Global, book: &Book<F>) -> Result<()> {
    let history = book.history();
    let again = replay(alloc, book.start(), history, book.tariff()).is_ok();
    println!(rt;
        "history: {} calls, the same by one thread: {again}",
        history.len()
    )?;
    Ok(())
}

/// The size of a picture.
fn tell_picture<R: Print>(rt: &R, picture: &Picture) -> Result<()> {
    let counts = picture.counts();
    println!(rt;
        "picture: {} vertices, {} edges",
        counts.vertices, counts.edges
    )?;
    Ok(())
}

/// The sorts of replies.
#[derive(Clone, Copy, PartialEq, Eq)]
enum Sort {
    Grown,
    Inserted,
    Deleted,
    Refused,
}

/// The sort of a reply.
fn sort_of(reply: &Reply) -> Sort {
    match reply {
        Reply::Grown { .. } => Sort::Grown,
        Reply::Inserted(_) => Sort::Inserted,
        Reply::Deleted(_) => Sort::Deleted,
        Reply::Refused(_) => Sort::Refused,
    }
}

/// How many calls of a caller were answered so.
fn count(history: &[Entry], caller: u32, sort: Sort) -> usize {
    let entries = history.iter();
    entries
        .filter(|entry| entry.caller == caller && sort_of(&entry.reply) == sort)
        .count()
}
