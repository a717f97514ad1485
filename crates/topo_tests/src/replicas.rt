//! Versions that readers hold while a book goes on, and a book whose calls are made ready first
//! beside one that makes the same calls in place.

use crate::generated::{ENTRIES, Numbers, next_call};
use crate::stories::{Story, tell_at};
use std::alloc::{AllocError, Global};
use std::process::Abort;
use std::sync::Arc;
use std::sync::atomic::AtomicU32;
use std::test::Fail;
use topo_book::{Book, Next};
use topo_core::calls::Call;
use topo_core::limits::Limits;
use topo_core::rows::Rows;
use topo_picture::Picture;
use topo_price::tariff::PriceFn;
use topo_test_support::books;
use topo_test_support::lawful::shows;
use topo_test_support::prices::table_of;

/// A version that a reader holds, with the rows that it showed when it was taken.
#[derive(Drop)]
struct Held {
    picture: Arc<Picture>,
    rows: Rows,
}

/// Takes a share of a version.
fn hold(alloc: Global, held: &mut Vec<Held>, picture: &Arc<Picture>) -> Result<(), AllocError> {
    let picture = Arc::try_clone(picture)?;
    let rows = picture.rows(alloc)?;
    held.push(Held { picture, rows })?;
    Ok(())
}

/// Whether each version shows the rows that it showed.
fn are_as_they_were(alloc: Global, held: &[Held]) -> Result<bool, AllocError> {
    for version in held {
        if !shows(alloc, &version.picture, &version.rows)? {
            return Ok(false);
        }
    }
    Ok(true)
}

/// Writes the reply of a call that is ready. Its version is held.
fn hold_next(
    alloc: Global,
    held: &mut Vec<Held>,
    next: &Next,
    text: &mut String,
) -> Result<(), AllocError> {
    if let Some(picture) = next.shared() {
        hold(alloc, held, picture)?;
    }
    write!(text, "{:?} ", next.entry().reply)
}

/// Makes a call ready, drops that, makes it ready again and enters it. Its version is held, and its
/// reply is written.
fn enter<F: PriceFn>(
    alloc: Global,
    book: &mut Book<F>,
    held: &mut Vec<Held>,
    call: Call,
    text: &mut String,
) -> Result<(), AllocError> {
    drop(book.prepare(alloc, 0, call)?);
    let next = book.prepare(alloc, 0, call)?;
    let told = hold_next(alloc, held, &next, text);
    book.commit(next);
    told
}

/// Makes a call in place, and writes its reply.
fn make<F: PriceFn>(
    alloc: Global,
    book: &mut Book<F>,
    call: Call,
    text: &mut String,
) -> Result<(), AllocError> {
    let reply = books::make(alloc, book, 0, call)?;
    let told = write!(text, "{reply:?} ");
    drop(reply);
    told
}

/// Writes a call, and the rows that the picture then has.
fn write_rows(
    alloc: Global,
    picture: &Picture,
    call: Call,
    text: &mut String,
) -> Result<(), AllocError> {
    let rows = picture.rows(alloc)?;
    let told = writeln!(text, "{call:?} {rows:?}");
    drop(rows);
    told
}

/// A run of calls, and its text: a line for each call, with the reply and the rows, and the
/// history. Either all calls are made in place, and no version is held; or every fifth is, the
/// others are made ready first, and of the versions so many are held.
#[derive(Drop)]
struct Run {
    most: Option<usize>,
    text: String,
}

impl Run {
    /// Makes one call, in place or not. The versions that are held stay as they were. Where they are more than they
    /// may be, the one held longest is dropped.
    fn go_on<F: PriceFn>(
        &mut self,
        rt: &impl Abort,
        alloc: Global,
        book: &mut Book<F>,
        held: &mut Vec<Held>,
        turn: (Call, bool),
    ) -> Result<(), AllocError> {
        let (call, in_place) = turn;
        let Some(most) = self.most else {
            make(alloc, book, call, &mut self.text)?;
            return write_rows(alloc, book.picture(), call, &mut self.text);
        };
        if in_place {
            make(alloc, book, call, &mut self.text)?;
            hold(alloc, held, book.shared_picture())?;
        } else {
            enter(alloc, book, held, call, &mut self.text)?;
        }
        write_rows(alloc, book.picture(), call, &mut self.text)?;
        assert!(rt;
            are_as_they_were(alloc, held.as_slice())?,
            "{most} held: {call:?}"
        );
        if held.len() > most {
            drop(held.remove(0));
        }
        Ok(())
    }

    /// Makes the calls one after the other. Each version is held until as many came after it.
    fn go_on_often<F: PriceFn>(
        &mut self,
        rt: &impl Abort,
        alloc: Global,
        book: &mut Book<F>,
        held: &mut Vec<Held>,
    ) -> Result<(), AllocError> {
        let mut numbers = Numbers { state: 11 };
        for turn in 0..150 {
            let call = next_call(alloc, &mut numbers, book.picture(), None)?;
            self.go_on(rt, alloc, book, held, (call, turn % 5 == 4))?;
        }
        write!(self.text, "{:?}", book.history())
    }
}

impl Story for Run {
    fn tell<F: PriceFn + Drop, R: Abort>(
        &mut self,
        rt: &R,
        alloc: Global,
        book: &mut Book<F>,
        _asked: &AtomicU32,
    ) -> Result<(), Fail> {
        let mut held = Vec::new(alloc);
        let told = self.go_on_often(rt, alloc, book, &mut held);
        drop(held);
        Ok(told?)
    }
}

/// The text of a run.
fn text_of<R: Abort>(rt: &R, alloc: Global, most: Option<usize>) -> Result<String, Fail> {
    let table = table_of(Some(1), ENTRIES)?;
    let text = String::new(alloc);
    let mut run = Run { most, text };
    let start = Picture::seed(alloc, Limits::new(40, 1_000, 2_000)?);
    let told = tell_at(rt, alloc, start, &table, &mut run);
    let Run { most: _, text } = run;
    told?;
    Ok(text)
}

/// The text of a run with versions that are held is that of the run without.
fn is_alike(rt: &impl Abort, most: usize, told: &str, wanted: &str) {
    let alike = told
        .lines()
        .zip(wanted.lines())
        .take_while(|(told, wanted)| told == wanted)
        .count();
    let line = told.lines().nth(alike);
    assert!(rt;
        told == wanted,
        "{most} held, after {alike} calls: {line:?}"
    );
}

#[test]
fn versions_stay_as_they_were(rt: HostRuntime) -> Result<(), Fail> {
    let wanted = text_of(&rt, rt.alloc(), None)?;
    for most in [0, 1, 10, 100] {
        let told = text_of(&rt, rt.alloc(), Some(most))?;
        is_alike(&rt, most, told.as_str(), wanted.as_str());
    }
    Ok(())
}
