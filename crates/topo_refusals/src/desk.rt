//! Rows for a picture, and for a book that begins with it.

use crate::books::{enter, enter_ready, replay_from, text_of_book};
use crate::judge::{Case, Done, Runtime, bookkept, unless};
use crate::pictures::{apply, number, plan_of, text_of};
use std::alloc::{AllocError, Global};
use std::sync::Arc;
use topo_book::Book;
use topo_core::calls::{Call, Refusal};
use topo_core::rows::Rows;
use topo_dual::Frozen;
use topo_picture::Picture;
use topo_price::tariff::{PriceFn, Tariff};
use topo_route::plan::Plan;
use topo_rows::LoadFault;

/// What is called. With what a call makes the next ones go on.
#[derive(Clone, Copy)]
pub(crate) enum Row {
    Load,
    Copy,
    GiveRows,
    Number,
    /// The picture is frozen, and the frozen one gives its rows.
    Freeze,
    /// A route is looked for on the frozen picture.
    Search(u32, u32),
    /// An edge of kind 0 takes the route that was found.
    Apply(u32, u32),
    Grow(u32, u32, u32),
    Delete(u32),
    /// A book begins with the picture. What follows is about it.
    Begin,
    /// A call is carried out and entered at once, or made ready first, an insertion by the plan if
    /// there is one and it is to be used.
    Make(Call),
    Planned(Call),
    Ready(Call),
    ReadyPlanned(Call),
    /// The history is replayed from the picture that the book began with, or from that of now.
    Replay,
    ReplayFromNow,
}

/// Rows to load, the picture that they are, what its calls have made, and then a book.
#[derive(Drop)]
pub(crate) struct Desk<F: PriceFn + Drop> {
    pub tariff: Arc<Tariff<F>>,
    pub rows: Rows,
    pub picture: Picture,
    pub frozen: Frozen,
    pub plan: Option<Plan>,
    pub book: Option<Book<F>>,
}

/// Makes the call of a row for a book.
fn make_of_book<F: PriceFn>(
    alloc: Global,
    book: &mut Book<F>,
    plan: Option<&Plan>,
    row: Row,
    told: &mut String,
) -> Done {
    match row {
        Row::Make(call) => enter(alloc, book, call, None, told),
        Row::Planned(call) => enter(alloc, book, call, plan, told),
        Row::Ready(call) => enter_ready(alloc, book, call, None, told),
        Row::ReadyPlanned(call) => enter_ready(alloc, book, call, plan, told),
        Row::Replay => replay_from(alloc, book, book.start(), told),
        _ => replay_from(alloc, book, book.picture(), told),
    }
}

impl<F: PriceFn + Drop> Desk<F> {
    /// Makes the call of a row that reads the picture or replaces it.
    fn read(&mut self, alloc: Global, row: Row, told: &mut String) -> Done {
        match row {
            Row::Load => {
                told.push_str("Picture::load")?;
                let made = Picture::load(alloc, self.picture.limits(), &self.rows);
                match unless(LoadFault::Memory, made)? {
                    Ok(picture) => self.picture = picture,
                    Err(fault) => write!(told, ": {fault:?}")?,
                }
                write!(told, ": {:?}", self.picture.counts())
            }
            Row::Copy => {
                told.push_str("Picture::copy")?;
                self.picture = self.picture.copy(alloc)?;
                Ok(())
            }
            Row::GiveRows => {
                told.push_str("Picture::rows")?;
                write!(told, ": {:?}", self.picture.rows(alloc)?)
            }
            Row::Freeze => {
                told.push_str("Picture::freeze")?;
                self.frozen = self.picture.freeze(alloc)?;
                told.clear();
                told.push_str("Frozen::rows")?;
                write!(told, ": {:?}", self.frozen.rows(alloc)?)
            }
            Row::Search(u, v) => {
                self.plan = plan_of(alloc, &self.frozen, &self.tariff, (u, v), told)?;
                Ok(())
            }
            _ => number(alloc, &self.picture, told),
        }
    }

    /// Makes the call of a row that changes the picture, or begins a book with it.
    fn change(&mut self, alloc: Global, row: Row, told: &mut String) -> Done {
        match (row, &self.plan) {
            (Row::Apply(u, v), Some(plan)) => {
                apply(alloc, &mut self.picture, &self.tariff, (u, v), plan, told)
            }
            (Row::Grow(u, position, kind), _) => {
                told.push_str("Picture::grow")?;
                let made = self.picture.grow(alloc, u, position, kind);
                write!(told, ": {:?}", unless(Refusal::Memory, made)?)
            }
            (Row::Delete(edge), _) => {
                let answer = self.picture.delete(edge);
                write!(told, "Picture::delete {edge}: {answer:?}")
            }
            _ => {
                told.push_str("Book::new")?;
                let share = Arc::try_clone(&self.tariff)?;
                let start = bookkept(told, self.picture.copy(alloc))?;
                self.book = Some(Book::new(alloc, start, share)?);
                Ok(())
            }
        }
    }
}

impl<F: PriceFn + Drop> Case for Desk<F> {
    type Row = Row;

    /// The book, or the picture if there is none.
    fn look(&mut self, alloc: Global) -> Result<String, AllocError> {
        match &self.book {
            Some(book) => text_of_book(alloc, book),
            None => text_of(alloc, &self.picture),
        }
    }

    fn make<R: Runtime>(&mut self, rt: &R, row: &Row, told: &mut String) -> Done {
        let alloc = rt.alloc();
        if let Some(book) = &mut self.book {
            return make_of_book(alloc, book, self.plan.as_ref(), *row, told);
        }
        match *row {
            Row::Apply(..) | Row::Grow(..) | Row::Delete(_) | Row::Begin => {
                self.change(alloc, *row, told)
            }
            row => self.read(alloc, row, told),
        }
    }
}
