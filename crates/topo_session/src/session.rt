//! A session with one picture.

ghost use Rattle.std.specs.Prelude.{◌≡◌, ◌++◌, ◌∷◌, [], IfErr, IfOk, OnErr, OnOk};
ghost use Rattle.std.specs.Prelude.{◌≢◌, is_some};
ghost use Rattle.topo_core.specs.declared.calls.Call.TheVariants.{Delete, Grow, Insert};
ghost use Rattle.topo_core.specs.declared.calls.Refusal.TheVariants.{Memory};
ghost use Rattle.topo_core.specs.declared.calls.Reply.TheVariants.{Refused};
ghost use Rattle.topo_core.specs.Picture.{edge_row};
ghost use Rattle.topo_check.specs.Replays.{IsUntrue};
ghost use Rattle.topo_picture.specs.Faces.{IsFaceOf};
ghost use Rattle.topo_picture.specs.Totals.{AreCountsOf};
ghost use Rattle.topo_book.specs.Books.{IsBook};
ghost use Rattle.topo_price.specs.Prices.{IsPromise, prices_of};
ghost use Rattle.topo_io.specs.Settings.{AnswersPrices, IsSound, IsUnsound, price_table};
ghost use Rattle.topo_io.specs.Settings.{start_of};
ghost use Rattle.topo_renumbering.specs.Renumbering.{IsRenumbered};
ghost use Rattle.topo_session.specs.Questions.{edge_asked, vertex_asked};
ghost use Rattle.topo_session.specs.Standings.{AnswersCall, IsOpened, IsReopened, IsRouteReply};
ghost use Rattle.topo_session.specs.Standings.{IsUndone, Renumbers, begins_with, report_so_far};
ghost use Rattle.topo_session.specs.Standings.{undone};

use crate::edges::{EdgeAnswer, edge_found};
use crate::vertices::{VertexAnswer, vertex_asked};
use std::alloc::{AllocError, Global};
use std::marker::Model;
use std::mem;
use std::sync::Arc;
use topo_book::Book;
use topo_check::replay_report;
use topo_core::calls::{Call, Entry, Reply};
use topo_core::darts::Dart;
use topo_core::listed::Listed;
use topo_io::settings::{Setting, price_of_kind, validate};
use topo_io::{FromTable, RunFault};
use topo_picture::{Counts, Picture};
use topo_price::tariff::{PriceFn, Tariff};
use topo_renumbering::{Renumbered, close_up};
use topo_rows::LoadFault;
use topo_script::{LimitRows, Opening, Report};

/// A session: one picture with its history, at the prices and under the limits that it was opened
/// with.
pub struct Session<F: PriceFn> {
    limits: LimitRows,
    prices: Listed<Option<u32>>,
    book: Book<F>,
}

// Written out, so that it is proved once: a derived one is proved anew in each function that lets
// such a value go.
impl<F: PriceFn + Drop> Drop for Session<F> {
    fn drop(self) {
        let Session {
            limits: _,
            prices,
            book,
        } = self;
        drop(prices);
        drop(book);
    }
}

impl<F: PriceFn> Model for Session<F> {
    ghost use Rattle.topo_session.specs.Standings.{Standing, standing_of};
    ghost use Rattle.topo_io.specs.Settings.{AnswersPrices};

    ghost Value = { Standing };

    ghost view = { λ s. standing_of s.limits s.prices s.book };

    ghost invariant = { λ s. AnswersPrices (F.may_return s.book.tariff) s.prices };
}

/// What entries that were taken back led from: the ids that are given next, and the number of
/// vertices.
#[derive(Drop, Debug)]
pub struct Undone {
    pub crossings: u32,
    pub edges: u32,
    /// How many entries were taken back.
    pub undone: u32,
    pub vertices: u32,
}

/// The prices of all kinds and the picture that an opening sets.
fn set(alloc: Global, opening: &Opening) -> Result<Setting, RunFault>
    ensures prices { IfOk result (λ made. made.table ≡ price_table opening.now.prices) }
    ensures sound { IfOk result
        (λ made. IsSound opening.now.limits opening.now.prices opening.now.start
        made.start.limits) }
    ensures rows { IfOk result (λ made. made.start.rows ≡ start_of opening.now.start) }
    ensures fault { IfErr result
        (IsUnsound opening.now.limits opening.now.prices opening.now.start) }
{
    let prices = opening.prices.as_slice();
    validate(alloc, opening.limits, prices, opening.start.as_ref())
}

/// The book of a session.
fn begin<F: PriceFn + Drop>(alloc: Global, start: Picture, ask: F) -> Result<Book<F>, AllocError>
    requires callable { F.is_callable ask }
    requires promise { IsPromise (F.may_return ask) }
    ensures tariff { IfOk result (λ book. book.tariff ≡ ask) }
    ensures start { IfOk result (λ book. book.start ≡ start) }
    ensures history { IfOk result (λ book. book.history ≡ []) }
    ensures picture { IfOk result (λ book. book.picture ≡ start) }
{
    let tariff = Arc::new(alloc, Tariff::new(ask))?;
    Book::new(alloc, start, tariff)
}

impl<F: FromTable> Session<F> {
    /// The session that an opening opens, or the first fault of its limits, its prices and its
    /// start.
    pub fn open(alloc: Global, opening: Opening) -> Result<Self, RunFault>
        ensures opened { IfOk result (IsOpened opening) }
        ensures fault { IfErr result (IsUnsound opening.limits opening.prices opening.start) }
    {
        let Setting {
            table,
            start: picture,
        } = set(alloc, &opening)?;
        let Opening {
            limits,
            prices,
            start,
        } = opening;
        drop(start);
        match begin(alloc, picture, F::from_table(table)) {
            Ok(book) => Ok(Session {
                limits,
                prices,
                book,
            }),
            Err(_) => Err(RunFault::Memory),
        }
    }

    /// The session that goes on from a report that is true, or the report's first fault.
    pub fn reopen(alloc: Global, report: Report) -> Result<Self, RunFault>
        ensures reopened { IfOk result (IsReopened report) }
        ensures fault { IfErr result (IsUntrue report) }
    {
        let prices = report.prices.as_slice();
        let Setting { table, start } = validate(alloc, report.limits, prices, Some(&report.start))?;
        let tariff = Tariff::new(F::from_table(table));
        let picture = replay_report(alloc, &report, &start, &tariff)?;
        let Ok(rows) = picture.rows(alloc) else {
            return Err(RunFault::Memory);
        };
        if !rows.equals(&report.picture) {
            return Err(RunFault::WrongPicture);
        }
        drop(rows);
        match go_on(alloc, report, start, picture, tariff) {
            Ok(session) => Ok(session),
            Err(_) => Err(RunFault::Memory),
        }
    }
}

/// The session that goes on from a report, whose history leads from this start to this picture.
fn go_on<F: PriceFn + Drop>(
    alloc: Global,
    report: Report,
    start: Picture,
    picture: Picture,
    tariff: Tariff<F>,
) -> Result<Session<F>, AllocError>
    requires prices { AnswersPrices (F.may_return tariff) report.prices }
    requires book { IsBook (prices_of (F.may_return tariff)) start report.history picture }
    ensures { IfOk result (λ s. s ≡ record {
      numbers = report.limits;
      prices = report.prices;
      limits = picture.limits;
      start = start.rows;
      history = report.history;
      picture = picture.rows;
    }) }
{
    let tariff = Arc::new(alloc, tariff)?;
    let Report {
        limits,
        prices,
        start: rows,
        history,
        picture: last_rows,
    } = report;
    drop(rows);
    drop(last_rows);
    Ok(Session {
        limits,
        prices,
        book: Book::resume(alloc, start, history.into_vec(), picture, tariff)?,
    })
}

impl<F: PriceFn + Drop> Session<F> {
    /// Takes the last entries of the history back, so many, refused ones too: the picture is the one
    /// after those that are left, with its ids. None where there are not so many.
    pub fn undo(&mut self, alloc: Global, entries: u32) -> Result<Option<Undone>, AllocError>
        ensures undone { IfOk result (IsUndone entries self.old self.new) }
        ensures unchanged { OnErr result (self.new ≡ self.old) }
    {
        let kept = self.book.history().len();
        if kept < entries as usize {
            return Ok(None);
        }
        self.book.take_back(alloc, kept - entries as usize)?;
        Ok(Some(self.undone(entries)))
    }

    /// What is told of so many entries taken back.
    fn undone(&self, entries: u32) -> Undone
        ensures { result ≡ undone entries self.now.picture }
    {
        let rows = self.book.picture().kept_rows();
        Undone {
            crossings: rows.next_crossing(),
            edges: rows.next_edge(),
            undone: entries,
            vertices: self.book.picture().counts().vertices,
        }
    }

    /// Lets the picture of now be the start, and the history empty.
    pub fn forget(&mut self, alloc: Global) -> Result<(), AllocError>
        ensures forgotten { OnOk result (self.new ≡ begins_with self.old.picture self.old) }
        ensures unchanged { OnErr result (self.new ≡ self.old) }
    {
        let start = self.book.picture().copy(alloc)?;
        self.begin_with(alloc, start)
    }

    /// Closes the ids up from 0, in their order, and lets the picture be the start, and the history
    /// empty. The ids of before stand at the places that are the ids of now. No picture that was
    /// tried was ever refused; that none can be is not proved.
    pub fn renumber(&mut self, alloc: Global) -> Result<Renumbered, LoadFault>
        ensures renumbered { IfOk result (λ ids. Renumbers ids self.old self.new) }
        ensures unchanged { OnErr result (self.new ≡ self.old) }
    {
        let (ids, start) = closed_picture(alloc, self.book.picture())?;
        match self.begin_with(alloc, start) {
            Ok(()) => Ok(ids),
            Err(_) => Err(LoadFault::Memory),
        }
    }

    /// Begins anew with a picture under the limits of before, at the prices of before.
    fn begin_with(&mut self, alloc: Global, start: Picture) -> Result<(), AllocError>
        requires { start.limits ≡ self.old.limits }
        ensures begun { OnOk result (self.new ≡ begins_with start.rows self.old) }
        ensures unchanged { OnErr result (self.new ≡ self.old) }
    {
        let tariff = Arc::try_clone(self.book.shared_tariff())?;
        let book = Book::new(alloc, start, tariff)?;
        let before = mem::replace(&mut self.book, book);
        drop(before);
        Ok(())
    }
}

/// A picture with its ids closed up, and the ids of before.
fn closed_picture(alloc: Global, picture: &Picture) -> Result<(Renumbered, Picture), LoadFault>
    ensures renumbered { IfOk result
        (λ made. IsRenumbered picture.now.rows made.0 made.1.rows) }
    ensures limits { IfOk result (λ made. made.1.limits ≡ picture.now.limits) }
{
    let Ok(rows) = picture.rows(alloc) else {
        return Err(LoadFault::Memory);
    };
    let Ok(found) = close_up(alloc, &rows) else {
        return Err(LoadFault::Memory);
    };
    drop(rows);
    // No picture has an id in a list of which it has no row.
    let Some((ids, rows)) = found else {
        return Err(LoadFault::BadPath);
    };
    let picture = Picture::load(alloc, picture.limits(), &rows)?;
    Ok((ids, picture))
}

impl<F: PriceFn> Session<F> {
    /// Puts a new vertex on a new edge of this kind into the corner at `position` of `u`, or
    /// answers the first reason why not. Both are entered.
    pub fn grow(
        &mut self,
        alloc: Global,
        caller: u32,
        u: u32,
        position: u32,
        kind: u32,
    ) -> Result<Reply, AllocError>
        ensures { AnswersCall caller (Grow u position kind) self.old self.new result }
    {
        self.book.grow(alloc, caller, u, position, kind)
    }

    /// Puts a new edge of this kind from `u` to `v` along the first of the least routes, or answers
    /// the first reason why not. Both are entered.
    pub fn insert(
        &mut self,
        alloc: Global,
        caller: u32,
        u: u32,
        v: u32,
        kind: u32,
    ) -> Result<Reply, AllocError>
        ensures { AnswersCall caller (Insert u v kind) self.old self.new result }
    {
        self.book.insert(alloc, caller, u, v, kind)
    }

    /// Takes an edge out, or answers the first reason why not. Both are entered.
    pub fn delete(&mut self, alloc: Global, caller: u32, edge: u32) -> Result<Reply, AllocError>
        ensures { AnswersCall caller (Delete edge) self.old self.new result }
    {
        self.book.delete(alloc, caller, edge)
    }

    /// The reply that an insertion of an edge of kind 0 from `u` to `v` would have now. It is not
    /// carried out, and not entered.
    pub fn route(&mut self, alloc: Global, u: u32, v: u32) -> Result<Reply, AllocError>
        ensures due { IfOk result (IsRouteReply self.old u v) }
        ensures no_memory { IfOk result (λ reply. reply ≢ Refused Memory) }
        ensures unchanged { self.new ≡ self.old }
    {
        self.book.due_reply(alloc, Call::Insert { u, v, kind: 0 })
    }

    /// How large the picture is.
    pub fn counts(&self) -> Counts
        ensures { AreCountsOf self.now.picture result }
    {
        self.book.picture().counts()
    }

    /// What is to be known of an edge; none where there is no such edge.
    pub fn edge(&self, alloc: Global, edge: u32) -> Result<Option<EdgeAnswer>, AllocError>
        ensures { IfOk result
            (λ found. found ≡ edge_asked self.now.prices self.now.picture edge) }
    {
        let rows = self.book.picture().kept_rows();
        let Some(edge) = rows.edge(edge) else {
            return Ok(None);
        };
        let price = price_of_kind(self.prices.as_slice(), edge.kind as usize);
        let found = edge_found(alloc, rows, edge, price)?;
        Ok(Some(found))
    }

    /// The edges round a vertex; none where there is no such vertex.
    pub fn vertex(&self, alloc: Global, vertex: u32) -> Result<Option<VertexAnswer>, AllocError>
        ensures { IfOk result (λ found. found ≡ vertex_asked self.now.picture vertex) }
    {
        vertex_asked(alloc, self.book.picture().kept_rows(), vertex)
    }

    /// The darts of the face on the left of a dart, from it on, each followed by the next dart along
    /// the face; none where there is no such dart.
    pub fn face(&self, alloc: Global, dart: Dart) -> Result<Option<Listed<Dart>>, AllocError>
        ensures { IfOk result (IsFaceOf self.now.picture dart) }
    {
        self.book.picture().face(alloc, dart)
    }

    /// Whether there is such an edge.
    pub fn has_edge(&self, edge: u32) -> bool
        ensures { result ≡ is_some (edge_row self.now.picture edge) }
    {
        self.book.picture().kept_rows().edge(edge).is_some()
    }

    /// The picture of the session.
    pub fn picture(&self) -> &Picture
        ensures rows { result.now.rows ≡ self.now.picture }
        ensures limits { result.now.limits ≡ self.now.limits }
    {
        self.book.picture()
    }

    /// The report so far, as a copy.
    pub fn report(&self, alloc: Global) -> Result<Report, AllocError>
        ensures { IfOk result (λ report. report ≡ report_so_far self.now) }
    {
        let start = self.book.start().rows(alloc)?;
        let picture = self.book.picture().rows(alloc)?;
        let history = copy_entries(alloc, self.book.history())?;
        let prices = Vec::from_slice(alloc, self.prices.as_slice())?;
        Ok(Report {
            limits: self.limits,
            prices: Listed::from_vec(prices),
            start,
            history,
            picture,
        })
    }
}

/// A copy of entries.
fn copy_entries(alloc: Global, entries: &[Entry]) -> Result<Listed<Entry>, AllocError>
    ensures { IfOk result (λ copies. copies ≡ entries.now) }
{
    let mut copies = Vec::new(alloc);
    for entry in entries {
        copies.push(entry.copy(alloc)?)?;
    }
    Ok(Listed::from_vec(copies))
}
