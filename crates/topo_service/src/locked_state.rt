//! What lies under the lock.

ghost use Rattle.std.specs.Prelude.{◌≡◌, ◌≢◌, ◌+◌, ◌<◌, ◌^◌, ◌∷◌, ◌++◌, [], length, is_ok, is_some};
ghost use Rattle.std.specs.Prelude.{if◌then◌else◌, IfOk, IfSome, OnOk, OnErr, Some, true};
ghost use Rattle.topo_core.specs.History.{IsVersion, is_accepted, versions};
ghost use Rattle.topo_core.specs.Routes.{IsFirst};
ghost use Rattle.topo_core.specs.Steps.{Step};
ghost use Rattle.topo_core.specs.declared.calls.Refusal.TheVariants.{Memory};
ghost use Rattle.topo_core.specs.declared.calls.Reply.TheVariants.{Refused};
ghost use Rattle.topo_book.specs.Books.{IsLegalBook, IsSameBook, IsUnchanged, PreparesCall};
ghost use Rattle.topo_book.specs.RouteSources.{IsSourceIn};
ghost use Rattle.topo_price.specs.Prices.{prices_of};
ghost use Rattle.topo_versions.specs.Names.{prices_named};
ghost use Rattle.topo_versions.specs.Versions.{IsVersionFrom};
ghost use Rattle.topo_service.specs.Passes.{entry_of};

use crate::planned::found::FoundRoute;
use crate::reply_pair::ReplyPair;
use std::alloc::{AllocError, Global};
use std::marker::Model;
use std::sync::ledger::{Book as Tally, Share};
use std::sync::{Arc, Wait};
use topo_book::{Book, Next, RouteSource};
use topo_core::calls::{Call, Entry};
use topo_price::tariff::PriceFn;
use topo_route::plan::PricedRoute;
use topo_versions::{
    LogLength, LogPrefix, ServiceBrand, VersionReader, VersionWriter, wait_forever,
};

/// The book, the number of its calls, and the versions. Contracts see the book.
///
/// At all times the book begins with the start and has the prices that K names, the ledger's total
/// is the length of the history, and what is published are the accepted entries of the history.
pub struct LockedState<F: PriceFn, K: ServiceBrand<F>, W: VersionWriter<F, K>> {
    book: Book<F>,
    calls: Tally<K>,
    log_length: LogLength<K>,
    // The accepted entries.
    prefix: LogPrefix<F, K>,
    writer: W,
    // Whether the route of the last call was known when it came.
    was_known: bool,
}

impl<F: PriceFn, K: ServiceBrand<F>, W: VersionWriter<F, K>> Model for LockedState<F, K, W> {
    ghost use Rattle.std.specs.Prelude.{◌≡◌, length, Some};
    ghost use Rattle.topo_core.specs.History.{versions};
    ghost use Rattle.topo_book.specs.Books.{BookState};

    ghost Value = { BookState F };

    ghost view = { λ d. d.book };

    ghost invariant = { λ d. (d.book.start ≡ K.start) × (K.closure ≡ Some d.book.tariff)
        × (d.calls.total ≡ length d.book.history)
        × (d.prefix ≡ versions d.book.history)
        × (W.published d.writer ≡ Some (versions d.book.history)) };
}

/// Makes a call ready, with what is known of its route.
fn prepare_call<F: PriceFn>(
    book: &mut Book<F>,
    alloc: Global,
    caller: u32,
    call: Call,
    source: RouteSource<PricedRoute>,
) -> Result<Next, AllocError>
    requires { IsSourceIn F.may_return book.old call source }
    ensures prepared { PreparesCall F.may_return caller call book.old book.new result }
    ensures legal { IsLegalBook F.may_return book.old }
    ensures room { length book.old.history + 1 < 2 ^ 64 }
{
    // For the proof: what the type keeps.
    let _more = book.history().len() + 1;
    book.prepare_from(alloc, caller, call, source)
}

/// Adds a call that was made ready to the accepted entries, and publishes the version after it,
/// where it is accepted. Out of memory, nothing has changed.
fn show<F: PriceFn, K: ServiceBrand<F>, W: VersionWriter<F, K>, R: Wait>(
    rt: &R,
    log_length: &LogLength<K>,
    prefix: &mut LogPrefix<F, K>,
    writer: &mut W,
    next: &Next,
) -> Result<(), AllocError>
    requires room { length prefix.old + 1 < 2 ^ 64 }
    requires whole { W.published writer.old ≡ Some prefix.old }
    requires follows { IfSome next.now.picture (λ picture. IsVersionFrom
        (prices_named F.may_return K.closure) K.start (prefix.old ++ next.now.entry ∷ []) picture) }
    ensures prefix { OnOk result
        (prefix.new ≡ (if is_accepted next.now.entry.reply then prefix.old ++ next.now.entry
        ∷ [] else prefix.old)) }
    ensures published { OnOk result (W.published writer.new ≡ Some prefix.new) }
    ensures err { OnErr result
        ((prefix.new ≡ prefix.old) × (W.published writer.new ≡ W.published writer.old)) }
{
    let Some(picture) = next.shared() else {
        return Ok(());
    };
    let share = Arc::try_clone(picture)?;
    if !prefix.add(log_length, next.entry()) {
        wait_forever(rt);
    }
    writer.publish(rt, prefix, share);
    Ok(())
}

/// What a pass wants carried out: a call, where the route of an insertion comes from, and whether
/// the reply is to be copied once more, for who asks for it.
#[derive(Drop)]
pub(crate) struct Demand<'a, F: PriceFn, K: ServiceBrand<F>> {
    pub call: Call,
    pub source: RouteSource<'a, FoundRoute<F, K>>,
    pub is_asked: bool,
}

impl<F: PriceFn, K: ServiceBrand<F>, W: VersionWriter<F, K>> LockedState<F, K, W> {
    pub(crate) fn new(
        book: Book<F>,
        calls: Tally<K>,
        log_length: LogLength<K>,
        prefix: LogPrefix<F, K>,
        writer: W,
    ) -> LockedState<F, K, W>
        requires book { (book.start ≡ K.start) × (book.history ≡ []) }
        requires prices { K.closure ≡ Some book.tariff }
        requires empty { (calls.total ≡ 0) × (prefix ≡ []) × (W.published writer ≡ Some []) }
        ensures { result ≡ book }
    {
        LockedState {
            book,
            calls,
            log_length,
            prefix,
            writer,
            was_known: false,
        }
    }

    /// Whether the route of the last call was known when it came: nothing was searched for it.
    pub(crate) fn was_known(&self) -> bool {
        self.was_known
    }

    /// Whether the route is known to be the first between these ends on the picture of now: it was
    /// found on the version that is published, or nothing that its search has seen was changed
    /// since.
    pub(crate) fn stands(&self, found: &FoundRoute<F, K>, u: u32, v: u32) -> bool
        ensures { result ≡ true → IsFirst (prices_of (F.may_return self.now.tariff))
            self.now.picture.rows u v found.now.route found.now.price }
    {
        // For the proof: what the type keeps.
        self.book.history();
        found.first();
        found.is_between(u, v)
            && (found.is_of(&self.prefix) || found.outlives(&self.book, &self.prefix))
    }

    /// What is known of the route of a call now, by what the caller hands over: a route that was
    /// found counts only while it stands.
    fn known<'a>(
        &self,
        call: Call,
        source: RouteSource<'a, FoundRoute<F, K>>,
    ) -> RouteSource<'a, PricedRoute>
        ensures { IsSourceIn F.may_return self.now call result }
    {
        match (call, source) {
            (Call::Insert { .. }, RouteSource::Plan(plan)) => RouteSource::Plan(plan),
            (Call::Insert { u, v, .. }, RouteSource::Found(found)) if self.stands(found, u, v) => {
                RouteSource::Found(found.first())
            }
            _ => RouteSource::Search,
        }
    }

    /// Makes one call. An accepted one is published before it is entered. All that can fail comes
    /// before anything changes.
    pub(crate) fn call<R: Wait>(
        &mut self,
        rt: &R,
        alloc: Global,
        mine: &mut Share<K>,
        caller: u32,
        demand: Demand<F, K>,
    ) -> Result<ReplyPair, AllocError>
        requires { 0 < mine.old.parts }
        ensures parts { mine.new.parts ≡ mine.old.parts }
        ensures amount { mine.new.amount
            ≡ (if is_ok result then mine.old.amount + 1 else mine.old.amount) }
        ensures same_book { IsSameBook self.old self.new }
        ensures entered { IfOk result
            (λ pair. self.new.history
            ≡ self.old.history ++ entry_of caller demand.entry.call pair.receipt ∷ []) }
        ensures step { IfOk result (λ pair. Step (prices_named F.may_return K.closure)
            K.start.limits self.old.picture.rows demand.entry.call pair.receipt
            self.new.picture.rows) }
        ensures no_memory { IfOk result (λ pair. pair.receipt ≢ Refused Memory) }
        ensures answer { IfOk result (λ pair. is_some pair.answer ≡ demand.entry.is_asked) }
        ensures told { IfOk result (λ pair. IfSome pair.answer (λ r. r ≡ pair.receipt)) }
        ensures unchanged { OnErr result (IsUnchanged self.old self.new) }
    {
        let Demand {
            call,
            source,
            is_asked,
        } = demand;
        let known = self.known(call, source);
        self.was_known = matches!(known, RouteSource::Found(_));
        let next = prepare_call(&mut self.book, alloc, caller, call, known)?;
        // For the proof: what the type keeps.
        next.picture();
        let pair = ReplyPair::of(alloc, &next.entry().reply, is_asked)?;
        let (log_length, prefix) = (&self.log_length, &mut self.prefix);
        show::<F, K, W, R>(rt, log_length, prefix, &mut self.writer, &next)?;
        self.book.commit(next);
        self.calls.add(mine, 1);
        Ok(pair)
    }

    /// The log prefix of the accepted entries.
    pub(crate) fn prefix(&self) -> &LogPrefix<F, K>
        ensures now { result.now ≡ versions self.now.history }
        ensures replayed { IsVersion (prices_named F.may_return K.closure)
            K.start.limits K.start.rows result.now self.now.picture.rows }
    {
        // For the proof: what the type keeps.
        self.book.history();
        &self.prefix
    }

    /// A reader of versions.
    pub(crate) fn reader(&self) -> Result<VersionReader<F, K>, AllocError> {
        self.writer.reader()
    }

    /// The entries so far.
    pub(crate) fn history(&self) -> &[Entry]
        ensures { result.now ≡ self.now.history }
    {
        self.book.history()
    }

    /// The book. The versions end.
    pub(crate) fn into_book<R: Wait>(self, rt: &R) -> Book<F>
        ensures same { result ≡ self }
        ensures start { result.start ≡ K.start }
        ensures named { K.closure ≡ Some result.tariff }
        ensures legal { IsLegalBook F.may_return result }
    {
        let LockedState {
            book,
            calls: _calls,
            log_length: _head,
            prefix: _front,
            writer,
            was_known: _was_known,
        } = self;
        writer.end(rt);
        // For the proof: what the type keeps.
        book.history();
        book
    }

    /// The length of the history, as the whole share of the ledger has it.
    pub(crate) fn audit(&mut self, all: &mut Share<K>)
        requires { all.old.parts ≡ K.parts }
        ensures same { self.new ≡ self.old }
        ensures counted { length self.new.history ≡ all.old.amount }
    {
        self.calls.audit(all);
    }
}
