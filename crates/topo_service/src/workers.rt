//! Lists of commands, each with a pass in a thread of its own.

ghost use Rattle.std.specs.Prelude.{◌≡◌, ◌<◌, ◌≤◌, ◌-◌, ℕ, [], length};
ghost use Rattle.std.specs.Prelude.{map, IfOk, IfSome, OnErr, OnOk, slice_index_or, vec_capacity};
ghost use Rattle.std.specs.Fn.{FnOnceReturnsAtMut};
ghost use Rattle.topo_core.specs.History.{IsPrefix, call_of};
ghost use Rattle.topo_core.specs.declared.calls.Call.TheVariants.{Insert};
ghost use Rattle.topo_service.specs.Answers.{HasOnlySeen, HasReceiptOf};
ghost use Rattle.topo_service.specs.Commands.{HasEnded, HasMade, end_by, receipts_of};
ghost use Rattle.topo_service.specs.Passes.{PassState};
ghost use Rattle.topo_versions.specs.Names.{prices_named};
ghost use Rattle.topo_versions.specs.Versions.{AreLegal};

use crate::locked_state::Demand;
use crate::pass::Pass;
use crate::planned::found::{FoundRoute, first_on};
use crate::service::ServiceOver;
use std::alloc::{AllocError, Global};
use std::sync::Wait;
use std::thread;
use std::thread::Threads;
use topo_book::RouteSource;
use topo_core::calls::{Call, Command, Refusal};
use topo_core::listed::Listed;
use topo_price::tariff::PriceFn;
use topo_versions::{ServiceBrand, VersionWriter};

/// What is called round each command: with the place of the list, and the command's place in it.
pub trait Gate: Sync {
    fn before(&self, worker: usize, index: usize);

    fn after(&self, worker: usize, index: usize);
}

/// Makes a call on what it is given, between the gate's two calls for the command at a place: its
/// list, and its place in that. Whatever is made of it, the gate is told that it has ended.
pub fn between<T: Gate, S, A, F: FnOnce(&mut S) -> A>(
    gate: &T,
    place: (usize, usize),
    state: &mut S,
    call: F,
) -> A
    requires { F.IsAlwaysCallable call }
    ensures { FnOnceReturnsAtMut F.FnOnce call state.old result state.new }
{
    let (worker, index) = place;
    gate.before(worker, index);
    let made = call(state);
    gate.after(worker, index);
    made
}

/// How the work on a list ended.
#[derive(Clone, Copy, Debug, Drop, PartialEq, Eq)]
pub enum WorkerEnd {
    /// Each command was carried out.
    Done,
    /// The command at this place was out of memory; the rest of the list was not run.
    OutOfMemory(usize),
}

/// Makes one call, of which the pass keeps the receipt. Nobody asks for its reply.
fn enter<'a, F: PriceFn, K: ServiceBrand<F>, W: VersionWriter<F, K>, R: Wait>(
    rt: &R,
    service: &'a ServiceOver<F, K, W>,
    pass: &mut Pass<F, K>,
    call: Call,
    source: RouteSource<'a, FoundRoute<F, K>>,
) -> Result<(), AllocError>
    ensures number { pass.new.number ≡ pass.old.number }
    ensures receipt { OnOk result (HasReceiptOf (prices_named F.may_return K.closure)
        K.start pass.old pass.new call) }
    ensures later { IsPrefix pass.old.seen pass.new.seen }
    ensures unchanged { OnErr result (pass.new.receipts ≡ pass.old.receipts) }
{
    let demand = Demand {
        call,
        source,
        is_asked: false,
    };
    let _none = service.enter(rt, pass, demand)?;
    Ok(())
}

/// The first of the cheapest routes on the pass's own version, looked for without the lock; none if
/// there is none, or it may have no such version, or it is out of memory. Where no crossing id is
/// left it is not looked for, since a book needs no whole search there.
fn find_ahead<F: PriceFn, K: ServiceBrand<F>, W: VersionWriter<F, K>>(
    service: &ServiceOver<F, K, W>,
    pass: &mut Pass<F, K>,
    u: u32,
    v: u32,
) -> Option<FoundRoute<F, K>>
    ensures only_seen { HasOnlySeen pass.old pass.new }
    ensures u { IfSome result (λ found. found.u ≡ u) }
    ensures v { IfSome result (λ found. found.v ≡ v) }
{
    let alloc = service.alloc;
    if !pass.takes_copy(&service.copies) {
        return None;
    }
    let Ok(own) = pass.take_own(alloc, service.tariff()) else {
        return None;
    };
    let found = if own.picture().has_no_crossing_left() {
        Err(Refusal::Full)
    } else {
        first_on(alloc, own.picture(), service.tariff(), u, v, &mut pass.work)
    };
    match found {
        Ok(seen) => Some(FoundRoute::of(own, (u, v), seen)),
        Err(_) => {
            pass.own = Some(own);
            None
        }
    }
}

/// Inserts an edge whose route is looked for first on the pass's own version, without the lock. A
/// route that comes too late is looked for once more so, unless the one before was late too. If
/// that finds none, it is an insertion.
#[tactic(auto, using(crate::proofs::Answering::then_receipt, crate::proofs::Answering::begins_further))]
fn insert_ahead<F: PriceFn, K: ServiceBrand<F>, W: VersionWriter<F, K>, R: Wait>(
    rt: &R,
    service: &ServiceOver<F, K, W>,
    pass: &mut Pass<F, K>,
    u: u32,
    v: u32,
    kind: u32,
) -> Result<(), AllocError>
    ensures number { pass.new.number ≡ pass.old.number }
    ensures receipt { OnOk result (HasReceiptOf (prices_named F.may_return K.closure)
        K.start pass.old pass.new (Insert u v kind)) }
    ensures later { IsPrefix pass.old.seen pass.new.seen }
    ensures unchanged { OnErr result (pass.new.receipts ≡ pass.old.receipts) }
{
    let insertion = Call::Insert { u, v, kind };
    let Some(found) = find_ahead(service, pass, u, v) else {
        return enter(rt, service, pass, insertion, RouteSource::Search);
    };
    let entered = service.enter_standing(rt, pass, kind, &found);
    pass.own = Some(found.into_version());
    if entered? {
        return Ok(());
    }
    if !pass.looks_ahead() {
        return enter(rt, service, pass, insertion, RouteSource::Search);
    }
    let Some(found) = find_ahead(service, pass, u, v) else {
        return enter(rt, service, pass, insertion, RouteSource::Search);
    };
    let made = enter(rt, service, pass, insertion, RouteSource::Found(&found));
    pass.own = Some(found.into_version());
    made
}

/// Carries a command out. A planned insertion looks for its route ahead, unless the routes that the
/// pass found last came too late.
fn carry_out<F: PriceFn, K: ServiceBrand<F>, W: VersionWriter<F, K>, R: Wait>(
    rt: &R,
    service: &ServiceOver<F, K, W>,
    pass: &mut Pass<F, K>,
    command: Command,
) -> Result<(), AllocError>
    ensures number { pass.new.number ≡ pass.old.number }
    ensures receipt { OnOk result (HasReceiptOf (prices_named F.may_return K.closure)
        K.start pass.old pass.new (call_of command)) }
    ensures later { IsPrefix pass.old.seen pass.new.seen }
    ensures unchanged { OnErr result (pass.new.receipts ≡ pass.old.receipts) }
{
    match command {
        Command::Plain(call) => enter(rt, service, pass, call, RouteSource::Search),
        Command::Planned { u, v, kind } => {
            if pass.looks_ahead() {
                return insert_ahead(rt, service, pass, u, v, kind);
            }
            enter(
                rt,
                service,
                pass,
                Call::Insert { u, v, kind },
                RouteSource::Search,
            )
        }
    }
}

/// Carries a list out, until it is out of memory.
fn work<F: PriceFn, K: ServiceBrand<F>, W: VersionWriter<F, K>, R: Wait, T: Gate>(
    rt: &R,
    service: &ServiceOver<F, K, W>,
    pass: &mut Pass<F, K>,
    worker: usize,
    list: &[Command],
    gate: &T,
)
    ensures { HasMade (prices_named F.may_return K.closure) K.start pass.old pass.new list.now }
{
    for (index, command) in list.iter().enumerate() {
        let made = between(
            gate,
            (worker, index),
            pass,
            |pass: &mut Pass<F, K>|
                ensures number { pass.exit.now.number ≡ pass.entry.now.number }
                ensures receipt { OnOk result (HasReceiptOf (prices_named F.may_return K.closure)
                    K.start pass.entry.now pass.exit.now (call_of command.entry.now)) }
                ensures later { IsPrefix pass.entry.now.seen pass.exit.now.seen }
                ensures unchanged { OnErr result
                    (pass.exit.now.receipts ≡ pass.entry.now.receipts) }
            { carry_out(rt, service, pass, *command) },
        );
        if made.is_err() {
            return;
        }
    }
}

/// Runs each list with the pass at its place, in a thread of its own.
fn run_each<
    F: PriceFn + Drop + Send + Sync,
    K: ServiceBrand<F> + Send + Sync,
    W: VersionWriter<F, K> + Send,
    R: Threads + Wait + Sync,
    T: Gate,
>(
    rt: &R,
    service: &ServiceOver<F, K, W>,
    passes: &mut [Pass<F, K>],
    lists: &[Listed<Command>],
    gate: &T,
)
    requires { length passes.old ≡ length lists.now }
    ensures made { (i : ℕ) (p : PassState) → i < length lists.now
        → HasMade (prices_named F.may_return K.closure) K.start
        (slice_index_or passes.old i p) (slice_index_or passes.new i p)
        (slice_index_or lists.now i []) }
    ensures legal { (i : ℕ) (p : PassState) → i < length lists.now
        → AreLegal (prices_named F.may_return K.closure) K.start
        (slice_index_or passes.new i p).seen }
{
    if passes.is_empty() {
        return;
    }
    let threads = passes.len();
    thread::for_each_mut(
        rt,
        passes,
        threads,
        &|i, pass: &mut Pass<F, K>|
            requires { i < length lists.now }
            ensures made { HasMade (prices_named F.may_return K.closure) K.start
                pass.entry.now pass.exit.now
                (slice_index_or lists.entry.now i []) }
            ensures legal { AreLegal (prices_named F.may_return K.closure)
                K.start pass.exit.now.seen }
        {
            work(rt, service, pass, i, lists[i].as_slice(), gate);
            pass.give_copy_back(&service.copies);
            // For the proof: what the type keeps.
            pass.seen();
        },
    );
}

/// How many receipts each pass has.
fn receipt_counts<F: PriceFn, K: ServiceBrand<F>>(
    alloc: Global,
    passes: &[Pass<F, K>],
) -> Result<Vec<usize>, AllocError>
    ensures { IfOk result (λ counts. counts.items ≡ map receipts_of passes.now) }
{
    let mut counts = Vec::with_capacity(alloc, passes.len())?;
    for pass in passes {
        counts.push_reserved(pass.receipts().len());
    }
    Ok(counts)
}

/// How the work of a pass on a list ended, by how many receipts it had before.
fn end_of<F: PriceFn, K: ServiceBrand<F>>(
    before: usize,
    pass: &Pass<F, K>,
    list: &[Command],
) -> WorkerEnd
    requires { before ≤ receipts_of pass.now }
    ensures { result ≡ end_by (receipts_of pass.now - before) (length list.now) }
{
    let made = pass.receipts().len() - before;
    if made == list.len() {
        WorkerEnd::Done
    } else {
        WorkerEnd::OutOfMemory(made)
    }
}

/// Tells how the work on each list ended.
fn tell_ends<F: PriceFn, K: ServiceBrand<F>>(
    ends: &mut Vec<WorkerEnd>,
    before: &[usize],
    passes: &[Pass<F, K>],
    lists: &[Listed<Command>],
)
    requires empty { ends.old.items ≡ [] }
    requires room { length passes.now ≤ vec_capacity ends.old }
    requires befores { length before.now ≡ length passes.now }
    requires as_many { length passes.now ≡ length lists.now }
    requires risen { (i : ℕ) (p : PassState) → i < length passes.now
        → slice_index_or before.now i 0 ≤ receipts_of (slice_index_or passes.now i p) }
    ensures one_each { length ends.new.items ≡ length lists.now }
    ensures told { (i : ℕ) (p : PassState) (e : WorkerEnd) → i < length passes.now
        → slice_index_or ends.new.items i e
        ≡ end_by (receipts_of (slice_index_or passes.now i p) - slice_index_or before.now i 0)
        (length (slice_index_or lists.now i [])) }
{
    for i in 0..passes.len() {
        ends.push_reserved(end_of(before[i], &passes[i], lists[i].as_slice()));
    }
}

/// Runs each list with the pass at its place, in a thread of its own, or in its turn where no
/// thread can be made. A command is carried out between the gate's calls for it. The answer says of
/// each list whether it was carried out, or where it was out of memory; its room is taken first,
/// and where that is refused, no pass has changed. The reply of each receipt is one that its call had:
/// if it was accepted, the pass saw its own entry then; if it was refused, it was due after what the
/// pass had seen by then; and it is never out of memory.
pub fn run_workers<
    F: PriceFn + Drop + Send + Sync,
    K: ServiceBrand<F> + Send + Sync,
    W: VersionWriter<F, K> + Send,
    R: Threads + Wait + Sync,
    T: Gate,
>(
    rt: &R,
    alloc: Global,
    service: &ServiceOver<F, K, W>,
    passes: &mut [Pass<F, K>],
    lists: &[Listed<Command>],
    gate: &T,
) -> Result<Vec<WorkerEnd>, AllocError>
    requires { length passes.old ≡ length lists.now }
    ensures one_each { IfOk result (λ ends. length ends.items ≡ length lists.now) }
    ensures ended { IfOk result
        (λ ends. (i : ℕ) (p : PassState) (e : WorkerEnd) → i < length lists.now
        → HasEnded (prices_named F.may_return K.closure) K.start
        (slice_index_or passes.old i p) (slice_index_or passes.new i p)
        (slice_index_or lists.now i []) (slice_index_or ends.items i e)) }
    ensures legal { IfOk result (λ ends. (i : ℕ) (p : PassState) → i < length lists.now
        → AreLegal (prices_named F.may_return K.closure) K.start
        (slice_index_or passes.new i p).seen) }
    ensures unchanged { OnErr result (passes.new ≡ passes.old) }
{
    let before = receipt_counts(alloc, passes)?;
    let mut ends = Vec::with_capacity(alloc, passes.len())?;
    run_each(rt, service, passes, lists, gate);
    tell_ends(&mut ends, before.as_slice(), passes, lists);
    Ok(ends)
}
