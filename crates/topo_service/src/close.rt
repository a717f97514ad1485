//! How a service begins and ends.

ghost use Rattle.std.specs.Prelude.{◌≡◌, ◌<◌, ◌≤◌, ℕ, [], IfOk, IfErr, OnOk, Some};
ghost use Rattle.std.specs.Arc.{arc_value};
ghost use Rattle.topo_versions.specs.Versions.{entries_shown};
ghost use Rattle.topo_service.specs.Faults.{IsEndFault};
ghost use Rattle.topo_service.specs.Passes.{IsBookOf, begun};
ghost use Rattle.topo_service.specs.Receipts.{AreReceiptsOf, HasNumber};
ghost use Rattle.topo_core.specs.declared.limits.TheConstants.{MAX_PASSES};

use crate::checks::{first_fault, gather};
use crate::faults::EndFault;
use crate::locked_state::LockedState;
use crate::pass::Pass;
use crate::planned::copies::Copies;
use crate::service::ServiceOver;
use crate::share_pool::SharePool;
use std::alloc::{AllocError, Global};
use std::sync::ledger::Blank;
use std::sync::{Arc, Mutex, Wait};
use topo_book::Book;
use topo_core::limits::MAX_PASSES;
use topo_picture::Picture;
use topo_price::tariff::{PriceFn, Tariff};
use topo_versions::{
    FreshLog, LogLength, LogPrefix, ServiceBrand, StoreWriter, Version, VersionWriter, new_store,
};

/// The end of a service that was not well, with the book and the passes as they were handed in.
#[derive(Drop)]
pub struct CloseFault<F: PriceFn, K: ServiceBrand<F>> {
    pub fault: EndFault,
    pub book: Book<F>,
    pub passes: Vec<Pass<F, K>>,
}

/// A fresh ledger and log, not bound to a service yet.
pub struct FreshService {
    pub blank: Blank,
    pub log: FreshLog,
}

impl FreshService {
    pub fn new() -> FreshService
        ensures { result.blank.parts ≡ MAX_PASSES }
    {
        FreshService {
            blank: Blank::new(MAX_PASSES as u64),
            log: FreshLog::new(),
        }
    }
}

/// The store of versions of a service whose book is new, for so many readers: the first version is
/// the start.
fn writer_of<F: PriceFn + Drop, K: ServiceBrand<F>>(
    alloc: Global,
    book: &Book<F>,
    prefix: &LogPrefix<F, K>,
    places: u32,
) -> Result<StoreWriter<F, K>, AllocError>
    requires start { (book.now.start ≡ K.start) × (book.now.history ≡ []) }
    requires prices { K.closure ≡ Some book.now.tariff }
    requires empty { prefix.now ≡ [] }
    requires places { 0 < places }
    ensures empty { IfOk result (λ w. entries_shown w.desk.shown.value ≡ Some []) }
{
    let shared = Arc::try_clone(book.shared_picture())?;
    new_store(alloc, Version::new(prefix.share(), shared), places as usize)
}

/// A new book that shares the prices.
fn book_of<F: PriceFn + Drop>(
    alloc: Global,
    start: Picture,
    tariff: &Arc<Tariff<F>>,
) -> Result<Book<F>, AllocError>
    ensures start { IfOk result (λ b. b.start ≡ start) }
    ensures history { IfOk result (λ b. b.history ≡ []) }
    ensures tariff { IfOk result (λ b. b.tariff ≡ arc_value tariff.now) }
{
    let share = Arc::try_clone(tariff)?;
    Book::new(alloc, start, share)
}

/// A new book, and the store of its versions for so many readers.
fn book_with_store<F: PriceFn + Drop, K: ServiceBrand<F>>(
    alloc: Global,
    start: Picture,
    tariff: &Arc<Tariff<F>>,
    prefix: &LogPrefix<F, K>,
    places: u32,
) -> Result<(Book<F>, StoreWriter<F, K>), AllocError>
    requires start { start ≡ K.start }
    requires prices { K.closure ≡ Some (arc_value tariff.now) }
    requires empty { prefix.now ≡ [] }
    requires places { 0 < places }
    ensures book { IfOk result (λ made. (made.0.start ≡ K.start) × (made.0.history ≡ [])) }
    ensures prices { IfOk result (λ made. K.closure ≡ Some made.0.tariff) }
    ensures empty { IfOk result (λ made. entries_shown made.1.desk.shown.value ≡ Some []) }
{
    let book = book_of(alloc, start, tariff)?;
    let writer = writer_of(alloc, &book, prefix, places)?;
    Ok((book, writer))
}

/// A service over the version store.
pub type Service<F, K> = ServiceOver<F, K, StoreWriter<F, K>>;

impl<F: PriceFn + Drop, K: ServiceBrand<F>> Service<F, K> {
    /// Begins a service of `MAX_PASSES` passes at most, at the start and with the closure that K
    /// names, with no entry and no pass.
    pub fn new(
        alloc: Global,
        fresh: FreshService,
        start: Picture,
        tariff: Arc<Tariff<F>>,
    ) -> Result<Service<F, K>, AllocError>
        requires ledger { (fresh.blank.name ≡ K.name) × (fresh.blank.parts ≡ K.parts)
            × (K.parts ≡ MAX_PASSES) }
        requires list { fresh.log.seen.book ≡ K.book }
        requires start { start ≡ K.start }
        requires prices { K.closure ≡ Some (arc_value tariff) }
        ensures { IfOk result (λ s. s ≡ begun (arc_value tariff) MAX_PASSES) }
    {
        Self::with_places(alloc, fresh, start, tariff, MAX_PASSES)
    }

    /// As `new`, for so many passes at most. An accepted call visits the place of each of them
    /// twice, so a service of few passes takes less time.
    pub fn with_places(
        alloc: Global,
        fresh: FreshService,
        start: Picture,
        tariff: Arc<Tariff<F>>,
        places: u32,
    ) -> Result<Service<F, K>, AllocError>
        requires ledger { (fresh.blank.name ≡ K.name) × (fresh.blank.parts ≡ K.parts)
            × (K.parts ≡ MAX_PASSES) }
        requires list { fresh.log.seen.book ≡ K.book }
        requires start { start ≡ K.start }
        requires prices { K.closure ≡ Some (arc_value tariff) }
        requires places { (0 < places) × (places ≤ MAX_PASSES) }
        ensures { IfOk result (λ s. s ≡ begun (arc_value tariff) places) }
    {
        let FreshService { blank, log } = fresh;
        let (calls, rest) = blank.open::<K>();
        let (log_length, prefix) = log.named::<F, K>();
        let nothing = prefix.share();
        let (book, writer) = book_with_store(alloc, start, &tariff, &prefix, places)?;
        let state = LockedState::new(book, calls, log_length, prefix, writer);
        Ok(ServiceOver {
            alloc,
            tariff,
            state: Mutex::new(state),
            pool: SharePool::new(rest),
            nothing,
            places,
            copies: Copies::new(places),
        })
    }
}

impl<F: PriceFn + Drop, K: ServiceBrand<F>, W: VersionWriter<F, K>> ServiceOver<F, K, W> {
    /// Ends the service. Where each pass that was given out is there and every receipt agrees with
    /// the history, the book is handed back: its history is one thread's, from the start to its
    /// picture, and the receipts of the passes are all of it. Else the fault names the least number
    /// of a pass that is not there, and where none is missing, a receipt that differs. It takes no
    /// memory.
    pub fn close<R: Wait>(
        self,
        rt: &R,
        passes: Vec<Pass<F, K>>,
    ) -> Result<Book<F>, CloseFault<F, K>>
        ensures book { IfOk result (IsBookOf F.may_return self.tariff K.start) }
        ensures all_there { OnOk result ((n : ℕ) → n < self.given → HasNumber n passes.items) }
        ensures receipts { IfOk result (λ b. AreReceiptsOf b.history passes.items) }
        ensures fault { IfErr result
            (λ e. IsEndFault self.given e.book.history passes.items e.fault) }
        ensures fault_passes { IfErr result (λ e. e.passes ≡ passes) }
        ensures fault_book { IfErr result
            (λ e. IsBookOf F.may_return self.tariff K.start e.book) }
    {
        let ServiceOver {
            alloc: _,
            tariff: _tariff,
            state,
            pool,
            nothing: _nothing,
            places: _,
            copies: _,
        } = self;
        let (given, rest) = pool.into_parts(rt);
        let mut state = state.into_inner();
        if let Some(fault) = first_fault(given, passes.as_slice(), state.history()) {
            return Err(CloseFault {
                fault,
                book: state.into_book(rt),
                passes,
            });
        }
        let mut all = gather(rt, &state, rest, passes);
        state.audit(&mut all);
        Ok(state.into_book(rt))
    }
}
