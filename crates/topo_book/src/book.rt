//! The object of one thread, with its history.

ghost use Rattle.std.specs.Prelude.{◌≡◌, true, IfOk, Some, []};
ghost use Rattle.std.specs.Arc.{arc_value};

use crate::next::Next;
use crate::replicas::{Replica, Replicas};
use crate::route_source::RouteSource;
use crate::scratch::Scratch;
use crate::sparing::have_spared;
use crate::steps::{apply_entry, apply_entry_unshared, decide, decide_in_place};
use std::alloc::{AllocError, Global};
use std::marker::Model;
use std::mem;
use std::sync::Arc;
use topo_core::calls::{Call, Entry, Reply};
use topo_core::rows::Rows;
use topo_picture::Picture;
use topo_price::tariff::{PriceFn, Tariff};
use topo_route::plan::{Plan, PricedRoute};
use topo_route::planned::region::Region;

/// A picture that calls change, with the picture that it began with and every answer since. What
/// its searches and the checks of plans write on is kept from one call to the next, so that a
/// search writes only what it reaches, and a check copies nothing. Pictures that took part before
/// are kept as well: brought up to date, one of them is the next picture, so that a call which
/// others see at once costs its change, and not a copy.
pub struct Book<F: PriceFn> {
    tariff: Arc<Tariff<F>>,
    pub(crate) start: Picture,
    pub(crate) history: Vec<Entry>,
    pub(crate) picture: Arc<Picture>,
    pub(crate) replicas: Replicas,
    // A picture that stands some entries behind, from the first time on that entries are taken back.
    pub(crate) follower: Option<Replica>,
    scratch: Scratch,
    // Whether the picture now is the second of the two that take turns.
    pub(crate) search_on_replica: bool,
}

// Written out, so that it is proved once: a derived one is proved anew in each function that lets
// such a value go.
impl<F: PriceFn + Drop> Drop for Book<F> {
    fn drop(self) {
        let Book {
            tariff,
            start,
            history,
            picture,
            replicas,
            follower,
            scratch,
            search_on_replica: _,
        } = self;
        drop(tariff);
        drop(start);
        drop(history);
        drop(picture);
        drop(replicas);
        drop(follower);
        drop(scratch);
    }
}

/// So many entries are looked through at most for what they changed.
const MAX_ENTRIES_BETWEEN: u32 = 256;

/// The rows of a picture. It ends before they are made, if nobody else has a share of it.
fn last_rows(alloc: Global, picture: Arc<Picture>) -> Result<Rows, AllocError>
    ensures { IfOk result (λ rows. rows ≡ (arc_value picture).rows) }
{
    match Arc::try_unwrap(picture) {
        Ok(picture) => picture.into_rows(alloc),
        Err(shared) => shared.rows(alloc),
    }
}

/// A copy of the reply of an entry, where it is to be told.
fn told_reply(alloc: Global, entry: &Entry, is_told: bool) -> Result<Option<Reply>, AllocError>
    ensures { IfOk result (λ told. is_told ≡ true → told ≡ Some entry.now.reply) }
{
    if !is_told {
        return Ok(None);
    }
    let reply = entry.reply.copy(alloc)?;
    Ok(Some(reply))
}

/// Whether a call is an insertion whose route has to be looked for.
fn is_search(call: Call, source: RouteSource<PricedRoute>) -> bool {
    matches!((call, source), (Call::Insert { .. }, RouteSource::Search))
}

impl<F: PriceFn> Model for Book<F> {
    ghost use Rattle.std.specs.Prelude.{◌-◌, vec_len, vec_capacity};
    ghost use Rattle.std.specs.Arc.{arc_value};
    ghost use Rattle.topo_price.specs.Prices.{prices_of};
    ghost use Rattle.topo_book.specs.Books.{BookState};
    ghost use Rattle.topo_book.specs.Replicas.{IsBookWith};

    ghost Value = { BookState F };

    ghost view = { λ b. record {
      tariff = arc_value b.tariff;
      start = b.start;
      history = b.history.items;
      picture = arc_value b.picture;
      spare = vec_capacity b.history - vec_len b.history;
    } };

    ghost invariant = { λ b. IsBookWith (prices_of (F.may_return (arc_value b.tariff)))
        b.start b.history.items (arc_value b.picture) b.replicas b.follower };
}

impl<F: PriceFn> Book<F> {
    ghost use Rattle.std.specs.Prelude.{◌≡◌, ◌≢◌, ◌<◌, ◌≤◌, true, IfOk, IfSome};
    ghost use Rattle.std.specs.Prelude.{OnOk, OnErr, [], ◌∷◌, ◌++◌, length};
    ghost use Rattle.topo_core.specs.History.{is_accepted};
    ghost use Rattle.topo_core.specs.declared.calls.Call.TheVariants.{Grow, Insert, Delete};
    ghost use Rattle.topo_core.specs.declared.calls.Refusal.TheVariants.{Memory};
    ghost use Rattle.topo_core.specs.declared.calls.Reply.TheVariants.{Refused};
    ghost use Rattle.topo_rows.specs.Shown.{IsPicture};
    ghost use Rattle.topo_price.specs.Prices.{prices_of};
    ghost use Rattle.std.specs.Prelude.{Option, Some};
    ghost use Rattle.topo_core.specs.declared.calls.Reply.{Reply};
    ghost use Rattle.topo_book.specs.Books.{AnswersCall, CanFollow, IsAnswered, IsBook, IsDueIn};
    ghost use Rattle.topo_book.specs.Books.{IsLegalBook, IsSameBook, IsUnchanged, PreparesCall};
    ghost use Rattle.topo_book.specs.Books.{StandsAfter, picture_after};
    ghost use Rattle.topo_book.specs.Replicas.{IsReplicaOf};
    ghost use Rattle.topo_book.specs.RouteSources.{IsSourceIn};
    ghost use Rattle.topo_book.specs.Sparing.{HaveSpared};

    /// The book that begins with this picture and no entry.
    pub fn new(alloc: Global, start: Picture, tariff: Arc<Tariff<F>>) -> Result<Self, AllocError>
    where
        F: Drop,
        ensures tariff { IfOk result (λ b. b.tariff ≡ arc_value tariff) }
        ensures start { IfOk result (λ b. b.start ≡ start) }
        ensures history { IfOk result (λ b. b.history ≡ []) }
        ensures picture { IfOk result (λ b. b.picture ≡ start) }
    {
        let picture = start.copy(alloc)?;
        Book::resume(alloc, start, Vec::new(alloc), picture, tariff)
    }

    /// The book that begins with `start` and has these entries, which lead from there to `picture`.
    pub fn resume(
        alloc: Global,
        start: Picture,
        history: Vec<Entry>,
        picture: Picture,
        tariff: Arc<Tariff<F>>,
    ) -> Result<Self, AllocError>
    where
        F: Drop,
        requires { IsBook (prices_of (F.may_return (arc_value tariff))) start history.items picture }
        ensures tariff { IfOk result (λ b. b.tariff ≡ arc_value tariff) }
        ensures start { IfOk result (λ b. b.start ≡ start) }
        ensures history { IfOk result (λ b. b.history ≡ history.items) }
        ensures picture { IfOk result (λ b. b.picture ≡ picture) }
    {
        let picture = Arc::new(alloc, picture)?;
        let replicas = Replicas::new(alloc)?;
        let scratch = Scratch::new(alloc)?;
        Ok(Book {
            tariff,
            start,
            history,
            picture,
            replicas,
            follower: None,
            scratch,
            search_on_replica: false,
        })
    }

    /// The prices of the book's insertions.
    pub fn tariff(&self) -> &Tariff<F>
        ensures { result.now ≡ self.now.tariff }
    {
        &self.tariff
    }

    /// The prices of the book, of which another book may take a share.
    pub fn shared_tariff(&self) -> &Arc<Tariff<F>>
        ensures { arc_value result.now ≡ self.now.tariff }
    {
        &self.tariff
    }

    /// The picture that it began with.
    pub fn start(&self) -> &Picture
        ensures { result.now ≡ self.now.start }
    {
        &self.start
    }

    /// The entries so far, the oldest first. Out of memory is never entered.
    pub fn history(&self) -> &[Entry]
        ensures entries { result.now ≡ self.now.history }
        ensures legal { IsLegalBook F.may_return self.now }
    {
        self.history.as_slice()
    }

    /// The picture now, the replay of the history.
    pub fn picture(&self) -> &Picture
        ensures picture { result.now ≡ self.now.picture }
        ensures legal { IsLegalBook F.may_return self.now }
    {
        self.shared_picture()
    }

    /// The picture of the book, of which a reader may take a share: it stays as it is for as long
    /// as the share is held, and calls go on with another.
    pub fn shared_picture(&self) -> &Arc<Picture>
        ensures picture { arc_value result.now ≡ self.now.picture }
        ensures legal { IsLegalBook F.may_return self.now }
    {
        &self.picture
    }

    /// Whether the last calls, so many that `accepted` of them are accepted, all spare a region of
    /// the picture that came before them. Where there are many of them it says no.
    pub fn has_spared(&self, before: &Picture, region: &Region, accepted: u64) -> bool
        ensures { result ≡ true → HaveSpared before.now.rows region.now self.now.history accepted }
    {
        have_spared(
            before,
            region,
            self.history(),
            accepted,
            MAX_ENTRIES_BETWEEN,
        )
    }

    /// The entries, the oldest first, and the rows of the picture. The book ends, and what else it
    /// keeps goes before the rows are made, so that both need not be in memory at one time.
    pub fn into_history_and_rows(self, alloc: Global) -> Result<(Vec<Entry>, Rows), AllocError>
    where
        F: Drop,
        ensures entries { IfOk result (λ made. made.0.items ≡ self.history) }
        ensures rows { IfOk result (λ made. made.1 ≡ self.picture.rows) }
        ensures legal { IsLegalBook F.may_return self }
    {
        let Book {
            tariff: _tariff,
            start,
            history,
            picture,
            replicas,
            follower,
            scratch,
            search_on_replica: _,
        } = self;
        drop(start);
        drop(replicas);
        drop(follower);
        drop(scratch);
        let rows = last_rows(alloc, picture)?;
        Ok((history, rows))
    }

    /// Inserts an edge of this kind from `u` to `v` along the first of the cheapest routes, or
    /// answers the first reason why not. Both are entered. Out of memory may stand in place of any
    /// answer, and leaves history and picture as they were.
    pub fn insert(
        &mut self,
        alloc: Global,
        caller: u32,
        u: u32,
        v: u32,
        kind: u32,
    ) -> Result<Reply, AllocError>
        ensures { AnswersCall F.may_return caller (Insert u v kind) self.old self.new result }
    {
        let source = RouteSource::Search;
        self.call_in_place(alloc, caller, Call::Insert { u, v, kind }, source)
    }

    /// As `insert`, whatever the plan: its route is taken where the plan passes the check on the
    /// picture now, which spares the search, and else the route is looked for.
    pub fn insert_planned(
        &mut self,
        alloc: Global,
        caller: u32,
        u: u32,
        v: u32,
        kind: u32,
        plan: &Plan,
    ) -> Result<Reply, AllocError>
        ensures { AnswersCall F.may_return caller (Insert u v kind) self.old self.new result }
    {
        let planned = RouteSource::Plan(plan);
        self.call_in_place(alloc, caller, Call::Insert { u, v, kind }, planned)
    }

    /// Takes an edge out, or answers why not. Both are entered. Out of memory may stand in place of
    /// any answer, and leaves history and picture as they were.
    pub fn delete(&mut self, alloc: Global, caller: u32, edge: u32) -> Result<Reply, AllocError>
        ensures { AnswersCall F.may_return caller (Delete edge) self.old self.new result }
    {
        self.call_in_place(alloc, caller, Call::Delete { edge }, RouteSource::Search)
    }

    /// Puts a new vertex on a new edge of this kind into the corner at `position` of `u`, or
    /// answers the first reason why not. Both are entered. Out of memory may stand in place of any
    /// answer, and leaves history and picture as they were.
    pub fn grow(
        &mut self,
        alloc: Global,
        caller: u32,
        u: u32,
        position: u32,
        kind: u32,
    ) -> Result<Reply, AllocError>
        ensures { AnswersCall F.may_return caller (Grow u position kind) self.old self.new result }
    {
        self.call_in_place(
            alloc,
            caller,
            Call::Grow { u, position, kind },
            RouteSource::Search,
        )
    }

    /// The reply that a call would have now. It is not carried out, and not entered.
    pub fn due_reply(&mut self, alloc: Global, call: Call) -> Result<Reply, AllocError>
        ensures due { IfOk result (IsDueIn F.may_return self.old call) }
        ensures no_memory { IfOk result (λ reply. reply ≢ Refused Memory) }
        ensures unchanged { self.new ≡ self.old }
    {
        self.decide_where_cached(alloc, call, RouteSource::Search)
    }

    /// Makes a call ready to be entered, on a picture of its own, with the place of its entry
    /// reserved. The book is as it was, whatever the answer.
    #[tactic(auto, using(crate::proofs::SourceLaws::nothing_is_owed))]
    pub fn prepare(&mut self, alloc: Global, caller: u32, call: Call) -> Result<Next, AllocError>
        ensures { PreparesCall F.may_return caller call self.old self.new result }
    {
        self.prepare_from(alloc, caller, call, RouteSource::Search)
    }

    /// As `prepare` of an insertion, whatever the plan: its route is taken where the plan passes
    /// the check on the picture now, which spares the search.
    pub fn prepare_planned(
        &mut self,
        alloc: Global,
        caller: u32,
        u: u32,
        v: u32,
        kind: u32,
        plan: &Plan,
    ) -> Result<Next, AllocError>
        ensures { PreparesCall F.may_return caller (Insert u v kind) self.old self.new result }
    {
        let planned = RouteSource::Plan(plan);
        self.prepare_from(alloc, caller, Call::Insert { u, v, kind }, planned)
    }

    /// Room for so many more entries, vertices and edges, so that the history and the picture need
    /// not move as they grow. There is none made in a picture of which somebody has a share. Only
    /// the room for entries is told by the contract.
    pub fn reserve(
        &mut self,
        entries: usize,
        vertices: usize,
        edges: usize,
    ) -> Result<(), AllocError>
        ensures room { OnOk result (entries ≤ self.new.spare) }
        ensures unchanged { IsUnchanged self.old self.new }
        ensures same_book { IsSameBook self.old self.new }
    {
        self.history.reserve(entries)?;
        match Arc::get_mut(&mut self.picture) {
            Some(picture) => picture.reserve(vertices, edges),
            None => Ok(()),
        }
    }

    /// Enters what was made ready. It takes no memory.
    pub fn commit(&mut self, next: Next)
        requires { CanFollow (prices_of (F.may_return self.old.tariff)) self.old next }
        ensures entered { self.new.history ≡ self.old.history ++ next.entry ∷ [] }
        ensures picture { self.new.picture ≡ picture_after next.picture self.old.picture }
        ensures same_book { IsSameBook self.old self.new }
    {
        let (entry, picture) = next.into_parts();
        let entries = self.history.len();
        self.history.push_reserved(entry);
        if let Some(picture) = picture {
            let before = mem::replace(&mut self.picture, picture);
            self.search_on_replica = !self.search_on_replica;
            self.replicas.keep(Replica {
                picture: before,
                entries,
            });
        }
    }

    /// Carries entries out on a picture that stands after the first `from` of them, and answers after
    /// how many it stands then: after `to`, unless it is out of memory.
    fn replay_to(&self, alloc: Global, picture: &mut Picture, from: usize, to: usize) -> usize
        requires stands { StandsAfter F.may_return self.now from picture.old }
        requires forward { from ≤ to }
        requires there { to ≤ length self.now.history }
        ensures stands { StandsAfter F.may_return self.now result picture.new }
        ensures within { result ≤ to }
    {
        let history = self.history();
        for index in from..to {
            if apply_entry(alloc, picture, &self.tariff, &history[index]).is_err() {
                return index;
            }
        }
        to
    }

    /// Carries a replica on until it stands after the first `to` entries, if nobody else holds it.
    /// Out of memory, it stands after some that come before.
    pub(crate) fn carry_on(
        &self,
        alloc: Global,
        replica: &mut Replica,
        to: usize,
    ) -> Result<(), AllocError>
        requires stands { IsReplicaOf F.may_return self.now replica.old }
        requires forward { replica.old.entries ≤ to }
        requires there { to ≤ length self.now.history }
        ensures stands { IsReplicaOf F.may_return self.now replica.new }
        ensures reached { OnOk result (replica.new.entries ≡ to) }
        ensures within { replica.new.entries ≤ to }
    {
        let Some(picture) = Arc::get_mut(&mut replica.picture) else {
            return Err(AllocError);
        };
        replica.entries = self.replay_to(alloc, picture, replica.entries, to);
        if replica.entries < to {
            return Err(AllocError);
        }
        Ok(())
    }

    /// Brings a replica up to date, if nobody else holds it. Out of memory, it stands after some
    /// later entry.
    fn bring_up_to_date(&self, alloc: Global, replica: &mut Replica) -> Result<(), AllocError>
        requires { IsReplicaOf F.may_return self.now replica.old }
        ensures stands { IsReplicaOf F.may_return self.now replica.new }
        ensures equal { OnOk result (arc_value replica.new.picture ≡ self.now.picture) }
    {
        self.carry_on(alloc, replica, self.history.len())
    }

    /// How many entries a replica may be behind. To carry an entry out takes about as long as to
    /// copy 128 segments, so from there on a copy takes no longer.
    fn reach(&self) -> usize {
        self.picture.counts().segments as usize / 128 + 16
    }

    /// A copy of the picture now.
    fn copied(&self, alloc: Global) -> Result<Arc<Picture>, AllocError>
        ensures equal { IfOk result (λ p. arc_value p ≡ self.now.picture) }
        ensures lawful { IfOk result (λ p. IsPicture (arc_value p).limits (arc_value p).rows) }
    {
        Ok(Arc::new(alloc, self.picture.copy(alloc)?)?)
    }

    /// A replica that nobody else holds, brought up to date; none where none is free. It is kept no
    /// longer.
    fn take_current_replica(&mut self, alloc: Global) -> Result<Option<Replica>, AllocError>
        ensures stands { IfOk result
            (λ found. IfSome found (IsReplicaOf F.may_return self.new)) }
        ensures equal { IfOk result
            (λ found. IfSome found (λ r. arc_value r.picture ≡ self.new.picture)) }
        ensures unchanged { self.new ≡ self.old }
    {
        let least = self.history.len().saturating_sub(self.reach());
        let Some(mut replica) = self.replicas.take_unshared(least) else {
            return Ok(None);
        };
        if self.bring_up_to_date(alloc, &mut replica).is_err() {
            self.replicas.keep(replica);
            return Err(AllocError);
        }
        Ok(Some(replica))
    }

    /// A picture that equals the picture now, and that nobody else holds: a replica that is brought
    /// up to date, and a copy where none is free.
    #[tactic(auto, using(crate::proofs::ReplicaLaws::replica_lawful))]
    fn unshared_picture(&mut self, alloc: Global) -> Result<Arc<Picture>, AllocError>
        ensures equal { IfOk result (λ p. arc_value p ≡ self.new.picture) }
        ensures lawful { IfOk result (λ p. IsPicture (arc_value p).limits (arc_value p).rows) }
        ensures unchanged { self.new ≡ self.old }
    {
        match self.take_current_replica(alloc)? {
            Some(replica) => Ok(replica.picture),
            None => self.copied(alloc),
        }
    }

    /// The reply that is due to a call. Of the two pictures that take turns, searches read one and
    /// the same, so that the processor's cache holds what they read, and the other is only changed.
    fn decide_where_cached(
        &mut self,
        alloc: Global,
        call: Call,
        source: RouteSource<PricedRoute>,
    ) -> Result<Reply, AllocError>
        requires { IsSourceIn F.may_return self.old call source }
        ensures due { IfOk result (IsDueIn F.may_return self.old call) }
        ensures no_memory { IfOk result (λ reply. reply ≢ Refused Memory) }
        ensures unchanged { self.new ≡ self.old }
    {
        if let Some(why) = self.known_refusal(call) {
            return Ok(Reply::Refused(why));
        }
        if self.search_on_replica && is_search(call, source) {
            if let Some(first) = self.take_current_replica(alloc)? {
                return self.decide_on_replica(alloc, first, call, source);
            }
        }
        decide(
            alloc,
            &self.picture,
            &self.tariff,
            call,
            source,
            &mut self.scratch,
        )
    }

    /// The reply that is due to a call, read off a replica that is up to date. It is kept again.
    fn decide_on_replica(
        &mut self,
        alloc: Global,
        replica: Replica,
        call: Call,
        source: RouteSource<PricedRoute>,
    ) -> Result<Reply, AllocError>
        requires stands { IsReplicaOf F.may_return self.old replica }
        requires equal { arc_value replica.picture ≡ self.old.picture }
        requires known { IsSourceIn F.may_return self.old call source }
        ensures due { IfOk result (IsDueIn F.may_return self.old call) }
        ensures no_memory { IfOk result (λ reply. reply ≢ Refused Memory) }
        ensures unchanged { self.new ≡ self.old }
    {
        let reply = decide(
            alloc,
            &replica.picture,
            &self.tariff,
            call,
            source,
            &mut self.scratch,
        );
        self.replicas.keep(replica);
        reply
    }

    /// Makes an accepted entry ready, on a picture that nobody else holds.
    fn prepare_accepted(&mut self, alloc: Global, entry: Entry) -> Result<Next, AllocError>
        requires accepted { is_accepted entry.reply ≡ true }
        requires due { IsDueIn F.may_return self.old entry.call entry.reply }
        requires no_memory { entry.reply ≢ Refused Memory }
        requires room { 0 < self.old.spare }
        ensures entry { IfOk result (λ n. n.entry ≡ entry) }
        ensures ready { IfOk result
            (CanFollow (prices_of (F.may_return self.new.tariff)) self.new) }
        ensures unchanged { self.new ≡ self.old }
    {
        let mut unshared = self.unshared_picture(alloc)?;
        if apply_entry_unshared(alloc, &mut unshared, &self.tariff, &entry).is_err() {
            self.replicas.keep(Replica {
                picture: unshared,
                entries: self.history.len(),
            });
            return Err(AllocError);
        }
        Ok(Next::accepted(entry, unshared))
    }

    /// As `prepare`, with what is known of the route of an insertion: of a route that was found
    /// nothing is searched, and nothing is checked. A refused call takes no other picture.
    pub fn prepare_from(
        &mut self,
        alloc: Global,
        caller: u32,
        call: Call,
        source: RouteSource<PricedRoute>,
    ) -> Result<Next, AllocError>
        requires { IsSourceIn F.may_return self.old call source }
        ensures { PreparesCall F.may_return caller call self.old self.new result }
    {
        self.history.reserve(1)?;
        let reply = self.decide_where_cached(alloc, call, source)?;
        let entry = Entry {
            caller,
            call,
            reply,
        };
        match entry.reply {
            Reply::Refused(_) => Ok(Next::refused(entry)),
            _ => self.prepare_accepted(alloc, entry),
        }
    }

    /// Carries the call out and enters it. Its reply stands in the history, and is not copied.
    /// Whatever fails, fails before anything changes.
    pub fn enter(&mut self, alloc: Global, caller: u32, call: Call) -> Result<(), AllocError>
        ensures answered { OnOk result ((reply : Reply) × IsAnswered
            (prices_of (F.may_return self.old.tariff)) caller call reply self.old self.new) }
        ensures unchanged { OnErr result (IsUnchanged self.old self.new) }
        ensures same_book { IsSameBook self.old self.new }
    {
        self.enter_from(alloc, caller, call, RouteSource::Search, false)?;
        Ok(())
    }

    /// Carries the call out and enters it. Answers a copy of the reply where it is to be told, and
    /// at times where it is not.
    fn enter_from(
        &mut self,
        alloc: Global,
        caller: u32,
        call: Call,
        source: RouteSource<PricedRoute>,
        is_told: bool,
    ) -> Result<Option<Reply>, AllocError>
        requires { IsSourceIn F.may_return self.old call source }
        ensures answered { IfOk result (λ told. (reply : Reply)
            × IsAnswered (prices_of (F.may_return self.old.tariff))
            caller call reply self.old self.new × (is_told ≡ true → told ≡ Some reply)) }
        ensures unchanged { OnErr result (IsUnchanged self.old self.new) }
        ensures same_book { IsSameBook self.old self.new }
    {
        // A call that is refused again leaves the picture to its readers, too.
        if self.known_refusal(call).is_some() {
            let reply = self.call_on_copy(alloc, caller, call, source)?;
            return Ok(Some(reply));
        }
        let Some(picture) = Arc::get_mut(&mut self.picture) else {
            let reply = self.call_on_copy(alloc, caller, call, source)?;
            return Ok(Some(reply));
        };
        self.history.reserve(1)?;
        let reply = decide_in_place(
            alloc,
            picture,
            &self.tariff,
            call,
            source,
            &mut self.scratch,
        )?;
        let entry = Entry {
            caller,
            call,
            reply,
        };
        let told = told_reply(alloc, &entry, is_told)?;
        apply_entry(alloc, picture, &self.tariff, &entry)?;
        self.history.push_reserved(entry);
        self.have_followed(alloc);
        Ok(told)
    }

    /// Carries the call out and enters it. Whatever fails, fails before anything changes.
    fn call_in_place(
        &mut self,
        alloc: Global,
        caller: u32,
        call: Call,
        source: RouteSource<PricedRoute>,
    ) -> Result<Reply, AllocError>
        requires { IsSourceIn F.may_return self.old call source }
        ensures { AnswersCall F.may_return caller call self.old self.new result }
    {
        match self.enter_from(alloc, caller, call, source, true)? {
            Some(reply) => Ok(reply),
            None => unreachable!(),
        }
    }

    /// As `call_in_place`, where readers share the picture now: the call is made ready on another,
    /// and then entered.
    fn call_on_copy(
        &mut self,
        alloc: Global,
        caller: u32,
        call: Call,
        source: RouteSource<PricedRoute>,
    ) -> Result<Reply, AllocError>
        requires { IsSourceIn F.may_return self.old call source }
        ensures { AnswersCall F.may_return caller call self.old self.new result }
    {
        let next = self.prepare_from(alloc, caller, call, source)?;
        let reply = next.entry().reply.copy(alloc)?;
        self.commit(next);
        Ok(reply)
    }
}
