//! The replay of a list of entries.

ghost use Rattle.std.specs.Prelude.{◌≡◌, IfErr, IfOk, MatchBool, OnOk};
ghost use Rattle.topo_core.specs.History.{Replays};
ghost use Rattle.topo_core.specs.Steps.{Step};
ghost use Rattle.topo_rows.specs.Shown.{IsPicture};
ghost use Rattle.topo_price.specs.Prices.{prices_of};
ghost use Rattle.topo_book.specs.Books.{IsBook, IsDue, ReplaysLawfully};
ghost use Rattle.topo_book.specs.Faults.{IsFaultOf, IsIllegalAt};

use crate::route_source::RouteSource;
use crate::scratch::Scratch;
use crate::steps::{apply_entry, decide_in_place};
use std::alloc::{AllocError, Global};
use std::fmt;
use thiserror::Error;
use topo_core::calls::{Entry, Reply};
use topo_faults::Fault;
use topo_picture::Picture;
use topo_price::tariff::{PriceFn, Tariff};

/// Why a list of entries has no replay: the fault of the same name. It is printed as that and its
/// place.
#[derive(Clone, Copy, Debug, Drop, PartialEq, Eq, Error)]
pub enum ReplayFault {
    /// The entry at this place, counted from 0, is the first whose reply is not the one due.
    WrongReply(usize),
    Memory,
}

impl ReplayFault {
    ghost use Rattle.topo_book.specs.FaultTexts.{fault_of};

    /// The fault that it is.
    pub fn fault(&self) -> Fault
        ensures { result ≡ fault_of self.now }
    {
        match self {
            ReplayFault::WrongReply(_) => Fault::WrongReply,
            ReplayFault::Memory => Fault::Memory,
        }
    }
}

impl fmt::Display for ReplayFault {
    ghost use Rattle.std.specs.Prelude.{Some};
    ghost use Rattle.topo_book.specs.FaultTexts.{fault_text};

    ghost output = { λ fault. Some (fault_text fault) };

    fn fmt<W: fmt::Write>(&self, f: &mut fmt::Formatter<W>) -> fmt::Result {
        let fault = self.fault();
        match self {
            ReplayFault::WrongReply(place) => write!(f, "{fault} {place}"),
            ReplayFault::Memory => write!(f, "{fault}"),
        }
    }
}

/// Carries an entry out where its reply is the one due, and answers whether it is.
#[tactic(auto, using(crate::proofs::SourceLaws::nothing_is_owed))]
fn replay_entry<F: PriceFn>(
    alloc: Global,
    picture: &mut Picture,
    tariff: &Tariff<F>,
    entry: &Entry,
    scratch: &mut Scratch,
) -> Result<bool, AllocError>
    requires { IsPicture picture.old.limits picture.old.rows }
    ensures due { IfOk result
        (λ due. MatchBool due (Step (prices_of (F.may_return tariff.now))
        picture.old.limits picture.old.rows entry.now.call entry.now.reply picture.new.rows)
        (IsDue (prices_of (F.may_return tariff.now))
        picture.old.limits picture.old.rows entry.now.call entry.now.reply → ⊥)) }
    ensures same_limits { picture.new.limits ≡ picture.old.limits }
    ensures lawful { IsPicture picture.new.limits picture.new.rows }
{
    let reply = decide_in_place(
        alloc,
        picture,
        tariff,
        entry.call,
        RouteSource::Search,
        scratch,
    )?;
    if !reply.equals(&entry.reply) {
        return Ok(false);
    }
    apply_entry(alloc, picture, tariff, entry)?;
    Ok(true)
}

/// Carries the entries out on a picture, one after the other. A reply that is not the one due in
/// the picture at that point ends it.
fn replay_all<F: PriceFn>(
    alloc: Global,
    picture: &mut Picture,
    tariff: &Tariff<F>,
    entries: &[Entry],
    scratch: &mut Scratch,
) -> Result<(), ReplayFault>
    requires { IsPicture picture.old.limits picture.old.rows }
    ensures replayed { OnOk result (ReplaysLawfully (prices_of (F.may_return tariff.now))
        picture.old.limits picture.old.rows entries.now picture.new.rows) }
    ensures same_limits { picture.new.limits ≡ picture.old.limits }
    ensures lawful { IsPicture picture.new.limits picture.new.rows }
    ensures first_wrong { IfErr result (IsFaultOf (prices_of (F.may_return tariff.now))
        picture.old.limits picture.old.rows entries.now) }
    ensures illegal { IfErr result (IsIllegalAt (prices_of (F.may_return tariff.now))
        picture.old.limits picture.old.rows entries.now) }
{
    for (index, entry) in entries.iter().enumerate() {
        match replay_entry(alloc, picture, tariff, entry, scratch) {
            Ok(true) => {}
            Ok(false) => return Err(ReplayFault::WrongReply(index)),
            Err(_) => return Err(ReplayFault::Memory),
        }
    }
    Ok(())
}

/// How many vertices and how many edges entries add, if their replies are the ones due. No contract
/// rests on it.
fn most_added(entries: &[Entry]) -> (usize, usize) {
    let mut vertices = 0usize;
    let mut edges = 0usize;
    for entry in entries {
        match entry.reply {
            Reply::Grown { .. } => {
                vertices = vertices.saturating_add(1);
                edges = edges.saturating_add(1);
            }
            Reply::Inserted(_) => edges = edges.saturating_add(1),
            Reply::Deleted(_) | Reply::Refused(_) => {}
        }
    }
    (vertices, edges)
}

/// The picture that the entries lead to from the start, each call carried out again. A reply that
/// is not the one due in the picture at that point ends it. The start is copied, and stays. Room
/// for what the entries add is made first.
pub fn replay<F: PriceFn>(
    alloc: Global,
    start: &Picture,
    entries: &[Entry],
    tariff: &Tariff<F>,
) -> Result<Picture, ReplayFault>
    ensures replayed { IfOk result (λ p. Replays (prices_of (F.may_return tariff.now))
        start.now.limits start.now.rows entries.now p.rows) }
    ensures book { IfOk result
        (IsBook (prices_of (F.may_return tariff.now)) start.now entries.now) }
    ensures same_limits { IfOk result (λ p. p.limits ≡ start.now.limits) }
    ensures lawful { IfOk result (λ p. IsPicture p.limits p.rows) }
    ensures first_wrong { IfErr result
        (IsFaultOf (prices_of (F.may_return tariff.now))
        start.now.limits start.now.rows entries.now) }
    ensures illegal { IfErr result (IsIllegalAt (prices_of (F.may_return tariff.now))
        start.now.limits start.now.rows entries.now) }
{
    let Ok(mut picture) = start.copy(alloc) else {
        return Err(ReplayFault::Memory);
    };
    let (vertices, edges) = most_added(entries);
    if picture.reserve(vertices, edges).is_err() {
        return Err(ReplayFault::Memory);
    }
    let Ok(mut scratch) = Scratch::new(alloc) else {
        return Err(ReplayFault::Memory);
    };
    replay_all(alloc, &mut picture, tariff, entries, &mut scratch)?;
    Ok(picture)
}
