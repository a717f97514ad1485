//! Shows that a refused growth of memory changes nothing. Each call that takes memory is a row: what
//! is called, and on what. If it answers out of memory, all that must be as before is compared, a
//! line that begins with `changed:` is printed if something differs, and the same call is made
//! again. So a run in which one allocation fails prints what a run with ample memory prints.
//!
//! Standard error names each call that is out of memory. The script refuse in the repository
//! refuses the allocations one by one.
#![tactic(auto)]

ghost use Rattle.topo_price.specs.Prices.{IsPromise};

use anyhow::Result;
use std::alloc::{AllocError, Global};
use std::io;
use std::sync::Arc;
use topo_core::calls::Call;
use topo_core::rows::{Facts, Rows};
use topo_map::Embedding;
use topo_picture::Picture;
use topo_price::tariff::{PriceFn, Tariff};
use topo_test_support::calls::{delete, grow, insert};
use topo_test_support::pictures::{BARRIER, BIPYRAMID, HEXAGON, Named, picture_of, rows_of};
use topo_test_support::prices::{Entries, FIVE_TWO_NINE, table_of};

mod books;
mod desk;
mod embeddings;
mod judge;
mod lists;
mod pictures;
mod scripts;
mod services;

use desk::Desk;
use desk::Row::{
    self, Apply, Begin, Copy, Delete, Freeze, GiveRows, Grow, Load, Make, Number, Planned, Ready,
    ReadyPlanned, Replay, ReplayFromNow, Search,
};
use embeddings::{EmbeddingCase, EmbeddingRow};
use judge::{BOOKKEEPING, Runtime, judge_all, tell, twice};
use lists::Watch;
use scripts::judge_script;
use services::serve;

/// The prices of a closure, to be shared.
fn shared<F: PriceFn + Drop, R: Runtime>(rt: &R, ask: F) -> Result<Arc<Tariff<F>>>
    requires callable { F.is_callable ask }
    requires promise { IsPromise (F.may_return ask) }
{
    match Arc::new(rt.alloc(), Tariff::new(ask)) {
        Ok(tariff) => Ok(tariff),
        Err(failed) => {
            tell(rt, BOOKKEEPING);
            Ok(Arc::new(rt.alloc(), failed.value).map_err(AllocError::from)?)
        }
    }
}

/// A picture that is known by its name.
fn loaded(alloc: Global, named: &Named) -> Result<Picture, AllocError> {
    match picture_of(alloc, named) {
        Ok(picture) => Ok(picture),
        Err(_) => Err(AllocError),
    }
}

/// The calls of rows on a picture that these rows load as, at the prices of a closure. If no book is
/// begun, a service begins with the picture, and then its book is replayed.
fn judge_at<F: PriceFn + Drop + Send + Sync, R: Runtime>(
    rt: &R,
    rows: Rows,
    picture: Picture,
    groups: &[&[Row]],
    watch: &Watch,
    ask: F,
) -> Result<()>
    requires callable { F.is_callable ask }
    requires promise { IsPromise (F.may_return ask) }
{
    let tariff = shared(rt, ask)?;
    let frozen = twice(rt, |alloc| picture.freeze(alloc))?;
    let mut desk = Desk {
        tariff,
        rows,
        picture,
        frozen,
        plan: None,
        book: None,
    };
    judge_all(rt, &mut desk, groups)?;
    if desk.book.is_none() {
        desk.book = serve(rt, &desk.picture, &desk.tariff, watch)?;
        judge_all(rt, &mut desk, &[&[Replay]])?;
    }
    Ok(())
}

/// The calls of rows on a named picture, at a price of 1 but for these kinds.
fn judge_rows<R: Runtime>(rt: &R, named: &Named, prices: Entries, groups: &[&[Row]]) -> Result<()> {
    println!(rt; "{}", named.name)?;
    let rows = twice(rt, |alloc| rows_of(alloc, named))?;
    let picture = twice(rt, |alloc| loaded(alloc, named))?;
    let (table, watch) = (table_of(Some(1), prices)?, Watch::new());
    let ask = |facts: &Facts| {
        watch.ask();
        table.price(facts.kind)
    };
    judge_at(rt, rows, picture, groups, &watch, ask)
}

/// The calls of named pictures, and of books that begin with them. From apex to apex of the
/// bipyramid the book inserts in each way, with a plan that passes the check and one that does not.
/// At the barrier an edge goes out across the base and back in; the edge across the base is a cut,
/// and is not taken out. The third chord of the hexagon crosses an edge of the ring, and its plan is
/// refused once a vertex has grown.
fn tell_stories<R: Runtime>(rt: &R) -> Result<()> {
    let (join, across, chord) = (insert(3, 4), insert(4, 5), insert(2, 5));
    let apexes: &[&[Row]] = &[
        &[Load, Copy, GiveRows, Number, Freeze, Search(4, 3)],
        &[Search(3, 4), Apply(3, 4), Delete(9), Delete(9)],
        &[Grow(3, 1, 7), Grow(3, 9, 7), Load, Begin, Make(join)],
        &[Make(delete(9)), Planned(join), Planned(join)],
        &[Make(delete(10)), Ready(delete(11)), ReadyPlanned(join)],
        &[Ready(insert(3, 3)), Replay, ReplayFromNow],
    ];
    judge_rows(rt, &BIPYRAMID, FIVE_TWO_NINE, apexes)?;
    let leaf = Call::Grow {
        u: 4,
        position: 1,
        kind: 7,
    };
    let base: &[&[Row]] = &[
        &[Load, Copy, GiveRows, Number, Freeze, Search(5, 4)],
        &[Search(4, 5), Apply(4, 5), Delete(6), Delete(3)],
        &[Grow(4, 0, 0), Load, Begin, Ready(across), Make(delete(6))],
        &[Make(delete(3)), ReadyPlanned(across), Ready(leaf)],
        &[Replay, ReplayFromNow],
    ];
    judge_rows(rt, &BARRIER, &[(1, Some(9))], base)?;
    let chords: &[&[Row]] = &[
        &[Load, Copy, GiveRows, Number, Freeze, Search(2, 5), Begin],
        &[Make(chord), Make(delete(8)), Make(grow(2))],
        &[Make(delete(9)), Planned(chord), Replay, ReplayFromNow],
    ];
    judge_rows(rt, &HEXAGON, &[], chords)
}

/// All calls, one after the other.
fn run<R: Runtime>(rt: &R) -> Result<()> {
    tell_stories(rt)?;
    let (embedding, _) = twice(rt, |alloc| Embedding::seed(alloc, 0))?;
    let mut case = EmbeddingCase { embedding };
    let one = &[
        EmbeddingRow::Seed,
        EmbeddingRow::Reserve(1000),
        EmbeddingRow::Copy,
    ];
    let two = &[
        EmbeddingRow::FromTurns,
        EmbeddingRow::Reserve(1000),
        EmbeddingRow::Copy,
    ];
    judge_all(rt, &mut case, &[one, two])?;
    judge_rows(rt, &BIPYRAMID, FIVE_TWO_NINE, &[&[Load]])?;
    judge_script(rt)
}

/// Each run ends with the same status, so that any fault shows as other output.
fn main(rt: HostRuntime) -> io::Result<()> {
    match run(&rt) {
        Ok(()) => Ok(()),
        Err(error) => println!(rt; "failed: {error}"),
    }
}
