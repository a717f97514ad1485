//! A long run of calls that a small generator makes.

use crate::picture_rows::falls_apart;
use crate::stories::{Story, tell_at};
use std::alloc::{AllocError, Global};
use std::process::Abort;
use std::sync::atomic::AtomicU32;
use std::test::Fail;
use topo_book::{Book, replay};
use topo_check::replay_io;
use topo_core::calls::{Call, Entry, Refusal, Reply};
use topo_core::limits::Limits;
use topo_core::listed::Listed;
use topo_core::rows::Rows;
use topo_io::reading::CountedReader;
use topo_picture::Picture;
use topo_price::tariff::PriceFn;
use topo_script::{LimitRows, Report, report};
use topo_test_support::books::make;
use topo_test_support::lawful::{is_loaded_again, shows};
use topo_test_support::prices::{Entries, table_of};

/// The prices of kinds 0 to 3, which are those that the calls have.
const PRICES: [Option<u32>; 4] = [Some(1), Some(5), Some(2), None];

/// The prices of all kinds but kind 0.
pub(crate) const ENTRIES: Entries = &[(1, Some(5)), (2, Some(2)), (3, None)];

/// The numbers of a linear congruence modulo 2^32.
#[derive(Drop)]
pub(crate) struct Numbers {
    pub state: u32,
}

impl Numbers {
    /// A number below a bound, and 0 where that is 0.
    pub(crate) fn below(&mut self, bound: u32) -> u32 {
        self.state = self
            .state
            .wrapping_mul(1_664_525)
            .wrapping_add(1_013_904_223);
        (self.state / 65_536).checked_rem(bound).unwrap_or(0)
    }
}

/// The ids that the next edge and the next crossing of a picture get.
fn next_ids(alloc: Global, picture: &Picture) -> Result<(u32, u32), AllocError> {
    let rows = picture.rows(alloc)?;
    let ids = (rows.next_edge, rows.next_crossing);
    drop(rows);
    Ok(ids)
}

/// A growth, an edge between vertices whose numbers are near, or a deletion. Where there are hubs,
/// half of the calls lead an edge to one of so many vertices.
pub(crate) fn next_call(
    alloc: Global,
    numbers: &mut Numbers,
    picture: &Picture,
    hubs: Option<u32>,
) -> Result<Call, AllocError> {
    let (edges, _crossings) = next_ids(alloc, picture)?;
    let vertices = picture.counts().vertices;
    if let Some(hubs) = hubs {
        let kind = numbers.below(4);
        if numbers.below(2) != 0 {
            let (u, v) = (numbers.below(vertices), numbers.below(hubs));
            return Ok(Call::Insert { u, v, kind });
        }
    }
    let kind = numbers.below(4);
    let u = numbers.below(vertices);
    let near = numbers.below(5);
    let edge = numbers.below(edges);
    let choice = numbers.below(6);
    Ok(match choice {
        0 | 1 => {
            let position = if choice == 0 { near } else { 0 };
            Call::Grow { u, position, kind }
        }
        2 => Call::Delete { edge },
        _ => {
            let v = u.wrapping_add(near);
            Call::Insert { u, v, kind }
        }
    })
}

/// Whether the rows are those from before an insertion once its edge is taken out of a copy, but
/// for the ids that are used.
fn is_taken_back(
    alloc: Global,
    picture: &Picture,
    edge: u32,
    before: &mut Rows,
) -> Result<bool, AllocError> {
    (before.next_edge, before.next_crossing) = next_ids(alloc, picture)?;
    let mut copy = picture.copy(alloc)?;
    let deleted = copy.delete(edge).is_ok();
    let same = shows(alloc, &copy, before);
    drop(copy);
    Ok(same? && deleted)
}

/// Whether the picture is what the reply says, where that is seen without knowing the routes. A cut
/// is an edge without which the rows are not connected.
fn is_meant(
    alloc: Global,
    picture: &Picture,
    call: Call,
    reply: &Reply,
    before: &mut Rows,
) -> Result<bool, Fail> {
    match (call, reply) {
        (_, Reply::Inserted(made)) => {
            Ok(is_taken_back(alloc, picture, made.id.number(), before)?)
        }
        (Call::Delete { edge }, Reply::Refused(Refusal::Cut(_))) => {
            let falls = falls_apart(alloc, picture.limits(), before, edge)?;
            Ok(shows(alloc, picture, before)? && falls)
        }
        (_, Reply::Refused(_)) => Ok(shows(alloc, picture, before)?),
        _ => Ok(true),
    }
}

/// The picture that a call left is lawful, and is what its reply says.
fn is_right(
    rt: &impl Abort,
    alloc: Global,
    picture: &Picture,
    call: Call,
    reply: &Result<Reply, AllocError>,
    before: &mut Rows,
) -> Result<(), Fail> {
    let Ok(reply) = reply else {
        return Err("memory".into());
    };
    assert!(rt; is_loaded_again(alloc, picture)?, "{call:?}: {reply:?}");
    assert!(rt;
        is_meant(alloc, picture, call, reply, before)?,
        "{call:?}: {reply:?}"
    );
    Ok(())
}

/// Makes one call, and looks at what comes of it.
fn go_on<F: PriceFn>(
    rt: &impl Abort,
    alloc: Global,
    book: &mut Book<F>,
    numbers: &mut Numbers,
) -> Result<(), Fail> {
    let call = next_call(alloc, numbers, book.picture(), None)?;
    let mut before = book.picture().rows(alloc)?;
    let reply = make(alloc, book, 0, call);
    let told = is_right(rt, alloc, book.picture(), call, &reply, &mut before);
    drop(reply);
    drop(before);
    told
}

/// Whether a reply is of the sort with this number: grown, put in across no edge, put in across
/// some, deleted, cut, full.
fn is_of(reply: &Reply, sort: u32) -> bool {
    match reply {
        Reply::Grown { .. } => sort == 0,
        Reply::Inserted(made) => {
            let crosses = !made.route.crossed.as_slice().is_empty();
            sort == 1 && !crosses || sort == 2 && crosses
        }
        Reply::Deleted(_) => sort == 3,
        Reply::Refused(Refusal::Cut(_)) => sort == 4,
        Reply::Refused(Refusal::Full) => sort == 5,
        Reply::Refused(_) => false,
    }
}

/// There are replies of each sort.
fn has_each_sort(rt: &impl Abort, history: &[Entry]) {
    for sort in 0..6 {
        let had = history
            .iter()
            .filter(|entry| is_of(&entry.reply, sort))
            .count();
        assert!(rt; had >= 3, "sort {sort}: {had}");
    }
}

/// A copy of entries.
fn copies_of(alloc: Global, entries: &[Entry]) -> Result<Listed<Entry>, AllocError> {
    let mut copies = Vec::new(alloc);
    for entry in entries {
        copies.push(entry.copy(alloc)?)?;
    }
    Ok(Listed::from_vec(copies))
}

/// The report that a book is.
fn report_of<F: PriceFn>(alloc: Global, book: &Book<F>) -> Result<Report, AllocError> {
    let limits = book.start().limits();
    Ok(Report {
        limits: LimitRows {
            vertices: limits.vertices,
            edges: limits.edges,
            crossings: limits.crossings,
        },
        prices: Listed::from_vec(Vec::from_slice(alloc, &PRICES)?),
        start: book.start().rows(alloc)?,
        history: copies_of(alloc, book.history())?,
        picture: book.picture().rows(alloc)?,
    })
}

/// The report that a book is passes the command `replay`, which counts its calls.
fn is_reported<F: PriceFn>(rt: &impl Abort, alloc: Global, book: &Book<F>) -> Result<(), Fail> {
    let made = report_of(alloc, book)?;
    let text = report(alloc, &made);
    drop(made);
    let text = text?;
    let mut written: Vec<u8> = Vec::new(alloc);
    let mut reader = CountedReader::new(text.as_str().as_bytes());
    replay_io(alloc, &mut reader, &mut written)?;
    assert!(rt; written.as_slice() == "replayed 250 calls\n".as_bytes());
    Ok(())
}

/// The replay of a book's history is its picture, in which no vertex is missing.
fn is_replayed<F: PriceFn>(rt: &impl Abort, alloc: Global, book: &Book<F>) -> Result<(), Fail> {
    let again = replay(alloc, book.start(), book.history(), book.tariff())?;
    let rows = book.picture().rows(alloc);
    let same = match &rows {
        Ok(rows) => shows(alloc, &again, rows),
        Err(_) => Ok(false),
    };
    let vertices = again.counts().vertices;
    drop(rows);
    drop(again);
    assert!(rt; same?);
    assert!(rt; vertices == 40);
    Ok(())
}

/// A run of calls, its replay, and the replay of its report.
#[derive(Drop)]
struct Run;

impl Story for Run {
    fn tell<F: PriceFn + Drop, R: Abort>(
        &mut self,
        rt: &R,
        alloc: Global,
        book: &mut Book<F>,
        _asked: &AtomicU32,
    ) -> Result<(), Fail> {
        let mut numbers = Numbers { state: 7 };
        for _ in 0..250 {
            go_on(rt, alloc, book, &mut numbers)?;
        }
        is_replayed(rt, alloc, book)?;
        has_each_sort(rt, book.history());
        is_reported(rt, alloc, book)
    }
}

#[test]
fn a_run_of_generated_calls(rt: HostRuntime) -> Result<(), Fail> {
    let table = table_of(PRICES[0], ENTRIES)?;
    let start = Picture::seed(rt.alloc(), Limits::new(40, 1_000, 2_000)?);
    tell_at(&rt, rt.alloc(), start, &table, &mut Run)
}
