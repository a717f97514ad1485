//! Books that begin with pictures at the limits: rows of calls, with what is told of their replies.

ghost use Rattle.topo_price.specs.Prices.{IsPromise};

use crate::replies::{is_deleted, is_grown, is_uncrossed, reply_text};
use crate::starts::{Spiral, Start};
use anyhow::Result;
use std::alloc::{AllocError, Global};
use topo_book::{Book, replay};
use topo_core::calls::{Call, Reply};
use topo_core::rows::Facts;
use topo_price::tariff::PriceFn;
use topo_test_support::books::{book_of, make};

/// What is done with a book, and told.
#[derive(Clone, Copy)]
enum Step {
    /// So many vertices are grown, each from the one before, and the first from vertex 1.
    Grow(u32),
    /// So many vertices are grown from vertex 0.
    Star(u32),
    /// So many edges from vertex 0 to vertex 1 are put in and taken out again, the first with id 1.
    Pairs(u32),
    /// A vertex is grown from this one.
    GrowAt(u32),
    /// An edge of kind 0 is put in between these.
    Insert(u32, u32),
    /// An edge is taken out.
    Delete(u32),
    /// The picture is counted.
    Counts,
    /// The history is carried out once more.
    Replay,
}

/// A picture to begin with, and the steps that are taken from it.
struct Row {
    name: &'static str,
    start: Start,
    steps: &'static [Step],
}

/// The rows. The numbers in them are at the limits, or on both sides of 65,536 and of a million.
const ROWS: &[Row] = &[
    Row {
        name: "vertices one by one",
        start: Start::Seed(1),
        steps: &[
            Step::Grow(65_534),
            Step::GrowAt(65_535),
            Step::Insert(0, 65_535),
            Step::Insert(0, 65_535),
            Step::Counts,
            Step::Replay,
        ],
    },
    Row {
        name: "vertices round one",
        start: Start::Seed(1),
        steps: &[
            Step::Star(65_534),
            Step::GrowAt(0),
            Step::Insert(1, 65_535),
            Step::Counts,
        ],
    },
    Row {
        name: "edge ids one by one",
        start: Start::Seed(1),
        steps: &[
            Step::Pairs(65_535),
            Step::Insert(0, 1),
            Step::GrowAt(0),
            Step::Delete(0),
            Step::Counts,
            Step::Replay,
        ],
    },
    Row {
        name: "next edge 65535",
        start: Start::Seed(65_535),
        steps: &[Step::Insert(0, 1), Step::Insert(0, 1)],
    },
    Row {
        name: "next edge 65536",
        start: Start::Seed(65_536),
        steps: &[Step::Insert(0, 1), Step::GrowAt(0)],
    },
    Row {
        name: "65535 vertices",
        start: Start::Line(65_535),
        steps: &[Step::GrowAt(0), Step::GrowAt(0), Step::Insert(0, 65_534)],
    },
    Row {
        name: "65536 vertices",
        start: Start::Line(65_536),
        steps: &[
            Step::GrowAt(0),
            Step::Insert(65_535, 1),
            Step::Insert(0, 1),
            Step::Counts,
        ],
    },
    Row {
        name: "65536 edges",
        start: Start::Ring(65_536),
        steps: &[
            Step::Counts,
            Step::Insert(0, 1),
            Step::Delete(65_535),
            Step::Delete(0),
            Step::Insert(0, 1),
            Step::Counts,
        ],
    },
    Row {
        name: "90000 crossing ids, most of them gone",
        start: Start::Spiral(Spiral {
            parts: 30,
            each: 1_000,
            stride: 3,
            given: 90_000,
        }),
        steps: &[
            Step::Insert(0, 30),
            Step::Counts,
            Step::Delete(31),
            Step::Insert(0, 30),
            Step::Counts,
            Step::Replay,
        ],
    },
    Row {
        name: "1048575 crossing ids",
        start: Start::Spiral(Spiral {
            parts: 1,
            each: 2,
            stride: 1,
            given: 1_048_575,
        }),
        steps: &[
            Step::Insert(0, 1),
            Step::Insert(0, 1),
            Step::Insert(0, 2),
            Step::Counts,
        ],
    },
    Row {
        name: "price 65000",
        start: Start::Wound(66),
        steps: &[Step::Insert(0, 1)],
    },
    Row {
        name: "price 66000",
        start: Start::Wound(67),
        steps: &[Step::Insert(0, 1)],
    },
    Row {
        name: "price 1000000",
        start: Start::Wound(1_001),
        steps: &[Step::Insert(0, 1)],
    },
    Row {
        name: "price 1001000",
        start: Start::Wound(1_002),
        steps: &[Step::Insert(0, 1)],
    },
    Row {
        name: "4096 crossings",
        start: Start::Wound(4_097),
        steps: &[Step::Insert(0, 1), Step::Replay],
    },
    Row {
        name: "65999 crossings",
        start: Start::Spiral(Spiral {
            parts: 66,
            each: 1_000,
            stride: 1,
            given: 66_000,
        }),
        steps: &[Step::Insert(0, 66), Step::Replay, Step::Delete(67)],
    },
    Row {
        name: "1048576 crossing ids, half of them by a call",
        start: Start::Spiral(Spiral {
            parts: 2_048,
            each: 256,
            stride: 1,
            given: 524_289,
        }),
        steps: &[
            Step::Insert(0, 2_048),
            Step::Counts,
            Step::Insert(0, 2_048),
            Step::Insert(0, 2_049),
            Step::Insert(0, 2_049),
            Step::Counts,
            Step::Delete(2_049),
            Step::Insert(0, 2_048),
            Step::Counts,
        ],
    },
    Row {
        name: "1048576 windings",
        start: Start::Spiral(Spiral {
            parts: 4_096,
            each: 256,
            stride: 1,
            given: 1_048_576,
        }),
        steps: &[
            Step::Counts,
            Step::Insert(0, 4_096),
            Step::Insert(0, 4_097),
            Step::Insert(4_096, 4_098),
            Step::Counts,
        ],
    },
];

/// What is told of a call.
fn call_text<F: PriceFn>(
    alloc: Global,
    book: &mut Book<F>,
    call: Call,
    each: u32,
) -> Result<String> {
    let reply = make(alloc, book, 0, call);
    let text = reply_text(alloc, &reply, each);
    drop(reply);
    Ok(text?)
}

/// Whether a growth from a vertex gives an edge of this id, and the vertex of the number after it.
fn grows<F: PriceFn>(alloc: Global, book: &mut Book<F>, u: u32, edge: u32) -> bool {
    let reply = book.grow(alloc, 0, u, 0, 0);
    let is_due = is_grown(&reply, edge.saturating_add(1), edge);
    drop(reply);
    is_due
}

/// Grows so many vertices, all from vertex 0 or each from the one before.
fn grow_text<F: PriceFn>(
    alloc: Global,
    book: &mut Book<F>,
    times: u32,
    is_star: bool,
) -> Result<String> {
    for edge in 1..=times {
        let u = if is_star { 0 } else { edge };
        if !grows(alloc, book, u, edge) {
            return Ok(format!(in alloc; "no edge {edge}")?);
        }
    }
    Ok(format!(in alloc; "grown {times}")?)
}

/// Whether a call has a reply, and it is as due.
fn is_answered<F: PriceFn, C: Fn(&Reply) -> bool>(
    alloc: Global,
    book: &mut Book<F>,
    call: Call,
    is_due: C,
) -> bool
    requires { C.IsAlwaysCallable is_due }
{
    match make(alloc, book, 0, call) {
        Ok(reply) => {
            let told = is_due(&reply);
            drop(reply);
            told
        }
        Err(_) => false,
    }
}

/// Whether an edge is put in between vertices 0 and 1, with this id, and taken out again.
fn comes_and_goes<F: PriceFn>(alloc: Global, book: &mut Book<F>, edge: u32) -> bool {
    let insert = Call::Insert {
        u: 0,
        v: 1,
        kind: 0,
    };
    is_answered(alloc, book, insert, |reply| is_uncrossed(reply, edge))
        && is_answered(
            alloc,
            book,
            Call::Delete { edge },
            |reply| is_deleted(reply, edge),
        )
}

/// Puts so many edges in and takes them out again, one after the other.
fn pairs_text<F: PriceFn>(alloc: Global, book: &mut Book<F>, times: u32) -> Result<String> {
    for edge in 1..=times {
        if !comes_and_goes(alloc, book, edge) {
            return Ok(format!(in alloc; "no edge {edge}")?);
        }
    }
    Ok(format!(in alloc; "{times} put in and taken out")?)
}

/// How large the picture is.
fn counts_text<F: PriceFn>(alloc: Global, book: &Book<F>) -> Result<String> {
    let counts = book.picture().counts();
    Ok(format!(in alloc;
        "{} vertices, {} crossings, {} edges, {} segments, {} faces",
        counts.vertices, counts.crossings, counts.edges, counts.segments, counts.faces
    )?)
}

/// How the history is carried out once more.
fn replay_text<F: PriceFn>(alloc: Global, book: &Book<F>) -> Result<String> {
    let again = replay(alloc, book.start(), book.history(), book.tariff());
    let text = match &again {
        Ok(_) => format!(in alloc; "replayed {}", book.history().len()),
        Err(fault) => format!(in alloc; "{fault}"),
    };
    drop(again);
    Ok(text?)
}

/// Takes a step, and tells of it.
fn step_text<F: PriceFn>(
    alloc: Global,
    book: &mut Book<F>,
    step: Step,
    each: u32,
) -> Result<String> {
    match step {
        Step::Grow(times) => grow_text(alloc, book, times, false),
        Step::Star(times) => grow_text(alloc, book, times, true),
        Step::Pairs(times) => pairs_text(alloc, book, times),
        Step::GrowAt(u) => call_text(
            alloc,
            book,
            Call::Grow {
                u,
                position: 0,
                kind: 0,
            },
            each,
        ),
        Step::Insert(u, v) => call_text(alloc, book, Call::Insert { u, v, kind: 0 }, each),
        Step::Delete(edge) => call_text(alloc, book, Call::Delete { edge }, each),
        Step::Counts => counts_text(alloc, book),
        Step::Replay => replay_text(alloc, book),
    }
}

/// Takes the steps of a row, and prints a line for each.
fn take_steps<R: Print + AllocGlobal, F: PriceFn>(
    rt: &R,
    book: &mut Book<F>,
    row: &Row,
) -> Result<()> {
    let each = row.start.each();
    for step in row.steps {
        let text = step_text(rt.alloc(), book, *step, each)?;
        println!(rt; "  {text}")?;
    }
    Ok(())
}

/// A row at the prices of a closure.
fn tell_row<R: Print + AllocGlobal, F: PriceFn + Drop>(rt: &R, row: &Row, ask: F) -> Result<()>
    requires callable { F.is_callable ask }
    requires promise { IsPromise (F.may_return ask) }
{
    println!(rt; "{}:", row.name)?;
    let mut book = book_of(rt.alloc(), row.start.picture(rt.alloc())?, ask)?;
    let told = take_steps(rt, &mut book, row);
    drop(book);
    told
}

/// Each row, where to cross any edge costs 1000.
pub(crate) fn tell_books<R: Print + AllocGlobal>(rt: &R) -> Result<()> {
    for row in ROWS {
        tell_row(rt, row, |_facts: &Facts| Some(1000))?;
    }
    Ok(())
}
