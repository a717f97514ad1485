//! Stories of a book as lists of steps.

use crate::stories::{Story, tell_at};
use std::alloc::{AllocError, Global};
use std::process::Abort;
use std::sync::atomic::{AtomicU32, Ordering};
use std::test::Fail;
use topo_book::{Book, Next, ReplayFault, replay};
use topo_core::calls::{Entry, Refusal, Reply};
use topo_core::ids::{EdgeId, VertexId};
use topo_core::limits::Limits;
use topo_picture::Picture;
use topo_price::tariff::PriceFn;
use topo_test_support::calls::grow;
use topo_test_support::prices::table_of;

/// The number of the grown vertex and of its edge, or why there is none.
type Due = Result<(u32, u32), Refusal>;

/// What a book does at one step, and what it tells then.
#[derive(Clone, Copy, Debug)]
pub(crate) enum Step {
    /// It makes a growth in place, by its caller, vertex, position and kind, and tells the reply.
    Grow(u32, u32, u32, u32),
    /// It makes an insertion in place, by its caller, ends and kind, and tells the reply.
    Insert(u32, u32, u32, u32),
    /// It makes a growth in place, by its caller and vertex, and tells the last entry then.
    Untold(u32, u32),
    /// It makes a growth of this caller ready and enters it. It tells what it is made ready as,
    /// whether with a picture, and after how many entries it is entered.
    Enter(u32),
    /// It tells its history.
    History,
    /// It tells how many vertices its start, its picture and the replay of its history have.
    Sizes,
    /// It tells how many vertices the replay of growths with these replies from its start has.
    Replay(&'static [Due]),
    /// It puts an edge in from one vertex to another, and tells how many edges it crosses. It tells
    /// how many prices that asked for, where they are more than so many.
    Cross(u32, u32, u32),
}

/// Steps, and what is told at each.
#[derive(Drop)]
pub(crate) struct Steps(pub(crate) &'static [(Step, &'static str)]);

/// The text of a reply.
fn text_of(alloc: Global, reply: Reply) -> Result<String, AllocError> {
    let text = format!(in alloc; "{reply:?}");
    drop(reply);
    text
}

/// What a call is made ready as, and how many entries the book has before it is entered.
fn text_of_next(alloc: Global, next: &Next, entries: usize) -> Result<String, AllocError> {
    let has_picture = next.picture().is_some();
    format!(in alloc; "{:?} {has_picture} after {entries}", next.entry())
}

/// Makes a growth in the first corner of vertex 0 ready, and enters it. The text says what it is
/// made ready as, and how many entries the book has before it is entered.
fn enter<F: PriceFn>(alloc: Global, book: &mut Book<F>, caller: u32) -> Result<String, AllocError> {
    let next = book.prepare(alloc, caller, grow(0))?;
    let told = text_of_next(alloc, &next, book.history().len());
    book.commit(next);
    told
}

/// How many vertices the replay of entries from the start of a book has.
fn replayed<F: PriceFn>(
    alloc: Global,
    book: &Book<F>,
    entries: &[Entry],
) -> Result<u32, ReplayFault> {
    let picture = replay(alloc, book.start(), entries, book.tariff())?;
    let vertices = picture.counts().vertices;
    drop(picture);
    Ok(vertices)
}

/// Growths in the first corner of vertex 0 with these replies.
fn growths(alloc: Global, replies: &[Due]) -> Result<Vec<Entry>, AllocError> {
    let mut entries = Vec::new(alloc);
    for due in replies {
        let reply = match due {
            Ok((vertex, edge)) => Reply::Grown {
                vertex: VertexId::new(*vertex),
                edge: EdgeId::new(*edge),
            },
            Err(refusal) => Reply::Refused(*refusal),
        };
        entries.push(Entry {
            caller: 0,
            call: grow(0),
            reply,
        })?;
    }
    Ok(entries)
}

/// How many edges an edge that was put in crosses, and how many prices were asked for, if they are
/// more than so many.
fn text_of_crossed(
    alloc: Global,
    reply: &Reply,
    asked: u32,
    most: u32,
) -> Result<String, AllocError> {
    match reply {
        Reply::Inserted(made) if asked <= most => {
            format!(in alloc; "crosses {}", made.route.crossed.len())
        }
        Reply::Inserted(made) => {
            format!(in alloc; "crosses {} for {asked} prices", made.route.crossed.len())
        }
        _ => format!(in alloc; "{reply:?}"),
    }
}

/// Takes a step, and tells what came of it.
fn take<F: PriceFn>(
    alloc: Global,
    book: &mut Book<F>,
    asked: &AtomicU32,
    step: Step,
) -> Result<String, Fail> {
    match step {
        Step::Grow(caller, u, position, kind) => {
            Ok(text_of(alloc, book.grow(alloc, caller, u, position, kind)?)?)
        }
        Step::Insert(caller, u, v, kind) => {
            Ok(text_of(alloc, book.insert(alloc, caller, u, v, kind)?)?)
        }
        Step::Untold(caller, u) => {
            book.enter(alloc, caller, grow(u))?;
            Ok(format!(in alloc; "{:?}", book.history().last())?)
        }
        Step::Enter(caller) => Ok(enter(alloc, book, caller)?),
        Step::History => Ok(format!(in alloc; "{:?}", book.history())?),
        Step::Sizes => {
            let (start, now) = (book.start().counts(), book.picture().counts());
            let again = replayed(alloc, book, book.history());
            Ok(format!(in alloc; "{} {} {again:?}", start.vertices, now.vertices)?)
        }
        Step::Replay(replies) => {
            let entries = growths(alloc, replies)?;
            let again = replayed(alloc, book, entries.as_slice());
            drop(entries);
            Ok(format!(in alloc; "{again:?}")?)
        }
        Step::Cross(u, v, most) => {
            asked.store(0, Ordering::SeqCst);
            let reply = book.insert(alloc, 0, u, v, 0)?;
            let told = text_of_crossed(alloc, &reply, asked.load(Ordering::SeqCst), most);
            drop(reply);
            Ok(told?)
        }
    }
}

impl Story for Steps {
    fn tell<F: PriceFn + Drop, R: Abort>(
        &mut self,
        rt: &R,
        alloc: Global,
        book: &mut Book<F>,
        asked: &AtomicU32,
    ) -> Result<(), Fail> {
        for (step, due) in self.0 {
            let told = take(alloc, book, asked, *step)?;
            assert!(rt; told.as_str() == *due, "{step:?}: {told}, not {due}");
        }
        Ok(())
    }
}

/// The history of the calls of the first story.
const ENTERED: &str = "[Entry { caller: 3, call: Grow { u: 1, position: 0, kind: 2 }, \
    reply: Grown { vertex: VertexId(2), edge: EdgeId(1) } }, \
    Entry { caller: 1, call: Grow { u: 7, position: 0, kind: 0 }, reply: Refused(NoVertex) }, \
    Entry { caller: 1, call: Grow { u: 0, position: 1, kind: 0 }, reply: Refused(NoPosition) }, \
    Entry { caller: 2, call: Insert { u: 2, v: 2, kind: 0 }, reply: Refused(SameEnds) }, \
    Entry { caller: 2, call: Insert { u: 0, v: 1, kind: 64 }, reply: Refused(BadKind) }, \
    Entry { caller: 0, call: Grow { u: 0, position: 0, kind: 0 }, reply: Refused(Full) }]";

/// What a growth is made ready as.
const GROWTH: &str = "Entry { caller: 5, call: Grow { u: 0, position: 0, kind: 0 }, \
    reply: Grown { vertex: VertexId(2), edge: EdgeId(1) } } true after 0";

/// What a growth in a full picture is made ready as.
const REFUSAL: &str =
    "Entry { caller: 6, call: Grow { u: 0, position: 0, kind: 0 }, reply: Refused(Full) } \
    false after 1";

/// The history of both.
const BOTH: &str = "[Entry { caller: 5, call: Grow { u: 0, position: 0, kind: 0 }, \
    reply: Grown { vertex: VertexId(2), edge: EdgeId(1) } }, \
    Entry { caller: 6, call: Grow { u: 0, position: 0, kind: 0 }, reply: Refused(Full) }]";

/// Stories of books that begin with the seed, which has room for three vertices and three edges.
const STORIES: &[&[(Step, &str)]] = &[
    // a growth and a refusal of which nobody is told
    &[
        (
            Step::Untold(4, 1),
            "Some(Entry { caller: 4, call: Grow { u: 1, position: 0, kind: 0 }, \
            reply: Grown { vertex: VertexId(2), edge: EdgeId(1) } })",
        ),
        (
            Step::Untold(6, 9),
            "Some(Entry { caller: 6, call: Grow { u: 9, position: 0, kind: 0 }, \
            reply: Refused(NoVertex) })",
        ),
        (Step::Sizes, "2 3 Ok(3)"),
    ],
    // a growth, four refusals and another growth, each with its caller
    &[
        (
            Step::Grow(3, 1, 0, 2),
            "Grown { vertex: VertexId(2), edge: EdgeId(1) }",
        ),
        (Step::Grow(1, 7, 0, 0), "Refused(NoVertex)"),
        (Step::Grow(1, 0, 1, 0), "Refused(NoPosition)"),
        (Step::Insert(2, 2, 2, 0), "Refused(SameEnds)"),
        (Step::Insert(2, 0, 1, 64), "Refused(BadKind)"),
        (Step::Grow(0, 0, 0, 0), "Refused(Full)"),
        (Step::History, ENTERED),
        (Step::Sizes, "2 3 Ok(3)"),
    ],
    // a growth and a refusal that are made ready and entered
    &[
        (Step::Enter(5), GROWTH),
        (Step::Enter(6), REFUSAL),
        (Step::Sizes, "2 3 Ok(3)"),
        (Step::History, BOTH),
    ],
    // a full picture judges vertex and kind before it says that it is full
    &[
        (Step::Enter(5), GROWTH),
        (Step::Grow(0, 7, 9, 64), "Refused(NoVertex)"),
        (Step::Grow(0, 0, 0, 64), "Refused(BadKind)"),
        (Step::Grow(0, 0, 0, 0), "Refused(Full)"),
    ],
    // the replay names the first wrong reply
    &[
        (Step::Replay(&[Ok((2, 1)), Err(Refusal::Full)]), "Ok(3)"),
        (Step::Replay(&[Ok((2, 2))]), "Err(WrongReply(0))"),
        (
            Step::Replay(&[Ok((2, 1)), Ok((3, 2))]),
            "Err(WrongReply(1))",
        ),
        (
            Step::Replay(&[Ok((2, 1)), Err(Refusal::Memory)]),
            "Err(WrongReply(1))",
        ),
    ],
];

#[test]
fn calls_are_answered_entered_in_order_and_replayed(rt: HostRuntime) -> Result<(), Fail> {
    let table = table_of(Some(1), &[])?;
    for steps in STORIES {
        let start = Picture::seed(rt.alloc(), Limits::new(3, 3, 0)?);
        tell_at(&rt, rt.alloc(), start, &table, &mut Steps(*steps))?;
    }
    Ok(())
}
