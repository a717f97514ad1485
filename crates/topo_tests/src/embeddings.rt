//! The five edits of an embedding, and what is read off it.

use crate::generated::Numbers;
use std::alloc::{AllocError, Global};
use std::process::Abort;
use std::test::Fail;
use topo_map::{Embedding, Half};

/// An edit at a half. A new segment has the number of its edge.
#[derive(Clone, Copy, Debug)]
enum Edit {
    /// An edge that hangs before it.
    Hang(u32),
    /// A point on its segment.
    Split,
    /// A chord to another half.
    Chord(u32),
    /// Its segment is taken out.
    Unchord,
    /// The point where it is one of two halves is taken out.
    Smooth,
}

/// A new segment from `c`, where `c` and `d` are there and there is room; none for another edit. So
/// few labels are given here that faces keep theirs.
fn add(embedding: &mut Embedding, c: Half, d: Half, edit: Edit) -> Option<Half> {
    if !embedding.contains(c) || !embedding.contains(d) || embedding.room() == 0 {
        return None;
    }
    match edit {
        Edit::Hang(edge) => Some(embedding.hang(c, edge)),
        Edit::Split => Some(embedding.split(c)),
        Edit::Chord(edge) => {
            let (half, are_kept) = embedding.chord(c, d, edge);
            if are_kept { Some(half) } else { None }
        }
        Edit::Unchord | Edit::Smooth => None,
    }
}

/// Takes a point out where two halves of two segments are. The answer is whether it was.
fn smooth(embedding: &mut Embedding, x: Half) -> bool {
    if !embedding.contains(x) {
        return false;
    }
    let other = embedding.turn(x);
    if other == x || other == x.twin() || embedding.turn(other) != x {
        return false;
    }
    embedding.smooth(x);
    true
}

/// Makes an edit where it can be made, and takes a segment out where there is no room for a new
/// one. The answer is whether it was made. The halves of a new segment are added to the list.
fn make(
    embedding: &mut Embedding,
    halves: &mut Vec<Half>,
    c: Half,
    d: Half,
    edit: Edit,
) -> Result<bool, AllocError> {
    if let Some(x) = add(embedding, c, d, edit) {
        halves.extend_from_slice(&[x, x.twin()])?;
        return Ok(true);
    }
    if !embedding.contains(c) || !embedding.contains(d) {
        return Ok(false);
    }
    if let Edit::Smooth = edit {
        return Ok(smooth(embedding, c));
    }
    embedding.unchord(c);
    Ok(true)
}

/// Whether a walk round the face of `a` meets `b`.
fn is_met(embedding: &Embedding, a: Half, b: Half) -> bool {
    let mut at = a;
    for _ in 0..1000 {
        if at == b {
            return true;
        }
        if !embedding.contains(at) {
            return false;
        }
        at = embedding.face_next(at);
        if at == a {
            return false;
        }
    }
    false
}

/// Two halves are said to lie in one face exactly where a walk says so.
fn are_labelled(rt: &impl Abort, embedding: &Embedding, halves: &[Half]) {
    for a in halves {
        for b in halves {
            if embedding.contains(*a) && embedding.contains(*b) {
                assert!(rt; embedding.same_face(*a, *b) == is_met(embedding, *a, *b));
            }
        }
    }
}

/// A random half of those there are, if there are any. A half that is gone is answered too.
fn one_of(numbers: &mut Numbers, halves: &[Half]) -> Option<Half> {
    let place = numbers.below(halves.len().min(1000) as u32) as usize;
    halves.get(place).copied()
}

/// The edits that are made at random, some more often than others.
const EDITS: [Edit; 7] = [
    Edit::Hang(1),
    Edit::Split,
    Edit::Chord(2),
    Edit::Chord(2),
    Edit::Unchord,
    Edit::Unchord,
    Edit::Smooth,
];

/// Makes so many edits, and looks at the labels after every third.
fn edit_often(
    rt: &impl Abort,
    embedding: &mut Embedding,
    halves: &mut Vec<Half>,
    edits: u32,
) -> Result<(), AllocError> {
    let mut numbers = Numbers { state: 1 };
    for step in 0..edits {
        let c = one_of(&mut numbers, halves.as_slice());
        let d = one_of(&mut numbers, halves.as_slice());
        let edit = EDITS.get(numbers.below(7) as usize);
        if let (Some(c), Some(d), Some(edit)) = (c, d, edit) {
            let _is_made = make(embedding, halves, c, d, *edit)?;
        }
        if step % 3 == 0 {
            are_labelled(rt, embedding, halves.as_slice());
        }
    }
    Ok(())
}

/// What was built from turns, at one place: a half that turns to the one at the place that its turn
/// names, beside its twin, on the edge of the two.
fn is_built(
    embedding: &Embedding,
    halves: &[Half],
    turns: &[u32],
    edges: &[u32],
    place: usize,
) -> bool {
    let (Some(half), Some(turn)) = (halves.get(place), turns.get(place)) else {
        return false;
    };
    embedding.contains(*half)
        && halves.get(*turn as usize).copied() == Some(embedding.turn(*half))
        && halves.get(place ^ 1).copied() == Some(embedding.twin(*half))
        && edges.get(place / 2).copied() == Some(embedding.edge(*half))
        && (half.number() as usize) < embedding.limit()
}

/// An embedding is built as its turns say at each place, and its labels are right.
fn are_built(
    rt: &impl Abort,
    embedding: &Embedding,
    halves: &[Half],
    turns: &[u32],
    edges: &[u32],
) {
    assert!(rt; halves.len() == turns.len());
    for place in 0..turns.len() {
        assert!(rt;
            is_built(embedding, halves, turns, edges, place),
            "{turns:?}, place {place}"
        );
    }
    are_labelled(rt, embedding, halves);
}

/// What was built from turns is right, and so is a copy. The labels follow so many edits, also
/// those of a copy.
fn labels_follow(
    rt: &impl Abort,
    embedding: &mut Embedding,
    halves: &mut Vec<Half>,
    turns: &[u32],
    edges: &[u32],
    edits: u32,
) -> Result<(), AllocError> {
    are_built(rt, embedding, halves.as_slice(), turns, edges);
    let copy = embedding.copy()?;
    are_built(rt, &copy, halves.as_slice(), turns, edges);
    drop(copy);
    embedding.reserve(12)?;
    edit_often(rt, embedding, halves, edits)?;
    let copy = embedding.copy()?;
    are_labelled(rt, &copy, halves.as_slice());
    drop(copy);
    Ok(())
}

/// What was made is right, and so is a copy of it, while labels follow so many edits.
fn are_right(
    rt: &impl Abort,
    made: Result<(Embedding, Vec<Half>), AllocError>,
    turns: &[u32],
    edges: &[u32],
    edits: u32,
) -> Result<(), AllocError> {
    let (mut embedding, mut halves) = made?;
    let told = labels_follow(rt, &mut embedding, &mut halves, turns, edges, edits);
    drop(embedding);
    told
}

#[test]
fn labels_follow_all_edits_of_what_was_built_from_turns(rt: HostRuntime) -> Result<(), Fail> {
    // a segment
    let made = Embedding::from_turns(rt.alloc(), &[0, 1], &[5]);
    are_right(&rt, made, &[0, 1], &[5], 0)?;
    // two loops at one point
    let made = Embedding::from_turns(rt.alloc(), &[2, 3, 1, 0], &[3, 4]);
    are_right(&rt, made, &[2, 3, 1, 0], &[3, 4], 0)?;
    // three segments side by side
    let made = Embedding::from_turns(rt.alloc(), &[2, 3, 4, 5, 0, 1], &[3, 4, 5]);
    are_right(&rt, made, &[2, 3, 4, 5, 0, 1], &[3, 4, 5], 300)?;
    Ok(())
}

/// What is read off a half. Other halves are named by their places in the list.
#[derive(Clone, Copy, Debug)]
enum Fact {
    /// It is not there.
    Gone,
    /// It turns to this one.
    Turn(usize),
    /// This one is the next along its face.
    Next(usize),
    /// It is on this edge.
    Edge(u32),
    /// There are so many halves at its point.
    Degree(u64),
    /// Whether it lies in one face with this one.
    OneFace(usize, bool),
}

/// A step of a story. Halves are named by their places in the list: the two of the seed come first,
/// and then the two of each new segment.
#[derive(Clone, Copy, Debug)]
enum Step {
    /// An edit at a half, with the one that a chord leads to.
    Make(Edit, usize, usize),
    /// A fact of a half.
    Is(usize, Fact),
    /// There is so much less room than at the beginning.
    Taken(usize),
}

/// Whether a fact of a half holds.
fn holds(embedding: &Embedding, halves: &[Half], half: Half, fact: Fact) -> bool {
    if !embedding.contains(half) {
        return matches!(fact, Fact::Gone);
    }
    match fact {
        Fact::Gone => false,
        Fact::Turn(other) => halves.get(other).copied() == Some(embedding.turn(half)),
        Fact::Next(other) => {
            let (next, beyond) = embedding.step(half);
            halves.get(other).copied() == Some(next)
                && next == embedding.face_next(half)
                && beyond == embedding.face(embedding.twin(half))
        }
        Fact::Edge(edge) => embedding.edge(half) == edge,
        Fact::Degree(degree) => embedding.degree(half) == degree,
        Fact::OneFace(other, due) => match halves.get(other) {
            Some(other) => embedding.contains(*other) && embedding.same_face(half, *other) == due,
            None => false,
        },
    }
}

/// Whether a step could be taken, or says the truth.
fn take(
    embedding: &mut Embedding,
    halves: &mut Vec<Half>,
    room: usize,
    step: Step,
) -> Result<bool, AllocError> {
    match step {
        Step::Make(edit, c, d) => {
            let c = halves.as_slice().get(c).copied();
            let d = halves.as_slice().get(d).copied();
            match (c, d) {
                (Some(c), Some(d)) => make(embedding, halves, c, d, edit),
                _ => Ok(false),
            }
        }
        Step::Is(half, fact) => match halves.as_slice().get(half) {
            Some(half) => Ok(holds(embedding, halves.as_slice(), *half, fact)),
            None => Ok(false),
        },
        Step::Taken(less) => Ok(room.checked_sub(less) == Some(embedding.room())),
    }
}

/// How much room is reserved for a seed on edge 7, whether it is granted, and steps.
type Story = (usize, bool, &'static [Step]);

const STORIES: &[Story] = &[
    // a chord parts the seed's face; an edge hangs beside it, with one face on both sides; the
    // chord is taken out, which makes room again
    (
        100,
        true,
        &[
            Step::Is(0, Fact::OneFace(1, true)),
            Step::Make(Edit::Chord(8), 0, 1),
            Step::Taken(1),
            Step::Is(2, Fact::Edge(8)),
            Step::Is(0, Fact::Edge(7)),
            Step::Is(0, Fact::Turn(2)),
            Step::Is(2, Fact::Turn(0)),
            Step::Is(3, Fact::Turn(1)),
            Step::Is(0, Fact::Next(3)),
            Step::Is(0, Fact::OneFace(1, false)),
            Step::Make(Edit::Hang(9), 0, 0),
            Step::Is(4, Fact::Edge(9)),
            Step::Is(2, Fact::Turn(4)),
            Step::Is(4, Fact::Turn(0)),
            Step::Is(0, Fact::Degree(3)),
            Step::Is(5, Fact::Degree(1)),
            Step::Is(4, Fact::OneFace(5, true)),
            Step::Is(2, Fact::OneFace(3, false)),
            Step::Make(Edit::Unchord, 2, 2),
            Step::Is(2, Fact::Gone),
            Step::Is(0, Fact::Turn(4)),
            Step::Is(1, Fact::Turn(1)),
            Step::Taken(1),
        ],
    ),
    // a point parts the seed, and is taken out
    (
        1,
        true,
        &[
            Step::Make(Edit::Split, 0, 0),
            Step::Is(2, Fact::Edge(7)),
            Step::Is(2, Fact::Turn(1)),
            Step::Is(1, Fact::Turn(2)),
            Step::Is(3, Fact::Turn(3)),
            Step::Make(Edit::Smooth, 2, 2),
            Step::Is(0, Fact::Turn(0)),
            Step::Is(1, Fact::Turn(1)),
        ],
    ),
    // no memory holds so many
    (usize::MAX, false, &[Step::Is(0, Fact::Turn(0))]),
];

/// Reserves the room of a story, and takes its steps from the seed, one of whose halves is `h`.
fn play(
    rt: &impl Abort,
    alloc: Global,
    embedding: &mut Embedding,
    h: Half,
    story: &Story,
) -> Result<(), AllocError> {
    let (more, granted, steps) = *story;
    assert!(rt;
        embedding.reserve(more).is_ok() == granted,
        "room for {more}"
    );
    let room = embedding.room();
    assert!(rt; room >= more || !granted, "room for {more}: {room}");
    let mut halves = Vec::from_slice(alloc, &[h, h.twin()])?;
    for (index, step) in steps.iter().enumerate() {
        let is_taken = take(embedding, &mut halves, room, *step)?;
        assert!(rt; is_taken, "room for {more}, step {index}: {step:?}");
    }
    Ok(())
}

#[test]
fn edits_of_the_seed(rt: HostRuntime) -> Result<(), Fail> {
    for story in STORIES {
        let (mut embedding, h) = Embedding::seed(rt.alloc(), 7)?;
        let told = play(&rt, rt.alloc(), &mut embedding, h, story);
        drop(embedding);
        told?;
    }
    Ok(())
}
