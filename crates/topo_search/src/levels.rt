//! Walks that cross fewest edges: a search in the dual graph from both ends at once, by whole
//! levels (Pohl, Bi-directional search, 1971).
//!
//! Each edge counts as one. Of the walks that cross as few a random one is found.

ghost use Rattle.std.specs.Prelude.{◌≡◌, [], All, IfOk, IfSome, OnOk};
ghost use Rattle.topo_route.specs.Names.{IsName, Named};

use crate::lists::{at, equal_items, length_of, set};
use crate::random::Random;
use std::alloc::{AllocError, Global};
use topo_route::face_graph::FaceGraph;
use topo_route::steps::{across, corner_at, step};

/// From the corner at position `start` of one vertex across these darts, by their names, to the
/// corner at position `end` of another.
#[derive(Drop)]
pub(crate) struct Walk {
    pub start: u32,
    pub crossed: Vec<u32>,
    pub end: u32,
}

/// Which end has met a face in which search, and the place that it has in that end's lists.
#[derive(Clone, Copy)]
struct Mark {
    tag: u32,
    place: u32,
}

/// From this tag on marks begin anew.
const LAST_TAG: u32 = u32::MAX - 2;

/// A mark of no search.
const NO_MARK: Mark = Mark { tag: 0, place: 0 };

/// The end that has met a face.
#[derive(Clone, Copy)]
enum Owner {
    This,
    Other,
    None,
}

/// The faces that were met from one end, level by level.
#[derive(Drop)]
struct Side {
    // What this end marks faces with, and what the other does.
    tag: u32,
    other: u32,
    // For each face, a dart that has it on the left.
    darts: Vec<u32>,
    // For each face, the place of the face before it; for a face at the end, the position of its
    // corner.
    before: Vec<u32>,
    // How many faces lie at the end.
    corners: u32,
    // The place where the last level begins.
    level: u32,
}

/// Where a face of one end meets one of the other: the places of both, and the dart between them,
/// which has the first on its left.
#[derive(Clone, Copy)]
struct Meeting {
    here: u32,
    dart: u32,
    there: u32,
}

/// The faces that a search meets from both ends.
#[derive(Drop)]
pub(crate) struct Levels {
    near: Side,
    far: Side,
    // By the labels of faces.
    marks: Vec<Mark>,
    random: Random,
}

impl Side {
    /// A side that has met nothing.
    fn new(alloc: Global) -> Self {
        Side {
            tag: 0,
            other: 0,
            darts: Vec::new(alloc),
            before: Vec::new(alloc),
            corners: 0,
            level: 0,
        }
    }

    /// Forgets all, and marks faces so from now on.
    fn begin(&mut self, tag: u32, other: u32)
        ensures { self.new.darts.items ≡ [] }
    {
        self.tag = tag;
        self.other = other;
        self.darts.clear();
        self.before.clear();
        self.corners = 0;
        self.level = 0;
    }

    /// How many faces the last level has.
    fn waiting(&self) -> u32 {
        length_of(&self.darts).saturating_sub(self.level)
    }

    /// Which end has met a face with this mark.
    fn owner(&self, mark: Mark) -> Owner {
        if mark.tag == self.tag {
            Owner::This
        } else if mark.tag == self.other {
            Owner::Other
        } else {
            Owner::None
        }
    }

    /// Notes a new face: its label, a dart that has it on the left, and what lies before it.
    fn note(
        &mut self,
        marks: &mut [Mark],
        face: u32,
        dart: u32,
        before: u32,
    ) -> Result<(), AllocError>
        ensures { (g : Named) → All (IsName g) self.old.darts.items → IsName g dart
            → OnOk result (All (IsName g) self.new.darts.items) }
    {
        let mark = Mark {
            tag: self.tag,
            place: length_of(&self.darts),
        };
        set(marks, face, mark);
        self.darts.push(dart)?;
        self.before.push(before)?;
        Ok(())
    }
}

/// The dart at a place of a list.
fn dart_at(darts: &[u32], place: u32) -> Option<u32>
    ensures { (g : Named) → All (IsName g) darts.now → IfSome result (IsName g) }
{
    let place = place as usize;
    if place < darts.len() {
        Some(darts[place])
    } else {
        None
    }
}

/// What marks say of a face.
fn mark_of(marks: &[Mark], face: u32) -> Mark {
    match marks.get(face as usize) {
        Some(mark) => *mark,
        None => NO_MARK,
    }
}

/// A random number below the bound, and 0 where that is 0.
fn below(random: &mut Random, bound: u32) -> u32 {
    u32::try_from(random.below(bound as usize)).unwrap_or(0)
}

/// The number that comes so many after another, round a list of so many.
fn turned(number: u32, by: u32, count: u32) -> u32 {
    let room = count.saturating_sub(by);
    if number < room {
        number.saturating_add(by)
    } else {
        number.saturating_sub(room)
    }
}

/// Notes the faces at the corners of a vertex, from a random one on. The answer is the first that
/// the other end has: its place there, and the position of the corner.
fn start_at<W: FaceGraph>(
    graph: &W,
    side: &mut Side,
    marks: &mut [Mark],
    random: &mut Random,
    v: u32,
) -> Result<Option<(u32, u32)>, AllocError>
    requires names { All (IsName (W.named graph.now)) side.old.darts.items }
    ensures names { OnOk result (All (IsName (W.named graph.now)) side.new.darts.items) }
{
    let degree = graph.degree(v);
    let turn = below(random, degree);
    for i in 0..degree {
        let position = turned(i, turn, degree);
        if let Some(corner) = corner_at(graph, v, position) {
            let face = graph.face(corner);
            let mark = mark_of(marks, face);
            match side.owner(mark) {
                Owner::Other => return Ok(Some((mark.place, position))),
                Owner::This => {}
                Owner::None => side.note(marks, face, corner, position)?,
            }
        }
    }
    side.corners = length_of(&side.darts);
    Ok(None)
}

/// Goes round a face, and notes the new ones beside it, until there is one that the other end has.
fn go_round<W: FaceGraph>(
    graph: &W,
    side: &mut Side,
    marks: &mut [Mark],
    here: u32,
) -> Result<Option<Meeting>, AllocError>
    requires names { All (IsName (W.named graph.now)) side.old.darts.items }
    ensures names { OnOk result (All (IsName (W.named graph.now)) side.new.darts.items) }
    ensures met { IfOk result (λ met. IfSome met (λ m. IsName (W.named graph.now) m.dart)) }
{
    let Some(first) = dart_at(&side.darts, here) else {
        return Ok(None);
    };
    let mut dart = first;
    for _steps in 0..graph.size() {
        let (next, face) = step(graph, dart);
        let mark = mark_of(marks, face);
        match side.owner(mark) {
            Owner::Other => {
                let there = mark.place;
                return Ok(Some(Meeting { here, dart, there }));
            }
            Owner::This => {}
            Owner::None => side.note(marks, face, across(graph, dart), here)?,
        }
        dart = next;
        if dart == first {
            break;
        }
    }
    Ok(None)
}

/// Goes round all faces of the last level, from a random one on, until one is met that the other
/// end has.
fn spread<W: FaceGraph>(
    graph: &W,
    side: &mut Side,
    marks: &mut [Mark],
    random: &mut Random,
) -> Result<Option<Meeting>, AllocError>
    requires names { All (IsName (W.named graph.now)) side.old.darts.items }
    ensures names { OnOk result (All (IsName (W.named graph.now)) side.new.darts.items) }
    ensures met { IfOk result (λ met. IfSome met (λ m. IsName (W.named graph.now) m.dart)) }
{
    let level = side.level;
    let count = side.waiting();
    side.level = length_of(&side.darts);
    let turn = below(random, count);
    for i in 0..count {
        let here = level.saturating_add(turned(i, turn, count));
        if let Some(met) = go_round(graph, side, marks, here)? {
            return Ok(Some(met));
        }
    }
    Ok(None)
}

/// Adds the darts that lead into the faces from the end to one, the last one first, and answers the
/// position of the corner there.
fn back_from(side: &Side, place: u32, crossed: &mut Vec<u32>) -> Result<u32, AllocError>
    ensures { (g : Named) → All (IsName g) side.now.darts.items
        → All (IsName g) crossed.old.items → OnOk result (All (IsName g) crossed.new.items) }
{
    let mut place = place;
    for _steps in 0..side.darts.len() {
        if place < side.corners {
            break;
        }
        let Some(dart) = dart_at(&side.darts, place) else {
            break;
        };
        crossed.push(dart)?;
        place = at(&side.before, place);
    }
    Ok(at(&side.before, place))
}

/// Turns each dart of a list round, and the list, too.
fn reversed<W: FaceGraph>(alloc: Global, graph: &W, darts: &[u32]) -> Result<Vec<u32>, AllocError>
    requires { All (IsName (W.named graph.now)) darts.now }
    ensures { IfOk result (λ list. All (IsName (W.named graph.now)) list.items) }
{
    let mut list = Vec::with_capacity(alloc, darts.len())?;
    for i in 0..darts.len() {
        let dart = darts[darts.len() - 1 - i];
        list.push(across(graph, dart))?;
    }
    Ok(list)
}

impl Levels {
    /// Nothing met, and this seed of random numbers.
    pub(crate) fn new(alloc: Global, seed: u32) -> Self {
        Levels {
            near: Side::new(alloc),
            far: Side::new(alloc),
            marks: Vec::new(alloc),
            random: Random::new(u32::MAX - seed),
        }
    }

    /// How many faces the last search has met.
    pub(crate) fn reached(&self) -> usize {
        self.near.darts.len().saturating_add(self.far.darts.len())
    }

    /// Forgets the faces of the last search. There are so many faces now.
    fn begin(&mut self, alloc: Global, faces: u32) -> Result<(), AllocError>
        ensures near { OnOk result (self.new.near.darts.items ≡ []) }
        ensures far { OnOk result (self.new.far.darts.items ≡ []) }
    {
        let mut last = self.far.tag;
        let faces = faces as usize;
        if last >= LAST_TAG || self.marks.len() < faces {
            self.marks = equal_items(alloc, faces.saturating_mul(2), NO_MARK)?;
            last = 0;
        }
        let tag = last.saturating_add(1);
        let other = last.saturating_add(2);
        self.near.begin(tag, other);
        self.far.begin(other, tag);
        Ok(())
    }

    /// The walk through a meeting of both ends, which is named as the near end has it.
    fn walk_through<W: FaceGraph>(
        &self,
        alloc: Global,
        graph: &W,
        met: Meeting,
    ) -> Result<Walk, AllocError>
        requires near { All (IsName (W.named graph.now)) self.now.near.darts.items }
        requires far { All (IsName (W.named graph.now)) self.now.far.darts.items }
        requires met { IsName (W.named graph.now) met.dart }
        ensures { IfOk result (λ walk. All (IsName (W.named graph.now)) walk.crossed.items) }
    {
        let mut back = Vec::new(alloc);
        let start = back_from(&self.near, met.here, &mut back)?;
        let mut crossed = reversed(alloc, graph, &back)?;
        crossed.push(met.dart)?;
        let end = back_from(&self.far, met.there, &mut crossed)?;
        Ok(Walk {
            start,
            crossed,
            end,
        })
    }

    /// Spreads the end with fewer faces in its last level by one level. The answer names a meeting
    /// as the near end has it.
    fn spread<W: FaceGraph>(&mut self, graph: &W) -> Result<Option<Meeting>, AllocError>
        requires near { All (IsName (W.named graph.now)) self.old.near.darts.items }
        requires far { All (IsName (W.named graph.now)) self.old.far.darts.items }
        ensures near { OnOk result (All (IsName (W.named graph.now)) self.new.near.darts.items) }
        ensures far { OnOk result (All (IsName (W.named graph.now)) self.new.far.darts.items) }
        ensures met { IfOk result (λ met. IfSome met (λ m. IsName (W.named graph.now) m.dart)) }
    {
        if self.near.waiting() <= self.far.waiting() {
            return spread(graph, &mut self.near, &mut self.marks, &mut self.random);
        }
        let met = spread(graph, &mut self.far, &mut self.marks, &mut self.random)?;
        match met {
            Some(Meeting { here, dart, there }) => Ok(Some(Meeting {
                here: there,
                dart: across(graph, dart),
                there: here,
            })),
            None => Ok(None),
        }
    }

    /// Spreads both ends until they meet; none where they do not.
    fn meeting<W: FaceGraph>(&mut self, graph: &W) -> Result<Option<Meeting>, AllocError>
        requires near { All (IsName (W.named graph.now)) self.old.near.darts.items }
        requires far { All (IsName (W.named graph.now)) self.old.far.darts.items }
        ensures near { OnOk result (All (IsName (W.named graph.now)) self.new.near.darts.items) }
        ensures far { OnOk result (All (IsName (W.named graph.now)) self.new.far.darts.items) }
        ensures met { IfOk result (λ met. IfSome met (λ m. IsName (W.named graph.now) m.dart)) }
    {
        for _level in 0..graph.faces() {
            if let Some(met) = self.spread(graph)? {
                return Ok(Some(met));
            }
            if self.near.waiting() == 0 || self.far.waiting() == 0 {
                break;
            }
        }
        Ok(None)
    }

    /// A walk from a corner of `u` to one of `v` that crosses fewest edges; none where there is
    /// none.
    pub(crate) fn find<W: FaceGraph>(
        &mut self,
        alloc: Global,
        graph: &W,
        u: u32,
        v: u32,
    ) -> Result<Option<Walk>, AllocError>
        ensures { IfOk result (λ found. IfSome found
            (λ walk. All (IsName (W.named graph.now)) walk.crossed.items)) }
    {
        self.begin(alloc, graph.faces())?;
        start_at(graph, &mut self.near, &mut self.marks, &mut self.random, u)?;
        let met = start_at(graph, &mut self.far, &mut self.marks, &mut self.random, v)?;
        if let Some((place, end)) = met {
            let start = at(&self.near.before, place);
            let crossed = Vec::new(alloc);
            return Ok(Some(Walk {
                start,
                crossed,
                end,
            }));
        }
        match self.meeting(graph)? {
            Some(met) => Ok(Some(self.walk_through(alloc, graph, met)?)),
            None => Ok(None),
        }
    }
}
