//! The path of an edge: the halves along it.

ghost use Rattle.std.specs.Prelude.{◌≡◌, ◌≢◌, ◌==◌, ◌<◌, ◌≤◌, ◌++◌, ◌∷◌, ℕ, List, [], IfOk};
ghost use Rattle.std.specs.Prelude.{OnErr, false};
ghost use Rattle.std.specs.Prelude.{OnOk, drop, filter, length, not, slice_index_or, slice_set};
ghost use Rattle.std.specs.Prelude.{take};
ghost use Rattle.std.specs.List.{list_any, position_or_len};
ghost use Rattle.topo_core.specs.Items.{has_id};
ghost use Rattle.topo_embedded.specs.Halves.{on_segment};
ghost use Rattle.topo_embedded.specs.Padding.{shifted};

use std::alloc::{AllocError, Global};
use std::marker::Model;
use topo_map::Half;
use topo_table::TryCopy;

/// How many halves of a path are looked at at once.
const BLOCK: usize = 32;

/// The first half, and the others where there are some. They lie behind one word, so that this
/// takes two.
#[derive(Drop)]
enum Line {
    One(Half),
    More(Half, Box<Vec<Half>>),
}

/// The halves along an edge, one on each of its segments. The first is kept beside the others, so
/// that the path of an edge without crossings takes no memory of its own, and the half at its end
/// is read at once. Contracts see the list of all.
pub(crate) struct Path {
    line: Line,
}

// Written out, so that it is proved once: a derived one is proved anew in each function that lets
// such a value go.
impl Drop for Path {
    fn drop(self) {
        let Path { line } = self;
        drop(line);
    }
}

const _: () = prove!(size_of::<Path>() == 16);

impl Model for Path {
    ghost use Rattle.std.specs.Prelude.{ℕ, List};
    ghost use Rattle.topo_embedded.specs.Along.{halves_along};

    ghost Value = { List ℕ };

    ghost view = { λ p. halves_along p.line };
}

/// Whether a half is one of these.
fn is_on(halves: &[Half], half: Half) -> bool
    ensures { result ≡ has_id halves.now half }
{
    halves.iter().any(|at| *at == half)
}

/// Whether one of these halves is on the segment of a half. All are looked at, so that several can
/// be at once.
fn has_segment(halves: &[Half], half: Half) -> bool
    ensures { result ≡ list_any (on_segment half) halves.now }
{
    let twin = half.twin();
    let mut found = false;
    for at in halves {
        found |= (*at == half) | (*at == twin);
    }
    found
}

/// How many halves, block by block, lie before the first block with one on the segment of a half.
fn blocks_before(halves: &[Half], half: Half) -> usize
    ensures none { (k : ℕ) → k < result
        → on_segment half (slice_index_or halves.now k 0) ≡ false }
    ensures within { result ≤ length halves.now }
{
    let blocks = halves.len() / BLOCK;
    for block in 0..blocks {
        let begin = BLOCK * block;
        if has_segment(&halves[begin..begin + BLOCK], half) {
            return begin;
        }
    }
    BLOCK * blocks
}

/// Takes a half out of the list of the others.
fn leave(others: &mut Vec<Half>, half: Half)
    ensures { others.new.items ≡ filter (λ h. not (h == half)) others.old.items }
{
    others.retain(|h| *h != half);
}

/// Puts a half at a place of the list of the others. What was from there on moves up by one, and
/// the last one goes.
fn shift_in(others: &mut Vec<Half>, at: usize, half: Half)
    requires { at < length others.old.items }
    ensures { others.new.items
        ≡ take at others.old.items ++ shifted half (drop at others.old.items) }
{
    let _last = others.pop();
    if others.insert(at, half).is_err() {
        unreachable!()
    }
}

impl Path {
    /// The path with these halves.
    pub(crate) fn new(alloc: Global, first: Half, others: Vec<Half>) -> Result<Self, AllocError>
        ensures { IfOk result (λ path. path ≡ first ∷ others.items) }
    {
        if others.is_empty() {
            return Ok(Path::of(first));
        }
        let others = Box::new(alloc, others)?;
        Ok(Path {
            line: Line::More(first, others),
        })
    }

    /// The path of an edge without crossings. It takes no memory.
    pub(crate) fn of(half: Half) -> Self
        ensures { result ≡ half ∷ [] }
    {
        Path {
            line: Line::One(half),
        }
    }

    /// How many segments there are.
    pub(crate) fn len(&self) -> usize
        ensures len { result ≡ length self.now }
        ensures some { 0 < result }
    {
        match &self.line {
            Line::One(_) => 1,
            Line::More(_, others) => others.len() + 1,
        }
    }

    /// The half on the first segment.
    fn first(&self) -> Half
        ensures { result ≡ slice_index_or self.now 0 0 }
    {
        match &self.line {
            Line::One(first) => *first,
            Line::More(first, _) => *first,
        }
    }

    /// The half on the segment at a place.
    pub(crate) fn at(&self, place: usize) -> Half
        requires { place < length self.now }
        ensures { result ≡ slice_index_or self.now place 0 }
    {
        match &self.line {
            Line::More(_, others) if place > 0 => others[place - 1],
            _ => self.first(),
        }
    }

    /// Whether a half leads along the edge.
    pub(crate) fn contains(&self, half: Half) -> bool
        ensures { result ≡ has_id self.now half }
    {
        match &self.line {
            Line::One(first) => *first == half,
            Line::More(first, others) => *first == half || is_on(others.as_slice(), half),
        }
    }

    /// Whether a half is one of the two on the segment at a place.
    pub(crate) fn is_at(&self, place: usize, half: Half) -> bool
        requires { place < length self.now }
        ensures { result ≡ on_segment half (slice_index_or self.now place 0) }
    {
        let along = self.at(place);
        along == half || along == half.twin()
    }

    /// A place before which a half is on no segment from another place on. It is not far before the
    /// first that it is on there.
    fn place_before(&self, from: usize, half: Half) -> usize
        ensures none { (k : ℕ) → from ≤ k → k < result
            → on_segment half (slice_index_or self.now k 0) ≡ false }
        ensures within { result ≤ length self.now }
    {
        match &self.line {
            Line::More(_, others) if from > 0 => {
                let passed = others.len().min(from - 1);
                1 + passed + blocks_before(&others.as_slice()[passed..], half)
            }
            Line::More(_, others) if !self.is_at(0, half) => {
                1 + blocks_before(others.as_slice(), half)
            }
            _ => 0,
        }
    }

    /// As `place_of`, of a half that is on no segment before a place.
    pub(crate) fn place_from(&self, from: usize, half: Half) -> usize
        ensures { ((k : ℕ) → k < from → on_segment half (slice_index_or self.now k 0) ≡ false)
            → result ≡ position_or_len (on_segment half) self.now }
    {
        for place in self.place_before(from, half)..self.len() {
            if self.is_at(place, half) {
                return place;
            }
        }
        self.len()
    }

    /// The place of the first segment that a half is on; the number of segments where there is
    /// none.
    pub(crate) fn place_of(&self, half: Half) -> usize
        ensures { result ≡ position_or_len (on_segment half) self.now }
    {
        self.place_from(0, half)
    }

    /// Puts another half at a place.
    pub(crate) fn set(&mut self, place: usize, half: Half)
        requires { place < length self.old }
        ensures { self.new ≡ slice_set self.old place half }
    {
        match &mut self.line {
            Line::More(_, others) if place > 0 => others[place - 1] = half,
            Line::More(first, _) => *first = half,
            Line::One(first) => *first = half,
        }
    }

    /// Puts a half behind the others. Where there is no memory for it the path is as it was.
    pub(crate) fn push(&mut self, alloc: Global, half: Half) -> Result<(), AllocError>
        ensures some { 0 < length self.old }
        ensures ok { OnOk result (self.new ≡ self.old ++ half ∷ []) }
        ensures err { OnErr result (self.new ≡ self.old) }
    {
        match &mut self.line {
            Line::More(_, others) => others.push(half)?,
            Line::One(first) => {
                let others = Box::new(alloc, vec![in alloc; half]?)?;
                self.line = Line::More(*first, others);
            }
        }
        Ok(())
    }

    /// Puts a half at a place. What was from there on moves up by one, and the last half goes.
    pub(crate) fn shift_in(&mut self, at: usize, half: Half)
        ensures { self.new ≡ take at self.old ++ shifted half (drop at self.old) }
    {
        match &mut self.line {
            Line::One(first) => {
                if at == 0 {
                    *first = half;
                }
            }
            Line::More(first, others) => {
                if at == 0 {
                    let next = *first;
                    *first = half;
                    if !others.is_empty() {
                        shift_in(others, 0, next);
                    }
                } else if at <= others.len() {
                    shift_in(others, at - 1, half);
                }
            }
        }
    }

    /// Gives the memory of the others back where none are left.
    fn settle(&mut self)
        ensures { self.new ≡ self.old }
    {
        if let Line::More(first, others) = &self.line {
            if others.is_empty() {
                self.line = Line::One(*first);
            }
        }
    }

    /// Takes out the last half behind the first.
    pub(crate) fn drop_last(&mut self)
        ensures { (xs : List ℕ) (x : ℕ) → 0 < length xs → self.old ≡ xs ++ x ∷ [] → self.new ≡ xs }
    {
        if let Line::More(_, others) = &mut self.line {
            let _last = others.pop();
        }
        self.settle();
    }

    /// Takes out a half that is not the first.
    pub(crate) fn remove(&mut self, half: Half)
        requires { slice_index_or self.old 0 0 ≢ half }
        ensures { self.new ≡ filter (λ h. not (h == half)) self.old }
    {
        match &mut self.line {
            Line::One(_) => {}
            Line::More(_, others) => leave(others, half),
        }
        self.settle();
    }
}

impl TryCopy for Path {
    fn try_copy(&self, alloc: Global) -> Result<Self, AllocError> {
        match &self.line {
            Line::One(first) => Ok(Path::of(*first)),
            Line::More(first, others) => {
                let others = Vec::from_slice(alloc, others.as_slice())?;
                Path::new(alloc, *first, others)
            }
        }
    }
}
