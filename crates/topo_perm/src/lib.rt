//! Permutations as lists of images, and rotation systems: counts, and what changes do to them.
//!
//! A list of images stands for the map that sends each place to its entry. `cycles` and
//! `same_cycle` answer exactly for a permutation. In a rotation system darts `2i` and `2i + 1` are
//! the two of segment `i`, and the permutation turns to the next dart clockwise: `is_connected` and
//! `laws::euler` answer exactly for it, in linear time, and points, segments, faces and components
//! keep Euler's bound.
//!
//! The interface for the crates above is the contracts of the functions in `laws`. Those without a
//! body are laws on maps of the numbers below n, with their statements in `specs/`:
//!
//! - `laws::exchange`, `laws::bypass`: the code of the two changes that all others consist of.
//! - `laws::edits`: the five edits of an embedding. `put_before` and `take_out` (and `split` and
//!   `smooth`) lead from the images that are written to a permutation and to the edit's definition;
//!   `hang`, `chord`, `unchord`, `split` and `smooth` say that the edit can be made where its
//!   conditions hold, what becomes of the points and faces of the whole slab, and that live darts
//!   stay joined.
//! - `laws::faces`: which darts lie in one face after each edit.
//! - `laws::slabs`: counts, components and genus of the whole slab, against those of the live
//!   darts, and the five edits in terms of live counts.
//! - `laws::renumbering`: darts under new numbers keep counts of classes and cycles, faces, and
//!   what is joined.
//! - `laws::cuts`: a segment with two faces on its sides leaves its ends joined, one with a single
//!   face in genus zero parts them, whether it is not crossed or its darts are taken out of the
//!   turn.
//!
//! A caller:
//!
//! ```rust
//! /// Whether a permutation is one cycle.
//! pub fn is_one_cycle(alloc: Global, images: &[u32]) -> Result<bool, AllocError>
//!     requires { IsPermutationList images.now }
//!     ensures { IfOk result (λ one. IsTrue one ↔ cycles_of images.now ≡ 1) }
//! {
//!     let count = cycles(alloc, images)?;
//!     Ok(count == 1)
//! }
//! ```
#![tactic(auto)]

ghost use Rattle.std.specs.Prelude.{◌≡◌, ◌↔◌, ℕ, ◌<◌, ◌||◌, false};
ghost use Rattle.std.specs.Prelude.{length, slice_index_or, IsTrue, IfOk};
ghost use Rattle.topo_core.specs.Cycles.{IsPermutationList, SameCycle, cycles_of, is_met, map_of};

use std::alloc::{AllocError, Allocator};

mod connection;
pub mod laws;

pub use connection::is_connected;

/// The numbers of a rotation system.
#[derive(Clone, Copy, Debug, PartialEq, Eq)]
pub struct Euler {
    pub points: u64,
    pub segments: u64,
    pub faces: u64,
    pub components: u64,
}

/// Marks the numbers on the cycle of `start`.
fn mark_cycle(images: &[u32], seen: &mut [bool], start: usize)
    requires permutation { IsPermutationList images.now }
    requires within { start < length images.now }
    requires same_length { length seen.old ≡ length images.now }
    ensures { (a : ℕ) → a < length images.now →
        slice_index_or seen.new a false ≡
        (is_met (map_of images.now) (length images.now) start a
        || slice_index_or seen.old a false) }
{
    let mut at = start;
    for _steps in 0..images.len() {
        seen[at] = true;
        at = images[at] as usize;
        if at == start {
            return;
        }
    }
}

/// Counts the cycles, each at its least number.
fn count_cycles(images: &[u32], seen: &mut [bool]) -> u64
    requires permutation { IsPermutationList images.now }
    requires same_length { length seen.old ≡ length images.now }
    requires none_seen { (a : ℕ) → slice_index_or seen.old a false ≡ false }
    ensures { result ≡ cycles_of images.now }
{
    let mut count = 0;
    for start in 0..images.len() {
        if !seen[start] {
            count += 1;
            mark_cycle(images, seen, start);
        }
    }
    count
}

/// The number of cycles.
pub fn cycles<A: Allocator>(alloc: A, images: &[u32]) -> Result<u64, AllocError>
    requires { IsPermutationList images.now }
    ensures { IfOk result (λ count. count ≡ cycles_of images.now) }
{
    let mut seen = vec![in alloc; false; images.len()]?;
    Ok(count_cycles(images, &mut seen))
}

/// Whether `a` and `b` lie on one cycle.
pub fn same_cycle(images: &[u32], a: u32, b: u32) -> bool
    requires permutation { IsPermutationList images.now }
    requires a_within { a < length images.now }
    requires b_within { b < length images.now }
    ensures { IsTrue result ↔ SameCycle (map_of images.now) a b }
{
    let mut at = a;
    for _steps in 0..images.len() {
        if at == b {
            return true;
        }
        at = images[at as usize];
        if at == a {
            return false;
        }
    }
    false
}
