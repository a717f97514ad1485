//! What changes of a permutation do to its cycles.

ghost use Rattle.std.specs.Prelude.{◌≡◌, ◌≢◌, ◌+◌, ◌*◌, ◌%◌, ◌<◌, ◌≤◌};
ghost use Rattle.std.specs.Prelude.{length, swap, slice_index, IfOk};
ghost use Rattle.topo_core.specs.Cycles.{IsBypass, IsPermutationList, SameCycle, cycles_of, map_of};
ghost use Rattle.topo_core.specs.Rotations.{IsComponentCount, faces_of};

pub mod cuts;
pub mod edits;
pub mod faces;
pub mod labels;
pub mod renumbering;
pub mod slabs;

use crate::connection::{components, other_dart};
use crate::{Euler, cycles};
use std::alloc::{AllocError, Allocator};

/// The images of `i` and `j` change places: one cycle falls into two, or two become one.
pub fn exchange(images: &mut [u32], i: u32, j: u32)
    requires permutation { IsPermutationList images.old }
    requires i_within { i < length images.old }
    requires j_within { j < length images.old }
    requires different { i ≢ j }
    ensures exchanged { images.new ≡ swap images.old i j }
    ensures permutation { IsPermutationList images.new }
    ensures splits { SameCycle (map_of images.old) i j
        → cycles_of images.new ≡ cycles_of images.old + 1 }
    ensures joins { ¬ SameCycle (map_of images.old) i j
        → cycles_of images.new + 1 ≡ cycles_of images.old }
{
    images.swap(i as usize, j as usize);
}

/// The number whose image is `i`.
fn predecessor(images: &[u32], i: u32) -> u32
    requires permutation { IsPermutationList images.now }
    requires within { i < length images.now }
    ensures within { result < length images.now }
    ensures leads { slice_index images.now result ≡ i }
{
    let mut before = i;
    for _steps in 0..images.len() {
        if images[before as usize] == i {
            return before;
        }
        before = images[before as usize];
    }
    before
}

/// `i` becomes a cycle by itself, and what led to `i` leads on to its image.
pub fn bypass(images: &mut [u32], i: u32)
    requires permutation { IsPermutationList images.old }
    requires i_within { i < length images.old }
    ensures bypassed { IsBypass (map_of images.old) (map_of images.new) (length images.old) i }
    ensures permutation { IsPermutationList images.new }
    ensures alone { slice_index images.old i ≡ i → images.new ≡ images.old }
    ensures splits { slice_index images.old i ≢ i
        → cycles_of images.new ≡ cycles_of images.old + 1 }
{
    let before = predecessor(images, i);
    images.swap(before as usize, i as usize);
}

/// Counts points, segments, faces and components. Darts `2i` and `2i + 1` are the two of one
/// segment.
pub fn euler<A: Allocator + Clone>(alloc: A, images: &[u32]) -> Result<Euler, AllocError>
    requires permutation { IsPermutationList images.now }
    requires even { length images.now % 2 ≡ 0 }
    ensures points { IfOk result (λ numbers. numbers.points ≡ cycles_of images.now) }
    ensures segments { IfOk result (λ numbers. 2 * numbers.segments ≡ length images.now) }
    ensures faces { IfOk result (λ numbers. numbers.faces ≡ faces_of images.now) }
    ensures components { IfOk result (λ numbers. IsComponentCount images.now numbers.components) }
    ensures bound { IfOk result
        (λ numbers. numbers.points + numbers.faces ≤ numbers.segments + 2 * numbers.components) }
{
    let mut faces: Vec<u32, A> = Vec::new(alloc.clone()?);
    for dart in 0..images.len() {
        faces.push(images[other_dart(dart, images.len())])?;
    }
    Ok(Euler {
        points: cycles(alloc.clone()?, images)?,
        segments: images.len() as u64 / 2,
        faces: cycles(alloc.clone()?, &faces)?,
        components: components(alloc, images)?,
    })
}
