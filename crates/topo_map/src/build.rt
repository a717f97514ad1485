//! The segments of a list of turns.

ghost use Rattle.std.specs.Prelude.{◌≡◌, ◌+◌, ◌*◌, ◌%◌, ◌<◌, ◌≤◌, [], ◌++◌};
ghost use Rattle.std.specs.Prelude.{◌∷◌, true, length, slice_index, IfOk};
ghost use Rattle.topo_core.specs.Cycles.{IsPermutationList, map_of};
ghost use Rattle.topo_core.specs.Rotations.{twin};
ghost use Rattle.topo_map.specs.Building.{AreAlone, AreBlank, IsJoined};
ghost use Rattle.topo_map.specs.Rotation.{AreLabelled};
ghost use Rattle.topo_map.specs.Segments.{IsKept, holds, label_in, next_in, room_of};

use crate::half::Half;
use crate::segments::{self, Segments, insert_isolated, link};
use std::alloc::{AllocError, Global};

/// Segments with these labels, each half a point by itself, and their halves. No face has a label
/// yet.
pub(crate) fn isolated_halves(
    alloc: Global,
    segments: &mut Segments,
    edges: &[u32],
) -> Result<Vec<Half>, AllocError>
    requires { segments.old.slots ≡ [] }
    ensures length { IfOk result (λ halves. length halves.items ≡ 2 * length edges.now) }
    ensures alone { IfOk result (λ halves. AreAlone segments.new halves.items) }
    ensures labels { IfOk result
        (λ halves. AreLabelled edges.now halves.items (label_in segments.new)) }
    ensures blank { IfOk result (λ _. AreBlank segments.new) }
{
    segments::reserve(segments, edges.len())?;
    let mut halves = Vec::with_capacity(alloc, 2 * edges.len())?;
    for segment in 0..edges.len() {
        let half = insert_isolated(segments, edges[segment], 0, 0);
        halves.push(half)?;
        halves.push(half.twin())?;
    }
    Ok(halves)
}

/// Each half is followed by that of its turn.
pub(crate) fn join_turns(segments: &mut Segments, halves: &[Half], turns: &[u32])
    requires permutation { IsPermutationList turns.now }
    requires same_length { length halves.now ≡ length turns.now }
    requires alone { AreAlone segments.old halves.now }
    requires blank { AreBlank segments.old }
    ensures joined { IsJoined segments.new halves.now turns.now }
    ensures labels { label_in segments.new ≡ label_in segments.old }
    ensures blank { AreBlank segments.new }
{
    for place in 0..turns.len() {
        link(segments, halves[place], halves[turns[place] as usize]);
    }
}
