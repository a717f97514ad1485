//! What of a rotation system hangs together: its components, found by a search.

ghost use Rattle.std.specs.Prelude.{◌≡◌, ◌⊎◌, ℕ, ◌%◌, ◌<◌, ◌↔◌, true, false, length, IfOk, IsTrue};
ghost use Rattle.topo_core.specs.Cycles.{IsPermutationList, map_of};
ghost use Rattle.topo_core.specs.Rotations.{IsComponentCount, IsConnected, Joined, twin};
ghost use Rattle.topo_perm.specs.Reach.{IsClosed, IsVisit, mark, marked_count};

use std::alloc::{AllocError, Allocator};

/// The other dart of the segment.
pub(crate) fn other_dart(dart: usize, darts: usize) -> usize
    requires within { dart < darts }
    requires even { darts % 2 ≡ 0 }
    ensures other { result ≡ twin dart }
    ensures within { result < darts }
{
    if dart % 2 == 0 { dart + 1 } else { dart - 1 }
}

/// Marks a dart and puts it at the end of the order, unless it is marked; the new length of the
/// order.
fn visit(seen: &mut [bool], order: &mut [u32], found: usize, dart: u32) -> usize
    requires dart_within { dart < length seen.old }
    requires room { mark seen.old dart ≡ false → found < length order.old }
    ensures { IsVisit seen.old seen.new order.old order.new found result dart }
{
    if seen[dart as usize] {
        return found;
    }
    seen[dart as usize] = true;
    order[found] = dart;
    found + 1
}

/// Marks what is joined to `start`, and puts it into the order behind what was found before.
fn reach(images: &[u32], seen: &mut [bool], order: &mut [u32], before: usize, start: u32) -> usize
    requires permutation { IsPermutationList images.now }
    requires even { length images.now % 2 ≡ 0 }
    requires within { start < length images.now }
    requires seen_length { length seen.old ≡ length images.now }
    requires order_length { length order.old ≡ length images.now }
    requires counted { before ≡ marked_count seen.old (length images.now) }
    requires closed { IsClosed (map_of images.now) (length images.now) seen.old }
    ensures counted { result ≡ marked_count seen.new (length images.now) }
    ensures reached { (a : ℕ) → a < length images.now →
        (mark seen.new a ≡ true)
        ↔ ((mark seen.old a ≡ true) ⊎ Joined (map_of images.now) twin start a) }
{
    let mut found = visit(seen, order, before, start);
    for done in before..images.len() {
        if done == found {
            return found;
        }
        let dart = order[done] as usize;
        let other = other_dart(dart, images.len());
        found = visit(seen, order, found, images[dart]);
        found = visit(seen, order, found, other as u32);
    }
    found
}

/// Counts the components, each at its least dart.
fn count_components(images: &[u32], seen: &mut [bool], order: &mut [u32]) -> u64
    requires permutation { IsPermutationList images.now }
    requires even { length images.now % 2 ≡ 0 }
    requires seen_length { length seen.old ≡ length images.now }
    requires order_length { length order.old ≡ length images.now }
    requires none_seen { (a : ℕ) → mark seen.old a ≡ false }
    ensures { IsComponentCount images.now result }
{
    let mut count = 0;
    let mut found = 0;
    for start in 0..images.len() {
        if !seen[start] {
            count += 1;
            found = reach(images, seen, order, found, start as u32);
        }
    }
    count
}

/// The number of components.
pub(crate) fn components<A: Allocator + Clone>(alloc: A, images: &[u32]) -> Result<u64, AllocError>
    requires permutation { IsPermutationList images.now }
    requires even { length images.now % 2 ≡ 0 }
    ensures { IfOk result (λ count. IsComponentCount images.now count) }
{
    let mut seen = vec![in alloc.clone()?; false; images.len()]?;
    let mut order = vec![in alloc; 0; images.len()]?;
    Ok(count_components(images, &mut seen, &mut order))
}

/// Whether any two darts are joined.
pub fn is_connected<A: Allocator + Clone>(alloc: A, images: &[u32]) -> Result<bool, AllocError>
    requires permutation { IsPermutationList images.now }
    requires even { length images.now % 2 ≡ 0 }
    ensures { IfOk result (λ yes. IsTrue yes ↔ IsConnected images.now) }
{
    Ok(components(alloc, images)? <= 1)
}
