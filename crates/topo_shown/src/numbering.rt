//! Whether a list has each number below its length once.

ghost use Rattle.std.specs.Prelude.{◌≡◌, ◌↔◌, ℕ, IfOk, IsTrue, false, length, slice_index_or};
ghost use Rattle.topo_core.specs.Cycles.{IsPermutationList};

use std::alloc::{AllocError, Global};

/// Marks the numbers of a list; whether all are below its length, and none stands twice.
fn marks_each_once(seen: &mut [bool], list: &[u32]) -> bool
    requires none_seen { (a : ℕ) → slice_index_or seen.old a false ≡ false }
    requires same_length { length seen.old ≡ length list.now }
    ensures { IsTrue result ↔ IsPermutationList list.now }
{
    for place in 0..list.len() {
        let number = list[place] as usize;
        if number >= seen.len() || seen[number] {
            return false;
        }
        seen[number] = true;
    }
    true
}

/// Whether a list has each number below its length once.
pub fn has_each_once(alloc: Global, list: &[u32]) -> Result<bool, AllocError>
    ensures { IfOk result (λ yes. IsTrue yes ↔ IsPermutationList list.now) }
{
    let mut seen = vec![in alloc; false; list.len()]?;
    Ok(marks_each_once(&mut seen, list))
}
