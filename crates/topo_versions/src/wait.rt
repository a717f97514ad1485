//! Waiting for good.

use std::sync::Wait;

/// Waits for good: where no run comes, but no proof can show it.
pub fn wait_forever<R: Wait>(rt: &R) -> !
    ensures { ⊥ }
{
    for _ in rt.forever() {}
    unreachable!()
}
