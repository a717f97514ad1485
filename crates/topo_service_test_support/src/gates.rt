//! A gate that fixes the order of two calls.

use std::sync::atomic::{AtomicBool, Ordering};
use std::thread;
use topo_service::Gate;

/// How often a call of the gate looks for a flag at most.
const LOOKS: u32 = 10_000_000;

/// Lets the first call of worker 1 pass between the two calls of the gate for the first call of
/// worker 0. It looks a bounded number of times, leaving the processor to others between, and does
/// not block.
#[derive(Drop)]
pub struct Turns {
    has_begun: AtomicBool,
    has_ended: AtomicBool,
    is_late: AtomicBool,
}

impl Turns {
    /// No call has begun.
    pub fn new() -> Turns {
        Turns {
            has_begun: AtomicBool::new(false),
            has_ended: AtomicBool::new(false),
            is_late: AtomicBool::new(false),
        }
    }

    /// Looks for a flag, and marks the run late where it does not see it.
    fn look_for(&self, flag: &AtomicBool) {
        for _ in 0..LOOKS {
            if flag.load(Ordering::SeqCst) {
                return;
            }
            thread::yield_now();
        }
        self.is_late.store(true, Ordering::SeqCst);
    }

    /// The call of worker 0 has begun: looks for the end of the call of worker 1. Only the first
    /// time does anything.
    pub fn begin(&self) {
        if !self.has_begun.swap(true, Ordering::SeqCst) {
            self.look_for(&self.has_ended);
        }
    }

    /// Whether a worker looked for the other in vain. Then the order is not the one that is fixed.
    pub fn is_late(&self) -> bool {
        self.is_late.load(Ordering::SeqCst)
    }
}

impl Gate for Turns {
    fn before(&self, worker: usize, _index: usize) {
        if worker == 0 {
            self.begin();
        } else {
            self.look_for(&self.has_begun);
        }
    }

    fn after(&self, worker: usize, _index: usize) {
        if worker == 1 {
            self.has_ended.store(true, Ordering::SeqCst);
        }
    }
}
