//! Sixteen workers who are inside their gates at one time, and the numbers that a gate is called
//! with.

use crate::gates::Round;
use crate::harness::{Scene, Start, are_carried_out};
use std::process::Abort;
use std::sync::atomic::{AtomicBool, AtomicUsize, Ordering};
use std::test::Fail;
use std::thread;
use topo_core::calls::{Call, Command};

/// How often a worker looks for the others at most.
const LOOKS: u32 = 2_000_000;

/// As many lists as a service has passes.
const WORKERS: usize = 16;

/// Each worker waits before its call until all are there. It looks a bounded number of times,
/// leaving the processor to others between, and does not block. Of those who came it notes the
/// numbers, each as one bit.
#[derive(Drop)]
pub(crate) struct Meeting {
    pub inside: AtomicUsize,
    pub numbers: AtomicUsize,
    pub late: AtomicBool,
}

impl Meeting {
    /// Comes in, looks until all are there, and marks the run late where it does not see them.
    pub(crate) fn look_for_all(&self, worker: usize) {
        let _ = self.numbers.fetch_or(bit_of(worker), Ordering::SeqCst);
        let _ = self.inside.fetch_add(1, Ordering::SeqCst);
        for _ in 0..LOOKS {
            if self.inside.load(Ordering::SeqCst) >= WORKERS {
                return;
            }
            thread::yield_now();
        }
        self.late.store(true, Ordering::SeqCst);
    }
}

/// The bit of a worker's number; that of none past the last worker.
fn bit_of(worker: usize) -> usize {
    if worker < WORKERS { 1 << worker } else { 0 }
}

/// Follows two lists: for each the calls are to be before command 0, after it, before command 1,
/// and so on.
#[derive(Drop)]
pub(crate) struct Counted {
    pub calls: [AtomicUsize; 2],
    pub is_amiss: AtomicBool,
}

impl Counted {
    /// Whether there were so many calls for each worker.
    pub(crate) fn has_counted(&self, due: usize) -> bool {
        self.calls
            .iter()
            .all(|calls| calls.load(Ordering::SeqCst) == due)
    }

    /// Notes a call for a worker, before which there are to have been so many.
    pub(crate) fn note(&self, worker: usize, due: usize) {
        let is_due = match self.calls.get(worker) {
            Some(calls) => calls.fetch_add(1, Ordering::SeqCst) == due,
            None => false,
        };
        if !is_due {
            self.is_amiss.store(true, Ordering::SeqCst);
        }
    }
}

/// An edge beside that of the seed.
const ALONG: Command = Command::Plain(Call::Insert {
    u: 0,
    v: 1,
    kind: 0,
});

/// A service that begins with the seed, and what is told of it.
fn seed_scene(due: &str) -> Scene<'_> {
    Scene {
        start: Start::Seed,
        prices: (Some(1), &[]),
        steps: &[],
        due,
    }
}

#[test]
fn sixteen_workers_are_inside_at_one_time(rt: HostRuntime) -> Result<(), Fail> {
    let scene = seed_scene(
        "[Done, Done, Done, Done, Done, Done, Done, Done, \
         Done, Done, Done, Done, Done, Done, Done, Done]\n[]; 16 calls, replayed: true",
    );
    let round = Round::Together(Meeting {
        inside: AtomicUsize::new(0),
        numbers: AtomicUsize::new(0),
        late: AtomicBool::new(false),
    });
    let list: &[Command] = &[ALONG];
    are_carried_out(&rt, &scene, &[list; WORKERS], &round)?;
    assert!(rt; round.has_met(0xffff));
    Ok(())
}

#[test]
fn a_gate_is_called_before_and_after_each_command(rt: HostRuntime) -> Result<(), Fail> {
    let scene = seed_scene("[Done, Done]\n[]; 6 calls, replayed: true");
    let round = Round::Counted(Counted {
        calls: [AtomicUsize::new(0), AtomicUsize::new(0)],
        is_amiss: AtomicBool::new(false),
    });
    let list: &[Command] = &[ALONG; 3];
    are_carried_out(&rt, &scene, &[list, list], &round)?;
    assert!(rt; round.has_counted(6));
    Ok(())
}
