//! Runs whose gate fixes the order of two calls, or counts them.

use std::sync::atomic::{AtomicBool, AtomicUsize, Ordering};
use std::test::Fail;
use std::thread;
use topo_core::calls::{Entry, Reply};
use topo_io::reading::CountedReader;
use topo_run::run_io;
use topo_script::read_report;
use topo_service::Gate;
use topo_service_test_support::gates::Turns;

const TWO_LISTS: &str = "{\"version\":1,\"workers\":[[[\"insert\",0,1,0]],[[\"insert\",0,1,1]]]}";

/// Whether an entry is the insertion of this edge by this caller.
fn is_insertion(entry: &Entry, caller: u32, edge: u32) -> bool {
    entry.caller == caller
        && matches!(&entry.reply, Reply::Inserted(made) if made.id.number() == edge)
}

#[test]
fn a_gate_fixes_the_order_of_two_lists(rt: HostRuntime) -> Result<(), Fail> {
    let alloc = rt.alloc();
    let gate = Turns::new();
    let mut reader = CountedReader::new(TWO_LISTS.as_bytes());
    let mut written: Vec<u8> = Vec::new(alloc);
    assert!(rt; run_io(&rt, alloc, &mut reader, &mut written, &gate) == Ok(()));
    assert!(rt; !gate.is_late());
    let made = read_report(alloc, written.as_slice()).expect(&rt, "a report");
    let history = made.history.as_slice();
    assert_eq!(rt; history.len(), 2);
    assert!(rt; is_insertion(&history[0], 1, 1));
    assert!(rt; is_insertion(&history[1], 0, 2));
    Ok(())
}

/// How often a call of the gate looks for a flag at most.
const LOOKS: u32 = 10_000_000;

/// Lets worker 1 begin only when the first command of worker 0 has ended. It looks a bounded number
/// of times, leaving the processor to others between, and does not block.
#[derive(Drop)]
struct Behind {
    has_ended: AtomicBool,
    is_late: AtomicBool,
}

impl Gate for Behind {
    fn before(&self, worker: usize, index: usize) {
        if worker != 1 || index != 0 {
            return;
        }
        for _ in 0..LOOKS {
            if self.has_ended.load(Ordering::SeqCst) {
                return;
            }
            thread::yield_now();
        }
        self.is_late.store(true, Ordering::SeqCst);
    }

    fn after(&self, worker: usize, index: usize) {
        if worker == 0 && index == 0 {
            self.has_ended.store(true, Ordering::SeqCst);
        }
    }
}

#[test]
fn a_worker_begins_when_the_other_has_ended(rt: HostRuntime) -> Result<(), Fail> {
    let alloc = rt.alloc();
    let gate = Behind {
        has_ended: AtomicBool::new(false),
        is_late: AtomicBool::new(false),
    };
    let mut reader = CountedReader::new(TWO_LISTS.as_bytes());
    let mut written: Vec<u8> = Vec::new(alloc);
    assert!(rt; run_io(&rt, alloc, &mut reader, &mut written, &gate) == Ok(()));
    assert!(rt; !gate.is_late.load(Ordering::SeqCst));
    let made = read_report(alloc, written.as_slice()).expect(&rt, "a report");
    let history = made.history.as_slice();
    assert_eq!(rt; history.len(), 2);
    assert!(rt; is_insertion(&history[0], 0, 1));
    assert!(rt; is_insertion(&history[1], 1, 2));
    Ok(())
}

const ONE_LIST: &str =
    "{\"version\":1,\"workers\":[[[\"grow\",1,0,0],[\"planned\",0,1,1],[\"delete\",9]]]}";

/// Counts the commands of list 0 that begin and end, and notes a call that comes out of turn.
#[derive(Drop)]
struct CountingGate {
    begun: AtomicUsize,
    ended: AtomicUsize,
    is_amiss: AtomicBool,
}

impl CountingGate {
    /// Notes whether the call is of list 0, and whether so many commands have begun and ended.
    fn note(&self, worker: usize, begun: usize, ended: usize) {
        let is_due = self.begun.load(Ordering::SeqCst) == begun
            && self.ended.load(Ordering::SeqCst) == ended;
        if worker != 0 || !is_due {
            self.is_amiss.store(true, Ordering::SeqCst);
        }
    }
}

impl Gate for CountingGate {
    fn before(&self, worker: usize, index: usize) {
        self.note(worker, index, index);
        let _ = self.begun.fetch_add(1, Ordering::SeqCst);
    }

    fn after(&self, worker: usize, index: usize) {
        self.note(worker, index.wrapping_add(1), index);
        let _ = self.ended.fetch_add(1, Ordering::SeqCst);
    }
}

#[test]
fn a_gate_sees_each_command_of_one_list(rt: HostRuntime) -> Result<(), Fail> {
    let gate = CountingGate {
        begun: AtomicUsize::new(0),
        ended: AtomicUsize::new(0),
        is_amiss: AtomicBool::new(false),
    };
    let mut written: Vec<u8> = Vec::new(rt.alloc());
    assert!(rt;
        run_io(
            &rt,
            rt.alloc(),
            &mut CountedReader::new(ONE_LIST.as_bytes()),
            &mut written,
            &gate
        ) == Ok(())
    );
    assert!(rt; !gate.is_amiss.load(Ordering::SeqCst));
    assert!(rt; gate.ended.load(Ordering::SeqCst) == 3);
    Ok(())
}
