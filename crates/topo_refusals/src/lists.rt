//! A list that a worker carries out. If a command is out of memory, the rest of the list is run
//! after it.

use crate::judge::{Case, Done, Runtime, bookkept, refused, room, tell, twice};
use crate::services::{CALLER, ServiceCase};
use anyhow::Result;
use std::alloc::{AllocError, Global};
use std::sync::atomic::{AtomicBool, AtomicU32, AtomicUsize, Ordering};
use topo_core::calls::{Call, Command};
use topo_core::listed::Listed;
use topo_price::tariff::PriceFn;
use topo_service::{Gate, Pass, Receipt, ServiceOver, WorkerEnd, run_workers};
use topo_test_support::calls::{delete, insert, planned};
use topo_versions::{ServiceBrand, VersionWriter};

/// What is noted while a list is carried out: how often its gate was called, whether a call came in
/// another order, and how many prices were asked for in the last command.
#[derive(Drop)]
pub(crate) struct Watch {
    calls: AtomicUsize,
    is_amiss: AtomicBool,
    asked: AtomicU32,
}

impl Watch {
    pub(crate) fn new() -> Watch {
        Watch {
            calls: AtomicUsize::new(0),
            is_amiss: AtomicBool::new(false),
            asked: AtomicU32::new(0),
        }
    }

    /// Begins anew with a list.
    pub(crate) fn begin(&self) {
        self.calls.store(0, Ordering::SeqCst);
        self.is_amiss.store(false, Ordering::SeqCst);
    }

    /// Notes a call for a list, before which so many are due.
    fn note(&self, worker: usize, due: usize) {
        if worker != 0 || self.calls.fetch_add(1, Ordering::SeqCst) != due {
            self.is_amiss.store(true, Ordering::SeqCst);
        }
    }

    /// How many commands were seen to begin and end, in order.
    pub(crate) fn ended(&self) -> Option<usize> {
        let calls = self.calls.load(Ordering::SeqCst);
        if calls % 2 == 1 || self.is_amiss.load(Ordering::SeqCst) {
            return None;
        }
        Some(calls / 2)
    }

    /// Notes that a price is asked for.
    pub(crate) fn ask(&self) {
        let _ = self.asked.fetch_add(1, Ordering::SeqCst);
    }
}

impl Gate for Watch {
    fn before(&self, worker: usize, index: usize) {
        self.asked.store(0, Ordering::SeqCst);
        self.note(worker, index.wrapping_mul(2));
    }

    fn after(&self, worker: usize, index: usize) {
        self.note(worker, index.wrapping_mul(2).wrapping_add(1));
    }
}

/// So many prices the search of the last command asks for, whose route has to cross an edge.
const SEARCHED: u32 = 7;

/// How many commands the worker carries out.
const COMMANDS: usize = 5;

/// The commands from a place on.
fn list_from(alloc: Global, place: usize) -> Result<Vec<Command>, AllocError> {
    let leaf = Call::Grow {
        u: 4,
        position: 0,
        kind: 1,
    };
    let commands: [Command; COMMANDS] = [
        Command::Plain(insert(3, 4)),
        planned(4, 3),
        Command::Plain(delete(11)),
        Command::Plain(leaf),
        planned(1, 2),
    ];
    Vec::from_slice(alloc, commands.get(place..).unwrap_or(&[]))
}

/// How a worker ended with the commands of a list.
fn run_list<
    F: PriceFn + Drop + Send + Sync,
    K: ServiceBrand<F> + Send + Sync,
    W: VersionWriter<F, K> + Send,
    R: Runtime,
>(
    rt: &R,
    service: &ServiceOver<F, K, W>,
    workers: &mut [Pass<F, K>],
    list: Vec<Command>,
    watch: &Watch,
) -> Result<WorkerEnd, AllocError> {
    watch.begin();
    let lists = [Listed::from_vec(list)];
    if workers.len() != lists.len() {
        return Err(AllocError);
    }
    let ends = run_workers(rt, rt.alloc(), service, workers, &lists, watch)?;
    ends.as_slice().first().copied().ok_or(AllocError)
}

impl<
    F: PriceFn + Drop + Send + Sync,
    K: ServiceBrand<F> + Send + Sync,
    W: VersionWriter<F, K> + Send,
> ServiceCase<'_, F, K, W> {
    /// The receipts of the worker's pass.
    fn receipts(&self) -> &[Receipt] {
        match self.passes.get(CALLER) {
            Some(pass) => pass.receipts(),
            None => &[],
        }
    }

    /// Carries out the commands from a place on, up to the place that is answered. If the gate did
    /// not see them begin and end, and the one that was out of memory, that is told.
    fn run_from<R: Runtime>(
        &mut self,
        rt: &R,
        place: usize,
        told: &mut String,
    ) -> Result<usize, AllocError> {
        let list = bookkept(told, list_from(rt.alloc(), place))?;
        let Some(workers) = self.passes.as_mut_slice().get_mut(CALLER..CALLER + 1) else {
            return Err(AllocError);
        };
        let (done, seen) = match run_list(rt, &self.service, workers, list, self.watch)? {
            WorkerEnd::Done => (COMMANDS, COMMANDS.saturating_sub(place)),
            WorkerEnd::OutOfMemory(at) => (place.wrapping_add(at), at.wrapping_add(1)),
        };
        if self.watch.ended() != Some(seen) {
            write!(
                told,
                "\nchanged: the gate did not see {seen} commands begin and end"
            )?;
        }
        Ok(done)
    }

    /// Carries out the list, and tells all receipts. After a command that is out of memory it is
    /// told if there is not one receipt more for each command before it, and if it is the last and
    /// its search outside the lock was out of memory: the route is then looked for once more, under
    /// the lock, so a list that ends there has asked for all its prices.
    fn work<R: Runtime>(&mut self, rt: &R, told: &mut String) -> Done {
        told.push_str("run_workers")?;
        let had = self.receipts().len();
        let done = self.run_from(rt, 0, told)?;
        if done < COMMANDS {
            tell(rt, "a command of run_workers");
            let (has, asked) = (
                self.receipts().len(),
                self.watch.asked.load(Ordering::SeqCst),
            );
            let is_last = done.wrapping_add(1) == COMMANDS;
            if has != had.wrapping_add(done) || (is_last && asked < SEARCHED) {
                write!(
                    told,
                    "\nchanged: {has} receipts, {asked} prices before command {done}"
                )?;
            }
            if self.run_from(rt, done, told)? != COMMANDS {
                write!(told, "\nchanged: the list was not carried out")?;
            }
        }
        for receipt in self.receipts() {
            write!(told, "\n  {:?}: {:?}", receipt.call, receipt.reply)?;
        }
        Ok(())
    }

    /// Judges the list as a call.
    pub(crate) fn judge_list<R: Runtime>(&mut self, rt: &R) -> Result<()> {
        let before = twice(rt, |alloc| self.look(alloc))?;
        let mut told = room(rt)?;
        if self.work(rt, &mut told).is_err() {
            let after = twice(rt, |alloc| self.look(alloc))?;
            refused(rt, &mut told, before.as_str(), after.as_str())?;
            self.work(rt, &mut told)?;
        }
        Ok(println!(rt; "{told}")?)
    }
}
