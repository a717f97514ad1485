//! Runs of scripts.

ghost use Rattle.std.specs.Prelude.{◌≤◌, IfErr, IfOk, OnOk, length};
ghost use Rattle.std.specs.Arc.{arc_value};
ghost use Rattle.topo_core.specs.declared.limits.TheConstants.{MAX_PASSES};
ghost use Rattle.topo_run.specs.Runs.{FailsRun, IsReportOf};
ghost use Rattle.topo_io.specs.Settings.{AnswersPrices};

use crate::passes::run_lists;
use std::alloc::Global;
use std::sync::{Arc, Wait};
use std::thread::Threads;
use topo_core::listed::Listed;
use topo_io::RunFault;
use topo_io::settings::{Setting, validate};
use topo_price::tariff::{PriceFn, Tariff};
use topo_script::{Report, Script};
use topo_service::Gate;

/// Carries out the lists of a script from its start, each list in a thread of its own, or in its
/// turn where no thread can be made. The tariff answers the script's prices; it may be a closure of
/// a program's own. A command is carried out between the gate's calls for it. A planned insertion of
/// several lists may look for its route on a version of the picture before it takes the lock. A
/// refused command is entered and changes nothing, and the run goes on. The fault is the first of
/// the script's limits, its prices and its start. If they have none, it is NoSeat if there are more
/// than `MAX_PASSES` lists, Memory if any of it was out of memory, also in one of the threads, and
/// Mismatch if a receipt is not in the history, with the places of its list and of its command. One
/// list alone is carried out in this thread, where a planned insertion is an insertion, and its only
/// such fault is Memory.
pub fn run_script<F: PriceFn + Drop + Send + Sync, R: Threads + Wait + Sync, T: Gate>(
    rt: &R,
    alloc: Global,
    script: &Script,
    tariff: Arc<Tariff<F>>,
    gate: &T,
) -> Result<Report, RunFault>
    requires { AnswersPrices (F.may_return (arc_value tariff)) script.now.prices }
    ensures report { IfOk result (IsReportOf script.now) }
    ensures seats { OnOk result (length script.now.workers ≤ MAX_PASSES) }
    ensures fault { IfErr result (FailsRun script.now) }
{
    let prices = script.prices.as_slice();
    let Setting { table: _, start } = validate(
        alloc,
        script.limits,
        prices,
        script.start.as_ref(),
    )?;
    let (Ok(prices), Ok(rows)) = (Vec::from_slice(alloc, prices), start.rows(alloc)) else {
        return Err(RunFault::Memory);
    };
    let outcome = run_lists(rt, alloc, start, tariff, script.workers.as_slice(), gate)?;
    Ok(Report {
        limits: script.limits,
        prices: Listed::from_vec(prices),
        start: rows,
        history: outcome.history,
        picture: outcome.picture,
    })
}
