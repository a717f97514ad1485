//! Lists of seventy thousand commands, alone and beside other lists.

ghost use Rattle.std.specs.Prelude.{◌≡◌};
ghost use Rattle.topo_price.specs.Prices.{IsPromise};
ghost use Rattle.topo_io.specs.Settings.{AnswersPrices, price_table};

use crate::replies::{is_deleted, is_uncrossed};
use crate::starts::seed_rows;
use crate::texts::{Flaw, judgement, pairs_report};
use anyhow::Result;
use std::alloc::{AllocError, Global};
use std::sync::{Arc, Wait};
use std::thread::Threads;
use topo_core::calls::{Call, Command, Entry, Refusal, Reply};
use topo_core::listed::Listed;
use topo_io::RunFault;
use topo_io::settings::judge;
use topo_price::table::PriceTable;
use topo_price::tariff::{PriceFn, Tariff};
use topo_run::{OpenGate, run_script};
use topo_script::{LimitRows, Report, Script, report};

/// How many edges a list puts in and takes out again: so it has twice as many commands.
const PAIRS: u32 = 35_000;

/// An edge from vertex 0 to vertex 1.
const JOIN: Call = Call::Insert {
    u: 0,
    v: 1,
    kind: 0,
};

/// An edge from a vertex to itself, which is refused.
const LOOP: Call = Call::Insert {
    u: 0,
    v: 0,
    kind: 0,
};

/// Edges are put in and taken out again, one after the other.
fn pairs(alloc: Global) -> Result<Listed<Command>, AllocError> {
    let mut list = Vec::new(alloc);
    for edge in 1..=PAIRS {
        list.push(Command::Plain(JOIN))?;
        list.push(Command::Plain(Call::Delete { edge }))?;
    }
    Ok(Listed::from_vec(list))
}

/// As many commands, all of which are refused.
fn loops(alloc: Global) -> Result<Listed<Command>, AllocError> {
    let mut list = Vec::new(alloc);
    for _ in 0..PAIRS {
        list.push(Command::Plain(LOOP))?;
        list.push(Command::Plain(LOOP))?;
    }
    Ok(Listed::from_vec(list))
}

/// The script of that list and of so many others: of each two, one is refused throughout, and the
/// other is empty.
fn script_beside(alloc: Global, others: u32) -> Result<Script, AllocError> {
    let mut lists = Vec::new(alloc);
    lists.push(pairs(alloc)?)?;
    for other in 0..others {
        let list = if other % 2 == 0 {
            loops(alloc)?
        } else {
            Listed::new(alloc)
        };
        lists.push(list)?;
    }
    Ok(Script {
        limits: LimitRows {
            vertices: 65_536,
            edges: 65_536,
            crossings: 1_048_576,
        },
        prices: Listed::new(alloc),
        start: None,
        workers: Listed::from_vec(lists),
    })
}

/// The report of a script at the prices of a closure.
fn report_by<F: PriceFn + Drop + Send + Sync, R: Threads + Wait + Sync>(
    rt: &R,
    alloc: Global,
    script: &Script,
    ask: F,
) -> Result<Report, RunFault>
    requires callable { F.is_callable ask }
    requires promise { IsPromise (F.may_return ask) }
    requires own { AnswersPrices (F.may_return ask) script.now.prices }
{
    let Ok(tariff) = Arc::new(alloc, Tariff::new(ask)) else {
        return Err(RunFault::Memory);
    };
    run_script(rt, alloc, script, tariff, &OpenGate)
}

/// The report of a script at the prices of its own table.
fn report_by_table<R: Threads + Wait + Sync>(
    rt: &R,
    alloc: Global,
    script: &Script,
    table: PriceTable,
) -> Result<Report, RunFault>
    requires { table ≡ price_table script.now.prices }
{
    // For the proof: what the type keeps.
    table.laws();
    report_by(rt, alloc, script, table)
}

/// The report of a script.
fn report_of<R: Threads + Wait + Sync>(
    rt: &R,
    alloc: Global,
    script: &Script,
) -> Result<Report, RunFault> {
    let prices = script.prices.as_slice();
    let (_limits, table) = judge(script.limits, prices)?;
    report_by_table(rt, alloc, script, table)
}

/// Whether an entry is that of a command of the list of pairs, at its place there.
fn is_of_pair(entry: &Entry, place: u32) -> bool {
    let edge = (place / 2).saturating_add(1);
    if place % 2 == 0 {
        entry.call == JOIN && is_uncrossed(&entry.reply, edge)
    } else {
        entry.call == Call::Delete { edge } && is_deleted(&entry.reply, edge)
    }
}

/// Whether an entry is a refused command of another list.
fn is_of_loop(entry: &Entry) -> bool {
    entry.call == LOOP && matches!(&entry.reply, Reply::Refused(Refusal::SameEnds))
}

/// How many entries list 0 has, and how many the others have. One that is not as due is not
/// counted.
fn due_entries(history: &[Entry]) -> (u32, u32) {
    let (mut first, mut others) = (0u32, 0u32);
    for entry in history {
        if entry.caller == 0 && is_of_pair(entry, first) {
            first = first.saturating_add(1);
        } else if entry.caller > 0 && is_of_loop(entry) {
            others = others.saturating_add(1);
        }
    }
    (first, others)
}

/// Whether the picture at the end is that of a seed after so many edge ids.
fn ends_in_seed(alloc: Global, made: &Report) -> Result<bool, AllocError> {
    let rows = seed_rows(alloc, PAIRS + 1)?;
    let same = made.picture.equals(&rows);
    drop(rows);
    Ok(same)
}

/// What is told of a report: its entries, the picture at the end, and, if it is that of the list
/// alone, its text.
fn tell_report(alloc: Global, made: &Report, is_alone: bool) -> Result<String> {
    let entries = made.history.len();
    let (first, others) = due_entries(made.history.as_slice());
    let ended = ends_in_seed(alloc, made)?;
    let text = if is_alone {
        alone_text(alloc, made)?
    } else {
        String::from_str(alloc, "of many lists")?
    };
    Ok(format!(in alloc;
        "{entries} entries, as due {first} and {others}, the picture too: {ended}; the text: {text}"
    )?)
}

/// Whether the text of a report is that of the list alone.
fn alone_text(alloc: Global, made: &Report) -> Result<String, AllocError> {
    let text = report(alloc, made)?;
    let due = pairs_report(alloc, PAIRS, Flaw::Nothing)?;
    let told = judgement(alloc, text.as_bytes(), due.as_bytes());
    drop(text);
    drop(due);
    told
}

/// A run of the list beside so many others.
fn run_beside<R: Threads + Wait + Sync>(rt: &R, alloc: Global, others: u32) -> Result<String> {
    let script = script_beside(alloc, others)?;
    let made = report_of(rt, alloc, &script);
    drop(script);
    let told = match &made {
        Ok(made) => tell_report(alloc, made, others == 0),
        Err(fault) => Ok(format!(in alloc; "{fault}")?),
    };
    drop(made);
    told
}

/// A line for each run.
pub(crate) fn tell_lists<R: Print + AllocGlobal + Threads + Wait + Sync>(rt: &R) -> Result<()> {
    for others in [0, 1, 3] {
        let told = run_beside(rt, rt.alloc(), others)?;
        println!(rt; "a list of 70000 commands beside {others}: {told}")?;
    }
    Ok(())
}
