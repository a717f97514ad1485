//! A run of a script with a price closure of the program's own, and a gate that looks at how many
//! prices were asked.

ghost use Rattle.std.specs.Prelude.{◌≡◌};
ghost use Rattle.topo_price.specs.Prices.{IsPromise};
ghost use Rattle.topo_io.specs.Settings.{AnswersPrices, price_table};

use std::alloc::Global;
use std::process::Abort;
use std::sync::atomic::{AtomicBool, AtomicU32, Ordering};
use std::sync::{Arc, Wait};
use std::test::Fail;
use std::thread::Threads;
use topo_core::limits::MAX_PASSES;
use topo_core::listed::Listed;
use topo_core::rows::Facts;
use topo_io::RunFault;
use topo_io::reading::CountedReader;
use topo_io::settings::judge;
use topo_price::table::PriceTable;
use topo_price::tariff::{PriceFn, Tariff};
use topo_run::{OpenGate, run_io, run_script};
use topo_script::{Report, Script, read_script, report};
use topo_service::Gate;

/// A list that grows a vertex on each side of a triangle and crosses it twice between them.
const ONE_LIST: &str = concat!(
    r#"{"prices":[3,2],"version":1,"workers":[[["grow",0,0,1],["insert",2,1,0],["grow",0,0,0],"#,
    r#"["grow",0,1,0],["insert",3,4,0],["planned",3,4,1],["delete",9]]]}"#,
);

/// The list of `ONE_LIST` beside an empty one: so it is carried out with a service.
const TWO_LISTS: &str = concat!(
    r#"{"prices":[3,2],"version":1,"workers":[[["grow",0,0,1],["insert",2,1,0],["grow",0,0,0],"#,
    r#"["grow",0,1,0],["insert",3,4,0],["planned",3,4,1],["delete",9]],[]]}"#,
);

/// Answers from a table, and counts how often it was asked.
#[derive(Drop)]
struct CountedTable<'a> {
    table: PriceTable,
    asked: &'a AtomicU32,
}

impl PriceFn for CountedTable<'_> {
    ghost use Rattle.std.specs.Prelude.{None, ⊤};
    ghost use Rattle.topo_price.specs.Prices.{table_answers};

    ghost is_callable = { λ counted. ⊤ };

    ghost may_return = { λ counted. table_answers counted.table };

    ghost of_kind = { λ counted kind. None };

    fn price(&self, facts: &Facts) -> Option<u32> {
        let _ = self.asked.fetch_add(1, Ordering::SeqCst);
        self.table.price(facts.kind)
    }

    fn price_of_kind(&self, _kind: u8) -> Option<Option<u32>> {
        None
    }
}

/// Notes how many prices were asked when a command ends, and whether more were when the next one
/// begins.
#[derive(Drop)]
struct AskedGate {
    asked: AtomicU32,
    asked_inside: AtomicU32,
    is_amiss: AtomicBool,
}

impl Gate for AskedGate {
    fn before(&self, _worker: usize, _index: usize) {
        if self.asked.load(Ordering::SeqCst) != self.asked_inside.load(Ordering::SeqCst) {
            self.is_amiss.store(true, Ordering::SeqCst);
        }
    }

    fn after(&self, _worker: usize, _index: usize) {
        let asked = self.asked.load(Ordering::SeqCst);
        self.asked_inside.store(asked, Ordering::SeqCst);
    }
}

/// The report of a script at the prices of a closure.
fn report_by<F: PriceFn + Drop + Send + Sync, R: Threads + Wait + Sync>(
    rt: &R,
    alloc: Global,
    script: &Script,
    ask: F,
    gate: &AskedGate,
) -> Result<Report, RunFault>
    requires callable { F.is_callable ask }
    requires promise { IsPromise (F.may_return ask) }
    requires own { AnswersPrices (F.may_return ask) script.now.prices }
{
    let Ok(tariff) = Arc::new(alloc, Tariff::new(ask)) else {
        return Err(RunFault::Memory);
    };
    run_script(rt, alloc, script, tariff, gate)
}

/// The report of a script at the prices of its own table.
fn report_by_table<R: Threads + Wait + Sync>(
    rt: &R,
    alloc: Global,
    script: &Script,
    table: PriceTable,
    gate: &AskedGate,
) -> Result<Report, RunFault>
    requires { table ≡ price_table script.now.prices }
{
    // For the proof: what the type keeps.
    table.laws();
    let counted = CountedTable {
        table,
        asked: &gate.asked,
    };
    report_by(rt, alloc, script, counted, gate)
}

/// The text of the report of a script, whose prices are counted.
fn counted_text<R: Threads + Wait + Sync>(
    rt: &R,
    alloc: Global,
    script: &Script,
    gate: &AskedGate,
) -> Result<String, RunFault> {
    let prices = script.prices.as_slice();
    let (_limits, table) = judge(script.limits, prices)?;
    let made = report_by_table(rt, alloc, script, table, gate)?;
    match report(alloc, &made) {
        Ok(text) => Ok(text),
        Err(_) => Err(RunFault::Memory),
    }
}

/// Checks that a run at own prices writes what the command writes, and that its gate stands around
/// each command: prices are asked only between the gate's two calls.
fn check_run<R: Threads + Wait + Abort + Sync>(
    rt: &R,
    alloc: Global,
    text: &str,
) -> Result<(), Fail> {
    let gate = AskedGate {
        asked: AtomicU32::new(0),
        asked_inside: AtomicU32::new(0),
        is_amiss: AtomicBool::new(false),
    };
    let script = read_script(alloc, text.as_bytes()).expect(rt, "a script");
    let mut counted = counted_text(rt, alloc, &script, &gate).expect(rt, "a report");
    counted.push_str("\n")?;
    let mut written: Vec<u8> = Vec::new(alloc);
    assert!(rt;
        run_io(
            rt,
            alloc,
            &mut CountedReader::new(text.as_bytes()),
            &mut written,
            &OpenGate
        ) == Ok(())
    );
    assert!(rt; written.as_slice() == counted.as_bytes());
    assert!(rt; gate.asked.load(Ordering::SeqCst) > 0);
    gate.before(0, 0);
    assert!(rt; !gate.is_amiss.load(Ordering::SeqCst));
    Ok(())
}

/// Checks that lists that are more than a service has places are told so, and that as many as it
/// has are carried out.
fn check_places<R: Threads + Wait + Abort + Sync>(rt: &R, alloc: Global) -> Result<(), Fail> {
    let gate = AskedGate {
        asked: AtomicU32::new(0),
        asked_inside: AtomicU32::new(0),
        is_amiss: AtomicBool::new(false),
    };
    let mut script = read_script(alloc, TWO_LISTS.as_bytes()).expect(rt, "a script");
    for _list in 2..MAX_PASSES {
        script.workers.push(Listed::from_vec(Vec::new(alloc)))?;
    }
    assert!(rt; counted_text(rt, alloc, &script, &gate).is_ok());
    script.workers.push(Listed::from_vec(Vec::new(alloc)))?;
    let told = counted_text(rt, alloc, &script, &gate);
    assert!(rt; matches!(&told, Err(RunFault::NoSeat)));
    Ok(())
}

#[test]
fn more_lists_than_places(rt: HostRuntime) -> Result<(), Fail> {
    check_places(&rt, rt.alloc())
}

#[test]
fn one_list_at_own_prices(rt: HostRuntime) -> Result<(), Fail> {
    check_run(&rt, rt.alloc(), ONE_LIST)
}

#[test]
fn two_lists_at_own_prices(rt: HostRuntime) -> Result<(), Fail> {
    check_run(&rt, rt.alloc(), TWO_LISTS)
}
