//! The command `run`.

ghost use Rattle.std.specs.Prelude.{◌≡◌, ◌≤◌, ◌+◌, ℕ, List, IfErr, IfOk, ◌++◌, ◌∷◌, []};
ghost use Rattle.std.specs.Prelude.{string_bytes};
ghost use Rattle.topo_script.specs.declared.script_forms.TheConstants.{MAX_SCRIPT_BYTES};
ghost use Rattle.topo_script.specs.Reads.{Gives};
ghost use Rattle.topo_script.specs.Scripts.{script_of};
ghost use Rattle.topo_run.specs.Runs.{FailsBy, FailsRun, IsDone, IsFaultOfBytes};
ghost use Rattle.topo_run.specs.Runs.{IsLineOfBytes, IsRunLine};
ghost use Rattle.topo_script.specs.ReportTexts.{report_text};
ghost use Rattle.topo_io.specs.Reading.{most_calls};

use crate::scripts::run_script;
use std::alloc::{AllocError, Global};
use std::io::{Read, Write};
use std::sync::{Arc, Wait};
use std::thread::Threads;
use topo_io::reading::{CountedReader, read_bytes};
use topo_io::settings::judge;
use topo_io::writing::write_text;
use topo_io::{FromTable, RunFault};
use topo_price::table::PriceTable;
use topo_price::tariff::Tariff;
use topo_script::script_forms::MAX_SCRIPT_BYTES;
use topo_script::{Report, Script, ScriptFault, read_script, report};
use topo_service::Gate;

/// Reads a script, carries out its lists on its start under its limits and at its prices, and
/// writes the text of the report and a line feed. Each list has a thread of its own, or its turn
/// where no thread can be made; one list alone is carried out in this thread. A command is carried
/// out between the gate's calls for it. A refused command is entered and changes nothing, and the
/// run goes on. The reader is read until its end, or until it has given one byte more than a script
/// may have: in at most twice as many calls as a script may have bytes, and two; an interrupted
/// call is one of them. ReadFault comes where a call fails otherwise or there are too few of them,
/// WriteFault where a call of the writer fails.
pub fn run_io<R: Threads + Wait + Sync, I: Read, O: Write, T: Gate>(
    rt: &R,
    alloc: Global,
    reader: &mut CountedReader<I>,
    writer: &mut O,
    gate: &T,
) -> Result<(), RunFault>
    ensures done { IfOk result (λ _. IsDone reader.old.left reader.new.left
        (O.contents writer.old) (O.contents writer.new)) }
    ensures fault { IfErr result (λ fault. FailsBy fault reader.old reader.new
        (O.contents writer.old) (O.contents writer.new)) }
    ensures calls { reader.new.calls ≤ reader.old.calls + most_calls MAX_SCRIPT_BYTES }
{
    let bytes = read_bytes(alloc, MAX_SCRIPT_BYTES as u32, reader)?;
    let read = read_script(alloc, bytes.as_slice());
    drop(bytes);
    let line = line_of_read::<PriceTable, R, T>(rt, alloc, read, gate)?;
    write_text(writer, line.as_str())
}

/// The line that shows the run of a script, from what was read of the bytes that spell it, or the
/// first fault.
fn line_of_read<F: FromTable + Send + Sync, R: Threads + Wait + Sync, T: Gate>(
    rt: &R,
    alloc: Global,
    read: Result<Script, ScriptFault>,
    gate: &T,
) -> Result<String, RunFault>
    ensures line { (bytes : List ℕ) → Gives read (script_of bytes)
        → IfOk result (λ line. IsLineOfBytes bytes (string_bytes line)) }
    ensures fault { (bytes : List ℕ) → Gives read (script_of bytes)
        → IfErr result (IsFaultOfBytes bytes) }
{
    match read {
        Ok(script) => run_line::<F, R, T>(rt, alloc, &script, gate),
        Err(fault) => Err(RunFault::Script(fault)),
    }
}

/// The line that shows the run of a script at its own prices, or the first fault of its limits, its
/// prices, its start and its service.
fn run_line<F: FromTable + Send + Sync, R: Threads + Wait + Sync, T: Gate>(
    rt: &R,
    alloc: Global,
    script: &Script,
    gate: &T,
) -> Result<String, RunFault>
    ensures line { IfOk result (λ line. IsRunLine script.now (string_bytes line)) }
    ensures fault { IfErr result (FailsRun script.now) }
{
    let (_limits, table) = judge(script.limits, script.prices.as_slice())?;
    let Ok(tariff) = Arc::new(alloc, Tariff::new(F::from_table(table))) else {
        return Err(RunFault::Memory);
    };
    let made = run_script(rt, alloc, script, tariff, gate)?;
    match report_line(alloc, &made) {
        Ok(line) => Ok(line),
        Err(_) => Err(RunFault::Memory),
    }
}

/// The text of a report and a line feed.
fn report_line(alloc: Global, made: &Report) -> Result<String, AllocError>
    ensures { IfOk result (λ line. string_bytes line ≡ report_text made.now ++ 10 ∷ []) }
{
    let mut text = report(alloc, made)?;
    text.push_str("\n")?;
    Ok(text)
}
