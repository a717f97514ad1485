//! The command `replay`.

ghost use Rattle.std.specs.Prelude.{◌≡◌, ◌≤◌, ◌+◌, ℕ, List, IfOk, IfErr, Some};
ghost use Rattle.std.specs.Prelude.{string_bytes};
ghost use Rattle.topo_book.specs.Books.{IsBook};
ghost use Rattle.topo_price.specs.Prices.{prices_of};
ghost use Rattle.topo_check.specs.Replays.{IsReplayed, IsSoundReport, IsTrueReport, IsUntrue};
ghost use Rattle.topo_check.specs.Replays.{LeadsTo, ReplayFailsBy, TellsCalls, TellsUntrue};
ghost use Rattle.topo_check.specs.Replays.{calls_line};
ghost use Rattle.topo_script.specs.Reads.{Gives};
ghost use Rattle.topo_script.specs.Scripts.{report_of};
ghost use Rattle.topo_io.specs.Reading.{most_calls};
ghost use Rattle.topo_io.specs.Settings.{AnswersPrices};

use std::alloc::{AllocError, Global};
use std::io::{Read, Write};
use topo_book::{ReplayFault, replay};
use topo_io::reading::{CountedReader, read_bytes};
use topo_io::settings::{Setting, validate};
use topo_io::writing::write_text;
use topo_io::{FromTable, RunFault};
use topo_picture::Picture;
use topo_price::table::PriceTable;
use topo_price::tariff::{PriceFn, Tariff};
use topo_script::row_forms::MAX_PICTURE_BYTES;
use topo_script::{Report, ScriptFault, read_report};

/// Reads a report, carries out its history again from its start, under its limits and at its
/// prices, and writes how many calls it has, where each reply is the one due and the picture at the
/// end has the rows of the report's. Who made a call is not judged, and the report's picture is not
/// loaded. The reader is read until its end, or until it has given one byte more than a report may
/// have: in at most twice as many calls as a report may have bytes, and two; an interrupted call is
/// one of them. ReadFault comes where a call fails otherwise or there are too few of them,
/// WriteFault where a call of the writer fails.
pub fn replay_io<R: Read, W: Write>(
    alloc: Global,
    reader: &mut CountedReader<R>,
    writer: &mut W,
) -> Result<(), RunFault>
    ensures done { IfOk result (λ _. IsReplayed reader.old.left reader.new.left
        (W.contents writer.old) (W.contents writer.new)) }
    ensures fault { IfErr result (λ fault. ReplayFailsBy fault reader.old reader.new
        (W.contents writer.old) (W.contents writer.new)) }
    ensures calls { reader.new.calls ≤ reader.old.calls + most_calls 268435456 }
{
    let bytes = read_bytes(alloc, MAX_PICTURE_BYTES as u32, reader)?;
    let read = read_report(alloc, bytes.as_slice());
    // The text of a report is larger than the report.
    drop(bytes);
    let line = line_of_read(alloc, read)?;
    write_text(writer, line.as_str())
}

/// The line that says how many calls the report has that bytes spell, where it is true, or the
/// first fault.
pub fn replay_bytes(alloc: Global, bytes: &[u8]) -> Result<String, RunFault>
    ensures line { IfOk result (λ line. TellsCalls bytes.now (string_bytes line)) }
    ensures fault { IfErr result (TellsUntrue bytes.now) }
{
    line_of_read(alloc, read_report(alloc, bytes))
}

/// The line of the verdict on what was read of the report's bytes.
fn line_of_read(alloc: Global, read: Result<Report, ScriptFault>) -> Result<String, RunFault>
    ensures line { (bytes : List ℕ) → Gives read (report_of bytes)
        → IfOk result (λ line. TellsCalls bytes (string_bytes line)) }
    ensures fault { (bytes : List ℕ) → Gives read (report_of bytes)
        → IfErr result (TellsUntrue bytes) }
{
    let report = match read {
        Ok(report) => report,
        Err(fault) => return Err(RunFault::Script(fault)),
    };
    let judged = judge::<PriceTable>(alloc, &report);
    let calls = report.history.len();
    drop(report);
    judged?;
    match calls_line(alloc, calls) {
        Ok(line) => Ok(line),
        Err(_) => Err(RunFault::Memory),
    }
}

/// The line that says how many calls were carried out again, with its line feed.
fn calls_line(alloc: Global, calls: usize) -> Result<String, AllocError>
    ensures { IfOk result (λ line. string_bytes line ≡ calls_line calls) }
{
    format!(in alloc; "replayed {calls} calls\n")
}

/// Whether a report is true: the first of its limits, its prices, its start, its replies and its
/// picture that is at fault.
fn judge<F: FromTable>(alloc: Global, report: &Report) -> Result<(), RunFault>
    ensures good { IfOk result (λ _. IsTrueReport report.now) }
    ensures fault { IfErr result (IsUntrue report.now) }
{
    let prices = report.prices.as_slice();
    let Setting { table, start } = validate(alloc, report.limits, prices, Some(&report.start))?;
    let tariff = Tariff::new(F::from_table(table));
    let picture = replay_report(alloc, report, &start, &tariff)?;
    drop(start);
    let Ok(rows) = picture.into_rows(alloc) else {
        return Err(RunFault::Memory);
    };
    if rows.equals(&report.picture) {
        Ok(())
    } else {
        Err(RunFault::WrongPicture)
    }
}

/// The picture at the end of a report's history, carried out again from the picture of its start at
/// its prices, or the first of its replies that is at fault. The report's own picture is not looked
/// at.
pub fn replay_report<F: PriceFn>(
    alloc: Global,
    report: &Report,
    start: &Picture,
    tariff: &Tariff<F>,
) -> Result<Picture, RunFault>
    requires prices { AnswersPrices (F.may_return tariff.now) report.now.prices }
    requires sound { IsSoundReport report.now start.now.limits }
    requires start { start.now.rows ≡ report.now.start }
    ensures book { IfOk result
        (IsBook (prices_of (F.may_return tariff.now)) start.now report.now.history) }
    ensures replayed { IfOk result (λ p. LeadsTo report.now start.now.limits p.rows) }
    ensures fault { IfErr result (IsUntrue report.now) }
{
    match replay(alloc, start, report.history.as_slice(), tariff) {
        Ok(picture) => Ok(picture),
        Err(ReplayFault::WrongReply(place)) => Err(RunFault::WrongReply(place)),
        Err(ReplayFault::Memory) => Err(RunFault::Memory),
    }
}
