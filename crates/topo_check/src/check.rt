//! The command `check`.

ghost use Rattle.std.specs.Prelude.{◌≡◌, ◌≤◌, ◌+◌, ℕ, List, IfOk, IfErr, string_bytes};
ghost use Rattle.topo_check.specs.Checks.{CheckFailsBy, IsChecked};
ghost use Rattle.topo_check.specs.Checks.{IsSizeOfBytes, IsUnlawful, size_line};
ghost use Rattle.topo_script.specs.Reads.{Gives};
ghost use Rattle.topo_script.specs.RowForms.{rows_of};
ghost use Rattle.topo_io.specs.Reading.{most_calls};

use std::alloc::{AllocError, Global};
use std::io::{Read, Write};
use topo_core::rows::Rows;
use topo_io::reading::{CountedReader, read_bytes};
use topo_io::writing::write_text;
use topo_io::{RunFault, greatest_limits};
use topo_picture::{Counts, Picture};
use topo_script::row_forms::MAX_PICTURE_BYTES;
use topo_script::{ScriptFault, read_rows};

/// Reads a picture, and writes how large it is where it is a lawful one under the greatest limits.
/// The reader is read until its end, or until it has given one byte more than a picture may have:
/// in at most twice as many calls as a picture may have bytes, and two; an interrupted call is one
/// of them. ReadFault comes where a call fails otherwise or there are too few of them, WriteFault
/// where a call of the writer fails.
pub fn check_io<R: Read, W: Write>(
    alloc: Global,
    reader: &mut CountedReader<R>,
    writer: &mut W,
) -> Result<(), RunFault>
    ensures done { IfOk result (λ _. IsChecked reader.old.left reader.new.left
        (W.contents writer.old) (W.contents writer.new)) }
    ensures fault { IfErr result (λ fault. CheckFailsBy fault reader.old reader.new
        (W.contents writer.old) (W.contents writer.new)) }
    ensures calls { reader.new.calls ≤ reader.old.calls + most_calls 268435456 }
{
    let bytes = read_bytes(alloc, MAX_PICTURE_BYTES as u32, reader)?;
    let read = read_rows(alloc, bytes.as_slice());
    // The text of a picture is larger than the picture.
    drop(bytes);
    let line = line_of_read(alloc, read)?;
    write_text(writer, line.as_str())
}

/// The line that says how large the picture is that bytes spell, where it is a lawful one under the
/// greatest limits, or the first fault.
pub fn check_bytes(alloc: Global, bytes: &[u8]) -> Result<String, RunFault>
    ensures line { IfOk result (λ line. IsSizeOfBytes bytes.now (string_bytes line)) }
    ensures fault { IfErr result (IsUnlawful bytes.now) }
{
    line_of_read(alloc, read_rows(alloc, bytes))
}

/// The line of the verdict on what was read of the rows' bytes.
fn line_of_read(alloc: Global, read: Result<Rows, ScriptFault>) -> Result<String, RunFault>
    ensures line { (bytes : List ℕ) → Gives read (rows_of bytes)
        → IfOk result (λ line. IsSizeOfBytes bytes (string_bytes line)) }
    ensures fault { (bytes : List ℕ) → Gives read (rows_of bytes)
        → IfErr result (IsUnlawful bytes) }
{
    let rows = match read {
        Ok(rows) => rows,
        Err(fault) => return Err(RunFault::Script(fault)),
    };
    let counts = Picture::counts_of(alloc, greatest_limits(), &rows);
    drop(rows);
    let counts = match counts {
        Ok(counts) => counts,
        Err(fault) => return Err(RunFault::Load(fault)),
    };
    match size_line(alloc, &counts) {
        Ok(line) => Ok(line),
        Err(_) => Err(RunFault::Memory),
    }
}

/// The line that says how large a picture is, with its line feed.
fn size_line(alloc: Global, counts: &Counts) -> Result<String, AllocError>
    ensures { IfOk result (λ line. string_bytes line ≡ size_line counts.now) }
{
    let Counts {
        vertices,
        crossings,
        edges,
        segments,
        faces,
    } = *counts;
    format!(in alloc;
        "lawful vertices={vertices} crossings={crossings} edges={edges} segments={segments} \
         faces={faces}\n"
    )
}
