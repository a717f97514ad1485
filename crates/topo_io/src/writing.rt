//! Writing a text.

ghost use Rattle.std.specs.Prelude.{◌≡◌, ◌<◌, ◌≤◌, [], IfErr, IfOk, OnErr, OnOk, length, take};
ghost use Rattle.std.specs.Io.KnownBytes.{Appends, Keeps};
ghost use Rattle.topo_io.specs.Writing.{AppendsPart, IsOfWriting};

use crate::fault::RunFault;
use std::io::{ErrorKind, Write};

/// Writes all of a text, and lets the writer pass it on. WriteFault comes where a call of the
/// writer fails or `write` takes nothing; an interrupted `write` is tried again.
pub fn write_text<W: Write>(writer: &mut W, text: &str) -> Result<(), RunFault>
    ensures all { OnOk result (Appends (W.contents writer.old) (W.contents writer.new) text.now) }
    ensures part { OnErr result
        (AppendsPart (W.contents writer.old) (W.contents writer.new) text.now) }
    ensures err { IfErr result IsOfWriting }
{
    let mut rest = text.as_bytes();
    for _ in 0..u64::MAX {
        if rest.is_empty() {
            return pass_on(writer);
        }
        let taken = write_more(writer, rest)?;
        rest = &rest[taken..];
    }
    Err(RunFault::WriteFault)
}

/// Makes one call of `write`, and tells how many bytes it took. An interrupted call takes none.
fn write_more<W: Write>(writer: &mut W, bytes: &[u8]) -> Result<usize, RunFault>
    ensures within { IfOk result (λ n. n ≤ length bytes.now) }
    ensures taken { IfOk result
        (λ n. Appends (W.contents writer.old) (W.contents writer.new) (take n bytes.now)) }
    ensures kept { OnErr result (Appends (W.contents writer.old) (W.contents writer.new) []) }
    ensures err { IfErr result IsOfWriting }
{
    match writer.write(bytes) {
        Ok(0) => Err(RunFault::WriteFault),
        Ok(n) => Ok(n),
        Err(e) => if e.kind() == ErrorKind::Interrupted {
            Ok(0)
        } else {
            Err(RunFault::WriteFault)
        },
    }
}

/// Lets the writer pass on what it holds.
fn pass_on<W: Write>(writer: &mut W) -> Result<(), RunFault>
    ensures kept { Keeps (W.contents writer.old) (W.contents writer.new) }
    ensures err { IfErr result IsOfWriting }
{
    match writer.flush() {
        Ok(()) => Ok(()),
        Err(_) => Err(RunFault::WriteFault),
    }
}
