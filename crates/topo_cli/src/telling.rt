//! What goes to standard error.

ghost use Rattle.std.specs.Io.KnownBytes.{Appends};
ghost use Rattle.std.specs.Prelude.{◌++◌, ◌∷◌, [], IsFalse, IsTrue, codes};
ghost use Rattle.topo_io.specs.Statuses.{fault_line};
ghost use Rattle.topo_io.specs.Writing.{AppendsPart};

use std::fmt::{InlineText, Write};
use std::io;
use topo_io::RunFault;
use topo_io::writing::write_text;

/// The room for the line of a fault, in bytes. The longest has 191: `planar: 54 BadNumber $`, eight
/// indices of 20 digits, each behind a `/`, and the line feed.
const MAX_FAULT_LINE_BYTES: usize = 192;

/// Writes the line of a fault, and gives whether the writer took it and passed it on. The line is
/// laid out first, which takes no memory.
#[tactic(auto, using(crate::proofs::InlineTexts::holds_written))]
pub(crate) fn tell_fault<E: io::Write>(fault: &RunFault, err: &mut E) -> bool
    ensures whole { IsTrue result
        → Appends (E.contents err.old) (E.contents err.new) (fault_line fault.now) }
    ensures part { IsFalse result
        → AppendsPart (E.contents err.old) (E.contents err.new) (fault_line fault.now) }
{
    let mut line: InlineText<MAX_FAULT_LINE_BYTES> = InlineText::new();
    writeln!(line, "planar: {fault}").is_ok() && tell(line.as_str(), err)
}

/// Writes a text, and gives whether the writer took it and passed it on.
pub(crate) fn tell<E: io::Write>(text: &str, err: &mut E) -> bool
    ensures whole { IsTrue result → Appends (E.contents err.old) (E.contents err.new) text.now }
    ensures part { IsFalse result → AppendsPart (E.contents err.old) (E.contents err.new) text.now }
{
    write_text(err, text).is_ok()
}
