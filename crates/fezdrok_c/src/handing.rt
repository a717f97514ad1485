//! A text goes to a buffer of the caller's.

ghost use Rattle.std.specs.Prelude.{◌⊎◌, IfErr, IfOk, string_bytes};
ghost use Rattle.fezdrok_c.specs.Handing.{EndsBy, HandsOut};

use std::alloc::Global;
use topo_io::RunFault;

/// The status of a judgement without a fault.
const DONE: u8 = 0;

/// The status where the text does not fit into the buffer.
const TOO_SMALL: u8 = 4;

/// The status of out of memory, and what is said of it.
const OUT_OF_MEMORY: u8 = 3;

const NO_MEMORY: &[u8] = b"planar: 8 Memory\n";

/// Hands out the line of a judgement, or that of its fault.
pub(crate) fn hand_out(
    alloc: Global,
    judged: Result<String, RunFault>,
    output: &mut [u8],
    size: &mut usize,
) -> u8
    ensures line { IfOk judged
        (λ line. HandsOut 0 (string_bytes line) result output.old output.new size.new) }
    ensures fault { IfErr judged (λ fault. EndsBy fault result output.old output.new size.new) }
{
    match judged {
        Ok(line) => put(DONE, line.as_bytes(), output, size),
        Err(fault) => put_fault(alloc, &fault, output, size),
    }
}

/// Hands out the line of a fault, or that of out of memory where there is none to write it.
fn put_fault(alloc: Global, fault: &RunFault, output: &mut [u8], size: &mut usize) -> u8
    ensures { EndsBy fault.now result output.old output.new size.new }
{
    match format!(in alloc; "planar: {fault}\n") {
        Ok(line) => put(fault.status(), line.as_bytes(), output, size),
        Err(_) => put(OUT_OF_MEMORY, NO_MEMORY, output, size),
    }
}

/// Puts a text to the front of a buffer where it fits, and answers the status; else it answers that
/// the buffer is too small. Either way `size` is the text's length.
fn put(status: u8, text: &[u8], output: &mut [u8], size: &mut usize) -> u8
    ensures { HandsOut status text.now result output.old output.new size.new }
{
    *size = text.len();
    if text.len() > output.len() {
        return TOO_SMALL;
    }
    output[..text.len()].copy_from_slice(text);
    status
}
