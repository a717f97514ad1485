//! The commands `replay` and `check`, and sessions, for programs in C.
//!
//! A judgement goes from bytes to bytes, in memory of the caller's. A session lies in a block of the
//! caller's, which `fezdrok_begin` fills and `fezdrok_end` gives back. Programs call the functions of
//! `c/fezdrok.c`, which `c/fezdrok.h` declares: they make the blocks, and turn wrong use away before it
//! comes here. `run` is not among them: its lists run in threads, and a static library of this
//! toolchain starts none.
#![tactic(auto)]

mod given;
mod handing;
mod handle;
mod searching;
mod typed;

ghost use Rattle.std.specs.Prelude.{◌≡◌};
ghost use Rattle.fezdrok_c.specs.Blocks.{Held, answered, begun, block_size, is_held, is_room};
ghost use Rattle.fezdrok_c.specs.Blocks.{Sought, is_search, is_search_room, search_answered, search_begun};
ghost use Rattle.fezdrok_c.specs.Blocks.{search_size, typed_called};
ghost use Rattle.fezdrok_c.specs.Handing.{Judges};
ghost use Rattle.topo_check.specs.Checks.{IsSizeOfBytes, IsUnlawful};
ghost use Rattle.topo_check.specs.Replays.{TellsCalls, TellsUntrue};

use crate::handing::hand_out;
use crate::handle::{Handle, Text, begin, respond, shut};
use crate::searching::{Searching, answer_search, begin_search, shut_search};
use crate::typed::{Typed, Words, call_typed};
use std::alloc::Global;
use std::mem::size_of;
use std::ptr;
use topo_check::{check_bytes, replay_bytes};
use topo_price::table::PriceTable;

/// Judges the picture that the input spells. The text is the line that says how large it is, or the
/// line of the first fault, as the program prints them. Its length goes to `size`, and where it
/// fits, it goes to the front of the output. The result is 0 for a lawful picture, 1 for a fault, 3
/// for out of memory, and 4 where the text does not fit: then the output is as it was. A call with
/// `size` bytes of room has the text, unless this or that call is out of memory, whose text has 17
/// bytes.
#[unsafe(no_mangle)]
pub extern "C" fn fezdrok_check(
    alloc: Global,
    input: &[u8],
    output: &mut [u8],
    size: &mut usize,
) -> u8
    ensures { Judges (IsSizeOfBytes input.now)
        (IsUnlawful input.now) result output.old output.new size.new }
{
    hand_out(alloc, check_bytes(alloc, input), output, size)
}

/// Carries out the history of the report that the input spells again. The text is the line
/// `replayed N calls`, or the line of the first fault. Result, output and `size` are as those of
/// `fezdrok_check`.
#[unsafe(no_mangle)]
pub extern "C" fn fezdrok_replay(
    alloc: Global,
    input: &[u8],
    output: &mut [u8],
    size: &mut usize,
) -> u8
    ensures { Judges (TellsCalls input.now)
        (TellsUntrue input.now) result output.old output.new size.new }
{
    hand_out(alloc, replay_bytes(alloc, input), output, size)
}

/// How many bytes a session takes. A block for one is aligned to 16.
#[unsafe(no_mangle)]
pub extern "C" fn fezdrok_size() -> usize
    ensures { result ≡ block_size }
{
    size_of::<Handle<PriceTable>>()
}

/// Begins a session in a block, by its first line. It is to be ended, also where that line is at
/// fault: then it is not open. The status is 0 where the line is answered, 1 where it is at fault, and
/// 3 for out of memory. The text is that of the answer or of the fault, and lies in the session until
/// its next call.
#[unsafe(no_mangle)]
pub unsafe extern "C" fn fezdrok_begin(
    heap: Global,
    block: *mut u8,
    settings: &[u8],
    text: &mut Text,
    status: &mut u8,
)
    requires* { is_room 𝓛 block }
    ensures* { begun 𝓛 block settings.now text.new status.new }
{
    ptr::write(
        block as *mut Handle<PriceTable>,
        begin(heap, settings, text, status),
    );
}

/// Answers a line, without its line feed. The result is 0, also where the answer tells a fault of
/// the line, or 3 for out of memory. The text is that of the answer, and lies in the session until
/// its next call.
#[unsafe(no_mangle)]
pub unsafe extern "C" fn fezdrok_answer(block: *mut u8, line: &[u8], text: &mut Text) -> u8
    ghost held: { Held }
    requires* { is_held 𝓛 block held }
    ensures* { answered 𝓛 block held line.now result text.new }
{
    respond(
        unsafe { &mut *(block as *mut Handle<PriceTable>) },
        line,
        text,
    )
}

/// Makes the call of the number that the words have: 0 grow, 1 insert, 2 delete, 3 route, 4 undo,
/// 5 counts, 6 edge, 7 vertex, for their caller. The result is 0, also where the call is
/// refused, or 3 for out of memory. The list lies in the session until its next call.
#[unsafe(no_mangle)]
pub unsafe extern "C" fn fezdrok_typed(block: *mut u8, words: &Words, typed: &mut Typed) -> u8
    ghost held: { Held }
    requires* { is_held 𝓛 block held }
    ensures* { typed_called 𝓛 block held words.now result typed.new }
{
    call_typed(
        unsafe { &mut *(block as *mut Handle<PriceTable>) },
        words,
        typed,
    )
}

/// Ends a session. The block is the caller's again.
#[unsafe(no_mangle)]
pub unsafe extern "C" fn fezdrok_end(block: *mut u8)
    ghost held: { Held }
    requires* { is_held 𝓛 block held }
    ensures* { is_room 𝓛 block }
{
    shut(ptr::read(block as *mut Handle<PriceTable>));
}

/// How many bytes a search takes. A block for one is aligned to 16.
#[unsafe(no_mangle)]
pub extern "C" fn fezdrok_search_size() -> usize
    ensures { result ≡ search_size }
{
    size_of::<Searching<PriceTable>>()
}

/// Begins a search in a block, by the text of a graph. It is to be ended, also where that text is at
/// fault: then there is none. The status is 0, 1 where the text is at fault, and then the text is that
/// of the fault, and 3 for out of memory. The text lies in the search until its next call.
#[unsafe(no_mangle)]
pub unsafe extern "C" fn fezdrok_search_begin(
    heap: Global,
    block: *mut u8,
    graph: &[u8],
    text: &mut Text,
    status: &mut u8,
)
    requires* { is_search_room 𝓛 block }
    ensures* { search_begun 𝓛 block graph.now text.new status.new }
{
    ptr::write(
        block as *mut Searching<PriceTable>,
        begin_search(heap, graph, text, status),
    );
}

/// Answers `"step"`, `"hurry"` or `"end"` by how far the search is, and `"pictures"` by what it
/// found, after which there is none. The result is 0, or 3 for out of memory. The text lies in the
/// search until its next call.
#[unsafe(no_mangle)]
pub unsafe extern "C" fn fezdrok_search_answer(
    block: *mut u8,
    request: &[u8],
    text: &mut Text,
) -> u8
    ghost held: { Sought }
    requires* { is_search 𝓛 block held }
    ensures* { search_answered 𝓛 block held request.now result text.new }
{
    answer_search(
        unsafe { &mut *(block as *mut Searching<PriceTable>) },
        request,
        text,
    )
}

/// Ends a search. The block is the caller's again.
#[unsafe(no_mangle)]
pub unsafe extern "C" fn fezdrok_search_end(block: *mut u8)
    ghost held: { Sought }
    requires* { is_search 𝓛 block held }
    ensures* { is_search_room 𝓛 block }
{
    shut_search(ptr::read(block as *mut Searching<PriceTable>));
}
