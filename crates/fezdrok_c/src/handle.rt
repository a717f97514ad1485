//! A session with the text and the list of its last answers.

ghost use Rattle.fezdrok_c.specs.Sessions.{IsAnswered, IsBegun, LiesAt, TellsFault};

use crate::given::Item;
use std::alloc::Global;
use topo_io::{FromTable, RunFault};
use topo_price::tariff::PriceFn;
use topo_session::texts::fault_text;
use topo_session::{Session, answer, answer_first};

/// The status of an answer, also of one that tells a fault of its line.
pub(crate) const DONE: u8 = 0;

/// The status of a first line that is at fault.
const FAULT: u8 = 1;

/// The status of out of memory.
pub(crate) const NO_MEMORY: u8 = 3;

/// Where a text lies, and how many bytes it has.
#[repr(C)]
#[derive(Drop)]
pub struct Text {
    pub at: *const u8,
    pub length: usize,
}

/// A session, where one is open, with the text of its last answer to a line, and the list of its last
/// typed call.
pub struct Handle<F: PriceFn> {
    pub(crate) heap: Global,
    pub(crate) session: Option<Session<F>>,
    text: Vec<u8>,
    pub(crate) list: Vec<Item>,
}

// Written out, so that it is proved once: a derived one is proved anew in each function that lets
// such a value go.
impl<F: PriceFn + Drop> Drop for Handle<F> {
    fn drop(self) {
        let Handle {
            heap: _,
            session,
            text,
            list,
        } = self;
        drop(session);
        drop(text);
        drop(list);
    }
}

/// Says where a text lies.
pub(crate) fn place(told: &Vec<u8>, text: &mut Text)
    ensures { LiesAt told.now text.new }
{
    text.at = told.as_ptr();
    text.length = told.len();
}

/// The status and the text of a fault, where there is memory for it.
pub(crate) fn tell(heap: Global, fault: RunFault) -> (u8, Vec<u8>)
    ensures { TellsFault fault result.0 result.1.items }
{
    if let RunFault::Memory = fault {
        return (NO_MEMORY, Vec::new(heap));
    }
    match fault_text(heap, fault) {
        Ok(text) => (FAULT, text.into_bytes()),
        Err(_) => (NO_MEMORY, Vec::new(heap)),
    }
}

/// Begins a session by its first line. Where that is at fault, none is open, and the text is that of
/// the fault.
pub fn begin<F: FromTable>(
    heap: Global,
    settings: &[u8],
    text: &mut Text,
    status: &mut u8,
) -> Handle<F>
    ensures { IsBegun settings.now result text.new status.new }
{
    let mut session = None;
    let handle = match answer_first(heap, &mut session, settings) {
        Ok(told) => {
            *status = DONE;
            Handle {
                heap,
                session,
                text: told.into_bytes(),
                list: Vec::new(heap),
            }
        }
        Err(fault) => {
            drop(session);
            let (now, told) = tell(heap, fault);
            *status = now;
            Handle {
                heap,
                session: None,
                text: told,
                list: Vec::new(heap),
            }
        }
    };
    place(&handle.text, text);
    handle
}

/// Answers a line. Out of memory there is no text.
pub fn respond<F: FromTable>(handle: &mut Handle<F>, line: &[u8], text: &mut Text) -> u8
    ensures { IsAnswered handle.old line.now result handle.new text.new }
{
    let status = match answer(handle.heap, &mut handle.session, line) {
        Ok(told) => {
            handle.text = told.into_bytes();
            DONE
        }
        Err(_) => {
            handle.text.clear();
            NO_MEMORY
        }
    };
    place(&handle.text, text);
    status
}

/// Lets a session go.
pub fn shut<F: FromTable>(handle: Handle<F>) {
    drop(handle);
}

/// What may go to another thread.
fn is_sent<T: Send>() {}

/// A session may go to another thread between two calls. This does nothing: that it is accepted is
/// the proof.
pub fn goes_to_threads<F: PriceFn + Send + Sync>() {
    is_sent::<Handle<F>>();
}
