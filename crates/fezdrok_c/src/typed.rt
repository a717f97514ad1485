//! Calls of a session by numbers, without a text.

ghost use Rattle.std.specs.Prelude.{◌≡◌, IfOk, OnErr};
ghost use Rattle.topo_session.specs.Standings.{Enters};
ghost use Rattle.fezdrok_c.specs.Typed.{Carries, Gives, GivesIn, GivesRoute, GivesUndone};
ghost use Rattle.fezdrok_c.specs.Typed.{IsTypedCall, Loses, LosesCall, LosesIn, TellsGiven};
ghost use Rattle.fezdrok_c.specs.Typed.{asked_of};

use crate::given::{
    Given, Item, counted, counts_given, edge_given, refuses, reply_given, undone_given,
    vertex_given,
};
use crate::handle::{DONE, Handle, NO_MEMORY};
use std::alloc::{AllocError, Global};
use topo_core::calls::{Call, Reply};
use topo_faults::Fault;
use topo_io::FromTable;
use topo_price::tariff::PriceFn;
use topo_session::Session;

/// The greatest number of a caller.
const LAST_CALLER: u32 = 15;

/// The number of a call, its caller, and the words that it takes.
#[repr(C)]
#[derive(Clone, Copy, Debug, PartialEq, Eq)]
pub struct Words {
    pub call: u32,
    pub caller: u32,
    pub a: u32,
    pub b: u32,
    pub c: u32,
}

/// What is told, and where the list lies.
#[repr(C)]
#[derive(Drop)]
pub struct Typed {
    pub list: *const Item,
    pub length: usize,
    pub price: u64,
    pub refusal: u32,
    pub first: u32,
    pub second: u32,
    pub third: u32,
    pub fourth: u32,
    pub fifth: u32,
}

/// A call of a session.
#[derive(Clone, Copy, Debug, PartialEq, Eq)]
pub enum Asked {
    Carry(Call),
    Route { u: u32, v: u32 },
    Undo(u32),
    Counts,
    Edge(u32),
    Vertex(u32),
    /// A number that names no call, or a caller above 15.
    Nothing,
}

/// The call with this number and these words.
pub(crate) fn asked_of(words: Words) -> Asked
    ensures { result ≡ asked_of words }
{
    let Words {
        call,
        caller,
        a,
        b,
        c,
    } = words;
    if caller > LAST_CALLER {
        return Asked::Nothing;
    }
    match call {
        0 => Asked::Carry(Call::Grow {
            u: a,
            position: b,
            kind: c,
        }),
        1 => Asked::Carry(Call::Insert {
            u: a,
            v: b,
            kind: c,
        }),
        2 => Asked::Carry(Call::Delete { edge: a }),
        3 => Asked::Route { u: a, v: b },
        4 => Asked::Undo(a),
        5 => Asked::Counts,
        6 => Asked::Edge(a),
        7 => Asked::Vertex(a),
        _ => Asked::Nothing,
    }
}

/// Makes a call, which is entered with its reply.
fn enter<F: PriceFn>(
    session: &mut Session<F>,
    heap: Global,
    caller: u32,
    call: Call,
) -> Result<Reply, AllocError>
    ensures entered { IfOk result (λ reply. Enters caller call reply session.old session.new) }
    ensures unchanged { OnErr result (session.new ≡ session.old) }
{
    match call {
        Call::Grow { u, position, kind } => session.grow(heap, caller, u, position, kind),
        Call::Insert { u, v, kind } => session.insert(heap, caller, u, v, kind),
        Call::Delete { edge } => session.delete(heap, caller, edge),
    }
}

/// Makes a call, and tells its reply.
fn carry<F: PriceFn>(
    session: &mut Session<F>,
    heap: Global,
    caller: u32,
    call: Call,
) -> Result<Given, AllocError>
    ensures given { IfOk result
        (λ given. Carries caller call given session.old session.new) }
    ensures lost { OnErr result (LosesCall caller call session.old session.new) }
{
    let reply = enter(session, heap, caller, call)?;
    reply_given(heap, reply)
}

/// Tells a route between two vertices.
fn route<F: PriceFn>(
    session: &mut Session<F>,
    heap: Global,
    u: u32,
    v: u32,
) -> Result<Given, AllocError>
    ensures given { IfOk result (λ given. GivesRoute u v given session.old) }
    ensures same { session.new ≡ session.old }
{
    let reply = session.route(heap, u, v)?;
    reply_given(heap, reply)
}

/// Takes entries back, and tells which ids come next.
fn undo<F: PriceFn + Drop>(
    session: &mut Session<F>,
    heap: Global,
    entries: u32,
) -> Result<Given, AllocError>
    ensures given { IfOk result (λ given. GivesUndone entries given session.old session.new) }
    ensures unchanged { OnErr result (session.new ≡ session.old) }
{
    let undone = session.undo(heap, entries)?;
    Ok(undone_given(heap, entries, undone))
}

/// Does what is asked of a session, and tells what came of it.
fn perform<F: PriceFn + Drop>(
    session: &mut Session<F>,
    heap: Global,
    caller: u32,
    asked: Asked,
) -> Result<Given, AllocError>
    ensures given { IfOk result (λ given. Gives caller asked given session.old session.new) }
    ensures lost { OnErr result (Loses caller asked session.old session.new) }
{
    match asked {
        Asked::Carry(call) => carry(session, heap, caller, call),
        Asked::Route { u, v } => route(session, heap, u, v),
        Asked::Undo(entries) => undo(session, heap, entries),
        Asked::Counts => Ok(counts_given(heap, session.counts())),
        Asked::Edge(edge) => edge_given(heap, session.edge(heap, edge)?),
        Asked::Vertex(vertex) => vertex_given(heap, session.vertex(heap, vertex)?),
        Asked::Nothing => Ok(refuses(heap, Fault::BadNumber, 0)),
    }
}

/// Performs a call where a session is open; else the answer tells that none is.
fn perform_in<F: PriceFn + Drop>(
    session: &mut Option<Session<F>>,
    heap: Global,
    caller: u32,
    asked: Asked,
) -> Result<Given, AllocError>
    ensures given { IfOk result (λ given. GivesIn caller asked given session.old session.new) }
    ensures lost { OnErr result (LosesIn caller asked session.old session.new) }
{
    match session {
        Some(session) => perform(session, heap, caller, asked),
        None => Ok(refuses(heap, Fault::NotOpen, 0)),
    }
}

/// Keeps a list, and says where it lies and which numbers go with it.
fn put(given: Given, list: &mut Vec<Item>, typed: &mut Typed)
    ensures { TellsGiven given list.new typed.new }
{
    let Given {
        refusal,
        first,
        second,
        third,
        fourth,
        fifth,
        price,
        list: items,
    } = given;
    *list = items.into_vec();
    typed.list = list.as_ptr();
    typed.length = list.len();
    typed.price = price;
    typed.refusal = refusal;
    typed.first = first;
    typed.second = second;
    typed.third = third;
    typed.fourth = fourth;
    typed.fifth = fifth;
}

/// Does what is asked by numbers. Out of memory nothing is told.
pub fn call_typed<F: FromTable>(handle: &mut Handle<F>, words: &Words, typed: &mut Typed) -> u8
    ensures { IsTypedCall handle.old words.now result handle.new typed.new }
{
    let heap = handle.heap;
    let asked = asked_of(*words);
    let (status, given) = match perform_in(&mut handle.session, heap, words.caller, asked) {
        Ok(given) => (DONE, given),
        Err(_) => (NO_MEMORY, counted(heap, (0, 0, 0, 0, 0))),
    };
    put(given, &mut handle.list, typed);
    status
}
