//! The judge of each call. A call that is out of memory has to leave everything as it was, and is
//! made once more. In a run where only one allocation fails, the second time has what it wants.

use anyhow::Result;
use std::alloc::{AllocError, Global};
use std::sync::Wait;
use std::thread::Threads;

/// What a call is given that takes memory, waits, starts threads and prints, and says what was out
/// of memory.
pub(crate) trait Runtime: Threads + Wait + Print + Eprint + AllocGlobal + Sync {}

impl<R: Threads + Wait + Print + Eprint + AllocGlobal + Sync> Runtime for R {}

/// Whether a call was made, or was out of memory.
pub(crate) type Done = Result<(), AllocError>;

/// What the calls that are made for the others are named.
pub(crate) const BOOKKEEPING: &str = "bookkeeping";

/// How long what is told of a call may be before it takes memory again.
const TOLD_BYTES: usize = 8000;

/// What calls are made on.
pub(crate) trait Case {
    /// Which call is made, and with what.
    type Row;

    /// What is seen now.
    fn look(&mut self, alloc: Global) -> Result<String, AllocError>;

    /// Makes a call. Its name is told first, and behind it what it answered. Where it is out of
    /// memory, its name alone is told.
    fn make<R: Runtime>(&mut self, rt: &R, row: &Self::Row, told: &mut String) -> Done;
}

/// Says on standard error which call was out of memory.
pub(crate) fn tell<R: Eprint>(rt: &R, call: &str) {
    let _ = eprintln!(rt; "out of memory: {call}");
}

/// Makes a call for the others, once more if it is out of memory.
pub(crate) fn twice<T, R: Runtime, C: FnMut(Global) -> Result<T, AllocError>>(
    rt: &R,
    mut call: C,
) -> Result<T, AllocError>
    requires { C.IsAlwaysCallable call }
{
    match call(rt.alloc()) {
        Ok(made) => Ok(made),
        Err(_) => {
            tell(rt, BOOKKEEPING);
            call(rt.alloc())
        }
    }
}

/// What was made for a call. Where that is out of memory, it is named in place of the call.
pub(crate) fn bookkept<T>(told: &mut String, made: Result<T, AllocError>) -> Result<T, AllocError> {
    match made {
        Ok(made) => Ok(made),
        Err(error) => {
            told.clear();
            told.push_str(BOOKKEEPING)?;
            Err(error)
        }
    }
}

/// What a call answered, where it is not the fault that says that memory was refused.
pub(crate) fn unless<T, E: PartialEq + Drop>(
    memory: E,
    answer: Result<T, E>,
) -> Result<Result<T, E>, AllocError> {
    match answer {
        Err(fault) if fault == memory => Err(AllocError),
        answer => Ok(answer),
    }
}

/// Room for what is told of a call.
pub(crate) fn room<R: Runtime>(rt: &R) -> Result<String, AllocError> {
    twice(rt, |alloc| String::with_capacity(alloc, TOLD_BYTES))
}

/// Judges a call that was out of memory, before it is made once more: if something is not as it was
/// before, a line that begins with `changed:` is printed.
pub(crate) fn refused<R: Runtime>(
    rt: &R,
    told: &mut String,
    before: &str,
    after: &str,
) -> Result<()> {
    tell(rt, told.as_str());
    if before != after {
        println!(rt; "changed: {told}: {before}\n  became {after}")?;
    }
    told.clear();
    Ok(())
}

/// Makes a call, once more if it is out of memory, and prints what it told.
fn judge<T: Case, R: Runtime>(rt: &R, case: &mut T, row: &T::Row, before: &str) -> Result<()> {
    let mut told = room(rt)?;
    if case.make(rt, row, &mut told).is_err() {
        let after = twice(rt, |alloc| case.look(alloc))?;
        refused(rt, &mut told, before, after.as_str())?;
        case.make(rt, row, &mut told)?;
    }
    Ok(println!(rt; "{told}")?)
}

/// Makes calls one after the other, a group of them on a line. What is seen is printed before them,
/// and after each that changed it.
pub(crate) fn judge_all<T: Case, R: Runtime>(
    rt: &R,
    case: &mut T,
    groups: &[&[T::Row]],
) -> Result<()> {
    let mut before = twice(rt, |alloc| case.look(alloc))?;
    println!(rt; "  {before}")?;
    for group in groups {
        for row in *group {
            judge(rt, case, row, before.as_str())?;
            let after = twice(rt, |alloc| case.look(alloc))?;
            if before.as_str() != after.as_str() {
                println!(rt; "  {after}")?;
            }
            before = after;
        }
    }
    Ok(())
}
