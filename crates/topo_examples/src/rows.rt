//! Tables, their rows, and what became of them.
//!
//! A row is `COMMAND | READ | OLD | NEW | .. | WANTED`: the command reads a text, with each NEW in
//! place of the OLD before it, and is to print what is wanted. Where READ or WANTED ends in `.json`
//! or `.lines` it is the file of that name, and else the text of one line. `cut COMMAND` stands for
//! the command on each proper prefix of the line that is read.

use crate::commands::Verb;
use crate::texts::{bytes_of, changed};
use anyhow::{Context, Result};
use std::alloc::Global;
use std::rt::Files;
use std::sync::Wait;
use std::thread::Threads;

/// Whether a line of a table is a row: an empty one and a remark, which begins with `#`, are not.
fn is_row(line: &str) -> bool {
    !line.is_empty() && !line.starts_with('#')
}

/// Counts the rows of a table, and those that print what is wanted.
pub(crate) fn judge_table<R: Print + Files + AllocGlobal + Threads + Wait + Sync>(
    rt: &R,
    name: &str,
) -> Result<()> {
    let table = std::fs::read_to_string(rt, name).context("a table")?;
    let (mut rows, mut right) = (0u32, 0u32);
    for row in table.lines().filter(|line| is_row(line)) {
        rows = rows.saturating_add(1);
        if is_right(rt, row)? {
            right = right.saturating_add(1);
        }
    }
    println!(rt; "{name}: {right} of {rows} rows")?;
    Ok(())
}

/// Whether a row prints what is wanted. If not, it is printed with what it prints.
fn is_right<R: Print + Files + AllocGlobal + Threads + Wait + Sync>(
    rt: &R,
    row: &str,
) -> Result<bool> {
    let alloc = rt.alloc();
    let fields: Vec<&str> = row.split(" | ").collect(alloc)?;
    let [name, read, changes @ .., wanted] = fields.as_slice() else {
        println!(rt; "{row}: too short")?;
        return Ok(false);
    };
    let bytes = changed(alloc, bytes_of(rt, *read)?, changes)?;
    let due = bytes_of(rt, *wanted)?;
    match other(rt, alloc, *name, bytes.as_slice(), due.as_slice())? {
        None => Ok(true),
        Some(text) => {
            let got = String::from_utf8_lossy(alloc, text.as_slice())?;
            println!(rt; "{row}: {got}")?;
            Ok(false)
        }
    }
}

/// What a command prints on these bytes, or on the first of their prefixes, that is not what is
/// due.
fn other<R: Threads + Wait + Sync>(
    rt: &R,
    alloc: Global,
    name: &str,
    bytes: &[u8],
    due: &[u8],
) -> Result<Option<Vec<u8>>> {
    match name.strip_prefix("cut ") {
        None => other_than(rt, alloc, command(name)?, bytes, due),
        Some(whole) => {
            let command = command(whole)?;
            let line = bytes.strip_suffix(b"\n").unwrap_or(bytes);
            for end in 0..line.len() {
                if let Some(text) = other_than(rt, alloc, command, &line[..end], due)? {
                    return Ok(Some(text));
                }
            }
            Ok(None)
        }
    }
}

/// The command of this name.
fn command(name: &str) -> Result<Verb> {
    Verb::from_name(name).context("a command")
}

/// What a command prints on these bytes, if that is not what is due.
fn other_than<R: Threads + Wait + Sync>(
    rt: &R,
    alloc: Global,
    command: Verb,
    bytes: &[u8],
    due: &[u8],
) -> Result<Option<Vec<u8>>> {
    let text = command.printed(rt, alloc, bytes)?;
    if text.as_slice() == due {
        Ok(None)
    } else {
        Ok(Some(text))
    }
}
