//! Carries out the rows of tables: each row has a command, what it reads and what it is to print.
//!
//! The words on standard input name the tables, which lie beside the scripts, reports and pictures
//! that they speak of. A line is printed for each table, and one for each row that prints something
//! else.
#![tactic(auto)]

use anyhow::Result;
use std::io;
use std::rt::Files;
use std::sync::Wait;
use std::thread::Threads;

mod commands;
mod rows;
mod texts;

use rows::judge_table;

/// Each table that standard input names.
fn run<R: Input + Print + Files + AllocGlobal + Threads + Wait + Sync>(rt: &R) -> Result<()> {
    let names = io::read_to_string(rt.alloc(), rt.reader())?;
    for name in names.split_whitespace() {
        judge_table(rt, name)?;
    }
    Ok(())
}

fn main(rt: HostRuntime) -> Result<()> {
    run(&rt)
}
