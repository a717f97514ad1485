//! The bytes that a field of a row means: a file's or its own, and a text with parts of it changed.

use anyhow::{Context, Result, bail};
use std::alloc::Global;
use std::fs;
use std::rt::Files;

/// The bytes of the file that a field names, or those of the field and a line feed.
pub(crate) fn bytes_of<R: Files + AllocGlobal>(rt: &R, field: &str) -> Result<Vec<u8>> {
    if field.ends_with(".json") || field.ends_with(".lines") {
        return fs::read(rt, field).context("a file of the tables");
    }
    let mut line = String::from_str(rt.alloc(), field)?;
    line.push_str("\n")?;
    Ok(line.into_bytes())
}

/// A text with each second of some parts in place of the one before it, where that occurs first.
pub(crate) fn changed(alloc: Global, bytes: Vec<u8>, changes: &[&str]) -> Result<Vec<u8>> {
    if changes.is_empty() {
        return Ok(bytes);
    }
    let mut text = String::from_utf8(bytes).ok().context("a text")?;
    for change in changes.chunks(2) {
        text = replaced(alloc, text.as_str(), change)?;
    }
    Ok(text.into_bytes())
}

/// A text with the second part in place of the first.
fn replaced(alloc: Global, text: &str, change: &[&str]) -> Result<String> {
    let [old, new] = change else {
        bail!("a change without its second part");
    };
    let (before, after) = text.split_once(*old).context("the part to change")?;
    Ok(format!(in alloc; "{before}{new}{after}")?)
}
