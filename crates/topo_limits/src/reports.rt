//! Long reports that are replayed, a large picture that is checked, and long texts that are written
//! to writers that take little or hold much.

use crate::starts::Spiral;
use crate::streams::{HoldingWriter, SlowWriter};
use crate::texts::{Flaw, judgement, pairs_report, pairs_script};
use anyhow::Result;
use std::alloc::{AllocError, Global};
use std::rt::Clock;
use std::sync::Wait;
use std::thread::Threads;
use topo_check::{check_io, replay_io};
use topo_cli::perform;
use topo_io::RunFault;
use topo_io::reading::CountedReader;
use topo_run::{OpenGate, run_io};
use topo_script::picture_text;

/// What a command has written, or its fault.
fn printed(
    alloc: Global,
    ended: Result<(), RunFault>,
    written: &[u8],
) -> Result<String, AllocError> {
    match ended {
        Ok(()) => {
            let text = String::from_utf8_lossy(alloc, written)?;
            format!(in alloc; "{}", text.trim_end())
        }
        Err(fault) => format!(in alloc; "{fault}"),
    }
}

/// What `replay_io` writes of a report, or its fault.
fn replayed(alloc: Global, report: &str) -> Result<String, AllocError> {
    let mut written: Vec<u8> = Vec::new(alloc);
    let ended = replay_io(
        alloc,
        &mut CountedReader::new(report.as_bytes()),
        &mut written,
    );
    let told = printed(alloc, ended, written.as_slice());
    drop(written);
    told
}

/// Reports of 70,000 calls: one that is true, two with a false reply, at entry 60,000 and at the
/// last insertion, and one with a false picture.
fn tell_replays<R: Print + AllocGlobal>(rt: &R) -> Result<()> {
    for flaw in [
        Flaw::Nothing,
        Flaw::Price(30_001),
        Flaw::Price(35_000),
        Flaw::Picture,
    ] {
        let report = pairs_report(rt.alloc(), 35_000, flaw)?;
        let told = replayed(rt.alloc(), report.as_str());
        drop(report);
        println!(rt; "report of 70000 calls: {}", told?)?;
    }
    Ok(())
}

/// What `check_io` writes of a picture, or its fault.
fn checked(alloc: Global, picture: &str) -> Result<String, AllocError> {
    let mut written: Vec<u8> = Vec::new(alloc);
    let ended = check_io(
        alloc,
        &mut CountedReader::new(picture.as_bytes()),
        &mut written,
    );
    let told = printed(alloc, ended, written.as_slice());
    drop(written);
    told
}

/// A picture with all crossings that there may be, as a text.
fn tell_check<R: Print + AllocGlobal>(rt: &R) -> Result<()> {
    let rows = Spiral::new(4_096, 256).rows(rt.alloc())?;
    let text = picture_text(rt.alloc(), &rows);
    drop(rows);
    let text = text?;
    let told = checked(rt.alloc(), text.as_str());
    drop(text);
    println!(rt; "picture of 1048576 crossings: {}", told?)?;
    Ok(())
}

/// A report whose entry 100,000 has a reply that crosses a million segments and one more, and there
/// names no edge.
fn deep_fault(alloc: Global) -> Result<String, AllocError> {
    let mut text = String::new(alloc);
    text.push_str("{\"history\":[")?;
    for _ in 0..100_000 {
        text.push_str("{\"call\":[\"delete\",0],\"caller\":0,\"reply\":{\"deleted\":0}},")?;
    }
    text.push_str("{\"call\":[\"insert\",0,1,0],\"caller\":0,\"reply\":{\"crossed\":[")?;
    for _ in 0..1_000_000 {
        text.push_str("[0,0,\"back\"],")?;
    }
    text.push_str("[0,-1,\"back\"]],\"edge\":0,\"end\":0,\"price\":0,\"start\":0}}],")?;
    text.push_str("\"limits\":{\"crossings\":0,\"edges\":1,\"vertices\":2},\"picture\":{},")?;
    text.push_str("\"prices\":[],\"start\":{},\"version\":1}")?;
    Ok(text)
}

/// What the program tells of a report on standard error, and whether it was told whole.
fn complaint<R: Threads + Wait + Clock + Sync>(
    rt: &R,
    alloc: Global,
    report: &str,
) -> Result<String> {
    let mut out: Vec<u8> = Vec::new(alloc);
    let mut err: Vec<u8> = Vec::new(alloc);
    let words = ["planar", "replay"];
    let outcome = perform(
        rt,
        alloc,
        &words,
        &mut CountedReader::new(report.as_bytes()),
        &mut out,
        &mut err,
    );
    let text = String::from_utf8_lossy(alloc, err.as_slice())?;
    let told = format!(in alloc;
        "{} and {} bytes, status {}, told whole: {}: {}",
        out.len(),
        err.len(),
        outcome.status,
        outcome.is_told,
        text.trim_end()
    );
    drop(out);
    drop(err);
    Ok(told?)
}

/// A fault with a long line.
fn tell_complaint<R: Print + AllocGlobal + Threads + Wait + Clock + Sync>(rt: &R) -> Result<()> {
    let report = deep_fault(rt.alloc())?;
    let told = complaint(rt, rt.alloc(), report.as_str());
    drop(report);
    println!(rt; "a long fault: {}", told?)?;
    Ok(())
}

/// Whether a slow writer is given what is due by a run of a script.
fn slowly<R: Threads + Wait + Clock + Sync>(
    rt: &R,
    alloc: Global,
    script: &str,
    due: &str,
) -> Result<String> {
    let mut writer = SlowWriter::new(alloc);
    let mut reader = CountedReader::new(script.as_bytes());
    let ended = run_io(rt, alloc, &mut reader, &mut writer, &OpenGate);
    let told = match ended {
        Ok(()) => judgement(alloc, writer.kept.as_slice(), due.as_bytes()),
        Err(fault) => format!(in alloc; "{fault}"),
    };
    let calls = writer.calls;
    drop(writer);
    Ok(format!(in alloc; "{calls} calls of a slow writer: {}", told?)?)
}

/// Whether a writer that passes on where it is flushed has passed on what is due.
fn held<R: Threads + Wait + Clock + Sync>(
    rt: &R,
    alloc: Global,
    script: &str,
    due: &str,
) -> Result<String> {
    let mut writer = HoldingWriter::new(alloc);
    let mut reader = CountedReader::new(script.as_bytes());
    let ended = run_io(rt, alloc, &mut reader, &mut writer, &OpenGate);
    let told = match ended {
        Ok(()) => judgement(alloc, writer.passed.as_slice(), due.as_bytes()),
        Err(fault) => format!(in alloc; "{fault}"),
    };
    drop(writer);
    Ok(format!(in alloc; "{} bytes, passed on at the end: {}", due.len(), told?)?)
}

/// The report of a script of so many pairs, and a line feed.
fn report_line(alloc: Global, pairs: u32) -> Result<String, AllocError> {
    let mut text = pairs_report(alloc, pairs, Flaw::Nothing)?;
    text.push_str("\n")?;
    Ok(text)
}

/// What becomes of the report of so many pairs, at a writer that is slow or holds it.
fn written<R: Threads + Wait + Clock + Sync>(
    rt: &R,
    alloc: Global,
    pairs: u32,
    is_slow: bool,
) -> Result<String> {
    let script = pairs_script(alloc, pairs)?;
    let due = report_line(alloc, pairs)?;
    let told = if is_slow {
        slowly(rt, alloc, script.as_str(), due.as_str())
    } else {
        held(rt, alloc, script.as_str(), due.as_str())
    };
    drop(script);
    drop(due);
    told
}

/// A line for each report. The last script has nearly as many bytes as one may have.
pub(crate) fn tell_reports<R: Print + AllocGlobal + Threads + Wait + Clock + Sync>(
    rt: &R,
) -> Result<()> {
    tell_replays(rt)?;
    tell_check(rt)?;
    tell_complaint(rt)?;
    for (pairs, is_slow) in [(2_000, true), (2_000, false), (29_000, false)] {
        let told = written(rt, rt.alloc(), pairs, is_slow)?;
        println!(rt; "report of {pairs} pairs: {told}")?;
    }
    Ok(())
}
