//! In how many calls of a reader the commands read a large text: a reader that gives what there is
//! room for is asked for some kilobytes at a time.

use crate::commands::{COMMANDS, feeds, padded, writes};
use std::alloc::Global;
use std::io;
use std::io::Read;
use std::process::Abort;
use std::test::Fail;
use topo_serve::serve_io;

/// So many bytes the texts have with the spaces behind them.
const LENGTH: usize = 1_000_000;

/// So many lines ask for the counts of a picture.
const LINES: usize = 5_000;

/// Gives as many bytes as there is room for, and counts its calls.
#[derive(Drop)]
struct CountingReader<'a> {
    bytes: &'a [u8],
    calls: usize,
}

impl<'a> CountingReader<'a> {
    fn new(bytes: &'a [u8]) -> Self {
        CountingReader { bytes, calls: 0 }
    }
}

impl Read for CountingReader<'_> {
    fn read(&mut self, buf: &mut [u8]) -> io::Result<usize> {
        self.calls = self.calls.saturating_add(1);
        self.bytes.read(buf)
    }
}

/// All was read, in few calls: at least four kilobytes in each, and one or two for the end.
fn is_read_in_few(rt: &impl Abort, reader: &CountingReader, len: usize) {
    assert!(rt; reader.bytes.is_empty());
    let most = (len / 4_096).saturating_add(2);
    assert!(rt;
        reader.calls <= most,
        "{} calls for {len} bytes",
        reader.calls
    );
}

#[test]
fn large_texts_are_read_in_few_calls(rt: HostRuntime) -> Result<(), Fail> {
    for (verb, read, due) in COMMANDS {
        let text = padded(rt.alloc(), read, LENGTH)?;
        let mut reader = CountingReader::new(text.as_slice());
        writes(&rt, *verb, &mut reader, Ok(()), *due);
        is_read_in_few(&rt, &reader, LENGTH);
        drop(text);
    }
    Ok(())
}

/// The lines of a session.
fn session(alloc: Global) -> Result<String, Fail> {
    let mut text = String::new(alloc);
    text.push_str("{\"version\":1}\n")?;
    for _ in 0..LINES {
        text.push_str("\"counts\"\n")?;
    }
    Ok(text)
}

#[test]
fn many_lines_are_read_in_few_calls(rt: HostRuntime) -> Result<(), Fail> {
    let text = session(rt.alloc())?;
    let mut reader = CountingReader::new(text.as_bytes());
    let mut written: Vec<u8> = Vec::new(rt.alloc());
    assert!(rt; serve_io(rt.alloc(), &mut reader, &mut written) == Ok(()));
    assert_eq!(rt; feeds(written.as_slice()), 5_001);
    is_read_in_few(&rt, &reader, text.len());
    Ok(())
}
