//! Readers that give little at a time, and writers that take little.

use std::alloc::Global;
use std::io;
use std::io::{ErrorKind, Read, Write};

/// Gives so many bytes at a time, and counts its calls.
#[derive(Drop)]
pub(crate) struct PieceReader<'a> {
    bytes: &'a [u8],
    piece: usize,
    pub(crate) calls: u64,
}

impl<'a> PieceReader<'a> {
    /// A reader of these bytes.
    pub(crate) fn new(bytes: &'a [u8], piece: usize) -> Self {
        PieceReader {
            bytes,
            piece,
            calls: 0,
        }
    }
}

impl Read for PieceReader<'_> {
    fn read(&mut self, buf: &mut [u8]) -> io::Result<usize> {
        self.calls = self.calls.saturating_add(1);
        let room = buf.len().min(self.piece);
        self.bytes.read(&mut buf[..room])
    }
}

/// Takes one byte a turn, each after an interrupted call, and counts its calls.
#[derive(Drop)]
pub(crate) struct SlowWriter {
    pub(crate) kept: Vec<u8>,
    was_interrupted: bool,
    pub(crate) calls: u64,
}

impl SlowWriter {
    /// A writer that was given nothing.
    pub(crate) fn new(alloc: Global) -> Self {
        SlowWriter {
            kept: Vec::new(alloc),
            was_interrupted: false,
            calls: 0,
        }
    }
}

impl Write for SlowWriter {
    fn write(&mut self, buf: &[u8]) -> io::Result<usize> {
        self.calls = self.calls.saturating_add(1);
        if !self.was_interrupted {
            self.was_interrupted = true;
            return Err(io::Error::from(ErrorKind::Interrupted));
        }
        self.was_interrupted = false;
        match buf.first() {
            Some(byte) => {
                self.kept.push(*byte)?;
                Ok(1)
            }
            None => Ok(0),
        }
    }

    fn flush(&mut self) -> io::Result<()> {
        Ok(())
    }
}

/// Holds all that it is given, and passes it on where it is flushed.
#[derive(Drop)]
pub(crate) struct HoldingWriter {
    held: Vec<u8>,
    pub(crate) passed: Vec<u8>,
}

impl HoldingWriter {
    /// A writer that was given nothing.
    pub(crate) fn new(alloc: Global) -> Self {
        HoldingWriter {
            held: Vec::new(alloc),
            passed: Vec::new(alloc),
        }
    }
}

impl Write for HoldingWriter {
    fn write(&mut self, buf: &[u8]) -> io::Result<usize> {
        self.held.extend_from_slice(buf)?;
        Ok(buf.len())
    }

    fn flush(&mut self) -> io::Result<()> {
        self.passed.extend_from_slice(self.held.as_slice())?;
        self.held.clear();
        Ok(())
    }
}
