//! Readers and writers that fail, and one that has no end.

use std::alloc::Global;
use std::io;
use std::io::{ErrorKind, Read, Write};

/// Gives its bytes one at a time, each after an interrupted call, and then its end, or a failure.
#[derive(Drop)]
pub(crate) struct SlowReader<'a> {
    bytes: &'a [u8],
    fails: bool,
    was_interrupted: bool,
    pub(crate) calls: u64,
}

impl<'a> SlowReader<'a> {
    /// A reader of these bytes.
    pub(crate) fn new(bytes: &'a [u8]) -> Self {
        SlowReader {
            bytes,
            fails: false,
            was_interrupted: false,
            calls: 0,
        }
    }

    /// A reader that fails after these bytes.
    pub(crate) fn broken(bytes: &'a [u8]) -> Self {
        SlowReader {
            bytes,
            fails: true,
            was_interrupted: false,
            calls: 0,
        }
    }
}

impl Read for SlowReader<'_> {
    fn read(&mut self, buf: &mut [u8]) -> io::Result<usize> {
        self.calls = self.calls.saturating_add(1);
        if !self.was_interrupted {
            self.was_interrupted = true;
            return Err(io::Error::from(ErrorKind::Interrupted));
        }
        self.was_interrupted = false;
        if self.fails && self.bytes.is_empty() {
            return Err(io::Error::from(ErrorKind::BrokenPipe));
        }
        let room = buf.len().min(1);
        self.bytes.read(&mut buf[..room])
    }
}

/// Lends a reader, so that a test can ask it afterwards.
#[derive(Drop)]
pub(crate) struct LentReader<'a, R: Read> {
    pub(crate) reader: &'a mut R,
}

impl<R: Read> Read for LentReader<'_, R> {
    fn read(&mut self, buf: &mut [u8]) -> io::Result<usize> {
        self.reader.read(buf)
    }
}

/// A reader that is interrupted at each call, and counts them.
#[derive(Drop)]
pub(crate) struct NeverReader {
    pub(crate) calls: u64,
}

impl Read for NeverReader {
    fn read(&mut self, _buf: &mut [u8]) -> io::Result<usize> {
        self.calls = self.calls.saturating_add(1);
        Err(io::Error::from(ErrorKind::Interrupted))
    }
}

/// A reader that gives spaces without an end, as many as there is room for, and counts them.
#[derive(Drop)]
pub(crate) struct EndlessReader {
    pub(crate) given: usize,
}

impl Read for EndlessReader {
    fn read(&mut self, buf: &mut [u8]) -> io::Result<usize> {
        buf.fill(b' ');
        self.given = self.given.saturating_add(buf.len());
        Ok(buf.len())
    }
}

/// A writer that keeps so many bytes, and then fails.
#[derive(Drop)]
pub(crate) struct FailingWriter {
    room: usize,
    pub(crate) kept: Vec<u8>,
}

impl FailingWriter {
    /// A writer with room for so many bytes.
    pub(crate) fn new(alloc: Global, room: usize) -> Self {
        FailingWriter {
            room,
            kept: Vec::new(alloc),
        }
    }
}

impl Write for FailingWriter {
    fn write(&mut self, buf: &[u8]) -> io::Result<usize> {
        let n = buf.len().min(self.room);
        if n == 0 {
            return Err(io::Error::from(ErrorKind::BrokenPipe));
        }
        self.kept.extend_from_slice(&buf[..n])?;
        self.room -= n;
        Ok(n)
    }

    fn flush(&mut self) -> io::Result<()> {
        Ok(())
    }
}

/// Gives its bytes one at a time, and fails at a turn, counted from 0.
#[derive(Drop)]
pub(crate) struct BreakingReader<'a> {
    bytes: &'a [u8],
    turns: usize,
}

impl<'a> BreakingReader<'a> {
    /// A reader that answers so many calls, and fails at the next.
    pub(crate) fn new(bytes: &'a [u8], turns: usize) -> Self {
        BreakingReader { bytes, turns }
    }
}

impl Read for BreakingReader<'_> {
    fn read(&mut self, buf: &mut [u8]) -> io::Result<usize> {
        if self.turns == 0 {
            return Err(io::Error::from(ErrorKind::BrokenPipe));
        }
        self.turns -= 1;
        let room = buf.len().min(1);
        self.bytes.read(&mut buf[..room])
    }
}

/// A writer that takes nothing, and never fails.
#[derive(Drop)]
pub(crate) struct FullWriter;

impl Write for FullWriter {
    fn write(&mut self, _buf: &[u8]) -> io::Result<usize> {
        Ok(0)
    }

    fn flush(&mut self) -> io::Result<()> {
        Ok(())
    }
}

/// Takes one byte a turn, each after so many interrupted calls, and keeps what it was given; what
/// it passed on is what it held when it was last flushed.
#[derive(Drop)]
pub(crate) struct SlowWriter {
    interruptions: u32,
    interrupted: u32,
    fails_to_flush: bool,
    pub(crate) kept: Vec<u8>,
    pub(crate) passed_on: usize,
}

impl SlowWriter {
    /// A writer that holds nothing, and is interrupted so many times before each byte.
    pub(crate) fn new(alloc: Global, interruptions: u32) -> Self {
        SlowWriter {
            interruptions,
            interrupted: 0,
            fails_to_flush: false,
            kept: Vec::new(alloc),
            passed_on: 0,
        }
    }

    /// A writer that cannot pass on what it holds.
    pub(crate) fn stuck(alloc: Global) -> Self {
        SlowWriter {
            interruptions: 1,
            interrupted: 0,
            fails_to_flush: true,
            kept: Vec::new(alloc),
            passed_on: 0,
        }
    }
}

impl Write for SlowWriter {
    fn write(&mut self, buf: &[u8]) -> io::Result<usize> {
        if self.interrupted < self.interruptions {
            self.interrupted += 1;
            return Err(io::Error::from(ErrorKind::Interrupted));
        }
        self.interrupted = 0;
        match buf.first() {
            Some(byte) => {
                self.kept.push(*byte)?;
                Ok(1)
            }
            None => Ok(0),
        }
    }

    fn flush(&mut self) -> io::Result<()> {
        if self.fails_to_flush {
            return Err(io::Error::from(ErrorKind::BrokenPipe));
        }
        self.passed_on = self.kept.len();
        Ok(())
    }
}

/// Takes all that it is given, counts the calls, and is interrupted where it is to pass it on.
#[derive(Drop)]
pub(crate) struct InterruptedWriter {
    pub(crate) calls: u64,
}

impl Write for InterruptedWriter {
    fn write(&mut self, buf: &[u8]) -> io::Result<usize> {
        self.calls = self.calls.saturating_add(1);
        Ok(buf.len())
    }

    fn flush(&mut self) -> io::Result<()> {
        Err(io::Error::from(ErrorKind::Interrupted))
    }
}

/// A reader and writer whose calls all fail in this way, and are counted. After a thousand it
/// breaks, so that whoever asks again comes to an end.
#[derive(Drop)]
pub(crate) struct FailingStream {
    kind: ErrorKind,
    pub(crate) calls: u64,
}

impl FailingStream {
    /// A stream that was not asked yet.
    pub(crate) fn new(kind: ErrorKind) -> Self {
        FailingStream { kind, calls: 0 }
    }

    fn fail(&mut self) -> io::Error {
        self.calls = self.calls.saturating_add(1);
        let is_last = self.calls > 1_000;
        io::Error::from(if is_last {
            ErrorKind::BrokenPipe
        } else {
            self.kind
        })
    }
}

impl Read for FailingStream {
    fn read(&mut self, _buf: &mut [u8]) -> io::Result<usize> {
        Err(self.fail())
    }
}

impl Write for FailingStream {
    fn write(&mut self, _buf: &[u8]) -> io::Result<usize> {
        Err(self.fail())
    }

    fn flush(&mut self) -> io::Result<()> {
        Ok(())
    }
}
