//! Reading bytes up to a limit.

ghost use Rattle.std.specs.Prelude.{◌≡◌, ◌+◌, ◌≤◌, ◌<◌, ◌^◌, IfOk, IfErr, OnOk, IsTrue, length};
ghost use Rattle.std.specs.Prelude.{vec_len};
ghost use Rattle.std.specs.Io.KnownBytes.{IsAtEnd};
ghost use Rattle.topo_io.specs.Reading.{FailsCall, FailsReading, IsRead, ReadsMore};
ghost use Rattle.topo_io.specs.Reading.{after_calls, most_calls};

use crate::fault::RunFault;
use std::alloc::Global;
use std::io;
use std::io::{ErrorKind, Read};
use std::marker::Model;

/// The greatest number of bytes that one call of `read` is given room for.
const CHUNK_BYTES: usize = 8192;

/// A reader whose calls are counted. Whoever has it can reach the reader only by its `read`, so no
/// call is left out.
#[derive(Drop)]
pub struct CountedReader<R: Read> {
    reader: R,
    calls: u64,
    has_failed: bool,
}

impl<R: Read> Model for CountedReader<R> {
    ghost use Rattle.topo_io.specs.Reading.{ReaderState};

    ghost Value = { ReaderState };

    ghost view = { λ r. record {
      left = R.remaining r.reader;
      calls = r.calls;
      has_failed = r.has_failed;
    } };
}

impl<R: Read> CountedReader<R> {
    ghost use Rattle.std.specs.Prelude.{◌≡◌, false};

    /// Counts the calls of a reader from now on.
    pub fn new(reader: R) -> Self
        ensures left { result.left ≡ R.remaining reader }
        ensures calls { result.calls ≡ 0 }
        ensures unfailed { result.has_failed ≡ false }
    {
        CountedReader {
            reader,
            calls: 0,
            has_failed: false,
        }
    }

    /// How many calls of `read` there were, up to the greatest number.
    pub fn calls(&self) -> u64
        ensures { result ≡ self.now.calls }
    {
        self.calls
    }

    /// Whether one of them has failed. One that was interrupted has not.
    pub fn has_failed(&self) -> bool
        ensures { result ≡ self.now.has_failed }
    {
        self.has_failed
    }
}

impl<R: Read> Read for CountedReader<R> {
    ghost use Rattle.std.specs.Prelude.{◌≡◌, ◌≢◌, IfErr, IfOk, true};
    ghost use Rattle.std.specs.Io.{ReadsAtMost};
    ghost use Rattle.std.specs.IoError.{error_kind};
    ghost use Rattle.std.specs.Io.KnownBytes.{ReadConsumes};
    ghost use Rattle.topo_io.specs.Reading.{after_calls};

    ghost remaining = { λ r. r.left };

    fn read(&mut self, buf: &mut [u8]) -> io::Result<usize>
        ensures bound { ReadsAtMost result buf.new }
        ensures bytes { ReadConsumes self.old.left self.new.left result buf.new }
        ensures counted { self.new.calls ≡ after_calls self.old.calls 1 }
        ensures failed { IfErr result
            (λ e. error_kind e ≢ ErrorKind.Interrupted → self.new.has_failed ≡ true) }
        ensures interrupted { IfErr result
            (λ e. error_kind e ≡ ErrorKind.Interrupted → self.new.has_failed ≡ self.old.has_failed) }
        ensures given { IfOk result (λ _. self.new.has_failed ≡ self.old.has_failed) }
    {
        self.calls = self.calls.saturating_add(1);
        let given = self.reader.read(buf);
        if let Err(error) = &given {
            self.has_failed = self.has_failed || error.kind() != ErrorKind::Interrupted;
        }
        given
    }
}

/// Reads until the end, or until there is one byte more than the limit. There are at most twice as
/// many calls of `read` as the limit, and two; an interrupted call is one of them. ReadFault comes
/// where a call fails otherwise or there are too few of them, Memory where a growth of memory was
/// refused.
pub fn read_bytes<R: Read>(
    alloc: Global,
    limit: u32,
    reader: &mut CountedReader<R>,
) -> Result<Vec<u8>, RunFault>
    ensures read { IfOk result
        (λ bytes. IsRead limit reader.old.left reader.new.left bytes.items) }
    ensures calls { reader.new.calls ≤ reader.old.calls + most_calls limit }
    ensures err { IfErr result (FailsReading limit reader.old reader.new) }
{
    // For the proof: the count is a number of 64 bits.
    reader.calls();
    let most = limit as usize;
    let mut chunk = [0u8; CHUNK_BYTES];
    let mut bytes = Vec::new(alloc);
    for _ in 0..2 * most + 2 {
        if bytes.len() > most {
            return Ok(bytes);
        }
        if read_more(most, reader, &mut chunk, &mut bytes)? {
            return Ok(bytes);
        }
    }
    Err(RunFault::ReadFault)
}

/// Makes one call of `read` by way of `chunk`, and tells whether it found the end. An interrupted
/// call gives nothing.
fn read_more<R: Read>(
    limit: usize,
    reader: &mut CountedReader<R>,
    chunk: &mut [u8; CHUNK_BYTES],
    bytes: &mut Vec<u8>,
) -> Result<bool, RunFault>
    requires few { limit < 2 ^ 32 }
    requires room { vec_len bytes.old ≤ limit }
    ensures more { OnOk result
        (ReadsMore reader.old.left reader.new.left bytes.old.items bytes.new.items) }
    ensures end { IfOk result (λ ended. IsTrue ended → IsAtEnd reader.new.left) }
    ensures within { OnOk result (length bytes.new.items ≤ limit + 1) }
    ensures counted { reader.new.calls ≡ after_calls reader.old.calls 1 }
    ensures err { IfErr result (FailsCall reader.new) }
{
    let room = CHUNK_BYTES.min(limit + 1 - bytes.len());
    match reader.read(&mut chunk[..room]) {
        Ok(0) => Ok(true),
        Ok(n) => match bytes.extend_from_slice(&chunk[..n]) {
            Ok(()) => Ok(false),
            Err(_) => Err(RunFault::Memory),
        },
        Err(e) => if e.kind() == ErrorKind::Interrupted {
            Ok(false)
        } else {
            Err(RunFault::ReadFault)
        },
    }
}
