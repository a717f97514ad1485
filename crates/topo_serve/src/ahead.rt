//! Lines of a reader.

ghost use Rattle.std.specs.Prelude.{◌≡◌, ◌≤◌, ◌++◌, IfErr, IfOk, OnErr};
ghost use Rattle.std.specs.Prelude.{OnOk, IsTrue, [], length, take, vec_len};
ghost use Rattle.std.specs.Io.KnownBytes.{Consumes, IsAtEnd, Keeps};
ghost use Rattle.topo_serve.specs.Lines.{first_line};
ghost use Rattle.topo_serve.specs.Taking.{Consumed, PartsAhead, ReadsNoFeed};
ghost use Rattle.topo_serve.specs.Taking.{TakesFirst, TakesLine, TakesPart};
ghost use Rattle.topo_io.specs.Reading.{IsOfReading};

use std::alloc::Global;
use std::io::{ErrorKind, Read};
use std::marker::Model;
use topo_io::RunFault;

/// The greatest number of bytes that one call of `read` is given room for. Contracts count with it.
const CHUNK_BYTES: usize = 8192;

/// Bytes that were read and are not yet part of a line.
pub struct Ahead {
    bytes: Vec<u8>,
    at: usize,
}

// Written out, so that it is proved once: a derived one is proved anew in each function that lets
// such a value go.
impl Drop for Ahead {
    fn drop(self) {
        let Ahead { bytes, at: _ } = self;
        drop(bytes);
    }
}

/// Where a part of a line ends.
#[derive(Clone, Copy, Debug, PartialEq, Eq)]
pub enum Part {
    /// At a line feed.
    Feed,
    /// At the end of the bytes that are there.
    More,
    /// At the end of the input.
    End,
}

impl Model for Ahead {
    ghost use Rattle.std.specs.Prelude.{List, ℕ, ◌≤◌, drop, vec_len};

    ghost Value = { List ℕ };

    ghost view = { λ a. drop a.at a.bytes.items };

    ghost invariant = { λ a. (a.at ≤ vec_len a.bytes) × (vec_len a.bytes ≤ 8192) };
}

/// How many bytes are before the first line feed: all of them, where there is none.
fn line_len(bytes: &[u8]) -> usize
    ensures len { result ≡ length (first_line bytes.now) }
    ensures within { result ≤ length bytes.now }
{
    for i in 0..bytes.len() {
        if bytes[i] == b'\n' {
            return i;
        }
    }
    bytes.len()
}

/// Adds a part to a line, of which at most so many bytes are kept.
fn keep(most: usize, more: &[u8], line: &mut Vec<u8>) -> Result<(), RunFault>
    requires { vec_len line.old ≤ most }
    ensures kept { OnOk result (line.new.items ≡ take most (line.old.items ++ more.now)) }
    ensures within { OnOk result (vec_len line.new ≤ most) }
    ensures err { IfErr result (λ fault. fault ≡ RunFault.Memory) }
{
    let n = more.len().min(most - line.len());
    if line.extend_from_slice(&more[..n]).is_err() {
        return Err(RunFault::Memory);
    }
    Ok(())
}

impl Ahead {
    /// A reader ahead of which nothing was read.
    pub fn new(alloc: Global) -> Self
        ensures { result ≡ [] }
    {
        Ahead {
            bytes: Vec::new(alloc),
            at: 0,
        }
    }

    /// Makes one call of `read`, and tells whether it found the end. An interrupted call gives
    /// nothing.
    fn refill<R: Read>(&mut self, reader: &mut R) -> Result<bool, RunFault>
        ensures read { OnOk result
            (Consumes (R.remaining reader.old) (R.remaining reader.new) self.new) }
        ensures end { IfOk result (λ ended. IsTrue ended → IsAtEnd (R.remaining reader.new)) }
        ensures empty { IfOk result (λ ended. IsTrue ended → self.new ≡ []) }
        ensures some { OnErr result (Consumed (R.remaining reader.old) (R.remaining reader.new)) }
        ensures none { IfErr result (λ fault. fault ≡ RunFault.ReadFault
            → Keeps (R.remaining reader.old) (R.remaining reader.new)) }
        ensures err { IfErr result IsOfReading }
    {
        self.bytes.clear();
        self.at = 0;
        let mut buffer = [0u8; CHUNK_BYTES];
        match reader.read(&mut buffer) {
            Ok(0) => Ok(true),
            Ok(n) => match self.bytes.extend_from_slice(&buffer[..n]) {
                Ok(()) => Ok(false),
                Err(_) => Err(RunFault::Memory),
            },
            Err(e) => if e.kind() == ErrorKind::Interrupted {
                Ok(false)
            } else {
                Err(RunFault::ReadFault)
            },
        }
    }

    /// Takes what is ahead up to the first line feed, if there is one. Of the line at most so many
    /// bytes are kept.
    fn take_ahead(&mut self, most: usize, line: &mut Vec<u8>) -> Result<Part, RunFault>
        requires { vec_len line.old ≤ most }
        ensures parts { IfOk result
            (PartsAhead most self.old self.new line.old.items line.new.items) }
        ensures within { OnOk result (vec_len line.new ≤ most) }
        ensures err { IfErr result (λ fault. fault ≡ RunFault.Memory) }
    {
        let rest = &self.bytes[self.at..];
        let n = line_len(rest);
        let has_feed = n < rest.len();
        keep(most, &rest[..n], line)?;
        if has_feed {
            self.at += n + 1;
            Ok(Part::Feed)
        } else {
            self.at += n;
            Ok(Part::More)
        }
    }

    /// Takes a part of a line. What is ahead is taken first, and where nothing is, there is one
    /// call of `read`.
    fn take_part<R: Read>(
        &mut self,
        most: usize,
        reader: &mut R,
        line: &mut Vec<u8>,
    ) -> Result<Part, RunFault>
        requires { vec_len line.old ≤ most }
        ensures part { IfOk result (TakesPart most (R.remaining reader.old)
            (R.remaining reader.new) self.old self.new line.old.items line.new.items) }
        ensures within { OnOk result (vec_len line.new ≤ most) }
        ensures some { OnErr result (Consumed (R.remaining reader.old) (R.remaining reader.new)) }
        ensures none { IfErr result (λ fault. fault ≡ RunFault.ReadFault → (self.old ≡ [])
            × Keeps (R.remaining reader.old) (R.remaining reader.new)) }
        ensures err { IfErr result IsOfReading }
    {
        if self.at < self.bytes.len() {
            let part = self.take_ahead(most, line)?;
            return Ok(part);
        }
        if self.refill(reader)? {
            return Ok(Part::End);
        }
        let part = self.take_ahead(most, line)?;
        Ok(part)
    }

    /// Takes a line, and says whether it has a line feed: without one it is what stands before the
    /// end, and may be empty. `line` gets at most so many bytes of it.
    pub fn take_line<R: Read>(
        &mut self,
        most: usize,
        reader: &mut R,
        line: &mut Vec<u8>,
    ) -> Result<bool, RunFault>
        ensures line { IfOk result (TakesLine most (R.remaining reader.old)
            (R.remaining reader.new) self.old self.new line.new.items) }
        ensures some { OnErr result (Consumed (R.remaining reader.old) (R.remaining reader.new)) }
        ensures err { IfErr result IsOfReading }
    {
        line.clear();
        for _ in 0..u64::MAX {
            match self.take_part(most, reader, line)? {
                Part::Feed => return Ok(true),
                Part::More => {}
                Part::End => return Ok(false),
            }
        }
        Err(RunFault::ReadFault)
    }

    /// As `take_line`, but no further than until `line` has as many bytes as it gets at most, which
    /// is told by `More`. No more bytes than these and those of one call of `read` are read. If the
    /// reader fails, no line feed was read.
    pub fn take_first<R: Read>(
        &mut self,
        most: usize,
        reader: &mut R,
        line: &mut Vec<u8>,
    ) -> Result<Part, RunFault>
        ensures line { IfOk result (TakesFirst most (R.remaining reader.old)
            (R.remaining reader.new) self.old self.new line.new.items) }
        ensures no_feed { IfErr result (λ fault. fault ≡ RunFault.ReadFault → self.old ≡ []
            → ReadsNoFeed (R.remaining reader.old) (R.remaining reader.new)) }
        ensures err { IfErr result IsOfReading }
    {
        line.clear();
        for _ in 0..u64::MAX {
            match self.take_part(most, reader, line)? {
                Part::Feed => return Ok(Part::Feed),
                Part::More => if line.len() == most {
                    return Ok(Part::More);
                },
                Part::End => return Ok(Part::End),
            }
        }
        Err(RunFault::ReadFault)
    }
}
