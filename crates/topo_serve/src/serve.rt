//! The command `serve`.

ghost use Rattle.std.specs.Prelude.{◌≡◌, ◌++◌, ◌∷◌, ℕ, List, [], IfErr, IfOk, None, Option};
ghost use Rattle.std.specs.Prelude.{string_bytes};
ghost use Rattle.std.specs.Io.KnownBytes.{Appends};
ghost use Rattle.topo_session.specs.Standings.{Standing};
ghost use Rattle.topo_serve.specs.Sessions.{IsServed, ServeFailsBy};
ghost use Rattle.topo_serve.specs.Turns.{AnswerFailsBy, Begins, FirstFailsBy, FirstLineFailsBy};
ghost use Rattle.topo_serve.specs.Turns.{IsAnsweredBy, IsBegunBy};
ghost use Rattle.topo_serve.specs.Turns.{IsTurn, LineFailsBy, LinesFailBy, OfLine, ServesAll};
ghost use Rattle.topo_serve.specs.Turns.{Stays, TurnFailsBy, WriteFailsBy, streams};

use crate::ahead::{Ahead, Part};
use std::alloc::Global;
use std::io::{Read, Write};
use topo_io::writing::write_text;
use topo_io::{FromTable, RunFault};
use topo_price::table::PriceTable;
use topo_script::ScriptFault;
use topo_script::row_forms::MAX_PICTURE_BYTES;
use topo_session::{Session, answer, answer_first};

/// Reads one line after another until the input ends, and answers each before it reads the next. An
/// answer is one line, which the writer is let pass on. The first line may be an opening as it is,
/// and its fault ends the session; no other fault of a line does. ReadFault comes where a call of
/// the reader fails, but for an interrupted one, and WriteFault where a call of the writer fails.
pub fn serve_io<I: Read, O: Write>(
    alloc: Global,
    reader: &mut I,
    writer: &mut O,
) -> Result<(), RunFault>
    ensures done { IfOk result (λ _. IsServed (I.remaining reader.old) (I.remaining reader.new)
        (O.contents writer.old) (O.contents writer.new)) }
    ensures fault { IfErr result (λ fault. ServeFailsBy fault (I.remaining reader.old)
        (I.remaining reader.new) (O.contents writer.old) (O.contents writer.new)) }
{
    let mut ahead = Ahead::new(alloc);
    let ended = serve_from::<PriceTable, I, O>(alloc, &mut ahead, reader, writer);
    drop(ahead);
    ended
}

/// Serves, where nothing is ahead, with prices that are asked of an `F`.
fn serve_from<F: FromTable, I: Read, O: Write>(
    alloc: Global,
    ahead: &mut Ahead,
    reader: &mut I,
    writer: &mut O,
) -> Result<(), RunFault>
    requires { ahead.old ≡ [] }
    ensures done { IfOk result (λ _. IsServed (I.remaining reader.old) (I.remaining reader.new)
        (O.contents writer.old) (O.contents writer.new)) }
    ensures fault { IfErr result (λ fault. ServeFailsBy fault (I.remaining reader.old)
        (I.remaining reader.new) (O.contents writer.old) (O.contents writer.new)) }
{
    let mut session: Option<Session<F>> = None;
    let ended = serve_session(alloc, &mut session, ahead, reader, writer);
    drop(session);
    ended
}

/// Serves, where no session is open and nothing is ahead.
fn serve_session<F: FromTable, I: Read, O: Write>(
    alloc: Global,
    session: &mut Option<Session<F>>,
    ahead: &mut Ahead,
    reader: &mut I,
    writer: &mut O,
) -> Result<(), RunFault>
    requires closed { session.old ≡ None }
    requires nothing_ahead { ahead.old ≡ [] }
    ensures done { IfOk result (λ _. IsServed (I.remaining reader.old) (I.remaining reader.new)
        (O.contents writer.old) (O.contents writer.new)) }
    ensures fault { IfErr result (λ fault. ServeFailsBy fault (I.remaining reader.old)
        (I.remaining reader.new) (O.contents writer.old) (O.contents writer.new)) }
{
    if serve_first(alloc, session, ahead, reader, writer)? {
        return serve_lines(alloc, session, ahead, reader, writer);
    }
    Ok(())
}

/// Reads the first line and answers it. Says whether the input goes on.
fn serve_first<F: FromTable, I: Read, O: Write>(
    alloc: Global,
    session: &mut Option<Session<F>>,
    ahead: &mut Ahead,
    reader: &mut I,
    writer: &mut O,
) -> Result<bool, RunFault>
    requires closed { session.old ≡ None }
    requires nothing_ahead { ahead.old ≡ [] }
    ensures begun { IfOk result
        (Begins (streams (I.remaining reader.old) ahead.old (O.contents writer.old))
        (streams (I.remaining reader.new) ahead.new (O.contents writer.new)) session.new) }
    ensures fault { IfErr result (λ fault. FirstFailsBy fault
        (streams (I.remaining reader.old) ahead.old (O.contents writer.old))
        (streams (I.remaining reader.new) ahead.new (O.contents writer.new))) }
{
    let mut line = Vec::new(alloc);
    match ahead.take_first(MAX_PICTURE_BYTES + 1, reader, &mut line)? {
        Part::Feed => {
            begin(alloc, session, line.as_slice(), writer)?;
            Ok(true)
        }
        Part::More => Err(RunFault::Script(ScriptFault::TooLong)),
        Part::End => {
            begin(alloc, session, line.as_slice(), writer)?;
            Ok(false)
        }
    }
}

/// Answers the first line, and writes the answer.
fn begin<F: FromTable, O: Write>(
    alloc: Global,
    session: &mut Option<Session<F>>,
    line: &[u8],
    writer: &mut O,
) -> Result<(), RunFault>
    requires { session.old ≡ None }
    ensures begun { IfOk result
        (λ _. IsBegunBy line.now (O.contents writer.old) (O.contents writer.new) session.new) }
    ensures fault { IfErr result (λ fault. FirstLineFailsBy fault line.now
        (O.contents writer.old) (O.contents writer.new)) }
{
    let text = answer_first(alloc, session, line)?;
    write_answer(writer, text)
}

/// Reads one line after another until the input ends, and answers each before it reads the next.
fn serve_lines<F: FromTable, I: Read, O: Write>(
    alloc: Global,
    session: &mut Option<Session<F>>,
    ahead: &mut Ahead,
    reader: &mut I,
    writer: &mut O,
) -> Result<(), RunFault>
    ensures done { IfOk result
        (λ _. ServesAll (streams (I.remaining reader.old) ahead.old (O.contents writer.old))
        (streams (I.remaining reader.new) ahead.new (O.contents writer.new)) session.old) }
    ensures fault { IfErr result (λ fault. LinesFailBy fault
        (streams (I.remaining reader.old) ahead.old (O.contents writer.old))
        (streams (I.remaining reader.new) ahead.new (O.contents writer.new)) session.old) }
{
    let mut line = Vec::new(alloc);
    for _ in 0..u64::MAX {
        if !serve_line(alloc, session, ahead, &mut line, reader, writer)? {
            return Ok(());
        }
    }
    Err(RunFault::ReadFault)
}

/// Reads a line and answers it. Says whether the input goes on.
fn serve_line<F: FromTable, I: Read, O: Write>(
    alloc: Global,
    session: &mut Option<Session<F>>,
    ahead: &mut Ahead,
    line: &mut Vec<u8>,
    reader: &mut I,
    writer: &mut O,
) -> Result<bool, RunFault>
    ensures turn { IfOk result
        (IsTurn (streams (I.remaining reader.old) ahead.old (O.contents writer.old))
        (streams (I.remaining reader.new) ahead.new (O.contents writer.new))
        session.old session.new) }
    ensures fault { IfErr result (λ fault. TurnFailsBy fault
        (streams (I.remaining reader.old) ahead.old (O.contents writer.old))
        (streams (I.remaining reader.new) ahead.new (O.contents writer.new)) session.old) }
{
    let has_feed = ahead.take_line(MAX_PICTURE_BYTES + 1, reader, line)?;
    answer_if(alloc, session, has_feed, line.as_slice(), writer)?;
    Ok(has_feed)
}

/// Answers a line, if it is one: without a line feed an empty line is none.
fn answer_if<F: FromTable, O: Write>(
    alloc: Global,
    session: &mut Option<Session<F>>,
    has_feed: bool,
    line: &[u8],
    writer: &mut O,
) -> Result<(), RunFault>
    ensures told { IfOk result (λ _. OfLine has_feed line.now
        (IsAnsweredBy line.now (O.contents writer.old) (O.contents writer.new)
        session.old session.new)
        (Stays (O.contents writer.old) (O.contents writer.new) session.old session.new)) }
    ensures fault { IfErr result (λ fault. LineFailsBy fault has_feed line.now
        (O.contents writer.old) (O.contents writer.new) session.old) }
{
    if has_feed {
        return answer_one(alloc, session, line, writer);
    }
    if line.is_empty() {
        return Ok(());
    }
    answer_one(alloc, session, line, writer)
}

/// Answers a line, and writes the answer.
fn answer_one<F: FromTable, O: Write>(
    alloc: Global,
    session: &mut Option<Session<F>>,
    line: &[u8],
    writer: &mut O,
) -> Result<(), RunFault>
    ensures answered { IfOk result
        (λ _. IsAnsweredBy line.now (O.contents writer.old) (O.contents writer.new)
        session.old session.new) }
    ensures fault { IfErr result (λ fault. AnswerFailsBy fault line.now
        (O.contents writer.old) (O.contents writer.new) session.old) }
{
    match answer(alloc, session, line) {
        Ok(text) => write_answer(writer, text),
        Err(_) => Err(RunFault::Memory),
    }
}

/// Writes an answer and a line feed.
fn write_answer<O: Write>(writer: &mut O, mut text: String) -> Result<(), RunFault>
    ensures written { IfOk result
        (λ _. Appends (O.contents writer.old) (O.contents writer.new)
        (string_bytes text ++ 10 ∷ [])) }
    ensures fault { IfErr result (λ fault. WriteFailsBy fault (O.contents writer.old)
        (O.contents writer.new) (string_bytes text ++ 10 ∷ [])) }
{
    if text.push_str("\n").is_err() {
        return Err(RunFault::Memory);
    }
    write_text(writer, text.as_str())
}
