//! The command `planarize`.

ghost use Rattle.std.specs.Prelude.{◌≡◌, ◌≤◌, ◌+◌, ℕ, List, IfErr, IfOk, string_bytes};
ghost use Rattle.topo_script.specs.Graphs.{graph_of};
ghost use Rattle.topo_script.specs.Reads.{Gives};
ghost use Rattle.topo_planarize.specs.Answers.{HasNoAnswer, IsAnswerTo, answer_line};
ghost use Rattle.topo_planarize.specs.Planarizing.{IsPlanarized, IsPlanarizedBy, IsUnplanarized};
ghost use Rattle.topo_planarize.specs.Planarizing.{PlanarizeFailsBy};
ghost use Rattle.topo_planarize.specs.Ways.{TellsWay};
ghost use Rattle.topo_io.specs.Reading.{most_calls};

use crate::answers::Answer;
use crate::planarizer::Planarizer;
use crate::side_by_side::{Deadline, Terms};
use std::alloc::{AllocError, Global};
use std::io::{Read, Write};
use std::rt::Clock;
use std::thread::Threads;
use topo_io::reading::{CountedReader, read_bytes};
use topo_io::writing::write_text;
use topo_io::{FromTable, RunFault};
use topo_price::table::PriceTable;
use topo_script::row_forms::MAX_PICTURE_BYTES;
use topo_script::written::Written;
use topo_script::{GraphAsked, ScriptFault, read_graph};

/// Reads a graph, searches for pictures of its components with few crossings, and writes them on one
/// line. The reader is read until its end, or until it has given one byte more than a graph may
/// have: in at most twice as many calls as a graph may have bytes, and two; an interrupted call is
/// one of them. ReadFault comes where a call fails otherwise or there are too few of them,
/// WriteFault where a call of the writer fails. Where it is asked for, lines on the way are told, and
/// nothing else is.
pub fn planarize_io<R: Threads + Clock + Sync, I: Read, O: Write, E: Write>(
    rt: &R,
    alloc: Global,
    reader: &mut CountedReader<I>,
    writer: &mut O,
    told: &mut E,
) -> Result<(), RunFault>
    ensures done { IfOk result (λ _. IsPlanarized reader.old.left reader.new.left
        (O.contents writer.old) (O.contents writer.new)
        (E.contents told.old) (E.contents told.new)) }
    ensures fault { IfErr result (λ fault. PlanarizeFailsBy fault reader.old reader.new
        (O.contents writer.old) (O.contents writer.new)
        (E.contents told.old) (E.contents told.new)) }
    ensures calls { reader.new.calls ≤ reader.old.calls + most_calls 268435456 }
{
    let bytes = read_bytes(alloc, MAX_PICTURE_BYTES as u32, reader)?;
    let read = read_graph(alloc, bytes.as_slice());
    // The text of a graph is larger than the graph.
    drop(bytes);
    let line = line_of_read(rt, alloc, read, told)?;
    write_text(writer, line.as_str())
}

/// The line that answers what was read of bytes, or the first fault.
fn line_of_read<R: Threads + Clock + Sync, E: Write>(
    rt: &R,
    alloc: Global,
    read: Result<GraphAsked, ScriptFault>,
    told: &mut E,
) -> Result<String, RunFault>
    ensures line { (bytes : List ℕ) → Gives read (graph_of bytes)
        → IfOk result (λ line. IsPlanarizedBy bytes (string_bytes line)
        (E.contents told.old) (E.contents told.new)) }
    ensures fault { (bytes : List ℕ) → Gives read (graph_of bytes)
        → IfErr result (λ fault. IsUnplanarized bytes fault
        (E.contents told.old) (E.contents told.new)) }
{
    let asked = match read {
        Ok(asked) => asked,
        Err(fault) => return Err(RunFault::Script(fault)),
    };
    let answer = answer_to::<PriceTable, R, E>(rt, alloc, asked, told)?;
    match answer_line(alloc, &answer) {
        Ok(line) => Ok(line),
        Err(_) => Err(RunFault::Memory),
    }
}

/// An answer to what was asked, for which the thread that calls searches to the end. How many
/// seconds it may take, and whether it is told how far it is, plays no part.
pub fn answer_graph<F: FromTable>(alloc: Global, asked: GraphAsked) -> Result<Answer, RunFault>
    ensures answer { IfOk result (IsAnswerTo asked) }
    ensures fault { IfErr result (HasNoAnswer asked) }
{
    let mut planarizer = Planarizer::<F>::open(alloc, asked)?;
    planarizer.run(alloc);
    planarizer.into_answer(alloc)
}

/// The line of an answer, with its line feed.
fn answer_line(alloc: Global, answer: &Answer) -> Result<String, AllocError>
    ensures { IfOk result (λ line. string_bytes line ≡ answer_line answer.now) }
{
    let mut line = String::new(alloc);
    answer.write(&mut line)?;
    line.push('\n')?;
    Ok(line)
}

/// An answer to what was asked.
fn answer_to<F: FromTable + Send + Sync, R: Threads + Clock + Sync, E: Write>(
    rt: &R,
    alloc: Global,
    asked: GraphAsked,
    told: &mut E,
) -> Result<Answer, RunFault>
    ensures answer { IfOk result (IsAnswerTo asked) }
    ensures fault { IfErr result (HasNoAnswer asked) }
    ensures way { TellsWay asked.progress (E.contents told.old) (E.contents told.new) }
{
    let terms = Terms {
        deadline: Deadline::new(rt, asked.seconds),
        is_told: asked.progress,
    };
    let mut planarizer = Planarizer::<F>::open(alloc, asked)?;
    planarizer.search(rt, alloc, &terms, told);
    planarizer.into_answer(alloc)
}
