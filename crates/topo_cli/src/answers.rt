//! The commands over any reader and any writer: which one is carried out.

ghost use Rattle.std.specs.Prelude.{IfErr, IfOk};
ghost use Rattle.topo_cli.specs.Commands.{CommandFailsBy, IsAnswered};

use crate::Verb;
use std::alloc::Global;
use std::io::{Read, Write};
use std::rt::Clock;
use std::sync::Wait;
use std::thread::Threads;
use topo_check::{check_io, replay_io};
use topo_io::RunFault;
use topo_io::reading::CountedReader;
use topo_planarize::planarize_io;
use topo_run::{OpenGate, run_io};
use topo_serve::serve_io;

/// Carries out a command: it reads its input from the reader and writes its answer to the writer. What
/// it tells on the way goes to `told`.
pub fn answer<R: Threads + Wait + Clock + Sync, I: Read, O: Write, E: Write>(
    rt: &R,
    alloc: Global,
    verb: Verb,
    reader: &mut CountedReader<I>,
    writer: &mut O,
    told: &mut E,
) -> Result<(), RunFault>
    ensures done { IfOk result (λ _. IsAnswered verb reader.old reader.new
        (O.contents writer.old) (O.contents writer.new)
        (E.contents told.old) (E.contents told.new)) }
    ensures fault { IfErr result (λ fault. CommandFailsBy verb fault reader.old reader.new
        (O.contents writer.old) (O.contents writer.new)
        (E.contents told.old) (E.contents told.new)) }
{
    match verb {
        Verb::Run => run_io(rt, alloc, reader, writer, &OpenGate),
        Verb::Replay => replay_io(alloc, reader, writer),
        Verb::Check => check_io(alloc, reader, writer),
        Verb::Serve => serve_io(alloc, reader, writer),
        Verb::Planarize => planarize_io(rt, alloc, reader, writer, told),
    }
}
