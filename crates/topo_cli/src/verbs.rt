//! The words of a command line.

ghost use Rattle.std.specs.Prelude.{◌≡◌, IfOk, IfErr, Some, codes, map, true, is_some};
ghost use Rattle.clap.specs.Simple.{on_top};
ghost use Rattle.clap.specs.Words.{FailsBy, app_of, kind_of, new_app, takes};
ghost use Rattle.topo_cli.specs.Words.{planar_app, planar_shape, verb_named};
ghost use Rattle.topo_cli.specs.Words.{asked_verb, with_command, word_faults};

use crate::Verb;
use clap::error::ErrorKind;
use clap::{Command, Error};
use std::alloc::{AllocError, Global};
use std::convert::AsStr;

/// What `planar --help` says before the list of commands.
const ABOUT: &str = "\
Keeps a planar picture of a graph: for each vertex the clockwise list of its
edges, and each crossing as a dummy vertex of degree four.";

/// What it says after them.
const AFTER: &str = "\
Examples:
  echo '{\"version\":1,\"workers\":[[[\"grow\",1,0,0],[\"grow\",1,1,7]]]}' > script.json
  planar run < script.json > report.json
  planar replay < report.json
  planar check < picture.json
  echo '{\"version\":1}' | planar serve
  planar planarize < graph.json > pictures.json

Statuses:
  0  done
  1  a fault of what was read, of reading or of writing
  2  these words were refused, or asked for help
  3  not enough memory";

const RUN: &str = "Reads a script and prints the report of its run";

const RUN_LONG: &str = "\
Reads a script from standard input, carries out its lists of commands, each in a
thread of its own if there are several, and prints the report on one line of
standard output: the start, each call with its list and its reply, and the
picture at the end.

A script is a JSON object with a version and one to sixteen lists of commands:

  {\"version\":1,\"workers\":[[[\"grow\",1,0,0],[\"insert\",0,2,7]],[[\"delete\",0]]]}

[\"grow\",U,POSITION,KIND] puts a new vertex on a new edge, of a kind from 0 to
63, into a corner of vertex U: the one before the edge at POSITION of its
clockwise list. [\"insert\",U,V,KIND] draws a new edge from U to V along the first
of the cheapest routes, and [\"delete\",E] takes edge E out. [\"planned\",U,V,KIND]
is an insertion that looks for its route while other calls go on. A command that
is refused changes nothing, and the run goes on.

The commands of a list are carried out in its order, those of several lists in
any order: a script of several lists may have another report in each run.

A script may also have \"start\", a picture; without it the run begins with the
vertices 0 and 1, and edge 0 between them. \"limits\", with \"crossings\", \"edges\"
and \"vertices\", says how large the picture may grow. \"prices\" is a list of what
it costs to cross an edge of kind 0, of kind 1 and so on: from 1 to 1000, or with
\"version\":2 also null, for edges that are never crossed.

A fault is one line on standard error, as: planar: 52 BadShape $/workers";

const REPLAY: &str = "Reads a report and carries out its history again";

const REPLAY_LONG: &str = "\
Reads a report from standard input, as planar run prints it, and carries out its
history again from its start, under its limits and at its prices. Where each
reply is the one due and the picture at the end is the report's, prints how many
calls there are, on one line of standard output:

  replayed 3 calls

Who made a call is not judged.

A fault is one line on standard error. planar: 60 WrongReply 1 says that entry 1
of the history, counted from 0, is the first whose reply is not the one due, and
planar: 61 WrongPicture that the history leads to another picture.";

const CHECK: &str = "Reads a picture and prints how large it is, where it is a lawful one";

const CHECK_LONG: &str = "\
Reads a picture from standard input. Where it is a lawful one, a connected
embedding of genus zero, prints how large it is on one line of standard output.

A picture stands in a report, as its start and at its end:

  {\"crossings\":[],\"edges\":[{\"a\":0,\"b\":1,\"crossings\":[],\"id\":0,\"kind\":0}],
   \"next_crossing\":0,\"next_edge\":1,\"rotations\":[[0],[0]]}

and the line for this one is

  lawful vertices=2 crossings=0 edges=1 segments=1 faces=1

A fault is one line on standard error, as: planar: 25 NotPlanar";

const SERVE: &str = "Answers line by line, with one picture that each command changes";

const SERVE_LONG: &str = "\
Reads lines from standard input and answers each with exactly one line on
standard output, before it turns to the next. It ends where its input ends.

The first line is a script without its lists. It opens the session, and is
answered by how large the start is:

  {\"version\":1}
  {\"crossings\":0,\"edges\":1,\"faces\":1,\"segments\":1,\"vertices\":2}

Each further line is a command as in a script, and is answered by its reply:

  [\"grow\",1,0,0]
  {\"edge\":1,\"vertex\":2}

The line \"counts\" is answered by how large the picture is, \"picture\" by the
picture, and \"report\" by the report so far, which planar replay accepts. A line
that is none of these is answered by its fault, as {\"fault\":[52,\"BadShape\",\"$\"]},
and changes nothing.

A fault of the first line, of reading or of writing ends the session with one
line on standard error, as: planar: 53 BadVersion";

const PLANARIZE: &str = "Reads a graph and prints pictures of it with few crossings";

const PLANARIZE_LONG: &str = "\
Reads a graph from standard input, searches for a picture with few crossings of
each component that has an edge, and prints the pictures on one line of standard
output. They are judged before: they show the graph, or there is a fault. How few
the crossings are is not promised.

A graph is a JSON object with how many vertices there are, and the two ends and
the kind, from 0 to 63, of each edge:

  {\"edges\":[[0,1,0],[1,2,0],[2,0,7]],\"version\":1,\"vertices\":3}

It may also have \"effort\", which is \"quick\", \"default\" or \"thorough\";
\"prices\" as in a script, where an edge of a kind without a price has no crossing
at all; \"progress\", true for a line on standard error about once a second;
\"seconds\", after which the search ends with the best so far; \"seed\", a number
that its choices begin with; \"start\", an answer of before, to go on from; and
\"threads\", so many searches side by side, with seeds one after another. The same
graph, effort, seed, start and threads have the same answer, unless time ends the
search.

The answer has the number of crossings and their cost, which is the sum of the
products of the prices of both edges; \"parts\", each with a picture and the graph's
vertices and edges by the numbers of the picture's; \"lonely\", the vertices
without an edge; and \"tries\", the crossings at the end of each attempt.

A fault is one line on standard error. planar: 80 Loop 3 says that both ends of
edge 3, counted from 0, are one vertex, and planar: 81 NoEnd 3 that one of them is
no vertex. planar: 82 TooLarge tells of a component with more than 65,536 vertices
or edges, or whose picture needs too many crossings, and planar: 83 NotPlanarized 3
that no picture was found in which edge 3 has no crossing. planar: 84 OtherGraph
says that \"start\" shows another graph.";

/// The program with one command more.
fn with_command<'a>(
    alloc: Global,
    planar: Command<'a>,
    name: &'a str,
    about: &'a str,
    long_about: &'a str,
) -> Result<Command<'a>, AllocError>
    ensures { IfOk result
        (λ command. app_of command ≡ with_command (app_of planar.entry) name.entry.now) }
{
    let command = Command::new(alloc, name)
        .about(about)
        .long_about(long_about);
    planar.subcommand(command)
}

/// What `planar --version` prints: the program and its version.
pub const VERSION_LINE: &str = "planar 0.5.0\n";

/// The program before it has its commands. That it has a version, whatever the text, gives it the
/// option `--version`.
fn without_commands<'a>(alloc: Global) -> Command<'a>
    ensures { app_of result ≡ on_top planar_shape (new_app (codes "planar")) }
{
    Command::new(alloc, "planar")
        .about(ABOUT)
        .after_help(AFTER)
        .version(VERSION_LINE)
        .subcommand_required(true)
        .arg_required_else_help(true)
}

/// The command line of the program.
fn planar_command<'a>(alloc: Global) -> Result<Command<'a>, AllocError>
    ensures { IfOk result (λ command. app_of command ≡ planar_app) }
{
    let planar = without_commands(alloc);
    let planar = with_command(alloc, planar, "run", RUN, RUN_LONG)?;
    let planar = with_command(alloc, planar, "replay", REPLAY, REPLAY_LONG)?;
    let planar = with_command(alloc, planar, "check", CHECK, CHECK_LONG)?;
    let planar = with_command(alloc, planar, "serve", SERVE, SERVE_LONG)?;
    with_command(alloc, planar, "planarize", PLANARIZE, PLANARIZE_LONG)
}

/// The command of this name.
fn verb_named(name: &str) -> Option<Verb>
    ensures { result ≡ verb_named name.now }
{
    match name {
        "run" => Some(Verb::Run),
        "replay" => Some(Verb::Replay),
        "check" => Some(Verb::Check),
        "serve" => Some(Verb::Serve),
        "planarize" => Some(Verb::Planarize),
        _ => None,
    }
}

/// The command that the words ask for; the first word is the program's name. Where `clap` refuses
/// the words, or they ask for help or for the version, its answer is the error: it has one of the
/// kinds that clap's own definition gives for the words, or that of out of memory.
pub fn verb<'a, S: AsStr>(alloc: Global, words: &'a [S]) -> Result<Verb, Error>
    ensures ok { IfOk result (λ v. asked_verb (map S.text words.entry.now) ≡ Some v) }
    ensures kinds { FailsBy (word_faults (map S.text words.entry.now)) result }
    ensures err { IfErr result (λ e. takes planar_app (map S.text words.entry.now) ≡ true
        → is_some (asked_verb (map S.text words.entry.now)) ≡ true
        → kind_of e ≡ ErrorKind.OutOfMemory) }
{
    let mut planar = planar_command(alloc)?;
    let asked = asked_of(&mut planar, words);
    drop(planar);
    asked
}

/// The command that the words ask the program for.
fn asked_of<'a, S: AsStr>(planar: &mut Command<'a>, words: &'a [S]) -> Result<Verb, Error>
    requires { app_of planar.old ≡ planar_app }
    ensures ok { IfOk result (λ v. asked_verb (map S.text words.entry.now) ≡ Some v) }
    ensures kinds { FailsBy (word_faults (map S.text words.entry.now)) result }
    ensures err { IfErr result (λ e. takes planar_app (map S.text words.entry.now) ≡ true
        → is_some (asked_verb (map S.text words.entry.now)) ≡ true
        → kind_of e ≡ ErrorKind.OutOfMemory) }
{
    let matches = match planar.try_get_matches_from_mut(words) {
        Ok(matches) => matches,
        Err(error) => return Err(error),
    };
    let named = matches.subcommand_name().and_then(verb_named);
    drop(matches);
    match named {
        Some(verb) => Ok(verb),
        None => Err(planar.error(ErrorKind::MissingSubcommand, "a command is missing")?),
    }
}
