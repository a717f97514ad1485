//! Lines and their answers.

ghost use Rattle.std.specs.Prelude.{◌≡◌, ◌≢◌, ◌⊎◌, ℕ, List, IfErr, IfOk, OnErr, MatchResult};
ghost use Rattle.std.specs.Prelude.{Err, None, Ok, false, string_bytes, true};
ghost use Rattle.serde_json.specs.Written.{compact_text};
ghost use Rattle.topo_core.specs.declared.calls.Reply.TheVariants.{Refused};
ghost use Rattle.topo_script.specs.Sessions.{command_line, line_of};
ghost use Rattle.topo_script.specs.Pictures.{rows_text};
ghost use Rattle.topo_script.specs.ReportTexts.{reply_data, report_text};
ghost use Rattle.topo_session.specs.Answers.{Answers, AnswersClosed, AnswersFirst, AnswersLine};
ghost use Rattle.topo_session.specs.Answers.{CarriesOut, IsBadOpening, IsFaultOfAsked, IsFaultOfRequest};
ghost use Rattle.topo_session.specs.Answers.{Leaves, LeavesBy, LosesLine, Opens, RespondsTo};
ghost use Rattle.topo_session.specs.Answers.{IsOfLoading, Reopens, TellsCounts, TellsFace, TellsRoute};
ghost use Rattle.topo_session.specs.Answers.{TellsPictures, TellsRenumbered, TellsUndone};
ghost use Rattle.topo_session.specs.Answers.{edge_text, vertex_text};
ghost use Rattle.topo_check.specs.Replays.{IsUntrue};
ghost use Rattle.topo_planarize.specs.Answers.{HasNoAnswer};
ghost use Rattle.topo_script.specs.declared.sessions.Request.TheVariants.{Renumber};
ghost use Rattle.topo_session.specs.Standings.{begins_with, report_so_far};
ghost use Rattle.topo_session.specs.Texts.{fault_text};
ghost use Rattle.topo_io.specs.declared.fault.RunFault.TheVariants.{Memory};
ghost use Rattle.topo_io.specs.Settings.{IsUnsound};

use crate::session::Session;
use crate::texts::{
    counts_text, face_text, fault_text, framed, no_dart_text, nothing_text, numbered_text,
    renumbered_text, route_text, text_like, text_of,
};
use std::alloc::{AllocError, Global};
use std::mem;
use topo_core::calls::{Call, Command, Refusal, Reply};
use topo_core::darts::Dart;
use topo_faults::Fault;
use topo_io::{FromTable, RunFault};
use topo_planarize::answer_graph;
use topo_price::tariff::PriceFn;
use topo_rows::LoadFault;
use topo_script::{
    Asked, Frame, GraphAsked, Line, Opening, Report, Request, ScriptFault, picture_text,
    read_command, read_line, report,
};

/// What the program is, how large a picture may be, and which requests there are.
const ABOUT: &str =
    "{\"limits\":{\"crossings\":1048576,\"edges\":65536,\"vertices\":65536},\"program\":\"planar\",\"requests\":[\"about\",\"counts\",\"delete\",\"edge\",\"face\",\"forget\",\"grow\",\"insert\",\"open\",\"picture\",\"planarize\",\"planned\",\"renumber\",\"reopen\",\"report\",\"route\",\"undo\",\"vertex\"],\"version\":\"0.5.0\"}";

/// Carries a command out, and gives the text of its reply. A planned insertion is looked for as any
/// other.
fn carry<F: PriceFn>(
    alloc: Global,
    session: &mut Session<F>,
    caller: u32,
    command: Command,
) -> Result<String, AllocError>
    ensures carried { IfOk result
        (λ text. CarriesOut caller command (string_bytes text) session.old session.new) }
    ensures lost { OnErr result ((session.new ≡ session.old)
        ⊎ ((text : List ℕ) × CarriesOut caller command text session.old session.new)) }
{
    match command {
        Command::Plain(Call::Grow { u, position, kind }) => {
            let reply = session.grow(alloc, caller, u, position, kind)?;
            text_of(alloc, &reply)
        }
        Command::Plain(Call::Insert { u, v, kind }) => {
            let reply = session.insert(alloc, caller, u, v, kind)?;
            text_of(alloc, &reply)
        }
        Command::Plain(Call::Delete { edge }) => {
            let reply = session.delete(alloc, caller, edge)?;
            text_of(alloc, &reply)
        }
        Command::Planned { u, v, kind } => {
            let reply = session.insert(alloc, caller, u, v, kind)?;
            text_of(alloc, &reply)
        }
    }
}

/// The text of the route that an edge of kind 0 would take now.
fn tell_route<F: PriceFn>(
    alloc: Global,
    session: &mut Session<F>,
    u: u32,
    v: u32,
) -> Result<String, AllocError>
    ensures told { IfOk result (λ text. TellsRoute session.old u v (string_bytes text)) }
    ensures same { session.new ≡ session.old }
{
    let reply = session.route(alloc, u, v)?;
    route_text(alloc, &reply)
}

/// The text of a refusal.
fn refusal_text(alloc: Global, why: Refusal) -> Result<String, AllocError>
    ensures { IfOk result (λ text. string_bytes text ≡ compact_text (reply_data (Refused why))) }
{
    text_of(alloc, &Reply::Refused(why))
}

/// The text of an edge.
fn tell_edge<F: PriceFn>(
    alloc: Global,
    session: &Session<F>,
    edge: u32,
) -> Result<String, AllocError>
    ensures { IfOk result (λ text. string_bytes text ≡ edge_text session.now edge) }
{
    match session.edge(alloc, edge)? {
        Some(found) => text_of(alloc, &found),
        None => refusal_text(alloc, Refusal::NoEdge),
    }
}

/// The text of a vertex.
fn tell_vertex<F: PriceFn>(
    alloc: Global,
    session: &Session<F>,
    vertex: u32,
) -> Result<String, AllocError>
    ensures { IfOk result (λ text. string_bytes text ≡ vertex_text session.now vertex) }
{
    match session.vertex(alloc, vertex)? {
        Some(found) => text_of(alloc, &found),
        None => refusal_text(alloc, Refusal::NoVertex),
    }
}

/// The text of a face.
fn tell_face<F: PriceFn>(
    alloc: Global,
    session: &Session<F>,
    dart: Dart,
) -> Result<String, AllocError>
    ensures { IfOk result (λ text. TellsFace session.now.picture dart (string_bytes text)) }
{
    let edge = dart.edge.number();
    match session.face(alloc, dart)? {
        Some(darts) => face_text(alloc, &darts),
        None => if session.has_edge(edge) {
            no_dart_text(alloc)
        } else {
            refusal_text(alloc, Refusal::NoEdge)
        },
    }
}

/// The text of counts.
fn tell_counts<F: PriceFn>(alloc: Global, session: &Session<F>) -> Result<String, AllocError>
    ensures { IfOk result (λ text. TellsCounts session.now.picture (string_bytes text)) }
{
    counts_text(alloc, &session.counts())
}

/// The text of the picture.
fn tell_picture<F: PriceFn>(alloc: Global, session: &Session<F>) -> Result<String, AllocError>
    ensures { IfOk result (λ text. string_bytes text ≡ rows_text session.now.picture) }
{
    let rows = session.picture().rows(alloc)?;
    picture_text(alloc, &rows)
}

/// The text of the report so far.
fn tell_report<F: PriceFn>(alloc: Global, session: &Session<F>) -> Result<String, AllocError>
    ensures { IfOk result
        (λ text. string_bytes text ≡ report_text (report_so_far session.now)) }
{
    let made = session.report(alloc)?;
    report(alloc, &made)
}

/// Opens a session, and gives the text of its counts.
fn open<F: FromTable>(alloc: Global, opening: Opening) -> Result<(Session<F>, String), RunFault>
    ensures opened { IfOk result (λ made. Opens opening (string_bytes made.1) made.0) }
    ensures fault { IfErr result (IsUnsound opening.limits opening.prices opening.start) }
{
    let session = Session::open(alloc, opening)?;
    match tell_counts(alloc, &session) {
        Ok(text) => Ok((session, text)),
        Err(_) => Err(RunFault::Memory),
    }
}

/// Puts another picture in place of the one of a session.
fn open_another<F: FromTable>(
    alloc: Global,
    session: &mut Session<F>,
    opening: Opening,
) -> Result<String, RunFault>
    ensures opened { IfOk result (λ text. Opens opening (string_bytes text) session.new) }
    ensures fault { IfErr result (IsUnsound opening.limits opening.prices opening.start) }
    ensures unchanged { OnErr result (session.new ≡ session.old) }
{
    let (another, text) = open(alloc, opening)?;
    let before = mem::replace(session, another);
    drop(before);
    Ok(text)
}

/// Opens a session that goes on from a report, and gives the text of its counts.
fn reopen<F: FromTable>(alloc: Global, report: Report) -> Result<(Session<F>, String), RunFault>
    ensures reopened { IfOk result (λ made. Reopens report (string_bytes made.1) made.0) }
    ensures fault { IfErr result (IsUntrue report) }
{
    let session = Session::reopen(alloc, report)?;
    match tell_counts(alloc, &session) {
        Ok(text) => Ok((session, text)),
        Err(_) => Err(RunFault::Memory),
    }
}

/// Puts the picture of a report in place of the one of a session.
fn reopen_another<F: FromTable>(
    alloc: Global,
    session: &mut Session<F>,
    report: Report,
) -> Result<String, RunFault>
    ensures reopened { IfOk result (λ text. Reopens report (string_bytes text) session.new) }
    ensures fault { IfErr result (IsUntrue report) }
    ensures unchanged { OnErr result (session.new ≡ session.old) }
{
    let (another, text) = reopen(alloc, report)?;
    let before = mem::replace(session, another);
    drop(before);
    Ok(text)
}

/// Takes entries back, so many, and gives the text that tells it.
fn tell_undo<F: PriceFn + Drop>(
    alloc: Global,
    session: &mut Session<F>,
    entries: u32,
) -> Result<String, AllocError>
    ensures told { IfOk result
        (λ text. TellsUndone entries (string_bytes text) session.old session.new) }
    ensures lost { OnErr result ((session.new ≡ session.old)
        ⊎ ((text : List ℕ) × TellsUndone entries text session.old session.new)) }
{
    match session.undo(alloc, entries)? {
        Some(told) => text_of(alloc, &told),
        None => nothing_text(alloc, entries),
    }
}

/// Lets the history be empty, and gives the text of the counts.
fn tell_forget<F: PriceFn + Drop>(
    alloc: Global,
    session: &mut Session<F>,
) -> Result<String, AllocError>
    ensures told { IfOk result (λ text. TellsCounts session.old.picture (string_bytes text)
        × (session.new ≡ begins_with session.old.picture session.old)) }
    ensures unchanged { OnErr result (session.new ≡ session.old) }
{
    let text = tell_counts(alloc, session)?;
    session.forget(alloc)?;
    Ok(text)
}

/// Closes the ids up, and gives the text of those of before.
fn tell_renumber<F: PriceFn + Drop>(
    alloc: Global,
    session: &mut Session<F>,
) -> Result<String, RunFault>
    ensures told { IfOk result
        (λ text. TellsRenumbered (string_bytes text) session.old session.new) }
    ensures fault { IfErr result IsOfLoading }
    ensures lost { IfErr result
        (λ fault. LeavesBy fault 0 Renumber session.old session.new) }
{
    let ids = match session.renumber(alloc) {
        Ok(ids) => ids,
        Err(LoadFault::Memory) => return Err(RunFault::Memory),
        Err(fault) => return Err(RunFault::Load(fault)),
    };
    or_memory(renumbered_text(alloc, &ids))
}

/// Searches for pictures of a graph with few crossings, and gives the text that tells them.
fn tell_pictures<F: FromTable>(alloc: Global, asked: GraphAsked) -> Result<String, RunFault>
    ensures told { IfOk result (λ text. TellsPictures asked (string_bytes text)) }
    ensures fault { IfErr result (HasNoAnswer asked) }
{
    let answer = answer_graph::<F>(alloc, asked)?;
    or_memory(text_of(alloc, &answer))
}

/// A text, or out of memory as the fault that it is.
fn or_memory(text: Result<String, AllocError>) -> Result<String, RunFault>
    ensures { MatchResult text (λ text. result ≡ Ok text) (λ _. result ≡ Err Memory) }
{
    match text {
        Ok(text) => Ok(text),
        Err(_) => Err(RunFault::Memory),
    }
}

impl<F: FromTable> Session<F> {
    /// The text that answers a request of this caller.
    pub fn answer(
        &mut self,
        alloc: Global,
        caller: u32,
        request: Request,
    ) -> Result<String, RunFault>
        ensures answer { IfOk result
            (λ text. Answers caller request (string_bytes text) self.old self.new) }
        ensures fault { IfErr result (IsFaultOfRequest request) }
        ensures left { IfErr result (λ fault. LeavesBy fault caller request self.old self.new) }
    {
        match request {
            Request::Carry(command) => or_memory(carry(alloc, self, caller, command)),
            Request::Counts => or_memory(tell_counts(alloc, self)),
            Request::Picture => or_memory(tell_picture(alloc, self)),
            Request::Report => or_memory(tell_report(alloc, self)),
            Request::About => or_memory(text_like(alloc, ABOUT)),
            Request::Route { u, v } => or_memory(tell_route(alloc, self, u, v)),
            Request::Edge(edge) => or_memory(tell_edge(alloc, self, edge)),
            Request::Vertex(vertex) => or_memory(tell_vertex(alloc, self, vertex)),
            Request::Face(dart) => or_memory(tell_face(alloc, self, dart)),
            Request::Open(opening) => open_another(alloc, self, opening),
            Request::Undo(entries) => or_memory(tell_undo(alloc, self, entries)),
            Request::Forget => or_memory(tell_forget(alloc, self)),
            Request::Renumber => tell_renumber(alloc, self),
            Request::Reopen(report) => reopen_another(alloc, self, report),
            Request::Planarize(asked) => tell_pictures::<F>(alloc, asked),
        }
    }
}

/// The text that answers a request where no session is open.
fn answer_closed<F: FromTable>(
    alloc: Global,
    session: &mut Option<Session<F>>,
    request: Request,
) -> Result<String, RunFault>
    requires { session.old ≡ None }
    ensures answer { IfOk result
        (λ text. AnswersClosed request (string_bytes text) session.new) }
    ensures fault { IfErr result (IsFaultOfRequest request) }
    ensures unchanged { OnErr result (session.new ≡ session.old) }
{
    match request {
        Request::About => or_memory(text_like(alloc, ABOUT)),
        Request::Open(opening) => {
            let (opened, text) = open(alloc, opening)?;
            *session = Some(opened);
            Ok(text)
        }
        Request::Reopen(report) => {
            let (opened, text) = reopen(alloc, report)?;
            *session = Some(opened);
            Ok(text)
        }
        Request::Planarize(asked) => tell_pictures::<F>(alloc, asked),
        _ => or_memory(numbered_text(alloc, Fault::NotOpen)),
    }
}

/// The text that answers what a line asks for, or its fault.
pub fn respond<F: FromTable>(
    alloc: Global,
    session: &mut Option<Session<F>>,
    asked: Result<Asked, ScriptFault>,
) -> Result<String, RunFault>
    ensures answer { IfOk result
        (λ text. RespondsTo asked (string_bytes text) session.old session.new) }
    ensures fault { IfErr result (IsFaultOfAsked asked) }
    ensures left { IfErr result (λ fault. Leaves fault asked session.old session.new) }
{
    match asked {
        Ok(Asked { caller, request }) => {
            if let Some(open) = session {
                return open.answer(alloc, caller, request);
            }
            answer_closed(alloc, session, request)
        }
        Err(ScriptFault::Memory) => Err(RunFault::Memory),
        Err(fault) => Err(RunFault::Script(fault)),
    }
}

/// An answer, or the text of a fault.
fn tell(alloc: Global, outcome: Result<String, RunFault>) -> Result<String, AllocError>
    ensures { IfOk result (λ text. MatchResult outcome
        (λ found. string_bytes text ≡ string_bytes found)
        (λ fault. (fault ≢ Memory) × (string_bytes text ≡ fault_text fault))) }
{
    match outcome {
        Ok(text) => Ok(text),
        Err(RunFault::Memory) => Err(AllocError),
        Err(fault) => fault_text(alloc, fault),
    }
}

/// Answers a line that is a command as it is.
fn answer_command<F: FromTable>(
    alloc: Global,
    session: &mut Option<Session<F>>,
    command: Command,
) -> Result<String, AllocError>
    ensures answered { IfOk result
        (λ text. AnswersLine (command_line command) (string_bytes text)
        session.old session.new) }
    ensures lost { OnErr result (LosesLine (command_line command) session.old session.new) }
{
    if let Some(open) = session {
        return carry(alloc, open, 0, command);
    }
    numbered_text(alloc, Fault::NotOpen)
}

/// Answers a line, whatever it asks for.
fn answer_any<F: FromTable>(
    alloc: Global,
    session: &mut Option<Session<F>>,
    line: &[u8],
) -> Result<String, AllocError>
    ensures answered { IfOk result
        (λ text. AnswersLine (line_of false line.now) (string_bytes text)
        session.old session.new) }
    ensures lost { OnErr result (LosesLine (line_of false line.now) session.old session.new) }
{
    let Line { frame, asked } = read_line(alloc, false, line);
    let outcome = respond(alloc, session, asked);
    let text = tell(alloc, outcome)?;
    framed(alloc, &frame, text)
}

/// Answers a line, which stands here without its line feed. A line that is of no form, and an opening
/// that is at fault, is answered by its first fault, and changes nothing. The answer has no line
/// feed. Out of memory, all is as it was, or what was asked is done and only the text is lost.
pub fn answer<F: FromTable>(
    alloc: Global,
    session: &mut Option<Session<F>>,
    line: &[u8],
) -> Result<String, AllocError>
    ensures answered { IfOk result
        (λ text. AnswersLine (line_of false line.now) (string_bytes text)
        session.old session.new) }
    ensures lost { OnErr result (LosesLine (line_of false line.now) session.old session.new) }
{
    // Most lines are commands, and a command as it is needs no frame.
    match read_command(alloc, line) {
        Some(command) => answer_command(alloc, session, command),
        None => answer_any(alloc, session, line),
    }
}

/// Answers the first line, where no session is open. It may be an opening as it is, and a fault of
/// that is no answer.
pub fn answer_first<F: FromTable>(
    alloc: Global,
    session: &mut Option<Session<F>>,
    line: &[u8],
) -> Result<String, RunFault>
    requires { session.old ≡ None }
    ensures answered { IfOk result
        (λ text. AnswersFirst (line_of true line.now) (string_bytes text) session.new) }
    ensures fault { IfErr result (λ fault. fault ≢ Memory
        → IsBadOpening (line_of true line.now) fault) }
{
    let Line { frame, asked } = read_line(alloc, true, line);
    let outcome = respond(alloc, session, asked);
    if let Frame::Opening = frame {
        return outcome;
    }
    let Ok(text) = tell(alloc, outcome) else {
        return Err(RunFault::Memory);
    };
    or_memory(framed(alloc, &frame, text))
}
