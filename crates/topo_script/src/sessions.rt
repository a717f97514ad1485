//! What a session can be asked for: its opening, and what a line of it asks for.

ghost use Rattle.std.specs.Prelude.{◌≡◌, is_none};
ghost use Rattle.serde_json.specs.View.{view};
ghost use Rattle.topo_script.specs.declared.fault.ScriptFault.TheVariants.{BadShape};
ghost use Rattle.topo_script.specs.declared.path.Key.TheVariants.{Seconds};
ghost use Rattle.topo_script.specs.Paths.{member_of, whole};
ghost use Rattle.topo_script.specs.Reads.{Gives, passes};
ghost use Rattle.topo_script.specs.Sessions.{carry_form, opening_form, opened_form};
ghost use Rattle.topo_script.specs.Sessions.{route_form, edge_form, vertex_form, face_form, undo_form};
ghost use Rattle.topo_script.specs.Sessions.{open_form, reopen_form, planarize_form, keyed_form};
ghost use Rattle.topo_script.specs.Sessions.{is_keyed, look_form, request_form};

use crate::calls::begins;
use crate::fault::ScriptFault;
use crate::form::{
    Form, check_keys, has_key, is_text, read_element, read_elements, read_only_member,
};
use crate::graphs::GraphAsked;
use crate::keys::OPENING_KEYS;
use crate::path::{JsonPath, Key};
use crate::reports;
use crate::script_forms::{read_nulls, read_settings};
use crate::scripts::LimitRows;
use serde_json::Value;
use std::alloc::Global;
use topo_core::calls::Command;
use topo_core::darts::Dart;
use topo_core::listed::Listed;
use topo_core::rows::Rows;

/// What a session begins with: a script without its lists. No start is the first picture.
#[derive(Drop, Debug)]
pub struct Opening {
    pub limits: LimitRows,
    pub prices: Listed<Option<u32>>,
    pub start: Option<Rows>,
}

/// What a line of a session asks for.
#[derive(Drop, Debug)]
pub enum Request {
    /// To carry a command out.
    Carry(Command),
    /// How large the picture is.
    Counts,
    /// Asks for the picture.
    Picture,
    /// The report so far.
    Report,
    /// What the program is.
    About,
    /// The cheapest route between two vertices.
    Route { u: u32, v: u32 },
    /// Asks for an edge.
    Edge(u32),
    /// Asks for a vertex.
    Vertex(u32),
    /// The face beside a dart.
    Face(Dart),
    /// To take so many of the last commands back.
    Undo(u32),
    /// To drop the history.
    Forget,
    /// To number what is there anew.
    Renumber,
    /// Asks to begin anew.
    Open(Opening),
    /// To go on from a report.
    Reopen(reports::Report),
    /// To search for pictures of a graph with few crossings. The session's picture stays.
    Planarize(GraphAsked),
}

impl Form for Opening {
    ghost form = { opening_form };

    fn read(alloc: Global, path: JsonPath, value: &Value) -> Result<Self, ScriptFault> {
        let nulls = read_nulls(alloc, path, value)?;
        check_keys(path, &OPENING_KEYS, value)?;
        let (limits, prices, start) = read_settings(alloc, path, nulls, value)?;
        Ok(Opening {
            limits,
            prices,
            start,
        })
    }
}

fn read_route(alloc: Global, path: JsonPath, value: &Value) -> Result<Request, ScriptFault>
    ensures { Gives result (route_form path (view value.now)) }
{
    let u = read_element(alloc, path, 1, value)?;
    let v = read_element(alloc, path, 2, value)?;
    Ok(Request::Route { u, v })
}

fn read_edge(alloc: Global, path: JsonPath, value: &Value) -> Result<Request, ScriptFault>
    ensures { Gives result (edge_form path (view value.now)) }
{
    let edge = read_element(alloc, path, 1, value)?;
    Ok(Request::Edge(edge))
}

fn read_vertex(alloc: Global, path: JsonPath, value: &Value) -> Result<Request, ScriptFault>
    ensures { Gives result (vertex_form path (view value.now)) }
{
    let vertex = read_element(alloc, path, 1, value)?;
    Ok(Request::Vertex(vertex))
}

fn read_face(alloc: Global, path: JsonPath, value: &Value) -> Result<Request, ScriptFault>
    ensures { Gives result (face_form path (view value.now)) }
{
    let (edge, seg, way) = read_elements(alloc, path, 1, value)?;
    Ok(Request::Face(Dart { edge, seg, way }))
}

fn read_undo(alloc: Global, path: JsonPath, value: &Value) -> Result<Request, ScriptFault>
    ensures { Gives result (undo_form path (view value.now)) }
{
    let count = read_element(alloc, path, 1, value)?;
    Ok(Request::Undo(count))
}

/// An opening, as what is asked for.
pub(crate) fn read_opened(
    alloc: Global,
    path: JsonPath,
    value: &Value,
) -> Result<Request, ScriptFault>
    ensures { Gives result (opened_form path (view value.now)) }
{
    let opening = Opening::read(alloc, path, value)?;
    Ok(Request::Open(opening))
}

fn read_open(alloc: Global, path: JsonPath, value: &Value) -> Result<Request, ScriptFault>
    ensures { Gives result (open_form path (view value.now)) }
{
    let opening = read_only_member(alloc, path, Key::Open, value)?;
    Ok(Request::Open(opening))
}

fn read_reopen(alloc: Global, path: JsonPath, value: &Value) -> Result<Request, ScriptFault>
    ensures { Gives result (reopen_form path (view value.now)) }
{
    let report = read_only_member(alloc, path, Key::Reopen, value)?;
    Ok(Request::Reopen(report))
}

/// Tests that a graph says nothing of seconds, since a session has no clock.
fn check_seconds(asked: &GraphAsked) -> Result<(), ScriptFault>
    ensures { result
        ≡ passes (BadShape (member_of whole Seconds)) (is_none asked.now.seconds) }
{
    if asked.seconds.is_none() {
        Ok(())
    } else {
        Err(ScriptFault::BadShape(JsonPath::WHOLE.member(Key::Seconds)))
    }
}

fn read_planarize(alloc: Global, path: JsonPath, value: &Value) -> Result<Request, ScriptFault>
    ensures { Gives result (planarize_form path (view value.now)) }
{
    let asked: GraphAsked = read_only_member(alloc, path, Key::Planarize, value)?;
    check_seconds(&asked)?;
    Ok(Request::Planarize(asked))
}

/// Whether a value is an object that asks by its one key.
pub(crate) fn is_keyed(value: &Value) -> bool
    ensures { result ≡ is_keyed (view value.now) }
{
    has_key(Key::Open, value) || has_key(Key::Reopen, value) || has_key(Key::Planarize, value)
}

#[tactic(auto, unfolding(crate::specs::Sessions::keyed_form))]
fn read_keyed(alloc: Global, path: JsonPath, value: &Value) -> Result<Request, ScriptFault>
    ensures { Gives result (keyed_form path (view value.now)) }
{
    if has_key(Key::Open, value) {
        read_open(alloc, path, value)
    } else if has_key(Key::Reopen, value) {
        read_reopen(alloc, path, value)
    } else {
        read_planarize(alloc, path, value)
    }
}

fn read_carry(alloc: Global, path: JsonPath, value: &Value) -> Result<Request, ScriptFault>
    ensures { Gives result (carry_form path (view value.now)) }
{
    let command = Command::read(alloc, path, value)?;
    Ok(Request::Carry(command))
}

/// What an array or an object asks for.
#[tactic(auto, unfolding(crate::specs::Sessions::look_form))]
fn read_look(alloc: Global, path: JsonPath, value: &Value) -> Result<Request, ScriptFault>
    ensures { Gives result (look_form path (view value.now)) }
{
    if begins("route", 3, value) {
        read_route(alloc, path, value)
    } else if begins("edge", 2, value) {
        read_edge(alloc, path, value)
    } else if begins("vertex", 2, value) {
        read_vertex(alloc, path, value)
    } else if begins("face", 4, value) {
        read_face(alloc, path, value)
    } else if begins("undo", 2, value) {
        read_undo(alloc, path, value)
    } else if is_keyed(value) {
        read_keyed(alloc, path, value)
    } else {
        read_carry(alloc, path, value)
    }
}

impl Form for Request {
    ghost form = { request_form };

    #[tactic(auto, unfolding(crate::specs::Sessions::request_form))]
    fn read(alloc: Global, path: JsonPath, value: &Value) -> Result<Self, ScriptFault> {
        if is_text("about", value) {
            Ok(Request::About)
        } else if is_text("counts", value) {
            Ok(Request::Counts)
        } else if is_text("picture", value) {
            Ok(Request::Picture)
        } else if is_text("report", value) {
            Ok(Request::Report)
        } else if is_text("forget", value) {
            Ok(Request::Forget)
        } else if is_text("renumber", value) {
            Ok(Request::Renumber)
        } else {
            read_look(alloc, path, value)
        }
    }
}
