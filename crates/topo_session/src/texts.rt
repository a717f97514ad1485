//! The texts of answers.

ghost use Rattle.std.specs.Prelude.{◌≡◌, ◌++◌, [], IfOk, OnOk, codes, string_bytes};
ghost use Rattle.serde_json.specs.Data.{string};
ghost use Rattle.serde_json.specs.Written.{compact_text};
ghost use Rattle.topo_session.specs.Texts.{counts_text, edge_data, end_data, face_data};
ghost use Rattle.topo_session.specs.Texts.{fault_text, framed, id_data, meeting_data};
ghost use Rattle.topo_session.specs.Texts.{counted_text, no_dart_text, nothing_text, numbered_text};
ghost use Rattle.topo_session.specs.Texts.{placed_text};
ghost use Rattle.topo_session.specs.Texts.{renumbered_data, route_data, route_reply_data};
ghost use Rattle.topo_session.specs.Texts.{undone_data, vertex_data};

use crate::edges::{EdgeAnswer, Meeting};
use crate::session::Undone;
use crate::vertices::{End, VertexAnswer};
use serde_json::Value;
use std::alloc::{AllocError, Global};
use topo_core::calls::Reply;
use topo_core::darts::Dart;
use topo_core::listed::Listed;
use topo_core::routes::Inserted;
use topo_faults::Fault;
use topo_graph::GraphFault;
use topo_io::RunFault;
use topo_picture::Counts;
use topo_price::table::PriceFault;
use topo_renumbering::Renumbered;
use topo_script::path::JsonPath;
use topo_script::written::{Written, write_after, write_next};
use topo_script::{Frame, LineId, ScriptFault};

/// How many bytes the text of an answer has room for at first. Most answers have no more, so that
/// their texts are not moved while they grow.
const ANSWER_BYTES: usize = 128;

/// An empty text with room for most answers.
fn empty_answer(alloc: Global) -> Result<String, AllocError>
    ensures { IfOk result (λ text. string_bytes text ≡ []) }
{
    String::with_capacity(alloc, ANSWER_BYTES)
}

/// Writes counts at the end of a text.
fn write_counts(out: &mut String, counts: &Counts) -> Result<(), AllocError>
    ensures { OnOk result (string_bytes out.new ≡ string_bytes out.old ++ counts_text counts.now) }
{
    write_after(out, "{\"crossings\":", &counts.crossings)?;
    write_after(out, ",\"edges\":", &counts.edges)?;
    write_after(out, ",\"faces\":", &counts.faces)?;
    write_after(out, ",\"segments\":", &counts.segments)?;
    write_after(out, ",\"vertices\":", &counts.vertices)?;
    out.push_str("}")
}

/// The text of counts.
pub fn counts_text(alloc: Global, counts: &Counts) -> Result<String, AllocError>
    ensures { IfOk result (λ text. string_bytes text ≡ counts_text counts.now) }
{
    let mut text = empty_answer(alloc)?;
    write_counts(&mut text, counts)?;
    Ok(text)
}

impl Written for Meeting {
    ghost value = { meeting_data };

    fn write(&self, out: &mut String) -> Result<(), AllocError> {
        write_after(out, "[", &self.crossing)?;
        write_next(out, &self.other)?;
        write_next(out, &self.sign)?;
        out.push(']')
    }
}

impl Written for EdgeAnswer {
    ghost value = { edge_data };

    fn write(&self, out: &mut String) -> Result<(), AllocError> {
        write_after(out, "{\"a\":", &self.a)?;
        write_after(out, ",\"b\":", &self.b)?;
        write_after(out, ",\"crossings\":", &self.crossings)?;
        write_after(out, ",\"id\":", &self.id)?;
        write_after(out, ",\"kind\":", &self.kind)?;
        write_after(out, ",\"price\":", &self.price)?;
        out.push('}')
    }
}

impl Written for Undone {
    ghost value = { undone_data };

    fn write(&self, out: &mut String) -> Result<(), AllocError> {
        write_after(out, "{\"crossings\":", &self.crossings)?;
        write_after(out, ",\"edges\":", &self.edges)?;
        write_after(out, ",\"undone\":", &self.undone)?;
        write_after(out, ",\"vertices\":", &self.vertices)?;
        out.push('}')
    }
}

/// Writes what a renumbering did at the end of a text.
fn write_renumbered(out: &mut String, ids: &Renumbered) -> Result<(), AllocError>
    ensures { OnOk result (string_bytes out.new
        ≡ string_bytes out.old ++ compact_text (renumbered_data ids.now)) }
{
    write_after(out, "{\"crossings\":", &ids.crossings)?;
    write_after(out, ",\"edges\":", &ids.edges)?;
    out.push_str("}")
}

/// The text of what a renumbering did.
pub fn renumbered_text(alloc: Global, ids: &Renumbered) -> Result<String, AllocError>
    ensures { IfOk result (λ text. string_bytes text ≡ compact_text (renumbered_data ids.now)) }
{
    let mut text = empty_answer(alloc)?;
    write_renumbered(&mut text, ids)?;
    Ok(text)
}

impl Written for End {
    ghost value = { end_data };

    fn write(&self, out: &mut String) -> Result<(), AllocError> {
        match self {
            End::A => out.push_str("\"a\""),
            End::B => out.push_str("\"b\""),
        }
    }
}

impl Written for VertexAnswer {
    ghost value = { vertex_data };

    fn write(&self, out: &mut String) -> Result<(), AllocError> {
        write_after(out, "{\"edges\":", &self.edges)?;
        write_after(out, ",\"ends\":", &self.ends)?;
        out.push('}')
    }
}

/// Writes a route without the edge that would take it.
fn write_route(out: &mut String, made: &Inserted) -> Result<(), AllocError>
    ensures { OnOk result
        (string_bytes out.new ≡ string_bytes out.old ++ compact_text (route_data made.now)) }
{
    write_after(out, "{\"crossed\":", &made.route.crossed)?;
    write_after(out, ",\"end\":", &made.route.end)?;
    write_after(out, ",\"price\":", &made.price)?;
    write_after(out, ",\"start\":", &made.route.start)?;
    out.push('}')
}

/// Writes the reply that an insertion would have.
fn write_route_reply(out: &mut String, reply: &Reply) -> Result<(), AllocError>
    ensures { OnOk result
        (string_bytes out.new ≡ string_bytes out.old ++ compact_text (route_reply_data reply.now)) }
{
    match reply {
        Reply::Inserted(made) => write_route(out, made),
        _ => reply.write(out),
    }
}

/// The text of the reply that an insertion would have.
pub fn route_text(alloc: Global, reply: &Reply) -> Result<String, AllocError>
    ensures { IfOk result (λ text. string_bytes text ≡ compact_text (route_reply_data reply.now)) }
{
    let mut text = empty_answer(alloc)?;
    write_route_reply(&mut text, reply)?;
    Ok(text)
}

/// Writes the darts of a face.
fn write_face(out: &mut String, darts: &Listed<Dart>) -> Result<(), AllocError>
    ensures { OnOk result
        (string_bytes out.new ≡ string_bytes out.old ++ compact_text (face_data darts.now)) }
{
    write_after(out, "{\"darts\":", darts)?;
    out.push('}')
}

/// The text of the darts of a face.
pub fn face_text(alloc: Global, darts: &Listed<Dart>) -> Result<String, AllocError>
    ensures { IfOk result (λ text. string_bytes text ≡ compact_text (face_data darts.now)) }
{
    let mut text = empty_answer(alloc)?;
    write_face(&mut text, darts)?;
    Ok(text)
}

/// The text of a value.
pub fn text_of<T: Written>(alloc: Global, value: &T) -> Result<String, AllocError>
    ensures { IfOk result (λ text. string_bytes text ≡ compact_text (T.value value.now)) }
{
    let mut text = empty_answer(alloc)?;
    value.write(&mut text)?;
    Ok(text)
}

/// A text of these letters.
pub fn text_like(alloc: Global, letters: &str) -> Result<String, AllocError>
    ensures { IfOk result (λ text. string_bytes text ≡ letters.now) }
{
    let mut text = String::new(alloc);
    text.push_str(letters)?;
    Ok(text)
}

/// The text that tells that there are not so many entries to take back.
pub fn nothing_text(alloc: Global, entries: u32) -> Result<String, AllocError>
    ensures { IfOk result (λ text. string_bytes text ≡ nothing_text entries) }
{
    counted_text(alloc, Fault::NothingToUndo, entries as usize)
}

/// The text that tells that the dart of an edge is not there.
pub fn no_dart_text(alloc: Global) -> Result<String, AllocError>
    ensures { IfOk result (λ text. string_bytes text ≡ no_dart_text) }
{
    let number = Fault::NoDart.number();
    let name = Fault::NoDart.name();
    format!(in alloc; "{{\"refused\":[{number},\"{name}\"]}}")
}

/// The text of a fault with its number and its name.
pub fn numbered_text(alloc: Global, fault: Fault) -> Result<String, AllocError>
    ensures { IfOk result (λ text. string_bytes text ≡ numbered_text fault) }
{
    let number = fault.number();
    let name = fault.name();
    format!(in alloc; "{{\"fault\":[{number},\"{name}\"]}}")
}

/// The text of a fault with its number, its name and its path.
fn placed_text(alloc: Global, fault: Fault, path: JsonPath) -> Result<String, AllocError>
    ensures { IfOk result (λ text. string_bytes text ≡ placed_text fault path) }
{
    let number = fault.number();
    let name = fault.name();
    format!(in alloc; "{{\"fault\":[{number},\"{name}\",\"{path}\"]}}")
}

/// The text of a fault with its number, its name and a number more.
fn counted_text(alloc: Global, fault: Fault, count: usize) -> Result<String, AllocError>
    ensures { IfOk result (λ text. string_bytes text ≡ counted_text fault count) }
{
    let number = fault.number();
    let name = fault.name();
    format!(in alloc; "{{\"fault\":[{number},\"{name}\",{count}]}}")
}

/// The text of a fault, of a line or of what it opens.
pub fn fault_text(alloc: Global, fault: RunFault) -> Result<String, AllocError>
    ensures { IfOk result (λ text. string_bytes text ≡ fault_text fault) }
{
    let known = fault.fault();
    match fault {
        RunFault::Script(ScriptFault::BadShape(path)) => placed_text(alloc, known, path),
        RunFault::Script(ScriptFault::BadNumber(path)) => placed_text(alloc, known, path),
        RunFault::Price(PriceFault::BadPrice(kind)) => counted_text(alloc, known, kind as usize),
        RunFault::Graph(GraphFault::Loop(place)) => counted_text(alloc, known, place),
        RunFault::Graph(GraphFault::NoEnd(place)) => counted_text(alloc, known, place),
        RunFault::Graph(GraphFault::NotPlanarized(place)) => counted_text(alloc, known, place),
        RunFault::WrongReply(place) => counted_text(alloc, known, place),
        _ => numbered_text(alloc, known),
    }
}

/// The JSON text of a text.
fn quoted(alloc: Global, text: &str) -> Result<String, AllocError>
    ensures { IfOk result (λ quoted. string_bytes quoted ≡ compact_text (string text.now)) }
{
    let text = String::from_str(alloc, text)?;
    Value::String(text).to_string(alloc)
}

/// The text of an id.
fn id_text(alloc: Global, id: &LineId) -> Result<String, AllocError>
    ensures { IfOk result (λ text. string_bytes text ≡ compact_text (id_data id.now)) }
{
    match id {
        LineId::Text(text) => quoted(alloc, text.as_str()),
        LineId::Number(number) => text_of(alloc, number),
    }
}

/// An answer as it stands in its line.
pub fn framed(alloc: Global, frame: &Frame, answer: String) -> Result<String, AllocError>
    ensures { IfOk result (λ text. string_bytes text ≡ framed frame.now (string_bytes answer)) }
{
    match frame {
        Frame::Opening => Ok(answer),
        Frame::Bare => Ok(answer),
        Frame::Envelope(None) => enveloped(alloc, &answer),
        Frame::Envelope(Some(id)) => {
            let id = id_text(alloc, id)?;
            enveloped_as(alloc, id.as_str(), &answer)
        }
    }
}

/// An answer in an envelope without an id.
fn enveloped(alloc: Global, answer: &str) -> Result<String, AllocError>
    ensures { IfOk result (λ text. string_bytes text
        ≡ codes "{\"answer\":" ++ (answer.now ++ codes "}")) }
{
    format!(in alloc; "{{\"answer\":{answer}}}")
}

/// An answer in an envelope with the text of an id.
fn enveloped_as(alloc: Global, id: &str, answer: &str) -> Result<String, AllocError>
    ensures { IfOk result (λ text. string_bytes text ≡ codes "{\"answer\":" ++ (answer.now
        ++ (codes ",\"id\":" ++ (id.now ++ codes "}")))) }
{
    format!(in alloc; "{{\"answer\":{answer},\"id\":{id}}}")
}
