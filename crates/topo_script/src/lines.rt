//! The lines of a session.

ghost use Rattle.std.specs.Prelude.{◌≡◌, IfSome, true, false};
ghost use Rattle.serde_json.specs.View.{view};
ghost use Rattle.topo_script.specs.declared.path.Key.TheVariants.{Caller};
ghost use Rattle.topo_script.specs.Paths.{whole};
ghost use Rattle.topo_script.specs.Reads.{Gives, member_form, member_or};
ghost use Rattle.topo_script.specs.Sessions.{text_id, number_id, id_form, some_id, caller_form};
ghost use Rattle.topo_script.specs.Sessions.{envelope_head, envelope_asked, envelope_line};
ghost use Rattle.topo_script.specs.Sessions.{bare_asked, opened_form, request_form, is_opening};
ghost use Rattle.topo_script.specs.Sessions.{has_brace, line_form, line_limit, frame_without};
ghost use Rattle.topo_script.specs.Sessions.{bare_line, line_of, command_line, ReadsLine};

use crate::fault::ScriptFault;
use crate::form::{
    Form, check_keys, has_key, is_text, parse, read_member, read_member_or, read_number,
};
use crate::keys::ENVELOPE_KEYS;
use crate::path::{JsonPath, Key};
use crate::row_forms::MAX_PICTURE_BYTES;
use crate::sessions::{Opening, Request, is_keyed, read_opened};
use crate::tokens::read_tokens;
use serde_json::Value;
use std::alloc::Global;
use std::marker::Model;
use topo_core::calls::Command;
use topo_core::limits::MAX_PASSES;

/// The greatest number of bytes that a line of a session may have which is neither the first one
/// nor an object. The first one and an object may have as many as a picture.
pub const MAX_LINE_BYTES: usize = 65_536;

/// The greatest number of bytes that the text of an id may have.
pub const MAX_ID_BYTES: usize = 256;

/// The greatest number of a caller.
pub(crate) const GREATEST_CALLER: u64 = MAX_PASSES as u64 - 1;

/// The text of an id, which contracts see as its bytes.
#[derive(Debug)]
pub struct IdText {
    text: String,
}

impl Drop for IdText {
    fn drop(self) {
        let IdText { text } = self;
        drop(text);
    }
}

impl Model for IdText {
    ghost use Rattle.std.specs.Prelude.{List, ℕ, string_bytes};

    ghost Value = { List ℕ };

    ghost view = { λ id. string_bytes id.text };
}

impl IdText {
    /// The text of the id.
    pub fn as_str(&self) -> &str
        ensures { result.now ≡ self.now }
    {
        self.text.as_str()
    }
}

/// The id of a line, which its answer repeats.
#[derive(Drop, Debug)]
pub enum LineId {
    Text(IdText),
    Number(u32),
}

/// Who asks, and for what.
#[derive(Drop, Debug)]
pub struct Asked {
    pub caller: u32,
    pub request: Request,
}

/// How a line asks.
#[derive(Drop, Debug)]
pub enum Frame {
    /// It is the opening itself, the first line of a session.
    Opening,
    /// It is the request itself.
    Bare,
    /// It is an object around the request, which may have an id.
    Envelope(Option<LineId>),
}

/// A line of a session: how it asks, and for what, or its first fault.
#[derive(Drop, Debug)]
pub struct Line {
    pub frame: Frame,
    pub asked: Result<Asked, ScriptFault>,
}

/// A text of at most 256 bytes.
pub(crate) fn read_text_id(alloc: Global, path: JsonPath, text: &str) -> Result<LineId, ScriptFault>
    ensures { Gives result (text_id path text.now) }
{
    if text.len() > MAX_ID_BYTES {
        return Err(ScriptFault::BadShape(path));
    }
    match String::from_str(alloc, text) {
        Ok(text) => Ok(LineId::Text(IdText { text })),
        Err(_) => Err(ScriptFault::Memory),
    }
}

fn read_number_id(alloc: Global, path: JsonPath, value: &Value) -> Result<LineId, ScriptFault>
    ensures { Gives result (number_id path (view value.now)) }
{
    let number = u32::read(alloc, path, value)?;
    Ok(LineId::Number(number))
}

impl Form for LineId {
    ghost form = { id_form };

    fn read(alloc: Global, path: JsonPath, value: &Value) -> Result<Self, ScriptFault> {
        match value.as_str() {
            Some(text) => read_text_id(alloc, path, text),
            None => read_number_id(alloc, path, value),
        }
    }
}

impl Form for Option<LineId> {
    ghost form = { some_id };

    fn read(alloc: Global, path: JsonPath, value: &Value) -> Result<Self, ScriptFault> {
        let id = LineId::read(alloc, path, value)?;
        Ok(Some(id))
    }
}

/// The id of an envelope, if it has one.
fn read_head(alloc: Global, value: &Value) -> Result<Option<LineId>, ScriptFault>
    ensures { Gives result (envelope_head (view value.now)) }
{
    check_keys(JsonPath::WHOLE, &ENVELOPE_KEYS, value)?;
    read_member_or(alloc, JsonPath::WHOLE, Key::Id, value, None)
}

/// Reads a caller's number.
fn read_caller(path: JsonPath, value: &Value) -> Result<u32, ScriptFault>
    ensures { result ≡ caller_form path (view value.now) }
{
    let caller = read_number(GREATEST_CALLER, path, value)?;
    Ok(caller as u32)
}

/// The caller of an envelope, where it names one.
fn read_caller_member(value: &Value) -> Result<u32, ScriptFault>
    ensures { Gives result (member_form caller_form whole Caller (view value.now)) }
{
    let path = JsonPath::WHOLE.member(Key::Caller);
    match value.get(Key::Caller.name()) {
        Some(caller) => read_caller(path, caller),
        None => Err(ScriptFault::BadShape(path)),
    }
}

/// The caller of an envelope: 0 where it names none.
fn read_caller_or(value: &Value) -> Result<u32, ScriptFault>
    ensures { Gives result (member_or 0 caller_form whole Caller (view value.now)) }
{
    if has_key(Key::Caller, value) {
        read_caller_member(value)
    } else {
        Ok(0)
    }
}

/// Who asks by an envelope, and for what.
fn read_asked(alloc: Global, value: &Value) -> Result<Asked, ScriptFault>
    ensures { Gives result (envelope_asked (view value.now)) }
{
    let caller = read_caller_or(value)?;
    let request = read_member(alloc, JsonPath::WHOLE, Key::Call, value)?;
    Ok(Asked { caller, request })
}

/// A line with an envelope.
fn read_envelope(alloc: Global, value: &Value) -> Line
    ensures { ReadsLine result (envelope_line (view value.now)) }
{
    match read_head(alloc, value) {
        Ok(id) => Line {
            frame: Frame::Envelope(id),
            asked: read_asked(alloc, value),
        },
        Err(fault) => Line {
            frame: Frame::Envelope(None),
            asked: Err(fault),
        },
    }
}

/// A line that is the opening itself, as that of caller 0.
fn asked_opening(alloc: Global, value: &Value) -> Result<Asked, ScriptFault>
    ensures { Gives result (bare_asked opened_form (view value.now)) }
{
    let request = read_opened(alloc, JsonPath::WHOLE, value)?;
    Ok(Asked { caller: 0, request })
}

/// A line that is the request itself, as that of caller 0.
fn asked_bare(alloc: Global, value: &Value) -> Result<Asked, ScriptFault>
    ensures { Gives result (bare_asked request_form (view value.now)) }
{
    let request = Request::read(alloc, JsonPath::WHOLE, value)?;
    Ok(Asked { caller: 0, request })
}

/// Whether a first line without an envelope is the opening itself.
fn is_opening(value: &Value) -> bool
    ensures { result ≡ is_opening (view value.now) }
{
    !is_keyed(value) && !is_text("about", value)
}

/// The line that a value is.
#[tactic(auto, using(crate::proofs::LineLaws::reads_asked), unfolding(crate::specs::Sessions::line_form))]
fn line_from(alloc: Global, first: bool, value: &Value) -> Line
    ensures { ReadsLine result (line_form first (view value.now)) }
{
    if has_key(Key::Call, value) {
        read_envelope(alloc, value)
    } else if first && is_opening(value) {
        Line {
            frame: Frame::Opening,
            asked: asked_opening(alloc, value),
        }
    } else {
        Line {
            frame: Frame::Bare,
            asked: asked_bare(alloc, value),
        }
    }
}

/// Whether the first byte opens an object.
fn has_brace(bytes: &[u8]) -> bool
    ensures { result ≡ has_brace bytes.now }
{
    if bytes.is_empty() {
        return false;
    }
    bytes[0] == b'{'
}

/// How many bytes a line may have.
#[tactic(auto, unfolding(crate::specs::Sessions::line_limit))]
fn line_limit(first: bool, bytes: &[u8]) -> usize
    ensures { result ≡ line_limit first bytes.now }
{
    if first || has_brace(bytes) {
        MAX_PICTURE_BYTES
    } else {
        MAX_LINE_BYTES
    }
}

/// How a line that is no value asks.
fn frame_without(first: bool) -> Frame
    ensures { result ≡ frame_without first }
{
    if first { Frame::Opening } else { Frame::Bare }
}

/// A line, read by way of its value.
#[inline(never)]
fn line_of_value(alloc: Global, first: bool, bytes: &[u8]) -> Line
    ensures { ReadsLine result (line_of first bytes.now) }
{
    match parse(alloc, line_limit(first, bytes), bytes) {
        Ok(value) => line_from(alloc, first, &value),
        Err(fault) => Line {
            frame: frame_without(first),
            asked: Err(fault),
        },
    }
}

/// The line that is a request itself.
pub(crate) fn bare_line(request: Request) -> Line
    ensures { result ≡ bare_line request }
{
    Line {
        frame: Frame::Bare,
        asked: Ok(Asked { caller: 0, request }),
    }
}

/// A line that may be an envelope, or an object that asks by its key. Such a one is read from its
/// tokens, if it can be, so that a picture or a graph in it takes little memory.
#[inline(never)]
fn read_object_line(alloc: Global, first: bool, bytes: &[u8]) -> Line
    ensures { ReadsLine result (line_of first bytes.now) }
{
    match read_tokens(alloc, line_limit(first, bytes), bytes) {
        Some(line) => line,
        None => line_of_value(alloc, first, bytes),
    }
}

/// The first line of a session. An opening is read from its tokens, if it can be, so that a picture
/// in it takes little memory.
#[inline(never)]
fn read_first(alloc: Global, bytes: &[u8]) -> Line
    ensures { ReadsLine result (line_of true bytes.now) }
{
    match read_tokens::<Opening>(alloc, MAX_PICTURE_BYTES, bytes) {
        Some(opening) => Line {
            frame: Frame::Opening,
            asked: Ok(Asked {
                caller: 0,
                request: Request::Open(opening),
            }),
        },
        None => read_object_line(alloc, true, bytes),
    }
}

/// The command that a later line is, read from its tokens. Nothing is read of a line that is
/// something else, or that is not written as our own writer does, though it may be a command too:
/// `read_line` reads each. A caller that has many commands is quicker with this one.
#[inline(always)]
pub fn read_command(alloc: Global, bytes: &[u8]) -> Option<Command>
    ensures { IfSome result (λ command. line_of false bytes.now ≡ command_line command) }
{
    let command = read_tokens(alloc, MAX_LINE_BYTES, bytes)?;
    Some(command)
}

/// A later line. It is read from its tokens, if it can be, since that is quicker.
#[inline(always)]
fn read_later(alloc: Global, bytes: &[u8]) -> Line
    ensures { ReadsLine result (line_of false bytes.now) }
{
    if has_brace(bytes) {
        return read_object_line(alloc, false, bytes);
    }
    match read_tokens(alloc, line_limit(false, bytes), bytes) {
        Some(request) => bare_line(request),
        None => line_of_value(alloc, false, bytes),
    }
}

/// The line that bytes spell, which stand here without their line feed. Out of memory, how it asks
/// may be lost with what it asks for.
#[inline(always)]
pub fn read_line(alloc: Global, first: bool, bytes: &[u8]) -> Line
    ensures { ReadsLine result (line_of first bytes.now) }
{
    if first {
        read_first(alloc, bytes)
    } else {
        read_later(alloc, bytes)
    }
}
