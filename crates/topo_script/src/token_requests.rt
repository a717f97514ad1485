//! What a line of a session asks for, read from the tokens of a text.

ghost use Rattle.std.specs.Prelude.{◌≡◌, IfSome, Ok, codes};
ghost use Rattle.serde_json.specs.Data.{string};
ghost use Rattle.topo_script.specs.declared.path.JsonPath.{JsonPath};
ghost use Rattle.topo_script.specs.Sessions.{keyed_form, request_form};
ghost use Rattle.topo_script.specs.Tokens.{Spells};
ghost use Rattle.topo_script.specs.TokenParts.{SpellsAsked};

use crate::graphs::GraphAsked;
use crate::lexing::bytes_are;
use crate::path::Key;
use crate::reader::TokenReader;
use crate::sessions::Request;
use crate::slots::read_only;
use crate::token_scripts::command_after;
use crate::tokens::{FromTokens, last_number};
use std::alloc::Global;
use topo_core::darts::Dart;

/// What follows the word of a question for a route.
fn token_route(alloc: Global, reader: &mut TokenReader<'_>) -> Option<Request>
    ensures { IfSome result
        (λ request. SpellsAsked (codes "route") reader.old request reader.new) }
{
    let u = u32::from_tokens(alloc, reader)?;
    let v = u32::from_tokens(alloc, reader)?;
    reader.end_array()?;
    Some(Request::Route { u, v })
}

/// What follows the word of a question for a face.
fn token_face(alloc: Global, reader: &mut TokenReader<'_>) -> Option<Request>
    ensures { IfSome result
        (λ request. SpellsAsked (codes "face") reader.old request reader.new) }
{
    let edge = FromTokens::from_tokens(alloc, reader)?;
    let seg = FromTokens::from_tokens(alloc, reader)?;
    let way = FromTokens::from_tokens(alloc, reader)?;
    reader.end_array()?;
    Some(Request::Face(Dart { edge, seg, way }))
}

/// What follows the word of a request that is no command.
fn asked_after(alloc: Global, word: &[u8], reader: &mut TokenReader<'_>) -> Option<Request>
    ensures { IfSome result (λ request. SpellsAsked word.now reader.old request reader.new) }
{
    if bytes_are(word, "route") {
        token_route(alloc, reader)
    } else if bytes_are(word, "edge") {
        let edge = last_number(alloc, reader)?;
        Some(Request::Edge(edge))
    } else if bytes_are(word, "vertex") {
        let vertex = last_number(alloc, reader)?;
        Some(Request::Vertex(vertex))
    } else if bytes_are(word, "face") {
        token_face(alloc, reader)
    } else if bytes_are(word, "undo") {
        let count = last_number(alloc, reader)?;
        Some(Request::Undo(count))
    } else {
        None
    }
}

/// What a text asks for.
fn asked_by(word: &[u8]) -> Option<Request>
    ensures { IfSome result
        (λ request. (path : JsonPath) → request_form path (string word.now) ≡ Ok request) }
{
    if bytes_are(word, "about") {
        Some(Request::About)
    } else if bytes_are(word, "counts") {
        Some(Request::Counts)
    } else if bytes_are(word, "picture") {
        Some(Request::Picture)
    } else if bytes_are(word, "report") {
        Some(Request::Report)
    } else if bytes_are(word, "forget") {
        Some(Request::Forget)
    } else if bytes_are(word, "renumber") {
        Some(Request::Renumber)
    } else {
        None
    }
}

/// A text that is next.
fn token_word(reader: &mut TokenReader<'_>) -> Option<Request>
    ensures { IfSome result (λ request. Spells 7 request_form reader.old request reader.new) }
{
    let word = reader.next_text()?;
    asked_by(word)
}

/// A graph that is next, behind its key. One that says how many seconds is read by way of its value.
fn token_planarize(alloc: Global, reader: &mut TokenReader<'_>) -> Option<Request>
    ensures { IfSome result (λ request. Spells 7 keyed_form reader.old request reader.new) }
{
    let asked: GraphAsked = read_only(alloc, Key::Planarize, reader)?;
    if asked.seconds.is_some() {
        drop(asked);
        return None;
    }
    Some(Request::Planarize(asked))
}

/// An object that is next, and asks by its one key.
#[tactic(auto, using(crate::proofs::TokenRequests::open_asked, crate::proofs::TokenRequests::reopen_asked))]
pub fn token_keyed(alloc: Global, reader: &mut TokenReader<'_>) -> Option<Request>
    ensures { IfSome result (λ request. Spells 7 keyed_form reader.old request reader.new) }
{
    let begins = reader.copy();
    if let Some(opening) = read_only(alloc, Key::Open, reader) {
        return Some(Request::Open(opening));
    }
    *reader = begins.copy();
    if let Some(report) = read_only(alloc, Key::Reopen, reader) {
        return Some(Request::Reopen(report));
    }
    *reader = begins;
    token_planarize(alloc, reader)
}

impl FromTokens for Request {
    ghost form = { request_form };

    ghost nesting = { 7 };

    fn from_tokens(alloc: Global, reader: &mut TokenReader<'_>) -> Option<Self> {
        if reader.is_at(b'"') {
            return token_word(reader);
        }
        if !reader.is_at(b'[') {
            return token_keyed(alloc, reader);
        }
        reader.begin_array()?;
        let word = reader.next_text()?;
        let begins = reader.copy();
        if let Some(command) = command_after(alloc, word, reader) {
            return Some(Request::Carry(command));
        }
        *reader = begins;
        asked_after(alloc, word, reader)
    }
}
