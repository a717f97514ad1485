//! Lines of sessions that are objects, read from the tokens of a text.

ghost use Rattle.std.specs.Prelude.{IfSome};
ghost use Rattle.topo_script.specs.Sessions.{object_line, some_id};
ghost use Rattle.topo_script.specs.Tokens.{Spells};

use crate::keys::ENVELOPE_KEYS;
use crate::lines::{Asked, Frame, GREATEST_CALLER, Line, LineId, bare_line, read_text_id};
use crate::path::JsonPath;
use crate::reader::TokenReader;
use crate::sessions::Request;
use crate::slots::{NoSlot, Slot, read_object};
use crate::token_requests::token_keyed;
use crate::tokens::FromTokens;
use std::alloc::Global;

/// An id that is next, and a text.
fn token_text_id(alloc: Global, reader: &mut TokenReader<'_>) -> Option<Option<LineId>>
    ensures { IfSome result (λ id. Spells 0 some_id reader.old id reader.new) }
{
    let bytes = reader.next_text()?;
    let text = std::str::from_utf8(bytes).ok()?;
    match read_text_id(alloc, JsonPath::WHOLE, text) {
        Ok(id) => Some(Some(id)),
        Err(_) => None,
    }
}

/// An id that is next, and a number.
fn token_number_id(alloc: Global, reader: &mut TokenReader<'_>) -> Option<Option<LineId>>
    ensures { IfSome result (λ id. Spells 0 some_id reader.old id reader.new) }
{
    let number = u32::from_tokens(alloc, reader)?;
    Some(Some(LineId::Number(number)))
}

impl FromTokens for Option<LineId> {
    ghost form = { some_id };

    ghost nesting = { 0 };

    fn from_tokens(alloc: Global, reader: &mut TokenReader<'_>) -> Option<Self> {
        if reader.is_at(b'"') {
            token_text_id(alloc, reader)
        } else {
            token_number_id(alloc, reader)
        }
    }
}

/// The slots of an envelope, in the order of its keys.
type EnvelopeSlots = Slot<Request, Slot<u32, Slot<Option<LineId>, NoSlot>>>;

/// An envelope that is next.
fn token_envelope(alloc: Global, reader: &mut TokenReader<'_>) -> Option<Line>
    ensures { IfSome result (λ line. Spells 8 (λ path. object_line) reader.old line reader.new) }
{
    let slots: EnvelopeSlots = read_object(alloc, &ENVELOPE_KEYS, reader)?;
    let (request, slots) = slots.due()?;
    let (caller, slots) = slots.maybe();
    let (id, _slots) = slots.maybe();
    let caller = caller.unwrap_or(0);
    if u64::from(caller) > GREATEST_CALLER {
        drop(request);
        return None;
    }
    Some(Line {
        frame: Frame::Envelope(id.unwrap_or(None)),
        asked: Ok(Asked { caller, request }),
    })
}

/// A line without an envelope that is next, and an object.
fn token_bare(alloc: Global, reader: &mut TokenReader<'_>) -> Option<Line>
    ensures { IfSome result (λ line. Spells 8 (λ path. object_line) reader.old line reader.new) }
{
    let request = token_keyed(alloc, reader)?;
    Some(bare_line(request))
}

impl FromTokens for Line {
    ghost form = { λ path. object_line };

    ghost nesting = { 8 };

    // One of another kind is seen by its first key.
    fn from_tokens(alloc: Global, reader: &mut TokenReader<'_>) -> Option<Self> {
        let begins = reader.copy();
        if let Some(line) = token_envelope(alloc, reader) {
            return Some(line);
        }
        *reader = begins;
        token_bare(alloc, reader)
    }
}
