//! Histories, read from the tokens of a text.

ghost use Rattle.std.specs.Prelude.{◌≡◌, IfSome, Ok, codes};
ghost use Rattle.serde_json.specs.Data.{array, item, no_items, number as number_data};
ghost use Rattle.serde_json.specs.Data.{string as string_data, unsigned};
ghost use Rattle.topo_script.specs.declared.path.JsonPath.{JsonPath};
ghost use Rattle.topo_script.specs.ReplyForms.{way_form, dart_form, refusal_form};
ghost use Rattle.topo_script.specs.ReplyForms.{reply_form, entry_form};
ghost use Rattle.topo_script.specs.Tokens.{Spells};
ghost use Rattle.topo_script.specs.TokenParts.{SpellsRefusal};

use crate::keys::{ENTRY_KEYS, GROWN_KEYS, INSERTED_KEYS};
use crate::lexing::bytes_are;
use crate::path::Key;
use crate::reader::TokenReader;
use crate::slots::{NoSlot, Slot, read_object, read_only};
use crate::tokens::{FromTokens, last_number};
use std::alloc::Global;
use topo_core::calls::{Call, Entry, Refusal, Reply};
use topo_core::darts::{Dart, Way};
use topo_core::ids::{EdgeId, VertexId};
use topo_core::listed::Listed;
use topo_core::routes::{Inserted, Route};

impl FromTokens for Way {
    ghost form = { way_form };

    ghost nesting = { 0 };

    fn from_tokens(_alloc: Global, reader: &mut TokenReader<'_>) -> Option<Self> {
        let text = reader.next_text()?;
        if bytes_are(text, "forward") {
            Some(Way::Forward)
        } else if bytes_are(text, "back") {
            Some(Way::Back)
        } else {
            None
        }
    }
}

impl FromTokens for Dart {
    ghost form = { dart_form };

    ghost nesting = { 1 };

    fn from_tokens(alloc: Global, reader: &mut TokenReader<'_>) -> Option<Self> {
        reader.begin_array()?;
        let edge = EdgeId::from_tokens(alloc, reader)?;
        let seg = u32::from_tokens(alloc, reader)?;
        let way = Way::from_tokens(alloc, reader)?;
        reader.end_array()?;
        Some(Dart { edge, seg, way })
    }
}

/// A refusal without a segment, and its name.
#[tactic(auto, unfolding(crate::specs::ReplyForms::plain_refusal))]
fn refusal_of(number: u64) -> Option<(&'static str, Refusal)>
    ensures { IfSome result
        (λ named. (path : JsonPath)
        → refusal_form path (array (item (number_data (unsigned number))
        (item (string_data named.0.now) no_items))) ≡ Ok named.1) }
{
    match number {
        1 => Some(("NoVertex", Refusal::NoVertex)),
        2 => Some(("SameEnds", Refusal::SameEnds)),
        3 => Some(("NoPosition", Refusal::NoPosition)),
        4 => Some(("NoEdge", Refusal::NoEdge)),
        5 => Some(("BadKind", Refusal::BadKind)),
        7 => Some(("Full", Refusal::Full)),
        9 => Some(("NoRoute", Refusal::NoRoute)),
        _ => None,
    }
}

/// What follows the number and the name of a refusal without a segment.
fn token_plain(number: u64, name: &[u8], reader: &mut TokenReader<'_>) -> Option<Refusal>
    ensures { IfSome result (λ why. SpellsRefusal number name.now reader.old why reader.new) }
{
    let (text, why) = refusal_of(number)?;
    if !bytes_are(name, text) {
        return None;
    }
    reader.end_array()?;
    Some(why)
}

/// What follows the number and the name of a refusal with a segment.
fn token_cut(alloc: Global, reader: &mut TokenReader<'_>) -> Option<Refusal>
    ensures { IfSome result (λ why. SpellsRefusal 6 (codes "Cut") reader.old why reader.new) }
{
    let segment = last_number(alloc, reader)?;
    Some(Refusal::Cut(segment))
}

/// What follows the number and the name of a refusal.
fn token_why(
    alloc: Global,
    number: u64,
    name: &[u8],
    reader: &mut TokenReader<'_>,
) -> Option<Refusal>
    ensures { IfSome result (λ why. SpellsRefusal number name.now reader.old why reader.new) }
{
    if number == 6 && bytes_are(name, "Cut") {
        token_cut(alloc, reader)
    } else {
        token_plain(number, name, reader)
    }
}

impl FromTokens for Refusal {
    ghost form = { refusal_form };

    ghost nesting = { 1 };

    fn from_tokens(alloc: Global, reader: &mut TokenReader<'_>) -> Option<Self> {
        reader.begin_array()?;
        let number = reader.next_number()?;
        let name = reader.next_text()?;
        token_why(alloc, number, name, reader)
    }
}

/// The slots of a growth, in the order of its keys.
type GrownSlots = Slot<EdgeId, Slot<VertexId, NoSlot>>;

/// A growth that is next.
fn token_grown(alloc: Global, reader: &mut TokenReader<'_>) -> Option<Reply>
    ensures { IfSome result (λ reply. Spells 3 reply_form reader.old reply reader.new) }
{
    let slots: GrownSlots = read_object(alloc, &GROWN_KEYS, reader)?;
    let (edge, slots) = slots.due()?;
    let (vertex, _slots) = slots.due()?;
    Some(Reply::Grown { vertex, edge })
}

/// The slots of an insertion, in the order of its keys.
type InsertedSlots = Slot<Listed<Dart>, Slot<EdgeId, Slot<u32, Slot<u64, Slot<u32, NoSlot>>>>>;

/// An insertion that is next.
fn token_inserted(alloc: Global, reader: &mut TokenReader<'_>) -> Option<Reply>
    ensures { IfSome result (λ reply. Spells 3 reply_form reader.old reply reader.new) }
{
    let slots: InsertedSlots = read_object(alloc, &INSERTED_KEYS, reader)?;
    let (crossed, id, end, slots) = slots.three_due()?;
    let (price, slots) = slots.due()?;
    let (start, _slots) = slots.due()?;
    let route = Route {
        start,
        crossed,
        end,
    };
    Some(Reply::Inserted(Inserted { id, route, price }))
}

impl FromTokens for Reply {
    ghost form = { reply_form };

    ghost nesting = { 3 };

    // One of another kind is seen by its first key, or by its second.
    #[tactic(auto, using(crate::proofs::TokenReplies::deleted_tokens, crate::proofs::TokenReplies::refused_tokens))]
    fn from_tokens(alloc: Global, reader: &mut TokenReader<'_>) -> Option<Self> {
        let begins = reader.copy();
        if let Some(grown) = token_grown(alloc, reader) {
            return Some(grown);
        }
        *reader = begins.copy();
        if let Some(inserted) = token_inserted(alloc, reader) {
            return Some(inserted);
        }
        *reader = begins.copy();
        if let Some(edge) = read_only(alloc, Key::Deleted, reader) {
            return Some(Reply::Deleted(edge));
        }
        *reader = begins;
        let why = read_only(alloc, Key::Refused, reader)?;
        Some(Reply::Refused(why))
    }
}

/// The slots of an entry, in the order of its keys.
type EntrySlots = Slot<Call, Slot<u32, Slot<Reply, NoSlot>>>;

impl FromTokens for Entry {
    ghost form = { entry_form };

    ghost nesting = { 4 };

    fn from_tokens(alloc: Global, reader: &mut TokenReader<'_>) -> Option<Self> {
        let slots: EntrySlots = read_object(alloc, &ENTRY_KEYS, reader)?;
        let (call, caller, reply, _slots) = slots.three_due()?;
        Some(Entry {
            caller,
            call,
            reply,
        })
    }
}
