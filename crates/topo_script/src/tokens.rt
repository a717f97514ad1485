//! Forms read from the tokens of a text, without a tree of values.

ghost use Rattle.std.specs.Prelude.{◌≡◌, ◌+◌, ◌<◌, ◌^◌, IfSome, IsTrue};
ghost use Rattle.std.specs.Str.{IsUtf8};
ghost use Rattle.topo_script.specs.Reads.{number_form, long_form, list_form};
ghost use Rattle.topo_script.specs.Tokens.{Spells, SpellsItems, SpellsNumber};
ghost use Rattle.topo_script.specs.Tokens.{SpellsLast, SpellsNumbers, SpellsText};

use crate::reader::TokenReader;
use std::alloc::Global;
use topo_core::ids::{EdgeId, VertexId};
use topo_core::listed::Listed;

/// A type whose form can be read from tokens, as our own writer writes them, but for the order of
/// keys: numbers as digits, and texts with no escape. Nothing is read from other tokens, though
/// they may spell the form too. Its `nesting` says how deep the arrays and objects of the form nest
/// at most.
pub trait FromTokens: Drop {
    ghost use Rattle.std.specs.Prelude.{ℕ};
    ghost use Rattle.serde_json.specs.Data.{Data};
    ghost use Rattle.topo_script.specs.declared.path.JsonPath.{JsonPath};
    ghost use Rattle.topo_script.specs.Reads.{Read};
    ghost use Rattle.topo_script.specs.Tokens.{Spells};

    ghost form: { JsonPath → Data → Read Self };

    ghost nesting: { ℕ };

    /// What the next tokens spell, if they spell it as our writer writes.
    fn from_tokens(alloc: Global, reader: &mut TokenReader<'_>) -> Option<Self>
        ensures { IfSome result (λ a. Spells Self.nesting Self.form reader.old a reader.new) };
}

/// A number of 64 bits as one of 32.
fn short(number: u64) -> Option<u32>
    ensures { IfSome result (λ n. (n ≡ number) × (n < 2 ^ 32)) }
{
    u32::try_from(number).ok()
}

impl FromTokens for u32 {
    ghost form = { number_form };

    ghost nesting = { 0 };

    fn from_tokens(_alloc: Global, reader: &mut TokenReader<'_>) -> Option<Self> {
        let number = reader.next_number()?;
        short(number)
    }
}

impl FromTokens for u64 {
    ghost form = { long_form };

    ghost nesting = { 0 };

    fn from_tokens(_alloc: Global, reader: &mut TokenReader<'_>) -> Option<Self> {
        let number = reader.next_number()?;
        Some(number)
    }
}

impl FromTokens for EdgeId {
    ghost form = { number_form };

    ghost nesting = { 0 };

    fn from_tokens(alloc: Global, reader: &mut TokenReader<'_>) -> Option<Self> {
        let number = u32::from_tokens(alloc, reader)?;
        Some(EdgeId::new(number))
    }
}

impl FromTokens for VertexId {
    ghost form = { number_form };

    ghost nesting = { 0 };

    fn from_tokens(alloc: Global, reader: &mut TokenReader<'_>) -> Option<Self> {
        let number = u32::from_tokens(alloc, reader)?;
        Some(VertexId::new(number))
    }
}

impl<T: FromTokens> FromTokens for Listed<T> {
    ghost form = { list_form T.form };

    ghost nesting = { T.nesting + 1 };

    fn from_tokens(alloc: Global, reader: &mut TokenReader<'_>) -> Option<Self> {
        reader.begin_array()?;
        token_items(alloc, reader)
    }
}

/// What the elements up to the end of an array spell.
fn token_items<T: FromTokens>(alloc: Global, reader: &mut TokenReader<'_>) -> Option<Listed<T>>
    ensures { IfSome result (λ xs. SpellsItems T.nesting T.form reader.old xs reader.new) }
{
    let mut found = Vec::new(alloc);
    'items: while !reader.take_end_array() {
        let item = T::from_tokens(alloc, reader)?;
        if found.push(item).is_err() {
            return None;
        }
    }
    Some(Listed::from_vec(found))
}

/// The one number that the tokens up to the end of an array spell.
pub fn last_number(alloc: Global, reader: &mut TokenReader<'_>) -> Option<u32>
    ensures { IfSome result (λ n. SpellsLast reader.old n reader.new) }
{
    let number = u32::from_tokens(alloc, reader)?;
    reader.end_array()?;
    Some(number)
}

/// The three numbers that the tokens up to the end of an array spell.
pub fn last_numbers(alloc: Global, reader: &mut TokenReader<'_>) -> Option<(u32, u32, u32)>
    ensures { IfSome result (λ found. SpellsNumbers reader.old found.0 found.1 found.2 reader.new) }
{
    let a = u32::from_tokens(alloc, reader)?;
    let b = u32::from_tokens(alloc, reader)?;
    let c = u32::from_tokens(alloc, reader)?;
    reader.end_array()?;
    Some((a, b, c))
}

/// Whether bytes are a text. A line with a command is short, and is tested at once.
#[inline(always)]
fn is_utf8(bytes: &[u8]) -> bool
    ensures { IsTrue result → IsUtf8 bytes.now }
{
    if bytes.len() < 64 {
        std::str::from_utf8(bytes).is_ok()
    } else {
        simdutf8::basic::from_utf8(bytes).is_ok()
    }
}

/// What a whole text of at most `limit` bytes spells.
#[inline(always)]
pub fn read_tokens<T: FromTokens>(alloc: Global, limit: usize, bytes: &[u8]) -> Option<T>
    ensures { IfSome result (λ a. SpellsText T.nesting T.form limit bytes.now a) }
{
    if bytes.len() > limit {
        return None;
    }
    let mut reader = TokenReader::new(bytes);
    let found = T::from_tokens(alloc, &mut reader)?;
    if reader.is_at_end() && is_utf8(bytes) {
        Some(found)
    } else {
        None
    }
}
