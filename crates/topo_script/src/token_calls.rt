//! Calls, read from the tokens of a text.

ghost use Rattle.std.specs.Prelude.{IfSome};
ghost use Rattle.topo_script.specs.CallForms.{call_form};
ghost use Rattle.topo_script.specs.TokenParts.{SpellsCall};

use crate::lexing::bytes_are;
use crate::reader::TokenReader;
use crate::tokens::{FromTokens, last_number, last_numbers};
use std::alloc::Global;
use topo_core::calls::Call;

/// What follows the word of a call.
pub fn call_after(alloc: Global, word: &[u8], reader: &mut TokenReader<'_>) -> Option<Call>
    ensures { IfSome result (λ call. SpellsCall word.now reader.old call reader.new) }
{
    if bytes_are(word, "grow") {
        let (u, position, kind) = last_numbers(alloc, reader)?;
        Some(Call::Grow { u, position, kind })
    } else if bytes_are(word, "insert") {
        let (u, v, kind) = last_numbers(alloc, reader)?;
        Some(Call::Insert { u, v, kind })
    } else if bytes_are(word, "delete") {
        let edge = last_number(alloc, reader)?;
        Some(Call::Delete { edge })
    } else {
        None
    }
}

impl FromTokens for Call {
    ghost form = { call_form };

    ghost nesting = { 1 };

    fn from_tokens(alloc: Global, reader: &mut TokenReader<'_>) -> Option<Self> {
        reader.begin_array()?;
        let word = reader.next_text()?;
        call_after(alloc, word, reader)
    }
}
