//! Scripts, read from the tokens of a text.

ghost use Rattle.std.specs.Prelude.{◌∷◌, IfSome, codes};
ghost use Rattle.json.specs.Token.{begin_array, string};
ghost use Rattle.topo_script.specs.CallForms.{command_form};
ghost use Rattle.topo_script.specs.Scripts.{script_form, start_form};
ghost use Rattle.topo_script.specs.Tokens.{Spells};

use crate::keys::SCRIPT_KEYS;
use crate::lexing::bytes_are;
use crate::reader::TokenReader;
use crate::script_forms::MAX_WORKERS;
use crate::scripts::Script;
use crate::slots::{NoSlot, Slot, read_object};
use crate::token_calls::call_after;
use crate::token_settings::{SettingsSlots, settings_due};
use crate::tokens::{FromTokens, last_numbers};
use std::alloc::Global;
use topo_core::calls::Command;
use topo_core::listed::Listed;
use topo_core::rows::Rows;

/// What follows the word of a planned insertion.
fn token_planned(alloc: Global, reader: &mut TokenReader<'_>) -> Option<Command>
    ensures { IfSome result (λ command. Spells 1 command_form
        (begin_array ∷ string (codes "planned") ∷ reader.old) command reader.new) }
{
    let (u, v, kind) = last_numbers(alloc, reader)?;
    Some(Command::Planned { u, v, kind })
}

/// What follows the word of a call.
fn token_plain(alloc: Global, word: &[u8], reader: &mut TokenReader<'_>) -> Option<Command>
    ensures { IfSome result (λ command. Spells 1 command_form
        (begin_array ∷ string word.now ∷ reader.old) command reader.new) }
{
    let call = call_after(alloc, word, reader)?;
    Some(Command::Plain(call))
}

/// What follows the word of a command.
pub fn command_after(alloc: Global, word: &[u8], reader: &mut TokenReader<'_>) -> Option<Command>
    ensures { IfSome result (λ command. Spells 1 command_form
        (begin_array ∷ string word.now ∷ reader.old) command reader.new) }
{
    if bytes_are(word, "planned") {
        token_planned(alloc, reader)
    } else {
        token_plain(alloc, word, reader)
    }
}

impl FromTokens for Command {
    ghost form = { command_form };

    ghost nesting = { 1 };

    fn from_tokens(alloc: Global, reader: &mut TokenReader<'_>) -> Option<Self> {
        reader.begin_array()?;
        let word = reader.next_text()?;
        command_after(alloc, word, reader)
    }
}

/// The word for the start that no script need spell.
fn token_seed(reader: &mut TokenReader<'_>) -> Option<Option<Rows>>
    ensures { IfSome result (λ start. Spells 4 start_form reader.old start reader.new) }
{
    let text = reader.next_text()?;
    if bytes_are(text, "seed") {
        Some(None)
    } else {
        None
    }
}

impl FromTokens for Option<Rows> {
    ghost form = { start_form };

    ghost nesting = { 4 };

    fn from_tokens(alloc: Global, reader: &mut TokenReader<'_>) -> Option<Self> {
        if reader.is_at(b'"') {
            token_seed(reader)
        } else {
            let rows = Rows::from_tokens(alloc, reader)?;
            Some(Some(rows))
        }
    }
}

/// The slots of a script, in the order of its keys.
type ScriptSlots = SettingsSlots<Slot<Listed<Listed<Command>>, NoSlot>>;

impl FromTokens for Script {
    ghost form = { λ path. script_form };

    ghost nesting = { 5 };

    fn from_tokens(alloc: Global, reader: &mut TokenReader<'_>) -> Option<Self> {
        let slots: ScriptSlots = read_object(alloc, &SCRIPT_KEYS, reader)?;
        let (opening, slots) = settings_due(alloc, slots)?;
        let (workers, _slots) = slots.due()?;
        if workers.len() == 0 || workers.len() > MAX_WORKERS {
            return None;
        }
        Some(Script {
            limits: opening.limits,
            prices: opening.prices,
            start: opening.start,
            workers,
        })
    }
}
