//! Openings of sessions, read from the tokens of a text.

ghost use Rattle.topo_script.specs.Sessions.{opening_form};

use crate::keys::OPENING_KEYS;
use crate::reader::TokenReader;
use crate::sessions::Opening;
use crate::slots::{NoSlot, read_object};
use crate::token_settings::{SettingsSlots, settings_due};
use crate::tokens::FromTokens;
use std::alloc::Global;

impl FromTokens for Opening {
    ghost form = { opening_form };

    ghost nesting = { 5 };

    fn from_tokens(alloc: Global, reader: &mut TokenReader<'_>) -> Option<Self> {
        let slots: SettingsSlots<NoSlot> = read_object(alloc, &OPENING_KEYS, reader)?;
        let (opening, _slots) = settings_due(alloc, slots)?;
        Some(opening)
    }
}
