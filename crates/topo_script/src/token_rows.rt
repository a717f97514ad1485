//! Rows, read from the tokens of a text.

ghost use Rattle.topo_script.specs.RowForms.{sign_form, edge_form, crossing_form, rows_form};

use crate::keys::{CROSSING_KEYS, EDGE_KEYS, ROWS_KEYS};
use crate::lexing::bytes_are;
use crate::reader::TokenReader;
use crate::slots::{NoSlot, Slot, read_object};
use crate::tokens::FromTokens;
use std::alloc::Global;
use topo_core::darts::Sign;
use topo_core::listed::Listed;
use topo_core::rows::{CrossRow, EdgeRow, Rows};

impl FromTokens for Sign {
    ghost form = { sign_form };

    ghost nesting = { 0 };

    fn from_tokens(_alloc: Global, reader: &mut TokenReader<'_>) -> Option<Self> {
        let text = reader.next_text()?;
        if bytes_are(text, "ltr") {
            Some(Sign::LeftToRight)
        } else if bytes_are(text, "rtl") {
            Some(Sign::RightToLeft)
        } else {
            None
        }
    }
}

/// The slots of an edge, in the order of its keys.
type EdgeSlots = Slot<u32, Slot<u32, Slot<Listed<u32>, Slot<u32, Slot<u32, NoSlot>>>>>;

impl FromTokens for EdgeRow {
    ghost form = { edge_form };

    ghost nesting = { 2 };

    fn from_tokens(alloc: Global, reader: &mut TokenReader<'_>) -> Option<Self> {
        let slots: EdgeSlots = read_object(alloc, &EDGE_KEYS, reader)?;
        let (a, b, crossings, slots) = slots.three_due()?;
        let (id, slots) = slots.due()?;
        let (kind, _slots) = slots.due()?;
        Some(EdgeRow {
            id,
            a,
            b,
            kind,
            crossings,
        })
    }
}

/// The slots of a crossing, in the order of its keys.
type CrossingSlots = Slot<u32, Slot<u32, Slot<u32, Slot<Sign, NoSlot>>>>;

impl FromTokens for CrossRow {
    ghost form = { crossing_form };

    ghost nesting = { 1 };

    fn from_tokens(alloc: Global, reader: &mut TokenReader<'_>) -> Option<Self> {
        let slots: CrossingSlots = read_object(alloc, &CROSSING_KEYS, reader)?;
        let (crossed, id, newcomer, slots) = slots.three_due()?;
        let (sign, _slots) = slots.due()?;
        Some(CrossRow {
            id,
            crossed,
            newcomer,
            sign,
        })
    }
}

/// The slots of a picture, in the order of its keys.
type RowsSlots = Slot<
    Listed<CrossRow>,
    Slot<Listed<EdgeRow>, Slot<u32, Slot<u32, Slot<Listed<Listed<u32>>, NoSlot>>>>,
>;

impl FromTokens for Rows {
    ghost form = { rows_form };

    ghost nesting = { 4 };

    fn from_tokens(alloc: Global, reader: &mut TokenReader<'_>) -> Option<Self> {
        let slots: RowsSlots = read_object(alloc, &ROWS_KEYS, reader)?;
        let (crossings, edges, next_crossing, slots) = slots.three_due()?;
        let (next_edge, slots) = slots.due()?;
        let (rotations, _slots) = slots.due()?;
        Some(Rows {
            rotations,
            edges,
            crossings,
            next_edge,
            next_crossing,
        })
    }
}
