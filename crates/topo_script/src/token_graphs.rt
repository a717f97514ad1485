//! Graphs, read from the tokens of a text.

ghost use Rattle.topo_script.specs.Graphs.{edge_form, effort_form, graph_form};
ghost use Rattle.topo_script.specs.TokenParts.{unread_form};

use crate::graph_forms::MAX_THREADS;
use crate::graphs::GraphAsked;
use crate::keys::GRAPH_KEYS;
use crate::lexing::bytes_are;
use crate::reader::TokenReader;
use crate::slots::{NoSlot, Slot, read_object};
use crate::token_reports::kept_prices;
use crate::tokens::{FromTokens, last_numbers};
use std::alloc::Global;
use topo_core::listed::Listed;
use topo_core::rows::KINDS;
use topo_graph::{Effort, GraphEdge};

impl FromTokens for GraphEdge {
    ghost form = { edge_form };

    ghost nesting = { 1 };

    fn from_tokens(alloc: Global, reader: &mut TokenReader<'_>) -> Option<Self> {
        reader.begin_array()?;
        let (a, b, kind) = last_numbers(alloc, reader)?;
        if (kind as usize) < KINDS {
            Some(GraphEdge { a, b, kind })
        } else {
            None
        }
    }
}

impl FromTokens for Effort {
    ghost form = { effort_form };

    ghost nesting = { 0 };

    fn from_tokens(_alloc: Global, reader: &mut TokenReader<'_>) -> Option<Self> {
        let text = reader.next_text()?;
        if bytes_are(text, "quick") {
            Some(Effort::Quick)
        } else if bytes_are(text, "default") {
            Some(Effort::Default)
        } else if bytes_are(text, "thorough") {
            Some(Effort::Thorough)
        } else {
            None
        }
    }
}

/// What no member is read as: a text with a member for a slot of this type is read by way of its
/// value.
#[derive(Drop)]
struct Unread {}

impl FromTokens for Unread {
    ghost form = { unread_form };

    ghost nesting = { 0 };

    fn from_tokens(_alloc: Global, _reader: &mut TokenReader<'_>) -> Option<Self> {
        None
    }
}

/// The slots of a graph behind its prices, in the order of its keys. One that tells how far it is, or
/// that begins with pictures, is read by way of its value.
type TermSlots = Slot<
    Unread,
    Slot<u32, Slot<u32, Slot<Unread, Slot<u32, Slot<u32, Slot<u32, NoSlot>>>>>>,
>;

/// The slots of a graph, in the order of its keys.
type GraphSlots = Slot<Listed<GraphEdge>, Slot<Effort, Slot<Listed<Option<u32>>, TermSlots>>>;

impl FromTokens for GraphAsked {
    ghost form = { λ path. graph_form };

    ghost nesting = { 3 };

    fn from_tokens(alloc: Global, reader: &mut TokenReader<'_>) -> Option<Self> {
        let slots: GraphSlots = read_object(alloc, &GRAPH_KEYS, reader)?;
        let (edges, slots) = slots.due()?;
        let (effort, slots) = slots.maybe();
        let (prices, slots) = slots.maybe();
        let (_progress, slots) = slots.maybe();
        let (seconds, slots) = slots.maybe();
        let (seed, slots) = slots.maybe();
        let (_start, slots) = slots.maybe();
        let (threads, slots) = slots.maybe();
        let (version, slots) = slots.due()?;
        let (vertices, _slots) = slots.due()?;
        let prices = kept_prices(prices.unwrap_or(Listed::new(alloc)), version)?;
        let threads = threads.unwrap_or(1);
        if threads == 0 || threads > MAX_THREADS {
            return None;
        }
        Some(GraphAsked {
            vertices,
            edges,
            prices,
            effort: effort.unwrap_or(Effort::Default),
            progress: false,
            seconds,
            seed: seed.unwrap_or(1),
            start: None,
            threads,
        })
    }
}
