//! The JSON form of graphs, read, and that of the pictures that show one, written, too.

ghost use Rattle.std.specs.Prelude.{◌≡◌, ◌&&◌, None, [], false, nat_le, nat_lt};
ghost use Rattle.serde_json.specs.View.{view};
ghost use Rattle.topo_script.specs.Pictures.{part_data};
ghost use Rattle.topo_core.specs.declared.rows.TheConstants.{KINDS};
ghost use Rattle.topo_script.specs.Graphs.{answer_form, edge_form, effort_form, graph_form, graph_of};
ghost use Rattle.topo_script.specs.Graphs.{part_form, some_answer, threads_form, truth_form};
ghost use Rattle.topo_script.specs.Paths.{element_of, whole};
ghost use Rattle.topo_script.specs.Reads.{Gives, all_three, list_form, member_form, member_or};
ghost use Rattle.topo_script.specs.Reads.{number_form, passes};
ghost use Rattle.topo_script.specs.Scripts.{prices_form, some_price};
ghost use Rattle.topo_script.specs.declared.fault.ScriptFault.TheVariants.{BadNumber};
ghost use Rattle.topo_graph.specs.declared.Effort.TheVariants.{Default};
ghost use Rattle.topo_script.specs.declared.graph_forms.TheConstants.{MAX_THREADS};
ghost use Rattle.topo_script.specs.declared.path.Key.TheVariants.{Edges, Effort as EffortKey, Prices};
ghost use Rattle.topo_script.specs.declared.path.Key.TheVariants.{Progress, Seconds, Seed, Start};
ghost use Rattle.topo_script.specs.declared.path.Key.TheVariants.{Threads, Vertices};

use crate::fault::ScriptFault;
use crate::form::{
    Form, check_count, check_keys, has_key, is_text, read_elements, read_member, read_member_or,
    read_three, read_two, read_value,
};
use crate::graphs::{GraphAsked, GraphStart};
use crate::keys::{ANSWER_KEYS, GRAPH_KEYS, PART_KEYS};
use crate::path::{JsonPath, Key};
use crate::prices::read_some_price;
use crate::row_forms::MAX_PICTURE_BYTES;
use crate::script_forms::{read_nulls, read_prices_or_none};
use crate::tokens::read_tokens;
use crate::written::{Written, write_after};
use serde_json::Value;
use std::alloc::{AllocError, Global};
use topo_core::listed::Listed;
use topo_core::rows::KINDS;
use topo_graph::{Effort, GraphEdge, Part};

/// The greatest number of searches side by side.
pub(crate) const MAX_THREADS: u32 = 16;

/// Tests that the kind of the edge at a path is one.
fn check_kind(path: JsonPath, kind: u32) -> Result<(), ScriptFault>
    ensures { result ≡ passes (BadNumber (element_of path 2)) (nat_lt kind KINDS) }
{
    if (kind as usize) < KINDS {
        Ok(())
    } else {
        Err(ScriptFault::BadNumber(path.element(2)))
    }
}

impl Form for GraphEdge {
    ghost form = { edge_form };

    fn read(alloc: Global, path: JsonPath, value: &Value) -> Result<Self, ScriptFault> {
        check_count(path, 3, value)?;
        let (a, b, kind) = read_elements(alloc, path, 0, value)?;
        check_kind(path, kind)?;
        Ok(GraphEdge { a, b, kind })
    }
}

impl Form for Effort {
    ghost form = { effort_form };

    #[tactic(auto, unfolding(crate::specs::Graphs::effort_form))]
    fn read(_alloc: Global, path: JsonPath, value: &Value) -> Result<Self, ScriptFault> {
        if is_text("quick", value) {
            Ok(Effort::Quick)
        } else if is_text("default", value) {
            Ok(Effort::Default)
        } else if is_text("thorough", value) {
            Ok(Effort::Thorough)
        } else {
            Err(ScriptFault::BadShape(path))
        }
    }
}

impl Form for Option<u32> {
    ghost form = { some_price };

    fn read(alloc: Global, path: JsonPath, value: &Value) -> Result<Self, ScriptFault> {
        read_some_price(alloc, path, value)
    }
}

impl Form for bool {
    ghost form = { truth_form };

    #[tactic(auto, unfolding(crate::specs::Graphs::truth_form))]
    fn read(_alloc: Global, path: JsonPath, value: &Value) -> Result<Self, ScriptFault> {
        match value.as_bool() {
            Some(truth) => Ok(truth),
            None => Err(ScriptFault::BadShape(path)),
        }
    }
}

/// Tests that there are 1 to 16 searches.
fn check_threads(path: JsonPath, threads: u32) -> Result<(), ScriptFault>
    ensures { result ≡ passes (BadNumber path) (nat_lt 0 threads && nat_le threads MAX_THREADS) }
{
    if 0 < threads && threads <= MAX_THREADS {
        Ok(())
    } else {
        Err(ScriptFault::BadNumber(path))
    }
}

/// How many searches there are side by side.
fn read_threads(alloc: Global, path: JsonPath, value: &Value) -> Result<u32, ScriptFault>
    ensures { Gives result (threads_form path (view value.now)) }
{
    let threads = u32::read(alloc, path, value)?;
    check_threads(path, threads)?;
    Ok(threads)
}

/// How many searches a graph's text says that there are.
fn read_threads_member(alloc: Global, value: &Value) -> Result<u32, ScriptFault>
    ensures { Gives result (member_form threads_form whole Threads (view value.now)) }
{
    let path = JsonPath::WHOLE.member(Key::Threads);
    match value.get(Key::Threads.name()) {
        Some(threads) => read_threads(alloc, path, threads),
        None => Err(ScriptFault::BadShape(path)),
    }
}

/// How many searches there are: 1 where a graph's text does not say it.
fn read_threads_or_one(alloc: Global, value: &Value) -> Result<u32, ScriptFault>
    ensures { Gives result (member_or 1 threads_form whole Threads (view value.now)) }
{
    if has_key(Key::Threads, value) {
        read_threads_member(alloc, value)
    } else {
        Ok(1)
    }
}

impl Form for Part {
    ghost form = { part_form };

    fn read(alloc: Global, path: JsonPath, value: &Value) -> Result<Self, ScriptFault> {
        check_keys(path, &PART_KEYS, value)?;
        let (edges, rows, vertices) = read_three(
            alloc,
            path,
            Key::Edges,
            Key::Picture,
            Key::Vertices,
            value,
        )?;
        Ok(Part {
            rows,
            vertices,
            edges,
        })
    }
}

impl Written for Part {
    ghost value = { part_data };

    fn write(&self, out: &mut String) -> Result<(), AllocError> {
        write_after(out, "{\"edges\":", &self.edges)?;
        write_after(out, ",\"picture\":", &self.rows)?;
        write_after(out, ",\"vertices\":", &self.vertices)?;
        out.push('}')
    }
}

impl Form for GraphStart {
    ghost form = { answer_form };

    fn read(alloc: Global, path: JsonPath, value: &Value) -> Result<Self, ScriptFault> {
        check_keys(path, &ANSWER_KEYS, value)?;
        let (lonely, parts) = read_two(alloc, path, Key::Lonely, Key::Parts, value)?;
        Ok(GraphStart { parts, lonely })
    }
}

impl Form for Option<GraphStart> {
    ghost form = { some_answer };

    fn read(alloc: Global, path: JsonPath, value: &Value) -> Result<Self, ScriptFault> {
        let start = GraphStart::read(alloc, path, value)?;
        Ok(Some(start))
    }
}

/// The edges, how long is searched, and the prices.
fn read_head(
    alloc: Global,
    nulls: bool,
    value: &Value,
) -> Result<(Listed<GraphEdge>, Effort, Listed<Option<u32>>), ScriptFault>
    ensures { Gives result (all_three
        (member_form (list_form edge_form) whole Edges (view value.now))
        (member_or Default effort_form whole EffortKey (view value.now))
        (member_or [] (prices_form nulls) whole Prices (view value.now))) }
{
    let edges = read_member(alloc, JsonPath::WHOLE, Key::Edges, value)?;
    let effort = read_member_or(alloc, JsonPath::WHOLE, Key::Effort, value, Effort::Default)?;
    let prices = read_prices_or_none(alloc, JsonPath::WHOLE, nulls, value)?;
    Ok((edges, effort, prices))
}

/// Whether it says how far it is, the seconds and the seed.
fn read_terms(alloc: Global, value: &Value) -> Result<(bool, Option<u32>, u32), ScriptFault>
    ensures { Gives result (all_three
        (member_or false truth_form whole Progress (view value.now))
        (member_or None some_price whole Seconds (view value.now))
        (member_or 1 number_form whole Seed (view value.now))) }
{
    let progress = read_member_or(alloc, JsonPath::WHOLE, Key::Progress, value, false)?;
    let seconds = read_member_or(alloc, JsonPath::WHOLE, Key::Seconds, value, None)?;
    let seed = read_member_or(alloc, JsonPath::WHOLE, Key::Seed, value, 1)?;
    Ok((progress, seconds, seed))
}

/// What it begins with, how many searches there are, and the number of vertices.
fn read_tail(alloc: Global, value: &Value) -> Result<(Option<GraphStart>, u32, u32), ScriptFault>
    ensures { Gives result (all_three
        (member_or None some_answer whole Start (view value.now))
        (member_or 1 threads_form whole Threads (view value.now))
        (member_form number_form whole Vertices (view value.now))) }
{
    let start = read_member_or(alloc, JsonPath::WHOLE, Key::Start, value, None)?;
    let threads = read_threads_or_one(alloc, value)?;
    let vertices = read_member(alloc, JsonPath::WHOLE, Key::Vertices, value)?;
    Ok((start, threads, vertices))
}

impl Form for GraphAsked {
    ghost form = { λ path. graph_form };

    // It stands nowhere but at the whole of a text.
    fn read(alloc: Global, _path: JsonPath, value: &Value) -> Result<Self, ScriptFault> {
        let nulls = read_nulls(alloc, JsonPath::WHOLE, value)?;
        check_keys(JsonPath::WHOLE, &GRAPH_KEYS, value)?;
        let (edges, effort, prices) = read_head(alloc, nulls, value)?;
        let (progress, seconds, seed) = read_terms(alloc, value)?;
        let (start, threads, vertices) = read_tail(alloc, value)?;
        Ok(GraphAsked {
            vertices,
            edges,
            prices,
            effort,
            progress,
            seconds,
            seed,
            start,
            threads,
        })
    }
}

/// The graph that bytes spell, and what is asked of it.
pub fn read_graph(alloc: Global, bytes: &[u8]) -> Result<GraphAsked, ScriptFault>
    ensures { Gives result (graph_of bytes.now) }
{
    match read_tokens(alloc, MAX_PICTURE_BYTES, bytes) {
        Some(graph) => Ok(graph),
        None => read_value(alloc, MAX_PICTURE_BYTES, bytes),
    }
}
