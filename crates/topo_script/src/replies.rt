//! Histories, read from their JSON form.

ghost use Rattle.std.specs.Prelude.{◌≡◌, option_map};
ghost use Rattle.serde_json.specs.View.{view};
ghost use Rattle.topo_script.specs.Reads.{Gives, long_form};
ghost use Rattle.topo_script.specs.ReplyForms.{is_number, is_pair, way_form, dart_form};
ghost use Rattle.topo_script.specs.ReplyForms.{refusal_form, cut_form, plain_refusal};
ghost use Rattle.topo_script.specs.ReplyForms.{deleted_form, refused_form, grown_form};
ghost use Rattle.topo_script.specs.ReplyForms.{inserted_form, reply_form, entry_form};

use crate::fault::ScriptFault;
use crate::form::{
    Form, check_count, check_keys, element_count, has_key, is_text, read_element, read_elements,
    read_number, read_only_member, read_three, read_two,
};
use crate::keys::{ENTRY_KEYS, GROWN_KEYS, INSERTED_KEYS};
use crate::path::{JsonPath, Key};
use serde_json::Value;
use std::alloc::Global;
use topo_core::calls::{Entry, Refusal, Reply};
use topo_core::darts::{Dart, Way};
use topo_core::routes::{Inserted, Route};

impl Form for u64 {
    ghost form = { long_form };

    fn read(_alloc: Global, path: JsonPath, value: &Value) -> Result<Self, ScriptFault> {
        read_number(u64::MAX, path, value)
    }
}

impl Form for Way {
    ghost form = { way_form };

    #[tactic(auto, unfolding(crate::specs::ReplyForms::way_form))]
    fn read(_alloc: Global, path: JsonPath, value: &Value) -> Result<Self, ScriptFault> {
        if is_text("forward", value) {
            Ok(Way::Forward)
        } else if is_text("back", value) {
            Ok(Way::Back)
        } else {
            Err(ScriptFault::BadShape(path))
        }
    }
}

impl Form for Dart {
    ghost form = { dart_form };

    fn read(alloc: Global, path: JsonPath, value: &Value) -> Result<Self, ScriptFault> {
        check_count(path, 3, value)?;
        let (edge, seg, way) = read_elements(alloc, path, 0, value)?;
        Ok(Dart { edge, seg, way })
    }
}

/// Whether a value is there and is this number.
fn is_number(number: u64, value: Option<&Value>) -> bool
    ensures { result ≡ is_number number (option_map (λ v. view v.now) value.entry) }
{
    value.and_then(Value::as_u64) == Some(number)
}

/// Whether a value is an array of so many elements that begins with this number and this name.
fn is_pair(count: usize, number: u64, name: &str, value: &Value) -> bool
    ensures { result ≡ is_pair count number name.now (view value.now) }
{
    if element_count(value) != count || !is_number(number, value.get(0)) {
        return false;
    }
    match value.get(1) {
        Some(second) => is_text(name, second),
        None => false,
    }
}

/// The refusal without a segment that a value is.
#[tactic(auto, unfolding(crate::specs::ReplyForms::plain_refusal))]
fn plain_refusal(path: JsonPath, value: &Value) -> Result<Refusal, ScriptFault>
    ensures { result ≡ plain_refusal path (view value.now) }
{
    if is_pair(2, 1, "NoVertex", value) {
        Ok(Refusal::NoVertex)
    } else if is_pair(2, 2, "SameEnds", value) {
        Ok(Refusal::SameEnds)
    } else if is_pair(2, 3, "NoPosition", value) {
        Ok(Refusal::NoPosition)
    } else if is_pair(2, 4, "NoEdge", value) {
        Ok(Refusal::NoEdge)
    } else if is_pair(2, 5, "BadKind", value) {
        Ok(Refusal::BadKind)
    } else if is_pair(2, 7, "Full", value) {
        Ok(Refusal::Full)
    } else if is_pair(2, 9, "NoRoute", value) {
        Ok(Refusal::NoRoute)
    } else {
        Err(ScriptFault::BadShape(path))
    }
}

fn read_cut(alloc: Global, path: JsonPath, value: &Value) -> Result<Refusal, ScriptFault>
    ensures { Gives result (cut_form path (view value.now)) }
{
    let segment = read_element(alloc, path, 2, value)?;
    Ok(Refusal::Cut(segment))
}

impl Form for Refusal {
    ghost form = { refusal_form };

    #[tactic(auto, using(crate::proofs::Steps::gives_same))]
    fn read(alloc: Global, path: JsonPath, value: &Value) -> Result<Self, ScriptFault> {
        if is_pair(3, 6, "Cut", value) {
            read_cut(alloc, path, value)
        } else {
            plain_refusal(path, value)
        }
    }
}

fn read_deleted(alloc: Global, path: JsonPath, value: &Value) -> Result<Reply, ScriptFault>
    ensures { Gives result (deleted_form path (view value.now)) }
{
    let edge = read_only_member(alloc, path, Key::Deleted, value)?;
    Ok(Reply::Deleted(edge))
}

fn read_refused(alloc: Global, path: JsonPath, value: &Value) -> Result<Reply, ScriptFault>
    ensures { Gives result (refused_form path (view value.now)) }
{
    let why = read_only_member(alloc, path, Key::Refused, value)?;
    Ok(Reply::Refused(why))
}

fn read_grown(alloc: Global, path: JsonPath, value: &Value) -> Result<Reply, ScriptFault>
    ensures { Gives result (grown_form path (view value.now)) }
{
    check_keys(path, &GROWN_KEYS, value)?;
    let (edge, vertex) = read_two(alloc, path, Key::Edge, Key::Vertex, value)?;
    Ok(Reply::Grown { vertex, edge })
}

fn read_inserted(alloc: Global, path: JsonPath, value: &Value) -> Result<Reply, ScriptFault>
    ensures { Gives result (inserted_form path (view value.now)) }
{
    check_keys(path, &INSERTED_KEYS, value)?;
    let (crossed, id, end) = read_three(alloc, path, Key::Crossed, Key::Edge, Key::End, value)?;
    let (price, start) = read_two(alloc, path, Key::Price, Key::Start, value)?;
    let route = Route {
        start,
        crossed,
        end,
    };
    Ok(Reply::Inserted(Inserted { id, route, price }))
}

impl Form for Reply {
    ghost form = { reply_form };

    #[tactic(auto, unfolding(crate::specs::ReplyForms::reply_form))]
    fn read(alloc: Global, path: JsonPath, value: &Value) -> Result<Self, ScriptFault> {
        if has_key(Key::Deleted, value) {
            read_deleted(alloc, path, value)
        } else if has_key(Key::Refused, value) {
            read_refused(alloc, path, value)
        } else if has_key(Key::Crossed, value) {
            read_inserted(alloc, path, value)
        } else {
            read_grown(alloc, path, value)
        }
    }
}

impl Form for Entry {
    ghost form = { entry_form };

    fn read(alloc: Global, path: JsonPath, value: &Value) -> Result<Self, ScriptFault> {
        check_keys(path, &ENTRY_KEYS, value)?;
        let (call, caller, reply) = read_three(
            alloc,
            path,
            Key::Call,
            Key::Caller,
            Key::Reply,
            value,
        )?;
        Ok(Entry {
            caller,
            call,
            reply,
        })
    }
}
