//! Calls and their replies, read from their JSON forms.

ghost use Rattle.std.specs.Prelude.{◌≡◌};
ghost use Rattle.serde_json.specs.View.{view};
ghost use Rattle.topo_script.specs.Reads.{Gives};
ghost use Rattle.topo_script.specs.CallForms.{begins, call_form, grow_form, insert_form};
ghost use Rattle.topo_script.specs.CallForms.{delete_form, command_form, planned_form, plain_form};

use crate::fault::ScriptFault;
use crate::form::{Form, element_count, is_text, read_element, read_elements};
use crate::path::JsonPath;
use serde_json::Value;
use std::alloc::Global;
use topo_core::calls::{Call, Command};

/// Whether a value is an array of so many elements that begins with a word.
pub(crate) fn begins(word: &str, count: usize, value: &Value) -> bool
    ensures { result ≡ begins word.now count (view value.now) }
{
    if element_count(value) != count {
        return false;
    }
    match value.get(0) {
        Some(first) => is_text(word, first),
        None => false,
    }
}

fn read_grow(alloc: Global, path: JsonPath, value: &Value) -> Result<Call, ScriptFault>
    ensures { Gives result (grow_form path (view value.now)) }
{
    let (u, position, kind) = read_elements(alloc, path, 1, value)?;
    Ok(Call::Grow { u, position, kind })
}

fn read_insert(alloc: Global, path: JsonPath, value: &Value) -> Result<Call, ScriptFault>
    ensures { Gives result (insert_form path (view value.now)) }
{
    let (u, v, kind) = read_elements(alloc, path, 1, value)?;
    Ok(Call::Insert { u, v, kind })
}

fn read_delete(alloc: Global, path: JsonPath, value: &Value) -> Result<Call, ScriptFault>
    ensures { Gives result (delete_form path (view value.now)) }
{
    let edge = read_element(alloc, path, 1, value)?;
    Ok(Call::Delete { edge })
}

fn read_planned(alloc: Global, path: JsonPath, value: &Value) -> Result<Command, ScriptFault>
    ensures { Gives result (planned_form path (view value.now)) }
{
    let (u, v, kind) = read_elements(alloc, path, 1, value)?;
    Ok(Command::Planned { u, v, kind })
}

impl Form for Call {
    ghost form = { call_form };

    #[tactic(auto, unfolding(crate::specs::CallForms::call_form))]
    fn read(alloc: Global, path: JsonPath, value: &Value) -> Result<Self, ScriptFault> {
        if begins("grow", 4, value) {
            read_grow(alloc, path, value)
        } else if begins("insert", 4, value) {
            read_insert(alloc, path, value)
        } else if begins("delete", 2, value) {
            read_delete(alloc, path, value)
        } else {
            Err(ScriptFault::BadShape(path))
        }
    }
}

fn read_plain(alloc: Global, path: JsonPath, value: &Value) -> Result<Command, ScriptFault>
    ensures { Gives result (plain_form path (view value.now)) }
{
    let call = Call::read(alloc, path, value)?;
    Ok(Command::Plain(call))
}

impl Form for Command {
    ghost form = { command_form };

    #[tactic(auto, unfolding(crate::specs::CallForms::command_form))]
    fn read(alloc: Global, path: JsonPath, value: &Value) -> Result<Self, ScriptFault> {
        if begins("planned", 4, value) {
            read_planned(alloc, path, value)
        } else {
            read_plain(alloc, path, value)
        }
    }
}
