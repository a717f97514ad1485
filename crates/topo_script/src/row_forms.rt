//! The JSON form of rows, read and written.

ghost use Rattle.std.specs.Prelude.{◌≡◌, ◌≤◌, IfOk, Ok, length, string_bytes};
ghost use Rattle.topo_script.specs.Pictures.{crossing_data, edge_data, rows_data, rows_text, sign_data};
ghost use Rattle.topo_script.specs.Ranges.{RowsFit};
ghost use Rattle.topo_script.specs.Reads.{Gives};
ghost use Rattle.topo_script.specs.RowForms.{sign_form, edge_form};
ghost use Rattle.topo_script.specs.RowForms.{crossing_form, rows_form, rows_of};

use crate::fault::ScriptFault;
use crate::form::{Form, check_keys, is_text, read_three, read_two, read_value};
use crate::keys::{CROSSING_KEYS, EDGE_KEYS, ROWS_KEYS};
use crate::path::{JsonPath, Key};
use crate::tokens::read_tokens;
use crate::written::{Written, write_after};
use serde_json::Value;
use std::alloc::{AllocError, Global};
use topo_core::darts::Sign;
use topo_core::rows::{CrossRow, EdgeRow, Rows};

/// The greatest number of bytes that a picture or a report may have.
pub const MAX_PICTURE_BYTES: usize = 268_435_456;

impl Form for Sign {
    ghost form = { sign_form };

    #[tactic(auto, unfolding(crate::specs::RowForms::sign_form))]
    fn read(_alloc: Global, path: JsonPath, value: &Value) -> Result<Self, ScriptFault> {
        if is_text("ltr", value) {
            Ok(Sign::LeftToRight)
        } else if is_text("rtl", value) {
            Ok(Sign::RightToLeft)
        } else {
            Err(ScriptFault::BadShape(path))
        }
    }
}

impl Written for Sign {
    ghost value = { sign_data };

    fn write(&self, out: &mut String) -> Result<(), AllocError> {
        match self {
            Sign::LeftToRight => out.push_str("\"ltr\""),
            Sign::RightToLeft => out.push_str("\"rtl\""),
        }
    }
}

impl Form for EdgeRow {
    ghost form = { edge_form };

    fn read(alloc: Global, path: JsonPath, value: &Value) -> Result<Self, ScriptFault> {
        check_keys(path, &EDGE_KEYS, value)?;
        let (a, b) = read_two(alloc, path, Key::A, Key::B, value)?;
        let (crossings, id, kind) = read_three(
            alloc,
            path,
            Key::Crossings,
            Key::Id,
            Key::Kind,
            value,
        )?;
        Ok(EdgeRow {
            id,
            a,
            b,
            kind,
            crossings,
        })
    }
}

impl Written for EdgeRow {
    ghost value = { edge_data };

    fn write(&self, out: &mut String) -> Result<(), AllocError> {
        write_after(out, "{\"a\":", &self.a)?;
        write_after(out, ",\"b\":", &self.b)?;
        write_after(out, ",\"crossings\":", &self.crossings)?;
        write_after(out, ",\"id\":", &self.id)?;
        write_after(out, ",\"kind\":", &self.kind)?;
        out.push('}')
    }
}

impl Form for CrossRow {
    ghost form = { crossing_form };

    fn read(alloc: Global, path: JsonPath, value: &Value) -> Result<Self, ScriptFault> {
        check_keys(path, &CROSSING_KEYS, value)?;
        let (crossed, id) = read_two(alloc, path, Key::Crossed, Key::Id, value)?;
        let (newcomer, sign) = read_two(alloc, path, Key::Newcomer, Key::Sign, value)?;
        Ok(CrossRow {
            id,
            crossed,
            newcomer,
            sign,
        })
    }
}

impl Written for CrossRow {
    ghost value = { crossing_data };

    fn write(&self, out: &mut String) -> Result<(), AllocError> {
        write_after(out, "{\"crossed\":", &self.crossed)?;
        write_after(out, ",\"id\":", &self.id)?;
        write_after(out, ",\"newcomer\":", &self.newcomer)?;
        write_after(out, ",\"sign\":", &self.sign)?;
        out.push('}')
    }
}

impl Form for Rows {
    ghost form = { rows_form };

    fn read(alloc: Global, path: JsonPath, value: &Value) -> Result<Self, ScriptFault> {
        check_keys(path, &ROWS_KEYS, value)?;
        let (crossings, edges) = read_two(alloc, path, Key::Crossings, Key::Edges, value)?;
        let (next_crossing, next_edge, rotations) = read_three(
            alloc,
            path,
            Key::NextCrossing,
            Key::NextEdge,
            Key::Rotations,
            value,
        )?;
        Ok(Rows {
            rotations,
            edges,
            crossings,
            next_edge,
            next_crossing,
        })
    }
}

impl Written for Rows {
    ghost value = { rows_data };

    fn write(&self, out: &mut String) -> Result<(), AllocError> {
        write_after(out, "{\"crossings\":", &self.crossings)?;
        write_after(out, ",\"edges\":", &self.edges)?;
        write_after(out, ",\"next_crossing\":", &self.next_crossing)?;
        write_after(out, ",\"next_edge\":", &self.next_edge)?;
        write_after(out, ",\"rotations\":", &self.rotations)?;
        out.push('}')
    }
}

/// The rows that the text of a picture spells.
pub fn read_rows(alloc: Global, bytes: &[u8]) -> Result<Rows, ScriptFault>
    ensures { Gives result (rows_of bytes.now) }
{
    match read_tokens(alloc, MAX_PICTURE_BYTES, bytes) {
        Some(rows) => Ok(rows),
        None => read_value(alloc, MAX_PICTURE_BYTES, bytes),
    }
}

/// The text of a picture's rows, on one line and without a line feed.
pub fn picture_text(alloc: Global, rows: &Rows) -> Result<String, AllocError>
    ensures text { IfOk result (λ text. string_bytes text ≡ rows_text rows.now) }
    ensures reads_back { IfOk result
        (λ text. RowsFit rows.now → length (string_bytes text) ≤ 268435456
        → rows_of (string_bytes text) ≡ Ok rows.now) }
{
    let mut text = String::new(alloc);
    rows.write(&mut text)?;
    Ok(text)
}
