//! Scripts and reports, read from their JSON forms.

ghost use Rattle.std.specs.Prelude.{◌≡◌, ◌&&◌, [], nat_lt, nat_le, is_some, None};
ghost use Rattle.serde_json.specs.View.{view};
ghost use Rattle.serde_json.specs.Find.{as_object};
ghost use Rattle.topo_script.specs.declared.fault.ScriptFault.TheVariants.{BadShape};
ghost use Rattle.topo_script.specs.Reads.{Gives, passes, both, all_three, element_count};
ghost use Rattle.topo_script.specs.Reads.{member_form, member_or};
ghost use Rattle.topo_script.specs.RowForms.{rows_form};
ghost use Rattle.topo_script.specs.Paths.{whole};
ghost use Rattle.topo_script.specs.declared.path.Key.TheVariants.{Limits, Prices, Start, Workers};
ghost use Rattle.topo_script.specs.Scripts.{greatest_limits, limits_form, nulls_of, nulls_in};
ghost use Rattle.topo_script.specs.Scripts.{prices_form};
ghost use Rattle.topo_script.specs.Scripts.{picture_form, start_form, workers_form};
ghost use Rattle.topo_script.specs.Scripts.{script_form, script_of, report_form, report_of};
ghost use Rattle.topo_script.specs.declared.script_forms.TheConstants.{MAX_WORKERS};

use crate::fault::ScriptFault;
use crate::form::{
    Form, check_keys, element_count, has_key, is_text, read_member, read_member_or, read_three,
    read_value,
};
use crate::keys::{LIMITS_KEYS, REPORT_KEYS, SCRIPT_KEYS};
use crate::path::{JsonPath, Key};
use crate::prices::read_prices;
use crate::reports::Report;
use crate::row_forms::MAX_PICTURE_BYTES;
use crate::scripts::{LimitRows, Script};
use crate::tokens::read_tokens;
use serde_json::Value;
use std::alloc::Global;
use topo_core::calls::Command;
use topo_core::limits::MAX_PASSES;
use topo_core::listed::Listed;
use topo_core::rows::Rows;

/// The greatest number of bytes that a script may have.
pub const MAX_SCRIPT_BYTES: usize = 1_048_576;

/// The greatest number of lists in a script.
pub(crate) const MAX_WORKERS: usize = MAX_PASSES as usize;

impl Form for LimitRows {
    ghost form = { limits_form };

    fn read(alloc: Global, path: JsonPath, value: &Value) -> Result<Self, ScriptFault> {
        check_keys(path, &LIMITS_KEYS, value)?;
        let (crossings, edges, vertices) = read_three(
            alloc,
            path,
            Key::Crossings,
            Key::Edges,
            Key::Vertices,
            value,
        )?;
        Ok(LimitRows {
            vertices,
            edges,
            crossings,
        })
    }
}

/// Tests that a value is an object.
fn check_object(path: JsonPath, value: &Value) -> Result<(), ScriptFault>
    ensures { result ≡ passes (BadShape path) (is_some (as_object (view value.now))) }
{
    if value.is_object() {
        Ok(())
    } else {
        Err(ScriptFault::BadShape(path))
    }
}

/// Whether a price may be null in this version.
#[tactic(auto, unfolding(crate::specs::Scripts::nulls_of))]
pub(crate) fn nulls_of(version: u32) -> Result<bool, ScriptFault>
    ensures { result ≡ nulls_of version }
{
    match version {
        1 => Ok(false),
        2 => Ok(true),
        _ => Err(ScriptFault::BadVersion),
    }
}

/// Whether a price may be null in the version of a script, an opening or a report.
pub(crate) fn read_nulls(alloc: Global, path: JsonPath, value: &Value) -> Result<bool, ScriptFault>
    ensures { Gives result (nulls_in path (view value.now)) }
{
    check_object(path, value)?;
    let version = read_member(alloc, path, Key::Version, value)?;
    nulls_of(version)
}

/// The greatest limits that a script may have.
pub(crate) const GREATEST_LIMITS: LimitRows = LimitRows {
    vertices: 65_536,
    edges: 65_536,
    crossings: 1_048_576,
};

/// The prices of a report.
fn read_price_member(
    alloc: Global,
    path: JsonPath,
    nulls: bool,
    value: &Value,
) -> Result<Listed<Option<u32>>, ScriptFault>
    ensures { Gives result (member_form (prices_form nulls) path Prices (view value.now)) }
{
    let path = path.member(Key::Prices);
    match value.get(Key::Prices.name()) {
        Some(prices) => read_prices(alloc, nulls, path, prices),
        None => Err(ScriptFault::BadShape(path)),
    }
}

/// The prices of a script or an opening, which may be missing.
pub(crate) fn read_prices_or_none(
    alloc: Global,
    path: JsonPath,
    nulls: bool,
    value: &Value,
) -> Result<Listed<Option<u32>>, ScriptFault>
    ensures { Gives result (member_or [] (prices_form nulls) path Prices (view value.now)) }
{
    if has_key(Key::Prices, value) {
        read_price_member(alloc, path, nulls, value)
    } else {
        Ok(Listed::from_vec(Vec::new(alloc)))
    }
}

/// The limits, the prices and the start of a script or an opening, each of which may be missing.
pub(crate) fn read_settings(
    alloc: Global,
    path: JsonPath,
    nulls: bool,
    value: &Value,
) -> Result<(LimitRows, Listed<Option<u32>>, Option<Rows>), ScriptFault>
    ensures { Gives result (all_three
        (member_or greatest_limits limits_form path Limits (view value.now))
        (member_or [] (prices_form nulls) path Prices (view value.now))
        (member_or None start_form path Start (view value.now))) }
{
    let limits = read_member_or(alloc, path, Key::Limits, value, GREATEST_LIMITS)?;
    let prices = read_prices_or_none(alloc, path, nulls, value)?;
    let start = read_member_or(alloc, path, Key::Start, value, None)?;
    Ok((limits, prices, start))
}

fn read_picture(alloc: Global, path: JsonPath, value: &Value) -> Result<Option<Rows>, ScriptFault>
    ensures { Gives result (picture_form path (view value.now)) }
{
    let rows = Rows::read(alloc, path, value)?;
    Ok(Some(rows))
}

impl Form for Option<Rows> {
    ghost form = { start_form };

    #[tactic(auto, unfolding(crate::specs::Scripts::start_form))]
    fn read(alloc: Global, path: JsonPath, value: &Value) -> Result<Self, ScriptFault> {
        if is_text("seed", value) {
            Ok(None)
        } else {
            read_picture(alloc, path, value)
        }
    }
}

/// Tests that there are 1 to 16 lists of commands.
fn check_workers(path: JsonPath, value: &Value) -> Result<(), ScriptFault>
    ensures { result ≡ passes (BadShape path) (nat_lt 0 (element_count (view value.now))
        && nat_le (element_count (view value.now)) MAX_WORKERS) }
{
    let count = element_count(value);
    if 0 < count && count <= MAX_WORKERS {
        Ok(())
    } else {
        Err(ScriptFault::BadShape(path))
    }
}

/// 1 to 16 lists of commands.
fn read_workers(
    alloc: Global,
    path: JsonPath,
    value: &Value,
) -> Result<Listed<Listed<Command>>, ScriptFault>
    ensures { Gives result (workers_form path (view value.now)) }
{
    check_workers(path, value)?;
    Listed::read(alloc, path, value)
}

/// The lists of commands of a script.
fn read_workers_member(alloc: Global, value: &Value) -> Result<Listed<Listed<Command>>, ScriptFault>
    ensures { Gives result (member_form workers_form whole Workers (view value.now)) }
{
    let path = JsonPath::WHOLE.member(Key::Workers);
    match value.get(Key::Workers.name()) {
        Some(workers) => read_workers(alloc, path, workers),
        None => Err(ScriptFault::BadShape(path)),
    }
}

impl Form for Script {
    ghost form = { λ path. script_form };

    // It stands nowhere but at the whole of a text.
    fn read(alloc: Global, _path: JsonPath, value: &Value) -> Result<Self, ScriptFault> {
        let nulls = read_nulls(alloc, JsonPath::WHOLE, value)?;
        check_keys(JsonPath::WHOLE, &SCRIPT_KEYS, value)?;
        let (limits, prices, start) = read_settings(alloc, JsonPath::WHOLE, nulls, value)?;
        match read_workers_member(alloc, value) {
            Ok(workers) => Ok(Script {
                limits,
                prices,
                start,
                workers,
            }),
            Err(fault) => {
                drop(start);
                Err(fault)
            }
        }
    }
}

/// The script that bytes spell.
pub fn read_script(alloc: Global, bytes: &[u8]) -> Result<Script, ScriptFault>
    ensures { Gives result (script_of bytes.now) }
{
    match read_tokens(alloc, MAX_SCRIPT_BYTES, bytes) {
        Some(script) => Ok(script),
        None => read_value(alloc, MAX_SCRIPT_BYTES, bytes),
    }
}

/// The prices and the start of a report.
fn prices_and_start(
    alloc: Global,
    path: JsonPath,
    nulls: bool,
    value: &Value,
) -> Result<(Listed<Option<u32>>, Rows), ScriptFault>
    ensures { Gives result (both (member_form (prices_form nulls) path Prices (view value.now))
        (member_form rows_form path Start (view value.now))) }
{
    let prices = read_price_member(alloc, path, nulls, value)?;
    let start = read_member(alloc, path, Key::Start, value)?;
    Ok((prices, start))
}

impl Form for Report {
    ghost form = { report_form };

    fn read(alloc: Global, path: JsonPath, value: &Value) -> Result<Self, ScriptFault> {
        let nulls = read_nulls(alloc, path, value)?;
        check_keys(path, &REPORT_KEYS, value)?;
        let head = read_three(alloc, path, Key::History, Key::Limits, Key::Picture, value)?;
        match prices_and_start(alloc, path, nulls, value) {
            Ok((prices, start)) => {
                let (history, limits, picture) = head;
                Ok(Report {
                    limits,
                    prices,
                    start,
                    history,
                    picture,
                })
            }
            Err(fault) => {
                drop(head);
                Err(fault)
            }
        }
    }
}

/// The report that bytes spell.
pub fn read_report(alloc: Global, bytes: &[u8]) -> Result<Report, ScriptFault>
    ensures { Gives result (report_of bytes.now) }
{
    match read_tokens(alloc, MAX_PICTURE_BYTES, bytes) {
        Some(report) => Ok(report),
        None => read_value(alloc, MAX_PICTURE_BYTES, bytes),
    }
}
