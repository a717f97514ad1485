//! The text of a report.

ghost use Rattle.std.specs.Prelude.{◌≡◌, ◌++◌, ◌≤◌, OnOk, IfOk, Ok, length, string_bytes};
ghost use Rattle.serde_json.specs.Data.{number, unsigned};
ghost use Rattle.serde_json.specs.Written.{compact_text};
ghost use Rattle.topo_core.specs.declared.calls.Call.TheVariants.{Grow, Insert, Delete};
ghost use Rattle.topo_core.specs.declared.calls.Reply.TheVariants.{Grown, Deleted, Refused};
ghost use Rattle.topo_core.specs.declared.calls.Refusal.TheVariants.{Cut};
ghost use Rattle.topo_script.specs.Pictures.{number_data};
ghost use Rattle.topo_script.specs.Prices.{without_ones};
ghost use Rattle.topo_script.specs.Ranges.{ReportFits};
ghost use Rattle.topo_script.specs.Scripts.{report_of};
ghost use Rattle.topo_script.specs.ReportTexts.{limits_data, price_data, prices_data, has_null};
ghost use Rattle.topo_script.specs.ReportTexts.{version_of, way_data, dart_data, call_data};
ghost use Rattle.topo_script.specs.ReportTexts.{refusal_data, inserted_data, reply_data};
ghost use Rattle.topo_script.specs.ReportTexts.{entry_data, report_data, report_text};
ghost use Rattle.topo_core.specs.declared.rows.TheConstants.{KINDS};

use crate::prices::kept_len;
use crate::written::{Written, write_after, write_list, write_next};
use crate::{LimitRows, Report};
use std::alloc::{AllocError, Global};
use topo_core::calls::{Call, Entry, Refusal, Reply};
use topo_core::darts::{Dart, Way};
use topo_core::ids::{EdgeId, VertexId};
use topo_core::listed::Listed;
use topo_core::routes::Inserted;
use topo_core::rows::Rows;

impl Written for EdgeId {
    ghost value = { λ n. number (unsigned n) };

    fn write(&self, out: &mut String) -> Result<(), AllocError> {
        self.number().write(out)
    }
}

impl Written for VertexId {
    ghost value = { λ n. number (unsigned n) };

    fn write(&self, out: &mut String) -> Result<(), AllocError> {
        self.number().write(out)
    }
}

impl Written for LimitRows {
    ghost value = { limits_data };

    fn write(&self, out: &mut String) -> Result<(), AllocError> {
        write_after(out, "{\"crossings\":", &self.crossings)?;
        write_after(out, ",\"edges\":", &self.edges)?;
        write_after(out, ",\"vertices\":", &self.vertices)?;
        out.push('}')
    }
}

impl Written for Option<u32> {
    ghost value = { price_data };

    fn write(&self, out: &mut String) -> Result<(), AllocError> {
        match self {
            Some(price) => price.write(out),
            None => out.push_str("null"),
        }
    }
}

impl Written for Way {
    ghost value = { way_data };

    fn write(&self, out: &mut String) -> Result<(), AllocError> {
        match self {
            Way::Forward => out.push_str("\"forward\""),
            Way::Back => out.push_str("\"back\""),
        }
    }
}

impl Written for Dart {
    ghost value = { dart_data };

    fn write(&self, out: &mut String) -> Result<(), AllocError> {
        write_after(out, "[", &self.edge)?;
        write_next(out, &self.seg)?;
        write_next(out, &self.way)?;
        out.push(']')
    }
}

fn write_grow(out: &mut String, u: u32, position: u32, kind: u32) -> Result<(), AllocError>
    ensures { OnOk result (string_bytes out.new ≡ string_bytes out.old
        ++ compact_text (call_data (Grow u position kind))) }
{
    write_after(out, "[\"grow\",", &u)?;
    write_next(out, &position)?;
    write_next(out, &kind)?;
    out.push(']')
}

fn write_insert(out: &mut String, u: u32, v: u32, kind: u32) -> Result<(), AllocError>
    ensures { OnOk result
        (string_bytes out.new ≡ string_bytes out.old
        ++ compact_text (call_data (Insert u v kind))) }
{
    write_after(out, "[\"insert\",", &u)?;
    write_next(out, &v)?;
    write_next(out, &kind)?;
    out.push(']')
}

fn write_delete(out: &mut String, edge: u32) -> Result<(), AllocError>
    ensures { OnOk result
        (string_bytes out.new ≡ string_bytes out.old ++ compact_text (call_data (Delete edge))) }
{
    write_after(out, "[\"delete\",", &edge)?;
    out.push(']')
}

impl Written for Call {
    ghost value = { call_data };

    fn write(&self, out: &mut String) -> Result<(), AllocError> {
        match *self {
            Call::Grow { u, position, kind } => write_grow(out, u, position, kind),
            Call::Insert { u, v, kind } => write_insert(out, u, v, kind),
            Call::Delete { edge } => write_delete(out, edge),
        }
    }
}

fn write_cut(out: &mut String, segment: u32) -> Result<(), AllocError>
    ensures { OnOk result
        (string_bytes out.new ≡ string_bytes out.old ++ compact_text (refusal_data (Cut segment))) }
{
    write_after(out, "[6,\"Cut\",", &segment)?;
    out.push(']')
}

impl Written for Refusal {
    ghost value = { refusal_data };

    fn write(&self, out: &mut String) -> Result<(), AllocError> {
        match *self {
            Refusal::NoVertex => out.push_str("[1,\"NoVertex\"]"),
            Refusal::SameEnds => out.push_str("[2,\"SameEnds\"]"),
            Refusal::NoPosition => out.push_str("[3,\"NoPosition\"]"),
            Refusal::NoEdge => out.push_str("[4,\"NoEdge\"]"),
            Refusal::BadKind => out.push_str("[5,\"BadKind\"]"),
            Refusal::Cut(segment) => write_cut(out, segment),
            Refusal::Full => out.push_str("[7,\"Full\"]"),
            Refusal::Memory => out.push_str("[8,\"Memory\"]"),
            Refusal::NoRoute => out.push_str("[9,\"NoRoute\"]"),
        }
    }
}

impl Written for Inserted {
    ghost value = { inserted_data };

    fn write(&self, out: &mut String) -> Result<(), AllocError> {
        write_after(out, "{\"crossed\":", &self.route.crossed)?;
        write_after(out, ",\"edge\":", &self.id)?;
        write_after(out, ",\"end\":", &self.route.end)?;
        write_after(out, ",\"price\":", &self.price)?;
        write_after(out, ",\"start\":", &self.route.start)?;
        out.push('}')
    }
}

fn write_grown(out: &mut String, vertex: VertexId, edge: EdgeId) -> Result<(), AllocError>
    ensures { OnOk result
        (string_bytes out.new ≡ string_bytes out.old
        ++ compact_text (reply_data (Grown vertex edge))) }
{
    write_after(out, "{\"edge\":", &edge)?;
    write_after(out, ",\"vertex\":", &vertex)?;
    out.push('}')
}

fn write_deleted(out: &mut String, edge: EdgeId) -> Result<(), AllocError>
    ensures { OnOk result
        (string_bytes out.new ≡ string_bytes out.old ++ compact_text (reply_data (Deleted edge))) }
{
    write_after(out, "{\"deleted\":", &edge)?;
    out.push('}')
}

fn write_refused(out: &mut String, why: Refusal) -> Result<(), AllocError>
    ensures { OnOk result
        (string_bytes out.new ≡ string_bytes out.old ++ compact_text (reply_data (Refused why))) }
{
    write_after(out, "{\"refused\":", &why)?;
    out.push('}')
}

impl Written for Reply {
    ghost value = { reply_data };

    fn write(&self, out: &mut String) -> Result<(), AllocError> {
        match self {
            Reply::Grown { vertex, edge } => write_grown(out, *vertex, *edge),
            Reply::Inserted(made) => made.write(out),
            Reply::Deleted(edge) => write_deleted(out, *edge),
            Reply::Refused(why) => write_refused(out, *why),
        }
    }
}

impl Written for Entry {
    ghost value = { entry_data };

    fn write(&self, out: &mut String) -> Result<(), AllocError> {
        write_after(out, "{\"call\":", &self.call)?;
        write_after(out, ",\"caller\":", &self.caller)?;
        write_after(out, ",\"reply\":", &self.reply)?;
        out.push('}')
    }
}

/// Writes the text before the prices, and then the prices without the ones at their end.
fn write_prices(
    out: &mut String,
    before: &str,
    prices: &Listed<Option<u32>>,
) -> Result<(), AllocError>
    ensures { OnOk result (string_bytes out.new ≡ string_bytes out.old
        ++ (before.now ++ compact_text (prices_data prices.now))) }
{
    let prices = prices.as_slice();
    out.push_str(before)?;
    write_list(out, &prices[..kept_len(prices)])
}

/// Writes the text before the version, and then the version that a report with these prices has.
fn write_version(
    out: &mut String,
    before: &str,
    prices: &Listed<Option<u32>>,
) -> Result<(), AllocError>
    ensures { OnOk result (string_bytes out.new ≡ string_bytes out.old
        ++ (before.now ++ compact_text (number_data (version_of prices.now)))) }
{
    let version = version_of(prices.as_slice());
    write_after(out, before, &version)
}

/// The version that a report with these prices has: 2 exactly where one is null.
fn version_of(prices: &[Option<u32>]) -> u32
    ensures { result ≡ version_of prices.now }
{
    for price in prices {
        if price.is_none() {
            return 2;
        }
    }
    1
}

impl Written for Report {
    ghost value = { report_data };

    fn write(&self, out: &mut String) -> Result<(), AllocError> {
        write_after(out, "{\"history\":", &self.history)?;
        write_after(out, ",\"limits\":", &self.limits)?;
        write_after(out, ",\"picture\":", &self.picture)?;
        write_prices(out, ",\"prices\":", &self.prices)?;
        write_after(out, ",\"start\":", &self.start)?;
        write_version(out, ",\"version\":", &self.prices)?;
        out.push('}')
    }
}

/// How many bytes the text of rows takes, or some more, if their ids have up to five digits. No
/// contract rests on it.
fn bytes_of_rows(rows: &Rows) -> usize {
    let edges = rows.edges.len().saturating_mul(64);
    let crossings = rows.crossings.len().saturating_mul(80);
    let rotations = rows.rotations.len().saturating_mul(24);
    edges.saturating_add(crossings).saturating_add(rotations)
}

/// How many bytes the text of a report takes, or some more, if its numbers have up to five digits.
/// No contract rests on it.
fn bytes_of(report: &Report) -> usize {
    let history = report.history.len().saturating_mul(96);
    let routes = report.picture.crossings.len().saturating_mul(24);
    let pictures = bytes_of_rows(&report.start).saturating_add(bytes_of_rows(&report.picture));
    history.saturating_add(routes).saturating_add(pictures)
}

/// The text of a report, on one line and without a line feed. The ones at the end of its prices are
/// left out, and its version is 2 exactly where a price is null.
pub fn report(alloc: Global, report: &Report) -> Result<String, AllocError>
    ensures text { IfOk result (λ text. string_bytes text ≡ report_text report.now) }
    ensures reads_back { IfOk result (λ text. ReportFits report.now
        → length report.now.prices ≤ KINDS → without_ones report.now.prices ≡ report.now.prices
        → length (string_bytes text) ≤ 268435456 → report_of (string_bytes text) ≡ Ok report.now) }
{
    let mut text = String::new(alloc);
    // Only so that it need not move as it grows: it grows as well without.
    let _ = text.reserve(bytes_of(report));
    report.write(&mut text)?;
    Ok(text)
}
