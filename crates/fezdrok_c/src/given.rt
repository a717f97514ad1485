//! What a typed call tells: numbers, and a list of items.

ghost use Rattle.std.specs.Prelude.{◌≡◌, [], IfOk, map, slice_index_or};
ghost use Rattle.topo_core.specs.FaultTexts.{refusal_fault};
ghost use Rattle.fezdrok_c.specs.Given.{counts_given, cut_segment, dart_item, edge_given};
ghost use Rattle.topo_session.specs.declared.vertices.End.TheVariants.{B};
ghost use Rattle.fezdrok_c.specs.Given.{end_item, end_items, end_side, gives, meeting_item};
ghost use Rattle.fezdrok_c.specs.Given.{refuses, reply_given, undone_given, vertex_given};

use std::alloc::{AllocError, Global};
use topo_core::calls::{Refusal, Reply};
use topo_core::darts::{Dart, Sign, Way};
use topo_core::listed::Listed;
use topo_core::routes::Inserted;
use topo_faults::Fault;
use topo_picture::Counts;
use topo_session::edges::{EdgeAnswer, Meeting};
use topo_session::session::Undone;
use topo_session::vertices::{End, VertexAnswer};

/// An item of a list: a dart, a crossing that is met along an edge, or an edge at a vertex.
#[repr(C)]
#[derive(Clone, Copy, Debug, PartialEq, Eq)]
pub struct Item {
    /// The edge, or the crossing.
    pub id: u32,
    /// The segment of a dart, or the other edge of a crossing.
    pub at: u32,
    /// 0 for a dart forward, a crossing from the left to the right, and an end `a`; else 1.
    pub side: u32,
}

/// What a typed call tells. `c/fezdrok.c` says which number stands where.
#[derive(Drop)]
pub struct Given {
    pub refusal: u32,
    pub first: u32,
    pub second: u32,
    pub third: u32,
    pub fourth: u32,
    pub fifth: u32,
    pub price: u64,
    pub list: Listed<Item>,
}

/// Numbers, a price and a list.
fn gives(numbers: (u32, u32, u32, u32, u32), price: u64, list: Listed<Item>) -> Given
    ensures { result ≡ gives numbers.0 numbers.1 numbers.2 numbers.3 numbers.4 price list }
{
    Given {
        refusal: 0,
        first: numbers.0,
        second: numbers.1,
        third: numbers.2,
        fourth: numbers.3,
        fifth: numbers.4,
        price,
        list,
    }
}

/// What is given as numbers alone.
pub(crate) fn counted(alloc: Global, numbers: (u32, u32, u32, u32, u32)) -> Given
    ensures { result ≡ gives numbers.0 numbers.1 numbers.2 numbers.3 numbers.4 0 [] }
{
    gives(numbers, 0, Listed::new(alloc))
}

/// The number of a fault, with what stands behind its name.
pub(crate) fn refuses(alloc: Global, fault: Fault, first: u32) -> Given
    ensures { result ≡ refuses fault first }
{
    Given {
        refusal: fault.number(),
        first,
        second: 0,
        third: 0,
        fourth: 0,
        fifth: 0,
        price: 0,
        list: Listed::new(alloc),
    }
}

/// A dart as an item.
fn dart_item(dart: Dart) -> Item
    ensures { result ≡ dart_item dart }
{
    Item {
        id: dart.edge.number(),
        at: dart.seg,
        side: match dart.way {
            Way::Forward => 0,
            Way::Back => 1,
        },
    }
}

/// A crossing that is met along an edge as an item.
fn meeting_item(meeting: Meeting) -> Item
    ensures { result ≡ meeting_item meeting }
{
    Item {
        id: meeting.crossing,
        at: meeting.other,
        side: match meeting.sign {
            Sign::LeftToRight => 0,
            Sign::RightToLeft => 1,
        },
    }
}

/// Which end stands at a place: 0 for an end `a`, else 1.
fn side_at(ends: &[End], place: usize) -> u32
    ensures { result ≡ end_side (slice_index_or ends.now place B) }
{
    match ends.get(place) {
        Some(End::A) => 0,
        _ => 1,
    }
}

/// The edge at a place at a vertex as an item, with the end that stands there.
fn end_item(edges: &[u32], ends: &[End], place: usize) -> Item
    ensures { result ≡ end_item edges.now ends.now place }
{
    Item {
        id: edges.get(place).copied().unwrap_or(0),
        at: 0,
        side: side_at(ends, place),
    }
}

/// Darts written as items of a list.
fn dart_items(alloc: Global, darts: &[Dart]) -> Result<Listed<Item>, AllocError>
    ensures { IfOk result (λ items. items ≡ map dart_item darts.now) }
{
    let mut items = Vec::with_capacity(alloc, darts.len())?;
    for dart in darts {
        items.push(dart_item(*dart))?;
    }
    Ok(Listed::from_vec(items))
}

/// Crossings along an edge as items.
fn meeting_items(alloc: Global, meetings: &[Meeting]) -> Result<Listed<Item>, AllocError>
    ensures { IfOk result (λ items. items ≡ map meeting_item meetings.now) }
{
    let mut items = Vec::with_capacity(alloc, meetings.len())?;
    for meeting in meetings {
        items.push(meeting_item(*meeting))?;
    }
    Ok(Listed::from_vec(items))
}

/// The edges at a vertex as items.
fn end_items(alloc: Global, edges: &[u32], ends: &[End]) -> Result<Listed<Item>, AllocError>
    ensures { IfOk result (λ items. items ≡ end_items edges.now ends.now) }
{
    let mut items = Vec::with_capacity(alloc, edges.len())?;
    for place in 0..edges.len() {
        items.push(end_item(edges, ends, place))?;
    }
    Ok(Listed::from_vec(items))
}

/// What an edge that was put in tells.
fn inserted_given(alloc: Global, made: Inserted) -> Result<Given, AllocError>
    ensures { IfOk result (λ given. given ≡ gives made.id made.route.start made.route.end 0 0
        made.price (map dart_item made.route.crossed)) }
{
    let list = dart_items(alloc, made.route.crossed.as_slice())?;
    let numbers = (made.id.number(), made.route.start, made.route.end, 0, 0);
    Ok(gives(numbers, made.price, list))
}

/// What a refusal tells.
fn refusal_given(alloc: Global, why: Refusal) -> Given
    ensures { result ≡ refuses (refusal_fault why) (cut_segment why) }
{
    let segment = match why {
        Refusal::Cut(segment) => segment,
        _ => 0,
    };
    refuses(alloc, why.fault(), segment)
}

/// What a reply tells. Only the darts of a route take memory.
pub(crate) fn reply_given(alloc: Global, reply: Reply) -> Result<Given, AllocError>
    ensures { IfOk result (λ given. given ≡ reply_given reply) }
{
    match reply {
        Reply::Grown { vertex, edge } => {
            Ok(counted(alloc, (vertex.number(), edge.number(), 0, 0, 0)))
        }
        Reply::Inserted(made) => inserted_given(alloc, made),
        Reply::Deleted(edge) => Ok(counted(alloc, (edge.number(), 0, 0, 0, 0))),
        Reply::Refused(why) => Ok(refusal_given(alloc, why)),
    }
}

/// What the size of a picture tells.
pub(crate) fn counts_given(alloc: Global, counts: Counts) -> Given
    ensures { result ≡ counts_given counts }
{
    let Counts {
        vertices,
        crossings,
        edges,
        segments,
        faces,
    } = counts;
    counted(alloc, (vertices, crossings, edges, segments, faces))
}

/// What entries that were taken back tell, or that there are not so many.
pub(crate) fn undone_given(alloc: Global, entries: u32, undone: Option<Undone>) -> Given
    ensures { result ≡ undone_given entries undone }
{
    match undone {
        Some(told) => counted(
            alloc,
            (told.undone, told.vertices, told.edges, told.crossings, 0),
        ),
        None => refuses(alloc, Fault::NothingToUndo, entries),
    }
}

/// What an edge tells, or that there is none. No price is told as 0.
pub(crate) fn edge_given(alloc: Global, edge: Option<EdgeAnswer>) -> Result<Given, AllocError>
    ensures { IfOk result (λ given. given ≡ edge_given edge) }
{
    let Some(edge) = edge else {
        return Ok(refuses(alloc, Fault::NoEdge, 0));
    };
    let list = meeting_items(alloc, edge.crossings.as_slice())?;
    let price = u64::from(edge.price.unwrap_or(0));
    Ok(gives((edge.a, edge.b, edge.kind, 0, 0), price, list))
}

/// What a vertex tells, or that there is none.
pub(crate) fn vertex_given(alloc: Global, vertex: Option<VertexAnswer>) -> Result<Given, AllocError>
    ensures { IfOk result (λ given. given ≡ vertex_given vertex) }
{
    let Some(vertex) = vertex else {
        return Ok(refuses(alloc, Fault::NoVertex, 0));
    };
    let list = end_items(alloc, vertex.edges.as_slice(), vertex.ends.as_slice())?;
    Ok(gives((0, 0, 0, 0, 0), 0, list))
}
