//! Whether two values of the types that hold lists are equal.

ghost use Rattle.std.specs.Prelude.{◌≡◌, ◌↔◌, IsTrue};

use crate::calls::Reply;
use crate::darts::Dart;
use crate::listed::Listed;
use crate::routes::{Inserted, Route};
use crate::rows::{CrossRow, EdgeRow, Rows};

/// Whether two lists of darts are equal.
fn same_darts(a: &[Dart], b: &[Dart]) -> bool
    ensures { IsTrue result ↔ (a.now ≡ b.now) }
{
    a == b
}

impl Route {
    /// Whether the two are equal.
    pub fn equals(&self, other: &Route) -> bool
        ensures { IsTrue result ↔ (self.now ≡ other.now) }
    {
        let same_crossed = same_darts(self.crossed.as_slice(), other.crossed.as_slice());
        same_crossed && self.start == other.start && self.end == other.end
    }
}

impl Inserted {
    /// Whether the two are equal.
    pub fn equals(&self, other: &Inserted) -> bool
        ensures { IsTrue result ↔ (self.now ≡ other.now) }
    {
        self.id == other.id && self.price == other.price && self.route.equals(&other.route)
    }
}

impl Reply {
    /// Whether the two are equal.
    pub fn equals(&self, other: &Reply) -> bool
        ensures { IsTrue result ↔ (self.now ≡ other.now) }
    {
        match (self, other) {
            (
                Reply::Grown { vertex, edge },
                Reply::Grown {
                    vertex: other_vertex,
                    edge: other_edge,
                },
            ) => vertex == other_vertex && edge == other_edge,
            (Reply::Inserted(made), Reply::Inserted(other)) => made.equals(other),
            (Reply::Deleted(edge), Reply::Deleted(other)) => edge == other,
            (Reply::Refused(why), Reply::Refused(other)) => why == other,
            _ => false,
        }
    }
}

/// Whether two lists of ids are equal.
fn same_ids(a: &[u32], b: &[u32]) -> bool
    ensures { IsTrue result ↔ (a.now ≡ b.now) }
{
    a == b
}

/// Whether two lists of crossings are equal.
fn same_crossings(a: &[CrossRow], b: &[CrossRow]) -> bool
    ensures { IsTrue result ↔ (a.now ≡ b.now) }
{
    a == b
}

impl EdgeRow {
    /// Whether the two are equal.
    pub fn equals(&self, other: &EdgeRow) -> bool
        ensures { IsTrue result ↔ (self.now ≡ other.now) }
    {
        let same_path = same_ids(self.crossings.as_slice(), other.crossings.as_slice());
        same_path
            && self.id == other.id
            && self.a == other.a
            && self.b == other.b
            && self.kind == other.kind
    }
}

/// Whether two lists of edges are equal.
fn same_edges(a: &[EdgeRow], b: &[EdgeRow]) -> bool
    ensures { IsTrue result ↔ (a.now ≡ b.now) }
{
    if a.len() != b.len() {
        return false;
    }
    for i in 0..a.len() {
        if !a[i].equals(&b[i]) {
            return false;
        }
    }
    true
}

/// Whether the lists round the vertices of two pictures are equal.
fn same_rotations(a: &[Listed<u32>], b: &[Listed<u32>]) -> bool
    ensures { IsTrue result ↔ (a.now ≡ b.now) }
{
    if a.len() != b.len() {
        return false;
    }
    for v in 0..a.len() {
        if !same_ids(a[v].as_slice(), b[v].as_slice()) {
            return false;
        }
    }
    true
}

impl Rows {
    /// Whether the two are equal.
    pub fn equals(&self, other: &Rows) -> bool
        ensures { IsTrue result ↔ (self.now ≡ other.now) }
    {
        let same_rotations = same_rotations(self.rotations.as_slice(), other.rotations.as_slice());
        let same_edges = same_edges(self.edges.as_slice(), other.edges.as_slice());
        let same_crossings = same_crossings(self.crossings.as_slice(), other.crossings.as_slice());
        same_rotations
            && same_edges
            && same_crossings
            && self.next_edge == other.next_edge
            && self.next_crossing == other.next_crossing
    }
}
