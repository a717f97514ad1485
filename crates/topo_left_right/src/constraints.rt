//! The stack of conflict pairs: which back edges lie on different sides.

use crate::conflict_pairs::{ConflictPair, Interval, is_above};
use crate::numbers::{NONE, Numbers};
use crate::orientation::Orientation;
use crate::sides::Sides;
use std::alloc::{AllocError, Global};

/// What the second search knows of the sides of the edges.
#[derive(Drop)]
pub(crate) struct Constraints {
    /// A stack; the first `depth` pairs count.
    pairs: Vec<ConflictPair>,
    depth: u32,
    /// For each edge how many pairs there were before it.
    bottoms: Numbers,
    /// For each edge the back edge behind it that leads back farthest.
    low_edges: Numbers,
    pub(crate) sides: Sides,
    edges: u32,
}

impl Constraints {
    /// The constraints of a graph without edges.
    pub(crate) fn new(alloc: Global) -> Self {
        Constraints {
            pairs: Vec::new(alloc),
            depth: 0,
            bottoms: Numbers::new(alloc),
            low_edges: Numbers::new(alloc),
            sides: Sides::new(alloc),
            edges: 0,
        }
    }

    /// Nothing is known of so many edges.
    pub(crate) fn reset(&mut self, edges: u32) -> Result<(), AllocError> {
        self.edges = edges;
        self.depth = 0;
        if self.pairs.len() < edges as usize {
            self.pairs.resize(edges as usize, ConflictPair::EMPTY)?;
        }
        self.bottoms.reset(edges, 0)?;
        self.low_edges.reset(edges, NONE)?;
        self.sides.reset(edges)
    }

    /// The pair on top; an empty one where there is none.
    fn top(&self) -> ConflictPair {
        let count = self.depth as usize;
        if 0 < count && count <= self.pairs.len() {
            self.pairs[count - 1]
        } else {
            ConflictPair::EMPTY
        }
    }

    /// Puts a pair in the place of the one on top.
    fn replace_top(&mut self, pair: ConflictPair) {
        let count = self.depth as usize;
        if 0 < count && count <= self.pairs.len() {
            self.pairs[count - 1] = pair;
        }
    }

    /// Puts a pair on top.
    fn push(&mut self, pair: ConflictPair) {
        self.depth = self.depth.saturating_add(1);
        self.replace_top(pair);
    }

    /// Takes the pair from the top; an empty one where there is none.
    fn pop(&mut self) -> ConflictPair {
        let pair = self.top();
        self.depth = self.depth.saturating_sub(1);
        pair
    }

    /// The search takes an edge.
    pub(crate) fn begin_edge(&mut self, edge: u32) {
        self.bottoms.set(edge, self.depth);
    }

    /// The edge that the search took is a back edge.
    pub(crate) fn add_back_edge(&mut self, edge: u32) {
        self.low_edges.set(edge, edge);
        let right = Interval {
            low: edge,
            high: edge,
        };
        self.push(ConflictPair {
            left: Interval::EMPTY,
            right,
        });
    }

    /// The first edge behind a tree edge that leads back behind its source: what leads back farthest
    /// behind it does so behind the tree edge.
    pub(crate) fn inherit(&mut self, parent: u32, edge: u32) {
        self.low_edges.set(parent, self.low_edges.at(edge));
    }

    /// A later edge behind a tree edge that leads back behind its source: puts the back edges behind
    /// it on one side, and those behind earlier ones that conflict with it on the other. False
    /// where that cannot be.
    pub(crate) fn constrain(&mut self, orientation: &Orientation, edge: u32, parent: u32) -> bool {
        let Some(own) = self.merge_own(orientation, edge, parent) else {
            return false;
        };
        let Some(merged) = self.merge_conflicting(orientation, edge, own) else {
            return false;
        };
        if !merged.left.is_empty() || !merged.right.is_empty() {
            self.push(merged);
        }
        true
    }

    /// The back edges behind an edge, all on the right side; none where two must lie on different
    /// sides.
    fn merge_own(
        &mut self,
        orientation: &Orientation,
        edge: u32,
        parent: u32,
    ) -> Option<ConflictPair> {
        let bottom = self.bottoms.at(edge);
        let mut merged = Interval::EMPTY;
        for _pair in 0..self.depth {
            let mut pair = self.pop();
            if !pair.left.is_empty() {
                pair = pair.exchanged();
            }
            if !pair.left.is_empty() {
                return None;
            }
            merged = self.merge_right(orientation, merged, pair.right, parent);
            if self.depth <= bottom {
                return Some(ConflictPair {
                    left: Interval::EMPTY,
                    right: merged,
                });
            }
        }
        None
    }

    /// Merges an interval with one below it, which is dropped where it leads back to where the tree
    /// edge does: then its side is that of the edge that leads back farthest behind the tree edge.
    fn merge_right(
        &mut self,
        orientation: &Orientation,
        merged: Interval,
        below: Interval,
        parent: u32,
    ) -> Interval {
        if orientation.low_points.at(below.low) > orientation.low_points.at(parent) {
            return self.chain(merged, below);
        }
        self.sides.refer(below.low, self.low_edges.at(parent));
        merged
    }

    /// The back edges of the pairs on top that conflict with an edge, since they lead back less far,
    /// on the other side than those behind it; none where two of one pair conflict that lie on
    /// different sides.
    fn merge_conflicting(
        &mut self,
        orientation: &Orientation,
        edge: u32,
        own: ConflictPair,
    ) -> Option<ConflictPair> {
        let mut merged = own;
        for _pair in 0..self.depth {
            let mut pair = self.top();
            if !pair.conflicts(orientation, edge) {
                return Some(merged);
            }
            if pair.conflicts_right(orientation, edge) {
                pair = pair.exchanged();
            }
            if pair.conflicts_right(orientation, edge) {
                return None;
            }
            self.depth = self.depth.saturating_sub(1);
            merged = ConflictPair {
                left: self.chain(merged.left, pair.left),
                right: self.chain(merged.right, pair.right),
            };
        }
        Some(merged)
    }

    /// Puts one interval above another on the same side.
    fn chain(&mut self, above: Interval, below: Interval) -> Interval {
        if above.is_empty() {
            return below;
        }
        self.sides.refer(above.low, below.high);
        if below.is_empty() {
            return above;
        }
        Interval {
            low: below.low,
            high: above.high,
        }
    }

    /// The search goes back along a tree edge: the back edges to its source end there, and the side
    /// of the tree edge is that of the highest of the others behind it.
    pub(crate) fn finish_edge(&mut self, orientation: &Orientation, edge: u32) {
        let source = orientation.sources.at(edge);
        let height = orientation.heights.at(source);
        self.drop_ended(orientation, height);
        self.trim_top(orientation, source);
        if orientation.low_points.at(edge) < height {
            let highest = self.highest_on_top(orientation);
            self.sides.refer(edge, highest);
        }
    }

    /// Takes the pairs away of which all edges lead back to this height.
    fn drop_ended(&mut self, orientation: &Orientation, height: u32) {
        for _pair in 0..self.depth {
            let pair = self.top();
            if pair.lowest(orientation) != height {
                return;
            }
            self.depth = self.depth.saturating_sub(1);
            self.sides.change(pair.left.low);
        }
    }

    /// Takes the back edges to a vertex out of the pair on top.
    fn trim_top(&mut self, orientation: &Orientation, vertex: u32) {
        let pair = self.top();
        let left = self.trim(orientation, pair.left, pair.right, vertex);
        let right = self.trim(orientation, pair.right, left, vertex);
        self.replace_top(ConflictPair { left, right });
    }

    /// Takes the back edges to a vertex out of an interval. Where none is left its lowest edge lies
    /// on the other side than the lowest of the other interval.
    fn trim(
        &mut self,
        orientation: &Orientation,
        interval: Interval,
        other: Interval,
        vertex: u32,
    ) -> Interval {
        let high = self.highest_not_to(orientation, interval, vertex);
        if high == NONE {
            self.sides.refer(interval.low, other.low);
            self.sides.change(interval.low);
            return Interval::EMPTY;
        }
        Interval {
            low: interval.low,
            high,
        }
    }

    /// The highest edge of an interval that does not lead back to a vertex.
    fn highest_not_to(&self, orientation: &Orientation, interval: Interval, vertex: u32) -> u32 {
        let mut edge = interval.high;
        for _edge in 0..self.edges {
            if edge == NONE || orientation.targets.at(edge) != vertex {
                return edge;
            }
            edge = if edge == interval.low {
                NONE
            } else {
                self.sides.reference(edge)
            };
        }
        NONE
    }

    /// That edge of the pair on top which leads back least far.
    fn highest_on_top(&self, orientation: &Orientation) -> u32 {
        let pair = self.top();
        let left = pair.left.high;
        let right = pair.right.high;
        if left != NONE && (right == NONE || is_above(orientation, left, right)) {
            left
        } else {
            right
        }
    }
}
