//! The first depth-first search: it turns each edge, and finds how far up each leads back.

use crate::Ends;
use crate::groups::Groups;
use crate::numbers::{NONE, Numbers, number_of};
use crate::walk::Walk;
use std::alloc::{AllocError, Global};

/// A graph turned by a depth-first search: tree edges lead away from the root of their component,
/// back edges towards it.
#[derive(Drop)]
pub(crate) struct Orientation {
    /// How many vertices and edges there are.
    pub(crate) vertices: u32,
    pub(crate) edges: u32,
    /// For each vertex how many tree edges lead to it from its root.
    pub(crate) heights: Numbers,
    /// For each vertex the tree edge that leads to it; none at a root.
    pub(crate) parents: Numbers,
    /// For each edge where it begins and where it ends.
    pub(crate) sources: Numbers,
    pub(crate) targets: Numbers,
    /// For each edge the least height that it leads back to: it or what lies behind it.
    pub(crate) low_points: Numbers,
    /// The least but one such height.
    second_low_points: Numbers,
    /// For each edge where it stands among those with its source: an edge that leads farther back
    /// encloses the others, and one that leads back to two heights those that lead to one.
    pub(crate) nesting_depths: Numbers,
    incidences: Groups,
    walk: Walk,
}

impl Orientation {
    /// That of the empty graph.
    pub(crate) fn new(alloc: Global) -> Self {
        Orientation {
            vertices: 0,
            edges: 0,
            heights: Numbers::new(alloc),
            parents: Numbers::new(alloc),
            sources: Numbers::new(alloc),
            targets: Numbers::new(alloc),
            low_points: Numbers::new(alloc),
            second_low_points: Numbers::new(alloc),
            nesting_depths: Numbers::new(alloc),
            incidences: Groups::new(alloc),
            walk: Walk::new(alloc),
        }
    }

    /// Makes it that of a graph.
    pub(crate) fn orient(&mut self, vertices: u32, ends: &[Ends]) -> Result<(), AllocError> {
        self.reset(vertices, number_of(ends.len()))?;
        fill_incidences(&mut self.incidences, ends);
        self.search(ends);
        Ok(())
    }

    /// A number that no search from one root takes more steps than.
    pub(crate) fn steps(&self) -> u64 {
        let vertices = self.vertices as u64;
        let edges = self.edges as u64;
        vertices + 2 * edges + 1
    }

    /// Begins anew, with nothing known.
    fn reset(&mut self, vertices: u32, edges: u32) -> Result<(), AllocError> {
        self.vertices = vertices;
        self.edges = edges;
        self.heights.reset(vertices, NONE)?;
        self.parents.reset(vertices, NONE)?;
        self.sources.reset(edges, NONE)?;
        self.targets.reset(edges, NONE)?;
        self.low_points.reset(edges, 0)?;
        self.second_low_points.reset(edges, 0)?;
        self.nesting_depths.reset(edges, 0)?;
        self.incidences
            .begin(vertices, edges.saturating_add(edges))?;
        self.walk.reset(vertices)
    }

    /// Searches from a root in each component.
    fn search(&mut self, ends: &[Ends]) {
        for vertex in 0..self.vertices {
            if self.heights.at(vertex) == NONE {
                self.search_from(vertex, ends);
            }
        }
    }

    /// Searches the component of a root.
    fn search_from(&mut self, root: u32, ends: &[Ends]) {
        self.heights.set(root, 0);
        self.walk.push(root, self.incidences.start(root));
        for _step in 0..self.steps() {
            let Some(vertex) = self.walk.top() else {
                return;
            };
            self.step(vertex, ends);
        }
    }

    /// Takes the next edge at a vertex, or goes back from it after its last one.
    fn step(&mut self, vertex: u32, ends: &[Ends]) {
        let place = self.walk.next(vertex);
        if place >= self.incidences.end(vertex) {
            self.walk.pop();
            let parent = self.parents.at(vertex);
            self.finish(parent);
            return;
        }
        self.walk.advance(vertex);
        let edge = self.incidences.item(place);
        if self.sources.at(edge) == NONE
            && let Some(both) = ends.get(edge as usize)
        {
            self.follow(edge, vertex, both.other(vertex));
        }
    }

    /// Turns an edge from its source to its target, which becomes a tree edge where the target was
    /// not met.
    fn follow(&mut self, edge: u32, source: u32, target: u32) {
        let height = self.heights.at(source);
        self.sources.set(edge, source);
        self.targets.set(edge, target);
        self.low_points.set(edge, height);
        self.second_low_points.set(edge, height);
        let met = self.heights.at(target);
        if met == NONE {
            self.parents.set(target, edge);
            self.heights.set(target, height.saturating_add(1));
            self.walk.push(target, self.incidences.start(target));
        } else {
            self.low_points.set(edge, met);
            self.finish(edge);
        }
    }

    /// Notes the nesting depth of an edge behind which all is known, and tells the tree edge before
    /// it how far it leads back.
    fn finish(&mut self, edge: u32) {
        let low = self.low_points.at(edge);
        let second = self.second_low_points.at(edge);
        let source = self.sources.at(edge);
        let leads_twice = second < self.heights.at(source);
        let depth = low.saturating_add(low).saturating_add(leads_twice as u32);
        self.nesting_depths.set(edge, depth);
        let parent = self.parents.at(source);
        self.join(parent, low, second);
    }

    /// The two least of the heights that a tree edge leads back to and of these two.
    fn join(&mut self, parent: u32, low: u32, second: u32) {
        let least = self.low_points.at(parent);
        if low < least {
            self.low_points.set(parent, low);
            self.second_low_points.set(parent, least.min(second));
        } else if low > least {
            self.second_low_points.lower(parent, low);
        } else {
            self.second_low_points.lower(parent, second);
        }
    }
}

/// The edges at each vertex.
pub(crate) fn fill_incidences(incidences: &mut Groups, ends: &[Ends]) {
    announce_incidences(incidences, ends);
    incidences.lay_out();
    put_incidences(incidences, ends);
}

/// Announces each edge at both ends.
fn announce_incidences(incidences: &mut Groups, ends: &[Ends]) {
    for both in ends {
        incidences.announce(both.a);
        incidences.announce(both.b);
    }
}

/// Puts each edge at both ends.
fn put_incidences(incidences: &mut Groups, ends: &[Ends]) {
    for edge in 0..number_of(ends.len()) {
        if let Some(both) = ends.get(edge as usize) {
            incidences.put(both.a, edge);
            incidences.put(both.b, edge);
        }
    }
}
