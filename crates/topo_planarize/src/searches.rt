//! The searches in the components of a graph, one after another.
//!
//! Nobody has to trust them: what they find is judged.

use crate::components::{Component, Components, shown_components, split_graph};
use std::alloc::{AllocError, Global};
use std::sync::Arc;
use topo_core::listed::Listed;
use topo_graph::{Graph, Part};
use topo_price::tariff::{PriceFn, Tariff};
use topo_search::{Options, Progress, Search, SearchFault};

/// What searches found: a picture of each component, the vertices that have no edge, and the
/// crossings at the end of each order.
#[derive(Drop)]
pub(crate) struct Found {
    pub parts: Vec<Part>,
    pub others: Vec<u32>,
    pub tries: Vec<u64>,
}

/// Pictures that searches begin with, one for each component, and the vertices that have no edge.
#[derive(Drop)]
pub(crate) struct Beginning {
    pub parts: Vec<Part>,
    pub others: Vec<u32>,
}

/// The search in one component, and its vertices and edges by their numbers in the graph.
struct Running<F: PriceFn> {
    search: Search<F>,
    vertices: Vec<u32>,
    edges: Vec<u32>,
}

impl<F: PriceFn + Drop> Drop for Running<F> {
    fn drop(self) {
        let Running {
            search,
            vertices,
            edges,
        } = self;
        drop(search);
        drop(vertices);
        drop(edges);
    }
}

impl<F: PriceFn> Running<F> {
    /// The search, and the vertices and edges of its component.
    fn into_parts(self) -> (Search<F>, Vec<u32>, Vec<u32>) {
        let Running {
            search,
            vertices,
            edges,
        } = self;
        (search, vertices, edges)
    }
}

/// How far searches have come: which component is searched, counted from 1, of how many, how many
/// crossings its best picture has, where there is one, and how many orders have ended.
#[derive(Clone, Copy, Debug, PartialEq, Eq)]
pub struct Way {
    pub component: usize,
    pub components: usize,
    pub crossings: Option<u64>,
    pub orders: u32,
}

impl Way {
    /// Where nothing is searched.
    pub(crate) const NONE: Way = Way {
        component: 0,
        components: 0,
        crossings: None,
        orders: 0,
    };
}

/// The searches in the components of a graph, one after another.
pub(crate) struct Searches<F: PriceFn> {
    tariff: Arc<Tariff<F>>,
    options: Options,
    beginning: Option<Arc<Beginning>>,
    // The components that were not searched yet, the next one last.
    waiting: Vec<Component>,
    running: Option<Running<F>>,
    found: Found,
    way: Way,
    has_ended: bool,
    fault: Option<SearchFault>,
    ends_soon: bool,
    is_hurried: bool,
}

// Written out, so that it is proved once: a derived one is proved anew in each function that lets
// such a value go.
impl<F: PriceFn + Drop> Drop for Searches<F> {
    fn drop(self) {
        let Searches {
            tariff,
            options: _,
            beginning,
            waiting,
            running,
            found,
            way: _,
            has_ended: _,
            fault: _,
            ends_soon: _,
            is_hurried: _,
        } = self;
        drop(tariff);
        drop(beginning);
        drop(waiting);
        drop(running);
        drop(found);
    }
}

/// The place in the graph of an edge of a component.
fn place_of(edges: &[u32], edge: u32) -> u32 {
    match edges.get(edge as usize) {
        Some(place) => *place,
        None => 0,
    }
}

/// The fault of a search, with the place of its edge in the graph.
fn fault_in_graph(fault: SearchFault, edges: &[u32]) -> SearchFault {
    match fault {
        SearchFault::NotPlanarized(edge) => SearchFault::NotPlanarized(place_of(edges, edge)),
        _ => fault,
    }
}

/// The places in the graph of edges of a component.
fn places_of(alloc: Global, edges: &[u32], own: &[u32]) -> Result<Listed<u32>, AllocError> {
    let mut places = Vec::with_capacity(alloc, own.len())?;
    for edge in own {
        places.push(place_of(edges, *edge))?;
    }
    Ok(Listed::from_vec(places))
}

/// The components of a graph, or those that the pictures show that it begins with.
fn components_of(
    alloc: Global,
    graph: &Graph,
    beginning: &Option<Arc<Beginning>>,
) -> Result<Components, AllocError> {
    match beginning {
        Some(beginning) => shown_components(alloc, &beginning.parts, &beginning.others),
        None => split_graph(alloc, graph),
    }
}

impl<F: PriceFn> Searches<F> {
    /// Searches for pictures of a graph at these prices, that begin with these pictures where there
    /// are some.
    pub(crate) fn new(
        alloc: Global,
        graph: &Graph,
        beginning: Option<Arc<Beginning>>,
        tariff: Arc<Tariff<F>>,
        options: Options,
    ) -> Result<Self, AllocError>
    where
        F: Drop,
    {
        let Components { mut parts, others } = components_of(alloc, graph, &beginning)?;
        let components = parts.len();
        // The first one is searched first.
        parts.reverse();
        Ok(Searches {
            tariff,
            options,
            beginning,
            waiting: parts,
            running: None,
            found: Found {
                parts: Vec::new(alloc),
                others,
                tries: Vec::new(alloc),
            },
            way: Way {
                component: 0,
                components,
                crossings: None,
                orders: 0,
            },
            has_ended: false,
            fault: None,
            ends_soon: false,
            is_hurried: false,
        })
    }

    /// Leaves repair out in each component until there is a picture of it.
    pub(crate) fn hurry(&mut self) {
        self.is_hurried = true;
    }

    /// Ends the search in each component as soon as there is a picture of it.
    pub(crate) fn end_soon(&mut self) {
        self.ends_soon = true;
    }

    /// Whether all components were searched, or there is a fault.
    pub(crate) fn have_ended(&self) -> bool {
        self.has_ended
    }

    /// How far they have come.
    pub(crate) fn way(&self) -> Way {
        self.way
    }

    /// Searches for a while, some 50 milliseconds.
    pub(crate) fn step(&mut self, alloc: Global)
    where
        F: Drop,
    {
        match self.go_on(alloc) {
            Ok(has_ended) => self.has_ended = has_ended,
            Err(fault) => {
                self.has_ended = true;
                self.fault = Some(fault);
            }
        }
    }

    /// What was found, or why nothing was.
    pub(crate) fn into_found(self) -> Result<Found, SearchFault>
    where
        F: Drop,
    {
        let Searches {
            tariff,
            options: _,
            beginning,
            waiting,
            running,
            found,
            way: _,
            has_ended: _,
            fault,
            ends_soon: _,
            is_hurried: _,
        } = self;
        drop(tariff);
        drop(beginning);
        drop(waiting);
        drop(running);
        match fault {
            Some(fault) => Err(fault),
            None => Ok(found),
        }
    }

    /// Goes on with the search in a component, or begins with the next one. True where there is
    /// none.
    fn go_on(&mut self, alloc: Global) -> Result<bool, SearchFault>
    where
        F: Drop,
    {
        let mut running = match self.running.take() {
            Some(running) => running,
            None => match self.waiting.pop() {
                Some(component) => self.begin(alloc, component)?,
                None => return Ok(true),
            },
        };
        if self.is_hurried {
            running.search.hurry();
        }
        match running.search.step(alloc) {
            Ok(progress) => {
                if self.note_way(progress) {
                    self.finish(alloc, running)?;
                } else {
                    self.running = Some(running);
                }
                Ok(false)
            }
            Err(fault) => Err(fault_in_graph(fault, &running.edges)),
        }
    }

    /// Begins the search in a component.
    fn begin(&mut self, alloc: Global, component: Component) -> Result<Running<F>, SearchFault>
    where
        F: Drop,
    {
        let Component {
            vertices,
            edges,
            own_edges,
        } = component;
        let tariff = Arc::clone(&self.tariff)?;
        let mut search = Search::new(alloc, vertices.len(), own_edges, tariff, self.options)?;
        if let Some(beginning) = &self.beginning {
            if let Some(part) = beginning.parts.get(self.way.component) {
                search.begin_from(alloc, &part.rows)?;
            }
        }
        self.way.component = self.way.component.saturating_add(1);
        Ok(Running {
            search,
            vertices,
            edges,
        })
    }

    /// Notes how far the search in a component has come, and says whether it ends.
    fn note_way(&mut self, progress: Progress) -> bool {
        match progress {
            Progress::Done => true,
            Progress::Going { crossings, orders } => {
                self.way.crossings = crossings;
                self.way.orders = orders;
                self.ends_soon && crossings.is_some()
            }
        }
    }

    /// Keeps what the search in a component found. Where it found nothing, nothing is kept.
    fn finish(&mut self, alloc: Global, running: Running<F>) -> Result<(), SearchFault>
    where
        F: Drop,
    {
        let (search, vertices, edges) = running.into_parts();
        self.found.tries.extend_from_slice(search.tries())?;
        self.way.crossings = None;
        self.way.orders = 0;
        let Some((rows, own)) = search.into_best(alloc)? else {
            return Ok(());
        };
        let edges = places_of(alloc, &edges, &own)?;
        let part = Part {
            rows,
            vertices: Listed::from_vec(vertices),
            edges,
        };
        match self.found.parts.push(part) {
            Ok(()) => Ok(()),
            Err(_) => Err(SearchFault::Memory),
        }
    }
}
