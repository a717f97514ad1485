//! Routes in the dual graph of a picture: the first of the cheapest, and the check of a plan that
//! somebody hands in.
//!
//! `FaceGraph` is what a picture has to answer of its darts, which have names in no particular
//! order, and `Dual` what it has to where the names are the numbers in canonical order. `search`
//! takes a `Dual` and gives the first of the least routes with its price and, as a certificate, the
//! least cost from each face to the target; `first_route` takes any `FaceGraph`, gives the route
//! and its price alone, and searches from both ends, no further than until the two meet. Where a
//! picture knows how far each face lies from four vertices (`landmark_distances`), it searches from
//! one end and is guided to the other.
//! `first_route_seen` hands out besides the region that its search has seen: a later picture that
//! has kept it has the same first route. `check` says of any plan whether it is that, and which
//! test it fails first: its Ok means that the route is the first of the least, whoever made the
//! plan. `steps` goes from dart to dart, for a search of one's own.
//!
//! Two folders can be passed by. `guided` has what guides a search. `planned` has the region, and
//! its `laws` say when a route survives a change of the picture: where each face that its search
//! has seen is still there, it is the first of the least routes of the later picture too.
//!
//! A caller, over any picture (`Picture::embedded` of `topo_picture` gives one):
//!
//! ```rust
//! /// The price of a cheapest route between two vertices, if there is a route.
//! pub fn least_price<W: FaceGraph, F: PriceFn>(
//!     alloc: Global,
//!     graph: &W,
//!     tariff: &Tariff<F>,
//!     u: u32,
//!     v: u32,
//! ) -> Result<Option<u64>, AllocError>
//!     requires u_there { u < length (W.named graph.now).rows.rotations }
//!     requires v_there { v < length (W.named graph.now).rows.rotations }
//!     requires apart { u ≢ v }
//! {
//!     let mut work = Workspace::new(alloc)?;
//!     match first_route(alloc, graph, tariff, u, v, &mut work)? {
//!         Some(found) => Ok(Some(found.price)),
//!         None => Ok(None),
//!     }
//! }
//! ```
#![tactic(auto)]

mod both_ends;
mod bucket_queue;
pub mod check;
mod descent;
mod direct;
pub mod dual;
pub mod face_graph;
mod faces;
pub mod guided;
mod heights;
pub mod plan;
pub mod planned;
mod priced_graph;
pub mod search;
mod spread;
mod stamped_array;
pub mod steps;
mod walks;
pub mod workspace;
