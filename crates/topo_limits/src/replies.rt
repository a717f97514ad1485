//! Replies, and what is told of them.

use std::alloc::{AllocError, Global};
use topo_core::calls::Reply;
use topo_core::darts::{Dart, Way};
use topo_core::routes::Inserted;

/// Whether a route crosses segment 1, 2, .., so many, of edge 0, of edge 1 and so on, each from left
/// to right.
pub(crate) fn is_along_ray(crossed: &[Dart], each: u32) -> bool {
    let (mut edge, mut seg) = (0u32, 1u32);
    for dart in crossed {
        if dart.edge.number() != edge || dart.seg != seg || dart.way != Way::Forward {
            return false;
        }
        if seg < each {
            seg = seg.saturating_add(1);
        } else {
            seg = 1;
            edge = edge.saturating_add(1);
        }
    }
    true
}

/// A new edge by its id, its positions, and how many segments it crosses at which price. Each edge of
/// the ray is crossed so often.
fn inserted_text(alloc: Global, made: &Inserted, each: u32) -> Result<String, AllocError> {
    let route = &made.route;
    let crossed = route.crossed.as_slice();
    let way = if is_along_ray(crossed, each) {
        ""
    } else {
        ", not along the ray"
    };
    format!(in alloc;
        "edge {} from {} to {} across {} at {}{way}",
        made.id.number(),
        route.start,
        route.end,
        crossed.len(),
        made.price
    )
}

/// What is told of a reply: a refusal by its number and name, out of memory too. Each edge of the ray
/// is crossed so often.
pub(crate) fn reply_text(
    alloc: Global,
    reply: &Result<Reply, AllocError>,
    each: u32,
) -> Result<String, AllocError> {
    match reply {
        Ok(Reply::Grown { vertex, edge }) => format!(in alloc;
            "vertex {} on edge {}",
            vertex.number(),
            edge.number()
        ),
        Ok(Reply::Inserted(made)) => inserted_text(alloc, made, each),
        Ok(Reply::Deleted(edge)) => format!(in alloc; "without edge {}", edge.number()),
        Ok(Reply::Refused(why)) => format!(in alloc; "{why}"),
        Err(_) => String::from_str(alloc, "8 Memory"),
    }
}

/// Whether a reply is a new vertex of this number on a new edge of this id.
pub(crate) fn is_grown(reply: &Result<Reply, AllocError>, vertex: u32, edge: u32) -> bool {
    match reply {
        Ok(
            Reply::Grown {
                vertex: new_vertex,
                edge: new_edge,
            },
        ) => new_vertex.number() == vertex && new_edge.number() == edge,
        _ => false,
    }
}

/// Whether a reply is a new edge of this id that crosses nothing, at position 0 of both ends.
pub(crate) fn is_uncrossed(reply: &Reply, edge: u32) -> bool {
    match reply {
        Reply::Inserted(made) => {
            made.id.number() == edge
                && made.price == 0
                && made.route.start == 0
                && made.route.end == 0
                && made.route.crossed.len() == 0
        }
        _ => false,
    }
}

/// Whether a reply is that this edge was taken out.
pub(crate) fn is_deleted(reply: &Reply, edge: u32) -> bool {
    match reply {
        Reply::Deleted(gone) => gone.number() == edge,
        _ => false,
    }
}
