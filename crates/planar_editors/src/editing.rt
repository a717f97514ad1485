//! What an editor does, and what a viewer does.

use std::alloc::{AllocError, Global};
use std::sync::Wait;
use topo_core::calls::Reply;
use topo_price::tariff::PriceFn;
use topo_service::{Pass, Service};
use topo_versions::ServiceBrand;

/// How many vertices an editor draws.
const STEPS: u32 = 8;

/// How often a viewer looks.
pub(crate) const LOOKS: u32 = 200;

/// Draws a chain of vertices that begins at the editor's own vertex, and an edge back to that one
/// from each of them. Then it takes the last edge out, and asks for one that is refused. All its
/// edges are of one kind.
///
/// The calls of the other editor come in between, so which numbers its vertices and edges get, and
/// which edges of the other it crosses, is another in each run. It learns that from the replies.
pub(crate) fn edit<F: PriceFn + Drop, K: ServiceBrand<F>, R: Wait>(
    rt: &R,
    alloc: Global,
    service: &Service<F, K>,
    pass: &mut Pass<F, K>,
) -> Result<(), AllocError> {
    let home = pass.number();
    let kind = pass.number();
    let mut end = home;
    let mut drawn = 0;
    for _ in 0..STEPS {
        // a new vertex, on a new edge from the end of the chain
        if let Reply::Grown { vertex, edge: _ } = service.grow(rt, pass, end, 0, kind)? {
            end = vertex.number();
        }
        if let Reply::Inserted(made) = draw(rt, alloc, service, pass, home, end)? {
            drawn = made.id.number();
        }
    }
    let _ = service.delete(rt, pass, drawn)?;
    // an edge has two ends, so this one is refused, for which there is a receipt too
    let _ = service.insert(rt, pass, home, home, kind)?;
    Ok(())
}

/// A new edge. Where it goes is looked for on a view, while others make their calls. The service
/// takes that route as it is if no call meanwhile changed what the search has seen, and else looks
/// for it under the lock.
fn draw<F: PriceFn + Drop, K: ServiceBrand<F>, R: Wait>(
    rt: &R,
    alloc: Global,
    service: &Service<F, K>,
    pass: &mut Pass<F, K>,
    from: u32,
    to: u32,
) -> Result<Reply, AllocError> {
    let kind = pass.number();
    match pass.find(alloc, service.tariff(), from, to) {
        Ok(found) => service.insert_found(rt, pass, kind, &found),
        Err(_) => service.insert(rt, pass, from, to, kind),
    }
}

/// Takes views while the editors work. It says whether none was earlier than the one before, and
/// none had fewer vertices, of which no editor takes one out.
pub(crate) fn watch<F: PriceFn + Drop, K: ServiceBrand<F>>(pass: &mut Pass<F, K>) -> bool {
    let mut number = 0;
    let mut vertices = 0;
    for _ in 0..LOOKS {
        let Ok(version) = pass.view() else {
            return false;
        };
        let counts = version.picture().counts();
        if version.number() < number || counts.vertices < vertices {
            return false;
        }
        number = version.number();
        vertices = counts.vertices;
    }
    true
}
