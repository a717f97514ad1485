//! Calls of a service as values.

ghost use Rattle.topo_service.specs.Answers.{AnswersCall};
ghost use Rattle.topo_versions.specs.Names.{prices_named};

use std::alloc::AllocError;
use std::sync::Wait;
use topo_core::calls::{Call, Reply};
use topo_price::tariff::PriceFn;
use topo_service::{Pass, Service};
use topo_versions::ServiceBrand;

/// Makes a call of a service with a pass. Out of memory may stand in place of any answer, and then
/// the pass is as it was.
pub fn make<F: PriceFn + Drop, K: ServiceBrand<F>, R: Wait>(
    rt: &R,
    service: &Service<F, K>,
    pass: &mut Pass<F, K>,
    call: Call,
) -> Result<Reply, AllocError>
    ensures { AnswersCall (prices_named F.may_return K.closure) K.start
        pass.old pass.new call result }
{
    match call {
        Call::Grow { u, position, kind } => service.grow(rt, pass, u, position, kind),
        Call::Insert { u, v, kind } => service.insert(rt, pass, u, v, kind),
        Call::Delete { edge } => service.delete(rt, pass, edge),
    }
}
