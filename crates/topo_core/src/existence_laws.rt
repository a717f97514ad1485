//! Laws that there is a step for each call. The functions do nothing: their contracts are the laws.

ghost use Rattle.topo_core.specs.ExistenceLaws.{FirstsExist, PricedFirstsExist, StepsExist};

use crate::prices::Prices;

/// Where no route is the first of the least, there is no route with a price.
pub fn firsts_exist<P: Prices>()
    ensures { FirstsExist P.price }
{}

/// Where every edge of a connected picture has a price, one of the routes from any vertex to any
/// other is the first of the least.
pub fn priced_firsts_exist<P: Prices>()
    ensures { PricedFirstsExist P.price }
{}

/// On any picture each call has a reply and a picture after it: it cannot be that there are none.
pub fn steps_exist<P: Prices>()
    ensures { StepsExist P.price }
{}
