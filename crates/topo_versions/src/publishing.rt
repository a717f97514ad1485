//! What a service asks of its version store.

ghost use Rattle.std.specs.Prelude.{◌≡◌, List, Option, Some};
ghost use Rattle.std.specs.Arc.{arc_value};
ghost use Rattle.topo_core.specs.declared.calls.Entry.{Entry};
ghost use Rattle.topo_versions.specs.Names.{prices_named};
ghost use Rattle.topo_versions.specs.Versions.{IsVersionFrom};

use crate::brand::ServiceBrand;
use crate::log_prefix::LogPrefix;
use crate::store::VersionReader;
use std::alloc::AllocError;
use std::sync::{Arc, Wait};
use topo_picture::Picture;
use topo_price::tariff::PriceFn;

/// What publishes versions. It is a trait, with one type that has it, since a service holds it
/// under a lock. What lies there has to have a proved destructor, which the writer of `left_right`
/// has not, and which a type parameter need not have.
pub trait VersionWriter<F: PriceFn, K: ServiceBrand<F>> {
    /// The entries of the version that readers take now, if there is one.
    ghost published: { Self → Option (List Entry) };

    /// Publishes the version after these entries, with the picture that they lead to. It keeps no
    /// version before it.
    fn publish<R: Wait>(&mut self, rt: &R, prefix: &LogPrefix<F, K>, picture: Arc<Picture>)
        requires follows { IsVersionFrom (prices_named F.may_return K.closure) K.start prefix.now
            (arc_value picture) }
        ensures { published self.new ≡ Some prefix.now };

    /// A reader; out of memory also if no place for one is left.
    fn reader(&self) -> Result<VersionReader<F, K>, AllocError>;

    /// Ends what is published.
    fn end<R: Wait>(self, rt: &R);
}
