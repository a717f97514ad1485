//! One of the two slots of the version store.

ghost use Rattle.std.specs.Prelude.{◌≡◌, IfSome, Some, None};

use crate::brand::ServiceBrand;
use crate::version::Version;
use left_right::Absorb;
use std::alloc::AllocError;
use std::marker::Model;
use topo_price::tariff::PriceFn;

/// A slot of the store: the version that readers take, and nothing in the slot that they have left,
/// so that the store keeps no version before the one of now.
pub struct Slot<F: PriceFn, K: ServiceBrand<F>> {
    version: Option<Version<F, K>>,
}

// Written out, so that it does not ask that the closure may be dropped.
impl<F: PriceFn, K: ServiceBrand<F>> Drop for Slot<F, K> {
    fn drop(self) {
        let Slot { version } = self;
        drop(version);
    }
}

impl<F: PriceFn, K: ServiceBrand<F>> Model for Slot<F, K> {
    ghost use Rattle.std.specs.Prelude.{Option};
    ghost use Rattle.topo_versions.specs.Versions.{VersionState};

    ghost Value = { Option VersionState };

    ghost view = { λ s. s.version };
}

// A slot is written whole, and takes in no operations.
impl<F: PriceFn, K: ServiceBrand<F>> Absorb<()> for Slot<F, K> {
    type State = ();

    ghost state = { λ s. tt };

    ghost applied = { λ s o. s };

    fn absorb_first(&mut self, _operation: &(), _other: &Slot<F, K>) -> Result<(), AllocError> {
        Ok(())
    }
}

impl<F: PriceFn, K: ServiceBrand<F>> Slot<F, K> {
    /// The slot that shows a version.
    pub(crate) fn of(version: Version<F, K>) -> Slot<F, K>
        ensures { result ≡ Some version }
    {
        Slot {
            version: Some(version),
        }
    }

    /// The slot that nobody looks at.
    pub(crate) fn blank() -> Slot<F, K>
        ensures { result ≡ None }
    {
        Slot { version: None }
    }

    /// The version that it shows, over one more share of the picture where one is left.
    pub(crate) fn version(&self) -> Option<Version<F, K>>
        ensures { IfSome result (λ version. self.now ≡ Some version) }
    {
        match &self.version {
            Some(version) => version.share().ok(),
            None => None,
        }
    }
}
