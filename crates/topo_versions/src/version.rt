//! What readers take.

ghost use Rattle.std.specs.Prelude.{◌≡◌, length, IfOk};
ghost use Rattle.std.specs.Arc.{arc_value};
ghost use Rattle.topo_versions.specs.Names.{prices_named};
ghost use Rattle.topo_versions.specs.Versions.{IsVersionFrom};

use crate::brand::ServiceBrand;
use crate::log_prefix::LogPrefix;
use std::alloc::{AllocError, Global};
use std::marker::{Model, PhantomData};
use std::sync::Arc;
use topo_picture::Picture;
use topo_price::tariff::PriceFn;

/// A picture that no longer changes, and the beginning of the list of accepted entries that leads
/// to it. Contracts see the picture and the entries.
pub struct Version<F: PriceFn, K: ServiceBrand<F>> {
    picture: Arc<Picture>,
    prefix: LogPrefix<F, K>,
    of: PhantomData<F>,
}

// Written out, so that it is proved once: a derived one is proved anew in each function that lets
// such a value go.
impl<F: PriceFn, K: ServiceBrand<F>> Drop for Version<F, K> {
    fn drop(self) {
        let Version {
            picture,
            prefix,
            of: _,
        } = self;
        drop(picture);
        drop(prefix);
    }
}

impl<F: PriceFn, K: ServiceBrand<F>> Model for Version<F, K> {
    ghost use Rattle.std.specs.Arc.{arc_value};
    ghost use Rattle.topo_versions.specs.Names.{prices_named};
    ghost use Rattle.topo_versions.specs.Versions.{VersionState, IsVersionFrom};

    ghost Value = { VersionState };

    ghost view = { λ v. record { picture = arc_value v.picture; entries = v.prefix } };

    ghost invariant = { λ v. IsVersionFrom (prices_named F.may_return K.closure) K.start v.prefix
        (arc_value v.picture) };
}

impl<F: PriceFn, K: ServiceBrand<F>> Version<F, K> {
    /// The version after these entries, with the picture that they lead to.
    pub fn new(prefix: LogPrefix<F, K>, picture: Arc<Picture>) -> Version<F, K>
        requires follows { IsVersionFrom (prices_named F.may_return K.closure) K.start prefix
            (arc_value picture) }
        ensures entries { result.entries ≡ prefix }
        ensures picture { result.picture ≡ arc_value picture }
    {
        Version {
            picture,
            prefix,
            of: PhantomData,
        }
    }

    /// A copy, over one more share of the picture. It takes no memory.
    pub fn share(&self) -> Result<Version<F, K>, AllocError>
        ensures { IfOk result (λ v. v ≡ self.now) }
    {
        Ok(Version {
            picture: Arc::try_clone(&self.picture)?,
            prefix: self.prefix.share(),
            of: PhantomData,
        })
    }

    /// An equal version, over a copy of the picture that nobody else holds.
    pub fn copy(&self, alloc: Global) -> Result<Version<F, K>, AllocError>
        ensures { IfOk result (λ v. v ≡ self.now) }
    {
        Ok(Version {
            picture: Arc::new(alloc, self.picture.copy(alloc)?)?,
            prefix: self.prefix.share(),
            of: PhantomData,
        })
    }

    /// Its share of the picture. The version ends.
    pub fn into_picture(self) -> Arc<Picture>
        ensures picture { arc_value result ≡ self.picture }
        ensures version { IsVersionFrom (prices_named F.may_return K.closure)
            K.start self.entries self.picture }
    {
        let Version {
            picture,
            prefix,
            of: _,
        } = self;
        drop(prefix);
        picture
    }

    /// How many accepted entries lead to its picture.
    pub fn number(&self) -> u64
        ensures { result ≡ length self.now.entries }
    {
        self.prefix.len()
    }

    /// The picture after its entries.
    pub fn picture(&self) -> &Picture
        ensures picture { result.now ≡ self.now.picture }
        ensures version { IsVersionFrom (prices_named F.may_return K.closure)
            K.start self.now.entries self.now.picture }
    {
        &self.picture
    }

    /// Its entries. A copy of them holds no share of the picture, so the picture is free to be
    /// carried on while the copy is kept.
    pub fn prefix(&self) -> &LogPrefix<F, K>
        ensures { result.now ≡ self.now.entries }
    {
        &self.prefix
    }
}
