//! The version store: `left_right`, with a version in the slot that readers take.

ghost use Rattle.std.specs.Prelude.{◌≡◌, ◌<◌, ◌^◌, IfOk, Some};
ghost use Rattle.std.specs.Arc.{arc_value};
ghost use Rattle.topo_versions.specs.Names.{prices_named};
ghost use Rattle.topo_versions.specs.Versions.{IsVersionFrom, entries_shown};

use crate::brand::ServiceBrand;
use crate::log_prefix::LogPrefix;
use crate::publishing::VersionWriter;
use crate::slot::Slot;
use crate::version::Version;
use core::mem::replace_with;
use crossbeam_utils::rule::Unruled;
use left_right::reader::Reader;
use left_right::writer::Writer;
use std::alloc::{AllocError, Global};
use std::sync::{Arc, Wait};
use topo_picture::Picture;
use topo_price::tariff::PriceFn;

/// A reader: what takes versions.
pub struct VersionReader<F: PriceFn, K: ServiceBrand<F>> {
    reader: Reader<Slot<F, K>, (), Unruled>,
}

// Written out, so that it is proved once: a derived one is proved anew in each function that lets
// such a value go.
impl<F: PriceFn, K: ServiceBrand<F>> Drop for VersionReader<F, K> {
    fn drop(self) {
        let VersionReader { reader } = self;
        drop(reader);
    }
}

impl<F: PriceFn, K: ServiceBrand<F>> VersionReader<F, K> {
    /// The version of now; none where the store has ended or no further share of it is left.
    pub fn current(&mut self) -> Option<Version<F, K>> {
        replace_with(
            &mut self.reader,
            (),
            |reader, ()| match reader.enter_as::<Unruled>() {
                Ok(reading) => {
                    let found = reading.get().version();
                    (reading.leave(), found)
                }
                Err(reader) => (reader, None),
            },
        )
    }
}

/// The writer of versions.
pub type StoreWriter<F, K> = Writer<Slot<F, K>, (), (), Unruled>;

/// A store that shows a version to so many readers at most.
pub fn new_store<F: PriceFn, K: ServiceBrand<F>>(
    alloc: Global,
    first: Version<F, K>,
    readers: usize,
) -> Result<StoreWriter<F, K>, AllocError>
    requires readers { (0 < readers) × (readers < 2 ^ 32) }
    ensures { IfOk result (λ w. w.desk.shown.value ≡ Some first) }
{
    StoreWriter::<F, K>::new(alloc, Slot::of(first), Slot::blank(), readers)
}

impl<F: PriceFn, K: ServiceBrand<F>> VersionWriter<F, K> for StoreWriter<F, K> {
    ghost published = { λ w. entries_shown w.desk.shown.value };

    // The next version is shown in the slot that is blank. Once the readers have left the other
    // slot, that one becomes blank.
    fn publish<R: Wait>(&mut self, rt: &R, prefix: &LogPrefix<F, K>, picture: Arc<Picture>)
        requires follows { IsVersionFrom (prices_named F.may_return K.closure) K.start prefix.now
            (arc_value picture) }
        ensures { entries_shown self.new.desk.shown.value ≡ Some prefix.now }
    {
        let next = Slot::of(Version::new(prefix.share(), picture));
        replace_with(
            &mut self.desk,
            next,
            |desk, next|
                ensures { result.0.shown.value ≡ next }
            {
                let (open, mut spare) = desk.open(rt);
                *spare = next;
                let (open, mut spare) = open.show_as::<Unruled>(spare).open(rt);
                *spare = Slot::blank();
                (open.shelve(spare), ())
            },
        );
    }

    fn reader(&self) -> Result<VersionReader<F, K>, AllocError> {
        Ok(VersionReader {
            reader: self.factory().reader()?,
        })
    }

    fn end<R: Wait>(self, rt: &R) {
        drop(self.take(rt));
    }
}
