//! Replicas: pictures after earlier entries of a history, kept to be carried on. A picture
//! that readers held becomes one when another takes its place, and is free once none of them holds
//! it.

ghost use Rattle.std.specs.Prelude.{◌≡◌, ◌<◌, ◌++◌, [], ◌∷◌, All, Contains, IfOk};
ghost use Rattle.std.specs.Prelude.{IfSome, drop, if◌then◌else◌, length, nat_lt};

use std::alloc::{AllocError, Global};
use std::marker::Model;
use std::sync::Arc;
use topo_picture::Picture;

/// So many replicas are kept at most.
const MAX_REPLICAS: usize = 20;

/// A picture with the number of entries of a history that lead to it.
#[derive(Drop)]
pub(crate) struct Replica {
    pub picture: Arc<Picture>,
    pub entries: usize,
}

/// The replicas that are kept, the one kept longest first.
#[derive(Drop)]
pub(crate) struct Replicas {
    kept: Vec<Replica>,
}

impl Model for Replicas {
    ghost use Rattle.std.specs.Prelude.{◌≤◌, List, vec_len, vec_capacity};
    ghost use Rattle.topo_book.specs.declared.replicas.Replica.{Replica};
    ghost use Rattle.topo_book.specs.declared.replicas.TheConstants.{MAX_REPLICAS};

    ghost Value = { List Replica };

    ghost view = { λ r. r.kept.items };

    ghost invariant = { λ r. (vec_len r.kept ≤ MAX_REPLICAS)
        × (MAX_REPLICAS ≤ vec_capacity r.kept) };
}

impl Replicas {
    /// No replicas, with room for as many as are kept at most.
    pub(crate) fn new(alloc: Global) -> Result<Self, AllocError>
        ensures { IfOk result (λ r. r ≡ []) }
    {
        Ok(Replicas {
            kept: Vec::with_capacity(alloc, MAX_REPLICAS)?,
        })
    }

    /// Keeps one more. Where as many are kept as may be, the one kept longest goes. It takes no
    /// memory.
    pub(crate) fn keep(&mut self, replica: Replica)
        ensures { self.new ≡ (if nat_lt (length self.old)
            MAX_REPLICAS then self.old else drop 1 self.old) ++ replica ∷ [] }
    {
        if self.kept.len() >= MAX_REPLICAS {
            self.kept.remove(0);
        }
        self.kept.push_reserved(replica);
    }

    /// Keeps none any more.
    pub(crate) fn clear(&mut self)
        ensures { self.new ≡ [] }
    {
        self.kept.clear();
    }

    /// The one kept last of those that nobody else holds and that stand after at least so many
    /// entries. It is kept no longer.
    pub(crate) fn take_unshared(&mut self, least: usize) -> Option<Replica>
        ensures taken { IfSome result (Contains self.old) }
        ensures rest { All (Contains self.old) self.new }
    {
        match unshared_place(self.kept.as_slice(), least) {
            Some(place) => Some(self.kept.remove(place)),
            None => None,
        }
    }
}

/// The last place of a replica that nobody else holds and that stands after at least so many
/// entries.
fn unshared_place(kept: &[Replica], least: usize) -> Option<usize>
    ensures { IfSome result (λ i. i < length kept.now) }
{
    for place in (0..kept.len()).rev() {
        let replica = &kept[place];
        if replica.entries >= least && Arc::strong_count(&replica.picture) == 1 {
            return Some(place);
        }
    }
    None
}
