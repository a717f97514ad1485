//! Entries that are taken back, by way of a picture that stands some entries behind.

ghost use Rattle.std.specs.Arc.{arc_value};
ghost use Rattle.std.specs.Prelude.{◌≡◌};

use crate::book::Book;
use crate::replicas::Replica;
use std::alloc::{AllocError, Global};
use std::mem;
use std::sync::Arc;
use topo_picture::Picture;
use topo_price::tariff::PriceFn;

/// So many entries are carried out again at most to take back the last ones, once some were.
const FOLLOWER_DISTANCE: usize = 64;

impl<F: PriceFn> Book<F> {
    ghost use Rattle.std.specs.Prelude.{◌≡◌, ◌≤◌, IfOk, OnErr, OnOk, length, take};
    ghost use Rattle.topo_book.specs.Books.{IsLegalBook, IsSameBook, IsUnchanged, StandsAfter};
    ghost use Rattle.topo_book.specs.Replicas.{IsReplicaOf};

    /// Takes back all but the first `entries` of the history: picture, ids and counters are those
    /// after these. The first time, and where more is taken back than a picture that is kept since
    /// then is behind, the entries are carried out again from the start, each as its reply says.
    /// Otherwise it takes a copy of that picture and 64 entries.
    pub fn take_back(&mut self, alloc: Global, entries: usize) -> Result<(), AllocError>
        requires { entries ≤ length self.old.history }
        ensures history { OnOk result (self.new.history ≡ take entries self.old.history) }
        ensures legal { OnOk result (IsLegalBook F.may_return self.new) }
        ensures unchanged { OnErr result (IsUnchanged self.old self.new) }
        ensures same_book { IsSameBook self.old self.new }
    {
        let mut follower = self.take_follower(alloc, entries)?;
        match self.picture_after(alloc, &mut follower, entries) {
            Ok(picture) => {
                self.cut(entries, picture, follower);
                Ok(())
            }
            Err(_) => {
                self.follower = Some(follower);
                Err(AllocError)
            }
        }
    }

    /// A replica that stands after at most so many entries: the one that follows, if it does, and
    /// else the start. The book has none that follows then.
    fn take_follower(&mut self, alloc: Global, entries: usize) -> Result<Replica, AllocError>
        requires { entries ≤ length self.old.history }
        ensures stands { IfOk result (IsReplicaOf F.may_return self.new) }
        ensures before { IfOk result (λ r. r.entries ≤ entries) }
        ensures unchanged { self.new ≡ self.old }
    {
        if let Some(follower) = self.follower.take() {
            if follower.entries <= entries {
                return Ok(follower);
            }
        }
        let picture = Arc::new(alloc, self.start.copy(alloc)?)?;
        Ok(Replica {
            picture,
            entries: 0,
        })
    }

    /// The picture after so many entries, by way of the one that follows, which is carried on as far
    /// as it is to be behind.
    fn picture_after(
        &self,
        alloc: Global,
        follower: &mut Replica,
        entries: usize,
    ) -> Result<Arc<Picture>, AllocError>
        requires stands { IsReplicaOf F.may_return self.now follower.old }
        requires forward { follower.old.entries ≤ entries }
        requires there { entries ≤ length self.now.history }
        ensures picture { IfOk result
            (λ picture. StandsAfter F.may_return self.now entries (arc_value picture)) }
        ensures stands { IsReplicaOf F.may_return self.now follower.new }
        ensures before { follower.new.entries ≤ entries }
    {
        self.follow(alloc, follower, entries)?;
        let picture = Arc::new(alloc, follower.picture.copy(alloc)?)?;
        let mut replica = Replica {
            picture,
            entries: follower.entries,
        };
        self.carry_on(alloc, &mut replica, entries)?;
        Ok(replica.picture)
    }

    /// Carries a replica on until it is no further behind these entries than one that follows may be.
    fn follow(
        &self,
        alloc: Global,
        follower: &mut Replica,
        entries: usize,
    ) -> Result<(), AllocError>
        requires stands { IsReplicaOf F.may_return self.now follower.old }
        requires forward { follower.old.entries ≤ entries }
        requires there { entries ≤ length self.now.history }
        ensures stands { IsReplicaOf F.may_return self.now follower.new }
        ensures before { follower.new.entries ≤ entries }
    {
        let least = entries.saturating_sub(FOLLOWER_DISTANCE);
        if least <= follower.entries {
            return Ok(());
        }
        self.carry_on(alloc, follower, least)
    }

    /// Ends the history after so many entries, after which this picture stands, and which the other
    /// one follows.
    fn cut(&mut self, entries: usize, picture: Arc<Picture>, follower: Replica)
        requires stands { StandsAfter F.may_return self.old entries (arc_value picture) }
        requires follows { IsReplicaOf F.may_return self.old follower }
        requires before { follower.entries ≤ entries }
        ensures history { self.new.history ≡ take entries self.old.history }
        ensures picture { self.new.picture ≡ arc_value picture }
        ensures same_book { IsSameBook self.old self.new }
    {
        self.replicas.clear();
        self.history.truncate(entries);
        let before = mem::replace(&mut self.picture, picture);
        drop(before);
        self.follower = Some(follower);
        self.search_on_replica = false;
    }

    /// Lets the picture that follows, if there is one, come no further behind.
    pub(crate) fn have_followed(&mut self, alloc: Global)
        ensures unchanged { self.new ≡ self.old }
    {
        let Some(mut follower) = self.follower.take() else {
            return;
        };
        // Out of memory it comes further behind, and nothing else.
        let _ = self.follow(alloc, &mut follower, self.history.len());
        self.follower = Some(follower);
    }
}
