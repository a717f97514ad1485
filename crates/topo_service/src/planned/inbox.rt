//! What a pass has missed: the accepted entries since it last brought its own version up to date.

ghost use Rattle.std.specs.Prelude.{◌≡◌, ◌≤◌, ◌++◌};
ghost use Rattle.std.specs.Prelude.{IfSome, OnOk, Some, drop, length};
ghost use Rattle.topo_core.specs.History.{versions};
ghost use Rattle.topo_versions.specs.Names.{prices_named};
ghost use Rattle.topo_versions.specs.Versions.{IsVersionFrom};

use std::alloc::{AllocError, Global};
use std::marker::Model;
use std::sync::Arc;
use topo_book::{apply_entry, is_accepted};
use topo_core::calls::Entry;
use topo_picture::Picture;
use topo_price::tariff::{PriceFn, Tariff};
use topo_versions::{LogPrefix, ServiceBrand, Version};

/// So many entries are looked through at most, and so many are kept. To carry out more of them
/// takes longer than a copy of most pictures.
const MAX_MISSED: usize = 256;

/// The accepted entries behind a version, the oldest first. Contracts see the entries of the
/// version with these behind them.
pub(crate) struct Inbox<F: PriceFn, K: ServiceBrand<F>> {
    // The entries of the version.
    from: LogPrefix<F, K>,
    missed: Vec<Entry>,
    // Both together.
    to: LogPrefix<F, K>,
    // Whether all that was accepted since is there. Else nothing is kept.
    is_whole: bool,
}

// Written out, so that it is proved once: a derived one is proved anew in each function that lets
// such a value go.
impl<F: PriceFn, K: ServiceBrand<F>> Drop for Inbox<F, K> {
    fn drop(self) {
        let Inbox {
            from,
            missed,
            to,
            is_whole: _,
        } = self;
        drop(from);
        drop(missed);
        drop(to);
    }
}

impl<F: PriceFn, K: ServiceBrand<F>> Model for Inbox<F, K> {
    ghost use Rattle.std.specs.Prelude.{◌≡◌, ◌++◌, List, true};
    ghost use Rattle.topo_core.specs.declared.calls.Entry.{Entry};

    ghost Value = { List Entry };

    ghost view = { λ i. i.to };

    ghost invariant = { λ i. i.is_whole ≡ true → i.to ≡ i.from ++ i.missed.items };
}

/// The place behind which so many entries of a history are accepted; none if more than `most`
/// entries would be looked at, or there are not so many.
fn place_of_last(history: &[Entry], accepted: u64, most: usize) -> Option<usize>
    ensures within { IfSome result (λ place. place ≤ length history.now) }
    ensures count { IfSome result
        (λ place. length (versions (drop place history.now)) ≡ accepted) }
{
    let mut place = history.len();
    let mut left = accepted;
    while left > 0 {
        if place == 0 || history.len() - place >= most {
            return None;
        }
        place -= 1;
        if is_accepted(&history[place].reply) {
            left -= 1;
        }
    }
    Some(place)
}

/// Puts copies of the accepted entries from a place on behind the others.
fn add_from(
    alloc: Global,
    missed: &mut Vec<Entry>,
    history: &[Entry],
    place: usize,
) -> Result<(), AllocError>
    requires { place ≤ length history.now }
    ensures { OnOk result
        (missed.new.items ≡ missed.old.items ++ versions (drop place history.now)) }
{
    for index in place..history.len() {
        let entry = &history[index];
        if is_accepted(&entry.reply) {
            missed.push(entry.copy(alloc)?)?;
        }
    }
    Ok(())
}

/// Carries entries out on a picture that stands after the accepted entries before them.
fn apply_all<F: PriceFn, K: ServiceBrand<F>>(
    alloc: Global,
    picture: &mut Picture,
    tariff: &Tariff<F>,
    from: &LogPrefix<F, K>,
    entries: &[Entry],
    to: &LogPrefix<F, K>,
) -> Result<(), AllocError>
    requires named { K.closure ≡ Some tariff.now }
    requires stands { IsVersionFrom (prices_named F.may_return K.closure) K.start from.now
        picture.old }
    requires parts { to.now ≡ from.now ++ entries.now }
    ensures { OnOk result (IsVersionFrom (prices_named F.may_return K.closure) K.start to.now
        picture.new) }
{
    // For the proof: what the type keeps.
    to.len();
    for index in 0..entries.len() {
        apply_entry(alloc, picture, tariff, &entries[index])?;
    }
    Ok(())
}

impl<F: PriceFn, K: ServiceBrand<F>> Inbox<F, K> {
    /// An inbox that nothing is put into, until it begins anew.
    pub(crate) fn new(alloc: Global, at: &LogPrefix<F, K>) -> Self {
        Inbox {
            from: at.share(),
            missed: Vec::new(alloc),
            to: at.share(),
            is_whole: false,
        }
    }

    /// Begins anew behind these entries, with none missed.
    pub(crate) fn restart(&mut self, at: &LogPrefix<F, K>)
        ensures { self.new ≡ at.now }
    {
        self.missed.clear();
        self.from = at.share();
        self.to = at.share();
        self.is_whole = true;
    }

    /// Takes in what was accepted since, up to all the accepted entries of a history. If that is
    /// too much, or it is out of memory, it keeps nothing until it begins anew.
    pub(crate) fn learn(&mut self, alloc: Global, history: &[Entry], all: &LogPrefix<F, K>)
        requires { all.now ≡ versions history.now }
    {
        if !self.is_whole {
            return;
        }
        self.is_whole = false;
        if self.missed.len() >= MAX_MISSED || !self.to.is_prefix_of(all) {
            return;
        }
        let accepted = all.len() - self.to.len();
        let Some(place) = place_of_last(history, accepted, MAX_MISSED) else {
            return;
        };
        if add_from(alloc, &mut self.missed, history, place).is_ok() {
            self.to = all.share();
            self.is_whole = true;
        }
    }

    /// The version with what it missed carried out on its picture, which nobody else holds. None if
    /// that cannot be done: the version is another, or is held elsewhere, or it is out of memory.
    pub(crate) fn bring_up_to_date(
        &self,
        alloc: Global,
        tariff: &Tariff<F>,
        version: Version<F, K>,
    ) -> Option<Version<F, K>>
        requires named { K.closure ≡ Some tariff.now }
        ensures { IfSome result (λ v. v.entries ≡ self.now) }
    {
        if !self.is_whole || !version.prefix().same_as(&self.from) {
            return None;
        }
        let missed = self.missed.as_slice();
        let mut picture = version.into_picture();
        let own = Arc::get_mut(&mut picture)?;
        if apply_all(alloc, own, tariff, &self.from, missed, &self.to).is_err() {
            return None;
        }
        Some(Version::new(self.to.share(), picture))
    }
}
