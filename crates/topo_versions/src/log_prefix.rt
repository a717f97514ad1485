//! The log of accepted entries: a list that only grows, and its prefixes that were seen. Of any two
//! prefixes one is a prefix of the other.
ghost use Rattle.std.specs.Prelude.{◌≡◌, ◌+◌, ◌==◌, ◌<◌, ◌≤◌, ◌^◌, ◌++◌, ◌∷◌};
ghost use Rattle.std.specs.Prelude.{[], if◌then◌else◌, length, true, MatchBool};
ghost use Rattle.topo_core.specs.History.{IsPrefix};
ghost use Rattle.topo_versions.specs.Listing.{length_word};
ghost use Rattle.topo_versions.specs.Names.{prices_named};
ghost use Rattle.topo_versions.specs.Versions.{AreLegal};

use crate::brand::{LogBrand, ServiceBrand};
use logbook::{Gain, Plain, Play, Rule, Seen, Start, Word};
use std::marker::{Model, PhantomData};
use topo_core::calls::Entry;
use topo_price::tariff::PriceFn;

/// The rule of the log: its entries are kept, and its length is in one word.
pub struct AppendOnly;

impl Rule<Entry, u64> for AppendOnly {
    ghost use Rattle.std.specs.Prelude.{[]};
    ghost use base.Fml.{ftrue};
    ghost use Rattle.topo_versions.specs.Listing.{IsKept};

    ghost holds = { λ cells log. IsKept cells log };

    ghost first = { [] };

    ghost hinted = { λ n log. Unit {0} };

    ghost shows = { λ log. [] };

    ghost keeps = { λ names log. ftrue };

    ghost moves = { λ ask before after answer. Unit {0} };
}

/// A brand with which callers trade nothing.
pub struct NoGain;

impl Gain<Entry, u64> for NoGain {
    ghost use base.Fml.{ftrue};

    ghost after = { λ names about answer. ftrue };
}

/// A step that adds an entry.
pub struct Append;

impl Play<Entry, u64> for Append {
    ghost use Rattle.topo_versions.specs.Listing.{Adds};

    ghost then = { Adds };
}

impl Plain<Entry, Entry, u64> for Append {
    ghost use Rattle.std.specs.Prelude.{None};

    ghost ask = { λ entry. entry };

    ghost state = { λ entry. None };
}

/// An empty log, which is not bound to a service yet.
pub struct FreshLog {
    length: Word<Entry, u64, AppendOnly>,
    seen: Seen<Entry, u64, AppendOnly>,
    pub ghost empty: { seen.log ≡ [] },
    pub ghost word_is: { length ≡ length_word seen.book },
}

impl FreshLog {
    pub fn new() -> FreshLog {
        let (seen, mut first, _second) = Seen::open(Start::alone(), 0, 0);
        FreshLog {
            length: Word::tracked(0, &mut first),
            seen,
        }
    }

    /// The log's length and its empty prefix, bound to the service that K names.
    pub fn named<F: PriceFn, K: ServiceBrand<F>>(self) -> (LogLength<K>, LogPrefix<F, K>)
        requires { self.seen.book ≡ K.book }
        ensures { result.1 ≡ [] }
    {
        let FreshLog { length, seen } = self;
        (
            LogLength {
                word: length,
                of: PhantomData,
            },
            LogPrefix {
                len: 0,
                seen,
                of: PhantomData,
            },
        )
    }
}

/// The log's length: the word that each addition changes.
#[derive(Drop)]
pub struct LogLength<K: LogBrand> {
    word: Word<Entry, u64, AppendOnly>,
    of: PhantomData<K>,
    ghost word_is: { word ≡ length_word K.book },
}

/// A prefix of the log that was seen: accepted entries that lead by steps from the start, at the
/// prices that K names. Contracts see it as its entries.
pub struct LogPrefix<F: PriceFn, K: ServiceBrand<F>> {
    len: u64,
    seen: Seen<Entry, u64, AppendOnly>,
    of: PhantomData<(F, K)>,
}

// Written out, so that it is proved once: a derived one is proved anew in each function that lets
// such a value go.
impl<F: PriceFn, K: ServiceBrand<F>> Drop for LogPrefix<F, K> {
    fn drop(self) {
        let LogPrefix {
            len: _,
            seen,
            of: _,
        } = self;
        drop(seen);
    }
}

impl<F: PriceFn, K: ServiceBrand<F>> Model for LogPrefix<F, K> {
    ghost use Rattle.std.specs.Prelude.{◌≡◌, List, length};
    ghost use Rattle.topo_core.specs.declared.calls.Entry.{Entry};
    ghost use Rattle.topo_versions.specs.Names.{prices_named};
    ghost use Rattle.topo_versions.specs.Versions.{AreLegal};

    ghost Value = { List Entry };

    ghost view = { λ f. f.seen.log };

    ghost invariant = { λ f. (f.len ≡ length f.seen.log) × (f.seen.book ≡ K.book)
        × AreLegal (prices_named F.may_return K.closure) K.start f.seen.log };
}

impl<F: PriceFn, K: ServiceBrand<F>> LogPrefix<F, K> {
    /// How many entries it has.
    pub fn len(&self) -> u64
        ensures len { result ≡ length self.now }
        ensures legal { AreLegal (prices_named F.may_return K.closure) K.start self.now }
    {
        self.len
    }

    /// Shares the prefix with another holder.
    pub fn share(&self) -> LogPrefix<F, K>
        ensures same { result ≡ self.now }
        ensures legal { AreLegal (prices_named F.may_return K.closure) K.start result }
    {
        LogPrefix {
            len: self.len,
            seen: self.seen.again(),
            of: PhantomData,
        }
    }

    /// Whether the two are equal. Prefixes of one log are equal if their lengths are.
    pub fn same_as(&self, other: &LogPrefix<F, K>) -> bool
        ensures same { result ≡ true → self.now ≡ other.now }
        ensures all { self.now ≡ other.now → result ≡ true }
    {
        let mut both = self.seen.again();
        both.learn(&other.seen);
        self.len == other.len
    }

    /// Whether it is a prefix of the other: of two prefixes of one log the shorter is one of the
    /// longer.
    pub fn is_prefix_of(&self, other: &LogPrefix<F, K>) -> bool
        ensures prefix { result ≡ true → IsPrefix self.now other.now }
        ensures all { IsPrefix self.now other.now → result ≡ true }
    {
        let mut both = self.seen.again();
        both.learn(&other.seen);
        self.len <= other.len
    }

    /// Adds an accepted entry, which is to be a step on, to all that was seen, and says whether it
    /// did. If the log is longer than what was seen, nothing changes.
    pub fn add(&mut self, log_length: &LogLength<K>, entry: &Entry) -> bool
        requires room { length self.old + 1 < 2 ^ 64 }
        requires follows { AreLegal (prices_named F.may_return K.closure) K.start
            (self.old ++ entry.now ∷ []) }
        ensures { self.new ≡ (if result then self.old ++ entry.now ∷ [] else self.old) }
    {
        let len = self.len;
        let mut seen = self.seen.again();
        let mut offer = seen.plain::<NoGain, Entry, Append>(entry);
        let mut pen = seen.no_pen();
        let found = log_length
            .word
            .compare_exchange::<Append, NoGain>(len, len + 1, &mut seen, &mut offer, &mut pen);
        if found != len {
            return false;
        }
        self.seen = seen;
        self.len = len + 1;
        true
    }
}
