//! The items that wait: darts whose faces spread the heights that were written for them.

ghost use Rattle.std.specs.Prelude.{◌≡◌, ℕ, ◌+◌, ◌/◌, ◌^◌, ◌<◌, ◌≤◌, ◌==◌, ◌||◌};
ghost use Rattle.std.specs.Prelude.{MatchOption, IfOk, length, [], slice_index};
ghost use Rattle.topo_route.specs.Settling.{dart_of_item, is_waiting, item_of};

use std::alloc::{AllocError, Global};
use std::marker::Model;

/// No price is above 1000, so what those that wait are ordered by is less than this number apart:
/// a step of a search that is guided to its other end adds a price, and at most as much once more.
const BUCKET_COUNT: usize = 2001;

/// How many numbers half an item holds.
const ITEM_BASE: u64 = 1 << 32;

/// An item that waits, or has waited, and what lies below it in its bucket: one more than the place
/// of an earlier entry, and 0 where there is none.
#[derive(Clone, Copy, Drop)]
pub(crate) struct Entry {
    item: u64,
    below: usize,
}

/// Items in buckets by what they are ordered by modulo 2001, the least first. Contracts see the
/// list of the items: which of them comes out first is speed alone. A bucket is a chain of entries,
/// from one more than the place of its last one down; entries are put at the end and never moved.
#[derive(Drop)]
pub(crate) struct BucketQueue {
    entries: Vec<Entry>,
    heads: Vec<usize>,
    first: usize,
    count: usize,
}

impl Model for BucketQueue {
    ghost use Rattle.std.specs.Prelude.{◌≡◌, ◌<◌, ℕ, List, length};

    ghost Value = { List ℕ };

    ghost use Rattle.topo_route.specs.Chains.{all_chained, GoesDown, StaysBelow};

    ghost view = { λ w. all_chained w.entries.items w.heads.items };

    ghost invariant = { λ w. (length w.heads.items ≡ 2001) × (w.first < 2001)
        × GoesDown w.entries.items × StaysBelow w.entries.items w.heads.items
        × (w.count ≡ length (all_chained w.entries.items w.heads.items)) };
}

impl BucketQueue {
    /// A queue in which none waits, with room for so many pushes before it asks for more.
    pub(crate) fn new(alloc: Global, room: usize) -> Result<Self, AllocError>
        ensures { IfOk result (λ w. w ≡ []) }
    {
        let entries = Vec::with_capacity(alloc, room)?;
        let heads = vec![in alloc; 0; BUCKET_COUNT]?;
        Ok(BucketQueue {
            entries,
            heads,
            first: 0,
            count: 0,
        })
    }

    /// Takes all items out. Where none waits, as mostly behind a search, that takes no time.
    pub(crate) fn clear(&mut self)
        ensures { self.new ≡ [] }
    {
        if self.count > 0 {
            self.heads.fill(0);
        }
        self.entries.clear();
        self.first = 0;
        self.count = 0;
    }

    /// How many items wait.
    pub(crate) fn count(&self) -> usize
        ensures { result ≡ length self.now }
    {
        self.count
    }

    /// Adds an item at its place in the order.
    pub(crate) fn push(&mut self, order: u64, item: u64) -> Result<(), AllocError>
        ensures waits { IfOk result
            (λ _. (k : ℕ) → is_waiting self.new k ≡ (item == k || is_waiting self.old k)) }
        ensures len { IfOk result (λ _. length self.new ≡ length self.old + 1) }
    {
        let Some(count) = self.count.checked_add(1) else {
            return Err(AllocError);
        };
        let bucket = (order % BUCKET_COUNT as u64) as usize;
        let below = self.heads[bucket];
        self.entries.push(Entry { item, below })?;
        self.heads[bucket] = self.entries.len();
        self.count = count;
        Ok(())
    }

    /// Takes out one that waits, the least first.
    pub(crate) fn pop(&mut self) -> Option<u64>
        ensures waits { MatchOption result (self.old ≡ [])
            (λ item. (k : ℕ) → is_waiting self.old k ≡ (item == k || is_waiting self.new k)) }
        ensures len { MatchOption result (self.new ≡ [])
            (λ _. length self.new + 1 ≡ length self.old) }
    {
        if self.count == 0 {
            return None;
        }
        match full_bucket(self.heads.as_slice(), self.first) {
            Some(bucket) => {
                let entry = self.entries[self.heads[bucket] - 1];
                self.first = bucket;
                self.heads[bucket] = entry.below;
                self.count = self.count.saturating_sub(1);
                Some(entry.item)
            }
            None => None,
        }
    }
}

/// A bucket that is not empty, from this one on and round.
fn full_bucket(heads: &[usize], first: usize) -> Option<usize>
    requires { first ≤ length heads.now }
    ensures { MatchOption result ((i : ℕ) → i < length heads.now → slice_index heads.now i ≡ 0)
        (λ bucket. (bucket < length heads.now) × (0 < slice_index heads.now bucket)) }
{
    match full_between(heads, first, heads.len()) {
        Some(bucket) => Some(bucket),
        None => full_between(heads, 0, first),
    }
}

/// The first bucket of a range that is not empty.
fn full_between(heads: &[usize], from: usize, to: usize) -> Option<usize>
    requires { to ≤ length heads.now }
    ensures { MatchOption result ((i : ℕ) → from ≤ i → i < to → slice_index heads.now i ≡ 0)
        (λ bucket. (bucket < length heads.now) × (0 < slice_index heads.now bucket)) }
{
    for bucket in from..to {
        if heads[bucket] > 0 {
            return Some(bucket);
        }
    }
    None
}

/// What waits when a face is given a height: a dart of it, and the low half of the height above it.
/// Who takes it out sees by it whether the face has been given another height since.
pub(crate) fn item_of(dart: u32, height: u64) -> u64
    ensures { result ≡ item_of dart height }
{
    dart as u64 + ITEM_BASE * (height % ITEM_BASE)
}

/// The low half of the height of an item: the height is not less.
pub(crate) fn least_height(item: u64) -> u64
    ensures { result ≡ item / 2 ^ 32 }
{
    item / ITEM_BASE
}

/// The dart of an item.
pub(crate) fn dart_of_item(item: u64) -> u32
    ensures { result ≡ dart_of_item item }
{
    (item % ITEM_BASE) as u32
}
