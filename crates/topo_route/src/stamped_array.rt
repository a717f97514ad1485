//! A list of numbers that is blank again in one step.
//!
//! What writes on several of its fields is a function over these fields (`widen`, `move_words`,
//! `grow_beside`): while it runs they do not say together what the type promises.

ghost use Rattle.std.specs.Prelude.{◌≡◌, ◌<◌, ◌≤◌, ◌↔◌, [], ℕ, IsOk, IsTrue, OnErr, OnOk};
ghost use Rattle.std.specs.Prelude.{length, map, replicate, slice_index, slice_set};
ghost use Rattle.topo_core.specs.Routes.{unreached};
ghost use Rattle.topo_route.specs.Settling.{number_at};
ghost use Rattle.topo_route.specs.StampedArrays.{AreAtLeast, AreWords, SaysTheSame, moved_word};
ghost use Rattle.topo_route.specs.StampedArrays.{span_limit};

use std::alloc::{AllocError, Global};
use std::marker::Model;

/// The word of a place that is blank.
const BLANK: u32 = u32::MAX;

/// How many numbers an epoch has at first.
const FIRST_SPAN: u32 = 1 << 10;

/// How many numbers an epoch may have. A picture within the limits has less than 1,200,000 faces,
/// and no price is above 1000, so no height in it is as great.
const MAX_SPAN: u32 = u32::MAX / 2;

/// A list of numbers, each the greatest until another is written. Contracts see the list. A number
/// is kept as a word, above a base that is lower in each epoch by as many numbers as an epoch has.
/// So a word of an earlier epoch is past those of this one, a new epoch blanks the whole list, and
/// a search that is given one takes no time for what it does not reach. An epoch is made wider when
/// a number comes that it does not have, and the later ones stay so. The words are never fewer than
/// they were: a list that is long again takes no time either.
///
/// A number that no epoch may have is kept beside the words, in a list that is empty until one
/// comes. Where a word is of no number of this epoch, what is beside it counts.
#[derive(Drop)]
pub(crate) struct StampedArray {
    words: Vec<u32>,
    wide: Vec<u64>,
    base: u32,
    span: u32,
    len: usize,
}

impl Model for StampedArray {
    ghost use Rattle.std.specs.Prelude.{ℕ, List};
    ghost use Rattle.topo_route.specs.Settling.{number_at};
    ghost use Rattle.topo_route.specs.StampedArrays.{AreBeside, AreWords, read_all};

    ghost Value = { List ℕ };

    ghost view = { λ s. read_all s.base s.span s.len s.words.items (number_at s.wide.items) };

    ghost invariant = { λ s. AreWords s.base s.span s.len s.words.items
        × AreBeside s.wide.items };
}

/// The word that says the same in a wider epoch, which ends with the last word before the blank
/// one.
fn moved(word: u32, base: u32, span: u32, wider: u32) -> u32
    requires above { base ≤ word }
    requires wider { span ≤ wider }
    ensures { result ≡ moved_word base span wider word }
{
    let number = word - base;
    if number < span {
        BLANK - wider + number
    } else {
        BLANK
    }
}

/// Moves all words of an epoch to a wider one.
fn move_words(words: &mut [u32], base: u32, span: u32, wider: u32)
    requires above { AreAtLeast base words.old }
    requires wider { span ≤ wider }
    ensures { words.new ≡ map (moved_word base span wider) words.old }
{
    for place in 0..words.len() {
        words[place] = moved(words[place], base, span, wider);
    }
}

/// Makes an epoch wide enough for a number, and says the same in it.
fn widen(words: &mut Vec<u32>, base: &mut u32, span: &mut u32, number: u32)
    requires above { AreAtLeast base.old words.old.items }
    requires small { number < span_limit }
    ensures fits { number < span.new }
    ensures same { (len : ℕ) → AreWords base.old span.old len words.old.items
        → SaysTheSame base.old span.old words.old.items base.new span.new words.new.items len }
{
    if number < *span {
        return;
    }
    let wider = MAX_SPAN.min(2 * number + 1);
    move_words(words.as_mut_slice(), *base, *span, wider);
    *base = BLANK - wider;
    *span = wider;
}

/// The number beside the word of a place, and the greatest where none is.
fn beside(wide: &[u64], place: usize) -> u64
    ensures { result ≡ number_at wide.now place }
{
    if place < wide.len() {
        wide[place]
    } else {
        u64::MAX
    }
}

/// Makes the list beside the words as long as they are, and says the same in it; also where it is
/// out of memory.
fn grow_beside(wide: &mut Vec<u64>, len: usize) -> Result<(), AllocError>
    ensures long { OnOk result (len ≤ length wide.new.items) }
    ensures same { (place : ℕ) → number_at wide.new.items place ≡ number_at wide.old.items place }
{
    if wide.len() < len {
        wide.resize(len, u64::MAX)?;
    }
    Ok(())
}

impl StampedArray {
    /// An array without places.
    pub(crate) fn new(alloc: Global) -> Self
        ensures { result ≡ [] }
    {
        StampedArray {
            words: Vec::new(alloc),
            wide: Vec::new(alloc),
            base: BLANK - FIRST_SPAN,
            span: FIRST_SPAN,
            len: 0,
        }
    }

    /// Makes it a blank list of this length.
    pub(crate) fn clear(&mut self, len: usize) -> Result<(), AllocError>
        ensures { OnOk result (self.new ≡ replicate len unreached) }
    {
        if self.base < self.span {
            self.words.fill(BLANK);
            self.base = BLANK - self.span;
        }
        self.base -= self.span;
        self.wide.truncate(0);
        if self.words.len() < len {
            self.words.resize(len, BLANK)?;
        }
        self.len = len;
        Ok(())
    }

    /// The number at a place.
    pub(crate) fn get(&self, place: u32) -> u64
        requires { place < length self.now }
        ensures { result ≡ slice_index self.now place }
    {
        self.read(place as usize)
    }

    /// Reads what stands at a place, as `get` does.
    fn read(&self, place: usize) -> u64
        requires { place < length self.now }
        ensures { result ≡ slice_index self.now place }
    {
        let number = self.words[place] - self.base;
        if number < self.span {
            number as u64
        } else {
            beside(self.wide.as_slice(), place)
        }
    }

    /// Whether the number at a place is above this one.
    pub(crate) fn is_above(&self, place: u32, number: u64) -> bool
        requires { place < length self.now }
        ensures { IsTrue result ↔ number < slice_index self.now place }
    {
        let place = place as usize;
        let there = self.words[place] - self.base;
        if there < self.span {
            there as u64 > number
        } else {
            beside(self.wide.as_slice(), place) > number
        }
    }

    /// The number at a place, and the greatest past the end.
    pub(crate) fn number_at(&self, place: u32) -> u64
        ensures { result ≡ number_at self.now place }
    {
        let place = place as usize;
        if place < self.len {
            self.read(place)
        } else {
            u64::MAX
        }
    }

    /// No number is above the greatest.
    pub(crate) fn in_range(&self)
        ensures { (k : ℕ) → slice_index self.now k ≤ unreached }
    {
        let _places = self.len;
    }

    /// Writes a number at a place; out of memory, nothing is written. Only a number that no epoch may
    /// have takes memory.
    pub(crate) fn set(&mut self, place: u32, number: u64) -> Result<(), AllocError>
        requires { place < length self.old }
        ensures written { OnOk result (self.new ≡ slice_set self.old place number) }
        ensures unchanged { OnErr result (self.new ≡ self.old) }
        ensures within { number < span_limit → IsOk result }
    {
        if number < MAX_SPAN as u64 {
            let number = number as u32;
            widen(&mut self.words, &mut self.base, &mut self.span, number);
            self.words[place as usize] = self.base + number;
            return Ok(());
        }
        grow_beside(&mut self.wide, self.len)?;
        self.wide[place as usize] = number;
        self.words[place as usize] = BLANK;
        Ok(())
    }
}
