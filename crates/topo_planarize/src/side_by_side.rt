//! Searches side by side, the time that they may take, and what is told on the way.

ghost use Rattle.topo_planarize.specs.Ways.{Grows, TellsWay};

use crate::searches::{Searches, Way};
use std::alloc::Global;
use std::fmt::{self, InlineText, Write as _};
use std::io::Write;
use std::rt::Clock;
use std::thread;
use std::thread::Threads;
use std::time::Instant;
use topo_io::writing::write_text;
use topo_price::tariff::PriceFn;

/// After so many seconds it is told again how far the searches are.
const TELLING_SECONDS: u32 = 1;

/// The room for a line that is told on the way, in bytes. The longest has 114: 51 of its own, two
/// numbers of 20 digits, one of 10 and its line feed, and a number of crossings of 20.
const MAX_WAY_BYTES: usize = 128;

/// When something began, where the clock could be read, and after how many seconds it ends.
#[derive(Clone, Copy)]
pub(crate) struct Deadline {
    begun: Option<Instant>,
    seconds: Option<u32>,
}

impl Deadline {
    /// So many seconds from now.
    pub(crate) fn new<R: Clock>(rt: &R, seconds: Option<u32>) -> Self {
        Deadline {
            begun: Instant::now(rt).ok(),
            seconds,
        }
    }

    /// Whether the time is over, and whether a third of it is. It never is where the clock cannot be
    /// read, or no number of seconds was set.
    fn is_over<R: Clock>(&self, rt: &R) -> (bool, bool) {
        let (Some(begun), Some(seconds)) = (self.begun, self.seconds) else {
            return (false, false);
        };
        match begun.elapsed(rt) {
            Ok(spent) => {
                let spent = spent.as_secs();
                (spent >= u64::from(seconds), spent >= u64::from(seconds / 3))
            }
            Err(_) => (false, false),
        }
    }
}

/// Until when it is searched, and whether it is told how far the searches are.
#[derive(Clone, Copy)]
pub(crate) struct Terms {
    pub deadline: Deadline,
    pub is_told: bool,
}

/// Has searches hurry once a third of the time is over, and end once all of it is.
fn press<R: Clock, F: PriceFn>(rt: &R, deadline: &Deadline, searches: &mut Searches<F>) {
    let (is_over, is_late) = deadline.is_over(rt);
    if is_late {
        searches.hurry();
    }
    if is_over {
        searches.end_soon();
    }
}

/// Searches until the searches have ended, or there is something to tell.
fn search_for_a_while<R: Clock, F: PriceFn + Drop>(
    rt: &R,
    alloc: Global,
    searches: &mut Searches<F>,
    terms: &Terms,
) {
    let seconds = if terms.is_told {
        Some(TELLING_SECONDS)
    } else {
        None
    };
    let turn = Deadline::new(rt, seconds);
    for _ in 0..u64::MAX {
        if searches.have_ended() || turn.is_over(rt).0 {
            return;
        }
        press(rt, &terms.deadline, searches);
        searches.step(alloc);
    }
}

/// Searches for a while, for each search in a thread of its own, or in its turn where no thread can
/// be made.
fn search_together<R: Threads + Clock + Sync, F: PriceFn + Drop + Send + Sync>(
    rt: &R,
    alloc: Global,
    all: &mut [Searches<F>],
    terms: &Terms,
) {
    let threads = all.len();
    if threads == 0 {
        return;
    }
    thread::for_each_mut(
        rt,
        all,
        threads,
        &|_place, searches: &mut Searches<F>| search_for_a_while(rt, alloc, searches, terms),
    );
}

/// Lays out how far searches have come.
fn write_way<W: fmt::Write>(way: Way, line: &mut W) -> fmt::Result {
    let Way {
        component,
        components,
        crossings,
        orders,
    } = way;
    match crossings {
        Some(count) => writeln!(
            line,
            "planar: component {component} of {components}, orders {orders}: crossings {count}"
        ),
        None => writeln!(
            line,
            "planar: component {component} of {components}, orders {orders}: no picture yet"
        ),
    }
}

/// Tells how far searches have come. What the writer does not take is lost.
fn tell_way<E: Write>(way: Way, told: &mut E)
    ensures { Grows (E.contents told.old) (E.contents told.new) }
{
    let mut line: InlineText<MAX_WAY_BYTES> = InlineText::new();
    if write_way(way, &mut line).is_ok() {
        let _ = write_text(told, line.as_str());
    }
}

/// Tells how far the first ones have come, where it is to be told.
fn tell_first<F: PriceFn, E: Write>(all: &[Searches<F>], is_told: bool, told: &mut E)
    ensures { TellsWay is_told (E.contents told.old) (E.contents told.new) }
{
    if !is_told {
        return;
    }
    if let Some(first) = all.first() {
        tell_way(first.way(), told);
    }
}

/// Whether all searches have ended.
pub(crate) fn have_all_ended<F: PriceFn>(all: &[Searches<F>]) -> bool {
    all.iter().all(|searches| searches.have_ended())
}

/// Searches to the end in the thread that calls, each search in its turn.
pub(crate) fn search_in_turn<F: PriceFn + Drop>(alloc: Global, all: &mut [Searches<F>]) {
    for _ in 0..u64::MAX {
        if have_all_ended(all) {
            return;
        }
        for searches in all.iter_mut() {
            searches.step(alloc);
        }
    }
}

/// Searches until all searches have ended.
pub(crate) fn search_to_the_end<
    R: Threads + Clock + Sync,
    F: PriceFn + Drop + Send + Sync,
    E: Write,
>(rt: &R, alloc: Global, all: &mut [Searches<F>], terms: &Terms, told: &mut E)
    ensures { TellsWay terms.now.is_told (E.contents told.old) (E.contents told.new) }
{
    for _ in 0..u64::MAX {
        search_together(rt, alloc, all, terms);
        if have_all_ended(all) {
            return;
        }
        tell_first(all, terms.is_told, told);
    }
}
