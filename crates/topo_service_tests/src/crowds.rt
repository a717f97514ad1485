//! Many workers, with calls that meet one another.

use crate::gates::Round;
use crate::harness::{Scene, Start, Work, are_carried_out, is_played};
use crate::steps::Step;
use std::alloc::{AllocError, Global};
use std::process::Abort;
use std::sync::Wait;
use std::sync::atomic::{AtomicU32, Ordering};
use std::test::Fail;
use std::thread;
use std::thread::Threads;
use topo_core::calls::{Call, Command};
use topo_core::limits::Limits;
use topo_picture::Picture;
use topo_price::tariff::PriceFn;
use topo_service::{Pass, Service};
use topo_service_test_support::calls::make;
use topo_test_support::calls::{delete, grow, insert, planned};
use topo_test_support::lawful::is_loaded_again;
use topo_versions::ServiceBrand;

/// Puts an edge in between the apexes, with a plan.
const JOIN: Command = Command::Planned {
    u: 3,
    v: 4,
    kind: 0,
};

/// Each list is an insertion between the apexes with a plan and the deletion of an edge.
const APEX_LISTS: &[&[Command]] = &[
    &[JOIN, Command::Plain(Call::Delete { edge: 0 })],
    &[JOIN, Command::Plain(Call::Delete { edge: 1 })],
    &[JOIN, Command::Plain(Call::Delete { edge: 2 })],
    &[JOIN, Command::Plain(Call::Delete { edge: 3 })],
];

const APEX_SCENE: Scene<'static> = Scene {
    start: Start::Bipyramid,
    prices: (Some(1), &[]),
    steps: &[(0, Step::Accepted(8))],
    due: "[Done, Done, Done, Done]\n\
        accepted: true\n\
        []; 8 calls, replayed: true",
};

#[test]
fn four_workers_plan_between_the_apexes(rt: HostRuntime) -> Result<(), Fail> {
    are_carried_out(&rt, &APEX_SCENE, APEX_LISTS, &Round::Still)
}

/// A number that looks like any other.
fn stir(x: u32) -> u32 {
    let y = x.wrapping_mul(1_664_525).wrapping_add(1_013_904_223);
    y ^ (y >> 15)
}

/// The command at a place of all lists, were they carried out in turn, by such a number. Of 64
/// sixteen insert, one grows, and the others take out one of the last few hundred edges, or ask for
/// one that is not there.
fn command_of(place: u32, x: u32) -> Command {
    let (u, v) = (x % 202, (x / 256) % 202);
    match (x >> 20) % 64 {
        0 => planned(u, v),
        1..=15 => Command::Plain(insert(u, v)),
        16 => Command::Plain(grow(u)),
        _ => Command::Plain(delete((201 + place / 4).saturating_sub((x / 64) % 400))),
    }
}

/// The seed with two hundred vertices more.
pub(crate) fn tree(rt: &impl Abort, alloc: Global) -> Result<Picture, AllocError> {
    let limits = Limits::new(65_536, 65_536, 65_536).expect(rt, "limits");
    let mut picture = Picture::seed(alloc, limits)?;
    for i in 0..200u32 {
        if picture.grow(alloc, stir(i) % (i + 2), 0, 0).is_err() {
            drop(picture);
            return Err(AllocError);
        }
    }
    Ok(picture)
}

/// What is noted while a crowd works.
#[derive(Drop)]
pub(crate) struct Watch {
    /// How many views were taken.
    views: AtomicU32,
    /// How many of them had a picture that is not lawful.
    unlawful: AtomicU32,
    /// How many had a lower number than the view before by the same pass.
    fallen: AtomicU32,
    /// How many calls were out of memory.
    failed: AtomicU32,
}

impl Watch {
    /// How many views were taken, how many of them were unlawful, how many fell, and how many calls
    /// failed.
    fn counts(&self) -> [u32; 4] {
        [
            self.views.load(Ordering::SeqCst),
            self.unlawful.load(Ordering::SeqCst),
            self.fallen.load(Ordering::SeqCst),
            self.failed.load(Ordering::SeqCst),
        ]
    }
}

/// Adds one where it is so.
fn count_where(counter: &AtomicU32, is_so: bool) {
    if is_so {
        let _ = counter.fetch_add(1, Ordering::SeqCst);
    }
}

/// Takes a view, and looks at it. It answers the number of the last view.
fn look<F: PriceFn + Drop, K: ServiceBrand<F>>(
    alloc: Global,
    pass: &mut Pass<F, K>,
    before: u64,
    watch: &Watch,
) -> u64 {
    let Ok(view) = pass.view() else {
        return before;
    };
    let number = view.number();
    let is_lawful = matches!(is_loaded_again(alloc, view.picture()), Ok(true));
    drop(view);
    count_where(&watch.views, true);
    count_where(&watch.fallen, number < before);
    count_where(&watch.unlawful, !is_lawful);
    number
}

/// Whether a command was carried out. A planned insertion is made along the route that the pass
/// finds, and without one where it finds none.
fn is_made<F: PriceFn + Drop, K: ServiceBrand<F>, R: Wait>(
    rt: &R,
    alloc: Global,
    service: &Service<F, K>,
    pass: &mut Pass<F, K>,
    command: Command,
) -> bool {
    let answer = match command {
        Command::Plain(call) => make(rt, service, pass, call),
        Command::Planned { u, v, kind } => match pass.find(alloc, service.tariff(), u, v) {
            Ok(found) => {
                let answer = service.insert_found(rt, pass, kind, &found);
                drop(found);
                answer
            }
            Err(_) => make(rt, service, pass, Call::Insert { u, v, kind }),
        },
    };
    let is_made = answer.is_ok();
    drop(answer);
    is_made
}

/// Makes two thousand calls, and takes a view after each hundred.
fn work_and_look<F: PriceFn + Drop, K: ServiceBrand<F>, R: Wait>(
    rt: &R,
    alloc: Global,
    service: &Service<F, K>,
    pass: &mut Pass<F, K>,
    watch: &Watch,
) {
    let worker = pass.number();
    let mut x = worker;
    let mut number = 0;
    for turn in 0..2_000u32 {
        x = stir(x);
        let command = command_of(turn.wrapping_mul(16).wrapping_add(worker), x);
        let made = is_made(rt, alloc, service, pass, command);
        count_where(&watch.failed, !made);
        if turn % 100 == 99 {
            number = look(alloc, pass, number, watch);
        }
    }
}

/// Lets each pass make its calls, in a thread of its own, and looks at versions meanwhile.
pub(crate) fn work_all<
    F: PriceFn + Drop + Send + Sync,
    K: ServiceBrand<F> + Send + Sync,
    R: Threads + Wait + Sync,
>(rt: &R, alloc: Global, service: &Service<F, K>, passes: &mut [Pass<F, K>], watch: &Watch) {
    let threads = passes.len();
    if threads == 0 {
        return;
    }
    thread::for_each_mut(
        rt,
        passes,
        threads,
        &|_place, pass: &mut Pass<F, K>| work_and_look(rt, alloc, service, pass, watch),
    );
}

const TREE_SCENE: Scene<'static> = Scene {
    start: Start::Tree,
    prices: (Some(1), &[]),
    steps: &[(0, Step::Accepted(1_000))],
    due: "accepted: true\n[]; 32000 calls, replayed: true",
};

/// The workers take all views, and nothing is amiss.
#[test]
fn sixteen_workers_make_thousands_of_calls(rt: HostRuntime) -> Result<(), Fail> {
    let watch = Watch {
        views: AtomicU32::new(0),
        unlawful: AtomicU32::new(0),
        fallen: AtomicU32::new(0),
        failed: AtomicU32::new(0),
    };
    is_played(&rt, &TREE_SCENE, Work::Crowd(16, &watch))?;
    assert!(rt; watch.counts() == [320, 0, 0, 0]);
    Ok(())
}
