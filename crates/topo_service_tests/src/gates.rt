//! What is done round each command, and two workers at one time in an order that a gate sets.

use crate::harness::{Scene, Start, are_carried_out};
use crate::inside::{Counted, Meeting};
use crate::steps::Step;
use std::sync::atomic::{AtomicUsize, Ordering};
use std::test::Fail;
use topo_core::calls::{Call, Command};
use topo_price::tariff::PriceFn;
use topo_service::Gate;
use topo_service_test_support::gates::Turns;
use topo_test_support::prices::FIVE_TWO_NINE;
use topo_versions::{ServiceBrand, Version};

/// What is done round each command.
#[derive(Drop)]
pub(crate) enum Round {
    /// Nothing is done round a command.
    Still,
    /// The first call of worker 1 comes between the beginning and the end of that of worker 0.
    InTurn(Turns),
    /// The first call of worker 1 comes after worker 0 began with the first price that its search
    /// asks for.
    FromFirstPrice(Turns),
    /// Each worker waits before its call until all are there.
    Together(Meeting),
    /// The calls of the gate are counted.
    Counted(Counted),
    /// A view is taken before the run. Its edges are counted when the first command of worker 0 has
    /// ended.
    Viewed(AtomicUsize),
}

/// A view that was taken before a run, and how many edges it shows when the first command of worker
/// 0 has ended.
#[derive(Drop)]
pub(crate) struct EarlierView<'a, F: PriceFn, K: ServiceBrand<F>> {
    pub view: &'a Version<F, K>,
    pub edges: &'a AtomicUsize,
}

impl<F: PriceFn + Send + Sync, K: ServiceBrand<F> + Send + Sync> Gate for EarlierView<'_, F, K> {
    fn before(&self, _worker: usize, _index: usize) {}

    fn after(&self, worker: usize, index: usize) {
        if worker == 0 && index == 0 {
            let edges = self.view.picture().counts().edges;
            self.edges.store(edges as usize, Ordering::SeqCst);
        }
    }
}

impl Round {
    /// Whether no worker waited in vain, and each call came in its order.
    pub(crate) fn is_well(&self) -> bool {
        match self {
            Round::Still => true,
            Round::InTurn(turns) => !turns.is_late(),
            Round::FromFirstPrice(turns) => !turns.is_late(),
            Round::Together(meeting) => !meeting.late.load(Ordering::SeqCst),
            Round::Counted(counted) => !counted.is_amiss.load(Ordering::SeqCst),
            Round::Viewed(edges) => edges.load(Ordering::SeqCst) == 1,
        }
    }
}

impl Round {
    /// Whether the calls are counted, and were so many for each worker.
    pub(crate) fn has_counted(&self, due: usize) -> bool {
        match self {
            Round::Counted(counted) => counted.has_counted(due),
            _ => false,
        }
    }

    /// Whether workers met, and these were their numbers.
    pub(crate) fn has_met(&self, numbers: usize) -> bool {
        match self {
            Round::Together(meeting) => meeting.numbers.load(Ordering::SeqCst) == numbers,
            _ => false,
        }
    }
}

impl Gate for Round {
    fn before(&self, worker: usize, index: usize) {
        match self {
            Round::Still | Round::Viewed(_) => {}
            Round::InTurn(turns) => turns.before(worker, index),
            Round::FromFirstPrice(turns) => {
                if worker == 1 {
                    turns.before(worker, index);
                }
            }
            Round::Together(meeting) => meeting.look_for_all(worker),
            Round::Counted(counted) => counted.note(worker, index.wrapping_mul(2)),
        }
    }

    fn after(&self, worker: usize, index: usize) {
        match self {
            Round::InTurn(turns) => turns.after(worker, index),
            Round::FromFirstPrice(turns) => turns.after(worker, index),
            Round::Counted(counted) => {
                counted.note(worker, index.wrapping_mul(2).wrapping_add(1));
            }
            Round::Still | Round::Together(_) | Round::Viewed(_) => {}
        }
    }
}

/// Each of two lists puts an edge in beside that of the seed.
const SEED_LISTS: &[&[Command]] = &[
    &[Command::Plain(Call::Insert {
        u: 0,
        v: 1,
        kind: 0,
    })],
    &[Command::Plain(Call::Insert {
        u: 0,
        v: 1,
        kind: 1,
    })],
];

const SEED_SCENE: Scene<'static> = Scene {
    start: Start::Seed,
    prices: (Some(1), &[]),
    steps: &[
        (0, Step::Seen),
        (0, Step::View),
        (1, Step::Seen),
        (1, Step::View),
    ],
    due: "[Done, Done]\n\
        2 seen, 1 receipts\n\
        version 2 with 3 edges\n\
        1 seen, 1 receipts\n\
        version 2 with 3 edges\n\
        [(2, 3), (2, 3)]; 2 calls, replayed: true",
};

#[test]
fn workers_run_at_one_time(rt: HostRuntime) -> Result<(), Fail> {
    let round = Round::InTurn(Turns::new());
    are_carried_out(&rt, &SEED_SCENE, SEED_LISTS, &round)
}

/// The version that a view shows stays as it is while other calls are made.
#[test]
fn an_earlier_view_shows_the_start(rt: HostRuntime) -> Result<(), Fail> {
    let scene = Scene {
        steps: &[],
        due: "[Done, Done]\n[]; 2 calls, replayed: true",
        ..SEED_SCENE
    };
    let round = Round::Viewed(AtomicUsize::new(0));
    are_carried_out(&rt, &scene, SEED_LISTS, &round)
}

/// Two lists: one plans between the apexes, and the other takes the edge out that a plan crosses.
const APEX_LISTS: &[&[Command]] = &[
    &[Command::Planned {
        u: 3,
        v: 4,
        kind: 0,
    }],
    &[Command::Plain(Call::Delete { edge: 1 })],
];

const APEX_SCENE: Scene<'static> = Scene {
    start: Start::Bipyramid,
    prices: (Some(1), FIVE_TWO_NINE),
    steps: &[(0, Step::FirstReply)],
    due: "[Done, Done]\n\
        Inserted(Inserted { id: EdgeId(9), route: Route { start: 2, \
        crossed: Listed { items: [] }, end: 2 }, price: 0 })\n\
        []; 2 calls, replayed: true",
};

/// Has one worker plan while the other changes the picture.
#[test]
fn a_plan_is_made_anew_where_the_picture_changed_meanwhile(rt: HostRuntime) -> Result<(), Fail> {
    let round = Round::FromFirstPrice(Turns::new());
    are_carried_out(&rt, &APEX_SCENE, APEX_LISTS, &round)
}
