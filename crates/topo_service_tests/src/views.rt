//! Views, plans and found routes on one thread, and passes that are missing.

use crate::harness::{Scene, Start, Work, is_played};
use crate::steps::Step;
use std::test::Fail;
use topo_core::calls::Call;
use topo_test_support::prices::FIVE_TWO_NINE;

/// The apexes of the bipyramid.
const U: u32 = 3;

const V: u32 = 4;

/// An edge between the vertices of the seed.
const ALONG: Step = Step::Make(Call::Insert {
    u: 0,
    v: 1,
    kind: 0,
});

/// Edges from a vertex to itself.
const FIRST_LOOP: Step = Step::Make(Call::Insert {
    u: 0,
    v: 0,
    kind: 0,
});

const SECOND_LOOP: Step = Step::Make(Call::Insert {
    u: 1,
    v: 1,
    kind: 0,
});

/// The edge between the apexes, without a plan.
const JOIN: Step = Step::Make(Call::Insert {
    u: U,
    v: V,
    kind: 0,
});

/// The edge between the apexes is taken out, and then the one that it crosses.
const DELETE_JOIN: Step = Step::Make(Call::Delete { edge: 9 });

const DELETE_CROSSED: Step = Step::Make(Call::Delete { edge: 1 });

/// What the calls of two passes and their views tell.
const VIEWS_TOLD: &str = "version 0 with 1 edges\n\
    Inserted(Inserted { id: EdgeId(1), route: Route { start: 0, \
    crossed: Listed { items: [] }, end: 0 }, price: 0 })\n\
    version 1 with 2 edges\n\
    1 seen, 1 receipts\n\
    Inserted(Inserted { id: EdgeId(2), route: Route { start: 0, \
    crossed: Listed { items: [] }, end: 1 }, price: 0 })\n\
    version 2 with 3 edges\n\
    Refused(SameEnds)\n\
    version 2 with 3 edges\n\
    Refused(SameEnds)\n\
    2 seen, 2 receipts\n\
    Inserted(Inserted { id: EdgeId(3), route: Route { start: 0, \
    crossed: Listed { items: [] }, end: 1 }, price: 0 })\n\
    version 3 with 4 edges\n\
    3 seen, 2 receipts\n\
    3 seen, 3 receipts\n\
    [(0, 1), (1, 2), (2, 3), (2, 3), (3, 4)]; 5 calls, replayed: true";

const SCENES: &[Scene<'static>] = &[
    // views follow the calls
    Scene {
        start: Start::Seed,
        prices: (Some(1), &[]),
        steps: &[
            (0, Step::View),
            (0, ALONG),
            (0, Step::View),
            (0, Step::Seen),
            (1, ALONG),
            (1, Step::View),
            (1, FIRST_LOOP),
            (1, Step::View),
            (0, SECOND_LOOP),
            (0, Step::Seen),
            (1, ALONG),
            (0, Step::View),
            (0, Step::Seen),
            (1, Step::Seen),
        ],
        due: VIEWS_TOLD,
    },
    // a good plan spares the search, and a stale one does not harm
    Scene {
        start: Start::Bipyramid,
        prices: (Some(1), FIVE_TWO_NINE),
        steps: &[
            (0, Step::Plan(U, V)),
            (1, Step::Plan(U, V)),
            (0, Step::Asked),
            (0, Step::Check(U, V, 0)),
            (0, Step::Asked),
            (0, Step::InsertPlanned(U, V, 0)),
            (0, Step::Asked),
            (0, DELETE_JOIN),
            (0, DELETE_CROSSED),
            (1, Step::InsertPlanned(U, V, 1)),
        ],
        due: "planned for 2\n\
            planned for 2\n\
            asked 18 times\n\
            good: true\n\
            asked 19 times\n\
            Inserted(Inserted { id: EdgeId(9), route: Route { start: 2, \
            crossed: Listed { items: [Dart { edge: EdgeId(1), seg: 0, way: Back }] }, \
            end: 2 }, price: 2 })\n\
            asked 19 times\n\
            Deleted(EdgeId(9))\n\
            Deleted(EdgeId(1))\n\
            Inserted(Inserted { id: EdgeId(10), route: Route { start: 2, \
            crossed: Listed { items: [] }, end: 2 }, price: 0 })\n\
            []; 4 calls, replayed: true",
    },
    // A found route is taken as it is. The second of two is late when it is used: its route is
    // looked for again then, and since the apexes have a face in common by then, no price is asked.
    Scene {
        start: Start::Bipyramid,
        prices: (Some(1), FIVE_TWO_NINE),
        steps: &[
            (0, Step::Find(U, V)),
            (1, Step::Find(U, V)),
            (0, Step::Find(U, U)),
            (0, Step::Find(U, 9)),
            (0, Step::Asked),
            (0, Step::InsertFound(0)),
            (0, DELETE_JOIN),
            (0, DELETE_CROSSED),
            (1, Step::InsertFound(1)),
            (1, Step::Asked),
        ],
        due: "(3, 4) for 2\n\
            (3, 4) for 2\n\
            Refused(SameEnds)\n\
            Refused(NoVertex)\n\
            asked 14 times\n\
            Inserted(Inserted { id: EdgeId(9), route: Route { start: 2, \
            crossed: Listed { items: [Dart { edge: EdgeId(1), seg: 0, way: Back }] }, \
            end: 2 }, price: 2 })\n\
            Deleted(EdgeId(9))\n\
            Deleted(EdgeId(1))\n\
            Inserted(Inserted { id: EdgeId(10), route: Route { start: 2, \
            crossed: Listed { items: [] }, end: 2 }, price: 0 })\n\
            asked 0 times\n\
            []; 4 calls, replayed: true",
    },
    // where each way is closed, a search says that there is no route, and not that memory ran out
    Scene {
        start: Start::Bipyramid,
        prices: (None, &[]),
        steps: &[(0, Step::Plan(U, V)), (0, Step::Find(U, V)), (0, JOIN)],
        due: "Refused(NoRoute)\n\
            Refused(NoRoute)\n\
            Refused(NoRoute)\n\
            []; 1 calls, replayed: true",
    },
];

#[test]
fn what_two_passes_see_of_each_other(rt: HostRuntime) -> Result<(), Fail> {
    for scene in SCENES {
        is_played(&rt, scene, Work::Nothing(2))?;
    }
    Ok(())
}

/// A service has sixteen passes. Where only the second is handed back, the first that is missing is
/// told. A service without passes ends with an empty history.
const PASSES: &[(usize, &str)] = &[
    (20, "16 given out\n[]; 43 PassMissing(0), 1 passes"),
    (0, "0 given out\n[]; 0 calls, replayed: true"),
];

#[test]
fn the_seventeenth_pass_is_refused_and_missing_ones_are_told(rt: HostRuntime) -> Result<(), Fail> {
    for (passes, due) in PASSES {
        let scene = Scene {
            start: Start::Seed,
            prices: (Some(1), &[]),
            steps: &[],
            due: *due,
        };
        is_played(&rt, &scene, Work::SecondAlone(*passes))?;
    }
    Ok(())
}

/// A service of so many places: one pass more is refused, those that were given out go on, and the
/// service ends well.
#[test]
fn a_pass_that_is_refused_holds_nobody_up(rt: HostRuntime) -> Result<(), Fail> {
    let seats: [(u32, Scene<'static>); 2] = [
        (
            16,
            Scene {
                start: Start::Seed,
                prices: (Some(1), &[]),
                steps: &[(0, FIRST_LOOP), (15, FIRST_LOOP)],
                due: "16 given out, then 41\n\
                    Refused(SameEnds)\n\
                    Refused(SameEnds)\n\
                    []; 2 calls, replayed: true",
            },
        ),
        (
            1,
            Scene {
                start: Start::Seed,
                prices: (Some(1), &[]),
                steps: &[(0, FIRST_LOOP), (0, FIRST_LOOP)],
                due: "1 given out, then 41\n\
                    Refused(SameEnds)\n\
                    Refused(SameEnds)\n\
                    []; 2 calls, replayed: true",
            },
        ),
    ];
    for (places, scene) in &seats {
        is_played(&rt, scene, Work::Seats(*places))?;
    }
    Ok(())
}
