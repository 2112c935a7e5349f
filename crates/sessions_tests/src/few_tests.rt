//! Rounds with few nodes to pack, which they pack on the thread of their caller.
use crate::desk::Desk;
use crate::round_tests::{Rounds, Work, run_round, tally};
use crate::scene::{Audit, Scene, play};
use crate::step::{keep, write_history};
use crate::thread_tests::Tray;
use crate::worker_gate::{Rule, WorkerGate};
use growlog::StoreName;
use sessions::{LockedStore, Receipt};
use std::alloc::Global;
use std::process::Abort;
use std::sync::{Mutex, Wait};
use std::thread;
use std::thread::Threads;

/// Rounds with up to four nodes to pack: with no history, with that of one version, with one node,
/// and with four, after which one finds nothing.
const FEW: &[Rounds<'static>] = &[
    Rounds {
        works: &[
            Work::Round(8, Rule::Few(0), false, (0, 0)),
            Work::Write(7, 7),
            Work::Round(2, Rule::Few(0), false, (0, 0)),
        ],
        shows: (4, 1, 7),
    },
    Rounds {
        works: &[
            Work::Write(10, 11),
            Work::Round(8, Rule::Alone, false, (1, 1)),
        ],
        shows: (7, 1, 11),
    },
    Rounds {
        works: &[
            Work::Write(1, 5),
            Work::Round(8, Rule::Alone, false, (4, 4)),
            Work::Round(1, Rule::Few(0), false, (4, 4)),
        ],
        shows: (20, 1, 5),
    },
];

#[test]
fn a_round_packs_four_nodes_as_worker_1(rt: HostRuntime) {
    for rounds in FEW {
        play(&rt, rt.alloc(), Scene::Rounds(rounds));
    }
}

/// A round with five nodes to pack, whose workers meet before the first.
const FIVE: Rounds<'static> = Rounds {
    works: &[Work::Write(1, 6), Work::Round(2, Rule::Both, false, (5, 5))],
    shows: (23, 1, 6),
};

#[test]
fn a_round_has_workers_for_five_nodes(rt: HostRuntime) {
    play(&rt, rt.alloc(), Scene::Rounds(&FIVE));
}

/// Three rounds over four nodes to pack: one whose gate never opens, one whose gate lets two packings
/// pass, and one that packs the rest.
const TWO_BY_TWO: Rounds<'static> = Rounds {
    works: &[
        Work::Write(1, 5),
        Work::Round(2, Rule::Nobody, true, (0, 0)),
        Work::Round(2, Rule::Few(2), true, (2, 2)),
        Work::Round(2, Rule::Few(2), false, (4, 4)),
    ],
    shows: (21, 1, 5),
};

#[test]
fn a_gate_is_passed_before_each_of_few_nodes(rt: HostRuntime) {
    play(&rt, rt.alloc(), Scene::Rounds(&TWO_BY_TWO));
}

/// A round of a session, which must pack or find packed what it has to; its receipts are put in the
/// tray.
fn run_beside<J: StoreName, R: Abort + Threads + Wait + Sync>(
    rt: &R,
    alloc: Global,
    store: &LockedStore<J>,
    number: u8,
    gate: &WorkerGate,
    tray: &Tray<J>,
) {
    let mut receipts = Vec::new(alloc);
    let (gave_up, _) = run_round(rt, alloc, store, (number, 1), gate, &mut receipts);
    let mut all = tray.lock(rt);
    keep(rt, &mut *all, receipts);
    assert!(rt; !gave_up);
}

/// Two rounds, each in a thread of its own.
fn run_two<J: StoreName, R: Abort + Threads + Wait + Sync>(
    rt: &R,
    alloc: Global,
    store: &LockedStore<J>,
    gate: &WorkerGate,
    tray: &Tray<J>,
) {
    thread::scope(thread::scope_env(), rt, |scope| {
        for number in 2..4u8 {
            let handle = scope.spawn(move || run_beside(rt, alloc, store, number, gate, tray));
            let _running = handle.expect(rt, "a thread starts");
        }
    })
}

/// Two rounds that have begun before either packs the one node that there is.
pub(crate) fn pack_one_twice<J: StoreName, R: Abort + Threads + Wait + Sync>(
    rt: &R,
    alloc: Global,
    store: &LockedStore<J>,
    desk: &mut Desk,
    receipts: &mut Vec<Receipt<J>>,
) -> Audit {
    write_history(rt, alloc, store, &mut desk.first, (10, 11), receipts);
    let tray = Mutex::new(Vec::new(alloc));
    run_two(rt, alloc, store, &WorkerGate::new(Rule::Twice), &tray);
    let both = tray.into_inner();
    assert!(rt; both.len() == 4 && tally(both.as_slice()).1 == 1);
    keep(rt, receipts, both);
    (9, 1, 11)
}

#[test]
fn a_node_that_another_round_has_packed_is_not_packed_again(rt: HostRuntime) {
    play(&rt, rt.alloc(), Scene::PackOneTwice);
}
