//! Rounds over a store with 17 unpacked data nodes of history.
use crate::desk::Desk;
use crate::scene::{Audit, Scene, play};
use crate::step::{keep, write_history};
use crate::worker_gate::{Rule, WorkerGate};
use growlog::StoreName;
use migrator::{Cause, MigrateFault, run_migrator};
use sessions::{Entry, LockedStore, Receipt};
use std::alloc::Global;
use std::process::Abort;
use std::sync::Wait;
use std::thread::Threads;
use values::Instant;

/// What is done round a store, and what the store shows then.
#[derive(Clone, Copy)]
pub(crate) struct Rounds<'a> {
    pub(crate) works: &'a [Work],
    pub(crate) shows: Audit,
}

/// What is done once round a store.
#[derive(Clone, Copy)]
pub(crate) enum Work {
    /// The employee 1 has another name at each instant from the first to the last.
    Write(Instant, Instant),
    /// A round of so many workers, whose gate gives up or not; and how many nodes are packed then
    /// in all, at least and at most.
    Round(u8, Rule, bool, (usize, usize)),
}

/// How many begins and how many done installs there are among receipts.
pub(crate) fn tally<J: StoreName>(receipts: &[Receipt<J>]) -> (usize, usize) {
    let mut begins = 0usize;
    let mut installs = 0usize;
    for receipt in receipts {
        match receipt.entry.entry() {
            Entry::Begin { .. } => begins = begins.saturating_add(1),
            Entry::Install { done: true, .. } => installs = installs.saturating_add(1),
            _ => {}
        }
    }
    (begins, installs)
}

/// Whether a round ended as its gate gave up, and how many installs were done. It began once, and had
/// no other fault. Its receipts are kept with the others.
fn keep_round<J: StoreName>(
    rt: &impl Abort,
    round: Result<Vec<Receipt<J>>, MigrateFault<J>>,
    all: &mut Vec<Receipt<J>>,
) -> (bool, usize) {
    let (cause, receipts) = match round {
        Ok(receipts) => (None, receipts),
        Err(MigrateFault { cause, receipts }) => (Some(cause), receipts),
    };
    assert!(rt; matches!(cause, None | Some(Cause::Gate(_))));
    let (begins, installs) = tally(receipts.as_slice());
    assert!(rt; begins == 1);
    keep(rt, all, receipts);
    (cause.is_some(), installs)
}

/// A round of a session with so many workers.
pub(crate) fn run_round<J: StoreName, R: Abort + Threads + Wait + Sync>(
    rt: &R,
    alloc: Global,
    store: &LockedStore<J>,
    (number, workers): (u8, u8),
    gate: &WorkerGate,
    all: &mut Vec<Receipt<J>>,
) -> (bool, usize) {
    let session = store.session(alloc, number);
    let mut session = session.expect(rt, "the number is upto 64");
    let round = run_migrator(rt, alloc, store, &mut session, workers, gate);
    keep_round(rt, round, all)
}

/// Writes history and runs rounds over it.
pub(crate) fn run_rounds<J: StoreName, R: Abort + Threads + Wait + Sync>(
    rt: &R,
    alloc: Global,
    store: &LockedStore<J>,
    desk: &mut Desk,
    rounds: &Rounds<'_>,
    receipts: &mut Vec<Receipt<J>>,
) -> Audit {
    let mut packed = 0usize;
    for work in rounds.works {
        match *work {
            Work::Write(first, last) => {
                write_history(rt, alloc, store, &mut desk.first, (first, last), receipts);
            }
            Work::Round(workers, rule, gives_up, (least, most)) => {
                let gate = WorkerGate::new(rule);
                let ended = run_round(rt, alloc, store, (0, workers), &gate, receipts);
                packed = packed.saturating_add(ended.1);
                assert!(rt; ended.0 == gives_up && least <= packed && packed <= most);
            }
        }
    }
    rounds.shows
}

/// What the store shows after two rounds of which nothing is left to be packed.
const PACKED: Audit = (72, 1, 18);

/// A round of two workers packs all, and one of eight has nothing to pack.
const ALL: Rounds<'static> = Rounds {
    works: &[
        Work::Write(1, 18),
        Work::Round(2, Rule::Few(100), false, (17, 17)),
        Work::Round(8, Rule::Few(100), false, (17, 17)),
    ],
    shows: PACKED,
};

#[test]
fn a_round_packs_all_and_the_next_has_nothing_to_pack(rt: HostRuntime) {
    play(&rt, rt.alloc(), Scene::Rounds(&ALL));
}

/// Rounds whose gates give up: after five packings, where the next round packs what is left; and
/// before the first.
const CUT: &[Rounds<'static>] = &[
    Rounds {
        works: &[
            Work::Write(1, 18),
            Work::Round(3, Rule::Few(5), true, (0, 5)),
            Work::Round(1, Rule::Few(17), false, (17, 17)),
        ],
        shows: PACKED,
    },
    Rounds {
        works: &[
            Work::Write(1, 18),
            Work::Round(2, Rule::Nobody, true, (0, 0)),
        ],
        shows: (54, 1, 18),
    },
];

#[test]
fn a_gate_that_gives_up_ends_the_round(rt: HostRuntime) {
    for rounds in CUT {
        play(&rt, rt.alloc(), Scene::Rounds(rounds));
    }
}

/// Rounds whose workers meet before the first node, and that are told to the gate from 1 on.
const TOGETHER: &[Rounds<'static>] = &[
    Rounds {
        works: &[
            Work::Write(1, 18),
            Work::Round(2, Rule::Both, false, (17, 17)),
            Work::Round(0, Rule::Few(0), false, (17, 17)),
        ],
        shows: PACKED,
    },
    Rounds {
        works: &[
            Work::Write(1, 18),
            Work::Round(3, Rule::UpTo(3), false, (17, 17)),
            Work::Round(1, Rule::UpTo(1), false, (17, 17)),
        ],
        shows: PACKED,
    },
];

#[test]
fn two_packers(rt: HostRuntime) {
    for rounds in TOGETHER {
        play(&rt, rt.alloc(), Scene::Rounds(rounds));
    }
}
