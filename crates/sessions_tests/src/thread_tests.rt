//! Sessions in threads of their own.
use crate::desk::{count, session};
use crate::scene::{Audit, Scene, play};
use crate::step::{begin, end_of, hire_twenty, keep, name_often};
use crate::store_tests::hire_and_count;
use growlog::StoreName;
use sessions::{LockedStore, Receipt, Session};
use std::alloc::Global;
use std::process::Abort;
use std::sync::{Mutex, Wait};
use std::thread;
use std::thread::Threads;

/// A tray in which threads put receipts: what a thread returns may be dropped, and a receipt may
/// not.
pub(crate) type Tray<J> = Mutex<Vec<Receipt<J>>>;

/// Twenty transactions of a session that is new, each with an employee of its own, or ten that all
/// write one row. Their receipts are put in the tray.
fn run_session<J: StoreName, R: Abort + Wait>(
    rt: &R,
    alloc: Global,
    store: &LockedStore<J>,
    number: u8,
    hires: bool,
    tray: &Tray<J>,
) {
    let mut session = session(rt, alloc, number);
    let mut receipts = Vec::new(alloc);
    if hires {
        hire_twenty(rt, alloc, store, &mut session, &mut receipts);
    } else {
        name_often(rt, alloc, store, &mut session, &mut receipts);
    }
    let mut all = tray.lock(rt);
    keep(rt, &mut *all, receipts);
}

/// So many sessions, each in a thread of its own, of which each inserts employees of its own, or all
/// write one row.
fn run_in_threads<J: StoreName, R: Abort + Threads + Wait + Sync>(
    rt: &R,
    alloc: Global,
    store: &LockedStore<J>,
    threads: u8,
    hires: bool,
    tray: &Tray<J>,
) {
    thread::scope(thread::scope_env(), rt, |scope| {
        for number in 1..=threads {
            let handle = scope.spawn(move || run_session(rt, alloc, store, number, hires, tray));
            let _running = handle.expect(rt, "a thread starts");
        }
    })
}

/// How many of these are receipts of transactions that were committed.
fn count_committed<J: StoreName>(receipts: &[Receipt<J>]) -> u64 {
    let mut count = 0u64;
    for receipt in receipts {
        let is_committed = end_of(receipt.entry.entry()) == Some(true);
        count = count.saturating_add(is_committed as u64);
    }
    count
}

/// So many sessions in threads, of which each inserts twenty employees, or all write one row, where
/// each commit has its instant.
pub(crate) fn run_threads<J: StoreName, R: Abort + Threads + Wait + Sync>(
    rt: &R,
    alloc: Global,
    store: &LockedStore<J>,
    threads: u8,
    hires: bool,
    receipts: &mut Vec<Receipt<J>>,
) -> Audit {
    let tray = Mutex::new(Vec::new(alloc));
    run_in_threads(rt, alloc, store, threads, hires, &tray);
    keep(rt, receipts, tray.into_inner());
    if hires {
        (80, 40, 40)
    } else {
        (160, 1, count_committed(receipts.as_slice()))
    }
}

#[test]
fn sessions_in_threads_commit_or_have_a_conflict(rt: HostRuntime) {
    play(&rt, rt.alloc(), Scene::HireInThreads);
    play(&rt, rt.alloc(), Scene::NameInThreads);
}

/// How many employees a session sees that begins once it has committed one, and the receipts.
fn hire_and_begin<J: StoreName, R: Abort + Wait>(
    rt: &R,
    alloc: Global,
    store: &LockedStore<J>,
) -> (usize, Vec<Receipt<J>>) {
    let mut session = session(rt, alloc, 2);
    let mut receipts = Vec::new(alloc);
    let seen = hire_and_count(rt, alloc, store, &mut session, &mut receipts);
    (seen, receipts)
}

/// How many employees two sessions see: one that began before the other committed an employee, and is read in a thread
/// of its own, and the other, which begins again meanwhile, with its receipts.
fn count_in_threads<J: StoreName, R: Abort + Threads + Wait + Sync>(
    rt: &R,
    alloc: Global,
    store: &LockedStore<J>,
    mut before: Session,
) -> (usize, (usize, Vec<Receipt<J>>)) {
    thread::scope(thread::scope_env(), rt, |scope| {
        let reader = scope.spawn(move || count(rt, alloc, &mut before));
        let after = hire_and_begin(rt, alloc, store);
        (reader.expect(rt, "a thread starts").join(rt), after)
    })
}

/// A session that began before another committed an employee does not see it.
pub(crate) fn keep_view<J: StoreName, R: Abort + Threads + Wait + Sync>(
    rt: &R,
    alloc: Global,
    store: &LockedStore<J>,
    receipts: &mut Vec<Receipt<J>>,
) -> Audit {
    let mut before = session(rt, alloc, 1);
    begin(rt, store, &mut before, receipts);
    let (seen, (own, others)) = count_in_threads(rt, alloc, store, before);
    assert!(rt; seen == 0 && own == 1);
    keep(rt, receipts, others);
    (4, 1, 1)
}

#[test]
fn an_old_view_is_kept_while_others_begin(rt: HostRuntime) {
    play(&rt, rt.alloc(), Scene::OldView);
}
