//! Steps at a store, whose receipts are kept. The run ends where a step is refused.
use crate::desk::{insert, sees, set_name};
use growlog::StoreName;
use sessions::{Cut, Entry, LockedStore, Receipt, Session};
use std::alloc::Global;
use std::process::Abort;
use std::sync::Wait;
use values::{Instant, KeyBytes, Refusal};

/// Keeps more receipts with the others.
pub(crate) fn keep<J: StoreName>(
    rt: &impl Abort,
    receipts: &mut Vec<Receipt<J>>,
    mut more: Vec<Receipt<J>>,
) {
    receipts.append(&mut more).expect(rt, "there is memory");
    more.destroy_empty();
}

/// Begins a session's transaction.
pub(crate) fn begin<J: StoreName, R: Abort + Wait>(
    rt: &R,
    store: &LockedStore<J>,
    session: &mut Session,
    receipts: &mut Vec<Receipt<J>>,
) {
    let begun = store.begin(rt, session).expect(rt, "it begins");
    receipts.push(begun).expect(rt, "there is memory");
}

/// Whether a transaction was committed or was in conflict; none where it ended otherwise.
pub(crate) fn end_of(entry: &Entry) -> Option<bool> {
    let Entry::Commit { end, .. } = entry else {
        return None;
    };
    match end {
        Ok(Some(_)) => Some(true),
        Ok(None) => None,
        Err(Refusal::Conflict(_, _)) => Some(false),
        Err(_) => None,
    }
}

/// Ends a session's transaction: whether it was committed. It must be that or in conflict.
pub(crate) fn commit<J: StoreName, R: Abort + Wait>(
    rt: &R,
    store: &LockedStore<J>,
    session: &mut Session,
    reading: Instant,
    receipts: &mut Vec<Receipt<J>>,
) -> bool {
    let done = store.commit(rt, session, reading).expect(rt, "it ends");
    let end = end_of(done.entry.entry());
    receipts.push(done).expect(rt, "there is memory");
    end.expect(rt, "it is committed or in conflict")
}

/// Splits a node; whether it was done.
pub(crate) fn split<J: StoreName, R: Abort + Wait>(
    rt: &R,
    store: &LockedStore<J>,
    cut: Cut,
    receipts: &mut Vec<Receipt<J>>,
) -> Option<bool> {
    let split = store.split(rt, cut).expect(rt, "it has a receipt");
    let was_done = match split.entry.entry() {
        Entry::Split { done, .. } => Some(*done),
        _ => None,
    };
    receipts.push(split).expect(rt, "there is memory");
    was_done
}

/// Twenty transactions of a session, each with an employee of its own, are committed.
pub(crate) fn hire_twenty<J: StoreName, R: Abort + Wait>(
    rt: &R,
    alloc: Global,
    store: &LockedStore<J>,
    session: &mut Session,
    receipts: &mut Vec<Receipt<J>>,
) {
    for round in 0..20i64 {
        let own = 100 * i64::from(session.number()) + round + 1;
        begin(rt, store, session, receipts);
        assert!(rt; insert(rt, alloc, session, own, "Ann") == 1);
        assert!(rt; commit(rt, store, session, 0, receipts));
    }
}

/// A session begins, and gives the employee 1 a name.
pub(crate) fn begin_and_name<J: StoreName, R: Abort + Wait>(
    rt: &R,
    alloc: Global,
    store: &LockedStore<J>,
    session: &mut Session,
    name: &str,
    receipts: &mut Vec<Receipt<J>>,
) {
    begin(rt, store, session, receipts);
    if set_name(rt, alloc, session, 1, name) == 0 {
        insert(rt, alloc, session, 1, name);
    }
}

/// Commits a transaction that gave the employee 1 a name, and must see the name: whether it was committed.
pub(crate) fn commit_name<J: StoreName, R: Abort + Wait>(
    rt: &R,
    alloc: Global,
    store: &LockedStore<J>,
    session: &mut Session,
    name: &str,
    receipts: &mut Vec<Receipt<J>>,
) -> bool {
    assert!(rt; sees(rt, alloc, session, 1, name));
    commit(rt, store, session, 0, receipts)
}

/// Ten transactions of a session that give the employee 1 a name: each is committed or in conflict.
pub(crate) fn name_often<J: StoreName, R: Abort + Wait>(
    rt: &R,
    alloc: Global,
    store: &LockedStore<J>,
    session: &mut Session,
    receipts: &mut Vec<Receipt<J>>,
) {
    for _ in 0..10 {
        begin_and_name(rt, alloc, store, session, "Ann", receipts);
        commit_name(rt, alloc, store, session, "Ann", receipts);
    }
}

/// The employee 1 has another name at each instant from the first to the last, and the node is split at each but the first.
pub(crate) fn write_history<J: StoreName, R: Abort + Wait>(
    rt: &R,
    alloc: Global,
    store: &LockedStore<J>,
    session: &mut Session,
    instants: (Instant, Instant),
    receipts: &mut Vec<Receipt<J>>,
) {
    let (first, last) = instants;
    for instant in first..last.saturating_add(1) {
        let name = if instant % 2 == 0 { "Bea" } else { "Ann" };
        begin_and_name(rt, alloc, store, session, name, receipts);
        assert!(rt; commit(rt, store, session, instant, receipts));
        if first < instant {
            let cut = Cut::Time(KeyBytes::least(alloc), instant);
            split(rt, store, cut, receipts);
        }
    }
}
