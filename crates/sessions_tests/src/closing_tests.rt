//! Closing a store.
use crate::desk::{Desk, insert, sees};
use crate::scene::{Audit, Scene, play};
use growlog::StoreName;
use sessions::{Entry, LockedStore, Receipt, Session};
use std::alloc::Global;
use std::process::Abort;
use std::sync::Wait;

/// The number of the earlier entry that the first of these names, which is a begin.
fn earlier_of<J: StoreName>(receipts: &[Receipt<J>]) -> Option<u64> {
    match receipts.first()?.entry.entry() {
        Entry::Begin { earlier, .. } => Some(*earlier),
        _ => None,
    }
}

/// A session begins, inserts the employee 7, commits, and begins again: the numbers of the receipts, which are kept in
/// another order, the last one first.
fn hire_and_begin<J: StoreName, R: Abort + Wait>(
    rt: &R,
    alloc: Global,
    store: &LockedStore<J>,
    session: &mut Session,
    receipts: &mut Vec<Receipt<J>>,
) -> (u64, u64, u64) {
    let begun = store.begin(rt, session).expect(rt, "it begins");
    insert(rt, alloc, session, 7, "Ann");
    let done = store.commit(rt, session, 0).expect(rt, "it ends");
    let again = store.begin(rt, session).expect(rt, "it begins again");
    let numbers = (begun.number, done.number, again.number);
    receipts.push(again).expect(rt, "there is memory");
    receipts.push(begun).expect(rt, "there is memory");
    receipts.push(done).expect(rt, "there is memory");
    numbers
}

/// A session commits an employee and begins again: the begin names the commit, and the employee is seen. The receipts are kept in another order.
pub(crate) fn read_back<J: StoreName, R: Abort + Wait>(
    rt: &R,
    alloc: Global,
    store: &LockedStore<J>,
    desk: &mut Desk,
    receipts: &mut Vec<Receipt<J>>,
) -> Audit {
    assert!(rt; hire_and_begin(rt, alloc, store, &mut desk.first, receipts) == (1, 2, 3));
    assert!(rt; earlier_of(receipts.as_slice()) == Some(2));
    assert!(rt; sees(rt, alloc, &desk.first, 7, "Ann"));
    (3, 1, 1)
}

#[test]
fn a_session_reads_back_what_it_committed(rt: HostRuntime) {
    play(&rt, rt.alloc(), Scene::ReadBack);
}
