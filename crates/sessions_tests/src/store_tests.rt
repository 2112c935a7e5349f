//! Sessions beside each other, and a session at a store where it did not begin.
ghost use Rattle.std.specs.Prelude.{◌≡◌, []};

use crate::desk::{Desk, count, insert};
use crate::scene::{Audit, Scene, closed_with, play};
use crate::step::{begin, commit};
use growlog::{NewLog, StoreName};
use sessions::{LockedStore, Receipt, Session, SharedEntry, StoreRefusal};
use std::alloc::Global;
use std::marker::Brand;
use std::process::Abort;
use std::sync::Wait;
use values::Schema;

/// A transaction of a session inserts an employee, and the session begins again: how many it sees then.
pub(crate) fn hire_and_count<J: StoreName, R: Abort + Wait>(
    rt: &R,
    alloc: Global,
    store: &LockedStore<J>,
    session: &mut Session,
    receipts: &mut Vec<Receipt<J>>,
) -> usize {
    begin(rt, store, session, receipts);
    insert(rt, alloc, session, 1, "Ann");
    assert!(rt; commit(rt, store, session, 0, receipts));
    begin(rt, store, session, receipts);
    count(rt, alloc, session)
}

/// How many employees sessions see, of which the first began before an employee was committed, the second has committed it and
/// begins again, and the third begins after that.
pub(crate) fn count_beside<J: StoreName, R: Abort + Wait>(
    rt: &R,
    alloc: Global,
    store: &LockedStore<J>,
    desk: &mut Desk,
    receipts: &mut Vec<Receipt<J>>,
) -> Audit {
    begin(rt, store, &mut desk.first, receipts);
    assert!(rt; hire_and_count(rt, alloc, store, &mut desk.second, receipts) == 1);
    begin(rt, store, &mut desk.third, receipts);
    assert!(rt; count(rt, alloc, &mut desk.first) == 0);
    assert!(rt; count(rt, alloc, &mut desk.third) == 1);
    (5, 1, 1)
}

#[test]
fn each_session_sees_what_was_committed_when_it_began(rt: HostRuntime) {
    play(&rt, rt.alloc(), Scene::BesideEachOther);
}

/// Whether a store of these tables refuses a commit of a session that began at another, as one with no transaction, and
/// closes with no entry.
fn refuses_commit<K: StoreName, R: Abort + Wait>(
    rt: &R,
    alloc: Global,
    schema: Schema,
    opened: NewLog<SharedEntry>,
    session: &mut Session,
) -> bool
    requires log { opened.seen.book ≡ K.book }
    requires origin { K.origin ≡ record { schema = schema; log = []; most_entries = 1000000 } }
{
    let other = LockedStore::<K>::new(alloc, schema, 1_000_000, opened).expect(
        rt,
        "there is memory",
    );
    match other.commit(rt, session, 0) {
        Ok(_receipt) => panic!(rt; "it was committed elsewhere"),
        Err(refusal) => {
            let shown = closed_with(rt, alloc, other, Vec::new(alloc));
            matches!(&refusal, StoreRefusal::Book(refusal) if refusal.is_not_open())
                && shown == Some((0, 0, 0))
        }
    }
}

/// A session begins at one store, commits at another that is new, and then where it began.
pub(crate) fn commit_elsewhere<J: StoreName, R: Abort + Wait>(
    rt: &R,
    alloc: Global,
    store: &LockedStore<J>,
    desk: &mut Desk,
    receipts: &mut Vec<Receipt<J>>,
) -> Audit {
    let session = &mut desk.first;
    begin(rt, store, session, receipts);
    let schema = Schema::sample(alloc).expect(rt, "there is memory");
    let opened = NewLog::new();
    assert!(rt; refuses_commit::<Brand, _>(rt, alloc, schema, opened, session));
    let done = store.commit(rt, session, 0).expect(rt, "it ends");
    receipts.push(done).expect(rt, "there is memory");
    (2, 0, 0)
}

#[test]
fn a_transaction_is_open_at_its_own_store_alone(rt: HostRuntime) {
    play(&rt, rt.alloc(), Scene::Elsewhere);
}

/// A session begins at a store whose journal may have one entry, and another is refused since it is full.
pub(crate) fn fill<J: StoreName, R: Abort + Wait>(
    rt: &R,
    store: &LockedStore<J>,
    desk: &mut Desk,
    receipts: &mut Vec<Receipt<J>>,
) -> Audit {
    assert!(rt; store.entries(rt) == 0);
    begin(rt, store, &mut desk.first, receipts);
    assert!(rt; store.entries(rt) == store.most_entries());
    match store.begin(rt, &mut desk.second) {
        Ok(_receipt) => panic!(rt; "it began in a full journal"),
        Err(refusal) => {
            assert!(rt; matches!(&refusal, StoreRefusal::Book(refusal) if refusal.is_full()));
        }
    }
    (1, 0, 0)
}

#[test]
fn a_journal_is_full_with_all_entries_that_it_may_have(rt: HostRuntime) {
    play(&rt, rt.alloc(), Scene::Full);
}
