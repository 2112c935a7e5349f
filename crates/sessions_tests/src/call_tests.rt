//! UPDATE, DELETE, ROLLBACK and a split.
use crate::desk::{Desk, count, delete, insert, is_no_transaction, key, sees, set_name};
use crate::scene::{Audit, Scene, play};
use crate::step::{begin, split};
use growlog::StoreName;
use sessions::{Cut, LockedStore, Receipt, Session};
use std::alloc::Global;
use std::process::Abort;
use std::sync::Wait;
use values::{Form, KeyBytes, Keys};

/// An open transaction writes: whether the new name is seen, and how many rows are seen after a deletion.
fn write_all(rt: &impl Abort, alloc: Global, session: &mut Session) -> (bool, usize) {
    insert(rt, alloc, session, 1, "Ann");
    insert(rt, alloc, session, 2, "Bea");
    set_name(rt, alloc, session, 1, "Fay");
    let seen = sees(rt, alloc, session, 1, "Fay");
    delete(rt, alloc, session, 1);
    (seen, count(rt, alloc, session))
}

/// Whether a session has no transaction open, as its calls answer.
fn is_idle(rt: &impl Abort, alloc: Global, session: &mut Session) -> bool {
    let shown = is_no_transaction(session.select(Form::Plain, &Keys::all(alloc, 1)).err());
    let found = is_no_transaction(session.get(&key(rt, alloc, 1)).err());
    let ended = is_no_transaction(session.rollback().err());
    shown && found && ended
}

/// A session writes, and is idle after its rollback.
pub(crate) fn make_calls<J: StoreName, R: Abort + Wait>(
    rt: &R,
    alloc: Global,
    store: &LockedStore<J>,
    desk: &mut Desk,
    receipts: &mut Vec<Receipt<J>>,
) -> Audit {
    let session = &mut desk.first;
    begin(rt, store, session, receipts);
    assert!(rt; write_all(rt, alloc, session) == (true, 1));
    session.rollback().expect(rt, "a transaction is open");
    assert!(rt; is_idle(rt, alloc, session));
    (1, 0, 0)
}

#[test]
fn a_session_writes_and_rolls_back(rt: HostRuntime) {
    play(&rt, rt.alloc(), Scene::Calls);
}

/// The one node of a store is split at a key inside it, and not at its least key.
pub(crate) fn split_twice<J: StoreName, R: Abort + Wait>(
    rt: &R,
    alloc: Global,
    store: &LockedStore<J>,
    receipts: &mut Vec<Receipt<J>>,
) -> Audit {
    let inside = vec![in alloc; 1, 5].expect(rt, "there is memory");
    let at_key = Cut::Key(KeyBytes::new(inside).expect(rt, "two bytes are few"));
    assert!(rt; split(rt, store, at_key, receipts) == Some(true));
    let at_least = Cut::Key(KeyBytes::least(alloc));
    assert!(rt; split(rt, store, at_least, receipts) == Some(false));
    (2, 0, 0)
}

#[test]
fn a_store_splits_a_node_at_a_key_inside_it(rt: HostRuntime) {
    play(&rt, rt.alloc(), Scene::Splits);
}
