//! Runs of several sessions round one store.
use crate::desk::Desk;
use crate::scene::{Audit, Scene, play};
use crate::step::{begin_and_name, commit_name, hire_twenty};
use growlog::StoreName;
use sessions::{LockedStore, Receipt};
use std::alloc::Global;
use std::process::Abort;
use std::sync::Wait;

/// Two sessions each insert twenty employees.
pub(crate) fn hire_by_two<J: StoreName, R: Abort + Wait>(
    rt: &R,
    alloc: Global,
    store: &LockedStore<J>,
    desk: &mut Desk,
    receipts: &mut Vec<Receipt<J>>,
) -> Audit {
    hire_twenty(rt, alloc, store, &mut desk.first, receipts);
    hire_twenty(rt, alloc, store, &mut desk.second, receipts);
    (80, 40, 40)
}

#[test]
fn two_sessions_commit_all_that_they_insert(rt: HostRuntime) {
    play(&rt, rt.alloc(), Scene::HireByTwo);
}

/// Two sessions name one employee at a time.
pub(crate) fn name_by_two<J: StoreName, R: Abort + Wait>(
    rt: &R,
    alloc: Global,
    store: &LockedStore<J>,
    desk: &mut Desk,
    receipts: &mut Vec<Receipt<J>>,
) -> Audit {
    let Desk { first, second, .. } = desk;
    begin_and_name(rt, alloc, store, first, "Ann", receipts);
    begin_and_name(rt, alloc, store, second, "Bea", receipts);
    assert!(rt; commit_name(rt, alloc, store, first, "Ann", receipts));
    assert!(rt; !commit_name(rt, alloc, store, second, "Bea", receipts));
    (4, 1, 1)
}

#[test]
fn the_second_committer_has_a_conflict_and_a_receipt(rt: HostRuntime) {
    play(&rt, rt.alloc(), Scene::NameByTwo);
}
