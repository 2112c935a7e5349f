//! A packed node that is installed.
use crate::desk::Desk;
use crate::scene::{Audit, Scene, play};
use crate::step::{begin, write_history};
use growlog::StoreName;
use sessions::{Entry, LockedStore, PackedNode, Receipt, find_job, pack_job};
use std::alloc::Global;
use std::process::Abort;
use std::sync::Wait;

/// The first node of history that the last receipt shows unpacked, which is a begin, with its block.
fn pack_first<J: StoreName>(
    rt: &impl Abort,
    alloc: Global,
    receipts: &[Receipt<J>],
) -> Option<PackedNode> {
    let Entry::Begin { view, .. } = receipts.last()?.entry.entry() else {
        return None;
    };
    let job = find_job(view, None).expect(rt, "there is memory")?;
    Some(pack_job(alloc, job).expect(rt, "there is memory"))
}

/// Installs a packed node; whether it was done.
fn install<J: StoreName, R: Abort + Wait>(
    rt: &R,
    store: &LockedStore<J>,
    packed: PackedNode,
    receipts: &mut Vec<Receipt<J>>,
) -> Option<bool> {
    let receipt = store.install(rt, packed).expect(rt, "it has a receipt");
    let was_done = match receipt.entry.entry() {
        Entry::Install { done, .. } => Some(*done),
        _ => None,
    };
    receipts.push(receipt).expect(rt, "there is memory");
    was_done
}

/// A packed node is installed, and its copy is not.
pub(crate) fn install_twice<J: StoreName, R: Abort + Wait>(
    rt: &R,
    alloc: Global,
    store: &LockedStore<J>,
    desk: &mut Desk,
    receipts: &mut Vec<Receipt<J>>,
) -> Audit {
    write_history(rt, alloc, store, &mut desk.first, (10, 11), receipts);
    begin(rt, store, &mut desk.service, receipts);
    let packed = pack_first(rt, alloc, receipts.as_slice()).expect(rt, "there is history");
    let copy = packed.copy().expect(rt, "there is memory");
    assert!(rt; install(rt, store, packed, receipts) == Some(true));
    assert!(rt; install(rt, store, copy, receipts) == Some(false));
    (8, 1, 11)
}

#[test]
fn a_packed_node_is_installed_once_and_noted_twice(rt: HostRuntime) {
    play(&rt, rt.alloc(), Scene::InstallTwice);
}
