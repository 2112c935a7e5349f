//! Scenes round a store that is made for each, and what the store shows when it is closed.
ghost use Rattle.std.specs.Prelude.{◌≡◌, []};

use crate::call_tests::{make_calls, split_twice};
use crate::case::{Case, serve_case};
use crate::closing_tests::read_back;
use crate::desk::{Desk, count_in, open_desk};
use crate::few_tests::pack_one_twice;
use crate::install_tests::install_twice;
use crate::replay_tests::serve_and_replay;
use crate::round_tests::{Rounds, run_rounds};
use crate::run_tests::{hire_by_two, name_by_two};
use crate::store_tests::{commit_elsewhere, count_beside, fill};
use crate::thread_tests::{keep_view, run_threads};
use growlog::{NewLog, StoreName};
use sessions::{BlockCache, Closed, LockedStore, Receipt, SharedEntry, Unclosed, listing_of};
use std::alloc::Global;
use std::marker::Brand;
use std::process::Abort;
use std::sync::Wait;
use std::thread::Threads;
use steps::fit_keys;
use values::{Form, Keys, Schema};

/// What a closed store shows: how many entries, how many employees, and the instant of the last commit.
pub(crate) type Audit = (usize, usize, u64);

/// What is done round a store: the scenes of the tests.
#[derive(Clone, Copy)]
pub(crate) enum Scene<'a> {
    Calls,
    Splits,
    ReadBack,
    InstallTwice,
    HireByTwo,
    NameByTwo,
    BesideEachOther,
    Elsewhere,
    Full,
    HireInThreads,
    NameInThreads,
    OldView,
    Rounds(&'a Rounds<'a>),
    PackOneTwice,
    OneHistory,
    Serve(&'a Case<'a>),
}

fn audit_of(rt: &impl Abort, alloc: Global, closed: &Closed) -> Audit {
    let view = closed.tree().current();
    let schema = Schema::sample(alloc).expect(rt, "there is memory");
    let mut cache = BlockCache::new(alloc);
    let keys = Keys::all(alloc, 1);
    let keys = fit_keys(&schema, 0, &keys).expect(rt, "they fit");
    let listing = listing_of(alloc, &mut cache, view, Form::Plain, keys);
    let employees = count_in(&listing.expect(rt, "they are listed"));
    (closed.entries(), employees, view.last())
}

/// Closes a store and looks at what it shows; none where it does not close, and is given up.
pub(crate) fn closed_with<J: StoreName>(
    rt: &impl Abort,
    alloc: Global,
    store: LockedStore<J>,
    receipts: Vec<Receipt<J>>,
) -> Option<Audit> {
    match store.close(receipts) {
        Ok(closed) => Some(audit_of(rt, alloc, &closed)),
        Err(Unclosed { store, receipts }) => {
            let _gone = store.give_up(receipts);
            None
        }
    }
}

/// Closes a store with these receipts, but first tries to without the last one, which must fail.
/// None where it does not close with all.
fn closed_in_two<J: StoreName>(
    rt: &impl Abort,
    alloc: Global,
    store: LockedStore<J>,
    mut receipts: Vec<Receipt<J>>,
) -> Option<Audit> {
    let Some(last) = receipts.pop() else {
        return closed_with(rt, alloc, store, receipts);
    };
    match store.close(receipts) {
        Ok(_) => panic!(rt; "it closed without the last receipt"),
        Err(
            Unclosed {
                store,
                mut receipts,
            },
        ) => {
            receipts.push(last).expect(rt, "there is memory");
            closed_with(rt, alloc, store, receipts)
        }
    }
}

/// Plays a scene, whose receipts are kept: what the store must show that is closed with them.
fn play_at<J: StoreName, R: Abort + Threads + Wait + Sync>(
    rt: &R,
    alloc: Global,
    store: &LockedStore<J>,
    scene: Scene<'_>,
    desk: &mut Desk,
    receipts: &mut Vec<Receipt<J>>,
) -> Audit {
    match scene {
        Scene::Calls => make_calls(rt, alloc, store, desk, receipts),
        Scene::Splits => split_twice(rt, alloc, store, receipts),
        Scene::ReadBack => read_back(rt, alloc, store, desk, receipts),
        Scene::InstallTwice => install_twice(rt, alloc, store, desk, receipts),
        Scene::HireByTwo => hire_by_two(rt, alloc, store, desk, receipts),
        Scene::NameByTwo => name_by_two(rt, alloc, store, desk, receipts),
        Scene::BesideEachOther => count_beside(rt, alloc, store, desk, receipts),
        Scene::Elsewhere => commit_elsewhere(rt, alloc, store, desk, receipts),
        Scene::Full => fill(rt, store, desk, receipts),
        Scene::HireInThreads => run_threads(rt, alloc, store, 2, true, receipts),
        Scene::NameInThreads => run_threads(rt, alloc, store, 8, false, receipts),
        Scene::OldView => keep_view(rt, alloc, store, receipts),
        Scene::Rounds(rounds) => run_rounds(rt, alloc, store, desk, rounds, receipts),
        Scene::PackOneTwice => pack_one_twice(rt, alloc, store, desk, receipts),
        Scene::OneHistory => serve_and_replay(rt, alloc, store, desk, receipts),
        Scene::Serve(case) => serve_case(rt, alloc, store, case, receipts),
    }
}

/// The same with sessions that are new.
fn play_with<J: StoreName, R: Abort + Threads + Wait + Sync>(
    rt: &R,
    alloc: Global,
    store: &LockedStore<J>,
    scene: Scene<'_>,
    receipts: &mut Vec<Receipt<J>>,
) -> Audit {
    let mut desk = open_desk(rt, alloc);
    play_at(rt, alloc, store, scene, &mut desk, receipts)
}

/// Plays a scene round a store of these tables, whose journal may have so many entries, and closes it.
fn play_round<J: StoreName, R: Abort + Threads + Wait + Sync>(
    rt: &R,
    alloc: Global,
    schema: Schema,
    most_entries: usize,
    opened: NewLog<SharedEntry>,
    scene: Scene<'_>,
)
    requires log { opened.seen.book ≡ J.book }
    requires origin { J.origin
        ≡ record { schema = schema; log = []; most_entries = most_entries } }
{
    let store = LockedStore::<J>::new(alloc, schema, most_entries, opened).expect(
        rt,
        "there is memory",
    );
    let mut receipts = Vec::new(alloc);
    let wanted = play_with(rt, alloc, &store, scene, &mut receipts);
    assert!(rt; closed_in_two(rt, alloc, store, receipts) == Some(wanted));
}

/// Plays a scene round a new store of the sample tables. The store must not close with all receipts of the scene but the
/// last one, and then close with all, and show what it must.
pub(crate) fn play<R: Abort + Threads + Wait + Sync>(rt: &R, alloc: Global, scene: Scene<'_>) {
    let schema = Schema::sample(alloc).expect(rt, "there is memory");
    let most_entries = match scene {
        Scene::Full => 1,
        _ => 1_000_000,
    };
    play_round::<Brand, _>(rt, alloc, schema, most_entries, NewLog::new(), scene);
}
