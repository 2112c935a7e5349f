//! Rounds of the migrator beside the sessions.
ghost use Rattle.std.specs.Prelude.{◌≡◌, None, map};
ghost use Rattle.std.specs.List.{AllByRecursion};
ghost use Rattle.serving.specs.Progress.{Given};
ghost use Rattle.runs.specs.Run.{IsOfService};

use crate::pile::{Origin, Pile, hand_over};
use crate::round_trigger::Call;
use crossbeam_channel::Receiver;
use growlog::StoreName;
use migrator::{MigrateFault, run_migrator};
use sessions::{Gate, LockedStore, Receipt, Session};
use std::alloc::Global;
use std::sync::{Mutex, Wait};
use std::thread::Threads;

/// The workers of a round.
const WORKERS: u8 = 2;

/// Runs a round for each call, until there can be no more, and hands over the receipts of each.
/// Where there is no memory for a session there are no rounds.
pub(crate) fn run_rounds<J, R, G>(
    rt: &R,
    alloc: Global,
    store: &LockedStore<J>,
    gate: &G,
    calls: Receiver<Call, Global>,
    pile: &Mutex<Pile<J>>,
)
where
    J: StoreName,
    R: Threads + Wait + Sync,
    G: Gate + Sync,
{
    let Ok(mut service) = store.session(alloc, 0) else {
        return;
    };
    for _call in calls.iter(rt) {
        let receipts = run_round(rt, alloc, store, &mut service, gate);
        hand_over(rt, pile, Origin::Service, receipts);
    }
}

/// Runs one round of the service's session, and returns its receipts, also if it was broken off:
/// they are of a begin and of installs.
fn run_round<J, R, G>(
    rt: &R,
    alloc: Global,
    store: &LockedStore<J>,
    service: &mut Session,
    gate: &G,
) -> Vec<Receipt<J>>
where
    J: StoreName,
    R: Threads + Wait + Sync,
    G: Gate + Sync,
    requires number { service.old.number ≡ 0 }
    requires none { service.old.transaction ≡ None }
    ensures number { service.new.number ≡ 0 }
    ensures none { service.new.transaction ≡ None }
    ensures serviced { AllByRecursion (λ (g : Given). IsOfService g.entry)
        (map (λ r. record { number = r.number; entry = r.entry }) result.items) }
{
    match run_migrator(rt, alloc, store, service, WORKERS, gate) {
        Ok(receipts) => receipts,
        Err(MigrateFault { cause: _, receipts }) => receipts,
    }
}
