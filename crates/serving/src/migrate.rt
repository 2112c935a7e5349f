//! MIGRATE.
ghost use Rattle.std.specs.Prelude.{◌≡◌, ℕ, Bool, IfErr, IfOk};
ghost use Rattle.steps.specs.declared.step.Step.TheVariants.{Migrate};
ghost use Rattle.serving.specs.Serving.{HasServiceBegun, IsByBook, IsMigrated, IsPackedOf, IsRefusedForRoom, IsStepped, given_of, reply_of};

use crate::answer::{Answer, Sent};
use growlog::StoreName;
use sessions::{Entry, LockedStore, Receipt, Session, StoreRefusal, find_job, pack_job};
use std::alloc::Global;
use std::sync::Wait;
use steps::Reply;

/// Packs the first data node of history that a begin of the service's own session shows unpacked,
/// if there is one. The session that asks is not changed.
pub(crate) fn take_migrate<J: StoreName, R: Wait>(
    rt: &R,
    alloc: Global,
    store: &LockedStore<J>,
    session: &mut Session,
) -> Answer<J>
    requires { session.old.schema ≡ J.origin.schema }
    ensures { (may_give : ℕ → Bool) → IsStepped may_give Migrate session.old session.new result }
{
    migrate(rt, alloc, store)
}

/// Begins for the service, and packs what its begin shows.
fn migrate<J: StoreName, R: Wait>(rt: &R, alloc: Global, store: &LockedStore<J>) -> Answer<J>
    ensures migrated { IsMigrated J.origin.schema (given_of result) (reply_of result) }
    ensures by_book { IsByBook result.sent }
{
    let receipt = match begin_service(rt, alloc, store) {
        Ok(receipt) => receipt,
        Err(refusal) => return Answer::refusal(refusal),
    };
    match pack_first(rt, alloc, store, &receipt) {
        Ok(install) => Answer {
            receipt: Some(receipt),
            install,
            sent: Sent::Reply(Reply::Done),
        },
        Err(refusal) => Answer::with_receipt(receipt, Sent::Refused(refusal)),
    }
}

/// Returns the receipt of a begin of the service's own session; the view is in its entry.
fn begin_service<J: StoreName, R: Wait>(
    rt: &R,
    alloc: Global,
    store: &LockedStore<J>,
) -> Result<Receipt<J>, StoreRefusal>
    ensures ok { IfOk result (λ r.
        HasServiceBegun J.origin.schema (record { number = r.number; entry = r.entry })) }
    ensures err { IfErr result IsRefusedForRoom }
{
    let mut service = store.session(alloc, 0)?;
    store.begin_lent(rt, &mut service)
}

/// Packs the first data node of history that the begin of a receipt shows unpacked, if there is
/// one, and installs it.
fn pack_first<J: StoreName, R: Wait>(
    rt: &R,
    alloc: Global,
    store: &LockedStore<J>,
    receipt: &Receipt<J>,
) -> Result<Option<Receipt<J>>, StoreRefusal>
    ensures { IsPackedOf (λ r. record { number = r.number; entry = r.entry })
        receipt.now.entry result }
{
    let Entry::Begin { view, .. } = receipt.entry.entry() else {
        return Ok(None);
    };
    match find_job(view, None)? {
        None => Ok(None),
        Some(job) => {
            let packed = pack_job(alloc, job)?;
            Ok(Some(store.install(rt, packed)?))
        }
    }
}
