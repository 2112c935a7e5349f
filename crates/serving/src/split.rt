//! SPLIT.
ghost use Rattle.std.specs.Prelude.{◌≡◌, ℕ, Bool, None};
ghost use Rattle.steps.specs.declared.step.Step.TheVariants.{SplitKey, SplitTime};
ghost use Rattle.serving.specs.Serving.{IsByBook, IsCutBy, IsStepped, reply_of};

use crate::answer::{Answer, Sent};
use growlog::StoreName;
use sessions::{Cut, LockedStore, Session, StoreRefusal};
use std::alloc::Global;
use std::sync::Wait;
use steps::{Reply, key_misfit};
use values::{Instant, Key, fitting_key_bytes};

/// Splits the current data node of a key there.
pub(crate) fn take_key_split<J: StoreName, R: Wait>(
    rt: &R,
    alloc: Global,
    store: &LockedStore<J>,
    session: &mut Session,
    key: &Key,
) -> Answer<J>
    ensures { (may_give : ℕ → Bool)
        → IsStepped may_give (SplitKey key.now) session.old session.new result }
{
    if let Some(refusal) = key_misfit(session.schema(), key) {
        return Answer::reply(Reply::Refused(refusal));
    }
    match fitting_key_bytes(alloc, session.schema(), key) {
        Ok(bytes) => split(rt, store, Cut::Key(bytes)),
        Err(refusal) => Answer::refusal(StoreRefusal::from(refusal)),
    }
}

/// Splits the current data node of a key at an instant.
pub(crate) fn take_time_split<J: StoreName, R: Wait>(
    rt: &R,
    alloc: Global,
    store: &LockedStore<J>,
    session: &mut Session,
    key: &Key,
    instant: Instant,
) -> Answer<J>
    ensures { (may_give : ℕ → Bool)
        → IsStepped may_give (SplitTime key.now instant) session.old session.new result }
{
    if let Some(refusal) = key_misfit(session.schema(), key) {
        return Answer::reply(Reply::Refused(refusal));
    }
    match fitting_key_bytes(alloc, session.schema(), key) {
        Ok(bytes) => split(rt, store, Cut::Time(bytes, instant)),
        Err(refusal) => Answer::refusal(StoreRefusal::from(refusal)),
    }
}

fn split<J: StoreName, R: Wait>(rt: &R, store: &LockedStore<J>, cut: Cut) -> Answer<J>
    ensures given { IsCutBy cut result.given (reply_of result) }
    ensures alone { result.install ≡ None }
    ensures by_book { IsByBook result.sent }
{
    match store.split(rt, cut) {
        Ok(receipt) => Answer::with_receipt(receipt, Sent::Reply(Reply::Done)),
        Err(refusal) => Answer::refusal(refusal),
    }
}
