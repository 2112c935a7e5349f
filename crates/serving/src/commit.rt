//! COMMIT and ROLLBACK.
ghost use Rattle.std.specs.Prelude.{◌≡◌, ℕ, Bool};
ghost use Rattle.steps.specs.declared.step.Step.TheVariants.{Commit, Rollback};
ghost use Rattle.serving.specs.Serving.{IsStepped};

use crate::answer::{Answer, Sent};
use growlog::StoreName;
use sessions::{LockedStore, Readings, Receipt, Session};
use std::sync::Wait;
use steps::Reply;
use values::Refusal;

/// Ends the session's transaction, if one is open, by the next reading of the clock. `last` is the
/// receipt that was taken last, which often is that of the begin.
pub(crate) fn take_commit<J: StoreName, R: Wait, C: Readings>(
    rt: &R,
    store: &LockedStore<J>,
    session: &mut Session,
    last: Option<&Receipt<J>>,
    readings: &mut C,
) -> Answer<J>
    requires { session.old.schema ≡ J.origin.schema }
    ensures { IsStepped C.may_give (Commit session.old.number 0)
        session.old session.new result }
{
    if session.start().is_none() {
        return Answer::reply(Reply::Refused(Refusal::NoTransaction));
    }
    match store.commit_lent(rt, session, last, readings) {
        Ok(receipt) => Answer::with_receipt(receipt, Sent::Ending),
        Err(refusal) => Answer::refusal(refusal),
    }
}

/// Ends the session's transaction with no trace, if one is open.
pub(crate) fn take_rollback<J: StoreName>(session: &mut Session) -> Answer<J>
    ensures { (may_give : ℕ → Bool)
        → IsStepped may_give (Rollback session.old.number) session.old session.new result }
{
    match session.rollback() {
        Ok(()) => Answer::reply(Reply::RolledBack),
        Err(refusal) => Answer::reply(Reply::Refused(refusal)),
    }
}
