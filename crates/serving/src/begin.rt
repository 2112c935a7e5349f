//! BEGIN.
ghost use Rattle.std.specs.Prelude.{◌≡◌, ℕ, Bool};
ghost use Rattle.steps.specs.declared.step.Step.TheVariants.{Begin};
ghost use Rattle.serving.specs.Serving.{IsStepped};

use crate::answer::{Answer, Sent};
use growlog::StoreName;
use sessions::{LockedStore, Session};
use std::sync::Wait;
use steps::Reply;
use values::Refusal;

/// Begins the session's transaction, unless one is open.
pub(crate) fn take_begin<J: StoreName, R: Wait>(
    rt: &R,
    store: &LockedStore<J>,
    session: &mut Session,
) -> Answer<J>
    requires { session.old.schema ≡ J.origin.schema }
    ensures { (may_give : ℕ → Bool)
        → IsStepped may_give (Begin session.old.number) session.old session.new result }
{
    if session.start().is_some() {
        return Answer::reply(Reply::Refused(Refusal::InTransaction));
    }
    match store.begin_lent(rt, session) {
        Ok(receipt) => {
            let instant = session.start().unwrap_or(0);
            Answer::with_receipt(receipt, Sent::Reply(Reply::Begun(instant)))
        }
        Err(refusal) => Answer::refusal(refusal),
    }
}
