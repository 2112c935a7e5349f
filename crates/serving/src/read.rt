//! SELECT.
ghost use Rattle.std.specs.Prelude.{◌≡◌, ℕ, Bool, None};
ghost use Rattle.steps.specs.declared.step.Step.TheVariants.{Select};
ghost use Rattle.sessions.specs.SessionState.{with_transaction};
ghost use Rattle.serving.specs.Serving.{IsSentFor, IsStepped, sent_listing};

use crate::answer::{Answer, Sent};
use growlog::StoreName;
use sessions::{LockedStore, Session, StoreRefusal};
use std::sync::Wait;
use steps::{Listing, Reply};
use values::{Form, Keys, Refusal};

/// Answers a query; if no transaction is open, one begins for it and is rolled back.
pub(crate) fn take_query<J: StoreName, R: Wait>(
    rt: &R,
    store: &LockedStore<J>,
    session: &mut Session,
    form: Form,
    keys: &Keys,
) -> Answer<J>
    requires { session.old.schema ≡ J.origin.schema }
    ensures { (may_give : ℕ → Bool) → IsStepped may_give
        (Select session.old.number form keys.now) session.old session.new result }
{
    if session.start().is_some() {
        return Answer {
            receipt: None,
            install: None,
            sent: sent_listing(session.select(form, keys)),
        };
    }
    let receipt = match store.begin_lent(rt, session) {
        Ok(receipt) => receipt,
        Err(refusal) => return Answer::refusal(refusal),
    };
    let sent = read_and_roll_back(session, form, keys);
    Answer::with_receipt(receipt, sent)
}

/// Answers a query in the open transaction, which then ends with no trace.
fn read_and_roll_back(session: &mut Session, form: Form, keys: &Keys) -> Sent
    ensures sent { IsSentFor session.old form keys.now result }
    ensures left { session.new ≡ with_transaction session.old None }
{
    let sent = sent_listing(session.select(form, keys));
    match session.rollback() {
        Ok(()) => sent,
        Err(_) => sent,
    }
}

/// Returns what is sent for a query.
fn sent_listing(listing: Result<Listing, Refusal>) -> Sent
    ensures { result ≡ sent_listing listing }
{
    match listing {
        Ok(listing) => Sent::Reply(Reply::Shown(listing)),
        Err(Refusal::Memory) => Sent::Refused(StoreRefusal::Session(Refusal::Memory)),
        Err(other) => Sent::Reply(Reply::Refused(other)),
    }
}
