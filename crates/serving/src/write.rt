//! INSERT, UPDATE and DELETE.
ghost use Rattle.std.specs.Prelude.{◌≡◌, ℕ, Bool, None};
ghost use Rattle.steps.specs.StepOf.{step_of};
ghost use Rattle.serving.specs.Serving.{IsStepped, sent_refusal};

use crate::answer::Answer;
use growlog::StoreName;
use sessions::{Session, StoreRefusal};
use steps::Reply;
use values::{Refusal, Write};

/// Inserts, updates or deletes rows in the session's transaction.
pub(crate) fn take_write<J: StoreName>(session: &mut Session, write: Write<'_>) -> Answer<J>
    ensures { (may_give : ℕ → Bool) → IsStepped may_give
        (step_of session.old.number write.entry) session.old session.new result }
{
    match session.write(write) {
        Ok(count) => Answer::reply(Reply::of_write(write, count)),
        Err(refusal) => refused_write(refusal),
    }
}

/// Makes the answer to a refused write: a reply, unless memory ran out.
pub(crate) fn refused_write<J: StoreName>(refusal: Refusal) -> Answer<J>
    ensures { result ≡ record { given = None; install = None; sent = sent_refusal refusal } }
{
    match refusal {
        Refusal::Memory => Answer::refusal(StoreRefusal::Session(Refusal::Memory)),
        other => Answer::reply(Reply::Refused(other)),
    }
}
