//! A step of a session.
ghost use Rattle.std.specs.Prelude.{◌≡◌, is_some};
ghost use Rattle.serving.specs.Account.{HasRoomFor};
ghost use Rattle.serving.specs.Progress.{asks_store};
ghost use Rattle.serving.specs.Serving.{IsStepped};

use crate::account::Account;
use crate::answer::Answer;
use crate::begin::take_begin;
use crate::commit::{take_commit, take_rollback};
use crate::migrate::take_migrate;
use crate::read::take_query;
use crate::service::Service;
use crate::split::{take_key_split, take_time_split};
use crate::write::take_write;
use growlog::StoreName;
use sessions::{Gate, LockedStore, Readings, Receipt, Session, StoreRefusal};
use std::alloc::Global;
use std::sync::Wait;
use steps::{Reply, Step, key_misfit};
use values::{Refusal, Write};

/// Takes a step. Where it asks the store, room for its receipts is made first, and where memory
/// runs out for that the step is refused as if it had not been asked.
pub(crate) fn answer_step<J: StoreName, R: Wait, C: Readings, G: Gate>(
    service: &Service<'_, J, R, G>,
    readings: &mut C,
    session: &mut Session,
    account: &mut Account<J>,
    step: &Step,
) -> Answer<J>
    requires { session.old.schema ≡ J.origin.schema }
    ensures stepped { IsStepped C.may_give step.now session.old session.new result }
    ensures given { account.new.given ≡ account.old.given }
    ensures refused { account.new.refused ≡ account.old.refused }
    ensures room { HasRoomFor result account.new }
{
    if asks_store(session, step) && account.reserve().is_err() {
        return Answer::refusal(StoreRefusal::Session(Refusal::Memory));
    }
    take_step(
        service.rt,
        service.alloc,
        service.store,
        session,
        account.last(),
        readings,
        step,
    )
}

/// Tells whether a step asks the store for an entry.
fn asks_store(session: &Session, step: &Step) -> bool
    ensures { result ≡ asks_store session.now.schema session.now.number step.now
        (is_some session.now.transaction) }
{
    match step {
        Step::Begin(_) => session.start().is_none(),
        Step::Insert(_, _, _) => false,
        Step::Update(_, _, _) => false,
        Step::Delete(_, _) => false,
        Step::UpdatePortion(_, _, _, _) => false,
        Step::DeletePortion(_, _, _) => false,
        Step::Select(_, _, _) => session.start().is_none(),
        Step::Commit(_, _) => session.start().is_some(),
        Step::Rollback(_) => false,
        Step::AddColumn(_, _, _, _) => false,
        Step::SplitKey(key) => key_misfit(session.schema(), key).is_none(),
        Step::SplitTime(key, _) => key_misfit(session.schema(), key).is_none(),
        Step::Migrate => true,
    }
}

/// Takes a step, which is the session's whatever number it has. A served store keeps its tables: no
/// line of a session asks for a column, and the step is refused as other transactions may be open.
fn take_step<J: StoreName, R: Wait, C: Readings>(
    rt: &R,
    alloc: Global,
    store: &LockedStore<J>,
    session: &mut Session,
    last: Option<&Receipt<J>>,
    readings: &mut C,
    step: &Step,
) -> Answer<J>
    requires { session.old.schema ≡ J.origin.schema }
    ensures { IsStepped C.may_give step.now session.old session.new result }
{
    match step {
        Step::Begin(_) => take_begin(rt, store, session),
        Step::Insert(_, table, rows) => take_write(session, Write::Insert(*table, rows.items())),
        Step::Update(_, keys, sets) => take_write(session, Write::Update(keys, sets.items())),
        Step::Delete(_, keys) => take_write(session, Write::Delete(keys)),
        Step::UpdatePortion(_, keys, span, sets) => {
            take_write(session, Write::UpdatePortion(keys, *span, sets.items()))
        }
        Step::DeletePortion(_, keys, span) => {
            take_write(session, Write::DeletePortion(keys, *span))
        }
        Step::Select(_, form, keys) => take_query(rt, store, session, *form, keys),
        Step::Commit(_, _) => take_commit(rt, store, session, last, readings),
        Step::Rollback(_) => take_rollback(session),
        Step::AddColumn(_, _, _, _) => { Answer::reply(Reply::Refused(Refusal::TransactionsOpen)) }
        Step::SplitKey(key) => take_key_split(rt, alloc, store, session, key),
        Step::SplitTime(key, instant) => take_time_split(rt, alloc, store, session, key, *instant),
        Step::Migrate => take_migrate(rt, alloc, store, session),
    }
}
