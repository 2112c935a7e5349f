//! The calls of a store, with the causes that its refusals are.
ghost use Rattle.std.specs.Prelude.{◌≡◌, ◌≢◌, Err, IfErr, IfOk, None, OnErr};
ghost use Rattle.migrator.specs.Fault.{IsCauseOf, IsNoRoom};
ghost use Rattle.sessions.specs.Store.{IsBegun, IsInstallOf};

use crate::fault::Cause;
use growlog::StoreName;
use sessions::{LockedStore, PackedNode, Receipt, Session};
use std::sync::Wait;
use values::Refusal;

/// That a store answered that its journal is full. Only the calls of a store in this module make
/// one, of such an answer.
#[derive(Clone, Copy, Debug, PartialEq, Eq)]
pub struct Filled(());

/// Begins a session's transaction, like the store. `Worker` where the session is of other tables.
/// After a refusal nothing has changed.
pub(crate) fn begin_at<J: StoreName, R: Wait>(
    rt: &R,
    store: &LockedStore<J>,
    session: &mut Session,
) -> Result<Receipt<J>, Cause>
    requires { session.old.transaction ≡ None }
    ensures begun { IfOk result (λ r. IsBegun session.old session.new r.number r.entry) }
    ensures other { session.old.schema ≢ J.origin.schema → result ≡ Err Cause.Worker }
    ensures own { session.old.schema ≡ J.origin.schema → IfErr result IsNoRoom }
    ensures refused { OnErr result (session.new ≡ session.old) }
{
    match store.begin(rt, session) {
        Ok(receipt) => Ok(receipt),
        Err(refusal) => Err(cause_of(&Refusal::from(refusal))),
    }
}

/// Installs a packed node, like the store.
pub(crate) fn install_at<J: StoreName, R: Wait>(
    rt: &R,
    store: &LockedStore<J>,
    packed: PackedNode,
) -> Result<Receipt<J>, Cause>
    ensures install { IfOk result (λ r. IsInstallOf packed r.entry) }
    ensures why { IfErr result IsNoRoom }
{
    match store.install(rt, packed) {
        Ok(receipt) => Ok(receipt),
        Err(refusal) => Err(cause_of(&Refusal::from(refusal))),
    }
}

/// Returns the cause that a store's refusal is.
fn cause_of(refusal: &Refusal) -> Cause
    ensures { IsCauseOf refusal.now result }
{
    match refusal {
        Refusal::Memory => Cause::Memory,
        Refusal::JournalFull => Cause::Full(Filled(())),
        _ => Cause::Worker,
    }
}
