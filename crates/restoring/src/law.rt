//! How transactions are made again.
ghost use Rattle.restoring.specs.FromChanges.{LogIsOfChanges};
ghost use Rattle.restoring.specs.OfHistories.{HistoriesAreOfChanges, LogsAreOver, LogsHaveNets};
ghost use Rattle.restoring.specs.OneKey.{OneKeyIsDeleted, OneRowIsInserted};
ghost use Rattle.restoring.specs.Room.{FewNetsHaveRoom};
ghost use Rattle.restoring.specs.Rebuilt.{NetIsRebuilt, TransactionIsAdded};

/// States that who deletes the keys of a transaction's net changes, and then inserts their rows, has
/// these net changes again; and that where they are committed at the transaction's own instant, with
/// nothing between, the log has this transaction more.
pub fn transactions_are_rebuilt()
    ensures net { NetIsRebuilt }
    ensures added { TransactionIsAdded }
{}

/// States that a log is read off its changes: a transaction for each instant at which something
/// changed, with what changed then.
pub fn logs_are_of_changes()
    ensures { LogIsOfChanges }
{}

/// States what a DELETE that takes one key, and an INSERT of one row, leave of a transaction.
pub fn one_key_is_written()
    ensures deleted { OneKeyIsDeleted }
    ensures inserted { OneRowIsInserted }
{}

/// States that the log of every history is read off its changes: its net changes are in order, none
/// is empty, none has more keys than a transaction may write, and what each removed was there. So a
/// transaction that is made again from one has room for each of its keys.
pub fn histories_are_of_changes()
    ensures nets { LogsHaveNets }
    ensures changes { HistoriesAreOfChanges }
    ensures over { LogsAreOver }
    ensures room { FewNetsHaveRoom }
{}
