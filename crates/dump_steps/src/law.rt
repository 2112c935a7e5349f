//! What the steps of a dump leave.
ghost use Rattle.dump_steps.specs.DumpLaw.{DumpsAnswerAlike, HistoriesAreDumped};
ghost use Rattle.dump_steps.specs.WorkedDumpSteps.{InsertionsFirstLoseARow, LateColumnsLoseARow, UnsetTextsAreLost, WorkedDumpLeavesItsLog, WorkedStepsAre};

/// States that the steps of a history's dump, over the same first tables, leave the same tables and
/// the same transactions, each at its own instant. No step is refused, and no transaction is open
/// then. After the dump of a history with no transaction open, whatever steps follow get the same
/// replies as after that history.
pub fn histories_are_dumped()
    ensures dumped { HistoriesAreDumped }
    ensures alike { DumpsAnswerAlike }
{
    restoring::histories_are_of_changes();
    histories::periods_never_overlap();
    histories::idle_histories_answer_alike();
}

/// Checks a worked dump, by computation.
pub fn worked_dump_holds()
    ensures steps { WorkedStepsAre }
    ensures leaves { WorkedDumpLeavesItsLog }
    ensures columns { LateColumnsLoseARow }
    ensures turned { InsertionsFirstLoseARow }
    ensures texts { UnsetTextsAreLost }
{}
