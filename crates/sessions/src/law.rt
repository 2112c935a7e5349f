//! What the definitions of a session and of a store amount to.
ghost use Rattle.sessions.specs.OfHistory.{GetsAnswerAlike, GetsAsListed, QueriesAnswerAlike, RollbacksAnswerAlike, WritesAnswerAlike, WritesLeaveAlike};
ghost use Rattle.sessions.specs.StoreOfHistory.{BeginsAnswerAlike, CommitsAnswerAlike, InstallsAnswerAlike, OthersLeaveAlike, OwnStepsStayBeside, RefusedAlike, SplitsAnswerAlike};

/// States that a session whose view is a history's snapshot, and whose own writes are those of the
/// history's transaction, answers what the history's replies are; after a write or a rollback this
/// holds of the history with that step.
pub fn sessions_answer_as_histories()
    ensures writes { WritesAnswerAlike }
    ensures queries { QueriesAnswerAlike }
    ensures after { WritesLeaveAlike }
    ensures gets { GetsAnswerAlike }
    ensures listed { GetsAsListed }
    ensures rollbacks { RollbacksAnswerAlike }
{}

/// States that a store whose journal has a history's log answers each call as the history answers
/// that step, by the entry that it adds, and then has the log of the history with that step; what
/// the other sessions have open stays. What a session does without the store keeps that so.
pub fn stores_answer_as_histories()
    ensures begins { BeginsAnswerAlike }
    ensures commits { CommitsAnswerAlike }
    ensures splits { SplitsAnswerAlike }
    ensures installs { InstallsAnswerAlike }
    ensures refused { RefusedAlike }
    ensures others { OthersLeaveAlike }
    ensures own { OwnStepsStayBeside }
{}
