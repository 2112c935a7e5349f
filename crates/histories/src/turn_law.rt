//! What turns amount to.

ghost use Rattle.histories.specs.TurnLaw.{TurnsGiveTheReplies, MemoryIsTakenAlike};

/// States that where a system stands for a history, a turn on it answers what the definitions do,
/// and it then stands for the history with the step.
pub fn turns_give_the_replies()
    ensures { TurnsGiveTheReplies }
{}

/// States that where a system stands for a history, the steps that take no memory are the same by
/// both.
pub fn memory_is_taken_alike()
    ensures { MemoryIsTakenAlike }
{}
