//! What a history of steps comes to, and what contracts see of a system that takes steps.
#![tactic(auto)]

mod law;
mod period_law;
mod turn_law;

pub use law::{
    answered_replies_are_due, commits_publish_what_was_seen, concurrent_commits_share_no_key,
    conflicts_name_the_least_unit, idle_histories_answer_alike, log_only_grows,
    maintenance_changes_no_other_reply, opens_at_its_begin, past_is_widened, past_stays,
    reads_depend_on_snapshot_and_own_writes, refused_writes_change_nothing, worked_examples_hold,
};
pub use period_law::{periods_never_overlap, portions_change_what_is_seen, worked_periods_hold};
pub use turn_law::{memory_is_taken_alike, turns_give_the_replies};
