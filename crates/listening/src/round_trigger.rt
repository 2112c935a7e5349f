//! What calls for rounds of the migrator: the commits of sessions.

use crossbeam_channel::Sender;
use std::alloc::Global;
use std::sync::Wait;
use std::sync::atomic::{AtomicU64, Ordering};

/// The commits after which a round is called for.
const COMMITS: u64 = 16;

/// A call for a round.
#[derive(Clone, Copy)]
pub(crate) struct Call;

/// Calls for a round after each 16th commit of those that are counted together: of a connection, or of
/// all.
#[derive(Drop)]
pub(crate) struct RoundTrigger<'a> {
    calls: Sender<Call, Global>,
    commits: &'a AtomicU64,
}

impl<'a> RoundTrigger<'a> {
    /// Makes a session's trigger, which counts its commits there, and sends its calls.
    pub(crate) fn new(calls: Sender<Call, Global>, commits: &'a AtomicU64) -> RoundTrigger<'a> {
        RoundTrigger { calls, commits }
    }

    /// Counts a commit. If a call is out of memory there is no round, which no reply shows.
    pub(crate) fn count_commit<R: Wait>(&self, rt: &R) {
        let earlier = self.commits.fetch_add(1, Ordering::SeqCst);
        if earlier % COMMITS == COMMITS - 1 {
            let _ = self.calls.send(rt, Call);
        }
    }
}
