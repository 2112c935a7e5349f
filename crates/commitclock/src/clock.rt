//! The instants of commits.
ghost use Rattle.std.specs.Prelude.{◌≡◌, ◌<◌, ◌≤◌, IfOk};
ghost use Rattle.commitclock.specs.NextInstant.{next_instant};

use std::marker::Model;
use values::{Instant, MAX_INSTANT, Refusal};

/// The last commit instant, which contracts see as a number: 0 before the first commit, and never
/// above `MAX_INSTANT`.
#[derive(Debug, Drop)]
pub struct Clock {
    last: Instant,
}

impl Model for Clock {
    ghost use Rattle.std.specs.Prelude.{ℕ, ◌≤◌};
    ghost use Rattle.values.specs.Commits.{max_instant};

    ghost Value = { ℕ };

    ghost view = { λ c. c.last };

    ghost invariant = { λ c. c.last ≤ max_instant };
}

impl Clock {
    ghost use Rattle.values.specs.Commits.{max_instant};

    /// Makes the clock as it is before the first commit: its last instant is 0.
    pub fn new() -> Clock
        ensures { result ≡ 0 }
    {
        Clock { last: 0 }
    }

    /// Returns the instant of the last commit, 0 where there is none.
    pub fn last(&self) -> Instant
        ensures last { result ≡ self.now }
        ensures in_range { result ≤ max_instant }
    {
        self.last
    }

    /// Returns the instant of a commit at a reading of the clock: the reading, or where that has
    /// passed the instant after the last one. `ClockEnd` where that is above `MAX_INSTANT`. The
    /// clock stays as it is until it is moved.
    pub fn next(&self, reading: Instant) -> Result<Instant, Refusal>
        ensures next { result ≡ next_instant self.now reading }
        ensures rises { IfOk result (λ instant. self.now < instant) }
        ensures in_range { IfOk result (λ instant. instant ≤ max_instant) }
    {
        let instant = reading.max(self.last + 1);
        if instant > MAX_INSTANT {
            return Err(Refusal::ClockEnd);
        }
        Ok(instant)
    }

    /// Moves the clock to a commit's instant.
    pub fn advance(&mut self, instant: Instant)
        requires later { self.old < instant }
        requires in_range { instant ≤ max_instant }
        ensures { self.new ≡ instant }
    {
        self.last = instant;
    }
}
