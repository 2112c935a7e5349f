//! The runtime's clock as readings for commits.
ghost use Rattle.std.specs.Prelude.{◌≡◌, ◌/◌, min};
ghost use Rattle.std.specs.Duration.{as_nanos};
ghost use Rattle.values.specs.Commits.{max_instant};

use serving::Readings;
use std::time::{Clock, Duration};
use values::{Instant, MAX_INSTANT};

/// The runtime's clock in microseconds since 1970, at most the greatest instant. Before 1970, and
/// where the clock cannot be read, it is 0.
#[derive(Drop)]
pub struct Microseconds<'a, R: Clock> {
    pub rt: &'a R,
}

impl<R: Clock> Readings for Microseconds<'_, R> {
    ghost use Rattle.runs.specs.Run.{is_reading};

    ghost may_give = { is_reading };

    fn reading(&mut self) -> Instant {
        match self.rt.since_1970() {
            Ok(since) => whole_microseconds(since),
            Err(_) => 0,
        }
    }
}

/// Returns a time since 1970 in whole microseconds, or the greatest instant where that is less.
fn whole_microseconds(since: Duration) -> Instant
    ensures { result ≡ min (as_nanos since / 1_000) max_instant }
{
    u64::try_from(since.as_micros())
        .unwrap_or(MAX_INSTANT)
        .min(MAX_INSTANT)
}
