//! Instants that rise, whatever the clock reads.

use commitclock::Clock;
use values::{Instant, MAX_INSTANT, Refusal};

/// Readings of the clock, and the instants of commits at them.
const READINGS: &[(Instant, Instant)] = &[
    (0, 1),
    (100, 100),
    (50, 101),
    (101, 102),
    (MAX_INSTANT, MAX_INSTANT),
];

/// Whether no instant is left at a reading.
fn is_at_its_end(clock: &Clock, reading: Instant) -> bool {
    matches!(clock.next(reading), Err(Refusal::ClockEnd))
}

#[test]
fn a_commit_takes_the_reading_or_the_instant_after_the_last(rt: HostRuntime) {
    let mut clock = Clock::new();
    assert!(rt; clock.last() == 0);
    for (reading, instant) in READINGS {
        let next = clock.next(*reading).expect(&rt, "an instant is left");
        clock.advance(next);
        assert!(rt; next == *instant && clock.last() == next, "at {reading}");
    }
    for reading in &[0, MAX_INSTANT, u64::MAX] {
        assert!(rt; is_at_its_end(&clock, *reading), "at {reading}");
    }
    assert!(rt; is_at_its_end(&Clock::new(), MAX_INSTANT + 1));
}
