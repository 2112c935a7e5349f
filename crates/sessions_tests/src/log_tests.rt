//! Prefixes of one log.
ghost use Rattle.std.specs.Prelude.{◌≡◌};

use growlog::{NewLog, StoreName};
use std::marker::Brand;

/// How long two prefixes are: one to which three entries were added, and one that was taken after the first and to
/// which none can be added any more.
fn lengths<J: StoreName>(opened: NewLog<u8>) -> (u64, u64)
    requires { opened.seen.book ≡ J.book }
{
    let (log, mut whole) = opened.for_store::<J>();
    let mut added = whole.add(&log, &1);
    let mut early = whole.again();
    for entry in 2..4u8 {
        if whole.len() < 10 {
            added = whole.add(&log, &entry) && added;
        }
    }
    early.agrees(&whole);
    let late = early.len() < 10 && early.add(&log, &4);
    if added && !late {
        (whole.len(), early.len())
    } else {
        (0, 0)
    }
}

#[test]
fn entries_are_added_to_the_whole_log_alone(rt: HostRuntime) {
    assert_eq!(rt; lengths::<Brand>(NewLog::new()), (3, 1));
}
