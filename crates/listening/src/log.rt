//! The log of a run.

use crate::notice::Notice;
use arrayvec::ArrayString;
use std::fmt;
use std::fmt::Write as Format;
use std::io::Write;

/// The bytes of the longest line.
const LINE: usize = 96;

/// Writes a line for what is told of a run, at once. That it cannot be written is no reason to stop.
pub(crate) fn log_line<L: Write>(log: &mut L, notice: Notice) {
    let mut line = ArrayString::<LINE>::new();
    if print_line(&mut line, notice).is_ok() {
        let _ = log.write_all(line.as_str().as_bytes());
        let _ = log.flush();
    }
}

fn print_line(line: &mut ArrayString<LINE>, notice: Notice) -> fmt::Result {
    match notice {
        Notice::Listening(port) => writeln!(line, "log: listening on 127.0.0.1:{port}"),
        Notice::Entries { count, most } => {
            writeln!(line, "log: the journal has {count} of {most} entries")
        }
        Notice::Refused(cause) => writeln!(line, "log: connection refused: {}", cause.words()),
        Notice::Ended(count) => writeln!(line, "log: ended with {count} entries"),
    }
}
