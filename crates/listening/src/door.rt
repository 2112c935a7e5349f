//! How it is told whether a connection counts.
ghost use Rattle.std.specs.Prelude.{◌≡◌};

use crossbeam_channel::Sender;
use std::alloc::Global;
use std::cell::Cell;
use std::sync::Wait;

/// The way in of a connection. Where a line of it is awaited, it counts once a byte is there; word
/// is sent of each connection once: that it counts, or when it has ended that it does not.
#[derive(Drop)]
pub(crate) struct Door {
    pub(crate) awaits_line: bool,
    has_entered: Cell<bool>,
    words: Sender<bool, Global>,
}

impl Door {
    /// Makes a way in through which nobody has come.
    pub(crate) fn new(awaits_line: bool, words: Sender<bool, Global>) -> Door
        ensures { result.awaits_line ≡ awaits_line }
    {
        Door {
            awaits_line,
            has_entered: Cell::new(false),
            words,
        }
    }

    /// Tells that the connection counts.
    pub(crate) fn enter<R: Wait>(&self, rt: &R) {
        if self.awaits_line && !self.has_entered.replace(true) {
            let _ = self.words.send(rt, true);
        }
    }

    /// Tells that the connection has ended: it does not count where none has entered.
    pub(crate) fn leave<R: Wait>(&self, rt: &R) {
        if self.awaits_line && !self.has_entered.replace(true) {
            let _ = self.words.send(rt, false);
        }
    }
}
