//! Who watches a run, and writes its log.

use crate::log::log_line;
use crate::marks::Marks;
use crate::notice::Notice;
use crate::refusals::Cause;
use crate::service::Service;
use growlog::StoreName;
use std::io::Write;
use std::sync::Wait;
use std::thread;
use std::time::{Clock, Duration};

/// The milliseconds after which a run is looked at again.
const MOMENT: u64 = 20;

/// What a log has of a run so far, where there is a log.
#[derive(Clone, Copy, Debug)]
pub(crate) struct Watch {
    is_logged: bool,
    marks: Marks,
    memory: u64,
    thread: u64,
    descriptor: u64,
    foreign: u64,
}

impl Watch {
    /// Begins the log of a server that listens at a port with a line for that, where there is to be a log.
    pub(crate) fn start<L: Write>(
        is_logged: bool,
        port: u16,
        most_entries: usize,
        log: &mut L,
    ) -> Watch {
        if is_logged {
            log_line(log, Notice::Listening(port));
        }
        Watch {
            is_logged,
            marks: Marks::new(most_entries),
            memory: 0,
            thread: 0,
            descriptor: 0,
            foreign: 0,
        }
    }

    /// Writes a line for each connection that was refused since the last look, and for each mark that the
    /// journal has passed.
    pub(crate) fn look<J: StoreName, R: Wait, G, L: Write>(
        &mut self,
        service: &Service<'_, J, R, G>,
        log: &mut L,
    ) {
        if !self.is_logged {
            return;
        }
        self.memory = log_refused(service, Cause::Memory, self.memory, log);
        self.thread = log_refused(service, Cause::Thread, self.thread, log);
        self.descriptor = log_refused(service, Cause::Descriptor, self.descriptor, log);
        self.foreign = log_refused(service, Cause::Foreign, self.foreign, log);
        let entries = service.store.entries(service.rt);
        self.log_marks(entries, service.store.most_entries(), log);
    }

    /// Writes the log until all sessions have ended, and a line for that.
    pub(crate) fn look_on<J: StoreName, R: Clock + Wait, G, L: Write>(
        &mut self,
        service: &Service<'_, J, R, G>,
        log: &mut L,
    ) {
        if !self.is_logged {
            return;
        }
        for _turn in service.rt.forever() {
            let has_ended = service.has_ended();
            self.look(service, log);
            if has_ended {
                break;
            }
            thread::sleep(service.rt, Duration::from_millis(MOMENT));
        }
        log_line(log, Notice::Ended(service.store.entries(service.rt)));
    }

    /// Writes a line for each mark that a journal with so many entries has passed.
    fn log_marks<L: Write>(&mut self, entries: usize, most: usize, log: &mut L) {
        for _mark in 0..entries {
            let Some(count) = self.marks.pass(entries) else {
                return;
            };
            log_line(log, Notice::Entries { count, most });
        }
    }
}

/// Writes a line for each connection that was refused for a cause behind the first so many, and returns
/// how many there are.
fn log_refused<J: StoreName, R, G, L: Write>(
    service: &Service<'_, J, R, G>,
    cause: Cause,
    logged: u64,
    log: &mut L,
) -> u64 {
    let count = service.refusals.counted(cause);
    for _refused in logged..count {
        log_line(log, Notice::Refused(cause));
    }
    count
}
