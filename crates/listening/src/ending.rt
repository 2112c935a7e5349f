//! The end of a server that is stopped.

use crate::control::Control;
use crate::service::Service;
use crate::watch::Watch;
use growlog::StoreName;
use sessions::Gate;
use std::io::{ErrorKind, Read, Write};
use std::net::{Net, TcpListener, TcpStream};
use std::sync::Wait;
use std::time::{Clock, Duration};
use std::{io, thread};

/// The milliseconds after which a reader that had nothing is read again.
const PAUSE: u64 = 10;

/// Reads a reader until it ends or fails, or the server has been stopped otherwise, which is looked at
/// while there is nothing to be read. The log is written meanwhile.
pub(crate) fn await_end<J, R, I, L, G>(
    reader: &mut I,
    service: &Service<'_, J, R, G>,
    watch: &mut Watch,
    log: &mut L,
)
where
    J: StoreName,
    R: Net<Listener = TcpListener, Stream = TcpStream> + Clock + Wait,
    I: Control + Read,
    L: Write,
    G: Gate,
{
    let mut bytes = [0u8; 64];
    for _turn in service.rt.forever() {
        if service.has_stopped() {
            return;
        }
        watch.look(service, log);
        if !reader.is_ready(service.rt, service.alloc) {
            continue;
        }
        let read = reader.read(&mut bytes);
        if has_ended(&read) {
            return;
        }
        if read.is_err() {
            thread::sleep(service.rt, Duration::from_millis(PAUSE));
        }
    }
}

/// Tells whether a reader has ended or failed. One that was interrupted, or has nothing yet, has not.
fn has_ended(read: &io::Result<usize>) -> bool {
    match read {
        Ok(n) => *n == 0,
        Err(error) => !matches!(
            error.kind(),
            ErrorKind::Interrupted | ErrorKind::WouldBlock | ErrorKind::TimedOut
        ),
    }
}
