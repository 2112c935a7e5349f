//! How long a client may be idle.

use std::io;
use std::io::{ErrorKind, Read};
use std::net::TcpStream;
use std::sync::Wait;
use std::sync::atomic::{AtomicBool, Ordering};

/// How often a client is read that goes on sending when the server was stopped.
const LATE_READS: u16 = 1_000;

/// A client's bytes as they come. Where its stream has a time after which a read gives up, a client that
/// has sent nothing for so long is at its end if others wait, and goes on if none does. When the server
/// was stopped, what had come by then is read, and a little more.
#[derive(Drop)]
pub(crate) struct Patience<'a, R> {
    rt: &'a R,
    stream: &'a TcpStream,
    is_crowded: &'a AtomicBool,
    has_stopped: &'a AtomicBool,
    late_reads: u16,
}

impl<'a, R> Patience<'a, R> {
    /// Reads a client's stream, by whether others wait and whether the server was stopped.
    pub(crate) fn new(
        rt: &'a R,
        stream: &'a TcpStream,
        is_crowded: &'a AtomicBool,
        has_stopped: &'a AtomicBool,
    ) -> Patience<'a, R> {
        Patience {
            rt,
            stream,
            is_crowded,
            has_stopped,
            late_reads: 0,
        }
    }

    /// Tells whether the server was stopped, and the client has been read often enough since.
    fn is_late(&mut self) -> bool {
        if !self.has_stopped.load(Ordering::SeqCst) {
            return false;
        }
        self.late_reads = self.late_reads.saturating_add(1);
        self.late_reads > LATE_READS
    }
}

/// Tells whether a read gave up.
fn has_given_up(error: &io::Error) -> bool {
    matches!(error.kind(), ErrorKind::WouldBlock | ErrorKind::TimedOut)
}

impl<R: Wait> Read for Patience<'_, R> {
    fn read(&mut self, buf: &mut [u8]) -> io::Result<usize> {
        if self.is_late() {
            return Ok(0);
        }
        let mut stream = self.stream;
        for _turn in self.rt.forever() {
            match stream.read(buf) {
                Err(error) if has_given_up(&error) => {
                    if self.is_crowded.load(Ordering::SeqCst) {
                        return Ok(0);
                    }
                }
                read => return read,
            }
        }
        Ok(0)
    }
}
