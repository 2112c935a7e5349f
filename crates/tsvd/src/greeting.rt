//! Standard input, and what is written for somebody who types at a terminal.
use listening::Control;
use mio::unix::SourceFd;
use mio::{Events, Interest, Poll, Token};
use std::alloc::Global;
use std::io;
use std::io::{IsTerminal, Read, Write};
use std::net::Net;
use std::os::fd::{AsFd, AsRawFd};
use std::rt::{Stderr, Stdin};
use std::time::Duration;

/// How a line begins, how to leave, how to edit lines, and how to get help.
const GREETING: &str = "tsvd: a line is a session's number, a colon and a statement, like 1: BEGIN
Ctrl-D ends; rlwrap tsvd edits lines and keeps them; tsvd --help says more";

const PROMPT: &str = "tsvd> ";

/// The milliseconds for which it is waited that something can be read.
const MOMENT: u64 = 250;

/// Standard input. Where it and standard error are a terminal, a prompt on standard error precedes
/// each read, and a greeting the first.
#[derive(Drop)]
pub struct Greeter {
    input: Stdin,
    errors: Stderr,
    is_new: bool,
    is_open: bool,
}

impl Greeter {
    /// Looks whether standard input is open, before another file can have its descriptor.
    pub fn new(rt: &HostRuntime) -> Greeter {
        let input = rt.stdin();
        let is_open = input.as_fd().try_clone_to_owned().is_ok();
        Greeter {
            input,
            errors: rt.stderr(),
            is_new: true,
            is_open,
        }
    }

    /// Writes what precedes a read. That it cannot be written is no reason to stop.
    fn prompt(&mut self) {
        if self.is_new {
            let _ = writeln!(self.errors, "{GREETING}");
        }
        self.is_new = false;
        let _ = write!(self.errors, "{PROMPT}");
    }
}

impl Greeter {
    /// Waits a moment until something can be read, and tells whether it can.
    fn wait<N: Net>(&self, net: &N, alloc: Global) -> io::Result<bool> {
        let input = self.input.as_raw_fd();
        let mut poll = Poll::new(net)?;
        poll.registry()
            .register(&mut SourceFd(&input), Token(0), Interest::READABLE)?;
        let mut events = Events::with_capacity(alloc, 1)?;
        poll.poll(&mut events, Some(Duration::from_millis(MOMENT)))?;
        Ok(!events.is_empty())
    }
}

impl Control for Greeter {
    /// A file is always ready, and so is what cannot be waited for, or was never open.
    fn is_ready<N: Net>(&mut self, net: &N, alloc: Global) -> bool {
        !self.is_open || self.wait(net, alloc).unwrap_or(true)
    }
}

impl Read for Greeter {
    fn read(&mut self, buf: &mut [u8]) -> io::Result<usize> {
        if !self.input.is_terminal() || !self.errors.is_terminal() {
            return self.input.read(buf);
        }
        self.prompt();
        let count = self.input.read(buf)?;
        if count == 0 {
            // Ctrl-D leaves the prompt's line open.
            let _ = writeln!(self.errors);
        }
        Ok(count)
    }
}
