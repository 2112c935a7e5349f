//! What stops a server.

use crate::streams::Streams;
use std::alloc::{AllocError, Global};
use std::io;
use std::net::{Shutdown, TcpListener, TcpStream};
use std::os::fd::OwnedFd;
use std::sync::atomic::{AtomicBool, Ordering};
use std::sync::{Mutex, Wait};

/// Whether a server may be stopped and has been, and what is shut then: the socket that listens, and the
/// reading side of each connection that is served.
#[derive(Drop)]
pub(crate) struct Stop {
    /// The port at which the server listens that may be stopped.
    pub(crate) port: Option<u16>,
    /// A second descriptor of the socket that listens, by which it can be shut.
    listener: Option<TcpStream>,
    pub(crate) has_stopped: AtomicBool,
    streams: Mutex<Streams>,
}

/// Returns a socket that listens as one that can be shut, which the kit has of streams alone.
fn as_stream(listener: TcpListener) -> TcpStream {
    TcpStream::from(OwnedFd::from(listener))
}

impl Stop {
    /// Makes that of a server, which may be stopped where it has a port here.
    pub(crate) fn new(
        alloc: Global,
        port: Option<u16>,
        listener: Option<TcpListener>,
    ) -> Result<Stop, AllocError> {
        Ok(Stop {
            port,
            listener: listener.map(as_stream),
            has_stopped: AtomicBool::new(false),
            streams: Mutex::new(Streams::new(alloc)?),
        })
    }

    /// Tells whether the server was stopped.
    pub(crate) fn has_stopped(&self) -> bool {
        self.has_stopped.load(Ordering::SeqCst)
    }

    /// Keeps a second descriptor of the connection of a session. An error if the server was stopped, or
    /// there is no descriptor.
    pub(crate) fn keep<R: Wait>(&self, rt: &R, number: u8, stream: &TcpStream) -> io::Result<()> {
        self.streams.lock(rt).keep(number, stream)
    }

    /// Lets the descriptor of a session's connection go.
    pub(crate) fn forget<R: Wait>(&self, rt: &R, number: u8) {
        self.streams.lock(rt).forget(number);
    }

    /// Stops the server, where it may be: no connection is taken any more, and each that is served ends
    /// behind what was sent by then.
    pub(crate) fn stop<R: Wait>(&self, rt: &R) {
        if self.port.is_none() {
            return;
        }
        self.has_stopped.store(true, Ordering::SeqCst);
        self.streams.lock(rt).stop();
        if let Some(listener) = &self.listener {
            let _ = listener.shutdown(Shutdown::Both);
        }
    }
}
