//! The connections that are served, for whoever stops the server.

use std::alloc::{AllocError, Global};
use std::io;
use std::io::ErrorKind;
use std::net::{Shutdown, TcpStream};
use steps::MAX_SESSION;

/// A second descriptor of each connection that is served, by the number of its session, so that its
/// reading side can be shut; and whether the server was stopped.
#[derive(Drop)]
pub(crate) struct Streams {
    open: Vec<Option<TcpStream>>,
    has_stopped: bool,
}

impl Streams {
    /// Makes it of no connection.
    pub(crate) fn new(alloc: Global) -> Result<Streams, AllocError> {
        let mut open = Vec::with_capacity(alloc, usize::from(MAX_SESSION))?;
        for _ in 0..MAX_SESSION {
            open.push(None)?;
        }
        Ok(Streams {
            open,
            has_stopped: false,
        })
    }

    /// Keeps a descriptor of the connection of a session. An error if the server was stopped, or there is
    /// no descriptor.
    pub(crate) fn keep(&mut self, number: u8, stream: &TcpStream) -> io::Result<()> {
        if self.has_stopped {
            return Err(io::Error::from(ErrorKind::Other));
        }
        let kept = stream.try_clone()?;
        self.put(number, Some(kept));
        Ok(())
    }

    /// Lets the descriptor of a session's connection go.
    pub(crate) fn forget(&mut self, number: u8) {
        self.put(number, None);
    }

    fn put(&mut self, number: u8, kept: Option<TcpStream>) {
        if let Some(place) = self.open.get_mut(usize::from(number).saturating_sub(1)) {
            *place = kept;
        }
    }

    /// Stops the server: what was sent by then is read of each connection, and no more.
    pub(crate) fn stop(&mut self) {
        self.has_stopped = true;
        for stream in self.open.as_slice() {
            if let Some(stream) = stream {
                let _ = stream.shutdown(Shutdown::Read);
            }
        }
    }
}
