//! A writer that takes a text in pieces.
use std::alloc::Global;
use std::io;
use std::io::{ErrorKind, Write};

/// A writer that takes at most so many bytes at a call. It fails at the write after so many, where it
/// has room for no more bytes, and at the flush after so many.
#[derive(Drop)]
pub(crate) struct Pipe {
    pub(crate) taken: Vec<u8>,
    pub(crate) most: usize,
    pub(crate) writes: usize,
    pub(crate) room: usize,
    pub(crate) flushes: usize,
}

impl Pipe {
    /// A writer that takes all.
    pub(crate) fn new(alloc: Global) -> Pipe {
        Pipe {
            taken: Vec::new(alloc),
            most: usize::MAX,
            writes: usize::MAX,
            room: usize::MAX,
            flushes: usize::MAX,
        }
    }
}

impl Write for Pipe {
    fn write(&mut self, buf: &[u8]) -> io::Result<usize> {
        if self.writes == 0 || self.room == 0 {
            return Err(io::Error::from(ErrorKind::Other));
        }
        let n = buf.len().min(self.most).min(self.room);
        self.writes -= 1;
        self.room -= n;
        self.taken.extend_from_slice(buf.split_at(n).0)?;
        Ok(n)
    }

    fn flush(&mut self) -> io::Result<()> {
        if self.flushes == 0 {
            return Err(io::Error::from(ErrorKind::Other));
        }
        self.flushes -= 1;
        Ok(())
    }
}
