//! A reader that gives a text in pieces.
use listening::Control;
use std::io;
use std::io::{ErrorKind, Read};

/// A reader that gives at most so many bytes at a call, and fails at the call after so many.
#[derive(Drop)]
pub(crate) struct Cut<'a> {
    pub(crate) rest: &'a [u8],
    pub(crate) most: usize,
    pub(crate) calls: usize,
}

impl Read for Cut<'_> {
    fn read(&mut self, buf: &mut [u8]) -> io::Result<usize> {
        if self.calls == 0 {
            return Err(io::Error::from(ErrorKind::Other));
        }
        self.calls -= 1;
        let n = self.rest.len().min(buf.len()).min(self.most);
        let (front, rest) = self.rest.split_at(n);
        buf.split_at_mut(n).0.copy_from_slice(front);
        self.rest = rest;
        Ok(n)
    }
}

impl Control for Cut<'_> {}
