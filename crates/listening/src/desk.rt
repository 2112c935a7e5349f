//! The numbers that sessions get, and how many connections are taken.

use crate::door::Door;
use crate::limit::Limit;
use crate::tally::Tally;
use crossbeam_channel::{Receiver, Sender};
use std::alloc::{AllocError, Global};
use std::sync::Wait;
use std::sync::atomic::{AtomicBool, Ordering};
use steps::MAX_SESSION;

/// What a connection is given that is to be served: the number of its session, its door, and the way
/// back for the number.
#[derive(Drop)]
pub(crate) struct Seat {
    pub(crate) number: u8,
    pub(crate) door: Door,
    back: Sender<u8, Global>,
}

impl Seat {
    /// Gives the number back when the connection has ended, of which it is told whether it counted.
    pub(crate) fn leave<R: Wait>(self, rt: &R) {
        self.door.leave(rt);
        let _ = self.back.send(rt, self.number);
    }
}

/// The numbers that no session has, in the order in which they came free, at first from 1 on; and how
/// many of the connections that were taken count. There is room for all that is sent, so that to give a
/// number back, or to tell whether a connection counts, never wants memory.
#[derive(Drop)]
pub(crate) struct Desk {
    tally: Tally,
    back: Sender<u8, Global>,
    free: Receiver<u8, Global>,
    words: Sender<bool, Global>,
    told: Receiver<bool, Global>,
}

impl Desk {
    /// Makes a desk at which all numbers are free.
    pub(crate) fn new<R: Wait>(rt: &R, alloc: Global, limit: Limit) -> Result<Desk, AllocError> {
        let all = usize::from(MAX_SESSION);
        let (back, free) = crossbeam_channel::bounded::<u8, Global>(alloc, all)?;
        // Between two connections that are taken, no more have word to send than can be served.
        let (words, told) = crossbeam_channel::bounded::<bool, Global>(alloc, 2 * all)?;
        for number in 0..MAX_SESSION {
            let _ = back.send(rt, number + 1);
        }
        Ok(Desk {
            tally: Tally::new(limit),
            back,
            free,
            words,
            told,
        })
    }

    /// Tells whether one more connection is to be taken. While all that are missing may be among those
    /// that were taken, word of these is waited for, and that is noted.
    pub(crate) fn takes_more<R: Wait>(&mut self, rt: &R, is_crowded: &AtomicBool) -> bool {
        for _ in 0..MAX_SESSION {
            let Ok(counts) = self.told.try_recv(rt) else {
                break;
            };
            self.tally.note(counts);
        }
        for _word in rt.forever() {
            if self.tally.is_over() {
                return false;
            }
            if !self.tally.is_full() {
                return true;
            }
            is_crowded.store(true, Ordering::SeqCst);
            let told = self.told.recv(rt);
            is_crowded.store(false, Ordering::SeqCst);
            let Ok(counts) = told else {
                return false;
            };
            self.tally.note(counts);
        }
        false
    }

    /// Returns a number that no session has. While there is none, it is waited for, and that is noted.
    pub(crate) fn number<R: Wait>(&self, rt: &R, is_crowded: &AtomicBool) -> Option<u8> {
        if let Ok(number) = self.free.try_recv(rt) {
            return Some(number);
        }
        is_crowded.store(true, Ordering::SeqCst);
        let number = self.free.recv(rt);
        is_crowded.store(false, Ordering::SeqCst);
        number.ok()
    }

    /// Takes a connection under a number. None where there is no memory for its seat.
    pub(crate) fn seat(&mut self, number: u8) -> Result<Seat, AllocError> {
        self.tally.take();
        Ok(Seat {
            number,
            door: Door::new(self.tally.asks(), self.words.clone()?),
            back: self.back.clone()?,
        })
    }

    /// Takes a connection that was gone before it could be served.
    pub(crate) fn pass_over(&mut self) {
        self.tally.take();
        self.tally.note(false);
    }

    /// Takes a number back whose connection could not be served.
    pub(crate) fn take_back<R: Wait>(&mut self, rt: &R, number: u8) {
        self.tally.note(false);
        let _ = self.back.send(rt, number);
    }
}
