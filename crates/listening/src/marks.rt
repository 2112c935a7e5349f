//! The numbers of entries at which a line is written.

/// The entries for each of which there is a line.
const STEP: usize = 100_000;

/// Numbers of entries: each 100,000, and nine tenths of all that there may be.
#[derive(Clone, Copy, Debug)]
pub(crate) struct Marks {
    nine_tenths: usize,
    last: usize,
}

impl Marks {
    /// Makes the marks of a journal that may have so many entries, of which none was passed.
    pub(crate) fn new(most: usize) -> Marks {
        Marks {
            nine_tenths: most.saturating_sub(most / 10),
            last: 0,
        }
    }

    /// Returns the next mark, if a journal with so many entries has passed it.
    pub(crate) fn pass(&mut self, count: usize) -> Option<usize> {
        let next = self.next();
        if count < next {
            return None;
        }
        self.last = next;
        Some(next)
    }

    fn next(&self) -> usize {
        let step = (self.last / STEP).saturating_add(1).saturating_mul(STEP);
        if self.last < self.nine_tenths && self.nine_tenths < step {
            self.nine_tenths
        } else {
            step
        }
    }
}
