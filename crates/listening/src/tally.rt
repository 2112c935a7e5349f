//! How many connections count.

use crate::limit::Limit;
use steps::MAX_SESSION;

/// Which of the connections that are taken count.
#[derive(Clone, Copy, Debug, PartialEq, Eq)]
enum Counting {
    /// Each, whatever it sends.
    All,
    /// Those of clients, which is known once a byte of them is there.
    Clients,
}

/// How many of the connections that were taken count, and of how many that is not known yet.
#[derive(Clone, Copy, Debug)]
pub(crate) struct Tally {
    counting: Counting,
    /// How many are to count; any number where there is none.
    most: Option<u32>,
    counted: u32,
    unknown: u32,
}

impl Tally {
    /// Makes a tally of no connection.
    pub(crate) fn new(limit: Limit) -> Tally {
        let (counting, most) = match limit {
            Limit::Sessions(most) => (Counting::All, Some(u32::from(most.min(MAX_SESSION)))),
            Limit::Connections(0) => (Counting::Clients, None),
            Limit::Connections(most) => (Counting::Clients, Some(most)),
        };
        Tally {
            counting,
            most,
            counted: 0,
            unknown: 0,
        }
    }

    /// Tells whether it is asked of a connection whether it counts.
    pub(crate) fn asks(&self) -> bool {
        self.counting == Counting::Clients
    }

    /// Tells whether as many count as are to.
    pub(crate) fn is_over(&self) -> bool {
        match self.most {
            Some(most) => self.counted >= most,
            None => false,
        }
    }

    /// Tells whether all that are missing may be among those of which it is not known.
    pub(crate) fn is_full(&self) -> bool {
        match self.most {
            Some(most) => self.counted.saturating_add(self.unknown) >= most,
            None => false,
        }
    }

    /// Notes that a connection was taken.
    pub(crate) fn take(&mut self) {
        match self.counting {
            Counting::All => self.counted = self.counted.saturating_add(1),
            Counting::Clients => self.unknown = self.unknown.saturating_add(1),
        }
    }

    /// Notes whether a connection counts, if that was asked of it.
    pub(crate) fn note(&mut self, counts: bool) {
        if !self.asks() {
            return;
        }
        self.unknown = self.unknown.saturating_sub(1);
        if counts {
            self.counted = self.counted.saturating_add(1);
        }
    }
}
