//! Prefixes of the log.
ghost use Rattle.std.specs.Prelude.{◌≡◌, ◌<◌, ◌^◌, ◌++◌, ◌∷◌, [], length, MatchBool};
ghost use Rattle.growlog.specs.Rules.{Agree};

use crate::log::{Add, Law, Log, Nothing, StoreName};
use logbook::{Offer, Seen};
use std::marker::{Model, PhantomData};

/// A prefix of a store's log that was seen. Contracts see its entries, of which none is stored.
#[derive(Drop)]
pub struct Prefix<E, J: StoreName> {
    count: u64,
    seen: Seen<E, u64, Law>,
    of: PhantomData<J>,
}

impl<E, J: StoreName> Model for Prefix<E, J> {
    ghost use Rattle.std.specs.Prelude.{◌≡◌, List, length};

    ghost Value = { List E };

    ghost view = { λ p. p.seen.log };

    ghost invariant = { λ p. (p.count ≡ length p.seen.log) × (p.seen.book ≡ J.book) };
}

impl<E, J: StoreName> Prefix<E, J> {
    /// The prefix without entries.
    pub(crate) fn of(seen: Seen<E, u64, Law>) -> Prefix<E, J>
        requires empty { seen.log ≡ [] }
        requires name { seen.book ≡ J.book }
        ensures { result ≡ [] }
    {
        Prefix {
            count: 0,
            seen,
            of: PhantomData,
        }
    }

    /// Returns how many entries it has.
    pub fn len(&self) -> u64
        ensures { result ≡ length self.now }
    {
        self.count
    }

    /// Returns the same prefix.
    pub fn again(&self) -> Prefix<E, J>
        ensures { result ≡ self.now }
    {
        Prefix {
            count: self.count,
            seen: self.seen.again(),
            of: PhantomData,
        }
    }

    /// Shows that two prefixes have the same entry at each place that both have. At run time
    /// nothing is done.
    pub fn agrees(&self, other: &Prefix<E, J>)
        ensures { Agree self.now other.now }
    {
        let mut both = self.seen.again();
        both.learn(&other.seen);
    }

    /// Adds an entry to the log where the prefix is all of it, and says whether it did.
    pub fn add(&mut self, log: &Log<E, J>, entry: &E) -> bool
        requires { length self.old < 2 ^ 62 }
        ensures { MatchBool result
            (self.new ≡ self.old ++ entry.now ∷ []) (self.new ≡ self.old) }
    {
        let mut seen = self.seen.again();
        let mut offer: Offer<E, u64, Law, Nothing> = seen.plain::<Nothing, E, Add>(entry);
        let mut pen = seen.no_pen();
        let count = self.count;
        let found = log
            .head
            .compare_exchange::<Add, Nothing>(count, count + 1, &mut seen, &mut offer, &mut pen);
        if found != count {
            return false;
        }
        self.count = count + 1;
        self.seen = seen;
        true
    }
}
