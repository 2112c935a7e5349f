//! The log, under the name of its store.
ghost use Rattle.std.specs.Prelude.{◌≡◌, []};
ghost use Rattle.growlog.specs.Rules.{head_of};

use crate::prefix::Prefix;
use logbook::{Gain, Plain, Play, Rule, Seen, Start, Word};
use std::marker::{Brand, PhantomData, Send, Sync};

/// What is true of the log and its length, whatever the entries are.
pub struct Law;

impl<E> Rule<E, u64> for Law {
    ghost use Rattle.std.specs.Prelude.{[]};
    ghost use base.Fml.{ftrue};
    ghost use Rattle.growlog.specs.Rules.{IsKept};

    ghost holds = { λ cells log. IsKept cells log };

    ghost first = { [] };

    ghost hinted = { λ n log. Unit {0} };

    ghost shows = { λ log. [] };

    ghost keeps = { λ names log. ftrue };

    ghost moves = { λ ask before after answer. Unit {0} };
}

/// Who adds an entry gives nothing for it, and gets nothing.
pub struct Nothing;

impl<E> Gain<E, u64> for Nothing {
    ghost use base.Fml.{ftrue};

    ghost after = { λ names about answer. ftrue };
}

/// The step that adds an entry.
pub struct Add;

impl<E> Play<E, u64> for Add {
    ghost use Rattle.growlog.specs.Rules.{Adds};

    ghost then = { Adds };
}

/// The step asks for its entry.
impl<E> Plain<E, E, u64> for Add {
    ghost use Rattle.std.specs.Prelude.{None};

    ghost ask = { λ entry. entry };

    ghost state = { λ entry. None };
}

/// Which store it is: its log, and what it begins with. Who makes a store picks them.
pub trait StoreName: Send + Sync {
    ghost use Rattle.growlog.specs.Origin.{Origin};
    ghost use Rattle.logbook.specs.Pages.{Book};

    ghost book: { Book };

    ghost origin: { Origin };
}

impl StoreName for Brand {
    ghost use Rattle.std.specs.Prelude.{[]};

    ghost book = { record { number = 0; log_name = 0; cells_name = 0 } };

    ghost origin = { record { schema = record { tables = [] }; log = []; most_entries = 0 } };
}

/// A log without entries, which no store has yet.
#[derive(Drop)]
pub struct NewLog<E> {
    head: Word<E, u64, Law>,
    seen: Seen<E, u64, Law>,
    pub ghost empty: { seen.log ≡ [] },
    pub ghost head_is: { head ≡ head_of seen.book },
}

impl<E> NewLog<E> {
    /// Opens a log without entries.
    pub fn new() -> NewLog<E> {
        let (seen, mut first, _second) = Seen::open(Start::alone(), 0, 0);
        NewLog {
            head: Word::tracked(0, &mut first),
            seen,
        }
    }

    /// Makes the log of a store, and the prefix without entries.
    pub fn for_store<J: StoreName>(self) -> (Log<E, J>, Prefix<E, J>)
        requires { self.seen.book ≡ J.book }
        ensures { result.1 ≡ [] }
    {
        let NewLog { head, seen } = self;
        let log = Log {
            head,
            of: PhantomData,
        };
        (log, Prefix::of(seen))
    }
}

/// A store's log. At run time it is a number, its length; the entries are in the proofs alone.
#[derive(Drop)]
pub struct Log<E, J: StoreName> {
    pub(crate) head: Word<E, u64, Law>,
    of: PhantomData<J>,
    pub(crate) ghost head_is: { head ≡ head_of J.book },
}
