//! Why a book refuses a call.
ghost use Rattle.std.specs.Prelude.{◌≡◌, ◌<◌, ◌^◌, Err, IsTrue, OnErr, OnOk, false, length, true};
ghost use Rattle.values.specs.Memory.{OnlyMemory};
ghost use Rattle.values.specs.declared.refusal.Refusal.TheVariants.{JournalFull, NoTransaction};
ghost use Rattle.journal.specs.Entries.{is_open};
ghost use Rattle.book.specs.Book.{OnlyRoom};
ghost use Rattle.book.specs.Refusal.{is_full, is_not_open};

use growlog::StoreName;
use journal::{Begun, Journal};
use std::alloc::AllocError;
use std::marker::Model;
use values::Refusal;

/// More entries than any memory has room for.
const TOO_MANY: usize = 1 << 62;

/// Why a book refused a call. Contracts see the refusal. One that says that the journal is full, or that
/// a transaction is not open, is made here alone, where that was found: whoever has it was told so by a
/// book.
#[derive(Debug, Drop)]
pub struct BookRefusal {
    why: Refusal,
}

impl Model for BookRefusal {
    ghost use Rattle.values.specs.declared.refusal.Refusal.{Refusal};

    ghost Value = { Refusal };

    ghost view = { λ r. r.why };
}

impl BookRefusal {
    /// Returns the refusal.
    pub fn refusal(&self) -> &Refusal
        ensures { result.now ≡ self.now }
    {
        &self.why
    }

    /// Tells whether the journal is full.
    pub fn is_full(&self) -> bool
        ensures { result ≡ is_full self.now }
    {
        matches!(self.why, Refusal::JournalFull)
    }

    /// Tells whether the transaction is not open at the book.
    pub fn is_not_open(&self) -> bool
        ensures { result ≡ is_not_open self.now }
    {
        matches!(self.why, Refusal::NoTransaction)
    }
}

impl From<BookRefusal> for Refusal {
    ghost use Rattle.std.specs.Prelude.{◌≡◌};

    ghost from_gives = { λ told refusal. refusal ≡ told };

    fn from(told: BookRefusal) -> Refusal {
        let BookRefusal { why } = told;
        why
    }
}

impl From<AllocError> for BookRefusal {
    ghost use Rattle.std.specs.Prelude.{◌≡◌};
    ghost use Rattle.values.specs.declared.refusal.Refusal.TheVariants.{Memory};

    ghost from_gives = { λ _ told. told ≡ Memory };

    fn from(_: AllocError) -> BookRefusal {
        BookRefusal {
            why: Refusal::Memory,
        }
    }
}

impl From<Refusal> for BookRefusal {
    ghost use Rattle.std.specs.Prelude.{◌≡◌};
    ghost use Rattle.values.specs.declared.refusal.Refusal.TheVariants.{Memory};

    ghost from_gives = { λ _ told. told ≡ Memory };

    /// What a book is made of is refused for memory alone.
    fn from(_: Refusal) -> BookRefusal {
        BookRefusal {
            why: Refusal::Memory,
        }
    }
}

/// Makes room for one more entry of so many that there may be. `JournalFull` where there is no room. Where
/// it is refused the entries are what they were.
pub(crate) fn make_room<J: StoreName>(
    journal: &mut Journal<J>,
    most: usize,
) -> Result<(), BookRefusal>
    requires { most ≡ J.origin.most_entries }
    ensures ok { OnOk result (0 < journal.new.room) }
    ensures few { OnOk result (length journal.old.entries < J.origin.most_entries) }
    ensures short { OnOk result (length journal.old.entries < 2 ^ 62) }
    ensures same { journal.new.entries ≡ journal.old.entries }
    ensures full { length journal.old.entries ≡ J.origin.most_entries → result ≡ Err JournalFull }
    ensures room { length journal.old.entries < J.origin.most_entries → OnlyMemory result }
    ensures why { OnlyRoom result }
{
    if journal.len() >= most {
        return Err(BookRefusal {
            why: Refusal::JournalFull,
        });
    }
    if journal.len() >= TOO_MANY {
        return Err(BookRefusal::from(AllocError));
    }
    journal.reserve()?;
    Ok(())
}

/// Finds a session's transaction open, by what the session keeps of its begin; or else `NoTransaction`.
pub(crate) fn find_open<J: StoreName>(
    journal: &Journal<J>,
    session: u8,
    begun: &Begun,
) -> Result<(), BookRefusal>
    ensures ok { OnOk result (is_open journal.now.entries session begun.now ≡ true) }
    ensures err { OnErr result (is_open journal.now.entries session begun.now ≡ false) }
    ensures why { OnErr result (result ≡ Err NoTransaction) }
{
    if journal.is_open(session, begun) {
        return Ok(());
    }
    Err(BookRefusal {
        why: Refusal::NoTransaction,
    })
}
