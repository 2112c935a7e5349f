//! What the store's book refused lines for.
ghost use Rattle.std.specs.Prelude.{◌≡◌};
ghost use Rattle.serving.specs.BookRefusals.{none_refused, with_refusal};

use sessions::BookRefusal;
use std::marker::Model;

/// What the store's book refused lines for: that its journal is full, and that a transaction is not
/// open there. It keeps a refusal of each kind, which only a book can make. Contracts see which kinds
/// there are.
#[derive(Drop)]
pub struct BookRefusals {
    full: Option<BookRefusal>,
    not_open: Option<BookRefusal>,
}

impl Model for BookRefusals {
    ghost use Rattle.std.specs.Prelude.{is_some};
    ghost use Rattle.serving.specs.BookRefusals.{BookRefusalsState, IsOfKinds};

    ghost Value = { BookRefusalsState };

    ghost view = { λ r. record { full = is_some r.full; not_open = is_some r.not_open } };

    ghost invariant = { λ r. IsOfKinds r.full r.not_open };
}

impl BookRefusals {
    /// Makes it of no refusals.
    pub(crate) fn new() -> BookRefusals
        ensures { result ≡ none_refused }
    {
        BookRefusals {
            full: None,
            not_open: None,
        }
    }

    /// Keeps a refusal, if it is of one of these kinds.
    pub(crate) fn keep(&mut self, refusal: BookRefusal)
        ensures { self.new ≡ with_refusal self.old refusal }
    {
        if refusal.is_full() {
            self.full = Some(refusal);
        } else if refusal.is_not_open() {
            self.not_open = Some(refusal);
        }
    }

    /// Tells whether a line was refused since the journal is full.
    pub fn has_full(&self) -> bool
        ensures { result ≡ self.now.full }
    {
        self.full.is_some()
    }

    /// Tells whether the end of an open transaction was refused since it is not open at the store.
    pub fn has_not_open(&self) -> bool
        ensures { result ≡ self.now.not_open }
    {
        self.not_open.is_some()
    }
}
