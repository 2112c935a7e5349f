//! The receipts that the lines of a served session took, and what the store refused them for.
ghost use Rattle.std.specs.Prelude.{◌≡◌, ◌<◌, ◌++◌, [], OnOk};
ghost use Rattle.values.specs.Memory.{OnlyMemory};
ghost use Rattle.serving.specs.BookRefusals.{none_refused};

use crate::answer::{Answer, Sent};
use crate::book_refusals::BookRefusals;
use growlog::StoreName;
use sessions::{Receipt, StoreRefusal};
use std::alloc::Global;
use std::marker::Model;
use values::Mem;

/// The receipts that the lines took so far, and what the store's book refused lines for. Contracts see
/// them, and for how many more receipts there is room.
pub(crate) struct Account<J: StoreName> {
    receipts: Vec<Receipt<J>>,
    refused: BookRefusals,
}

impl<J: StoreName> Model for Account<J> {
    ghost use Rattle.std.specs.Prelude.{◌-◌, map, vec_capacity, vec_len};
    ghost use Rattle.serving.specs.Account.{AccountState};

    ghost Value = { AccountState };

    ghost view = { λ a. record {
      given = map (λ r. record { number = r.number; entry = r.entry }) a.receipts.items;
      room = vec_capacity a.receipts - vec_len a.receipts;
      refused = a.refused;
    } };
}

impl<J: StoreName> Account<J> {
    ghost use Rattle.std.specs.Prelude.{map};
    ghost use Rattle.serving.specs.Account.{HasRoomFor};
    ghost use Rattle.serving.specs.Serving.{given_of, kept_of};

    /// Makes an account of no lines.
    pub(crate) fn new(alloc: Global) -> Account<J>
        ensures given { result.given ≡ [] }
        ensures refused { result.refused ≡ none_refused }
    {
        Account {
            receipts: Vec::new(alloc),
            refused: BookRefusals::new(),
        }
    }

    /// Makes room for the receipts of one more step, which are at most two.
    pub(crate) fn reserve(&mut self) -> Mem<()>
        ensures ok { OnOk result (1 < self.new.room) }
        ensures given { self.new.given ≡ self.old.given }
        ensures refused { self.new.refused ≡ self.old.refused }
        ensures memory { OnlyMemory result }
    {
        self.receipts.reserve(2)?;
        Ok(())
    }

    /// Returns the receipt that was taken last.
    pub(crate) fn last(&self) -> Option<&Receipt<J>> {
        self.receipts.last()
    }

    /// Keeps the receipts of an answer, for which there is room, and what the book refused it for.
    pub(crate) fn keep(&mut self, answer: Answer<J>)
        requires { HasRoomFor answer self.old }
        ensures given { self.new.given ≡ self.old.given ++ given_of answer }
        ensures refused { self.new.refused ≡ kept_of self.old.refused answer.sent }
    {
        let Answer {
            receipt,
            install,
            sent,
        } = answer;
        match receipt {
            Some(receipt) => self.receipts.push_reserved(receipt),
            None => {}
        }
        match install {
            Some(install) => self.receipts.push_reserved(install),
            None => {}
        }
        match sent {
            Sent::Refused(StoreRefusal::Book(refusal)) => self.refused.keep(refusal),
            _ => {}
        }
    }

    /// Returns the receipts, in order, and what the book refused lines for.
    pub(crate) fn into_parts(self) -> (Vec<Receipt<J>>, BookRefusals)
        ensures given { map (λ r. record { number = r.number; entry = r.entry }) result.0.items
            ≡ self.given }
        ensures refused { result.1 ≡ self.refused }
    {
        let Account { receipts, refused } = self;
        (receipts, refused)
    }
}
