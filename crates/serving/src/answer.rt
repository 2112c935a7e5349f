//! What is sent for a step.
ghost use Rattle.std.specs.Prelude.{◌≡◌};
ghost use Rattle.statement.specs.Writer.{Prints};
ghost use Rattle.statement.specs.Print.{refusal_text, reply_text};
ghost use Rattle.steps.specs.Reply.{commit_reply};
ghost use Rattle.sessions.specs.Refusal.{refusal_of};
ghost use Rattle.serving.specs.Serving.{ending_in};

use growlog::StoreName;
use sessions::{Entry, Receipt, StoreRefusal};
use statement::{WriteFault, print_refusal, print_reply};
use std::io::Write;
use std::marker::Model;
use steps::Reply;
use values::{Instant, Refusal};

/// What is sent for a step.
#[derive(Drop)]
pub(crate) enum Sent {
    Reply(Reply),
    /// How the commit ended whose receipt was taken.
    Ending,
    /// Why it was refused, where it is as if it had not been asked.
    Refused(StoreRefusal),
}

/// How a step was answered, with the receipts that it took: that of a call of the store, if it made
/// one, and then that of an install.
pub(crate) struct Answer<J: StoreName> {
    pub(crate) receipt: Option<Receipt<J>>,
    pub(crate) install: Option<Receipt<J>>,
    pub(crate) sent: Sent,
}

impl<J: StoreName> Model for Answer<J> {
    ghost use Rattle.std.specs.Option.{option_map};
    ghost use Rattle.serving.specs.Serving.{AnswerState};

    ghost Value = { AnswerState };

    ghost view = { λ a. record {
      given = option_map (λ r. record { number = r.number; entry = r.entry }) a.receipt;
      install = option_map (λ r. record { number = r.number; entry = r.entry }) a.install;
      sent = a.sent;
    } };
}

impl<J: StoreName> Answer<J> {
    ghost use Rattle.std.specs.Prelude.{None, Some};
    ghost use Rattle.serving.specs.Serving.{reply_of, text_of};

    /// Makes a reply with no receipt.
    pub(crate) fn reply(reply: Reply) -> Answer<J>
        ensures { result ≡ record { given = None; install = None; sent = Sent.Reply reply } }
    {
        Answer {
            receipt: None,
            install: None,
            sent: Sent::Reply(reply),
        }
    }

    /// Makes a refusal with no receipt.
    pub(crate) fn refusal(refusal: StoreRefusal) -> Answer<J>
        ensures { result ≡ record { given = None; install = None; sent = Sent.Refused refusal } }
    {
        Answer {
            receipt: None,
            install: None,
            sent: Sent::Refused(refusal),
        }
    }

    /// Tells whether it is refused since the journal is full.
    pub(crate) fn is_full(&self) -> bool {
        match &self.sent {
            Sent::Refused(StoreRefusal::Book(refusal)) => refusal.is_full(),
            _ => false,
        }
    }

    /// Makes a reply with one receipt.
    pub(crate) fn with_receipt(receipt: Receipt<J>, sent: Sent) -> Answer<J>
        ensures { result ≡ record {
          given = Some (record { number = receipt.number; entry = receipt.entry });
          install = None;
          sent = sent;
        } }
    {
        Answer {
            receipt: Some(receipt),
            install: None,
            sent,
        }
    }

    /// Writes what is sent.
    pub(crate) fn print<W: Write>(&self, writer: &mut W) -> Result<(), WriteFault>
        ensures { Prints (W.contents writer.old) (W.contents writer.new) result
            (text_of (reply_of self.now)) }
    {
        match &self.sent {
            Sent::Reply(reply) => print_reply(writer, reply),
            Sent::Refused(refusal) => print_refused(writer, refusal),
            Sent::Ending => match &self.receipt {
                Some(receipt) => print_ending(writer, receipt.entry.entry()),
                None => print_reply(writer, &Reply::Done),
            },
        }
    }
}

/// Writes why a step was refused.
fn print_refused<W: Write>(writer: &mut W, refused: &StoreRefusal) -> Result<(), WriteFault>
    ensures { Prints (W.contents writer.old) (W.contents writer.new) result
        (refusal_text (refusal_of refused.now)) }
{
    match refused {
        StoreRefusal::Session(refusal) => print_refusal(writer, refusal),
        StoreRefusal::Book(refusal) => print_refusal(writer, refusal.refusal()),
    }
}

/// Writes how the commit of an entry ended.
fn print_ending<W: Write>(writer: &mut W, entry: &Entry) -> Result<(), WriteFault>
    ensures { Prints (W.contents writer.old) (W.contents writer.new) result
        (reply_text (ending_in entry.now)) }
{
    match entry {
        Entry::Commit { end, .. } => print_end(writer, end),
        Entry::Begin { .. } => print_reply(writer, &Reply::Done),
        Entry::Split { .. } => print_reply(writer, &Reply::Done),
        Entry::Install { .. } => print_reply(writer, &Reply::Done),
    }
}

/// Writes how a commit ended.
fn print_end<W: Write>(
    writer: &mut W,
    end: &Result<Option<Instant>, Refusal>,
) -> Result<(), WriteFault>
    ensures { Prints (W.contents writer.old) (W.contents writer.new) result
        (reply_text (commit_reply end.now)) }
{
    match end {
        Ok(instant) => print_reply(writer, &Reply::Committed(*instant)),
        Err(refusal) => print_refusal(writer, refusal),
    }
}
