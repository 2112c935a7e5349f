//! A commit: the first committer wins.
ghost use Rattle.std.specs.Prelude.{◌≡◌, ◌<◌, Err, IfOk, IfSome, OnErr, OnOk, false, length, true};
ghost use Rattle.values.specs.Events.{AreKeysIn};
ghost use Rattle.values.specs.Memory.{OnlyMemory};
ghost use Rattle.values.specs.declared.refusal.Refusal.TheVariants.{JournalFull, NoTransaction};
ghost use Rattle.validation.specs.treenodes.History.{KeepsHistory};
ghost use Rattle.journal.specs.Entries.{is_open};
ghost use Rattle.book.specs.Book.{Adds, IsBook, OnlyRoom, commit_entry};
ghost use Rattle.book.specs.Ending.{IsEnd, IsWritten, MayBeWritten, instant_of, ran_out};

use crate::book::{Book, twice};
use crate::refusal::{BookRefusal, find_open, make_room};
use growlog::StoreName;
use journal::{Begun, Entry, Receipt};
use validation::{Engine, KeyedNet, Net};
use values::{Instant, Mem, Refusal, Schema};

impl<J: StoreName> Book<J> {
    /// Ends a session's transaction of the store's tables with its net changes, by this reading of the
    /// clock: how it ended is in the entry. The changes are handed in twice, once to be kept in the entry
    /// and once with the bytes of their keys, to be looked up and put in the tree. `NoTransaction` where
    /// the transaction is not open here, `JournalFull` where there is no room for one more entry. After a
    /// refusal nothing has changed.
    pub fn commit(
        &mut self,
        schema: &Schema,
        session: u8,
        begun: &Begun,
        net: Net,
        changes: KeyedNet,
        reading: Instant,
    ) -> Result<Receipt<J>, BookRefusal>
        requires tables { schema.now ≡ J.origin.schema }
        requires keys { AreKeysIn J.origin.schema net }
        requires twice { changes ≡ net }
        ensures entry { IfOk result (λ r.
            r.entry ≡ commit_entry J.origin self.old session begun.now net reading) }
        ensures adds { IfOk result (λ r. Adds r.entry r.number self.old self.new) }
        ensures history { KeepsHistory self.old.engine.nodes self.new.engine.nodes }
        ensures book { IsBook J.origin self.new }
        ensures none { is_open self.old.entries session begun.now ≡ false
            → result ≡ Err NoTransaction }
        ensures full { is_open self.old.entries session begun.now ≡ true
            → length self.old.entries ≡ J.origin.most_entries → result ≡ Err JournalFull }
        ensures room { is_open self.old.entries session begun.now ≡ true
            → length self.old.entries < J.origin.most_entries → OnlyMemory result }
        ensures why { is_open self.old.entries session begun.now ≡ true → OnlyRoom result }
        ensures refused { OnErr result (self.new ≡ self.old) }
    {
        find_open(&self.journal, session, begun)?;
        make_room(&mut self.journal, self.most_entries)?;
        let end = ending(&self.engine, schema, begun.start(), &changes, reading)?;
        let instant = instant_of(&end);
        let entry = Entry::Commit {
            session,
            begin: begun.number(),
            net,
            reading,
            end,
        };
        let (entry, kept) = twice(self.alloc, entry)?;
        // What the tree takes is the last that can be refused.
        write(&mut self.engine, instant, changes)?;
        // Who asks for the tree knows that it is sound.
        let _tree = self.engine.tree();
        Ok(self.journal.push(entry, kept))
    }
}

/// The validation: how a transaction would end.
fn ending(
    engine: &Engine,
    schema: &Schema,
    start: Instant,
    net: &KeyedNet,
    reading: Instant,
) -> Mem<Result<Option<Instant>, Refusal>>
    ensures is { IfOk result (IsEnd schema.now engine.now start net.now reading) }
    ensures put { IfOk result (λ end. IfSome (instant_of end) (MayBeWritten engine.now net.now)) }
    ensures memory { OnlyMemory result }
{
    let end = engine.validate(schema, start, net, reading);
    if ran_out(&end) {
        return Err(Refusal::Memory);
    }
    Ok(end)
}

/// The write: puts the changes of a transaction in place, where it is committed. Where memory runs out
/// nothing has changed.
fn write(engine: &mut Engine, instant: Option<Instant>, changes: KeyedNet) -> Mem<()>
    requires { IfSome instant (MayBeWritten engine.old changes) }
    ensures ok { OnOk result (IsWritten engine.old engine.new changes instant) }
    ensures history { KeepsHistory engine.old.nodes engine.new.nodes }
    ensures err { OnErr result (engine.new ≡ engine.old) }
    ensures memory { OnlyMemory result }
{
    match instant {
        None => Ok(()),
        Some(instant) => engine.add(instant, changes),
    }
}

/// Whether memory ran out before it was known how a transaction ends.
fn ran_out(end: &Result<Option<Instant>, Refusal>) -> bool
    ensures { result ≡ ran_out end.now }
{
    matches!(end, Err(Refusal::Memory))
}

/// The instant of a transaction that is committed.
fn instant_of(end: &Result<Option<Instant>, Refusal>) -> Option<Instant>
    ensures { result ≡ instant_of end.now }
{
    match end {
        Ok(Some(instant)) => Some(*instant),
        Ok(None) => None,
        Err(_) => None,
    }
}
