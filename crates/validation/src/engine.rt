//! The committed transactions and the clock.
ghost use Rattle.std.specs.Prelude.{◌≡◌, ◌≢◌, ◌≤◌, ◌<◌, Result, Err, IfOk, IfSome, IfNone, OnOk, OnErr, length};
ghost use Rattle.values.specs.Log.{Changes, Net, add_net};
ghost use Rattle.values.specs.Period.{periods_of};
ghost use Rattle.values.specs.Tables.{Schema};
ghost use Rattle.values.specs.Commits.{outcome, max_instant};
ghost use Rattle.values.specs.Events.{AreKeysIn};
ghost use Rattle.values.specs.Memory.{OnlyMemory};
ghost use Rattle.staging.specs.treenodes.History.{KeepsHistory, KeepsPast};
ghost use Rattle.staging.specs.tsbtree.View.{events, last, IsEmpty, IsState};
ghost use Rattle.staging.specs.View.{Holds, Adds};
ghost use Rattle.staging.specs.tsbtree.Copy.{IsCopyOf};
ghost use Rattle.staging.specs.tsbtree.Growth.{HoldsSame};
ghost use Rattle.staging.specs.tsbtree.Packing.{IsInstalled};
ghost use Rattle.validation.specs.Conflict.{end_by};
ghost use Rattle.validation.specs.Split.{IsSplit, SplitsByNeed};

use crate::conflict::first_conflict;
use crate::cut::Cut;
use crate::packed_node::PackedNode;
use commitclock::Clock;
use staging::{KeyedNet, LeafCopy, Tree, View};
use std::alloc::Global;
use std::marker::Model;
use values::{Instant, Key, Mem, Refusal, Schema};

/// The tree of what was committed, and the clock that gives commits their instants.
#[derive(Drop)]
pub struct Engine {
    alloc: Global,
    tree: Tree,
    clock: Clock,
}

impl Model for Engine {
    ghost use Rattle.std.specs.Prelude.{◌≡◌};
    ghost use Rattle.staging.specs.tsbtree.View.{TreeState, last};

    ghost Value = { TreeState };

    ghost view = { λ e. e.tree };

    ghost invariant = { λ e. e.clock ≡ last e.tree };
}

impl Engine {
    /// Makes the engine before the first commit. `Memory` where it runs out.
    pub fn new(alloc: Global) -> Mem<Engine>
        ensures ok { IfOk result IsEmpty }
        ensures err { OnlyMemory result }
    {
        Ok(Engine {
            alloc,
            tree: Tree::new(alloc)?,
            clock: Clock::new(),
        })
    }

    /// Returns the instant of the last commit, 0 where there is none.
    pub fn last(&self) -> Instant
        ensures { result ≡ last self.now }
    {
        self.clock.last()
    }

    /// Returns the tree that holds what was committed. It is sound.
    pub fn tree(&self) -> &Tree
        ensures is { result.now ≡ self.now }
        ensures sound { IsState self.now.nodes (last self.now) }
    {
        // Nothing is kept beside these: with one field more this would not compile.
        let Engine {
            alloc: _alloc,
            tree,
            clock: _clock,
        } = self;
        // Who reads a tree knows that it is sound.
        let _view = tree.current();
        tree
    }

    /// Returns what a transaction that begins now sees: all that was committed, whatever is
    /// committed later. `Memory` where it runs out.
    pub fn begin(&self) -> Mem<View>
        ensures ok { IfOk result (λ v. v ≡ self.now) }
        ensures err { OnlyMemory result }
    {
        self.tree.view()
    }

    /// Ends a transaction of these tables and this start with these net changes, by this reading of
    /// the clock, and answers its instant, none where it changed nothing. `Conflict` with the least
    /// of its keys that was changed after its start, and the latest instant that changed it: of a
    /// table with a period of application time, with the least of its entities, and the latest
    /// instant that changed any key of that entity. `ClockEnd` where no instant is left. After a
    /// refusal nothing has changed.
    pub fn commit(
        &mut self,
        schema: &Schema,
        start: Instant,
        net: KeyedNet,
        reading: Instant,
    ) -> Result<Option<Instant>, Refusal>
        ensures outcome { (m : Changes)
            → Holds schema.now self.old m → AreKeysIn schema.now net
            → result ≢ Err Refusal.Memory
            → result ≡ outcome (periods_of schema.now) m (last self.old) start net reading }
        ensures committed { IfOk result (λ end. IfSome end (λ instant.
            Adds instant net self.old self.new)) }
        ensures holds { IfOk result (λ end. IfSome end (λ instant. (schema : Schema) (m : Changes)
            → Holds schema self.old m → AreKeysIn schema net
            → Holds schema self.new (add_net instant m net))) }
        ensures later { IfOk result (λ end. IfSome end (λ instant. last self.old < instant)) }
        ensures history { KeepsHistory self.old.nodes self.new.nodes }
        ensures splits { IfOk result (λ end. IfSome end (λ instant.
            SplitsByNeed instant net self.old self.new)) }
        ensures nothing { IfOk result (λ end. IfNone end (self.new ≡ self.old)) }
        ensures refused { OnErr result (self.new ≡ self.old) }
    {
        match self.outcome(schema, start, &net, reading) {
            Ok(Some(instant)) => match self.add(instant, net) {
                Ok(()) => Ok(Some(instant)),
                Err(refusal) => Err(refusal),
            },
            Ok(None) => Ok(None),
            Err(refusal) => Err(refusal),
        }
    }

    /// Tells how a transaction of these tables and this start with these net changes would end now,
    /// by this reading of the clock: what `commit` answers. Nothing has changed.
    pub fn validate(
        &self,
        schema: &Schema,
        start: Instant,
        net: &KeyedNet,
        reading: Instant,
    ) -> Result<Option<Instant>, Refusal>
        ensures outcome { (m : Changes)
            → Holds schema.now self.now m → AreKeysIn schema.now net.now
            → result ≢ Err Refusal.Memory
            → result ≡ outcome (periods_of schema.now) m (last self.now) start net.now reading }
        ensures later { IfOk result (λ end. IfSome end (λ instant. last self.now < instant)) }
        ensures in_range { IfOk result (λ end. IfSome end (λ instant. instant ≤ max_instant)) }
        ensures some { IfOk result (λ end. IfSome end (λ _. 0 < length net.now)) }
    {
        self.outcome(schema, start, net, reading)
    }

    /// Splits the current data node of a key, where its cut lies inside the node and is no instant
    /// after the last commit; else, and where memory runs out, nothing has changed.
    pub fn split(&mut self, cut: &Cut) -> Mem<bool>
        ensures same { HoldsSame self.old self.new }
        ensures split { IfOk result (IsSplit cut.now self.old self.new) }
        ensures history { KeepsHistory self.old.nodes self.new.nodes }
        ensures err { OnErr result (self.new ≡ self.old) }
        ensures memory { OnlyMemory result }
    {
        match cut {
            Cut::Key(key) => self.tree.key_split(key),
            Cut::Time(key, instant) => self.tree.time_split(key, *instant),
        }
    }

    /// Puts a block in the place of its node, where that is in the tree unpacked: one of the same
    /// rectangle and the same events. False where there is none; then, and where memory runs out,
    /// nothing has changed.
    pub fn install(&mut self, packed: PackedNode) -> Mem<bool>
        ensures same { HoldsSame self.old self.new }
        ensures installed { IfOk result (λ done. IsInstalled done self.old self.new packed) }
        ensures past { KeepsPast self.old.nodes self.new.nodes }
        ensures err { OnErr result (self.new ≡ self.old) }
        ensures memory { OnlyMemory result }
    {
        let (node, block) = packed.into_parts();
        self.tree.install(&node, block)
    }

    /// Keeps a copy of a data node, which was made at an instant, if no change has come to the node
    /// since: the next one is written into the copy. Else the copy is given back. Nothing else has
    /// changed.
    pub fn take_copy(&mut self, copy: LeafCopy, instant: Instant) -> Option<LeafCopy>
        requires { IsCopyOf self.old instant copy }
        ensures { self.new ≡ self.old }
    {
        self.tree.take_copy(copy, instant)
    }

    /// Adds net changes at an instant after the last, as `validate` answers it. Only nodes that
    /// they overfill are split. Where memory runs out nothing has changed.
    pub fn add(&mut self, instant: Instant, net: KeyedNet) -> Mem<()>
        requires later { last self.old < instant }
        requires in_range { instant ≤ max_instant }
        requires some { 0 < length net }
        ensures ok { OnOk result (Adds instant net self.old self.new) }
        ensures holds { OnOk result ((schema : Schema) (m : Changes)
            → Holds schema self.old m → AreKeysIn schema net
            → Holds schema self.new (add_net instant m net)) }
        ensures history { KeepsHistory self.old.nodes self.new.nodes }
        ensures splits { OnOk result (SplitsByNeed instant net self.old self.new) }
        ensures err { OnErr result (self.new ≡ self.old) }
        ensures memory { OnlyMemory result }
    {
        let events = net.into_events(instant)?;
        self.tree.apply(instant, events)?;
        self.clock.advance(instant);
        Ok(())
    }

    /// Tells how a transaction ends.
    fn outcome(
        &self,
        schema: &Schema,
        start: Instant,
        net: &KeyedNet,
        reading: Instant,
    ) -> Result<Option<Instant>, Refusal>
        ensures outcome { (m : Changes)
            → Holds schema.now self.now m → AreKeysIn schema.now net.now
            → result ≢ Err Refusal.Memory
            → result ≡ outcome (periods_of schema.now) m (last self.now) start net.now reading }
        ensures later { IfOk result (λ end. IfSome end (λ instant. last self.now < instant)) }
        ensures in_range { IfOk result (λ end. IfSome end (λ instant. instant ≤ max_instant)) }
        ensures some { IfOk result (λ end. IfSome end (λ _. 0 < length net.now)) }
    {
        if net.changes().is_empty() {
            return Ok(None);
        }
        let conflict = first_conflict(self.alloc, schema, self.tree.current(), start, net)?;
        self.end(conflict, reading)
    }

    /// Tells how a transaction with net changes ends, by its first conflict.
    fn end(
        &self,
        conflict: Option<(Key, Instant)>,
        reading: Instant,
    ) -> Result<Option<Instant>, Refusal>
        ensures is { result ≡ end_by (last self.now) reading conflict }
        ensures later { IfOk result (λ end. IfSome end (λ instant. last self.now < instant)) }
        ensures in_range { IfOk result (λ end. IfSome end (λ instant. instant ≤ max_instant)) }
    {
        match conflict {
            Some((unit, instant)) => Err(Refusal::Conflict(unit, instant)),
            None => match self.clock.next(reading) {
                Ok(instant) => Ok(Some(instant)),
                Err(refusal) => Err(refusal),
            },
        }
    }
}
