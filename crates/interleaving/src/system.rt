//! The store, and the open transactions in it.
ghost use Rattle.std.specs.Prelude.{◌≡◌, IfOk};
ghost use Rattle.values.specs.Memory.{OnlyMemory};

use crate::alter::is_idle;
use std::alloc::Global;
use std::marker::Model;
use steps::MAX_SESSION;
use systime_query::BlockCache;
use transaction::OpenTransaction;
use treewalk::Shape;
use tsbtree::Tree;
use validation::Engine;
use values::{Mem, Schema};

/// How many sessions there are: they are numbered from 0.
pub(crate) const SESSIONS: usize = MAX_SESSION as usize + 1;

/// The store: what was committed, and the open transactions by their sessions' numbers.
#[derive(Drop)]
pub struct System {
    pub(crate) alloc: Global,
    pub(crate) schema: Schema,
    pub(crate) engine: Engine,
    pub(crate) sessions: Vec<Option<OpenTransaction>>,
    /// Unpacked blocks that were asked for last: no answer shows which.
    pub(crate) cache: BlockCache,
}

impl Model for System {
    ghost use Rattle.interleaving.specs.SystemState.{SystemState, IsSystem};

    ghost Value = { SystemState };

    ghost view = { λ s.
        record { schema = s.schema; engine = s.engine; sessions = s.sessions.items } };

    ghost invariant = { λ s. IsSystem s.schema s.engine s.sessions.items };
}

impl System {
    ghost use Rattle.std.specs.Prelude.{[]};
    ghost use Rattle.values.specs.Events.{events_of};
    ghost use Rattle.values.specs.Tables.{Schema};
    ghost use Rattle.steps.specs.Idle.{is_idle};
    ghost use Rattle.histories.specs.History.{History, has_open};
    ghost use Rattle.treewalk.specs.Shape.{IsShapeOf};
    ghost use Rattle.tsbtree.specs.View.{events, last, IsState};
    ghost use Rattle.staging.specs.View.{Holds};
    ghost use Rattle.interleaving.specs.SystemState.{Stands, changes_in, world};

    /// Makes a store in which nothing was committed: its tree is one node without events. `Memory`
    /// where it runs out.
    pub fn new(alloc: Global, schema: Schema) -> Mem<System>
        ensures empty { IfOk result (λ s. Stands schema s []) }
        ensures schema { IfOk result (λ s. s.schema ≡ schema) }
        ensures memory { OnlyMemory result }
    {
        let engine = Engine::new(alloc)?;
        let mut sessions = Vec::new(alloc);
        for _ in 0..SESSIONS {
            sessions.push(None)?;
        }
        Ok(System {
            alloc,
            schema,
            engine,
            sessions,
            cache: BlockCache::new(alloc),
        })
    }

    /// Returns the tree of what was committed. It holds the changes that contracts see, and nothing
    /// else.
    pub fn tree(&self) -> &Tree
        ensures is { result.now ≡ self.now.engine }
        ensures sound { IsState result.now.nodes (last result.now) }
        ensures holds { events result.now ≡ events_of (world self.now).changes }
    {
        let tree = self.engine.tree();
        // Who reads a tree knows that it is sound.
        let _view = tree.current();
        tree
    }

    /// Lists each node of the tree once: its level, its rectangle, and how much it holds. `Memory`
    /// where it runs out.
    pub fn shape(&self) -> Mem<Shape>
        ensures ok { IfOk result (λ s. IsShapeOf self.now.engine.nodes s.nodes.items) }
        ensures memory { OnlyMemory result }
    {
        self.engine.tree().current().shape(self.alloc)
    }

    /// Tells whether no session has a transaction open.
    pub fn is_idle(&self) -> bool
        ensures { (first : Schema) (h : History) → Stands first self.now h
            → result ≡ is_idle (has_open h) }
    {
        is_idle(&self.sessions)
    }

    /// Returns the tables and what was committed. Transactions that are open are let go.
    pub fn into_parts(self) -> (Schema, Engine)
        ensures schema { result.0 ≡ self.schema }
        ensures engine { result.1 ≡ self.engine }
        ensures holds { Holds self.schema self.engine
            (changes_in self.schema (events self.engine)) }
    {
        let System {
            alloc: _,
            schema,
            engine,
            sessions: _,
            cache: _,
        } = self;
        (schema, engine)
    }

    /// Returns the tables, with the columns that were added.
    pub fn schema(&self) -> &Schema
        ensures { result.now ≡ self.now.schema }
    {
        // Nothing is kept beside these: with one field more this would not compile.
        let System {
            alloc: _alloc,
            schema,
            engine: _engine,
            sessions: _sessions,
            cache: _cache,
        } = self;
        schema
    }
}
