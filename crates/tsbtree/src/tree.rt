//! What was committed, as it grows.
ghost use Rattle.std.specs.Prelude.{◌≡◌, ◌≤◌, ◌<◌, [], IfOk, IfSome, MatchOption, OnOk, OnErr, true, false};
ghost use Rattle.values.specs.Commits.{max_instant};
ghost use Rattle.values.specs.Memory.{OnlyMemory};
ghost use Rattle.keyrange.specs.Cut.{halves_by_key};
ghost use Rattle.treegrowth.specs.Commit.{IsCommit};
ghost use Rattle.treegrowth.specs.Leaves.{halves_upto};
ghost use Rattle.treegrowth.specs.Places.{SplitsOverfull};
ghost use Rattle.treenodes.specs.History.{KeepsHistory, KeepsPast};
ghost use Rattle.treenodes.specs.LeafCopy.{IsCopyIn};
ghost use Rattle.treewalk.specs.RangeChange.{event_since_in};
ghost use Rattle.tsbtree.specs.View.{events, last, IsEmpty, IsState};
ghost use Rattle.tsbtree.specs.Growth.{Adds, HoldsSame, IsSplitAt};
ghost use Rattle.tsbtree.specs.Packing.{IsInstalled};
ghost use Rattle.tsbtree.specs.Copy.{IsCopyOf};

use crate::packing::number_of_node;
use crate::view::View;
use blocks::Block;
use datanode::DataNode;
use keyrange::KeyRange;
use std::alloc::Global;
use std::marker::Model;
use treegrowth::{key_split, time_split, with_commit};
use treenodes::{LeafCopy, Nodes, leaf_alone, with_block, with_copy};
use values::{Event, Instant, KeyBytes, Mem};

/// The tree of all changes. A change makes new nodes aside and puts them in place at once, so views
/// stay as they are. Beside the nodes at most one copy of a data node is kept, which is equal to it: the
/// next commit changes the copy, which no view shares. Contracts see the nodes alone.
#[derive(Drop)]
pub struct Tree {
    alloc: Global,
    view: View,
    copy: Option<LeafCopy>,
}

impl Model for Tree {
    ghost use Rattle.tsbtree.specs.View.{TreeState};
    ghost use Rattle.std.specs.Prelude.{IfSome};
    ghost use Rattle.treenodes.specs.LeafCopy.{IsCopyIn};

    ghost Value = { TreeState };

    ghost view = { λ t. t.view };

    ghost invariant = { λ t. IfSome t.copy (IsCopyIn t.view.nodes) };
}

impl Tree {
    /// Makes the tree before the first commit: one data node, without events. `Memory` where it
    /// runs out.
    pub fn new(alloc: Global) -> Mem<Tree>
        ensures ok { IfOk result IsEmpty }
        ensures err { OnlyMemory result }
    {
        let view = View::of(alloc, leaf_alone(alloc)?, 0);
        Ok(Tree {
            alloc,
            view,
            copy: None,
        })
    }

    /// Returns what was committed until now, to be read.
    pub fn current(&self) -> &View
        ensures is { result.now ≡ self.now }
        ensures sound { IsState result.now.nodes (last result.now) }
    {
        // Nothing is kept beside these: with one field more this would not compile.
        let Tree {
            alloc: _alloc,
            view,
            copy: _copy,
        } = self;
        view.sound()
    }

    /// Returns what was committed until now, to be kept while the tree grows. `Memory` where it
    /// runs out.
    pub fn view(&self) -> Mem<View>
        ensures ok { IfOk result (λ v. v ≡ self.now) }
        ensures err { OnlyMemory result }
    {
        self.view.share()
    }

    /// Returns the latest instant above `start` at which a key of the range was changed, if there
    /// is one. `Memory` where it runs out.
    pub fn changed_in(&self, range: &KeyRange, start: Instant) -> Mem<Option<Instant>>
        ensures ok { IfOk result (λ i. i ≡ event_since_in (events self.now) start range.now) }
        ensures err { OnlyMemory result }
    {
        self.view.changed_in(range, start)
    }

    /// Adds the events of a commit at an instant after all others: by key, one for each key. Only
    /// nodes that they overfill are split. Without events, or where memory runs out, nothing has
    /// changed.
    pub fn apply(&mut self, instant: Instant, changes: Vec<Event>) -> Mem<()>
        requires later { last self.old < instant }
        requires in_range { instant ≤ max_instant }
        requires commit { IsCommit instant changes.items }
        ensures ok { OnOk result (Adds instant changes.items self.old self.new) }
        ensures history { KeepsHistory self.old.nodes self.new.nodes }
        ensures splits { OnOk result (
            SplitsOverfull changes.items [] self.old.nodes self.new.nodes) }
        ensures err { OnErr result (self.new ≡ self.old) }
        ensures memory { OnlyMemory result }
    {
        if changes.is_empty() {
            return Ok(());
        }
        let nodes = share_with(self.alloc, self.view.nodes(), self.copy.take())?;
        let nodes = with_commit(self.alloc, nodes, self.view.last(), instant, changes)?;
        self.view = View::of(self.alloc, nodes, instant);
        Ok(())
    }

    /// Keeps a copy of a data node, which was made at an instant, for the next commit, if no event has
    /// come to the node since; else it is given back. What was committed, and each node, is what it was.
    pub fn take_copy(&mut self, copy: LeafCopy, instant: Instant) -> Option<LeafCopy>
        requires { IsCopyOf self.old instant copy }
        ensures { self.new ≡ self.old }
    {
        if !copy.fits(self.view.nodes(), instant) {
            return Some(copy);
        }
        self.copy = Some(copy);
        None
    }

    /// Splits the current data node of a key there. False where the node begins at the key; then,
    /// and where memory runs out, nothing has changed.
    pub fn key_split(&mut self, key: &KeyBytes) -> Mem<bool>
        ensures same { HoldsSame self.old self.new }
        ensures split { IfOk result (
            IsSplitAt key.now (λ r. halves_by_key r key.now) self.old self.new) }
        ensures history { KeepsHistory self.old.nodes self.new.nodes }
        ensures err { OnErr result (self.new ≡ self.old) }
        ensures memory { OnlyMemory result }
    {
        let last = self.view.last();
        let nodes = key_split(self.alloc, self.view.nodes(), last, key)?;
        Ok(self.put(nodes, last))
    }

    /// Splits the current data node of a key at an instant. False where the instant is not after
    /// the node's start, or after the last commit; then, and where memory runs out, nothing has
    /// changed.
    pub fn time_split(&mut self, key: &KeyBytes, instant: Instant) -> Mem<bool>
        ensures same { HoldsSame self.old self.new }
        ensures split { IfOk result (
            IsSplitAt key.now (λ r. halves_upto (last self.old) r instant) self.old self.new) }
        ensures history { KeepsHistory self.old.nodes self.new.nodes }
        ensures err { OnErr result (self.new ≡ self.old) }
        ensures memory { OnlyMemory result }
    {
        let last = self.view.last();
        let nodes = time_split(self.alloc, self.view.nodes(), last, key, instant)?;
        Ok(self.put(nodes, last))
    }

    /// Puts a block in the place of its node, where that is unpacked: one of the same rectangle and
    /// the same events. False where there is none; then, and where memory runs out, nothing has
    /// changed.
    pub fn install(&mut self, node: &DataNode, block: Block) -> Mem<bool>
        requires { block.node ≡ node.now }
        ensures same { HoldsSame self.old self.new }
        ensures installed { IfOk result (λ done. IsInstalled done self.old self.new block) }
        ensures past { KeepsPast self.old.nodes self.new.nodes }
        ensures err { OnErr result (self.new ≡ self.old) }
        ensures memory { OnlyMemory result }
    {
        // A block is of a node that has ended.
        let _rect = block.rect();
        let last = self.view.last();
        let Some(number) = number_of_node(self.view.nodes(), node) else {
            return Ok(false);
        };
        let nodes = self.view.nodes().share()?;
        let nodes = with_block(self.alloc, nodes, number, block)?;
        self.copy = None;
        self.view = View::of(self.alloc, nodes, last);
        Ok(true)
    }

    /// Puts nodes in place, where there are some, and tells whether there are.
    fn put(&mut self, nodes: Option<Nodes>, last: Instant) -> bool
        requires { IfSome nodes (λ s. IsState s last) }
        ensures { MatchOption nodes
            ((result ≡ false) × (self.new ≡ self.old))
            (λ s. (result ≡ true) × (self.new ≡ record { nodes = s; latest = last })) }
    {
        match nodes {
            None => false,
            Some(nodes) => {
                self.copy = None;
                self.view = View::of(self.alloc, nodes, last);
                true
            }
        }
    }
}

/// A share of the nodes, with a copy in the place of its node, where there is one. `Memory` where it
/// runs out.
fn share_with(alloc: Global, nodes: &Nodes, copy: Option<LeafCopy>) -> Mem<Nodes>
    requires { IfSome copy (IsCopyIn nodes.now) }
    ensures ok { IfOk result (λ s. s ≡ nodes.now) }
    ensures err { OnlyMemory result }
{
    let nodes = nodes.share()?;
    match copy {
        None => Ok(nodes),
        Some(copy) => with_copy(alloc, nodes, copy),
    }
}
