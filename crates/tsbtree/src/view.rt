//! What was committed until an instant.
ghost use Rattle.std.specs.Prelude.{◌≡◌, ◌↔◌, ◌≤◌, ◌&&◌, All, IfOk, IfSome, IsTrue, MatchOption, filter, is_some, option_copied};
ghost use Rattle.std.specs.List.Sorted.{IsStrictlySortedBy};
ghost use Rattle.values.specs.Commits.{max_instant};
ghost use Rattle.values.specs.Events.{event_cmp, is_bytes, row_until, event_since};
ghost use Rattle.values.specs.Memory.{OnlyMemory};
ghost use Rattle.keyrange.specs.Range.{is_key_in};
ghost use Rattle.eventlist.specs.Listing.{events_in, is_in_window, standing};
ghost use Rattle.datanode.specs.Node.{Node};
ghost use Rattle.blocks.specs.Block.{HasBlock};
ghost use Rattle.treenodes.specs.Node.{TreeNode, data_node};
ghost use Rattle.treenodes.specs.Backlog.{IsFirstWaiting, IsWaiting};
ghost use Rattle.treenodes.specs.LeafCopy.{IsCopyIn};
ghost use Rattle.treenodes.specs.Sound.{IsSound};
ghost use Rattle.treenodes.specs.Tree.{IsTree};
ghost use Rattle.datanode.specs.NextChange.{event_after};
ghost use Rattle.treewalk.specs.RangeChange.{event_since_in};
ghost use Rattle.treewalk.specs.Shape.{IsShapeOf};
ghost use Rattle.tsbtree.specs.View.{events, last, visits, IsState};
ghost use Rattle.tsbtree.specs.Leaf.{IsLeafOf};
ghost use Rattle.tsbtree.specs.Packing.{IsHistorical};

use crate::packing::number_of;
use crate::same::Same;
use blocks::{Blocks, InPlace};
use datanode::DataNode;
use keyrange::{KeyRange, Rect};
use std::alloc::Global;
use std::marker::Model;
use treenodes::{Child, LeafCopy, Nodes, leaf_at};
use treewalk::{
    Shape, changed_in, changed_since, events, has_row_in, key_window, next_change, row_in,
    standing, tree_shape,
};
use values::{Instant, KeyBytes, Mem, Row, SharedEvent};

/// The nodes of a tree as they were at one time. A view never changes; what it holds is shared with
/// the tree.
#[derive(Drop)]
pub struct View {
    alloc: Global,
    nodes: Nodes,
    last: Instant,
}

impl Model for View {
    ghost use Rattle.tsbtree.specs.View.{TreeState, IsState};

    ghost Value = { TreeState };

    ghost view = { λ v. record { nodes = v.nodes; latest = v.last } };

    ghost invariant = { λ v. IsState v.nodes v.last };
}

impl View {
    pub(crate) fn of(alloc: Global, nodes: Nodes, last: Instant) -> View
        requires { IsState nodes last }
        ensures { result ≡ record { nodes = nodes; latest = last } }
    {
        View { alloc, nodes, last }
    }

    /// Returns the view, whose nodes are a sound tree.
    pub fn sound(&self) -> &View
        ensures is { result.now ≡ self.now }
        ensures sound { IsState self.now.nodes (last self.now) }
    {
        // Who looks inside knows what is true of every view.
        let _last = self.last;
        self
    }

    /// Returns the nodes, which are a sound tree.
    pub(crate) fn nodes(&self) -> &Nodes
        ensures are { result.now ≡ self.now.nodes }
        ensures sound { IsSound result.now (last self.now) }
    {
        // Nothing is kept beside these: with one field more this would not compile.
        let View {
            alloc: _alloc,
            nodes,
            last: _last,
        } = self;
        nodes
    }

    /// Returns the instant of the last commit, 0 where there is none.
    pub fn last(&self) -> Instant
        ensures last { result ≡ last self.now }
        ensures in_range { result ≤ max_instant }
        ensures upto { All (λ e. e.at ≤ result) (events self.now) }
        ensures ordered { IsStrictlySortedBy event_cmp (events self.now) }
    {
        self.last
    }

    /// Returns the same view, without copying a node. `Memory` where it runs out.
    pub fn share(&self) -> Mem<View>
        ensures ok { IfOk result (λ v. v ≡ self.now) }
        ensures err { OnlyMemory result }
    {
        Ok(View {
            alloc: self.alloc,
            nodes: self.nodes.share()?,
            last: self.last,
        })
    }

    /// Tells whether two views hold equal nodes at the same numbers.
    pub fn same(&self, other: &View) -> bool
        ensures { IsTrue result ↔ (self.now ≡ other.now) }
    {
        self.nodes.is_same(&other.nodes)
    }

    /// Returns a key's row at an instant, which is that of its last event at the instant or before
    /// it, and how many nodes were visited. `Memory` where it runs out.
    pub fn get(&self, key: &KeyBytes, instant: Instant) -> Mem<(Option<Row>, usize)>
        ensures row { IfOk result (λ found. found.0 ≡ row_until (events self.now) key.now instant) }
        ensures visits { IfOk result (λ found. found.1 ≡ visits self.now instant) }
        ensures err { OnlyMemory result }
    {
        let nodes = self.nodes();
        if instant == 0 {
            return Ok((None, 0));
        }
        let (number, visits) = leaf_at(nodes, key, instant);
        let row = row_in(self.alloc, nodes.at(number).child(), key, instant)?;
        Ok((row, visits))
    }

    /// Tells whether a key has a row at an instant. Of a node no row is made, of a block one.
    /// `Memory` where it runs out.
    pub fn has_row(&self, key: &KeyBytes, instant: Instant) -> Mem<bool>
        ensures ok { IfOk result (λ b. b
            ≡ is_some (row_until (events self.now) key.now instant)) }
        ensures err { OnlyMemory result }
    {
        let nodes = self.nodes();
        if instant == 0 {
            return Ok(false);
        }
        let (number, _visits) = leaf_at(nodes, key, instant);
        let is_there = has_row_in(self.alloc, nodes.at(number).child(), key, instant)?;
        Ok(is_there)
    }

    /// Copies the current data node of a key, for a commit that changes it. `Memory` where it runs out.
    pub fn leaf_copy(&self, key: &KeyBytes) -> Mem<LeafCopy>
        ensures ok { IfOk result (IsCopyIn self.now.nodes) }
        ensures err { OnlyMemory result }
    {
        LeafCopy::new(self.nodes(), key)
    }

    /// Returns the instant of a key's last event above `start`, if there is one.
    pub fn changed_since(&self, key: &KeyBytes, start: Instant) -> Option<Instant>
        ensures { result ≡ event_since (events self.now) start key.now }
    {
        changed_since(&self.nodes, key, start)
    }

    /// Returns the latest instant above `start` at which a key of the range was changed, if there
    /// is one. The keys of a range may be changed in any order, so it is the latest of all of them.
    /// A block that is in question is read in place. `Memory` where it runs out.
    pub fn changed_in(&self, range: &KeyRange, start: Instant) -> Mem<Option<Instant>>
        ensures ok { IfOk result (λ i. i ≡ event_since_in (events self.now) start range.now) }
        ensures err { OnlyMemory result }
    {
        changed_in(self.alloc, &self.nodes, range, start)
    }

    /// Returns the instant of a key's first event above `after`, if there is one: there ends what
    /// holds at `after`. It takes no memory.
    pub fn next_change(&self, key: &KeyBytes, after: Instant) -> Option<Instant>
        ensures { result ≡ event_after (events self.now) after key.now }
    {
        next_change(&self.nodes, key, after)
    }

    /// Lists the events of a range of keys, from an instant to another and with it, by key and then
    /// by instant. Each block that is in question is read in place. `Memory` where it runs out.
    pub fn events(
        &self,
        alloc: Global,
        range: &KeyRange,
        from: Instant,
        to: Instant,
    ) -> Mem<Vec<SharedEvent>>
        ensures ok { IfOk result (λ v. v.items ≡ events_in (events self.now) range.now from to) }
        ensures sorted { IfOk result (λ v. IsStrictlySortedBy event_cmp v.items) }
        ensures err { OnlyMemory result }
    {
        self.events_with(alloc, &mut InPlace::new(alloc), range, from, to)
    }

    /// Lists events like [`View::events`], where the events of blocks are given. `Memory` where it
    /// runs out.
    pub fn events_with<B: Blocks>(
        &self,
        alloc: Global,
        blocks: &mut B,
        range: &KeyRange,
        from: Instant,
        to: Instant,
    ) -> Mem<Vec<SharedEvent>>
        ensures ok { IfOk result (λ v. v.items ≡ events_in (events self.now) range.now from to) }
        ensures sorted { IfOk result (λ v. IsStrictlySortedBy event_cmp v.items) }
        ensures err { OnlyMemory result }
    {
        events(alloc, blocks, &self.nodes, range, from, to)
    }

    /// Lists a key's events by instant: the one whose row holds at the first instant, and those
    /// after it up to the last and with it. Of blocks the events of a range are given that has the
    /// key. `Memory` where it runs out.
    pub fn key_window<B: Blocks>(
        &self,
        alloc: Global,
        blocks: &mut B,
        key: &KeyBytes,
        range: &KeyRange,
        first: Instant,
        last: Instant,
    ) -> Mem<Vec<SharedEvent>>
        requires { IsTrue (is_key_in range.now key.now) }
        ensures ok { IfOk result (λ v. v.items
            ≡ filter (λ e. is_in_window (events self.now) first last e && is_bytes key.now e.key)
            (events self.now)) }
        ensures ordered { IsStrictlySortedBy event_cmp (events self.now) }
        ensures err { OnlyMemory result }
    {
        key_window(alloc, blocks, &self.nodes, key, range, first, last)
    }

    /// Lists by key, of each key of a range, the event that shows its row at an instant, where it
    /// has one. Each block that is in question is read in place. `Memory` where it runs out.
    pub fn standing(
        &self,
        alloc: Global,
        range: &KeyRange,
        instant: Instant,
    ) -> Mem<Vec<SharedEvent>>
        ensures ok { IfOk result (λ v. v.items
            ≡ standing (events self.now) (is_key_in range.now) instant) }
        ensures sorted { IfOk result (λ v. IsStrictlySortedBy event_cmp v.items) }
        ensures ordered { IsStrictlySortedBy event_cmp (events self.now) }
        ensures err { OnlyMemory result }
    {
        self.standing_with(alloc, &mut InPlace::new(alloc), range, instant)
    }

    /// Lists rows like [`View::standing`], where the events of blocks are given. `Memory` where it
    /// runs out.
    pub fn standing_with<B: Blocks>(
        &self,
        alloc: Global,
        blocks: &mut B,
        range: &KeyRange,
        instant: Instant,
    ) -> Mem<Vec<SharedEvent>>
        ensures ok { IfOk result (λ v. v.items
            ≡ standing (events self.now) (is_key_in range.now) instant) }
        ensures sorted { IfOk result (λ v. IsStrictlySortedBy event_cmp v.items) }
        ensures ordered { IsStrictlySortedBy event_cmp (events self.now) }
        ensures err { OnlyMemory result }
    {
        standing(alloc, blocks, &self.nodes, range, instant)
    }

    /// Lists each node once: its level, its rectangle, and how much it holds. `Memory` where it
    /// runs out.
    pub fn shape(&self, alloc: Global) -> Mem<Shape>
        ensures ok { IfOk result (λ s. IsShapeOf self.now.nodes s.nodes.items) }
        ensures err { OnlyMemory result }
    {
        tree_shape(alloc, &self.nodes)
    }

    /// Returns the data node whose rectangle has the point of a key and an instant: as it is, or
    /// its block.
    pub fn leaf(&self, key: &KeyBytes, instant: Instant) -> &Child
        requires { 1 ≤ instant }
        ensures { IsLeafOf self.now key.now instant result.now }
    {
        let (number, _visits) = leaf_at(&self.nodes, key, instant);
        self.nodes.at(number).child()
    }

    /// Returns the first data node of history that is not packed: by the start of its time, then by
    /// its lower key. After a rectangle it is the first that comes behind that one. No two data
    /// nodes start at one point. It takes no memory.
    pub fn first_unpacked(&self, after: Option<&Rect>) -> Option<&DataNode>
        ensures first { MatchOption result
            ((p : TreeNode) → IsWaiting self.now.nodes (option_copied after.entry) p → ⊥)
            (λ n. IsFirstWaiting self.now.nodes (option_copied after.entry) (data_node n.now)) }
        ensures block { IfSome result (λ n. HasBlock n.now) }
        ensures tree { IsTree self.now.nodes }
    {
        match self.nodes().first_unpacked(after) {
            None => None,
            Some(slot) => Some(slot.data_node()),
        }
    }

    /// Returns the data node of history of a rectangle, where it is not packed. It takes no memory.
    pub fn historical(&self, rect: &Rect) -> Option<&DataNode>
        ensures { MatchOption result
            ((n : Node) → IsHistorical self.now.nodes rect.now n → ⊥)
            (λ n. IsHistorical self.now.nodes rect.now n.now) }
    {
        match number_of(self.nodes(), rect) {
            None => None,
            Some(number) => Some(self.nodes.at(number).data_node()),
        }
    }
}
