//! A node with its level, which several lists share.
ghost use Rattle.std.specs.Prelude.{◌≡◌, ℕ, IfOk, OnOk, OnErr, None, IsTrue};
ghost use Rattle.values.specs.Memory.{OnlyMemory};
ghost use Rattle.keyrange.specs.Rect.{IsArea};
ghost use Rattle.treenodes.specs.Node.{seen, rect_of, content_of, IsDataNode, IsIndexNode};
ghost use Rattle.treenodes.specs.Backlog.{is_unpacked};
ghost use Rattle.treenodes.specs.Event.{AcceptsEvent, with_put};

use blocks::Block;
use datanode::DataNode;
use indexnode::IndexNode;
use keyrange::Rect;
use slots::{Share, Update};
use std::alloc::Global;
use std::marker::Model;
use std::sync::Arc;
use values::{Event, Mem};

/// A data node, as it is or as its block, or an index node whose references name nodes one level
/// down.
#[derive(Drop)]
pub enum Child {
    Data(DataNode),
    Packed(Block),
    Index(IndexNode<usize>),
}

/// What is at a number: a node and its level, counted from the data nodes up. A share of it is the
/// same node.
#[derive(Drop)]
pub struct Slot {
    level: usize,
    child: Arc<Child>,
}

impl Model for Slot {
    ghost use Rattle.treenodes.specs.Node.{TreeNode};

    ghost Value = { TreeNode };

    ghost use Rattle.treenodes.specs.Node.{seen};

    ghost view = { λ s. seen s.level s.child.value };
}

impl Child {
    /// Returns the rectangle of keys and time that the node covers.
    pub fn rect(&self) -> &Rect
        ensures rect { result.now ≡ rect_of self.now }
        ensures area { IsArea result.now }
    {
        match self {
            Child::Data(node) => node.rect(),
            Child::Packed(block) => block.rect(),
            Child::Index(node) => node.rect(),
        }
    }

    /// The data node, which is current: a packed one has ended.
    fn current(&self) -> &DataNode
        requires data { IsDataNode (content_of self.now) }
        requires current { (rect_of self.now).time.to ≡ None }
        ensures { self.now ≡ Child.Data result.now }
    {
        match self {
            Child::Data(node) => node,
            Child::Packed(block) => {
                let _rect = block.rect();
                unreachable!()
            }
            Child::Index(_) => unreachable!(),
        }
    }

    /// Puts an event into a data node. Where memory runs out nothing has changed.
    fn put(&mut self, event: Event) -> Mem<()>
        requires { AcceptsEvent (seen 0 self.old) event }
        ensures ok { OnOk result ((level : ℕ) →
            seen level self.new ≡ with_put (seen level self.old) event) }
        ensures err { OnErr result (self.new ≡ self.old) }
        ensures memory { OnlyMemory result }
    {
        match self {
            Child::Data(node) => node.put(event),
            Child::Packed(block) => {
                let _rect = block.rect();
                unreachable!()
            }
            Child::Index(_) => unreachable!(),
        }
    }
}

impl Slot {
    /// Puts a node of a level, 0 for data nodes, where it can be shared. `Memory` where it runs
    /// out.
    pub fn new(alloc: Global, level: usize, child: Child) -> Mem<Slot>
        ensures ok { IfOk result (λ s. s ≡ seen level child) }
        ensures err { OnlyMemory result }
    {
        let child = Arc::new(alloc, child)?;
        Ok(Slot { level, child })
    }

    /// Returns the level of the node: 0 for a data node, one more for each index node above.
    pub fn level(&self) -> usize
        ensures { result ≡ self.now.level }
    {
        self.level
    }

    /// Returns the node: a data node, its block, or an index node.
    pub fn child(&self) -> &Child
        ensures { self.now ≡ seen self.now.level result.now }
    {
        &self.child
    }

    /// Returns the child of a current node, which is not packed.
    pub(crate) fn current_child(&self) -> &Child
        requires { self.now.rect.time.to ≡ None }
        ensures is { self.now ≡ seen self.now.level result.now }
        ensures unpacked { self.now.packed ≡ None }
    {
        let child = self.child();
        if let Child::Packed(block) = child {
            // Who asks for the rectangle knows that the node has ended.
            let _rect = block.rect();
            unreachable!()
        }
        child
    }

    /// Returns the current data node that is here.
    pub fn current(&self) -> &DataNode
        requires data { IsDataNode self.now.content }
        requires current { self.now.rect.time.to ≡ None }
        ensures { self.now ≡ seen self.now.level (Child.Data result.now) }
    {
        self.child().current()
    }

    /// Returns the index node that is here.
    pub fn index(&self) -> &IndexNode<usize>
        requires { IsIndexNode self.now.content }
        ensures { self.now ≡ seen self.now.level (Child.Index result.now) }
    {
        match self.child() {
            Child::Index(node) => node,
            Child::Data(_) | Child::Packed(_) => unreachable!(),
        }
    }

    /// Tells whether a data node of history is here that is not packed.
    pub fn is_unpacked(&self) -> bool
        ensures { result ≡ is_unpacked self.now }
    {
        match self.child() {
            Child::Data(node) => node.rect().time().to.is_some(),
            Child::Packed(_) | Child::Index(_) => false,
        }
    }

    /// Returns the data node of history that is here unpacked.
    pub fn data_node(&self) -> &DataNode
        requires { IsTrue (is_unpacked self.now) }
        ensures { self.now ≡ seen self.now.level (Child.Data result.now) }
    {
        match self.child() {
            Child::Data(node) => node,
            Child::Packed(_) | Child::Index(_) => unreachable!(),
        }
    }
}

impl Share for Slot {
    fn share(&self) -> Mem<Slot> {
        let child = Arc::try_clone(&self.child)?;
        Ok(Slot {
            level: self.level,
            child,
        })
    }
}

/// A data node with an event, beside one that stays as it is.
fn copy_with(node: &DataNode, event: Event) -> Mem<Child>
    requires { AcceptsEvent (seen 0 (Child.Data node.now)) event }
    ensures ok { IfOk result (λ child. (level : ℕ) →
        seen level child ≡ with_put (seen level (Child.Data node.now)) event) }
    ensures err { OnlyMemory result }
{
    let mut child = Child::Data(node.copy()?);
    child.put(event)?;
    Ok(child)
}

/// An event is put into a data node, in place where nobody shares the node.
impl Update<Event> for Slot {
    ghost can_update = { AcceptsEvent };

    ghost updated = { with_put };

    fn update(&mut self, alloc: Global, event: Event) -> Mem<()> {
        if let Some(child) = Arc::get_mut(&mut self.child) {
            return child.put(event);
        }
        let child = copy_with(self.current(), event)?;
        self.child = Arc::new(alloc, child)?;
        Ok(())
    }
}
