//! Whether nodes are equal, down to each row and each reference. None of it takes memory.
ghost use Rattle.std.specs.Prelude.{◌≡◌, ◌↔◌, IsTrue, option_copied};
ghost use Rattle.treenodes.specs.Node.{rect_of, content_of, packed_of};

use datanode::DataNode;
use indexnode::{IndexNode, Reference};
use keyrange::Rect;
use treenodes::{Child, Nodes, Slot};
use values::{Event, Row, SharedEvent, Value};

/// What can be compared as a whole.
pub(crate) trait Same {
    fn is_same(&self, other: &Self) -> bool
        ensures { IsTrue result ↔ (self.now ≡ other.now) };
}

/// Whether two lists have equal items at the same places.
fn are_same<T: Same>(first: &[T], second: &[T]) -> bool
    ensures { IsTrue result ↔ (first.now ≡ second.now) }
{
    if first.len() != second.len() {
        return false;
    }
    for (place, one) in first.iter().enumerate() {
        if !one.is_same(&second[place]) {
            return false;
        }
    }
    true
}

/// Nodes at the same numbers.
impl Same for Nodes {
    fn is_same(&self, other: &Nodes) -> bool {
        if self.len() != other.len() {
            return false;
        }
        for number in 0..self.len() {
            if !self.at(number).is_same(other.at(number)) {
                return false;
            }
        }
        true
    }
}

impl Same for Slot {
    fn is_same(&self, other: &Slot) -> bool {
        self.level() == other.level() && is_same_child(self.child(), other.child())
    }
}

fn is_same_child(first: &Child, second: &Child) -> bool
    ensures { IsTrue result
        ↔ ((rect_of first.now ≡ rect_of second.now)
        × (content_of first.now ≡ content_of second.now)
        × (packed_of first.now ≡ packed_of second.now)) }
{
    match (first, second) {
        (Child::Data(one), Child::Data(other)) => one.is_same(other),
        (Child::Packed(one), Child::Packed(other)) => one.is_same(other),
        (Child::Index(one), Child::Index(other)) => is_same_index(one, other),
        _ => false,
    }
}

fn is_same_index(first: &IndexNode<usize>, second: &IndexNode<usize>) -> bool
    ensures { IsTrue result
        ↔ ((first.now.rect ≡ second.now.rect)
        × (first.now.references.items ≡ second.now.references.items)) }
{
    first.rect().is_same(second.rect()) && are_same(first.references(), second.references())
}

impl Same for DataNode {
    fn is_same(&self, other: &DataNode) -> bool {
        self.rect().is_same(other.rect()) && are_same(self.events(), other.events())
    }
}

impl Same for Reference<usize> {
    fn is_same(&self, other: &Reference<usize>) -> bool {
        self.rect.is_same(&other.rect) && self.child == other.child
    }
}

impl Same for Rect {
    fn is_same(&self, other: &Rect) -> bool {
        self == other
    }
}

impl Same for SharedEvent {
    fn is_same(&self, other: &SharedEvent) -> bool {
        is_same_event(self.event(), other.event())
    }
}

fn is_same_event(first: &Event, second: &Event) -> bool
    ensures { IsTrue result ↔ (first.now ≡ second.now) }
{
    first.key() == second.key()
        && first.at() == second.at()
        && is_same_row(first.row(), second.row())
}

fn is_same_row(first: Option<&Row>, second: Option<&Row>) -> bool
    ensures { IsTrue result ↔ (option_copied first.entry ≡ option_copied second.entry) }
{
    match (first, second) {
        (None, None) => true,
        (Some(one), Some(other)) => are_same(one.values(), other.values()),
        _ => false,
    }
}

impl Same for Value {
    fn is_same(&self, other: &Value) -> bool {
        self == other
    }
}
