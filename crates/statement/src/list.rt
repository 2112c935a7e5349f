//! Lists of items, with a symbol between them.
ghost use Rattle.std.specs.Prelude.{◌≡◌};
ghost use Rattle.statement.specs.List.{MakesList, list_at, enclosed_at};

use crate::token::Blanks;
use std::alloc::Global;
use tokens::{After, Made, symbol_at};

/// What a list is a list of.
pub trait Item {
    ghost use Rattle.std.specs.Prelude.{ℕ, List};
    ghost use Rattle.tokens.specs.Token.{After, Read, Leaves, Makes};

    type Value: Drop;

    ghost separator: { Self → List ℕ → After };

    ghost item: { Self → List ℕ → Read Self.Value };

    /// Reads what separates two items: the bytes after it.
    fn after_separator<'a>(&self, bytes: &'a [u8]) -> After<'a>
        ensures { Leaves result (separator self.now bytes.now) };

    /// Reads an item.
    fn item_at<'a>(&self, alloc: Global, bytes: &'a [u8]) -> Made<'a, Self::Value>
        ensures { Makes result (item self.now bytes.now) };
}

/// Reads one item or more.
pub fn list_at<'a, I: Item>(items: &I, alloc: Global, bytes: &'a [u8]) -> Made<'a, Vec<I::Value>>
    ensures { MakesList result (list_at (I.separator items.now) (I.item items.now) bytes.now) }
{
    let mut list = Vec::new(alloc);
    let (first, after) = items.item_at(alloc, bytes)?;
    list.push(first)?;
    let mut rest = after;
    // Each turn takes a byte at least.
    for _turn in after {
        let Ok(next) = items.after_separator(rest) else {
            break;
        };
        let (item, after_item) = items.item_at(alloc, next)?;
        list.push(item)?;
        rest = after_item;
    }
    Ok((list, rest))
}

/// Reads one item or more, in parentheses.
pub fn enclosed_at<'a, I: Item>(
    items: &I,
    alloc: Global,
    bytes: &'a [u8],
) -> Made<'a, Vec<I::Value>>
    ensures { MakesList result (enclosed_at (I.separator items.now) (I.item items.now) bytes.now) }
{
    let inside = symbol_at::<Blanks>(b'(', bytes)?;
    let (list, rest) = list_at(items, alloc, inside)?;
    let rest = symbol_at::<Blanks>(b')', rest)?;
    Ok((list, rest))
}
