//! The rectangles of what was asked for and has not come.
ghost use Rattle.std.specs.Prelude.{◌≡◌, ◌<◌, ◌++◌, ◌∷◌, [], IfSome, OnErr, OnOk, Some, length, slice_get};
ghost use Rattle.std.specs.List.Sorted.{IsPermutation};
ghost use Rattle.keyrange.specs.Rect.{Area};

use keyrange::Rect;
use std::alloc::{AllocError, Global};
use std::marker::Model;

/// Rectangles of which results are to come.
#[derive(Drop)]
pub(crate) struct RequestList {
    rects: Vec<Rect>,
}

impl Model for RequestList {
    ghost use Rattle.std.specs.Prelude.{List};
    ghost use Rattle.keyrange.specs.Rect.{Area};

    ghost Value = { List Area };

    ghost view = { λ a. a.rects.items };
}

impl RequestList {
    /// Makes an empty list.
    pub(crate) fn new(alloc: Global) -> RequestList
        ensures { result ≡ [] }
    {
        RequestList {
            rects: Vec::new(alloc),
        }
    }

    /// Returns the number of rectangles.
    pub(crate) fn len(&self) -> usize
        ensures { result ≡ length self.now }
    {
        self.rects.len()
    }

    /// Adds a rectangle at the end.
    pub(crate) fn push(&mut self, rect: Rect) -> Result<(), AllocError>
        ensures ok { OnOk result (self.new ≡ self.old ++ rect ∷ []) }
        ensures err { OnErr result (self.new ≡ self.old) }
    {
        self.rects.push(rect).map_err(AllocError::from)
    }

    /// Returns the place of a rectangle, if it is in the list.
    pub(crate) fn place_of(&self, rect: &Rect) -> Option<usize>
        ensures { IfSome result (λ place. slice_get self.now place ≡ Some rect.now) }
    {
        for (place, asked) in self.rects.iter().enumerate() {
            if *asked == *rect {
                return Some(place);
            }
        }
        None
    }

    /// Removes the rectangle at a place.
    pub(crate) fn remove(&mut self, place: usize)
        requires { place < length self.old }
        ensures { (r : Area) → slice_get self.old place ≡ Some r
            → IsPermutation self.old (r ∷ self.new) }
    {
        let _rect = self.rects.swap_remove(place);
    }
}
