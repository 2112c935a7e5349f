//! References to children.
ghost use Rattle.std.specs.Prelude.{◌≡◌, IfOk};
ghost use Rattle.values.specs.Memory.{OnlyMemory};

use keyrange::Rect;
use slots::Share;
use values::Mem;

/// A child, with the rectangle that it covers.
#[derive(Drop)]
pub struct Reference<C> {
    pub rect: Rect,
    pub child: C,
}

impl<C: Share> Reference<C> {
    /// Shares the child: an equal reference.
    pub(crate) fn share(&self) -> Mem<Reference<C>>
        ensures ok { IfOk result (λ r. r ≡ self.now) }
        ensures err { OnlyMemory result }
    {
        Ok(Reference {
            rect: self.rect.copy()?,
            child: self.child.share()?,
        })
    }
}
