//! What can be shared, and changed in place.
ghost use Rattle.std.specs.Prelude.{◌≡◌, IfOk, OnOk, OnErr};
ghost use Rattle.values.specs.Memory.{OnlyMemory};

use std::alloc::Global;
use values::Mem;

/// What can be had twice.
pub trait Share {
    /// Makes an equal value.
    fn share(&self) -> Mem<Self>
        ensures ok { IfOk result (λ s. s ≡ self.now) }
        ensures err { OnlyMemory result };
}

impl Share for usize {
    fn share(&self) -> Mem<usize>
        ensures ok { IfOk result (λ s. s ≡ self.now) }
        ensures err { OnlyMemory result }
    {
        Ok(*self)
    }
}

/// What a change can be made to in place.
pub trait Update<C>: Share + Drop {
    ghost can_update: { Self → C → Type 0 };

    ghost updated: { Self → C → Self };

    /// Makes the change. Where memory runs out the value is what it was.
    fn update(&mut self, alloc: Global, change: C) -> Mem<()>
        requires { can_update self.old change }
        ensures ok { OnOk result (self.new ≡ updated self.old change) }
        ensures err { OnErr result (self.new ≡ self.old) }
        ensures memory { OnlyMemory result };
}

/// Shares each item, with room for some more.
pub(crate) fn share_all<S: Share + Drop>(alloc: Global, items: &[S], room: usize) -> Mem<Vec<S>>
    ensures ok { IfOk result (λ v. v.items ≡ items.now) }
    ensures err { OnlyMemory result }
{
    let mut all = Vec::with_capacity(alloc, room)?;
    for item in items {
        all.push(item.share()?)?;
    }
    Ok(all)
}
