//! What comes after all bytes that begin with others.
ghost use Rattle.std.specs.Prelude.{◌≡◌, IfOk, option_map};
ghost use Rattle.searchrange.specs.SearchRange.{next_prefix};

use std::alloc::{AllocError, Global};
use values::KeyBuffer;

/// The least bytes above all that begin with these; none where all are 255.
pub(crate) fn next_prefix(alloc: Global, prefix: &[u8]) -> Result<Option<KeyBuffer>, AllocError>
    ensures { IfOk result (λ next.
        option_map (λ bytes. bytes.items) next ≡ next_prefix prefix.now) }
{
    let mut front = prefix;
    while let [others @ .., byte] = front {
        if *byte != 255 {
            let mut next = KeyBuffer::from_slice(alloc, others)?;
            next.push(*byte + 1)?;
            return Ok(Some(next));
        }
        front = others;
    }
    Ok(None)
}
