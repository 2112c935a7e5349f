//! A field as far as it was read, and what is kept of it.
ghost use Rattle.std.specs.Prelude.{◌≡◌, ◌≤◌, ◌<◌, ◌==◌, [], ◌++◌, ◌∷◌, length, OnOk};
ghost use Rattle.std.specs.List.{list_all};
ghost use Rattle.interchange.specs.KeptField.{is_kept, is_zeros, keep_byte, longest_field, most_kept};

use std::alloc::{AllocError, Global};
use values::{LONGEST_TEXT, Table};

/// A number with so many digits, of which the first is not zero, is over 64 bits.
const TOO_MANY_DIGITS: usize = 20;

/// What is kept of the bytes of a field: enough to tell what it writes in a table. A field that is
/// longer than a text and a column's name may be can only be a number, with leading zeros. So behind
/// that length further leading zeros are dropped, and other bytes once they are too many for a number.
#[derive(Drop)]
pub(crate) struct KeptField {
    /// The bytes that a text or a column's name may have.
    longest: usize,
    bytes: Vec<u8>,
    /// Behind that length: the bytes are zeros alone, or a minus and then zeros alone.
    only_zeros: bool,
    ghost zeros: { longest < length bytes.items → only_zeros ≡ is_zeros bytes.items },
    ghost short: { length bytes.items ≤ most_kept longest },
}

impl KeptField {
    /// Makes a field of no bytes.
    pub(crate) fn new(alloc: Global, longest: usize) -> KeptField
        ensures longest { result.longest ≡ longest }
        ensures empty { result.bytes.items ≡ [] }
    {
        KeptField {
            longest,
            bytes: Vec::new(alloc),
            only_zeros: true,
        }
    }

    /// Returns the bytes that are kept.
    pub(crate) fn bytes(&self) -> &[u8]
        ensures { result.now ≡ self.now.bytes.items }
    {
        self.bytes.as_slice()
    }

    /// Begins the next field.
    pub(crate) fn clear(&mut self)
        ensures longest { self.new.longest ≡ self.old.longest }
        ensures empty { self.new.bytes.items ≡ [] }
    {
        self.bytes.clear();
    }

    /// Tells whether the next byte is kept.
    fn is_kept(&self, byte: u8) -> bool
        ensures { result ≡ is_kept self.now.longest self.now.bytes.items byte }
    {
        let extra = self.bytes.len().saturating_sub(self.longest);
        extra == 0 || !(self.only_zeros && byte == b'0') && extra <= TOO_MANY_DIGITS
    }

    /// Takes the next byte.
    pub(crate) fn take(&mut self, byte: u8) -> Result<(), AllocError>
        ensures longest { self.new.longest ≡ self.old.longest }
        ensures kept { OnOk result (self.new.bytes.items
            ≡ keep_byte self.old.longest self.old.bytes.items byte) }
    {
        if self.bytes.len() < self.longest {
            self.bytes.push(byte)?;
        } else if self.is_kept(byte) {
            self.bytes.push(byte)?;
            self.only_zeros = is_zeros(&self.bytes);
        }
        Ok(())
    }
}

/// Tells whether bytes are zeros alone, or a minus and then zeros alone.
fn is_zeros(bytes: &[u8]) -> bool
    ensures { result ≡ is_zeros bytes.now }
{
    match bytes {
        [] => true,
        [first, others @ ..] => (*first == b'-' || *first == b'0') && are_zeros(others),
    }
}

fn are_zeros(bytes: &[u8]) -> bool
    ensures { result ≡ list_all (λ b. b == 48) bytes.now }
{
    bytes.iter().all(|byte| *byte == b'0')
}

/// Returns how many bytes a field may have that is a text, or the name of one of the table's columns.
pub(crate) fn longest_field(table: &Table) -> usize
    ensures { result ≡ longest_field table.now }
{
    let mut longest = LONGEST_TEXT;
    for column in table.columns.items() {
        longest = longest.max(column.name.text().len());
    }
    longest
}
