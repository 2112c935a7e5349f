//! The bytes of keys, in the order of keys.
ghost use Rattle.std.specs.Prelude.{◌≡◌, ℤ, ◌++◌, ◌∷◌, [], IfOk, OnOk, Option, Some, None, if◌then◌else◌, nat_le, length, ◌<◌};
ghost use Rattle.values.specs.KeyEncoding.{ordinal_of, text_bytes, part_bytes, bytes_of_key, IsShortKey, longest_key};
ghost use Rattle.std.specs.Ordering.{nat_cmp};
ghost use Rattle.std.specs.Cmp.Lexicographic.{slice_cmp};
ghost use Rattle.values.specs.KeyFit.{IsKeyIn};
ghost use Rattle.values.specs.KeyPrefix.{IsPrefixOf};
ghost use Rattle.values.specs.declared.key_prefix.KeyPrefix.{KeyPrefix};
ghost use Rattle.values.specs.Memory.{OnlyMemory};

use crate::key::Key;
use crate::key_law::fitting_keys_have_bytes;
use crate::key_prefix::{KeyPrefix, PREFIX};
use crate::refusal::Mem;
use crate::schema::Schema;
use crate::value::Value;
use smallvec::SmallVec;
use std::alloc::{AllocError, Global};
use std::cmp::Ordering;
use std::marker::Model;

/// The longest bytes of a key: the table, and four texts of 200 bytes that are all 0.
pub const LONGEST_KEY: usize = 1609;

/// How many bytes of a key are kept in the value: enough for a table and two numbers.
const INSIDE: usize = 22;

/// The bytes of a key, or a prefix of them, while they are written: short ones need no allocation.
pub type KeyBuffer = SmallVec<u8, INSIDE>;

/// At most 1,609 bytes, ordered by bytes. The empty one is the least, and is no key's. The prefix is
/// kept beside them, so that a comparison seldom reads them.
#[derive(Debug, Drop)]
pub struct KeyBytes {
    prefix: KeyPrefix,
    bytes: KeyBuffer,
}

impl Model for KeyBytes {
    ghost use Rattle.std.specs.Prelude.{List, ℕ, length, ◌≤◌};
    ghost use Rattle.values.specs.KeyEncoding.{longest_key};
    ghost use Rattle.values.specs.KeyPrefix.{IsPrefixOf};

    ghost Value = { List ℕ };

    ghost view = { λ k. k.bytes.items };

    ghost invariant = { λ k. (length k.bytes.items ≤ longest_key)
        × IsPrefixOf k.prefix k.bytes.items };
}

impl KeyBytes {
    /// Takes bytes as those of a key; none where there are over 1,609.
    pub fn new(bytes: Vec<u8>) -> Option<KeyBytes>
        ensures { result
            ≡ (if nat_le (length bytes.items) longest_key then Some bytes.items else None) }
    {
        KeyBytes::from_buffer(KeyBuffer::from_vec(bytes))
    }

    /// Takes what was written as the bytes of a key; none where there are over 1,609.
    pub fn from_buffer(bytes: KeyBuffer) -> Option<KeyBytes>
        ensures { result
            ≡ (if nat_le (length bytes.items) longest_key then Some bytes.items else None) }
    {
        if bytes.len() <= LONGEST_KEY {
            let mut bytes = bytes;
            bytes.shrink_to_fit();
            Some(KeyBytes {
                prefix: KeyPrefix::of(bytes.as_slice()),
                bytes,
            })
        } else {
            None
        }
    }

    /// Makes the least: no bytes.
    pub fn least(alloc: Global) -> KeyBytes
        ensures { result ≡ [] }
    {
        KeyBytes {
            prefix: KeyPrefix::of(&[]),
            bytes: KeyBuffer::new(alloc),
        }
    }

    /// Returns the bytes.
    pub fn bytes(&self) -> &[u8]
        ensures { result.now ≡ self.now }
    {
        self.bytes.as_slice()
    }

    /// Copies the bytes.
    pub fn copy(&self) -> Mem<KeyBytes>
        ensures ok { IfOk result (λ k. k ≡ self.now) }
        ensures err { OnlyMemory result }
    {
        Ok(self.clone()?)
    }
}

impl Clone for KeyBytes {
    ghost use Rattle.std.specs.Prelude.{◌≡◌};

    ghost is_clone = { λ x y. y ≡ x };

    fn clone(&self) -> Result<KeyBytes, AllocError> {
        Ok(KeyBytes {
            prefix: self.prefix,
            bytes: KeyBuffer::from_slice(*self.bytes.allocator(), self.bytes())?,
        })
    }
}

impl PartialEq for KeyBytes {
    ghost use Rattle.std.specs.Prelude.{nat_eq};
    ghost use Rattle.std.specs.Cmp.{partial_equiv_from_equiv};
    ghost use Rattle.std.specs.Cmp.Lexicographic.{pointwise, nat_list_eq_equiv};

    ghost eq = { pointwise nat_eq };

    ghost laws = { partial_equiv_from_equiv nat_list_eq_equiv };

    fn eq(&self, other: &KeyBytes) -> bool {
        self.cmp(other).is_eq()
    }
}

impl Eq for KeyBytes {
    ghost use Rattle.std.specs.Cmp.Lexicographic.{nat_list_eq_equiv};

    ghost laws = { nat_list_eq_equiv };
}

impl PartialOrd for KeyBytes {
    ghost use Rattle.std.specs.Prelude.{Some};
    ghost use Rattle.std.specs.Ordering.{nat_cmp};
    ghost use Rattle.std.specs.Cmp.Lexicographic.{slice_cmp, texts_po};

    ghost partial_cmp = { λ x y. Some (slice_cmp nat_cmp x y) };

    ghost laws = { texts_po };

    fn partial_cmp(&self, other: &KeyBytes) -> Option<Ordering> {
        Some(self.cmp(other))
    }
}

impl Ord for KeyBytes {
    ghost use Rattle.std.specs.Prelude.{refl};
    ghost use Rattle.std.specs.Ordering.{nat_cmp};
    ghost use Rattle.std.specs.Cmp.Lexicographic.{slice_cmp, nat_list_cmp_total, texts_ties};

    ghost cmp = { slice_cmp nat_cmp };

    ghost total = { nat_list_cmp_total };

    ghost matches_partial_cmp = { λ _ _. refl };

    ghost matches_eq = { texts_ties };

    fn cmp(&self, other: &KeyBytes) -> Ordering {
        match self.prefix.cmp(&other.prefix) {
            Ordering::Equal => order_behind_prefix(self.bytes(), other.bytes()),
            unequal => unequal,
        }
    }
}

/// Compares the bytes of two keys with one prefix. The lengths decide where one of them has no more
/// bytes, since then the longer begins with the shorter.
fn order_behind_prefix(bytes: &[u8], others: &[u8]) -> Ordering
    ensures { (prefix : KeyPrefix) → IsPrefixOf prefix bytes.now → IsPrefixOf prefix others.now
        → result ≡ slice_cmp nat_cmp bytes.now others.now }
{
    if bytes.len().min(others.len()) <= PREFIX {
        return bytes.len().cmp(&others.len());
    }
    let (_, rest) = bytes.split_at(PREFIX);
    let (_, other_rest) = others.split_at(PREFIX);
    rest.cmp(other_rest)
}

/// Writes a key as bytes: the table's number, then each value.
pub fn key_bytes(alloc: Global, key: &Key) -> Mem<KeyBytes>
    requires { IsShortKey key.now }
    ensures ok { IfOk result (λ b. b ≡ bytes_of_key key.now) }
    ensures err { OnlyMemory result }
{
    let mut bytes = KeyBuffer::new(alloc);
    bytes.push(key.table)?;
    for part in key.parts.items() {
        push_part(&mut bytes, part)?;
    }
    Ok(KeyBytes {
        prefix: KeyPrefix::of(bytes.as_slice()),
        bytes,
    })
}

/// Writes the bytes of a key that fits its table, which is one of the schema's.
pub fn fitting_key_bytes(alloc: Global, schema: &Schema, key: &Key) -> Mem<KeyBytes>
    requires { IsKeyIn schema.now key.now }
    ensures ok { IfOk result (λ b. b ≡ bytes_of_key key.now) }
    ensures err { OnlyMemory result }
{
    fitting_keys_have_bytes();
    match schema.table_at(key.table) {
        Some(_) => key_bytes(alloc, key),
        None => unreachable!(),
    }
}

/// Appends the bytes of a value of a key.
pub fn push_part(bytes: &mut KeyBuffer, part: &Value) -> Result<(), AllocError>
    ensures { OnOk result (bytes.new.items ≡ bytes.old.items ++ part_bytes part.now) }
{
    match part {
        Value::Int(number) => bytes.extend_from_slice(&ordinal_of(*number).to_be_bytes()),
        Value::Text(text) => push_text(bytes, text.text().as_bytes()),
        Value::Bool(truth) => bytes.extend_from_slice(&[*truth as u8]),
        Value::Null => Ok(()),
    }
}

/// Returns the place of a number among all of 64 bits, from 0: the number plus 2^63.
pub fn ordinal_of(number: i64) -> u64
    ensures { result ≡ ordinal_of number }
{
    if number < 0 {
        (number - i64::MIN) as u64
    } else {
        number as u64 + (1 << 63)
    }
}

fn push_text(bytes: &mut KeyBuffer, text: &[u8]) -> Result<(), AllocError>
    ensures { OnOk result (bytes.new.items ≡ bytes.old.items ++ text_bytes text.now) }
{
    for byte in text {
        bytes.push(*byte)?;
        if *byte == 0 {
            bytes.push(255)?;
        }
    }
    bytes.extend_from_slice(&[0, 0])
}
