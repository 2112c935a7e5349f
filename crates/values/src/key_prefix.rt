//! The first bytes of keys as numbers, by which most keys are compared.
ghost use Rattle.std.specs.Prelude.{◌≡◌};
ghost use Rattle.std.specs.Int.{w64, from_be_bytes};
ghost use Rattle.values.specs.KeyPrefix.{IsPrefixOf};

/// How many bytes a prefix has.
pub(crate) const PREFIX: usize = 16;

/// The first 16 bytes of a key as two numbers of eight, the first byte the highest, with 0 for each
/// byte that is missing. Two that differ are in the order of the bytes.
#[derive(Clone, Copy, Debug, PartialEq, Eq, PartialOrd, Ord)]
pub(crate) struct KeyPrefix {
    first: u64,
    second: u64,
}

impl KeyPrefix {
    /// Returns the prefix of a key's bytes.
    pub(crate) fn of(bytes: &[u8]) -> KeyPrefix
        ensures { IsPrefixOf result bytes.now }
    {
        match bytes.split_first_chunk::<8>() {
            Some((first, rest)) => KeyPrefix {
                first: u64::from_be_bytes(*first),
                second: number_of(rest),
            },
            None => KeyPrefix {
                first: number_of(bytes),
                second: 0,
            },
        }
    }
}

/// Returns the first eight bytes as a number, with 0 for each that is missing.
fn number_of(bytes: &[u8]) -> u64
    ensures { result ≡ from_be_bytes w64 bytes.now }
{
    match bytes.first_chunk::<8>() {
        Some(number) => u64::from_be_bytes(*number),
        None => {
            let mut number = [0; 8];
            number[..bytes.len()].copy_from_slice(bytes);
            u64::from_be_bytes(number)
        }
    }
}
