//! Laws of the bytes of keys.
ghost use Rattle.values.specs.KeyEncodingLaw.{ByteOrderIsKeyOrder, BytesTellKeysApart, NoKeyBeginsAnother, FittingKeysAreShort, WorkedKeyBytes};
ghost use Rattle.values.specs.KeyLaw.{FittingRowsHaveKeys, KeysAreShort, KeysReadBack};

/// States that keys may be compared, and told apart, by their bytes.
pub fn bytes_stand_for_keys()
    ensures order { ByteOrderIsKeyOrder }
    ensures apart { BytesTellKeysApart }
    ensures whole { NoKeyBeginsAnother }
    ensures worked { WorkedKeyBytes }
{}

/// States that what fits the key of a table has bytes.
pub fn fitting_keys_have_bytes()
    ensures { FittingKeysAreShort }
{}

/// States that the key of a row that fits its table is one of the table's, has bytes, and is read
/// back from them.
pub fn fitting_rows_have_keys()
    ensures keys { FittingRowsHaveKeys }
    ensures short { KeysAreShort }
    ensures back { KeysReadBack }
{}
