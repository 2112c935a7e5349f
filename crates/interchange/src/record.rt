//! The records of a file.
ghost use Rattle.std.specs.Prelude.{IfOk, map};
ghost use Rattle.csv.specs.Records.{fields_of};
ghost use Rattle.interchange.specs.Load.{AreRecordsOf};

use csv::{ByteRecord, Error, ReaderBuilder};
use std::alloc::Global;

/// Reads all records of a file, of any widths. A byte order mark before them is dropped.
pub(crate) fn records_of(alloc: Global, bytes: &[u8]) -> Result<Vec<ByteRecord>, Error>
    ensures { IfOk result (λ v. AreRecordsOf bytes.now (map fields_of v.items)) }
{
    let reader = ReaderBuilder::new()
        .has_headers(false)
        .flexible(true)
        .from_reader(alloc, bytes);
    let mut records = Vec::new(alloc);
    for record in reader.into_byte_records() {
        if records.push(record?).is_err() {
            return Err(Error::out_of_memory());
        }
    }
    Ok(records)
}
