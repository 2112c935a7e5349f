//! The rows of a file that is read from a stream.
ghost use Rattle.std.specs.Prelude.{◌≡◌, ◌<◌, ℕ, Err, IfErr, IfOk, List, Ok, length};
ghost use Rattle.std.specs.Io.KnownBytes.{Consumes, IsAtEnd};
ghost use Rattle.csv.specs.Reading.{is_bom, strip_bom};
ghost use Rattle.values.specs.TableRules.{IsTable};
ghost use Rattle.interchange.specs.Loading.{IsReadTo, IsWholeOf};
ghost use Rattle.interchange.specs.Stream.{IsEndedBy, IsLoadAfter, IsLoadOf, IsOfReading, IsUnloaded, IsUnloadedAfter};

use crate::loading::Loading;
use lines::{CHUNK, MOST_READS};
use std::alloc::Global;
use std::io::Read;
use values::{Refusal, Row, Table};

/// Why rows were not loaded from a reader.
#[derive(Debug, PartialEq, Eq, Drop)]
pub enum LoadFault {
    /// The reader failed, or gave no end in 2^32 reads.
    Read,
    /// A record is no row, an INSERT of all rows is refused, or memory ran out.
    Refused(Refusal),
}

/// The bytes that a byte order mark has.
const MARK: usize = 3;

fn is_mark(a: u8, b: u8, c: u8) -> bool
    ensures { result ≡ is_bom a b c }
{
    a == 0xef && b == 0xbb && c == 0xbf
}

/// Returns the bytes behind a byte order mark, or all where there is none.
fn without_mark(bytes: &[u8]) -> &[u8]
    ensures { result.now ≡ strip_bom bytes.now }
{
    if bytes.len() < MARK {
        return bytes;
    }
    if is_mark(bytes[0], bytes[1], bytes[2]) {
        return bytes.split_at(MARK).1;
    }
    bytes
}

/// Reads a file's first bytes, as many as a byte order mark has.
fn read_head<R: Read>(alloc: Global, reader: &mut R) -> Result<Vec<u8>, LoadFault>
    ensures read { IfOk result (λ head.
        Consumes (R.remaining reader.old) (R.remaining reader.new) head.items) }
    ensures end { IfOk result (λ head.
        length head.items < MARK → IsAtEnd (R.remaining reader.new)) }
    ensures err { IfErr result (λ fault. IsOfReading fault) }
{
    let mut head = Vec::new(alloc);
    let mut one = [0u8];
    for _turn in 0..MARK {
        match reader.read(&mut one) {
            Ok(0) => return Ok(head),
            Ok(_) => {
                if head.push(one[0]).is_err() {
                    return Err(LoadFault::Refused(Refusal::Memory));
                }
            }
            Err(_) => return Err(LoadFault::Read),
        }
    }
    Ok(head)
}

/// Takes the end of a file.
fn finish(alloc: Global, table: &Table, loading: Loading) -> Result<Vec<Row>, LoadFault>
    requires good { IsTable table.now.number table.now }
    ensures ok { IfOk result (λ rows. (text : List ℕ) → IsReadTo table.now text loading
        → IsWholeOf table.now text (Ok rows.items)) }
    ensures err { IfErr result (λ fault. (text : List ℕ) → IsReadTo table.now text loading
        → IsEndedBy fault table.now text) }
{
    match loading.finish(alloc, table) {
        Ok(rows) => Ok(rows),
        Err(why) => Err(LoadFault::Refused(why)),
    }
}

/// Reads the rest of a file.
fn load_rest<R: Read>(
    alloc: Global,
    reader: &mut R,
    table: &Table,
    mut loading: Loading,
) -> Result<Vec<Row>, LoadFault>
    requires good { IsTable table.now.number table.now }
    ensures ok { IfOk result (λ rows. (text : List ℕ) → IsReadTo table.now text loading
        → IsLoadAfter table.now text (R.remaining reader.old) (Ok rows.items)) }
    ensures err { IfErr result (λ fault. (text : List ℕ) → IsReadTo table.now text loading
        → IsUnloadedAfter fault table.now text (R.remaining reader.old)) }
{
    let mut chunk = [0u8; CHUNK];
    for _turn in 0..MOST_READS {
        let n = match reader.read(&mut chunk) {
            Ok(n) => n,
            Err(_) => return Err(LoadFault::Read),
        };
        if n == 0 {
            return finish(alloc, table, loading);
        }
        match loading.feed(alloc, table, chunk.split_at(n).0) {
            Ok(()) => {}
            Err(why) => return Err(LoadFault::Refused(why)),
        }
    }
    Err(LoadFault::Read)
}

/// Loads the rows that a file of CSV writes for a table, where one INSERT into the table without
/// rows takes them: its first record names columns of the table, and each further record is a row.
///
/// The file is read as a stream: of at most 1,000 rows the values are kept, and of all others the
/// bytes of their keys. Of a table with a period of application time the spans of all rows are kept
/// too, by entity and by their starts, up to the first row that overlaps an earlier one of its
/// entity; so a row is compared with one of those alone. After a key that repeats, or a span with no
/// start below its end, nothing more is kept. Of the record that is read at most 17 fields are kept,
/// and of a field at most 1,021 bytes, or 21 more than the longest name of a column where that has
/// over 1,000.
///
/// `BadRow` as `load_rows` has it, as soon as the record was read. At the end of the file, in this
/// order: `BadPeriod` where the span of any row has no start below its end; `DuplicateKey` with the
/// first key that an earlier row has; `Overlap` with the key of the first row whose span overlaps
/// that of an earlier row of its entity; and `TooManyWrites` where there are over 1,000 rows.
pub fn load_from<R: Read>(
    alloc: Global,
    reader: &mut R,
    table: &Table,
) -> Result<Vec<Row>, LoadFault>
    requires good { IsTable table.now.number table.now }
    ensures ok { IfOk result (λ rows.
        IsLoadOf table.now (R.remaining reader.old) (Ok rows.items)) }
    ensures err { IfErr result (λ fault.
        IsUnloaded fault table.now (R.remaining reader.old)) }
{
    let head = match read_head(alloc, reader) {
        Ok(head) => head,
        Err(fault) => return Err(fault),
    };
    let mut loading = Loading::new(alloc, table);
    match loading.feed(alloc, table, without_mark(head.as_slice())) {
        Ok(()) => {}
        Err(why) => return Err(LoadFault::Refused(why)),
    }
    if head.len() < MARK {
        return finish(alloc, table, loading);
    }
    load_rest(alloc, reader, table, loading)
}
