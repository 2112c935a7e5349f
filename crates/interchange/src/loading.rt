//! A file of CSV as far as it was read.
ghost use Rattle.std.specs.Prelude.{◌≡◌, ◌++◌, ◌∷◌, ℕ, [], Err, IfErr, IfOk, List, None, Ok, OnOk};
ghost use Rattle.csv.specs.Records.{fields_of};
ghost use Rattle.csv.specs.declared.parser.State.{State};
ghost use Rattle.values.specs.TableRules.{IsTable};
ghost use Rattle.interchange.specs.KeptField.{kept_fields};
ghost use Rattle.interchange.specs.Load.{Record};
ghost use Rattle.interchange.specs.Loading.{HasRecords, HasRows, IsAllRead, IsReadTo, IsRefusedAt, IsWhyOf, IsWholeOf};
ghost use Rattle.interchange.specs.OpenRecord.{IsOpenAt};

use crate::insertion::Insertion;
use crate::load::{columns_of, row_of};
use crate::open_record::OpenRecord;
use csv::ByteRecord;
use std::alloc::Global;
use values::{ColumnNumber, Mem, Refusal, Row, Table};

/// The record at hand, the columns that the header names, once it was read, and the rows that came.
#[derive(Drop)]
pub(crate) struct Loading {
    record: OpenRecord,
    columns: Option<Vec<ColumnNumber>>,
    rows: Insertion,
}

/// Takes a record as a row, by what is kept of its fields.
fn take_row(
    alloc: Global,
    table: &Table,
    columns: &[ColumnNumber],
    fields: &ByteRecord,
    rows: &mut Insertion,
) -> Mem<()>
    requires good { IsTable table.now.number table.now }
    ensures ok { OnOk result ((whole : Record) (records : List Record)
        → fields_of fields.now ≡ kept_fields table.now whole
        → HasRows table.now columns.now records rows.old
        → HasRows table.now columns.now (records ++ whole ∷ []) rows.new) }
    ensures err { IfErr result (λ why. (whole : Record) (records : List Record)
        → fields_of fields.now ≡ kept_fields table.now whole
        → HasRows table.now columns.now records rows.old
        → IsRefusedAt table.now records whole why) }
{
    match row_of(alloc, table, columns, fields) {
        Ok(row) => rows.take(alloc, table, row),
        Err(why) => Err(why),
    }
}

impl Loading {
    /// Makes a file of which nothing was read.
    pub(crate) fn new(alloc: Global, table: &Table) -> Loading
        ensures { IsReadTo table.now [] result }
    {
        Loading {
            record: OpenRecord::new(alloc, table),
            columns: None,
            rows: Insertion::new(alloc),
        }
    }

    /// Takes the record at hand, which has ended, as the header.
    fn take_header(&mut self, alloc: Global, table: &Table) -> Mem<()>
        requires good { IsTable table.now.number table.now }
        requires first { self.old.columns ≡ None }
        ensures ok { OnOk result ((s : State) (fields : Record) (records : List Record)
            → IsOpenAt table.now self.old.record s fields [] → HasRecords table.now records self.old
            → HasRecords table.now (records ++ fields ∷ []) self.new) }
        ensures record { self.new.record ≡ self.old.record }
        ensures err { IfErr result (λ why. (s : State) (fields : Record) (records : List Record)
            → IsOpenAt table.now self.old.record s fields [] → HasRecords table.now records self.old
            → IsRefusedAt table.now records fields why) }
    {
        match columns_of(alloc, table, self.record.fields()) {
            Ok(columns) => {
                self.columns = Some(columns);
                Ok(())
            }
            Err(why) => Err(why),
        }
    }

    /// Takes the record at hand, which has ended: the first as the header, each other as a row.
    fn take_record(&mut self, alloc: Global, table: &Table) -> Mem<()>
        requires good { IsTable table.now.number table.now }
        ensures ok { OnOk result ((s : State) (fields : Record) (records : List Record)
            → IsOpenAt table.now self.old.record s fields [] → HasRecords table.now records self.old
            → HasRecords table.now (records ++ fields ∷ []) self.new) }
        ensures record { OnOk result ((s : State) (fields : Record)
            → IsOpenAt table.now self.old.record s fields []
            → IsOpenAt table.now self.new.record s fields []) }
        ensures err { IfErr result (λ why. (s : State) (fields : Record) (records : List Record)
            → IsOpenAt table.now self.old.record s fields [] → HasRecords table.now records self.old
            → IsRefusedAt table.now records fields why) }
    {
        match &self.columns {
            None => self.take_header(alloc, table),
            Some(columns) => take_row(
                alloc,
                table,
                columns.as_slice(),
                self.record.fields(),
                &mut self.rows,
            ),
        }
    }

    /// Takes the record at hand, which has ended, and begins the next one.
    fn end_record(&mut self, alloc: Global, table: &Table) -> Mem<()>
        requires good { IsTable table.now.number table.now }
        ensures ok { OnOk result ((s : State) (fields : Record) (records : List Record)
            → IsOpenAt table.now self.old.record s fields [] → HasRecords table.now records self.old
            → HasRecords table.now (records ++ fields ∷ []) self.new) }
        ensures record { OnOk result ((s : State) (fields : Record)
            → IsOpenAt table.now self.old.record s fields []
            → IsOpenAt table.now self.new.record s [] []) }
        ensures err { IfErr result (λ why. (s : State) (fields : Record) (records : List Record)
            → IsOpenAt table.now self.old.record s fields [] → HasRecords table.now records self.old
            → IsRefusedAt table.now records fields why) }
    {
        match self.take_record(alloc, table) {
            Ok(()) => {
                self.record.clear();
                Ok(())
            }
            Err(why) => Err(why),
        }
    }

    /// Takes the next bytes. A refusal is that of the file, whatever follows them.
    pub(crate) fn feed(&mut self, alloc: Global, table: &Table, bytes: &[u8]) -> Mem<()>
        requires good { IsTable table.now.number table.now }
        ensures ok { OnOk result ((text : List ℕ) → IsReadTo table.now text self.old
            → IsReadTo table.now (text ++ bytes.now) self.new) }
        ensures err { IfErr result (λ why. (text rest : List ℕ)
            → IsReadTo table.now text self.old
            → IsWhyOf why table.now (text ++ (bytes.now ++ rest))) }
    {
        for byte in bytes {
            if self.record.take(*byte)? {
                match self.end_record(alloc, table) {
                    Ok(()) => {}
                    Err(why) => return Err(why),
                }
            }
        }
        Ok(())
    }

    /// Takes the end of the file, which may end a record.
    fn close(&mut self, alloc: Global, table: &Table) -> Mem<()>
        requires good { IsTable table.now.number table.now }
        ensures ok { OnOk result ((text : List ℕ) → IsReadTo table.now text self.old
            → IsAllRead table.now text self.new) }
        ensures err { IfErr result (λ why. (text : List ℕ) → IsReadTo table.now text self.old
            → IsWhyOf why table.now text) }
    {
        match self.record.close() {
            Ok(true) => self.take_record(alloc, table),
            Ok(false) => Ok(()),
            Err(_) => Err(Refusal::Memory),
        }
    }

    /// Takes the end of the file, and returns its rows.
    pub(crate) fn finish(mut self, alloc: Global, table: &Table) -> Mem<Vec<Row>>
        requires good { IsTable table.now.number table.now }
        ensures ok { IfOk result (λ rows. (text : List ℕ) → IsReadTo table.now text self
            → IsWholeOf table.now text (Ok rows.items)) }
        ensures err { IfErr result (λ why. (text : List ℕ) → IsReadTo table.now text self
            → IsWhyOf why table.now text) }
    {
        match self.close(alloc, table) {
            Ok(()) => {}
            Err(why) => return Err(why),
        }
        match self.columns {
            Some(_) => self.rows.finish(),
            None => Err(Refusal::BadRow(0)),
        }
    }
}
