//! A record as far as its bytes were read.
ghost use Rattle.std.specs.Prelude.{◌≡◌, ◌≤◌, ℕ, List, [], ◌++◌, ◌∷◌, IfOk, OnOk, length, take};
ghost use Rattle.csv.specs.Records.{fields_of, partial_of};
ghost use Rattle.csv.specs.declared.parser.State.{State};
ghost use Rattle.csv.specs.declared.parser.State.TheVariants as state;
ghost use Rattle.interchange.specs.KeptField.{most_fields};
ghost use Rattle.interchange.specs.Load.{Record};

use crate::kept_field::{KeptField, longest_field};
use crate::place::{Effect, Place, ends_at_end, step};
use csv::ByteRecord;
use std::alloc::{AllocError, Global};
use values::{Table, WIDEST};

/// The fields that are kept of a record. One more than a table has columns is enough: such a record is
/// neither a column list nor a row, whatever fields follow.
const MOST_FIELDS: usize = WIDEST + 1;

/// What is kept of the fields of a record that have ended, and of the one that is read.
#[derive(Drop)]
pub(crate) struct OpenRecord {
    place: Place,
    fields: ByteRecord,
    field: KeptField,
    ghost few: { length (fields_of fields) ≤ most_fields },
}

/// Adds a field to those that are kept of a record.
fn keep_field(fields: &mut ByteRecord, field: &[u8]) -> Result<(), AllocError>
    requires { length (fields_of fields.old) ≤ most_fields }
    ensures first { OnOk result (partial_of fields.old ≡ []
        → fields_of fields.new ≡ take most_fields (fields_of fields.old ++ field.now ∷ [])) }
    ensures whole { OnOk result (partial_of fields.old ≡ [] → partial_of fields.new ≡ []) }
    ensures few { length (fields_of fields.new) ≤ most_fields }
{
    if fields.len() < MOST_FIELDS {
        fields.push_field(field)?;
    }
    Ok(())
}

impl OpenRecord {
    ghost use Rattle.interchange.specs.OpenRecord.{HasClosed, HasTaken, IsOpenAt};

    /// Makes a record of no bytes, at the start of a text for a table.
    pub(crate) fn new(alloc: Global, table: &Table) -> OpenRecord
        ensures { IsOpenAt table.now result state.StartRecord [] [] }
    {
        OpenRecord {
            place: Place::RecordStart,
            fields: ByteRecord::new(alloc),
            field: KeptField::new(alloc, longest_field(table)),
        }
    }

    /// Returns what is kept of the fields that have ended.
    pub(crate) fn fields(&self) -> &ByteRecord
        ensures { result.now ≡ self.now.fields }
    {
        &self.fields
    }

    /// Begins the next record where this one has ended.
    pub(crate) fn clear(&mut self)
        ensures { (table : Table) (s : State) (fields : Record)
            → IsOpenAt table self.old s fields [] → IsOpenAt table self.new s [] [] }
    {
        self.fields.clear();
    }

    /// Ends the field.
    fn end_field(&mut self) -> Result<(), AllocError>
        ensures place { self.new.place ≡ self.old.place }
        ensures longest { self.new.field.longest ≡ self.old.field.longest }
        ensures fields { OnOk result (partial_of self.old.fields ≡ []
            → fields_of self.new.fields ≡ take most_fields
            (fields_of self.old.fields ++ self.old.field.bytes.items ∷ [])) }
        ensures whole { OnOk result (partial_of self.old.fields ≡ []
            → partial_of self.new.fields ≡ []) }
        ensures field { OnOk result (self.new.field.bytes.items ≡ []) }
    {
        keep_field(&mut self.fields, self.field.bytes())?;
        self.field.clear();
        Ok(())
    }

    /// Takes a byte, and tells whether it ended the record.
    pub(crate) fn take(&mut self, byte: u8) -> Result<bool, AllocError>
        ensures { IfOk result (λ ended. (table : Table) (s : State) (fields : Record)
            (field : List ℕ) → IsOpenAt table self.old s fields field
            → HasTaken table self.new s fields field byte ended) }
    {
        let (place, effect) = step(self.place, byte);
        match effect {
            Effect::Skip => {}
            Effect::Copy => self.field.take(byte)?,
            Effect::EndField | Effect::EndRecord => self.end_field()?,
        }
        self.place = place;
        Ok(effect == Effect::EndRecord)
    }

    /// Takes the end of the text, and tells whether it ended the record.
    pub(crate) fn close(&mut self) -> Result<bool, AllocError>
        ensures { IfOk result (λ ended. (table : Table) (s : State) (fields : Record)
            (field : List ℕ) → IsOpenAt table self.old s fields field
            → HasClosed table self.new s fields field ended) }
    {
        let ended = ends_at_end(self.place);
        if ended {
            self.end_field()?;
        }
        Ok(ended)
    }
}
