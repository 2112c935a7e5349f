//! Where a reader is in a record of CSV, byte by byte.
ghost use Rattle.std.specs.Prelude.{◌≡◌};
ghost use Rattle.csv.specs.Machine as machine;
ghost use Rattle.csv.specs.Reading.{default_config};
ghost use Rattle.interchange.specs.Place.{action_of, state_of};

/// Where the bytes so far have left a reader.
#[derive(Clone, Copy, Debug, PartialEq, Eq)]
pub(crate) enum Place {
    RecordStart,
    FieldStart,
    InField,
    InQuotes,
    /// After a quote within quotes: it ends them, or another quote makes it one of the field.
    AfterQuote,
    /// After a carriage return that ended a record.
    AfterReturn,
}

/// What a byte does.
#[derive(Clone, Copy, Debug, PartialEq, Eq)]
pub(crate) enum Effect {
    Skip,
    Copy,
    EndField,
    EndRecord,
}

fn in_field(byte: u8) -> (Place, Effect)
    ensures { (state_of result.0, action_of result.1) ≡ machine.in_field default_config byte }
{
    match byte {
        b',' => (Place::FieldStart, Effect::EndField),
        b'\r' => (Place::AfterReturn, Effect::EndRecord),
        b'\n' => (Place::RecordStart, Effect::EndRecord),
        _ => (Place::InField, Effect::Copy),
    }
}

fn field_start(byte: u8) -> (Place, Effect)
    ensures { (state_of result.0, action_of result.1) ≡ machine.start_field default_config byte }
{
    match byte {
        b'"' => (Place::InQuotes, Effect::Skip),
        _ => in_field(byte),
    }
}

fn record_start(byte: u8) -> (Place, Effect)
    ensures { (state_of result.0, action_of result.1) ≡ machine.start_record default_config byte }
{
    match byte {
        b'\r' | b'\n' => (Place::RecordStart, Effect::Skip),
        _ => field_start(byte),
    }
}

/// Returns where a byte leaves a reader, and what it does.
pub(crate) fn step(place: Place, byte: u8) -> (Place, Effect)
    ensures { (state_of result.0, action_of result.1)
        ≡ machine.step default_config (state_of place) byte }
{
    match place {
        Place::RecordStart => record_start(byte),
        Place::FieldStart => field_start(byte),
        Place::InField => in_field(byte),
        Place::InQuotes => match byte {
            b'"' => (Place::AfterQuote, Effect::Skip),
            _ => (Place::InQuotes, Effect::Copy),
        },
        Place::AfterQuote => match byte {
            b'"' => (Place::InQuotes, Effect::Copy),
            _ => in_field(byte),
        },
        Place::AfterReturn => match byte {
            b'\n' => (Place::RecordStart, Effect::Skip),
            _ => record_start(byte),
        },
    }
}

/// Tells whether the end of the text ends a record.
pub(crate) fn ends_at_end(place: Place) -> bool
    ensures { result ≡ machine.ends_at_end (state_of place) }
{
    !matches!(place, Place::RecordStart | Place::AfterReturn)
}
