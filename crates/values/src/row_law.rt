//! Laws of the bytes of rows.
ghost use Rattle.values.specs.RowLaw.{RowsReadBack, OnlyRowsAreRead, FittingRowsAreStored, NoRowBeginsAnother, WorkedRowBytes};

/// States that rows may be told apart by their bytes.
pub fn bytes_stand_for_rows()
    ensures back { RowsReadBack }
    ensures only { OnlyRowsAreRead }
    ensures whole { NoRowBeginsAnother }
    ensures worked { WorkedRowBytes }
{}

/// States that what fits a table has bytes.
pub fn fitting_rows_have_bytes()
    ensures { FittingRowsAreStored }
{}
