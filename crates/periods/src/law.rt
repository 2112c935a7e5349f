//! Laws of application time.
ghost use Rattle.periods.specs.EntityKeys.{EntityKeysAreItsKeys};
ghost use Rattle.periods.specs.Point.{PortionChangesPoints};
ghost use Rattle.periods.specs.Units.{UnitsAreInOrder, OtherTablesStay};

/// States that a portion changes each point of application time that it names, where a row that it
/// takes has it, and no other.
pub fn portions_change_points()
    ensures { PortionChangesPoints }
{}

/// States that an entity's keys are those that meet a search condition; that units are in the order
/// of keys, so that the first conflict is that of the least unit; and that of a table without a
/// period conflicts are by key.
pub fn conflicts_are_by_unit()
    ensures entity { EntityKeysAreItsKeys }
    ensures least { UnitsAreInOrder }
    ensures others { OtherTablesStay }
{}
