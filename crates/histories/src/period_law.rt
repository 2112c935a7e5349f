//! What every history of steps comes to in tables with a period of application time.
ghost use Rattle.values.specs.Tables.{Schema};
ghost use Rattle.histories.specs.PeriodLaw.{NeverOverlap, OwnNeverOverlap, PortionsChangePoints, OtherPointsStay, OthersSeeTheSame, PortionsCountTaken};
ghost use Rattle.histories.specs.WorkedPeriods.{GoodTables, OverlapsRefused, PortionUpdated, PortionDeleted, EntityConflict, LeastConflict, EntitiesApart, CommitsJoined, OwnRowsCount, PeriodColumnsStay, PortionsWiden};

/// States that no two rows of one entity overlap (ISO/IEC 9075-2:2011, 4.14.1 and 11.7): not at any
/// instant of what was committed, and not among the rows that a session sees, its own writes
/// counted in.
pub fn periods_never_overlap()
    ensures committed { (first : Schema) → NeverOverlap first }
    ensures own { (first : Schema) → OwnNeverOverlap first }
{}

/// States what a session sees after its UPDATE or DELETE of a portion (ISO/IEC 9075-2:2011, 14.9 and
/// 14.14): of each entity of the table, at each time in the portion that belongs to a row that it
/// takes, the new values or none; at every other time, and of every entity of another table, what it
/// saw before. Other sessions see what they saw. The reply is the number of rows taken.
pub fn portions_change_what_is_seen()
    ensures points { (first : Schema) → PortionsChangePoints first }
    ensures others { (first : Schema) → OtherPointsStay first }
    ensures sessions { (first : Schema) → OthersSeeTheSame first }
    ensures counts { (first : Schema) → PortionsCountTaken first }
{}

/// Checks the worked examples in a table with a period, by computation.
pub fn worked_periods_hold()
    ensures good_tables { GoodTables }
    ensures overlaps_refused { OverlapsRefused }
    ensures portion_updated { PortionUpdated }
    ensures portion_deleted { PortionDeleted }
    ensures entity_conflict { EntityConflict }
    ensures least_conflict { LeastConflict }
    ensures entities_apart { EntitiesApart }
    ensures commits_joined { CommitsJoined }
    ensures own_rows_count { OwnRowsCount }
    ensures period_columns_stay { PeriodColumnsStay }
    ensures portions_widen { PortionsWiden }
{}
