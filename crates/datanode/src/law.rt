//! Laws of what rectangles hold.
ghost use Rattle.datanode.specs.Law.{CutOfCut, CutStays, OwnOfCut, HalvesByKey, HalvesByTime, ShownByCut, LastOfCut};

/// States that a rectangle inside another holds of the map what it holds of the other's events.
pub fn cuts_are_nested()
    ensures { CutOfCut }
{}

/// States what two halves hold of a map: each event of the whole once, and besides the carried
/// ones.
pub fn halves_hold_each_event_once()
    ensures own { OwnOfCut }
    ensures by_key { HalvesByKey }
    ensures by_time { HalvesByTime }
{}

/// States that what a point shows is the same in the events that a rectangle holds and in the map,
/// and so is a key's last event that is not a deletion from before the rectangle's start.
pub fn cuts_show_the_map()
    ensures shown { ShownByCut }
    ensures last { LastOfCut }
{}

/// States that an event that is put elsewhere leaves what a rectangle holds.
pub fn cuts_stay()
    ensures { CutStays }
{}
