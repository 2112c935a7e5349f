//! Laws of log, state, versions and AS OF.
ghost use Rattle.values.specs.Law.{StateIsAsOf, StateIsCurrent, AsOfShowsState, AsOfStays, AsOfIsWidened, ChangesUpto, EmptyNetStays};

/// States that what the tables hold at an instant can be read off the versions.
pub fn states_are_versions()
    ensures as_of { StateIsAsOf }
    ensures current { StateIsCurrent }
    ensures upto { ChangesUpto }
{}

/// States what a query as of an instant shows.
pub fn as_of_shows_the_state()
    ensures state { AsOfShowsState }
    ensures stays { AsOfStays }
    ensures widened { AsOfIsWidened }
{}

/// States that a transaction whose net change is empty leaves no trace.
pub fn empty_net_leaves_the_log()
    ensures { EmptyNetStays }
{}
