//! Which round it is.
use std::marker::{Brand, Send, Sync};

/// Which round it is: its begin, and the view that the begin shows. It is in the types alone.
pub(crate) trait RoundName: Send + Sync {
    ghost use Rattle.sessions.specs.tsbtree.View.{TreeState};
    ghost use Rattle.migrator.specs.Round.{Given};

    ghost begin: { Given };

    ghost shown: { TreeState };
}

impl RoundName for Brand {
    ghost use Rattle.std.specs.Prelude.{[]};
    ghost use Rattle.sessions.specs.journal.declared.entry.Entry.TheVariants.{Begin};

    ghost begin = { (0, Begin 0 0 record { nodes = []; latest = 0 }) };

    ghost shown = { record { nodes = []; latest = 0 } };
}
