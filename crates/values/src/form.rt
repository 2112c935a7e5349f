//! Which versions a form of FOR SYSTEM_TIME selects.
ghost use Rattle.std.specs.Prelude.{◌≡◌};
ghost use Rattle.values.specs.Versions.{ends_after, selects};

use crate::key::Instant;
use crate::query::Form;

impl Form {
    /// Tells whether it selects a version of this period, which has no end where none has come
    /// (ISO/IEC 9075-2:2011, 7.6).
    pub fn selects(self, from: Instant, to: Option<Instant>) -> bool
        ensures { result ≡ selects self from to }
    {
        match self {
            Form::Plain => to.is_none(),
            Form::AsOf(t) => from <= t && ends_after(to, t),
            Form::FromTo(a, b) => a < b && from < b && ends_after(to, a),
            Form::Between(a, b) => a <= b && from <= b && ends_after(to, a),
        }
    }
}

/// Whether a version of this end lasts beyond an instant.
fn ends_after(to: Option<Instant>, instant: Instant) -> bool
    ensures { result ≡ ends_after to instant }
{
    match to {
        None => true,
        Some(end) => instant < end,
    }
}
