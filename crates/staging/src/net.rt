//! Net changes.
ghost use Rattle.std.specs.Prelude.{◌≡◌, All};
ghost use Rattle.std.specs.Map.{keys_of};
ghost use Rattle.std.specs.List.Sorted.{IsStrictlySortedBy};
ghost use Rattle.values.specs.Order.{key_cmp};
ghost use Rattle.values.specs.KeyEncoding.{IsShortKey};
ghost use Rattle.staging.specs.Net.{IsNet};

use std::marker::Model;
use values::{Key, Row};

/// What a transaction changed, by key: the row that each key has from then on, or none. Its keys
/// strictly rise. Contracts see it as a list.
#[derive(Drop)]
pub struct Net {
    changes: Vec<(Key, Option<Row>)>,
}

impl Model for Net {
    ghost use Rattle.values.specs.Log.{Net as Changed};
    ghost use Rattle.staging.specs.Net.{IsNet};

    ghost Value = { Changed };

    ghost view = { λ n. n.changes.items };

    ghost invariant = { λ n. IsNet n.changes.items };
}

impl Net {
    pub(crate) fn of(changes: Vec<(Key, Option<Row>)>) -> Net
        requires { IsNet changes.items }
        ensures { result ≡ changes.items }
    {
        Net { changes }
    }

    /// Returns the changes, by key.
    pub fn changes(&self) -> &[(Key, Option<Row>)]
        ensures changes { result.now ≡ self.now }
        ensures ordered { IsStrictlySortedBy key_cmp (keys_of result.now) }
        ensures short { All (λ c. IsShortKey c.0) result.now }
    {
        self.changes.as_slice()
    }
}
