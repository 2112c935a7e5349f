//! Values, and lists of them.
ghost use Rattle.std.specs.Prelude.{◌≡◌, All, IfOk};
ghost use Rattle.values.specs.Memory.{OnlyMemory};
ghost use Rattle.values.specs.RowEncoding.{IsHeld};

use crate::chars::Chars;
use crate::refusal::Mem;
use std::alloc::AllocError;
use std::cmp::Ordering;
use std::marker::Model;

/// The greatest whole number of 64 bits.
pub const MAX_INT: u64 = (1 << 63) - 1;

/// What a column of a row holds.
#[derive(Debug, PartialEq, Eq, PartialOrd, Ord, Drop)]
pub enum Value {
    Int(i64),
    Text(Chars),
    Bool(bool),
    Null,
}

impl Clone for Value {
    ghost use Rattle.std.specs.Prelude.{◌≡◌};

    ghost is_clone = { λ x y. y ≡ x };

    fn clone(&self) -> Result<Value, AllocError> {
        match self {
            Value::Int(number) => Ok(Value::Int(*number)),
            Value::Text(text) => Ok(Value::Text(text.clone()?)),
            Value::Bool(truth) => Ok(Value::Bool(*truth)),
            Value::Null => Ok(Value::Null),
        }
    }
}

impl Value {
    /// Copies the value.
    pub fn copy(&self) -> Mem<Value>
        ensures ok { IfOk result (λ v. v ≡ self.now) }
        ensures err { OnlyMemory result }
    {
        Ok(self.clone()?)
    }
}

/// Values in order, which contracts see as a list.
#[derive(Debug, Drop)]
pub struct Values {
    items: Vec<Value>,
}

impl Model for Values {
    ghost use Rattle.std.specs.Prelude.{List};
    ghost use Rattle.values.specs.declared.value.Value.{Value as Cell};

    ghost Value = { List Cell };

    ghost view = { λ v. v.items.items };
}

impl Values {
    /// Makes a list of values.
    pub fn new(items: Vec<Value>) -> Values
        ensures { result ≡ items.items }
    {
        Values { items }
    }

    /// Returns the values, in order.
    pub fn items(&self) -> &[Value]
        ensures { result.now ≡ self.now }
    {
        self.items.as_slice()
    }
}

impl Clone for Values {
    ghost use Rattle.std.specs.Prelude.{◌≡◌};

    ghost is_clone = { λ x y. y ≡ x };

    fn clone(&self) -> Result<Values, AllocError> {
        Ok(Values {
            items: self.items.clone()?,
        })
    }
}

impl Ord for Values {
    ghost use Rattle.std.specs.Cmp.Lexicographic.{slice_cmp, lists_total};
    ghost use Rattle.std.specs.Prelude.{refl};
    ghost use Rattle.values.specs.Order.{value_cmp};
    ghost use Rattle.values.specs.OrderLaw.{value_cmp_total};

    ghost cmp = { slice_cmp value_cmp };

    ghost total = { lists_total value_cmp_total };

    ghost matches_partial_cmp = { λ _ _. refl };

    ghost matches_eq = { λ _ _. refl };

    fn cmp(&self, other: &Values) -> Ordering {
        self.items().cmp(other.items())
    }
}

impl PartialOrd for Values {
    ghost use Rattle.std.specs.Cmp.{partial_order_from_total};
    ghost use Rattle.std.specs.Cmp.Lexicographic.{slice_cmp, lists_total};
    ghost use Rattle.std.specs.Ordering.{as_partial_cmp};
    ghost use Rattle.values.specs.Order.{value_cmp};
    ghost use Rattle.values.specs.OrderLaw.{value_cmp_total};

    ghost partial_cmp = { as_partial_cmp (slice_cmp value_cmp) };

    ghost laws = { partial_order_from_total (lists_total value_cmp_total) };

    fn partial_cmp(&self, other: &Values) -> Option<Ordering> {
        Some(self.cmp(other))
    }
}

impl PartialEq for Values {
    ghost use Rattle.std.specs.Cmp.{eq_by_cmp_equiv, partial_equiv_from_equiv};
    ghost use Rattle.std.specs.Cmp.Lexicographic.{slice_cmp, lists_total};
    ghost use Rattle.std.specs.Ordering.{eq_by_cmp};
    ghost use Rattle.values.specs.Order.{value_cmp};
    ghost use Rattle.values.specs.OrderLaw.{value_cmp_total};

    ghost eq = { eq_by_cmp (slice_cmp value_cmp) };

    ghost laws = { partial_equiv_from_equiv (eq_by_cmp_equiv (lists_total value_cmp_total)) };

    fn eq(&self, other: &Values) -> bool {
        self.cmp(other).is_eq()
    }
}

impl Eq for Values {
    ghost use Rattle.std.specs.Cmp.{eq_by_cmp_equiv};
    ghost use Rattle.std.specs.Cmp.Lexicographic.{lists_total};
    ghost use Rattle.values.specs.OrderLaw.{value_cmp_total};

    ghost laws = { eq_by_cmp_equiv (lists_total value_cmp_total) };
}

/// Reads each value: what was read is a number of 64 bits, or a text of characters. No other clause
/// says so of values that are lent.
pub fn read_values(values: &[Value])
    ensures { All IsHeld values.now }
{
    for value in values {
        read_value(value);
    }
}

fn read_value(value: &Value)
    ensures { IsHeld value.now }
{
    match value {
        Value::Int(number) => {
            let _number = *number;
        }
        Value::Text(text) => {
            let _utf8 = text.text();
        }
        Value::Bool(_) => {}
        Value::Null => {}
    }
}
