ghost use Rattle.std.specs.Prelude.{◌≡◌, refl};
ghost use Rattle.std.specs.Ordering.{as_partial_cmp};
ghost use Rattle.mq_base.specs.Value.{value_cmp, value_eq};
ghost use Rattle.std.specs.Cmp.{partial_equiv_from_equiv, partial_order_from_total};
ghost use Rattle.mq_base.specs.ValueLaws.{value_equiv, value_total};

use crate::text::Text;
use std::cmp::Ordering;

/// The type of a column.
#[derive(Clone, Copy)]
pub enum ValueType {
    /// Whole numbers. A cell or a literal fits `i64`; sums are wider.
    Int,
    /// Bytes, at most 120 of them in a cell or a literal.
    Text,
}

/// A value of a cell, a literal or an aggregate. Every INT is before every TEXT; INT are ordered as numbers,
/// TEXT by bytes, as `value_cmp` says.
#[derive(Drop)]
pub enum Value {
    /// A whole number; a cell or a literal fits `i64`.
    Int(i128),
    /// Bytes; a cell or a literal has at most 120.
    Text(Text),
}

impl PartialEq for Value {
    ghost eq = { value_eq };

    ghost laws = { partial_equiv_from_equiv value_equiv };

    fn eq(&self, other: &Self) -> bool {
        self.cmp(other) == Ordering::Equal
    }
}

impl Eq for Value {
    ghost laws = { value_equiv };
}

impl PartialOrd for Value {
    ghost partial_cmp = { as_partial_cmp value_cmp };

    ghost laws = { partial_order_from_total value_total };

    fn partial_cmp(&self, other: &Self) -> Option<Ordering> {
        Some(self.cmp(other))
    }
}

impl Ord for Value {
    ghost cmp = { value_cmp };

    ghost total = { value_total };

    ghost matches_partial_cmp = { λ x y. refl };

    ghost matches_eq = { λ x y. refl };

    fn cmp(&self, other: &Self) -> Ordering {
        match (self, other) {
            (Value::Int(x), Value::Int(y)) => x.cmp(y),
            (Value::Int(_), Value::Text(_)) => Ordering::Less,
            (Value::Text(_), Value::Int(_)) => Ordering::Greater,
            (Value::Text(s), Value::Text(t)) => s.cmp(t),
        }
    }
}
