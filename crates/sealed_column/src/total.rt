//! The sum of plain cells.

ghost use Rattle.std.specs.Prelude.{◌≡◌, ◌<◌, ◌≤ℤ◌, pos, negsuc, length};
ghost use Rattle.std.specs.List.{All};
ghost use Rattle.mq_base.specs.Value.{IsCell};
ghost use Rattle.mq_base.specs.declared.value.ValueType.TheVariants as type;
ghost use Rattle.sealed_column.specs.Cells.{number_of, picked, sum_of};

use mq_base::Value;

// The number that an INT is.
fn number(value: &Value) -> i128
    requires { IsCell type.Int value.now }
    ensures value { result ≡ number_of value.now }
    ensures low { negsuc 9223372036854775807 ≤ℤ result }
    ensures high { result ≤ℤ pos 9223372036854775807 }
{
    match value {
        Value::Int(number) => *number,
        Value::Text(_) => 0,
    }
}

// The sum of the INT at these rows. No number of rows that a slice can list takes it past 128 bits.
pub(crate) fn sum_at(cells: &[Value], rows: &[u64]) -> i128
    requires ints { All (IsCell type.Int) cells.now }
    requires within { All (λ row. row < length cells.now) rows.now }
    ensures { result ≡ sum_of (picked cells.now rows.now) }
{
    let mut total = 0;
    for row in rows {
        total += number(&cells[*row as usize]);
    }
    total
}
