//! The columns that are timed, and the key and the place that they are locked under.

ghost use Rattle.std.specs.Prelude.{◌≡◌, IfOk, length};
ghost use Rattle.std.specs.List.{All};
ghost use Rattle.mq_base.specs.Bytes.{IsShort};
ghost use Rattle.sealed_column.specs.Seal.{IsValueOf};

use mq_base::{NoMemory, Seq, Text, Value, ValueType};
use sealed_column::{Clear, Column};
use std::alloc::Global;

/// The key of the seals.
pub(crate) const KEY: [u8; 32] = [7; 32];

/// The place of the step that seals.
pub(crate) const STEP: u32 = 1;

// The rows that are made where no times are asked for.
const FEW_ROWS: u32 = 40;

// The distinct values of a column that has few.
const FEW_VALUES: u32 = 20;

/// How many of the values of a column are distinct.
#[derive(Clone, Copy)]
pub(crate) enum Shape {
    AllDistinct,
    FewDistinct,
}

impl Shape {
    /// The name, as it is printed.
    pub(crate) fn name(self) -> &'static str {
        match self {
            Shape::AllDistinct => "distinct values",
            Shape::FewDistinct => "20 values",
        }
    }

    // The number of the value at a row. Rows that follow each other have numbers that are far from each other.
    fn number(self, row: u32) -> u32 {
        let place = match self {
            Shape::AllDistinct => row,
            Shape::FewDistinct => row % FEW_VALUES,
        };
        place.wrapping_mul(2_654_435_761)
    }
}

/// The name of a type, as it is printed.
pub(crate) fn type_name(ty: ValueType) -> &'static str {
    match ty {
        ValueType::Int => "INT",
        ValueType::Text => "TEXT",
    }
}

/// The number of rows that are made where the command line asks for `count`: with 0 a few.
pub(crate) fn rows_made(count: u32) -> u32 {
    if count == 0 { FEW_ROWS } else { count }
}

// The value of a type with a number. A TEXT has 120 bytes, and the number is the last four.
fn value_of(alloc: Global, ty: ValueType, number: u32) -> Result<Value, NoMemory>
    ensures typed { IfOk result (IsValueOf ty) }
    ensures short { IfOk result IsShort }
{
    match ty {
        ValueType::Int => Ok(Value::Int(i128::from(number))),
        ValueType::Text => {
            let mut bytes = [b'x'; 120];
            bytes[116..].copy_from_slice(&number.to_be_bytes());
            Ok(Value::Text(Text::copied(alloc, &bytes)?))
        }
    }
}

/// A column of a type with so many rows.
pub(crate) fn column_of(
    alloc: Global,
    ty: ValueType,
    shape: Shape,
    rows: u32,
) -> Result<Column<Clear>, NoMemory>
    ensures typed { IfOk result (λ column. column.ty ≡ ty) }
    ensures rows { IfOk result (λ column. length column.cells ≡ rows) }
    ensures short { IfOk result (λ column. All IsShort column.cells) }
{
    let mut values = Vec::new(alloc);
    for row in 0..rows {
        values.push(value_of(alloc, ty, shape.number(row))?)?;
    }
    Ok(Column::of(ty, Seq::of(values)))
}
