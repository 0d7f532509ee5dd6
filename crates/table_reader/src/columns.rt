ghost use Rattle.std.specs.Prelude.{◌≡◌, ◌∷◌, ◌++◌, ◌<◌, ◌≤◌, ◌^◌, [], length, replicate, IfOk, OnOk};
ghost use Rattle.csv.specs.Records.{fields_of};
ghost use Rattle.base_laws.specs.Firsts.{StopsAt, first_at};
ghost use Rattle.table_reader.specs.Codes.{refusal_of};
ghost use Rattle.table_reader.specs.Content.{cell_value};
ghost use Rattle.table_reader.specs.inside.Growing.{with_rows};
ghost use Rattle.table_reader.specs.Faults.{cell_fault, field_fault, record_fault, rows_fault};
ghost use Rattle.table_reader.specs.inside.Reading.{IsReading, records_left};

use crate::records::{field, next_record};
use crate::refusal::TableNo;
use csv::{ByteRecord, Reader};
use mq_base::{Seq, Text, Value, ValueType};
use std::alloc::{AllocError, Global};
use word_forms::integer;

// The most rows that a table may have.
const MAX_ROWS: u64 = 100_000;

// The most bytes that a TEXT field may have.
const MAX_TEXT: usize = 120;

/// As many columns without values.
pub fn empty_columns(alloc: Global, count: usize) -> Result<Vec<Seq<Value>>, AllocError>
    ensures { IfOk result (λ columns. columns.items ≡ replicate count []) }
{
    let mut columns = Vec::new(alloc);
    for _at in 0..count {
        columns.push(Seq::new(alloc))?;
    }
    Ok(columns)
}

// The value of the field of a row in a column of this type.
fn value_of(
    alloc: Global,
    ty: ValueType,
    row: u64,
    col: u32,
    field: &[u8],
) -> Result<Value, TableNo>
    ensures fault { StopsAt refusal_of result (field_fault ty row col field.now) }
    ensures value { IfOk result (λ value. value ≡ cell_value ty field.now) }
{
    match ty {
        ValueType::Int => match integer(field) {
            Some(number) => Ok(Value::Int(i128::from(number))),
            None => Err(TableNo::BadInt { row, col }),
        },
        ValueType::Text => {
            if MAX_TEXT < field.len() {
                return Err(TableNo::TextTooLong { row, col });
            }
            Ok(Value::Text(Text::copied(alloc, field)?))
        }
    }
}

// Puts the value of each field of a row at the end of its column, from the left.
fn push_values(
    alloc: Global,
    types: &[ValueType],
    columns: &mut [Seq<Value>],
    row: u64,
    current: &ByteRecord,
) -> Result<(), TableNo>
    requires columns { length columns.old ≡ length types.now }
    requires fields { length (fields_of current.now) ≡ length types.now }
    requires few { length types.now < 2 ^ 32 }
    ensures fault { StopsAt refusal_of result (first_at (cell_fault types.now row (fields_of current.now)) 0 (length types.now)) }
    ensures values { OnOk result (columns.new ≡ with_rows types.now 0 columns.old (fields_of current.now ∷ [])) }
{
    for col in 0..types.len() {
        let value = value_of(alloc, types[col], row, col as u32, field(current, col))?;
        columns[col].push(value)?;
    }
    Ok(())
}

// Puts the values of a row at the ends of the columns, where the row has a field for each.
fn push_row(
    alloc: Global,
    types: &[ValueType],
    columns: &mut [Seq<Value>],
    row: u64,
    current: &ByteRecord,
) -> Result<(), TableNo>
    requires columns { length columns.old ≡ length types.now }
    requires few { length types.now < 2 ^ 32 }
    ensures fault { StopsAt refusal_of result (record_fault types.now row (fields_of current.now)) }
    ensures values { OnOk result (columns.new ≡ with_rows types.now 0 columns.old (fields_of current.now ∷ [])) }
{
    if current.len() != types.len() {
        return Err(TableNo::BadRow { row });
    }
    push_values(alloc, types, columns, row, current)
}

/// Reads every row that a reader has left into the columns, and answers their number. `current` is only room.
pub fn read_rows(
    alloc: Global,
    reader: &mut Reader<&[u8]>,
    current: &mut ByteRecord,
    types: &[ValueType],
    columns: &mut [Seq<Value>],
) -> Result<u64, TableNo>
    requires reading { IsReading reader.old }
    requires columns { length columns.old ≡ length types.now }
    requires few { length types.now < 2 ^ 32 }
    ensures fault { StopsAt refusal_of result (rows_fault types.now 1 (records_left 100001 reader.old)) }
    ensures rows { IfOk result (λ rows. rows ≡ length (records_left 100001 reader.old)) }
    ensures values { OnOk result (columns.new ≡ with_rows types.now 0 columns.old (records_left 100001 reader.old)) }
{
    for row in 0..MAX_ROWS {
        if !next_record(reader, current)? {
            return Ok(row);
        }
        push_row(alloc, types, columns, row + 1, current)?;
    }
    if next_record(reader, current)? {
        return Err(TableNo::TooManyRows);
    }
    Ok(MAX_ROWS)
}
