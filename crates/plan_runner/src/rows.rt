//! The rows of a table, read through a select list.

ghost use Rattle.std.specs.Prelude.{◌≡◌, ◌<◌, All, IfOk, OnOk, ◌++◌, Some, None, filter_map, map, option_and_then, option_map, option_to_list, slice_get, length};
ghost use Rattle.column_table.specs.Columns.{shown};
ghost use Rattle.mq_base.specs.Small.{IsSmallItem};
ghost use Rattle.plan_runner.specs.inside.Shown.{plain_item, plain_items, plain_value, row_of};
ghost use Rattle.provider_engine.specs.Held.{table_of};
ghost use Rattle.row_algebra.specs.Values.{value_count};

use mq_base::{AttrId, Item, NoMemory, Seq, Text, Value};
use provider_engine::Held;
use sealed_column::AnyColumn;
use std::alloc::Global;

// The values of the select list in each row of a table, as far as they are plain.
pub fn rows_of(alloc: Global, held: &Held, items: &[Item]) -> Result<Vec<Seq<Value>>, NoMemory>
    requires { All IsSmallItem items.now }
    ensures { IfOk result (λ rows. rows.items ≡ map (plain_items items.now) (table_of held.now)) }
{
    let mut rows = Vec::new(alloc);
    for row in 0..held.rows() {
        rows.push(row_of(alloc, held, items, row)?)?;
    }
    Ok(rows)
}

// The values of the select list in a row.
fn row_of(alloc: Global, held: &Held, items: &[Item], row: u64) -> Result<Seq<Value>, NoMemory>
    requires { All IsSmallItem items.now }
    ensures { IfOk result (λ values. values ≡ plain_items items.now (row_of held.now row)) }
{
    let mut values = Seq::new(alloc);
    for item in items {
        push_some(&mut values, value_of(alloc, held, *item, row)?)?;
    }
    Ok(values)
}

// Puts a value at the end, where there is one.
fn push_some(values: &mut Seq<Value>, value: Option<Value>) -> Result<(), NoMemory>
    ensures { OnOk result (values.new ≡ values.old ++ option_to_list value) }
{
    match value {
        Some(value) => values.push(value),
        None => Ok(()),
    }
}

// The value of an item in a row.
fn value_of(alloc: Global, held: &Held, item: Item, row: u64) -> Result<Option<Value>, NoMemory>
    requires { IsSmallItem item }
    ensures { IfOk result (λ value. value ≡ plain_item (row_of held.now row) item) }
{
    match item {
        Item::Attr(a) => cell_of(alloc, held, a, row),
        Item::Count => Ok(count_of(held, row)),
    }
}

// The value of an attribute in a row.
fn cell_of(alloc: Global, held: &Held, a: AttrId, row: u64) -> Result<Option<Value>, NoMemory>
    requires { a.0 < 64 }
    ensures { IfOk result (λ value. value ≡ option_and_then plain_value ((row_of held.now row).cell a.0)) }
{
    match held.column(a) {
        Some(column) => plain_at(alloc, column, row),
        None => Ok(None),
    }
}

// The value at a row of a column, where it is plain.
#[tactic(auto, using(crate::proofs::ShownLaws::cells))]
fn plain_at(alloc: Global, column: &AnyColumn, row: u64) -> Result<Option<Value>, NoMemory>
    ensures { IfOk result (λ value. value ≡ option_and_then plain_value (slice_get (shown column.now).cells row)) }
{
    match column {
        AnyColumn::Clear(clear) => copied(alloc, clear.cells(), row),
        AnyColumn::Rnd(_) => Ok(None),
        AnyColumn::Det(_) => Ok(None),
        AnyColumn::Ope(_) => Ok(None),
    }
}

// The value at a row, where there is one.
fn copied(alloc: Global, values: &[Value], row: u64) -> Result<Option<Value>, NoMemory>
    ensures { IfOk result (λ value. value ≡ slice_get values.now row) }
{
    match values.get(row as usize) {
        Some(value) => Ok(Some(copy_value(alloc, value)?)),
        None => Ok(None),
    }
}

fn copy_value(alloc: Global, value: &Value) -> Result<Value, NoMemory>
    ensures { IfOk result (λ copy. copy ≡ value.now) }
{
    match value {
        Value::Int(number) => Ok(Value::Int(*number)),
        Value::Text(text) => Ok(Value::Text(Text::copied(alloc, text.as_bytes())?)),
    }
}

// The count of a row as a value.
fn count_of(held: &Held, row: u64) -> Option<Value>
    ensures { result ≡ option_map value_count ((row_of held.now row).count) }
{
    match held.counts() {
        Some(counts) => count_in(counts, row),
        None => None,
    }
}

fn count_in(counts: &[u64], row: u64) -> Option<Value>
    ensures { result ≡ option_map value_count (slice_get counts.now row) }
{
    match counts.get(row as usize) {
        Some(count) => Some(Value::Int(i128::from(*count))),
        None => None,
    }
}
