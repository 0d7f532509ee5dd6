//! What a function makes of the cells of a column at the rows of each group.

ghost use Rattle.std.specs.Prelude.{◌≡◌, ◌<◌, IfOk, IsTrue, Some, length, map, slice_get};
ghost use Rattle.std.specs.List.{All};
ghost use Rattle.column_table.specs.Cells.{Plain};
ghost use Rattle.column_table.specs.Columns.{shown};
ghost use Rattle.column_table.specs.Groups.{HasOrder, IsFoldable, IsMadeOf, IsSummed, folded_at};
ghost use Rattle.column_table.specs.inside.Labels.{IsGroup};
ghost use Rattle.mq_base.specs.declared.query.Agg.TheVariants as agg;
ghost use Rattle.mq_base.specs.declared.value.ValueType.TheVariants as type;
ghost use Rattle.sealed_column.specs.Seal.{is_value_of};

use crate::take::take_column;
use mq_base::{Agg, NoMemory, Seq, Value, ValueType};
use sealed_column::{AnyColumn, Column};
use std::alloc::Global;

// The column of what a function makes of the cells of each group.
pub(crate) fn folded_column(
    alloc: Global,
    column: &AnyColumn,
    func: Agg,
    groups: &[Seq<u64>],
) -> Result<AnyColumn, NoMemory>
    requires runs { IsFoldable func (shown column.now) }
    requires groups { All (IsGroup (length (shown column.now).cells)) groups.now }
    ensures { IfOk result (λ made. IsMadeOf (folded_at func (shown column.now).cells) groups.now (shown column.now) (shown made)) }
{
    match func {
        Agg::Sum => sum_column(alloc, column, groups),
        Agg::Min => {
            let rows = least_rows(alloc, column, groups)?;
            take_column(alloc, column, rows.as_slice())
        }
        Agg::Max => {
            let rows = greatest_rows(alloc, column, groups)?;
            take_column(alloc, column, rows.as_slice())
        }
    }
}

// The sums of the cells of each group.
fn sum_column(alloc: Global, column: &AnyColumn, groups: &[Seq<u64>]) -> Result<AnyColumn, NoMemory>
    requires runs { IsSummed (shown column.now) }
    requires groups { All (IsGroup (length (shown column.now).cells)) groups.now }
    ensures { IfOk result (λ made. IsMadeOf (folded_at agg.Sum (shown column.now).cells) groups.now (shown column.now) (shown made)) }
{
    let mut sums = Vec::new(alloc);
    for group in groups {
        sums.push(sum_at(column, group.as_slice()))?;
    }
    Ok(AnyColumn::Clear(Column::of(ValueType::Int, Seq::of(sums))))
}

// The sum of the cells of a group.
fn sum_at(column: &AnyColumn, group: &[u64]) -> Value
    requires runs { IsSummed (shown column.now) }
    requires group { IsGroup (length (shown column.now).cells) group.now }
    ensures sum { folded_at agg.Sum (shown column.now).cells group.now ≡ Some (Plain result) }
    ensures int { IsTrue (is_value_of type.Int result) }
{
    match column {
        AnyColumn::Clear(values) => Value::Int(values.sum(group)),
        _ => unreachable!(),
    }
}

// For each group the first row that holds its least cell.
fn least_rows(alloc: Global, column: &AnyColumn, groups: &[Seq<u64>]) -> Result<Vec<u64>, NoMemory>
    requires runs { HasOrder (shown column.now).scheme }
    requires groups { All (IsGroup (length (shown column.now).cells)) groups.now }
    ensures within { IfOk result (λ rows. All (λ row. row < length (shown column.now).cells) rows.items) }
    ensures cells { IfOk result (λ rows. map (slice_get (shown column.now).cells) rows.items ≡ map (folded_at agg.Min (shown column.now).cells) groups.now) }
{
    let mut rows = Vec::new(alloc);
    for group in groups {
        rows.push(least_row(column, group.as_slice()))?;
    }
    Ok(rows)
}

// The first row of a group that holds its least cell.
fn least_row(column: &AnyColumn, group: &[u64]) -> u64
    requires runs { HasOrder (shown column.now).scheme }
    requires group { IsGroup (length (shown column.now).cells) group.now }
    ensures within { result < length (shown column.now).cells }
    ensures cell { slice_get (shown column.now).cells result ≡ folded_at agg.Min (shown column.now).cells group.now }
{
    match column {
        AnyColumn::Clear(values) => values.least(group),
        AnyColumn::Ope(cells) => cells.least(group),
        _ => unreachable!(),
    }
}

// For each group the first row that holds its greatest cell.
fn greatest_rows(
    alloc: Global,
    column: &AnyColumn,
    groups: &[Seq<u64>],
) -> Result<Vec<u64>, NoMemory>
    requires runs { HasOrder (shown column.now).scheme }
    requires groups { All (IsGroup (length (shown column.now).cells)) groups.now }
    ensures within { IfOk result (λ rows. All (λ row. row < length (shown column.now).cells) rows.items) }
    ensures cells { IfOk result (λ rows. map (slice_get (shown column.now).cells) rows.items ≡ map (folded_at agg.Max (shown column.now).cells) groups.now) }
{
    let mut rows = Vec::new(alloc);
    for group in groups {
        rows.push(greatest_row(column, group.as_slice()))?;
    }
    Ok(rows)
}

// The first row of a group that holds its greatest cell.
fn greatest_row(column: &AnyColumn, group: &[u64]) -> u64
    requires runs { HasOrder (shown column.now).scheme }
    requires group { IsGroup (length (shown column.now).cells) group.now }
    ensures within { result < length (shown column.now).cells }
    ensures cell { slice_get (shown column.now).cells result ≡ folded_at agg.Max (shown column.now).cells group.now }
{
    match column {
        AnyColumn::Clear(values) => values.greatest(group),
        AnyColumn::Ope(cells) => cells.greatest(group),
        _ => unreachable!(),
    }
}
