//! Single cells, lent from their columns, and what is asked of them.

ghost use Rattle.std.specs.Prelude.{◌≡◌, option_map, pos, slice_get};
ghost use Rattle.std.specs.Ordering.{int_cmp};
ghost use Rattle.column_table.specs.Cells as cells;
ghost use Rattle.column_table.specs.Columns.{shown};
ghost use Rattle.column_table.specs.inside.Lent.{cell_of};
ghost use Rattle.row_algebra.specs.Tests as tests;

use mq_base::{CmpOp, Text, Value};
use sealed_column::AnyColumn;
use std::cmp::Ordering;

// A cell that a column lends.
#[derive(Clone, Copy)]
pub enum CellRef<'a> {
    Plain(&'a Value),
    Sealed(&'a Text),
}

// The cell of a column at a row, where the column has the row.
pub(crate) fn cell_in(column: &AnyColumn, row: u64) -> Option<CellRef<'_>>
    ensures { option_map cell_of result ≡ slice_get (shown column.now).cells row }
{
    match column {
        AnyColumn::Clear(clear) => plain_cell(clear.cells(), row),
        AnyColumn::Rnd(locked) => sealed_cell(locked.cells(), row),
        AnyColumn::Det(locked) => sealed_cell(locked.cells(), row),
        AnyColumn::Ope(locked) => sealed_cell(locked.cells(), row),
    }
}

// The value at a row.
fn plain_cell(values: &[Value], row: u64) -> Option<CellRef<'_>>
    ensures { option_map cell_of result ≡ option_map cells.Plain (slice_get values.now row) }
{
    match values.get(row as usize) {
        Some(value) => Some(CellRef::Plain(value)),
        None => None,
    }
}

// The sealed cell at a row.
fn sealed_cell(texts: &[Text], row: u64) -> Option<CellRef<'_>>
    ensures { option_map cell_of result ≡ option_map cells.Sealed (slice_get texts.now row) }
{
    match texts.get(row as usize) {
        Some(cell) => Some(CellRef::Sealed(cell)),
        None => None,
    }
}

// Whether a comparison holds of two cells that are ordered so.
pub(crate) fn holds(op: CmpOp, order: Ordering) -> bool
    ensures { result ≡ tests.holds op order }
{
    match op {
        CmpOp::Eq => order.is_eq(),
        CmpOp::Ne => order.is_ne(),
        CmpOp::Lt => order.is_lt(),
        CmpOp::Le => order.is_le(),
        CmpOp::Gt => order.is_gt(),
        CmpOp::Ge => order.is_ge(),
    }
}

// Whether two cells compare so: values with values, bytes with bytes.
pub(crate) fn compares_pair(op: CmpOp, left: CellRef<'_>, right: CellRef<'_>) -> bool
    ensures { result ≡ cells.compares_pair op (cell_of left.entry) (cell_of right.entry) }
{
    match (left, right) {
        (CellRef::Plain(value), CellRef::Plain(other)) => holds(op, value.cmp(other)),
        (CellRef::Sealed(cell), CellRef::Sealed(other)) => holds(op, cell.cmp(other)),
        _ => false,
    }
}

// Whether there are two cells that compare so.
pub(crate) fn both_compare(op: CmpOp, left: Option<CellRef<'_>>, right: Option<CellRef<'_>>) -> bool
    ensures { result ≡ tests.both_pass (cells.compares_pair op) (option_map cell_of left.entry) (option_map cell_of right.entry) }
{
    match (left, right) {
        (Some(cell), Some(other)) => compares_pair(op, cell, other),
        _ => false,
    }
}

// Whether there is a count that compares so with a number.
pub(crate) fn count_compares(op: CmpOp, count: Option<u64>, number: i64) -> bool
    ensures { result ≡ tests.passes (λ n. tests.holds op (int_cmp (pos n) number)) count }
{
    match count {
        Some(count) => holds(op, i128::from(count).cmp(&i128::from(number))),
        None => false,
    }
}
