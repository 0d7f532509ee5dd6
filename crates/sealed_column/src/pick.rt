//! What is done with the cells at listed rows: copies of them, and the row of the least or greatest.

ghost use Rattle.std.specs.Prelude.{◌≡◌, ◌<◌, length, IfOk};
ghost use Rattle.std.specs.List.{All};
ghost use Rattle.std.specs.Ordering.{is_lt};
ghost use Rattle.sealed_column.specs.Cells.{IsFirstGreatest, IsFirstLeast, order_at, picked};

use crate::state::CellState;
use mq_base::NoMemory;
use std::alloc::Global;
use std::cmp::Ordering;

// Copies of the cells at these rows, in the order of the rows.
pub(crate) fn copy_picked<St: CellState>(
    alloc: Global,
    cells: &[St::Cell],
    rows: &[u64],
) -> Result<Vec<St::Cell>, NoMemory>
    requires { All (λ row. row < length cells.now) rows.now }
    ensures { IfOk result (λ taken. taken.items ≡ picked cells.now rows.now) }
{
    let mut taken = Vec::new(alloc);
    for row in rows {
        taken.push(St::copy_cell(alloc, &cells[*row as usize])?)?;
    }
    Ok(taken)
}

// The order of the cell at a row and the cell at a row of others.
pub(crate) fn order_between<C: Ord>(cells: &[C], row: u64, others: &[C], other_row: u64) -> Ordering
    requires row_in { row < length cells.now }
    requires other_in { other_row < length others.now }
    ensures { result ≡ order_at C.cmp cells.now row others.now other_row }
{
    cells[row as usize].cmp(&others[other_row as usize])
}

// Whether the cell at a row is below the cell at another.
fn is_below<C: Ord>(cells: &[C], row: u64, other: u64) -> bool
    requires row_in { row < length cells.now }
    requires other_in { other < length cells.now }
    ensures { result ≡ is_lt (order_at C.cmp cells.now row cells.now other) }
{
    order_between(cells, row, cells, other).is_lt()
}

// The first of these rows that holds the least cell of theirs.
pub(crate) fn first_least<C: Ord>(cells: &[C], rows: &[u64]) -> u64
    requires some { 0 < length rows.now }
    requires within { All (λ row. row < length cells.now) rows.now }
    ensures { IsFirstLeast C.cmp cells.now rows.now result }
{
    let mut best = 0;
    for at in 1..rows.len() {
        if is_below(cells, rows[at], rows[best]) {
            best = at;
        }
    }
    rows[best]
}

// The first of these rows that holds the greatest cell of theirs.
pub(crate) fn first_greatest<C: Ord>(cells: &[C], rows: &[u64]) -> u64
    requires some { 0 < length rows.now }
    requires within { All (λ row. row < length cells.now) rows.now }
    ensures { IsFirstGreatest C.cmp cells.now rows.now result }
{
    let mut best = 0;
    for at in 1..rows.len() {
        if is_below(cells, rows[best], rows[at]) {
            best = at;
        }
    }
    rows[best]
}
