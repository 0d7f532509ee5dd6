//! Rows of two tables beside each other.

ghost use Rattle.std.specs.Prelude.{◌≡◌, ◌<◌, ◌^◌, ℕ, IfOk, None, length, map, get_or};
ghost use Rattle.std.specs.List.{All, zip};
ghost use Rattle.std.specs.Option.{option_or};
ghost use Rattle.column_table.specs.Beside.{IsBeside};
ghost use Rattle.column_table.specs.Tables.{column_in, rows_of};
ghost use Rattle.column_table.specs.inside.Pairs.{AreTaken, IsPairOf, merged, pair_row};
ghost use Rattle.sealed_column.specs.declared.rows.Pair.{Pair};

use crate::pairs::{left_rows, right_rows};
use crate::table::Table;
use mq_base::NoMemory;
use sealed_column::{AnyColumn, Pair};
use std::alloc::Global;

// The rows of pairs: for each pair the row of the left beside the row of the right.
pub(crate) fn take_pairs(
    alloc: Global,
    left: &Table,
    right: &Table,
    pairs: &[Pair],
) -> Result<Table, NoMemory>
    requires few { length pairs.now < 2 ^ 48 }
    requires within { All (IsPairOf left.now right.now) pairs.now }
    ensures rows { IfOk result (λ made. rows_of made ≡ map (pair_row left.now right.now) pairs.now) }
    ensures beside { IfOk result (IsBeside left.now right.now) }
{
    let lefts = take_lefts(alloc, left, pairs)?;
    let rights = take_rights(alloc, right, pairs)?;
    Ok(beside(lefts, rights))
}

// The rows of the left, one for each pair.
fn take_lefts(alloc: Global, left: &Table, pairs: &[Pair]) -> Result<Table, NoMemory>
    requires few { length pairs.now < 2 ^ 48 }
    requires within { All (λ (p : Pair). p.left < left.now.rows) pairs.now }
    ensures { IfOk result (AreTaken left.now (map (λ (p : Pair). p.left) pairs.now)) }
{
    let rows = left_rows(alloc, pairs)?;
    left.take_rows(alloc, rows.as_slice())
}

// The rows of the right, one for each pair.
fn take_rights(alloc: Global, right: &Table, pairs: &[Pair]) -> Result<Table, NoMemory>
    requires few { length pairs.now < 2 ^ 48 }
    requires within { All (λ (p : Pair). p.right < right.now.rows) pairs.now }
    ensures { IfOk result (AreTaken right.now (map (λ (p : Pair). p.right) pairs.now)) }
{
    let rows = right_rows(alloc, pairs)?;
    right.take_rows(alloc, rows.as_slice())
}

// Two tables of as many rows beside each other. Of an attribute that both have it has the column of the left. It takes no memory.
fn beside(left: Table, right: Table) -> Table
    requires { right.rows ≡ left.rows }
    ensures rows { rows_of result ≡ map merged (zip (rows_of left) (rows_of right)) }
    ensures columns { (a : ℕ) → column_in result a ≡ option_or (column_in left a) (column_in right a) }
    ensures counts { result.counts ≡ option_or left.counts right.counts }
{
    let Table {
        rows,
        columns,
        counts,
    } = left;
    let Table {
        rows: _,
        columns: others,
        counts: other_counts,
    } = right;
    Table {
        rows,
        columns: columns_beside(columns, others),
        counts: counts.or(other_counts),
    }
}

// The columns of two tables, at each place that of the first which has one there.
fn columns_beside(
    mut columns: [Option<AnyColumn>; 64],
    mut others: [Option<AnyColumn>; 64],
) -> [Option<AnyColumn>; 64]
    ensures { (a : ℕ) → get_or result a None ≡ option_or (get_or columns a None) (get_or others a None) }
{
    for a in 0..64 {
        columns[a] = columns[a].take().or(others[a].take());
    }
    columns
}
