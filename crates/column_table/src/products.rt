//! The product of two tables.

ghost use Rattle.std.specs.Prelude.{◌≡◌, ◌<◌, ◌*◌, ◌^◌, ℕ, IfErr, IfOk, MatchOption, None, is_some, length, replicate};
ghost use Rattle.std.specs.List.{list_any};
ghost use Rattle.column_table.specs.declared.run_no.RunNo.TheVariants.{RowRange};
ghost use Rattle.column_table.specs.Beside.{IsBeside};
ghost use Rattle.column_table.specs.Tables.{column_in, most_rows, rows_of};
ghost use Rattle.column_table.specs.inside.Pairs as beside;
ghost use Rattle.row_algebra.specs.Rows as rows;

use crate::beside::take_pairs;
use crate::pairs::all_pairs;
use crate::run_no::RunNo;
use crate::table::Table;
use crate::take::no_columns;
use mq_base::NoMemory;
use sealed_column::AnyColumn;
use std::alloc::Global;

/// The product of two tables: each row of the left, in order, beside each of the right. Of an attribute that both have it has the column
/// of the left. Where neither has a column or counts it is only a number of rows, and takes no memory. docs/MODEL.md, "Encoded run".
///
/// `RowRange` where it would have more than 2^48 - 1 rows, before any of it is built; `NoMemory` where the allocator refused a request. The
/// time is linear in the rows and cells that come out.
pub fn product(alloc: Global, left: &Table, right: &Table) -> Result<Table, RunNo>
    ensures rows { IfOk result (λ made. rows_of made ≡ rows.product (rows_of left.now) (rows_of right.now)) }
    ensures beside { IfOk result (IsBeside left.now right.now) }
    ensures range { IfErr result (λ no. no ≡ RowRange → most_rows < length (rows.product (rows_of left.now) (rows_of right.now))) }
{
    let Some(count) = row_product(left.rows, right.rows) else {
        return Err(RunNo::RowRange);
    };
    if is_bare(left) && is_bare(right) {
        return Ok(bare(count));
    }
    Ok(paired_product(alloc, left, right)?)
}

// The product of two numbers of rows, where a table may have so many.
fn row_product(left: u64, right: u64) -> Option<u64>
    ensures { MatchOption result (most_rows < left * right) (λ count. (count ≡ left * right) × (left * right < 2 ^ 48)) }
{
    match left.checked_mul(right) {
        Some(count) if count < 1 << 48 => Some(count),
        _ => None,
    }
}

// The product of two tables of which one has a column.
fn paired_product(alloc: Global, left: &Table, right: &Table) -> Result<Table, NoMemory>
    requires { left.now.rows * right.now.rows < 2 ^ 48 }
    ensures rows { IfOk result (λ made. rows_of made ≡ rows.product (rows_of left.now) (rows_of right.now)) }
    ensures beside { IfOk result (IsBeside left.now right.now) }
{
    let pairs = all_pairs(alloc, left.rows, right.rows)?;
    take_pairs(alloc, left, right, pairs.as_slice())
}

// Whether a table has no column and no counts.
fn is_bare(table: &Table) -> bool
    ensures { result ≡ beside.is_bare table.now }
{
    !has_column(&table.columns) && table.counts.is_none()
}

// Whether there is a column.
fn has_column(columns: &[Option<AnyColumn>; 64]) -> bool
    ensures { result ≡ list_any is_some columns.now }
{
    columns.iter().any(|column| column.is_some())
}

// So many rows without cells and counts.
fn bare(count: u64) -> Table
    requires { count < 2 ^ 48 }
    ensures rows { rows_of result ≡ replicate count rows.empty_row }
    ensures columns { (a : ℕ) → column_in result a ≡ None }
    ensures counts { result.counts ≡ None }
{
    Table {
        rows: count,
        columns: no_columns(),
        counts: None,
    }
}
