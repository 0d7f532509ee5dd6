//! The join of two tables.

ghost use Rattle.std.specs.Prelude.{◌≡◌, ◌<◌, IfErr, IfOk, length, map};
ghost use Rattle.std.specs.List.{All};
ghost use Rattle.column_table.specs.declared.run_no.RunNo.TheVariants.{RowRange};
ghost use Rattle.column_table.specs.Beside.{IsBeside, IsJoinOn};
ghost use Rattle.column_table.specs.Cells.{Seals, cell_tests, compares_pair};
ghost use Rattle.column_table.specs.Columns.{shown};
ghost use Rattle.column_table.specs.Tables.{most_rows, rows_of};
ghost use Rattle.column_table.specs.inside.Pairs.{IsPairOf, pair_row, pairs_by};
ghost use Rattle.row_algebra.specs.Tests as tests;

use crate::beside::take_pairs;
use crate::cells::{CellSlice, cells_of, column_of};
use crate::pairs::ordered_pairs;
use crate::run_no::RunNo;
use crate::table::Table;
use mq_base::{AttrId, CmpOp, NoMemory};
use sealed_column::{AnyColumn, Pair};
use std::alloc::Global;

/// The join of two tables by an attribute of the left and one of the right, which each has and of which the left has not the second: the
/// rows of the product whose cells compare so, values with values and bytes with bytes. docs/MODEL.md, "Encoded run".
///
/// `RowRange` where it would have more than 2^48 - 1 rows, before its table is built; `NoMemory` where the allocator refused a request. The
/// time of a join by equality is that of keeping the right rows in order by their cells and of the rows that come out, of another join
/// that of comparing each pair.
pub fn join(
    alloc: Global,
    left: &Table,
    a: AttrId,
    op: CmpOp,
    right: &Table,
    b: AttrId,
) -> Result<Table, RunNo>
    requires { IsJoinOn left.now right.now a b }
    ensures rows { IfOk result (λ made. (seals : Seals) → rows_of made ≡ tests.join (cell_tests seals) a.0 op b.0 (rows_of left.now) (rows_of right.now)) }
    ensures beside { IfOk result (IsBeside left.now right.now) }
    ensures range { IfErr result (λ no. no ≡ RowRange → (seals : Seals)
        → most_rows < length (tests.join (cell_tests seals) a.0 op b.0 (rows_of left.now) (rows_of right.now))) }
{
    let pairs = join_pairs(alloc, left, a, op, right, b)?;
    if pairs.len() >= 1 << 48 {
        return Err(RunNo::RowRange);
    }
    Ok(take_pairs(alloc, left, right, pairs.as_slice())?)
}

// The pairs of rows of a join.
fn join_pairs(
    alloc: Global,
    left: &Table,
    a: AttrId,
    op: CmpOp,
    right: &Table,
    b: AttrId,
) -> Result<Vec<Pair>, NoMemory>
    requires { IsJoinOn left.now right.now a b }
    ensures within { IfOk result (λ pairs. All (IsPairOf left.now right.now) pairs.items) }
    ensures rows { IfOk result (λ pairs. (seals : Seals)
        → map (pair_row left.now right.now) pairs.items ≡ tests.join (cell_tests seals) a.0 op b.0 (rows_of left.now) (rows_of right.now)) }
{
    cell_pairs(alloc, op, column_of(left, a), column_of(right, b))
}

// The pairs of rows of two columns whose cells compare so.
fn cell_pairs(
    alloc: Global,
    op: CmpOp,
    left: &AnyColumn,
    right: &AnyColumn,
) -> Result<Vec<Pair>, NoMemory>
    ensures { IfOk result (λ pairs. pairs.items ≡ pairs_by (compares_pair op) 0 (shown left.now).cells (shown right.now).cells) }
{
    match (cells_of(left), cells_of(right)) {
        (CellSlice::Plain(values), CellSlice::Plain(others)) => {
            ordered_pairs(alloc, op, values, others)
        }
        (CellSlice::Sealed(texts), CellSlice::Sealed(others)) => {
            ordered_pairs(alloc, op, texts, others)
        }
        (CellSlice::Plain(_), CellSlice::Sealed(_)) => Ok(Vec::new(alloc)),
        (CellSlice::Sealed(_), CellSlice::Plain(_)) => Ok(Vec::new(alloc)),
    }
}
