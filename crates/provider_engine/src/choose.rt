//! Which rows of a table a selection keeps.

ghost use Rattle.std.specs.Prelude.{◌≡◌, IfOk, filter};
ghost use Rattle.std.specs.List.{range_with_len};
ghost use Rattle.column_table.specs.Cells.{cell_tests};
ghost use Rattle.column_table.specs.Chosen.{AreChosen};
ghost use Rattle.column_table.specs.Columns.{row_at, shown_columns};
ghost use Rattle.column_table.specs.Tables.{rows_of};
ghost use Rattle.key_clusters.specs.declared.assigned.Clusters.{Clusters};
ghost use Rattle.plan_algebra.specs.Tree.{apply_one};
ghost use Rattle.provider_engine.specs.Opening.{seals_of};
ghost use Rattle.provider_engine.specs.inside.Choosing.{AreSealedUnder, IsAtRows, IsSelection, keeps};

use column_table::Table;
use key_clusters::Keys;
use mq_base::{NoMemory, PlanOp};
use std::alloc::Global;

// The table of the rows that a selection keeps.
pub(crate) fn select(
    alloc: Global,
    keys: &Keys,
    op: &PlanOp,
    table: &Table,
) -> Result<Table, NoMemory>
    requires { IsSelection op.now }
    ensures rows { IfOk result (λ made. (clusters : Clusters) → AreSealedUnder clusters (shown_columns table.now.columns) op.now
        → rows_of made ≡ apply_one (cell_tests (seals_of clusters keys.now.keys)) op.now (rows_of table.now)) }
    ensures taken { IfOk result (IsAtRows table.now) }
{
    let kept = chosen(alloc, keys, op, table)?;
    table.take_rows(alloc, &kept)
}

// The rows that a selection keeps, ascending.
fn chosen(alloc: Global, keys: &Keys, op: &PlanOp, table: &Table) -> Result<Vec<u64>, NoMemory>
    requires { IsSelection op.now }
    ensures kept { IfOk result (λ kept. (clusters : Clusters) → AreSealedUnder clusters (shown_columns table.now.columns) op.now
        → kept.items ≡ filter (λ row. keeps (cell_tests (seals_of clusters keys.now.keys)) op.now (row_at (shown_columns table.now.columns) table.now.counts row)) (range_with_len 0 table.now.rows)) }
    ensures chosen { IfOk result (λ kept. AreChosen table.now.rows kept.items) }
{
    match op {
        PlanOp::SelConst(a, cmp, x) => {
            table.rows_by_constant(alloc, &keys.keys[usize::from(a.0)], *a, *cmp, x)
        }
        PlanOp::SelCount(cmp, n) => table.rows_by_count(alloc, *cmp, *n),
        PlanOp::SelAttr(a, cmp, b) => table.rows_by_pair(alloc, *a, *cmp, *b),
        _ => unreachable!(),
    }
}
