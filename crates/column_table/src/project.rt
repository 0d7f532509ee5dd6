//! The columns of a table that a projection keeps.

ghost use Rattle.std.specs.Prelude.{◌≡◌, ◌<◌, ℕ, None, map, set, if◌then◌else◌};
ghost use Rattle.base_laws.specs.Sets.{has};
ghost use Rattle.column_table.specs.Columns.{column_at, shown_columns};
ghost use Rattle.column_table.specs.Tables.{rows_of};
ghost use Rattle.row_algebra.specs.Rows.{cut};

use crate::table::Table;
use mq_base::{AttrId, AttrSet};
use sealed_column::AnyColumn;

impl Table {
    /// The table cut to these attributes: the other columns are let go, and the rows and the counts stay. It takes no memory.
    /// docs/MODEL.md, "Encoded run".
    pub fn project(self, kept: AttrSet) -> Table
        ensures columns { (a : ℕ) → column_at (shown_columns result.columns) a ≡ (if has kept.0 a then column_at (shown_columns self.columns) a else None) }
        ensures counts { result.counts ≡ self.counts }
        ensures rows { rows_of result ≡ map (cut kept.0) (rows_of self) }
    {
        let Table {
            rows,
            mut columns,
            counts,
        } = self;
        keep_columns(&mut columns, kept);
        Table {
            rows,
            columns,
            counts,
        }
    }
}

// Lets the columns of other attributes go.
fn keep_columns(columns: &mut [Option<AnyColumn>; 64], kept: AttrSet)
    ensures { (a : ℕ) → column_at (shown_columns columns.new) a ≡ (if has kept.0 a then column_at (shown_columns columns.old) a else None) }
{
    for a in 0..64 {
        keep_if(columns, AttrId(a), kept.has(AttrId(a)));
    }
}

// Lets a column go where it is not kept.
fn keep_if(columns: &mut [Option<AnyColumn>; 64], a: AttrId, keep: bool)
    requires { a.0 < 64 }
    ensures { shown_columns columns.new ≡ (if keep then shown_columns columns.old else set (shown_columns columns.old) a.0 None) }
{
    if !keep {
        columns[usize::from(a.0)] = None;
    }
}
