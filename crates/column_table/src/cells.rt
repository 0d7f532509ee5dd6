//! The cells of a column, whichever state it has.

ghost use Rattle.std.specs.Prelude.{◌≡◌, ◌<◌, IsSome, Some, option_map};
ghost use Rattle.column_table.specs.Columns.{column_at, shown, shown_columns};
ghost use Rattle.column_table.specs.Tables.{column_in};
ghost use Rattle.column_table.specs.inside.Pairs.{lent_cells};

use crate::table::Table;
use mq_base::{AttrId, Text, Value};
use sealed_column::AnyColumn;

// The cells that a column lends: its values, or the bytes of its sealed cells.
#[derive(Clone, Copy)]
pub enum CellSlice<'a> {
    Plain(&'a [Value]),
    Sealed(&'a [Text]),
}

// The cells of a column.
pub(crate) fn cells_of(column: &AnyColumn) -> CellSlice<'_>
    ensures { lent_cells result ≡ (shown column.now).cells }
{
    match column {
        AnyColumn::Clear(clear) => CellSlice::Plain(clear.cells()),
        AnyColumn::Rnd(locked) => CellSlice::Sealed(locked.cells()),
        AnyColumn::Det(locked) => CellSlice::Sealed(locked.cells()),
        AnyColumn::Ope(locked) => CellSlice::Sealed(locked.cells()),
    }
}

// The column of an attribute that a table has.
pub(crate) fn column_of(table: &Table, a: AttrId) -> &AnyColumn
    requires small { a.0 < 64 }
    requires there { IsSome (column_in table.now a.0) }
    ensures { column_in table.now a.0 ≡ Some (shown result.now) }
{
    match &table.columns[usize::from(a.0)] {
        Some(column) => column,
        None => unreachable!(),
    }
}

// The column of an attribute, where there is one.
pub(crate) fn column_if(columns: &[Option<AnyColumn>; 64], a: AttrId) -> Option<&AnyColumn>
    requires { a.0 < 64 }
    ensures { option_map (λ c. shown c.now) result ≡ column_at (shown_columns columns.now) a.0 }
{
    columns[usize::from(a.0)].as_ref()
}
