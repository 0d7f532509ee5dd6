//! The rows of a table at listed places.

ghost use Rattle.std.specs.Prelude.{◌≡◌, ◌<◌, ◌^◌, IfOk, IsTrue, length, map, option_map, replicate, None};
ghost use Rattle.std.specs.List.{All};
ghost use Rattle.column_table.specs.Columns.{at_rows, columns_at, counts_have, has_rows, row_at, shown, shown_columns};
ghost use Rattle.column_table.specs.Tables.{rows_of};
ghost use Rattle.sealed_column.specs.Cells.{picked};

use crate::table::Table;
use mq_base::{NoMemory, Seq};
use sealed_column::AnyColumn;
use std::alloc::Global;

impl Table {
    /// The rows at these places, in this order, where a row may be listed more than once: each column and the counts at them. There are
    /// fewer than 2^48 places, and each is one of the table. docs/MODEL.md, "Encoded run".
    ///
    /// `NoMemory` where the allocator refused a request. The time is linear in the cells that come out.
    pub fn take_rows(&self, alloc: Global, rows: &[u64]) -> Result<Table, NoMemory>
        requires few { length rows.now < 2 ^ 48 }
        requires within { All (λ row. row < self.now.rows) rows.now }
        ensures rows { IfOk result (λ taken. rows_of taken ≡ map (row_at (shown_columns self.now.columns) self.now.counts) rows.now) }
        ensures columns { IfOk result (λ taken. shown_columns taken.columns ≡ columns_at rows.now (shown_columns self.now.columns)) }
        ensures counts { IfOk result (λ taken. taken.counts ≡ option_map (λ c. picked c rows.now) self.now.counts) }
        ensures number { IfOk result (λ taken. taken.rows ≡ length rows.now) }
    {
        let columns = take_columns(alloc, self.rows, &self.columns, rows)?;
        let counts = take_counts(alloc, self.rows, &self.counts, rows)?;
        Ok(Table {
            rows: rows.len() as u64,
            columns,
            counts,
        })
    }
}

/// A table's columns before there are any. It takes no memory.
pub fn no_columns() -> [Option<AnyColumn>; 64]
    ensures { shown_columns result ≡ replicate 64 None }
{
    [
        None, None, None, None, None, None, None, None, None, None, None, None, None, None, None,
        None, None, None, None, None, None, None, None, None, None, None, None, None, None, None,
        None, None, None, None, None, None, None, None, None, None, None, None, None, None, None,
        None, None, None, None, None, None, None, None, None, None, None, None, None, None, None,
        None, None, None, None,
    ]
}

// The columns at these rows.
fn take_columns(
    alloc: Global,
    count: u64,
    columns: &[Option<AnyColumn>; 64],
    rows: &[u64],
) -> Result<[Option<AnyColumn>; 64], NoMemory>
    requires filled { All (λ c. IsTrue (has_rows count c)) (shown_columns columns.now) }
    requires within { All (λ row. row < count) rows.now }
    ensures { IfOk result (λ taken. shown_columns taken ≡ columns_at rows.now (shown_columns columns.now)) }
{
    let mut taken = no_columns();
    for a in 0..64 {
        taken[a] = take_place(alloc, count, &columns[a], rows)?;
    }
    Ok(taken)
}

// The column of a place at these rows, where there is one.
fn take_place(
    alloc: Global,
    count: u64,
    column: &Option<AnyColumn>,
    rows: &[u64],
) -> Result<Option<AnyColumn>, NoMemory>
    requires filled { IsTrue (has_rows count (option_map shown column.now)) }
    requires within { All (λ row. row < count) rows.now }
    ensures { IfOk result (λ taken. option_map shown taken ≡ option_map (at_rows rows.now) (option_map shown column.now)) }
{
    match column {
        Some(column) => Ok(Some(take_column(alloc, column, rows)?)),
        None => Ok(None),
    }
}

// A column at these rows.
pub(crate) fn take_column(
    alloc: Global,
    column: &AnyColumn,
    rows: &[u64],
) -> Result<AnyColumn, NoMemory>
    requires { All (λ row. row < length (shown column.now).cells) rows.now }
    ensures { IfOk result (λ taken. shown taken ≡ at_rows rows.now (shown column.now)) }
{
    match column {
        AnyColumn::Clear(cells) => Ok(AnyColumn::Clear(cells.take(alloc, rows)?)),
        AnyColumn::Rnd(cells) => Ok(AnyColumn::Rnd(cells.take(alloc, rows)?)),
        AnyColumn::Det(cells) => Ok(AnyColumn::Det(cells.take(alloc, rows)?)),
        AnyColumn::Ope(cells) => Ok(AnyColumn::Ope(cells.take(alloc, rows)?)),
    }
}

// The counts at these rows, where they are told.
fn take_counts(
    alloc: Global,
    count: u64,
    counts: &Option<Seq<u64>>,
    rows: &[u64],
) -> Result<Option<Seq<u64>>, NoMemory>
    requires filled { IsTrue (counts_have count counts.now) }
    requires within { All (λ row. row < count) rows.now }
    ensures { IfOk result (λ taken. taken ≡ option_map (λ c. picked c rows.now) counts.now) }
{
    match counts {
        Some(counts) => Ok(Some(Seq::of(take_numbers(alloc, counts.as_slice(), rows)?))),
        None => Ok(None),
    }
}

// The numbers at these places.
#[tactic(auto, using(crate::proofs::ColumnLaws::numbers_more))]
fn take_numbers(alloc: Global, numbers: &[u64], rows: &[u64]) -> Result<Vec<u64>, NoMemory>
    requires { All (λ row. row < length numbers.now) rows.now }
    ensures { IfOk result (λ taken. taken.items ≡ picked numbers.now rows.now) }
{
    let mut taken = Vec::new(alloc);
    for row in rows {
        taken.push(numbers[*row as usize])?;
    }
    Ok(taken)
}
