//! Which rows of a table have the same cells of some attributes: rows are labelled by a column at a time, and grouped by their labels.

ghost use Rattle.std.specs.Prelude.{◌≡◌, ℕ, Bool, IfOk, length, map, replicate};
ghost use Rattle.std.specs.List.{zip};
ghost use Rattle.column_table.specs.Columns.{shown};
ghost use Rattle.column_table.specs.Groups.{HasEach, first_in};
ghost use Rattle.column_table.specs.inside.Labels.{AreLabels, TellsEqual, both_equal, groups_by, label_pair, same_in, same_rows};
ghost use Rattle.sealed_column.specs.declared.rows.Pair.{Pair};

use crate::cells::{CellSlice, cells_of, column_of};
use crate::table::Table;
use mq_base::{AttrSet, NoMemory, Seq};
use sealed_column::{AnyColumn, Pair, groups, index, rows_of};
use std::alloc::Global;

// The rows of each combination of cells of these attributes that occurs, in the order in which they first occur.
pub(crate) fn row_groups(
    alloc: Global,
    table: &Table,
    set: AttrSet,
) -> Result<Vec<Seq<u64>>, NoMemory>
    requires { HasEach table.now set.0 }
    ensures { IfOk result (λ groups. groups.items ≡ groups_by (same_rows table.now set.0) table.now.rows) }
{
    let labels = row_labels(alloc, table, set)?;
    groups(alloc, labels.as_slice())
}

// A label for each row, which two rows share where they have the same cells of these attributes.
fn row_labels(alloc: Global, table: &Table, set: AttrSet) -> Result<Vec<u64>, NoMemory>
    requires { HasEach table.now set.0 }
    ensures { IfOk result (λ labels. AreLabels (same_rows table.now set.0) table.now.rows labels.items) }
{
    let mut labels = one_label(alloc, table.rows)?;
    let mut left = set;
    while let Some(a) = left.first() {
        let others = column_labels(alloc, column_of(table, a))?;
        labels = both_labels(alloc, labels.as_slice(), others.as_slice())?;
        left = left.difference(AttrSet::of(a));
    }
    Ok(labels)
}

// The same label for each row.
fn one_label(alloc: Global, rows: u64) -> Result<Vec<u64>, NoMemory>
    ensures { IfOk result (λ labels. labels.items ≡ replicate rows 0) }
{
    let mut labels = Vec::new(alloc);
    for _row in 0..rows {
        labels.push(0)?;
    }
    Ok(labels)
}

// A label for each row, which two rows share where the column has the same cell at both.
fn column_labels(alloc: Global, column: &AnyColumn) -> Result<Vec<u64>, NoMemory>
    ensures { IfOk result (λ labels. AreLabels (same_in (shown column.now).cells) (length (shown column.now).cells) labels.items) }
{
    match cells_of(column) {
        CellSlice::Plain(values) => first_rows(alloc, values),
        CellSlice::Sealed(texts) => first_rows(alloc, texts),
    }
}

// A label for each row, which two rows share where they share both of these.
fn both_labels(alloc: Global, labels: &[u64], others: &[u64]) -> Result<Vec<u64>, NoMemory>
    requires { length others.now ≡ length labels.now }
    ensures { IfOk result (λ made. AreLabels (both_equal labels.now others.now) (length labels.now) made.items) }
{
    let pairs = label_pairs(alloc, labels, others)?;
    first_rows(alloc, pairs.as_slice())
}

// The labels of each row as a pair.
fn label_pairs(alloc: Global, labels: &[u64], others: &[u64]) -> Result<Vec<Pair>, NoMemory>
    ensures { IfOk result (λ pairs. pairs.items ≡ map label_pair (zip labels.now others.now)) }
{
    Ok(
        labels
            .iter()
            .zip(others)
            .map(|(label, other)| Pair {
                left: *label,
                right: *other,
            })
            .collect(alloc)?,
    )
}

// For each cell the first row with an equal one.
fn first_rows<C: Ord>(alloc: Global, cells: &[C]) -> Result<Vec<u64>, NoMemory>
    ensures { IfOk result (λ rows. (same : ℕ → ℕ → Bool) → TellsEqual C.cmp cells.now same → AreLabels same (length cells.now) rows.items) }
{
    let found = index(alloc, cells)?;
    let mut rows = Vec::new(alloc);
    for cell in cells {
        rows.push(first_of(rows_of(&found, cell)))?;
    }
    Ok(rows)
}

// The first of listed rows.
pub(crate) fn first_of(rows: &[u64]) -> u64
    ensures { result ≡ first_in rows.now }
{
    match rows {
        [first, ..] => *first,
        [] => 0,
    }
}
