//! Which rows of columns have equal cells, found through a map from each cell to its rows.

ghost use Rattle.std.specs.Prelude.{◌≡◌, ◌++◌, ◌∷◌, [], List, length, IfOk, OnOk, if◌then◌else◌};
ghost use Rattle.sealed_column.specs.Rows.{IsIndex, groups_of, paired, pairs_from, rows_at};
ghost use Rattle.sealed_column.specs.inside.Grouping.{begins};

use mq_base::{NoMemory, Seq};
use std::alloc::Global;
use std::collections::BTreeMap;

/// A row of the left and a row of the right.
#[derive(Clone, Copy, Debug, PartialEq, Eq, PartialOrd, Ord)]
pub struct Pair {
    pub left: u64,
    pub right: u64,
}

/// For each cell that occurs its rows, ascending. No cell is copied. docs/CIPHERS.md, "Rows with equal cells".
pub fn index<'a, C: Ord>(
    alloc: Global,
    cells: &'a [C],
) -> Result<BTreeMap<&'a C, Seq<u64>>, NoMemory>
    ensures { IfOk result (λ found. IsIndex C.cmp found cells.now) }
{
    let mut found = BTreeMap::new(alloc);
    for (row, cell) in cells.iter().enumerate() {
        put(alloc, &mut found, cell, row as u64)?;
    }
    Ok(found)
}

// Adds the row of one more cell.
fn put<'a, C: Ord>(
    alloc: Global,
    found: &mut BTreeMap<&'a C, Seq<u64>>,
    cell: &'a C,
    row: u64,
) -> Result<(), NoMemory>
    ensures { (cells : List C) → length cells ≡ row → IsIndex C.cmp found.old cells
        → OnOk result (IsIndex C.cmp found.new (cells ++ cell.now ∷ [])) }
{
    if let Some(rows) = found.get_mut(&cell) {
        rows.push(row)?;
        return Ok(());
    }
    let mut rows = Seq::new(alloc);
    rows.push(row)?;
    found.insert(cell, rows)?;
    Ok(())
}

/// The rows of a cell, ascending, by the index of the cells. It takes no memory.
pub fn rows_of<'i, 'a, C: Ord>(found: &'i BTreeMap<&'a C, Seq<u64>>, cell: &'a C) -> &'i [u64]
    ensures { (cells : List C) → IsIndex C.cmp found.now cells → result.now ≡ rows_at C.cmp cell.now 0 cells }
{
    match found.get(&cell) {
        Some(rows) => rows.as_slice(),
        None => &[],
    }
}

/// Each row of the left with each row of the right whose cell is equal: by ascending left rows, and for each by ascending right
/// ones. docs/CIPHERS.md, "Rows with equal cells".
pub fn pairs<'a, C: Ord>(
    alloc: Global,
    left: &'a [C],
    right: &'a [C],
) -> Result<Vec<Pair>, NoMemory>
    ensures { IfOk result (λ pairs. pairs.items ≡ pairs_from C.cmp 0 left.now right.now) }
{
    let found = index(alloc, right)?;
    let mut pairs = Vec::new(alloc);
    for (row, cell) in left.iter().enumerate() {
        add_pairs(&mut pairs, row as u64, rows_of(&found, cell))?;
    }
    Ok(pairs)
}

// Adds a row of the left with each of these rows of the right.
fn add_pairs(pairs: &mut Vec<Pair>, row: u64, others: &[u64]) -> Result<(), NoMemory>
    ensures { OnOk result (pairs.new.items ≡ pairs.old.items ++ paired row others.now) }
{
    for other in others {
        pairs.push(Pair {
            left: row,
            right: *other,
        })?;
    }
    Ok(())
}

/// The rows of each kind of cell, in the order in which the kinds first occur. docs/CIPHERS.md, "Rows with equal cells".
pub fn groups<C: Ord>(alloc: Global, cells: &[C]) -> Result<Vec<Seq<u64>>, NoMemory>
    ensures { IfOk result (λ groups. groups.items ≡ groups_of C.cmp cells.now) }
{
    let found = index(alloc, cells)?;
    let mut groups = Vec::new(alloc);
    for (row, cell) in cells.iter().enumerate() {
        add_group(alloc, &mut groups, row as u64, rows_of(&found, cell))?;
    }
    Ok(groups)
}

// Adds a group of rows where it begins with this row.
fn add_group(
    alloc: Global,
    groups: &mut Vec<Seq<u64>>,
    row: u64,
    rows: &[u64],
) -> Result<(), NoMemory>
    ensures { OnOk result (groups.new.items ≡ (if begins rows.now row then groups.old.items ++ rows.now ∷ [] else groups.old.items)) }
{
    if begins_with(rows, row) {
        groups.push(Seq::of(Vec::from_slice(alloc, rows)?))?;
    }
    Ok(())
}

// Whether the first of the rows is this one.
fn begins_with(rows: &[u64], row: u64) -> bool
    ensures { result ≡ begins rows.now row }
{
    match rows {
        [first, ..] => *first == row,
        [] => false,
    }
}
