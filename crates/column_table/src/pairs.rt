//! Lists of pairs of rows: those of a product, and those of a join.

ghost use Rattle.std.specs.Prelude.{◌≡◌, ◌++◌, IfOk, OnOk, map};
ghost use Rattle.std.specs.List.{range_with_len};
ghost use Rattle.column_table.specs.inside.Pairs as beside;
ghost use Rattle.row_algebra.specs.Tests as tests;
ghost use Rattle.sealed_column.specs.declared.rows.Pair.{Pair};
ghost use Rattle.sealed_column.specs.Rows.{paired};

use crate::cell::holds;
use crate::keep::push_if;
use mq_base::{CmpOp, NoMemory};
use sealed_column::{Pair, pairs};
use std::alloc::Global;

// Each of so many rows with each of so many others.
pub(crate) fn all_pairs(alloc: Global, rows: u64, others: u64) -> Result<Vec<Pair>, NoMemory>
    ensures { IfOk result (λ made. made.items ≡ beside.all_pairs rows others) }
{
    let mut made = Vec::new(alloc);
    for row in 0..rows {
        add_all(&mut made, row, others)?;
    }
    Ok(made)
}

// Adds a row with each of so many others.
#[tactic(auto, using(crate::proofs::PairRows::paired_range_more))]
fn add_all(made: &mut Vec<Pair>, row: u64, others: u64) -> Result<(), NoMemory>
    ensures { OnOk result (made.new.items ≡ made.old.items ++ paired row (range_with_len 0 others)) }
{
    for other in 0..others {
        made.push(Pair {
            left: row,
            right: other,
        })?;
    }
    Ok(())
}

// Each row of the left with each row of the right whose cells compare so. Equal cells are found through a map.
pub(crate) fn ordered_pairs<C: Ord>(
    alloc: Global,
    op: CmpOp,
    left: &[C],
    right: &[C],
) -> Result<Vec<Pair>, NoMemory>
    ensures { IfOk result (λ made. made.items ≡ beside.pairs_by (λ c d. tests.holds op (C.cmp c d)) 0 left.now right.now) }
{
    match op {
        CmpOp::Eq => pairs(alloc, left, right),
        _ => compared_pairs(alloc, op, left, right),
    }
}

// The same, where each pair of cells is compared.
fn compared_pairs<C: Ord>(
    alloc: Global,
    op: CmpOp,
    left: &[C],
    right: &[C],
) -> Result<Vec<Pair>, NoMemory>
    ensures { IfOk result (λ made. made.items ≡ beside.pairs_by (λ c d. tests.holds op (C.cmp c d)) 0 left.now right.now) }
{
    let mut made = Vec::new(alloc);
    for (row, cell) in left.iter().enumerate() {
        add_compared(&mut made, op, row as u64, cell, right)?;
    }
    Ok(made)
}

// Adds a row of the left with each row of the right whose cell compares so with its own.
fn add_compared<C: Ord>(
    made: &mut Vec<Pair>,
    op: CmpOp,
    row: u64,
    cell: &C,
    others: &[C],
) -> Result<(), NoMemory>
    ensures { OnOk result (made.new.items ≡ made.old.items ++ paired row (beside.rows_where (λ d. tests.holds op (C.cmp cell.now d)) 0 others.now)) }
{
    for (other, other_cell) in others.iter().enumerate() {
        let pair = Pair {
            left: row,
            right: other as u64,
        };
        push_if(made, holds(op, cell.cmp(other_cell)), pair)?;
    }
    Ok(())
}

// The rows of the left.
pub(crate) fn left_rows(alloc: Global, pairs: &[Pair]) -> Result<Vec<u64>, NoMemory>
    ensures { IfOk result (λ rows. rows.items ≡ map (λ (p : Pair). p.left) pairs.now) }
{
    Ok(pairs.iter().map(|pair| pair.left).collect(alloc)?)
}

// The rows of the right.
pub(crate) fn right_rows(alloc: Global, pairs: &[Pair]) -> Result<Vec<u64>, NoMemory>
    ensures { IfOk result (λ rows. rows.items ≡ map (λ (p : Pair). p.right) pairs.now) }
{
    Ok(pairs.iter().map(|pair| pair.right).collect(alloc)?)
}
