//! Which rows of a table compare so with a constant, with a number, or by two of their cells.

ghost use Rattle.std.specs.Prelude.{◌≡◌, ◌<◌, ◌∷◌, [], pos, IfOk, filter, option_map};
ghost use Rattle.std.specs.List.{range_with_len};
ghost use Rattle.std.specs.Ordering.{int_cmp};
ghost use Rattle.column_table.specs.Cells.{Seals, compares_constant, compares_pair};
ghost use Rattle.column_table.specs.Chosen.{AreChosen, IsSealedBeside};
ghost use Rattle.column_table.specs.Columns.{cell_at, column_at, count_at, shown, shown_columns};
ghost use Rattle.column_table.specs.inside.Choosing.{constant_cell};
ghost use Rattle.column_table.specs.inside.Lent.{cell_of};
ghost use Rattle.mq_base.specs.Value.{type_of};
ghost use Rattle.row_algebra.specs.Tests.{both_pass, holds, passes};
ghost use Rattle.sealed_column.specs.Seal.{IsValueOf, sealed_from};

use crate::cell::{CellRef, both_compare, cell_in, count_compares};
use crate::keep::push_if;
use crate::table::Table;
use mq_base::{AttrId, CmpOp, NoMemory, Seq, Value, ValueType};
use sealed_column::{
    AnyColumn, CellState, Clear, Column, DetKind, Locked, OpeKind, RndKind, SchemeKind,
};
use std::alloc::Global;

impl Table {
    // The cell of an attribute at a row, where the table has it.
    fn cell(&self, a: AttrId, row: u64) -> Option<CellRef<'_>>
        requires { a.0 < 64 }
        ensures { option_map cell_of result ≡ cell_at (shown_columns self.now.columns) row a.0 }
    {
        match &self.columns[usize::from(a.0)] {
            Some(column) => cell_in(column, row),
            None => None,
        }
    }

    // The count at a row, where the table has counts.
    fn count(&self, row: u64) -> Option<u64>
        ensures { result ≡ count_at self.now.counts row }
    {
        match &self.counts {
            Some(counts) => counts.as_slice().get(row as usize).copied(),
            None => None,
        }
    }

    /// The rows whose attribute, one below 64, compares so with a constant, ascending: the values of a plain column with the constant, the
    /// bytes of a sealed one's cells with the constant's seal under the column's scheme and this key. The constant is one that can be
    /// sealed; it is, once. There is no such row where the table has no such column. docs/MODEL.md, "Encoded run".
    ///
    /// `NoMemory` where the allocator refused a request. The time is that of a comparison for each row, and of one seal where the column is
    /// sealed.
    pub fn rows_by_constant(
        &self,
        alloc: Global,
        key: &[u8; 32],
        a: AttrId,
        op: CmpOp,
        x: &Value,
    ) -> Result<Vec<u64>, NoMemory>
        requires attribute { a.0 < 64 }
        requires constant { IsValueOf (type_of x.now) x.now }
        ensures chosen { IfOk result (λ kept. AreChosen self.now.rows kept.items) }
        ensures kept { IfOk result (λ kept. (seals : Seals) → IsSealedBeside seals key.now a.0 x.now (column_at (shown_columns self.now.columns) a.0)
            → kept.items ≡ filter (λ row. passes (compares_constant seals a.0 op x.now) (cell_at (shown_columns self.now.columns) row a.0)) (range_with_len 0 self.now.rows)) }
    {
        match &self.columns[usize::from(a.0)] {
            Some(column) => {
                let constant = constant_beside(alloc, key, column, x)?;
                self.rows_by_cell(alloc, a, op, cell_in(&constant, 0))
            }
            None => Ok(Vec::new(alloc)),
        }
    }

    // The rows whose attribute compares so with a cell, ascending.
    #[tactic(auto, using(crate::proofs::ChoiceLaws::chosen_more))]
    fn rows_by_cell(
        &self,
        alloc: Global,
        a: AttrId,
        op: CmpOp,
        other: Option<CellRef<'_>>,
    ) -> Result<Vec<u64>, NoMemory>
        requires { a.0 < 64 }
        ensures { IfOk result (λ kept. kept.items ≡ filter (λ row. both_pass (compares_pair op) (cell_at (shown_columns self.now.columns) row a.0) (option_map cell_of other.entry)) (range_with_len 0 self.now.rows)) }
    {
        let mut kept = Vec::new(alloc);
        for row in 0..self.rows {
            push_if(&mut kept, both_compare(op, self.cell(a, row), other), row)?;
        }
        Ok(kept)
    }

    /// The rows whose two attributes, each below 64, compare so, ascending: values with values, bytes with bytes. A row without one of the
    /// cells is none of them, nor is one with a plain and a sealed cell. docs/MODEL.md, "Encoded run".
    ///
    /// `NoMemory` where the allocator refused a request. The time is that of a comparison for each row.
    #[tactic(auto, using(crate::proofs::ChoiceLaws::chosen_more))]
    pub fn rows_by_pair(
        &self,
        alloc: Global,
        a: AttrId,
        op: CmpOp,
        b: AttrId,
    ) -> Result<Vec<u64>, NoMemory>
        requires left { a.0 < 64 }
        requires right { b.0 < 64 }
        ensures { IfOk result (λ kept. kept.items ≡ filter (λ row. both_pass (compares_pair op) (cell_at (shown_columns self.now.columns) row a.0) (cell_at (shown_columns self.now.columns) row b.0)) (range_with_len 0 self.now.rows)) }
    {
        let mut kept = Vec::new(alloc);
        for row in 0..self.rows {
            push_if(
                &mut kept,
                both_compare(op, self.cell(a, row), self.cell(b, row)),
                row,
            )?;
        }
        Ok(kept)
    }

    /// The rows whose count compares so with a number, ascending. There is no such row where the table has no counts. docs/MODEL.md,
    /// "Encoded run".
    ///
    /// `NoMemory` where the allocator refused a request. The time is that of a comparison for each row.
    pub fn rows_by_count(&self, alloc: Global, op: CmpOp, number: i64) -> Result<Vec<u64>, NoMemory>
        ensures { IfOk result (λ kept. kept.items ≡ filter (λ row. passes (λ n. holds op (int_cmp (pos n) number)) (count_at self.now.counts row)) (range_with_len 0 self.now.rows)) }
    {
        let mut kept = Vec::new(alloc);
        for row in 0..self.rows {
            push_if(&mut kept, count_compares(op, self.count(row), number), row)?;
        }
        Ok(kept)
    }
}

// A constant as a column of one row, in the state of this column.
fn constant_beside(
    alloc: Global,
    key: &[u8; 32],
    column: &AnyColumn,
    x: &Value,
) -> Result<AnyColumn, NoMemory>
    requires { IsValueOf (type_of x.now) x.now }
    ensures { IfOk result (λ made. (shown made).cells ≡ constant_cell key.now x.now (shown column.now).scheme ∷ []) }
{
    let clear = constant_column(alloc, x)?;
    match column {
        AnyColumn::Clear(_) => Ok(AnyColumn::Clear(clear)),
        AnyColumn::Rnd(_) => Ok(AnyColumn::Rnd(locked::<RndKind>(alloc, key, clear)?)),
        AnyColumn::Det(_) => Ok(AnyColumn::Det(locked::<DetKind>(alloc, key, clear)?)),
        AnyColumn::Ope(_) => Ok(AnyColumn::Ope(locked::<OpeKind>(alloc, key, clear)?)),
    }
}

// A constant as a column of one row.
fn constant_column(alloc: Global, x: &Value) -> Result<Column<Clear>, NoMemory>
    requires { IsValueOf (type_of x.now) x.now }
    ensures { IfOk result (λ made. made.cells ≡ x.now ∷ []) }
{
    let mut values = Vec::new(alloc);
    values.push(Clear::copy_cell(alloc, x)?)?;
    Ok(Column::of(type_of(x), Seq::of(values)))
}

// The type of a value.
fn type_of(x: &Value) -> ValueType
    ensures { result ≡ type_of x.now }
{
    match x {
        Value::Int(_) => ValueType::Int,
        Value::Text(_) => ValueType::Text,
    }
}

// A column sealed as that of a constant, whose place and row are 0.
fn locked<S: SchemeKind>(
    alloc: Global,
    key: &[u8; 32],
    clear: Column<Clear>,
) -> Result<Column<Locked<S>>, NoMemory>
    ensures { IfOk result (λ made. made.cells ≡ sealed_from S.SCHEME key.now 0 0 clear.cells) }
{
    match clear.lock::<S>(alloc, key, 0) {
        Ok(made) => Ok(made),
        Err((_, no_memory)) => Err(no_memory),
    }
}
