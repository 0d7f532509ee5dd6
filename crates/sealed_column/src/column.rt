ghost use Rattle.std.specs.Prelude.{◌≡◌, ◌<◌, ℕ, List, IsTrue, IfOk, length};
ghost use Rattle.std.specs.List.{All};
ghost use Rattle.std.specs.Ordering.{is_eq};
ghost use Rattle.mq_base.specs.declared.value.Value.{Value};
ghost use Rattle.mq_base.specs.declared.value.ValueType.TheVariants as type;
ghost use Rattle.mq_base.specs.Value.{IsCell, value_cmp};
ghost use Rattle.sealed_column.specs.Cells.{IsFirstGreatest, IsFirstLeast, OnBothValues, OnValues, OpenTo, order_at, picked, sum_of};
ghost use Rattle.sealed_column.specs.Seal.{IsValueOf};

use crate::pick::{copy_picked, first_greatest, first_least, order_between};
use crate::state::{CellState, Clear, DetKind, EqCells, Locked, OpeKind, OrdCells, RndKind};
use crate::total::sum_at;
use mq_base::{NoMemory, Seq, Value, ValueType};
use std::alloc::Global;
use std::cmp::Ordering;

/// A column of one type in one state, a cell for each row. A column of `Clear` has its values, a column of `Locked<S>` the bytes of
/// its cells, each as long as its scheme and type say. It keeps no key. docs/CIPHERS.md, "Sealed columns".
#[derive(Drop)]
pub struct Column<St: CellState> {
    pub(crate) ty: ValueType,
    pub(crate) cells: Seq<St::Cell>,
    ghost sized: { All (λ cell. IsTrue (St.fits ty cell)) cells },
}

/// A column in whichever state.
#[derive(Drop)]
pub enum AnyColumn {
    Clear(Column<Clear>),
    Rnd(Column<Locked<RndKind>>),
    Det(Column<Locked<DetKind>>),
    Ope(Column<Locked<OpeKind>>),
}

impl Column<Clear> {
    /// The column of these values, which are of this type, each TEXT of at most 120 bytes. It takes no memory.
    pub fn of(ty: ValueType, values: Seq<Value>) -> Column<Clear>
        requires { All (IsValueOf ty) values }
        ensures typed { result.ty ≡ ty }
        ensures cells { result.cells ≡ values }
    {
        Column { ty, cells: values }
    }

    /// The sum of the INT at these rows, which are in range; the column is of INT within 64 bits. It takes no memory.
    pub fn sum(&self, rows: &[u64]) -> i128
        requires ints { All (IsCell type.Int) self.now.cells }
        requires within { All (λ row. row < length self.now.cells) rows.now }
        ensures { result ≡ sum_of (picked self.now.cells rows.now) }
    {
        sum_at(self.cells.as_slice(), rows)
    }
}

impl<St: CellState> Column<St> {
    /// The number of rows. It takes no memory.
    pub fn rows(&self) -> u64
        ensures { result ≡ length self.now.cells }
    {
        self.cells.as_slice().len() as u64
    }

    /// The cells in the order of the rows. It takes no memory.
    pub fn cells(&self) -> &[St::Cell]
        ensures { result.now ≡ self.now.cells }
    {
        self.cells.as_slice()
    }

    /// A column of the cells at these rows, in this order, where a row may be listed more than once. The rows are in range.
    /// Whatever values the cells open to, the new cells open to those at these rows.
    pub fn take(&self, alloc: Global, rows: &[u64]) -> Result<Column<St>, NoMemory>
        requires { All (λ row. row < length self.now.cells) rows.now }
        ensures typed { IfOk result (λ taken. taken.ty ≡ self.now.ty) }
        ensures cells { IfOk result (λ taken. taken.cells ≡ picked self.now.cells rows.now) }
        ensures values { IfOk result (λ taken. (key : List ℕ) (values : List Value)
            → OpenTo (St.opens key) self.now.ty self.now.cells values
            → OpenTo (St.opens key) taken.ty taken.cells (picked values rows.now)) }
    {
        let cells = copy_picked::<St>(alloc, self.cells.as_slice(), rows)?;
        Ok(Column {
            ty: self.ty,
            cells: Seq::of(cells),
        })
    }
}

impl<St: EqCells> Column<St> {
    /// Whether the cell at a row is that at a row of another column. The rows are in range, and the columns of one type. It takes
    /// no memory. Where both columns open to values under one key, it says whether the values are one.
    pub fn same(&self, row: u64, other: &Column<St>, other_row: u64) -> bool
        requires row_in { row < length self.now.cells }
        requires other_in { other_row < length other.now.cells }
        requires one_type { other.now.ty ≡ self.now.ty }
        ensures cells { result ≡ is_eq (order_at St.Cell.cmp self.now.cells row other.now.cells other_row) }
        ensures values { OnBothValues St.opens self.now.ty self.now.cells other.now.cells
            (λ values more. result ≡ is_eq (order_at value_cmp values row more other_row)) }
    {
        order_between(self.cells(), row, other.cells(), other_row).is_eq()
    }
}

impl<St: OrdCells> Column<St> {
    /// The order of the cell at a row and that at a row of another column. The rows are in range, and the columns of one type. It
    /// takes no memory. Where both columns open to values under one key, it is the order of the values.
    pub fn compare(&self, row: u64, other: &Column<St>, other_row: u64) -> Ordering
        requires row_in { row < length self.now.cells }
        requires other_in { other_row < length other.now.cells }
        requires one_type { other.now.ty ≡ self.now.ty }
        ensures cells { result ≡ order_at St.Cell.cmp self.now.cells row other.now.cells other_row }
        ensures values { OnBothValues St.opens self.now.ty self.now.cells other.now.cells
            (λ values more. result ≡ order_at value_cmp values row more other_row) }
    {
        order_between(self.cells(), row, other.cells(), other_row)
    }

    /// The first of these rows that holds their least cell. There is a row, and each is in range. It takes no memory. Where the
    /// column opens to values under a key, it holds their least value.
    pub fn least(&self, rows: &[u64]) -> u64
        requires some { 0 < length rows.now }
        requires within { All (λ row. row < length self.now.cells) rows.now }
        ensures cells { IsFirstLeast St.Cell.cmp self.now.cells rows.now result }
        ensures values { OnValues St.opens self.now.ty self.now.cells (λ values. IsFirstLeast value_cmp values rows.now result) }
    {
        first_least(self.cells(), rows)
    }

    /// The first of these rows that holds their greatest cell. There is a row, and each is in range. It takes no memory. Where the
    /// column opens to values under a key, it holds their greatest value.
    pub fn greatest(&self, rows: &[u64]) -> u64
        requires some { 0 < length rows.now }
        requires within { All (λ row. row < length self.now.cells) rows.now }
        ensures cells { IsFirstGreatest St.Cell.cmp self.now.cells rows.now result }
        ensures values { OnValues St.opens self.now.ty self.now.cells (λ values. IsFirstGreatest value_cmp values rows.now result) }
    {
        first_greatest(self.cells(), rows)
    }
}
