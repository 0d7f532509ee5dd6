//! Sealing and opening whole columns. Under the schemes whose cells depend on the value alone, each distinct value is sealed once,
//! and each distinct cell opened once.

ghost use Rattle.std.specs.Prelude.{◌≡◌, ◌<◌, ◌++◌, ◌∷◌, [], List, length, IfErr, IfOk, OnOk};
ghost use Rattle.std.specs.List.{All, AllZip};
ghost use Rattle.mq_base.specs.Bytes.{IsShort};
ghost use Rattle.mq_base.specs.declared.table.Scheme.TheVariants.{Rnd};
ghost use Rattle.mq_base.specs.declared.value.Value.{Value};
ghost use Rattle.sealed_column.specs.Cells.{OpenTo};
ghost use Rattle.sealed_column.specs.Seal.{IsSealable, Opens, cell_length, seal, sealed_from};
ghost use Rattle.sealed_column.specs.inside.Opening.{IsMemo, IsOpened, IsSealOf, bytes_at, same_bytes, same_key, value_at};

use crate::column::Column;
use crate::memo::{Bytes, Key, key_of, row_told};
use crate::open::open_value;
use crate::seal::{is_sealable, seal_value};
use crate::state::{CellState, Clear, Locked, SchemeKind};
use mq_base::{NoMemory, Scheme, Seq, Text, Value, ValueType};
use std::alloc::Global;
use std::collections::HashMap;

impl Column<Clear> {
    /// Seals each value under a scheme and a key, as the value of its row at this step; each distinct value is sealed once where
    /// the scheme takes no account of step and row. The cells open to the values. docs/CIPHERS.md, "Sealed columns".
    ///
    /// # Errors
    ///
    /// The column as it was, where memory is wanting.
    pub fn lock<S: SchemeKind>(
        self,
        alloc: Global,
        key: &[u8; 32],
        step: u32,
    ) -> Result<Column<Locked<S>>, (Column<Clear>, NoMemory)>
        ensures typed { IfOk result (λ locked. locked.ty ≡ self.ty) }
        ensures sealed { IfOk result (λ locked. locked.cells ≡ sealed_from S.SCHEME key.now step 0 self.cells) }
        ensures opens { IfOk result (λ locked. OpenTo (Opens S.SCHEME key.now) locked.ty locked.cells self.cells) }
        ensures back { IfErr result (λ failed. failed.0 ≡ self) }
    {
        match seal_all(alloc, S::SCHEME, key, step, self.cells()) {
            Ok(cells) => Ok(Column {
                ty: self.ty,
                cells: Seq::of(cells),
            }),
            Err(stop) => Err((self, stop)),
        }
    }
}

impl<S: SchemeKind> Column<Locked<S>> {
    /// The values that the cells open to under a key: those of the column that was locked under it. Each distinct cell is opened
    /// once where the scheme takes no account of step and row. A column that was locked under no such key gives some values of
    /// its type. docs/CIPHERS.md, "Sealed columns".
    ///
    /// # Errors
    ///
    /// The column as it was, where memory is wanting.
    pub fn unlock(
        self,
        alloc: Global,
        key: &[u8; 32],
    ) -> Result<Column<Clear>, (Column<Locked<S>>, NoMemory)>
        ensures typed { IfOk result (λ opened. opened.ty ≡ self.ty) }
        ensures values { IfOk result (λ opened. (values : List Value) → OpenTo (Opens S.SCHEME key.now) self.ty self.cells values
            → opened.cells ≡ values) }
        ensures back { IfErr result (λ failed. failed.0 ≡ self) }
    {
        match open_all(alloc, S::SCHEME, key, self.ty, self.cells()) {
            Ok(values) => Ok(Column {
                ty: self.ty,
                cells: Seq::of(values),
            }),
            Err(stop) => Err((self, stop)),
        }
    }
}

// The cells of values, which are those of the rows from 0 on.
pub(crate) fn seal_all(
    alloc: Global,
    scheme: Scheme,
    key: &[u8; 32],
    step: u32,
    values: &[Value],
) -> Result<Vec<Text>, NoMemory>
    requires { All IsShort values.now }
    ensures sealed { IfOk result (λ cells. cells.items ≡ sealed_from scheme key.now step 0 values.now) }
    ensures sealable { OnOk result (All IsSealable values.now) }
{
    let mut memo = HashMap::new(alloc);
    let mut cells = Vec::new(alloc);
    for value in values {
        let cell = seal_row(alloc, scheme, key, step, value, cells.as_slice(), &mut memo)?;
        cells.push(cell)?;
    }
    Ok(cells)
}

// The cell of the value of the row after those of these cells.
fn seal_row<'a>(
    alloc: Global,
    scheme: Scheme,
    key: &[u8; 32],
    step: u32,
    value: &'a Value,
    cells: &[Text],
    memo: &mut HashMap<Key<'a>, usize>,
) -> Result<Text, NoMemory>
    requires short { IsShort value.now }
    requires memo { IsMemo same_key value_at (IsSealOf scheme key.now) cells.now memo.old }
    ensures sealed { IfOk result (λ cell. cell ≡ seal scheme key.now step (length cells.now) value.now) }
    ensures sealable { IsSealable value.now }
    ensures kept { IfOk result (λ cell. IsMemo same_key value_at (IsSealOf scheme key.now) (cells.now ++ cell ∷ []) memo.new) }
{
    is_sealable(value);
    match scheme {
        Scheme::Rnd => seal_value(alloc, scheme, key, step, cells.len() as u64, value),
        _ => seal_once(alloc, scheme, key, value, cells, memo),
    }
}

// The cell of a value, copied where the value was met before.
fn seal_once<'a>(
    alloc: Global,
    scheme: Scheme,
    key: &[u8; 32],
    value: &'a Value,
    cells: &[Text],
    memo: &mut HashMap<Key<'a>, usize>,
) -> Result<Text, NoMemory>
    requires fixed { scheme ≡ Rnd → ⊥ }
    requires short { IsShort value.now }
    requires memo { IsMemo same_key value_at (IsSealOf scheme key.now) cells.now memo.old }
    ensures sealed { IfOk result (IsSealOf scheme key.now value.now) }
    ensures kept { IfOk result (λ cell. IsMemo same_key value_at (IsSealOf scheme key.now) (cells.now ++ cell ∷ []) memo.new) }
{
    let row = row_told(memo, key_of(value), cells.len())?;
    match cells.get(row) {
        Some(cell) => Text::copied(alloc, cell.as_bytes()),
        None => seal_fixed(alloc, scheme, key, value),
    }
}

// The cell of a value under a scheme that takes no account of step and row.
fn seal_fixed(
    alloc: Global,
    scheme: Scheme,
    key: &[u8; 32],
    value: &Value,
) -> Result<Text, NoMemory>
    requires fixed { scheme ≡ Rnd → ⊥ }
    requires short { IsShort value.now }
    ensures { IfOk result (IsSealOf scheme key.now value.now) }
{
    seal_value(alloc, scheme, key, 0, 0, value)
}

// The values of this type that cells open to.
pub(crate) fn open_all(
    alloc: Global,
    scheme: Scheme,
    key: &[u8; 32],
    ty: ValueType,
    cells: &[Text],
) -> Result<Vec<Value>, NoMemory>
    requires { All (λ cell. length cell ≡ cell_length scheme ty) cells.now }
    ensures { IfOk result (λ values. AllZip (IsOpened scheme key.now ty) cells.now values.items) }
{
    let mut memo = HashMap::new(alloc);
    let mut values = Vec::new(alloc);
    for cell in cells {
        let cell = cell.as_bytes();
        let value = open_row(alloc, scheme, key, ty, cell, values.as_slice(), &mut memo)?;
        values.push(value)?;
    }
    Ok(values)
}

// The value of the cell of the row after those of these values.
fn open_row<'a>(
    alloc: Global,
    scheme: Scheme,
    key: &[u8; 32],
    ty: ValueType,
    cell: &'a [u8],
    values: &[Value],
    memo: &mut HashMap<Bytes<'a>, usize>,
) -> Result<Value, NoMemory>
    requires len { length cell.now ≡ cell_length scheme ty }
    requires memo { IsMemo same_bytes bytes_at (IsOpened scheme key.now ty) values.now memo.old }
    ensures opened { IfOk result (IsOpened scheme key.now ty cell.now) }
    ensures kept { IfOk result (λ value. IsMemo same_bytes bytes_at (IsOpened scheme key.now ty) (values.now ++ value ∷ []) memo.new) }
{
    match scheme {
        Scheme::Rnd => open_value(alloc, scheme, key, ty, cell),
        _ => open_once(alloc, scheme, key, ty, cell, values, memo),
    }
}

// The value of a cell, copied where the cell was met before.
fn open_once<'a>(
    alloc: Global,
    scheme: Scheme,
    key: &[u8; 32],
    ty: ValueType,
    cell: &'a [u8],
    values: &[Value],
    memo: &mut HashMap<Bytes<'a>, usize>,
) -> Result<Value, NoMemory>
    requires len { length cell.now ≡ cell_length scheme ty }
    requires memo { IsMemo same_bytes bytes_at (IsOpened scheme key.now ty) values.now memo.old }
    ensures opened { IfOk result (IsOpened scheme key.now ty cell.now) }
    ensures kept { IfOk result (λ value. IsMemo same_bytes bytes_at (IsOpened scheme key.now ty) (values.now ++ value ∷ []) memo.new) }
{
    let row = row_told(memo, Bytes { bytes: cell }, values.len())?;
    match values.get(row) {
        Some(value) => Clear::copy_cell(alloc, value),
        None => open_value(alloc, scheme, key, ty, cell),
    }
}
