//! The states of a column: what kind of cell each has, what a cell opens to, and which comparisons the cells keep.

ghost use Rattle.std.specs.Prelude.{◌≡◌, ◌==◌, ℕ, List, Bool, length, IfOk};
ghost use Rattle.std.specs.Ordering.{is_eq};
ghost use Rattle.mq_base.specs.declared.table.Scheme.{Scheme};
ghost use Rattle.mq_base.specs.declared.table.Scheme.TheVariants as scheme;
ghost use Rattle.mq_base.specs.declared.value.Value.{Value};
ghost use Rattle.mq_base.specs.declared.value.ValueType.{ValueType};
ghost use Rattle.mq_base.specs.Value.{type_of, value_cmp};
ghost use Rattle.sealed_column.specs.Seal.{Opens, cell_length, is_value_of};
ghost use Rattle.sealed_column.specs.SealLaws.{clear_agrees, clear_orders, det_agrees, ope_agrees, ope_orders};

use mq_base::{NoMemory, Scheme, Text, Value};
use std::alloc::Global;
use std::marker::PhantomData;

/// A state of a column: the kind of its cells, and what they mean. docs/CIPHERS.md, "Sealed columns".
pub trait CellState: Drop {
    /// A value, or the bytes of a sealed one.
    type Cell: Ord + Drop;

    // under a key a cell opens to a value
    ghost opens: { List ℕ → Self.Cell → Value → Type 0 };

    // whether a cell has the form of the cells of a type
    ghost fits: { ValueType → Self.Cell → Bool };

    /// The same cell once more.
    fn copy_cell(alloc: Global, cell: &Self::Cell) -> Result<Self::Cell, NoMemory>
        ensures { IfOk result (λ copy. copy ≡ cell.now) };
}

/// A scheme as a type.
pub trait SchemeKind: Drop {
    ghost SCHEME: { Scheme };

    /// The scheme that the type stands for.
    const SCHEME: Scheme;
}

/// A state whose cells are equal exactly where their values are. docs/CIPHERS.md, "Sealed columns".
pub trait EqCells: CellState {
    // under one key, cells of values of one type are equal exactly where the values are
    ghost agrees: { (key : List ℕ) (c d : Self.Cell) (v w : Value) → Self.opens key c v → Self.opens key d w
        → type_of v ≡ type_of w → is_eq (Self.Cell.cmp c d) ≡ is_eq (value_cmp v w) };
}

/// A state whose cells are ordered as their values are. docs/CIPHERS.md, "Sealed columns".
pub trait OrdCells: EqCells {
    // under one key, cells of values of one type are ordered as the values are
    ghost orders: { (key : List ℕ) (c d : Self.Cell) (v w : Value) → Self.opens key c v → Self.opens key d w
        → type_of v ≡ type_of w → Self.Cell.cmp c d ≡ value_cmp v w };
}

/// Plain values: each cell is its value.
#[derive(Drop)]
pub struct Clear;

/// The randomised scheme.
#[derive(Drop)]
pub struct RndKind;

/// The deterministic scheme.
#[derive(Drop)]
pub struct DetKind;

/// The order-preserving scheme.
#[derive(Drop)]
pub struct OpeKind;

/// Cells that a scheme sealed. No value of the type is made: it marks a column's state.
#[derive(Drop)]
pub struct Locked<S: SchemeKind> {
    kind: PhantomData<S>,
}

impl SchemeKind for RndKind {
    ghost SCHEME = { scheme.Rnd };

    const SCHEME: Scheme = Scheme::Rnd;
}

impl SchemeKind for DetKind {
    ghost SCHEME = { scheme.Det };

    const SCHEME: Scheme = Scheme::Det;
}

impl SchemeKind for OpeKind {
    ghost SCHEME = { scheme.Ope };

    const SCHEME: Scheme = Scheme::Ope;
}

impl CellState for Clear {
    type Cell = Value;

    ghost opens = { λ key cell value. cell ≡ value };

    ghost fits = { is_value_of };

    fn copy_cell(alloc: Global, cell: &Value) -> Result<Value, NoMemory> {
        match cell {
            Value::Int(number) => Ok(Value::Int(*number)),
            Value::Text(text) => Ok(Value::Text(Text::copied(alloc, text.as_bytes())?)),
        }
    }
}

impl<S: SchemeKind> CellState for Locked<S> {
    type Cell = Text;

    ghost opens = { Opens S.SCHEME };

    ghost fits = { λ ty cell. length cell == cell_length S.SCHEME ty };

    fn copy_cell(alloc: Global, cell: &Text) -> Result<Text, NoMemory> {
        Text::copied(alloc, cell.as_bytes())
    }
}

impl EqCells for Clear {
    ghost agrees = { clear_agrees };
}

impl EqCells for Locked<DetKind> {
    ghost agrees = { det_agrees };
}

impl EqCells for Locked<OpeKind> {
    ghost agrees = { ope_agrees };
}

impl OrdCells for Clear {
    ghost orders = { clear_orders };
}

impl OrdCells for Locked<OpeKind> {
    ghost orders = { ope_orders };
}
