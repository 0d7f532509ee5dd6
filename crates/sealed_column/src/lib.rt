//! Columns whose state is a type: plain values, or cells that one of three schemes seals. What the cells of a state can be asked is
//! what its type offers, and each answer on cells is that on the values. It stands above the ciphers, and below the engine.
#![tactic(auto)]

mod column;
mod laws;
mod lock;
mod memo;
mod open;
mod pick;
mod rows;
mod seal;
mod state;
mod total;

pub use column::{AnyColumn, Column};
pub use laws::{
    cells_open_once, columns_open, equality_is_kept, lengths_are_the_schemes, order_is_kept,
    seals_open, table_cells_can_be_sealed,
};
pub use rows::{Pair, groups, index, pairs, rows_of};
pub use state::{
    CellState, Clear, DetKind, EqCells, Locked, OpeKind, OrdCells, RndKind, SchemeKind,
};
