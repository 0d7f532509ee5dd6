//! The order-preserving seal: a string of digits becomes a cell of twice as many bytes, and cells
//! are ordered as their strings are. It is the lowest layer and stands on SHA-256 alone.
#![tactic(auto)]

mod earlier;
mod heights;
mod laws;
mod seal;

pub use laws::{cells_are_ordered, cells_are_twice_as_long, cells_determine};
pub use seal::{NotSealed, seal_into, unseal_into};
