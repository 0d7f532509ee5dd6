//! The randomised seal: a block of bytes under the stream of a key, a step and a row, and back.
//!
//! It is one of the crates of ciphers at the bottom, and stands on the kit's crates alone.
#![tactic(auto)]

mod cell;
mod laws;
mod stream;

pub use cell::{seal_into, unseal_into};
pub use laws::{cells_are_longer, cells_determine, cells_name_their_place};
