//! The deterministic seal: a keyed bijection on blocks of one even length, by eight rounds over SHA-256.
//! Equal blocks get equal cells under one key, and `unseal_into` gives each block back.
//! The lowest of the ciphers: it stands on no other crate of this repository.
#![tactic(auto)]

mod laws;
mod round;
mod seal;

pub use laws::{cells_are_as_long, cells_determine};
pub use seal::{seal_into, unseal_into};
