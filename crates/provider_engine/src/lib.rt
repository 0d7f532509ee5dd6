//! What a provider makes of the steps of an extended plan: the encoded table of each step, that decoding it gives the plain meaning, and
//! that columns which a subject may see in no form do not matter to what it holds.
#![tactic(auto)]

mod binary;
mod bytes;
mod choose;
mod group;
mod held;
mod laws;
mod leaf;
mod seal;
mod state;
mod unary;

pub use binary::run_binary;
pub use bytes::{constants_have_bytes, value_has_bytes};
pub use held::Held;
pub use laws::{
    hidden_columns_do_not_matter, hidden_columns_do_not_matter_to_holders, nodes_are_narrow,
    plans_are_typed, runs_decode, seals_are_shared, valid_plans_decode,
};
pub use leaf::run_leaf;
pub use unary::run_unary;
