//! The profile of the table that a step of an extended plan gives: what is visible in it, plain or sealed, and what it tells
//! beyond that. A view has the parts of a profile that the facts of a node leave open.
#![tactic(auto)]

mod after;
mod calls;
mod runnable;
mod scheme;
mod seen;
mod set;
mod view;

pub use calls::{after_binary, after_dec, after_enc, after_unary, leaf_view};
pub use view::View;
