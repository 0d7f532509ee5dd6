//! Whether a subject is authorised for the table that a view of a node stands for, by the three conditions, or else the first
//! that is broken and by which attribute. It stands on the profiles and the grants of a policy.
#![tactic(auto)]

mod breach;
mod conditions;

pub use breach::Breach;
pub use conditions::{check_view, may_exactly};
