//! Which attributes of a query are sealed under one key, under which scheme, and with which key. It stands above the facts of the
//! plan, and below all that seals. No call takes memory.
#![tactic(auto)]

mod asked;
mod assigned;
mod finding;
mod keys;
mod laws;

pub use assigned::Clusters;
pub use finding::clusters;
pub use keys::{Keys, key_of};
pub use laws::{cluster_is_least, compared_share_a_key, merged_share_a_key, schemes_support};
