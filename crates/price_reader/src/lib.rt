//! Reads a price file for an accepted policy: what each subject asks for work, what sending costs, and the sizes that
//! the policy's owner states; or the first refusal in the order that docs/FORMATS.md, "Price file", states. It stands on
//! `policy_base`.
#![tactic(auto)]

mod build;
mod check;
mod fault;
mod raw;
mod read;
mod refusal;
mod shape;

pub use read::read_prices;
pub use refusal::{PriceCode, PriceNo};
