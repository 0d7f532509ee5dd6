//! How many rows each node of a plan is reckoned to give, and what each step of an extended plan costs by that. It stands above
//! profiles, clusters and prices, and below the search. No call takes memory.
#![tactic(auto)]

mod costs;
mod estimated;
mod reckoning;
mod rules;
mod sizes;
mod tables;

pub use costs::{CostBase, send_cost, send_load, step_cost};
pub use estimated::Estimates;
pub use reckoning::estimates;
