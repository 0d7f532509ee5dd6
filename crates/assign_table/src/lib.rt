//! The search for a least valid extended plan: the states of each node are settled in the order of their least costs, over those of
//! the nodes before it, and the best goal of the root tells the plan. It stands on the states and steps of extended plans; the top call
//! stands on it.
#![tactic(auto)]

mod answer;
mod arrive;
mod blocks;
mod cell;
mod gate;
mod goal;
mod labels;
mod least;
mod pairs;
mod settle;
mod spell;
mod table;
mod way;

pub use answer::SearchNo;
pub use least::search;
