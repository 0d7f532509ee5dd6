//! Queries with the ids of a schema in place of names, or the first reason why a query has none. It stands on the
//! grammar of queries, and knows neither files nor policies.
#![tactic(auto)]

mod binding;
mod build;
mod columns;
mod conditions;
mod fault;
mod items;
mod literals;
mod names;
mod nodes;
mod refusal;
mod sources;

pub use binding::bind;
pub use refusal::{BindCode, BindNo};
