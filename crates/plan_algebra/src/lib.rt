//! The plan of a query, which means what the query means, and the facts of each of its nodes: which attributes it has, which
//! comparisons made equivalent, and whether it counts. It stands above the rows and below profiles, costs and the search.
#![tactic(auto)]

mod facts;
mod families;
mod gather;
mod kind;
mod nodes;
mod plan;
mod plan_facts;
mod tables;

pub use facts::NodeFacts;
pub use kind::Kind;
pub use plan::plan_of;
pub use plan_facts::PlanFacts;
