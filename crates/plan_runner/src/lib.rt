//! Runs the steps of an extended plan in the order of their list, over the tables of a query, in one process. It stands on the engine's
//! single steps; the top call stands on it.
#![tactic(auto)]

mod bytes;
mod pile;
mod rows;
mod run;
mod step;
mod stop;

pub use run::run_plan;
pub use stop::RunStop;
