//! The text of a report: its cost line, its plan line and its answer, or that there is no plan. It stands on the rows that a query asks
//! for and on the names of a policy; the top call stands on it.
#![tactic(auto)]

mod answer;
mod csv_text;
mod names;
mod plan_line;
mod report;

pub use report::{none_text, text};
