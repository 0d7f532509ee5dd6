//! Reads the CSV file of a table by the policy's schema: the values of its rows as columns, or the first fault
//! of the file. It stands on the plain types, beside the readers of the other files.
#![tactic(auto)]

mod columns;
mod records;
mod refusal;
mod table;

pub use refusal::TableNo;
pub use table::read_table;
