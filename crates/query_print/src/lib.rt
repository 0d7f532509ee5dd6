//! A query written in its canonical spelling, which reads as the same query. It stands on the grammar of `sql_reader`.
#![tactic(auto)]

mod print;

pub use print::print_query;
