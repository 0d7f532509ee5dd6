//! Tables in columns: rows chosen, put beside each other, joined, cut, grouped and folded, column by column. It stands above the columns,
//! and below the engine, which knows of plans and their keys.
#![tactic(auto)]

mod beside;
mod cell;
mod cells;
mod choose;
mod fold;
mod grouping;
mod joins;
mod keep;
mod labels;
mod pairs;
mod products;
mod project;
mod run_no;
mod table;
mod take;

pub use grouping::group;
pub use joins::join;
pub use products::product;
pub use run_no::RunNo;
pub use table::Table;
pub use take::no_columns;
