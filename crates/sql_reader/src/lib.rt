//! The grammar of queries: the query that a text is, with names and texts as slices of it, or the first refusal. It stands
//! on the tokens, and knows no schema.
#![tactic(auto)]

mod conditions;
mod groups;
mod items;
mod law;
mod lists;
mod mark;
mod raw;
mod reached;
mod reader;
mod refusal;
mod sources;
mod stop;
mod terminals;

pub use law::grammar_law;
pub use raw::{RawCol, RawCond, RawHaving, RawItem, RawLit, RawQuery, RawSide, RawSource};
pub use reader::read_query;
pub use refusal::SqlNo;
