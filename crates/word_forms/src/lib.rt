//! What short texts spell, wherever a file has them: words, the keywords of queries, and integers. It stands on
//! general words alone, and each reader of files stands on it.
#![tactic(auto)]

mod integers;
mod keyword;
mod word;

pub use integers::integer;
pub use keyword::Keyword;
pub use word::{is_first, is_later, is_word};
