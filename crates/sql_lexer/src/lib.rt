//! The tokens of a query text: words, numbers, texts in quotes and symbols, each a slice of the text, or the
//! first lexical refusal. It stands on the plain types alone, and knows nothing of the grammar of queries.
#![tactic(auto)]

pub mod codes;
mod fronts;
mod lexer;
mod refusal;
mod token;

pub use lexer::tokens;
pub use refusal::LexNo;
pub use token::{Token, TokenKind};
