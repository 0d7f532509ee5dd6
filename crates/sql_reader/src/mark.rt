ghost use Rattle.std.specs.Prelude.{◌≡◌};
ghost use Rattle.sql_lexer.specs.Lexing.{lexeme};
ghost use Rattle.sql_reader.specs.Marks.{mark_of, symbol_mark, word_mark, is_mark};

use sql_lexer::{Token, TokenKind};
use word_forms::Keyword;

/// What a token is for the grammar.
#[derive(Clone, Copy, Debug, PartialEq, Eq)]
pub enum Mark {
    /// A word that is a keyword.
    Keyword(Keyword),
    /// A word that is no keyword.
    Name,
    Number,
    Text,
    Comma,
    Dot,
    Open,
    Close,
    Star,
    Semicolon,
    Eq,
    /// `<>` or `!=`.
    Ne,
    Lt,
    Le,
    Gt,
    Ge,
}

// The mark of a word.
fn word_mark(text: &str) -> Mark
    ensures { result ≡ word_mark text.now }
{
    match Keyword::of(text.as_bytes()) {
        Some(keyword) => Mark::Keyword(keyword),
        None => Mark::Name,
    }
}

// The mark of a symbol.
#[tactic(auto, unfolding(crate::specs::Marks::symbol_mark))]
fn symbol_mark(text: &str) -> Mark
    ensures { result ≡ symbol_mark text.now }
{
    match text {
        "," => Mark::Comma,
        "." => Mark::Dot,
        "(" => Mark::Open,
        ")" => Mark::Close,
        "*" => Mark::Star,
        ";" => Mark::Semicolon,
        "=" => Mark::Eq,
        "<>" | "!=" => Mark::Ne,
        "<" => Mark::Lt,
        "<=" => Mark::Le,
        ">" => Mark::Gt,
        _ => Mark::Ge,
    }
}

/// What a token is for the grammar.
pub fn mark_of(token: &Token<'_>) -> Mark
    ensures { result ≡ mark_of (lexeme token.now) }
{
    match token.kind {
        TokenKind::Word => word_mark(token.text),
        TokenKind::Number => Mark::Number,
        TokenKind::Text => Mark::Text,
        TokenKind::Symbol => symbol_mark(token.text),
    }
}
