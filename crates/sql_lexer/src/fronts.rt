ghost use Rattle.std.specs.Prelude.{◌≡◌, ◌≤◌, length, IfSome};
ghost use Rattle.std.specs.List.{prefix_len};
ghost use Rattle.std.specs.Char.{is_ascii_digit};
ghost use Rattle.word_forms.specs.Words.{is_later};
ghost use Rattle.sql_lexer.specs.Lexing as lexing;

use crate::token::TokenKind;
use word_forms::{is_first, is_later};

/// What stands in front of the rest of a text.
#[derive(Clone, Copy)]
pub enum Front {
    /// One byte of white space.
    White,
    /// A token of this kind, in this many bytes.
    Taken(TokenKind, usize),
    /// A character that begins no token.
    Bad,
    /// A text in quotes that has no end.
    Open,
}

// Whether a byte is white space.
fn is_white(byte: u8) -> bool
    ensures { result ≡ lexing.is_white byte }
{
    matches!(byte, b' ' | b'\t' | b'\r' | b'\n')
}

// Whether two bytes are one symbol.
fn is_long_symbol(first: u8, second: u8) -> bool
    ensures { result ≡ lexing.is_long_symbol first second }
{
    match first {
        b'<' => second == b'>' || second == b'=',
        b'!' | b'>' => second == b'=',
        _ => false,
    }
}

// Whether a byte is a symbol alone.
fn is_short_symbol(byte: u8) -> bool
    ensures { result ≡ lexing.is_short_symbol byte }
{
    matches!(
        byte,
        b',' | b'.' | b'(' | b')' | b'*' | b';' | b'=' | b'<' | b'>'
    )
}

// How many bytes of a word stand in front.
fn word_run(bytes: &[u8]) -> usize
    ensures run { result ≡ prefix_len is_later bytes.now }
    ensures within { result ≤ length bytes.now }
{
    bytes.iter().take_while(|byte| is_later(**byte)).count()
}

// How many digits stand in front.
fn digit_run(bytes: &[u8]) -> usize
    ensures run { result ≡ prefix_len is_ascii_digit bytes.now }
    ensures within { result ≤ length bytes.now }
{
    bytes
        .iter()
        .take_while(|byte| byte.is_ascii_digit())
        .count()
}

// How many bytes after the first quote a text takes, with the quote that ends it.
#[tactic(auto, using(crate::proofs::TextEnds::ends))]
fn text_end(bytes: &[u8]) -> Option<usize>
    ensures end { result ≡ lexing.text_end bytes.now }
    ensures within { IfSome result (λ end. end ≤ length bytes.now) }
{
    let mut at = 0;
    while at < bytes.len() {
        if bytes[at] != b'\'' {
            at += 1;
        } else if at + 1 < bytes.len() && bytes[at + 1] == b'\'' {
            at += 2;
        } else {
            return Some(at + 1);
        }
    }
    None
}

// What stands in front where these bytes follow a `-`.
fn minus_front(rest: &[u8]) -> Front
    ensures { result ≡ lexing.minus_front rest.now }
{
    match rest {
        [digit, more @ ..] if digit.is_ascii_digit() => Front::Taken(
            TokenKind::Number,
            2 + digit_run(more),
        ),
        _ => Front::Bad,
    }
}

// What stands in front where these bytes follow a quote.
fn quote_front(rest: &[u8]) -> Front
    ensures { result ≡ lexing.quoted (lexing.text_end rest.now) }
{
    match text_end(rest) {
        Some(end) => Front::Taken(TokenKind::Text, 1 + end),
        None => Front::Open,
    }
}

// The symbol in front, if there is one: two bytes before one.
fn symbol_front(bytes: &[u8]) -> Front
    ensures { result ≡ lexing.symbol_front bytes.now }
{
    match bytes {
        [first, second, ..] if is_long_symbol(*first, *second) => Front::Taken(
            TokenKind::Symbol,
            2,
        ),
        [first, ..] if is_short_symbol(*first) => Front::Taken(TokenKind::Symbol, 1),
        _ => Front::Bad,
    }
}

/// What stands in front of these bytes: the longest token, if any begins there.
#[tactic(auto, unfolding(crate::specs::Lexing::front_of))]
pub fn front_of(bytes: &[u8]) -> Front
    ensures { result ≡ lexing.front_of bytes.now }
{
    match bytes {
        [] => Front::Bad,
        [first, ..] if is_white(*first) => Front::White,
        [first, rest @ ..] if is_first(*first) => Front::Taken(TokenKind::Word, 1 + word_run(rest)),
        [first, rest @ ..] if first.is_ascii_digit() => Front::Taken(
            TokenKind::Number,
            1 + digit_run(rest),
        ),
        [b'-', rest @ ..] => minus_front(rest),
        [b'\'', rest @ ..] => quote_front(rest),
        _ => symbol_front(bytes),
    }
}
