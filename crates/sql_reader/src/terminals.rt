ghost use Rattle.std.specs.Prelude.{◌≡◌, ◌+◌, is_none, map, option_map, IfSome};
ghost use Rattle.word_forms.specs.Integers.{integer_of};
ghost use Rattle.sql_lexer.specs.Lexing.{lexeme};
ghost use Rattle.sql_lexer.specs.Longest.{IsText};
ghost use Rattle.sql_reader.specs.Marks.{is_mark, is_one_of};
ghost use Rattle.sql_reader.specs.Syntax.{literal_of, Number};
ghost use Rattle.sql_reader.specs.Grammar.{function_in, function_marked, inside_of, literal_in, op_marked, number_in};
ghost use Rattle.sql_reader.specs.Reading.{is_wide};
ghost use Rattle.sql_reader.specs.Readers.{next_is};
ghost use Rattle.sql_reader.specs.Grammar as grammar;
ghost use Rattle.sql_reader.specs.inside.Answers.{AreWhole, Gives, IsNoNumber, IsWhole, function_of, left, tokens_from, with_next};

use crate::mark::{Mark, mark_of};
use crate::raw::RawLit;
use crate::reached::Reached;
use crate::stop::Stop;
use mq_base::{Agg, CmpOp};
use sql_lexer::Token;
use word_forms::{Keyword, integer};

/// A word that is a function over a column.
#[derive(Clone, Copy)]
pub struct FunctionWord {
    /// The function.
    pub func: Agg,
    /// The place of the word, in bytes from 0.
    pub at: u32,
}

/// The next token, if there is one.
pub fn next<'t, 'a>(tokens: &'t [Token<'a>], at: usize) -> Option<&'t Token<'a>>
    ensures { tokens_from tokens.now at ≡ with_next result (tokens_from tokens.now (at + 1)) }
{
    tokens.get(at)
}

/// Whether a token has this mark.
pub fn is_mark(token: &Token<'_>, mark: Mark) -> bool
    ensures { result ≡ is_mark mark (lexeme token.now) }
{
    mark_of(token) == mark
}

// Whether a token has one of these marks.
fn is_one_of(token: &Token<'_>, marks: &[Mark]) -> bool
    ensures { result ≡ is_one_of marks.now (lexeme token.now) }
{
    marks.iter().any(|mark| is_mark(token, *mark))
}

/// Whether there is a next token, and it has one of these marks.
pub fn next_is(tokens: &[Token<'_>], from: Reached, marks: &[Mark]) -> bool
    ensures { result ≡ next_is (is_one_of marks.now) (left tokens.now from) }
{
    match next(tokens, from.at) {
        Some(token) => is_one_of(token, marks),
        None => false,
    }
}

/// A token of this mark, which is not that of a number.
#[tactic(auto, using(crate::proofs::TokenLaws::narrow))]
pub fn token<'a>(
    tokens: &[Token<'a>],
    from: Reached,
    mark: Mark,
) -> Result<(Token<'a>, Reached), Stop>
    requires { IsNoNumber mark }
    ensures { Gives lexeme tokens.now from result ((grammar.sign mark).read (left tokens.now from)) }
{
    match next(tokens, from.at) {
        Some(token) if is_mark(token, mark) => Ok((*token, from.past(token, false))),
        Some(token) => Err(Stop::Unexpected(Some(token.at))),
        None => Err(Stop::Unexpected(None)),
    }
}

// The comparison that a mark stands for.
fn op_marked(mark: Mark) -> Option<CmpOp>
    ensures { result ≡ op_marked mark }
{
    match mark {
        Mark::Eq => Some(CmpOp::Eq),
        Mark::Ne => Some(CmpOp::Ne),
        Mark::Lt => Some(CmpOp::Lt),
        Mark::Le => Some(CmpOp::Le),
        Mark::Gt => Some(CmpOp::Gt),
        Mark::Ge => Some(CmpOp::Ge),
        _ => None,
    }
}

/// A comparison.
#[tactic(auto, using(crate::proofs::TokenLaws::narrow))]
pub fn op(tokens: &[Token<'_>], from: Reached) -> Result<(CmpOp, Reached), Stop>
    ensures { Gives (λ op. op) tokens.now from result (grammar.op.read (left tokens.now from)) }
{
    let Some(token) = next(tokens, from.at) else {
        return Err(Stop::Unexpected(None));
    };
    match op_marked(mark_of(token)) {
        Some(op) => Ok((op, from.past(token, false))),
        None => Err(Stop::Unexpected(Some(token.at))),
    }
}

// What stands between the outer quotes of a text.
fn inside(text: &str) -> &str
    requires { IsText text.now }
    ensures { result.now ≡ inside_of text.now }
{
    &text[1..text.len() - 1]
}

// A literal as its token spells it.
#[derive(Clone, Copy)]
struct SpelledLiteral<'a> {
    // The literal. A number outside 64 bits reads as 0: its text is refused in the end.
    literal: RawLit<'a>,
    // Whether it is a number outside 64 bits.
    is_wide: bool,
}

// The number that a token is.
fn number_in<'a>(token: &Token<'a>) -> SpelledLiteral<'a>
    ensures value { literal_of result.literal ≡ Number (number_in (lexeme token.now)) }
    ensures wide { result.is_wide ≡ is_none (integer_of token.now.text.now) }
{
    match integer(token.text.as_bytes()) {
        Some(value) => SpelledLiteral {
            literal: RawLit::Number(value),
            is_wide: false,
        },
        None => SpelledLiteral {
            literal: RawLit::Number(0),
            is_wide: true,
        },
    }
}

// The literal that a token is, if it is one.
fn literal_in<'a>(token: &Token<'a>) -> Option<SpelledLiteral<'a>>
    requires { IsWhole (lexeme token.now) }
    ensures value { option_map (λ s. literal_of s.literal) result ≡ literal_in (lexeme token.now) }
    ensures wide { IfSome result (λ s. s.is_wide ≡ is_wide (lexeme token.now)) }
{
    match mark_of(token) {
        Mark::Number => Some(number_in(token)),
        Mark::Text => Some(SpelledLiteral {
            literal: RawLit::Text(inside(token.text)),
            is_wide: false,
        }),
        _ => None,
    }
}

/// A literal.
#[tactic(auto, using(crate::proofs::TokenLaws::narrow))]
pub fn literal<'a>(tokens: &[Token<'a>], from: Reached) -> Result<(RawLit<'a>, Reached), Stop>
    requires { AreWhole tokens.now }
    ensures { Gives literal_of tokens.now from result (grammar.literal.read (left tokens.now from)) }
{
    let Some(token) = next(tokens, from.at) else {
        return Err(Stop::Unexpected(None));
    };
    match literal_in(token) {
        Some(found) => Ok((found.literal, from.past(token, found.is_wide))),
        None => Err(Stop::Unexpected(Some(token.at))),
    }
}

// The function over a column that a word is, if it is one.
fn function_in(token: &Token<'_>) -> Option<FunctionWord>
    ensures { option_map function_of result ≡ function_in (lexeme token.now) }
{
    let func = match mark_of(token) {
        Mark::Keyword(Keyword::Sum) => Agg::Sum,
        Mark::Keyword(Keyword::Min) => Agg::Min,
        Mark::Keyword(Keyword::Max) => Agg::Max,
        _ => return None,
    };
    Some(FunctionWord { func, at: token.at })
}

/// SUM, MIN or MAX.
#[tactic(auto, using(crate::proofs::TokenLaws::narrow))]
pub fn function(tokens: &[Token<'_>], from: Reached) -> Result<(FunctionWord, Reached), Stop>
    ensures { Gives function_of tokens.now from result (grammar.function.read (left tokens.now from)) }
{
    let Some(token) = next(tokens, from.at) else {
        return Err(Stop::Unexpected(None));
    };
    match function_in(token) {
        Some(word) => Ok((word, from.past(token, false))),
        None => Err(Stop::Unexpected(Some(token.at))),
    }
}
