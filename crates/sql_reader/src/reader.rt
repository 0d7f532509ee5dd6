ghost use Rattle.std.specs.Prelude.{◌≡◌, ◌≤◌, length, map, IfOk};
ghost use Rattle.std.specs.Result.{result_map_both};
ghost use Rattle.mq_base.specs.Refusal.{Answers};
ghost use Rattle.sql_lexer.specs.Lexing.{lexeme};
ghost use Rattle.sql_reader.specs.Codes.{query_refusal};
ghost use Rattle.sql_reader.specs.Syntax.{query_of};
ghost use Rattle.sql_reader.specs.Reading.{IsRead};
ghost use Rattle.sql_reader.specs.Grammar as grammar;
ghost use Rattle.sql_reader.specs.Outcome.{query_outcome, read_outcome, wide_place};
ghost use Rattle.sql_reader.specs.Writable.{IsWritable};
ghost use Rattle.sql_reader.specs.inside.Answers.{AreWhole, Gives, left};

use crate::groups::grouping;
use crate::items::items;
use crate::mark::Mark;
use crate::raw::RawQuery;
use crate::reached::Reached;
use crate::refusal::SqlNo;
use crate::sources::{filters, sources};
use crate::stop::Stop;
use crate::terminals::{next, next_is, token};
use sql_lexer::{Token, tokens};
use std::alloc::Global;
use word_forms::Keyword;

// The semicolon at the end, if it stands there.
#[tactic(auto, unfolding(crate::specs::Grammar::ending))]
fn end(tokens: &[Token<'_>], from: Reached) -> Result<((), Reached), Stop>
    ensures { Gives (λ _. tt) tokens.now from result (grammar.ending.read (left tokens.now from)) }
{
    if !next_is(tokens, from, &[Mark::Semicolon]) {
        return Ok(((), from));
    }
    let (_, after) = token(tokens, from, Mark::Semicolon)?;
    Ok(((), after))
}

// A query, and the place behind it.
#[tactic(auto, unfolding(crate::specs::Grammar::query, crate::specs::Grammar::tail))]
fn query<'a>(
    alloc: Global,
    tokens: &[Token<'a>],
    from: Reached,
) -> Result<(RawQuery<'a>, Reached), Stop>
    requires { AreWhole tokens.now }
    ensures { Gives query_of tokens.now from result (grammar.query.read (left tokens.now from)) }
{
    let (_, after) = token(tokens, from, Mark::Keyword(Keyword::Select))?;
    let (items, after) = items(alloc, tokens, after)?;
    let (_, after) = token(tokens, after, Mark::Keyword(Keyword::From))?;
    let (sources, after) = sources(alloc, tokens, after)?;
    let (conds, after) = filters(alloc, tokens, after)?;
    let (groups, after) = grouping(alloc, tokens, after)?;
    let (_, after) = end(tokens, after)?;
    Ok((
        RawQuery {
            items,
            sources,
            conds,
            group: groups.group,
            having: groups.having,
        },
        after,
    ))
}

// What the tokens of a text that ends at this place read as.
#[tactic(auto, using(crate::proofs::TokenLaws::narrow))]
fn read_tokens<'a>(alloc: Global, tokens: &[Token<'a>], end: u32) -> Result<RawQuery<'a>, SqlNo>
    requires { AreWhole tokens.now }
    ensures { Answers query_refusal (result_map_both query_of (λ e. e) result) (read_outcome end (wide_place (map lexeme tokens.now)) (grammar.query.read (map lexeme tokens.now))) }
{
    let (found, after) = match query(alloc, tokens, Reached::start()) {
        Ok(read) => read,
        Err(Stop::Unexpected(place)) => return Err(SqlNo::Unexpected {
            at: place.unwrap_or(end),
        }),
        Err(Stop::NoMemory) => return Err(SqlNo::NoMemory),
    };
    if let Some(token) = next(tokens, after.at) {
        return Err(SqlNo::Unexpected { at: token.at });
    }
    match after.wide {
        Some(at) => Err(SqlNo::NumberRange { at }),
        None => Ok(found),
    }
}

/// The query that a text is, or the first refusal of it. Names and texts of the query are slices of the text, and
/// places are counted in bytes. A text has at most 67,108,864 bytes. The time is linear in its length.
/// docs/FORMATS.md, "Query", has the grammar.
///
/// A lexical refusal, `BadChar` or `OpenText`, comes before `Unexpected`, wherever it stands. `Unexpected` is at the
/// first token with which the tokens so far begin no query, or at the length of the text where they are no query yet.
/// `NumberRange` comes last, at the first number outside `i64`. `NoMemory` may stand in place of any other answer.
pub fn read_query(alloc: Global, text: &str) -> Result<RawQuery<'_>, SqlNo>
    requires { length text.now ≤ 67108864 }
    ensures read { Answers query_refusal (result_map_both query_of (λ e. e) result) (query_outcome text.now) }
    ensures grammar { IsRead text.now result }
    ensures writable { IfOk result (λ q. IsWritable (query_of q)) }
{
    let found = tokens(alloc, text)?;
    read_tokens(alloc, found.as_slice(), text.len() as u32)
}
