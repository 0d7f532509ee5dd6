ghost use Rattle.std.specs.Prelude.{◌≡◌, map};
ghost use Rattle.word_forms.specs.declared.keyword.Keyword.TheVariants as keyword;
ghost use Rattle.sql_reader.specs.declared.mark.Mark.TheVariants as mark;
ghost use Rattle.sql_reader.specs.Syntax.{Condition, column_of, condition_of, side_of};
ghost use Rattle.sql_reader.specs.Grammar as grammar;
ghost use Rattle.sql_reader.specs.inside.Answers.{AreWhole, Gives, left};

use crate::lists::{Phrase, listed};
use crate::mark::Mark;
use crate::raw::{RawCol, RawCond, RawSide};
use crate::reached::Reached;
use crate::stop::Stop;
use crate::terminals::{literal, next_is, op, token};
use mq_base::Seq;
use sql_lexer::Token;
use std::alloc::Global;
use word_forms::Keyword;

/// A column: a name, or a table's name, a dot and a name.
#[tactic(auto, unfolding(crate::specs::Grammar::column))]
pub fn column<'a>(tokens: &[Token<'a>], from: Reached) -> Result<(RawCol<'a>, Reached), Stop>
    ensures { Gives column_of tokens.now from result (grammar.column.read (left tokens.now from)) }
{
    let (first, after) = token(tokens, from, Mark::Name)?;
    if !next_is(tokens, after, &[Mark::Dot]) {
        return Ok((
            RawCol {
                table: None,
                name: first.text,
                at: first.at,
            },
            after,
        ));
    }
    let (_, after) = token(tokens, after, Mark::Dot)?;
    let (name, after) = token(tokens, after, Mark::Name)?;
    Ok((
        RawCol {
            table: Some(first.text),
            name: name.text,
            at: first.at,
        },
        after,
    ))
}

// The right side of a comparison: a column or a literal.
#[tactic(auto, unfolding(crate::specs::Grammar::side))]
fn side<'a>(tokens: &[Token<'a>], from: Reached) -> Result<(RawSide<'a>, Reached), Stop>
    requires { AreWhole tokens.now }
    ensures { Gives side_of tokens.now from result (grammar.side.read (left tokens.now from)) }
{
    if next_is(tokens, from, &[Mark::Name]) {
        let (col, after) = column(tokens, from)?;
        return Ok((RawSide::Col(col), after));
    }
    let (lit, after) = literal(tokens, from)?;
    Ok((RawSide::Lit(lit), after))
}

// A condition: a column, a comparison, and a column or a literal.
#[tactic(auto, unfolding(crate::specs::Grammar::condition))]
fn condition<'a>(tokens: &[Token<'a>], from: Reached) -> Result<(RawCond<'a>, Reached), Stop>
    requires { AreWhole tokens.now }
    ensures { Gives condition_of tokens.now from result (grammar.condition.read (left tokens.now from)) }
{
    let (left, after) = column(tokens, from)?;
    let (op, after) = op(tokens, after)?;
    let (right, after) = side(tokens, after)?;
    Ok((RawCond { left, op, right }, after))
}

impl<'a> Phrase<'a> for RawCond<'a> {
    ghost Plain = { Condition };

    ghost plain = { condition_of };

    ghost further = { grammar.behind (mark.Keyword keyword.And) grammar.condition };

    fn next(
        _alloc: Global,
        tokens: &[Token<'a>],
        from: Reached,
    ) -> Result<(RawCond<'a>, Reached), Stop> {
        let (_, after) = token(tokens, from, Mark::Keyword(Keyword::And))?;
        condition(tokens, after)
    }
}

/// Conditions with AND between them.
#[tactic(auto, unfolding(crate::specs::Grammar::conditions))]
pub fn conditions<'a>(
    alloc: Global,
    tokens: &[Token<'a>],
    from: Reached,
) -> Result<(Seq<RawCond<'a>>, Reached), Stop>
    requires { AreWhole tokens.now }
    ensures { Gives (map condition_of) tokens.now from result (grammar.conditions.read (left tokens.now from)) }
{
    let (first, after) = condition(tokens, from)?;
    listed(alloc, tokens, first, after, &[Mark::Keyword(Keyword::And)])
}
