ghost use Rattle.std.specs.Prelude.{◌≡◌, map};
ghost use Rattle.word_forms.specs.declared.keyword.Keyword.TheVariants as keyword;
ghost use Rattle.sql_reader.specs.declared.mark.Mark.TheVariants as mark;
ghost use Rattle.sql_reader.specs.Syntax.{Column, Having, column_of, having_of};
ghost use Rattle.sql_reader.specs.Grammar as grammar;
ghost use Rattle.sql_reader.specs.inside.Answers.{AreWhole, Gives, grouping_of, left};

use crate::conditions::column;
use crate::items::aggregate;
use crate::lists::{Phrase, listed};
use crate::mark::Mark;
use crate::raw::{RawCol, RawHaving};
use crate::reached::Reached;
use crate::stop::Stop;
use crate::terminals::{literal, next_is, op, token};
use mq_base::Seq;
use sql_lexer::Token;
use std::alloc::Global;
use word_forms::Keyword;

/// What GROUP BY and HAVING ask for.
#[derive(Drop)]
pub struct Groups<'a> {
    /// The grouped columns, in order. None where there is no GROUP BY.
    pub group: Seq<RawCol<'a>>,
    /// The conditions of HAVING, in order.
    pub having: Seq<RawHaving<'a>>,
}

// A condition of HAVING: an aggregate, a comparison and a literal.
#[tactic(auto, unfolding(crate::specs::Grammar::having))]
fn having<'a>(tokens: &[Token<'a>], from: Reached) -> Result<(RawHaving<'a>, Reached), Stop>
    requires { AreWhole tokens.now }
    ensures { Gives having_of tokens.now from result (grammar.having.read (left tokens.now from)) }
{
    let (item, after) = aggregate(tokens, from)?;
    let (op, after) = op(tokens, after)?;
    let (lit, after) = literal(tokens, after)?;
    Ok((RawHaving { item, op, lit }, after))
}

impl<'a> Phrase<'a> for RawHaving<'a> {
    ghost Plain = { Having };

    ghost plain = { having_of };

    ghost further = { grammar.behind (mark.Keyword keyword.And) grammar.having };

    fn next(
        _alloc: Global,
        tokens: &[Token<'a>],
        from: Reached,
    ) -> Result<(RawHaving<'a>, Reached), Stop> {
        let (_, after) = token(tokens, from, Mark::Keyword(Keyword::And))?;
        having(tokens, after)
    }
}

// The conditions of HAVING, if it stands there.
#[tactic(auto, unfolding(crate::specs::Grammar::havings, crate::specs::Grammar::having_list))]
fn havings<'a>(
    alloc: Global,
    tokens: &[Token<'a>],
    from: Reached,
) -> Result<(Seq<RawHaving<'a>>, Reached), Stop>
    requires { AreWhole tokens.now }
    ensures { Gives (map having_of) tokens.now from result (grammar.havings.read (left tokens.now from)) }
{
    if !next_is(tokens, from, &[Mark::Keyword(Keyword::Having)]) {
        return Ok((Seq::new(alloc), from));
    }
    let (_, after) = token(tokens, from, Mark::Keyword(Keyword::Having))?;
    let (first, after) = having(tokens, after)?;
    listed(alloc, tokens, first, after, &[Mark::Keyword(Keyword::And)])
}

impl<'a> Phrase<'a> for RawCol<'a> {
    ghost Plain = { Column };

    ghost plain = { column_of };

    ghost further = { grammar.behind mark.Comma grammar.column };

    fn next(
        _alloc: Global,
        tokens: &[Token<'a>],
        from: Reached,
    ) -> Result<(RawCol<'a>, Reached), Stop> {
        let (_, after) = token(tokens, from, Mark::Comma)?;
        column(tokens, after)
    }
}

// GROUP BY, columns, and HAVING if it stands there.
#[tactic(auto, unfolding(crate::specs::Grammar::grouped_by, crate::specs::Grammar::group))]
fn grouped_by<'a>(
    alloc: Global,
    tokens: &[Token<'a>],
    from: Reached,
) -> Result<(Groups<'a>, Reached), Stop>
    requires { AreWhole tokens.now }
    ensures { Gives grouping_of tokens.now from result (grammar.grouped_by.read (left tokens.now from)) }
{
    let (_, after) = token(tokens, from, Mark::Keyword(Keyword::Group))?;
    let (_, after) = token(tokens, after, Mark::Keyword(Keyword::By))?;
    let (first, after) = column(tokens, after)?;
    let (group, after) = listed(alloc, tokens, first, after, &[Mark::Comma])?;
    let (having, after) = havings(alloc, tokens, after)?;
    Ok((Groups { group, having }, after))
}

/// GROUP BY with what belongs to it, if it stands there.
#[tactic(auto, unfolding(crate::specs::Grammar::grouping))]
pub fn grouping<'a>(
    alloc: Global,
    tokens: &[Token<'a>],
    from: Reached,
) -> Result<(Groups<'a>, Reached), Stop>
    requires { AreWhole tokens.now }
    ensures { Gives grouping_of tokens.now from result (grammar.grouping.read (left tokens.now from)) }
{
    if next_is(tokens, from, &[Mark::Keyword(Keyword::Group)]) {
        return grouped_by(alloc, tokens, from);
    }
    let none = Groups {
        group: Seq::new(alloc),
        having: Seq::new(alloc),
    };
    Ok((none, from))
}
