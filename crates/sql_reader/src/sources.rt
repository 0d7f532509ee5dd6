ghost use Rattle.std.specs.Prelude.{◌≡◌, map};
ghost use Rattle.sql_reader.specs.declared.mark.Mark.TheVariants as mark;
ghost use Rattle.sql_reader.specs.Syntax.{Source, condition_of, source_of};
ghost use Rattle.sql_reader.specs.Grammar as grammar;
ghost use Rattle.sql_reader.specs.inside.Answers.{AreWhole, Gives, left};

use crate::conditions::conditions;
use crate::lists::{Phrase, listed};
use crate::mark::Mark;
use crate::raw::{RawCond, RawSource};
use crate::reached::Reached;
use crate::stop::Stop;
use crate::terminals::{next_is, token};
use mq_base::Seq;
use sql_lexer::Token;
use std::alloc::Global;
use word_forms::Keyword;

// A table's name, with no conditions.
#[tactic(auto, unfolding(crate::specs::Grammar::first_source))]
fn first_source<'a>(
    alloc: Global,
    tokens: &[Token<'a>],
    from: Reached,
) -> Result<(RawSource<'a>, Reached), Stop>
    ensures { Gives source_of tokens.now from result (grammar.first_source.read (left tokens.now from)) }
{
    let (name, after) = token(tokens, from, Mark::Name)?;
    Ok((
        RawSource {
            table: name.text,
            at: name.at,
            on: Seq::new(alloc),
        },
        after,
    ))
}

// A comma and a table's name.
fn behind_comma<'a>(
    alloc: Global,
    tokens: &[Token<'a>],
    from: Reached,
) -> Result<(RawSource<'a>, Reached), Stop>
    ensures { Gives source_of tokens.now from result ((grammar.behind mark.Comma grammar.first_source).read (left tokens.now from)) }
{
    let (_, after) = token(tokens, from, Mark::Comma)?;
    first_source(alloc, tokens, after)
}

// JOIN, a table's name, ON and conditions.
#[tactic(auto, unfolding(crate::specs::Grammar::joined))]
fn joined<'a>(
    alloc: Global,
    tokens: &[Token<'a>],
    from: Reached,
) -> Result<(RawSource<'a>, Reached), Stop>
    requires { AreWhole tokens.now }
    ensures { Gives source_of tokens.now from result (grammar.joined.read (left tokens.now from)) }
{
    let (_, after) = token(tokens, from, Mark::Keyword(Keyword::Join))?;
    let (name, after) = token(tokens, after, Mark::Name)?;
    let (_, after) = token(tokens, after, Mark::Keyword(Keyword::On))?;
    let (on, after) = conditions(alloc, tokens, after)?;
    Ok((
        RawSource {
            table: name.text,
            at: name.at,
            on,
        },
        after,
    ))
}

// A source behind the first.
#[tactic(auto, unfolding(crate::specs::Grammar::source))]
fn source<'a>(
    alloc: Global,
    tokens: &[Token<'a>],
    from: Reached,
) -> Result<(RawSource<'a>, Reached), Stop>
    requires { AreWhole tokens.now }
    ensures { Gives source_of tokens.now from result (grammar.source.read (left tokens.now from)) }
{
    if next_is(tokens, from, &[Mark::Comma]) {
        behind_comma(alloc, tokens, from)
    } else {
        joined(alloc, tokens, from)
    }
}

impl<'a> Phrase<'a> for RawSource<'a> {
    ghost Plain = { Source };

    ghost plain = { source_of };

    ghost further = { grammar.source };

    fn next(
        alloc: Global,
        tokens: &[Token<'a>],
        from: Reached,
    ) -> Result<(RawSource<'a>, Reached), Stop> {
        source(alloc, tokens, from)
    }
}

/// The sources of a FROM list.
#[tactic(auto, unfolding(crate::specs::Grammar::sources))]
pub fn sources<'a>(
    alloc: Global,
    tokens: &[Token<'a>],
    from: Reached,
) -> Result<(Seq<RawSource<'a>>, Reached), Stop>
    requires { AreWhole tokens.now }
    ensures { Gives (map source_of) tokens.now from result (grammar.sources.read (left tokens.now from)) }
{
    let (first, after) = first_source(alloc, tokens, from)?;
    listed(
        alloc,
        tokens,
        first,
        after,
        &[Mark::Comma, Mark::Keyword(Keyword::Join)],
    )
}

/// The conditions of WHERE, if it stands there.
#[tactic(auto, unfolding(crate::specs::Grammar::filters))]
pub fn filters<'a>(
    alloc: Global,
    tokens: &[Token<'a>],
    from: Reached,
) -> Result<(Seq<RawCond<'a>>, Reached), Stop>
    requires { AreWhole tokens.now }
    ensures { Gives (map condition_of) tokens.now from result (grammar.filters.read (left tokens.now from)) }
{
    if !next_is(tokens, from, &[Mark::Keyword(Keyword::Where)]) {
        return Ok((Seq::new(alloc), from));
    }
    let (_, after) = token(tokens, from, Mark::Keyword(Keyword::Where))?;
    conditions(alloc, tokens, after)
}
