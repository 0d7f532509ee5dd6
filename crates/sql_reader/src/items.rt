ghost use Rattle.std.specs.Prelude.{◌≡◌, map};
ghost use Rattle.sql_reader.specs.declared.mark.Mark.TheVariants as mark;
ghost use Rattle.sql_reader.specs.Syntax.{Item, item_of};
ghost use Rattle.sql_reader.specs.Grammar as grammar;
ghost use Rattle.sql_reader.specs.inside.Answers.{AreWhole, Gives, left};

use crate::conditions::column;
use crate::lists::{Phrase, listed};
use crate::mark::Mark;
use crate::raw::RawItem;
use crate::reached::Reached;
use crate::stop::Stop;
use crate::terminals::{function, next_is, token};
use mq_base::Seq;
use sql_lexer::Token;
use std::alloc::Global;
use word_forms::Keyword;

// SUM, MIN or MAX over a column.
#[tactic(auto, unfolding(crate::specs::Grammar::over_column))]
fn over_column<'a>(tokens: &[Token<'a>], from: Reached) -> Result<(RawItem<'a>, Reached), Stop>
    ensures { Gives item_of tokens.now from result (grammar.over_column.read (left tokens.now from)) }
{
    let (word, after) = function(tokens, from)?;
    let (_, after) = token(tokens, after, Mark::Open)?;
    let (col, after) = column(tokens, after)?;
    let (_, after) = token(tokens, after, Mark::Close)?;
    Ok((
        RawItem::Agg {
            func: word.func,
            col,
            at: word.at,
        },
        after,
    ))
}

// `COUNT(*)`.
#[tactic(auto, unfolding(crate::specs::Grammar::count))]
fn count<'a>(tokens: &[Token<'a>], from: Reached) -> Result<(RawItem<'a>, Reached), Stop>
    ensures { Gives item_of tokens.now from result (grammar.count.read (left tokens.now from)) }
{
    let (word, after) = token(tokens, from, Mark::Keyword(Keyword::Count))?;
    let (_, after) = token(tokens, after, Mark::Open)?;
    let (_, after) = token(tokens, after, Mark::Star)?;
    let (_, after) = token(tokens, after, Mark::Close)?;
    Ok((RawItem::Count { at: word.at }, after))
}

/// A function over a column, or the count.
#[tactic(auto, unfolding(crate::specs::Grammar::aggregate))]
pub fn aggregate<'a>(tokens: &[Token<'a>], from: Reached) -> Result<(RawItem<'a>, Reached), Stop>
    ensures { Gives item_of tokens.now from result (grammar.aggregate.read (left tokens.now from)) }
{
    if next_is(tokens, from, &[Mark::Keyword(Keyword::Count)]) {
        count(tokens, from)
    } else {
        over_column(tokens, from)
    }
}

// An item of a select list.
#[tactic(auto, unfolding(crate::specs::Grammar::item))]
fn item<'a>(tokens: &[Token<'a>], from: Reached) -> Result<(RawItem<'a>, Reached), Stop>
    ensures { Gives item_of tokens.now from result (grammar.item.read (left tokens.now from)) }
{
    if !next_is(tokens, from, &[Mark::Name]) {
        return aggregate(tokens, from);
    }
    let (col, after) = column(tokens, from)?;
    Ok((RawItem::Col(col), after))
}

impl<'a> Phrase<'a> for RawItem<'a> {
    ghost Plain = { Item };

    ghost plain = { item_of };

    ghost further = { grammar.behind mark.Comma grammar.item };

    fn next(
        _alloc: Global,
        tokens: &[Token<'a>],
        from: Reached,
    ) -> Result<(RawItem<'a>, Reached), Stop> {
        let (_, after) = token(tokens, from, Mark::Comma)?;
        item(tokens, after)
    }
}

/// The items of a select list.
#[tactic(auto, unfolding(crate::specs::Grammar::items))]
pub fn items<'a>(
    alloc: Global,
    tokens: &[Token<'a>],
    from: Reached,
) -> Result<(Seq<RawItem<'a>>, Reached), Stop>
    requires { AreWhole tokens.now }
    ensures { Gives (map item_of) tokens.now from result (grammar.items.read (left tokens.now from)) }
{
    let (first, after) = item(tokens, from)?;
    listed(alloc, tokens, first, after, &[Mark::Comma])
}
