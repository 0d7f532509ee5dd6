ghost use Rattle.std.specs.Prelude.{◌≡◌, ◌∷◌, map};
ghost use Rattle.sql_reader.specs.Marks.{is_one_of};
ghost use Rattle.sql_reader.specs.Readers.{bind, give, many};
ghost use Rattle.sql_reader.specs.Rules.{Rule};
ghost use Rattle.sql_reader.specs.inside.Answers.{AreWhole, Gives, left};

use crate::mark::Mark;
use crate::reached::Reached;
use crate::stop::Stop;
use crate::terminals::next_is;
use mq_base::Seq;
use sql_lexer::Token;
use std::alloc::Global;

/// A part of a query that stands in a list.
pub trait Phrase<'a>: Drop {
    // The plain values, and that of a part.
    ghost Plain: { Type 0 };

    ghost plain: { Self → Plain };

    // The rule of a part behind the first, with what stands between.
    ghost further: { Rule Plain };

    /// A part behind the first, and the place behind it.
    fn next(alloc: Global, tokens: &[Token<'a>], from: Reached) -> Result<(Self, Reached), Stop>
        requires { AreWhole tokens.now }
        ensures { Gives plain tokens.now from result (further.read (left tokens.now from)) };
}

/// The list of a first part and those behind it, each of which begins with one of the marks; and the place behind it.
pub fn listed<'a, P: Phrase<'a>>(
    alloc: Global,
    tokens: &[Token<'a>],
    first: P,
    from: Reached,
    marks: &[Mark],
) -> Result<(Seq<P>, Reached), Stop>
    requires { AreWhole tokens.now }
    ensures { Gives (map P.plain) tokens.now from result
        (bind (many (is_one_of marks.now) P.further.read) (λ xs. give (P.plain first ∷ xs)) (left tokens.now from)) }
{
    let mut found = Seq::new(alloc);
    found.push(first)?;
    let mut after = from;
    'each: for _turn in from.at..tokens.len() {
        if !next_is(tokens, after, marks) {
            break;
        }
        let (next, behind) = P::next(alloc, tokens, after)?;
        found.push(next)?;
        after = behind;
    }
    Ok((found, after))
}
