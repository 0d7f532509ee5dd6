ghost use Rattle.std.specs.Prelude.{◌≡◌, ◌≤◌, length, map, IfOk};
ghost use Rattle.std.specs.Result.{result_map_both};
ghost use Rattle.mq_base.specs.Refusal.{Answers};
ghost use Rattle.sql_lexer.specs.Codes.{lexical_refusal};
ghost use Rattle.sql_lexer.specs.Lexing.{lexed, lexeme};
ghost use Rattle.sql_lexer.specs.Longest.{TakesLongest};
ghost use Rattle.sql_lexer.specs.Slices.{AreSlices};

use crate::fronts::{Front, front_of};
use crate::refusal::LexNo;
use crate::token::Token;
use mq_base::Seq;
use std::alloc::Global;

/// The tokens of a text, in order, with the white space between them left out; or the first refusal in the text.
/// The longest token is taken each time. A text has at most 67,108,864 bytes. The time is linear in its length,
/// and memory is taken for the tokens alone. docs/FORMATS.md, "Query", has the rules.
///
/// A refusal is `BadChar` at a character that begins no token, `OpenText` at the first quote of a text in quotes
/// that has no end, or `NoMemory`.
pub fn tokens(alloc: Global, text: &str) -> Result<Seq<Token<'_>>, LexNo>
    requires { length text.now ≤ 67108864 }
    ensures lexed { Answers lexical_refusal (result_map_both (map lexeme) (λ e. e) result) (lexed text.now) }
    ensures sliced { IfOk result (AreSlices text.now) }
    ensures longest { TakesLongest text.now result }
{
    let mut found = Vec::new(alloc);
    let mut rest = text;
    while !rest.is_empty() {
        let at = (text.len() - rest.len()) as u32;
        match front_of(rest.as_bytes()) {
            Front::White => rest = rest.split_at(1).1,
            Front::Taken(kind, len) => {
                let (text, after) = rest.split_at(len);
                found.push(Token { kind, text, at })?;
                rest = after;
            }
            Front::Bad => return Err(LexNo::BadChar { at }),
            Front::Open => return Err(LexNo::OpenText { at }),
        }
    }
    Ok(Seq::of(found))
}
