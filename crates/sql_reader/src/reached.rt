ghost use Rattle.std.specs.Prelude.{◌≡◌, ◌+◌, ◌<◌, ◌^◌, Some, None, if◌then◌else◌};
ghost use Rattle.std.specs.Option.{option_or};
ghost use Rattle.sql_lexer.specs.Lexing.{lexeme};
ghost use Rattle.sql_reader.specs.Reading.{is_wide};
ghost use Rattle.sql_reader.specs.inside.Answers.{KeepsWide};

use sql_lexer::Token;

/// How far the tokens of a text are read.
#[derive(Clone, Copy)]
pub struct Reached {
    /// How many tokens are read: the place of the next among them.
    pub at: usize,
    /// The place, in bytes of the text, of the first number outside 64 bits that was read, if there is one.
    pub wide: Option<u32>,
}

impl Reached {
    /// Before the first token.
    pub fn start() -> Reached
        ensures at { result.at ≡ 0 }
        ensures wide { result.wide ≡ None }
    {
        Reached { at: 0, wide: None }
    }

    /// Behind a token, of which the caller says whether it is a number outside 64 bits.
    pub fn past(self, token: &Token<'_>, wide: bool) -> Reached
        requires more { self.at + 1 < 2 ^ 64 }
        requires known { wide ≡ is_wide (lexeme token.now) }
        ensures at { result.at ≡ self.at + 1 }
        ensures wide { KeepsWide self.wide (lexeme token.now) result.wide }
    {
        Reached {
            at: self.at + 1,
            wide: first_of(self.wide, token.at, wide),
        }
    }
}

// The place that was found, or else this one where it is of a number outside 64 bits.
fn first_of(found: Option<u32>, at: u32, wide: bool) -> Option<u32>
    ensures { result ≡ option_or found (if wide then Some at else None) }
{
    match found {
        Some(place) => Some(place),
        None if wide => Some(at),
        None => None,
    }
}
