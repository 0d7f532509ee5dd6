ghost use Rattle.std.specs.Prelude.{◌≡◌};
ghost use Rattle.sql_lexer.specs.Codes.{lexical_refusal};
ghost use Rattle.sql_reader.specs.Codes.{query_refusal};
ghost use Rattle.sql_reader.specs.declared.refusal.SqlNo.TheVariants as refusal;

use mq_base::{Refusal, Refusing};
use sql_lexer::LexNo;
use sql_lexer::codes::{BAD_CHAR, NUMBER_RANGE, OPEN_TEXT, UNEXPECTED};
use std::alloc::{AllocError, AllocFailed};
use std::error::Error;
use std::fmt;

/// Why a text is no query. Places are counted in bytes from 0. All lexical refusals come before `Unexpected`, and
/// `Unexpected` before `NumberRange`. docs/FORMATS.md, "Query", has the rules.
#[derive(Clone, Copy, Debug, PartialEq, Eq)]
pub enum SqlNo {
    /// A character that begins no token stands at this place, and every token before it is whole.
    BadChar {
        /// The place of the character's first byte.
        at: u32,
    },
    /// A text in quotes that begins at this place has no end, and every token before it is whole.
    OpenText {
        /// The place of the first quote of the text.
        at: u32,
    },
    /// No query begins with the tokens up to this one, and one begins with those before it; or the tokens of the whole
    /// text begin a query and are none.
    Unexpected {
        /// The place of the token, or the length of the text.
        at: u32,
    },
    /// The tokens are those of a query, but for the first number outside `i64`.
    NumberRange {
        /// The place of the number.
        at: u32,
    },
    /// The allocator refused a request. It may come in place of any other answer.
    NoMemory,
}

impl Refusing for SqlNo {
    ghost told = { query_refusal };

    fn refusal(&self) -> Option<Refusal> {
        let (code, at) = match self {
            SqlNo::BadChar { at } => (BAD_CHAR, *at),
            SqlNo::OpenText { at } => (OPEN_TEXT, *at),
            SqlNo::Unexpected { at } => (UNEXPECTED, *at),
            SqlNo::NumberRange { at } => (NUMBER_RANGE, *at),
            SqlNo::NoMemory => return None,
        };
        Some(Refusal {
            code,
            at: u64::from(at),
            item: 0,
        })
    }
}

impl fmt::Display for SqlNo {
    fn fmt<W: fmt::Write>(&self, f: &mut fmt::Formatter<W>) -> fmt::Result {
        match self {
            SqlNo::BadChar { at } => write!(f, "no token begins at byte {at}"),
            SqlNo::OpenText { at } => write!(f, "the text at byte {at} has no closing quote"),
            SqlNo::Unexpected { at } => write!(f, "no query goes on at byte {at}"),
            SqlNo::NumberRange { at } => write!(f, "the number at byte {at} is outside 64 bits"),
            SqlNo::NoMemory => f.write_str("no memory"),
        }
    }
}

impl Error for SqlNo {}

impl From<AllocError> for SqlNo {
    ghost from_gives = { λ _ e. e ≡ refusal.NoMemory };

    fn from(_refused: AllocError) -> SqlNo {
        SqlNo::NoMemory
    }
}

impl<T: Drop> From<AllocFailed<T>> for SqlNo {
    ghost from_gives = { λ _ e. e ≡ refusal.NoMemory };

    fn from(_refused: AllocFailed<T>) -> SqlNo {
        SqlNo::NoMemory
    }
}

impl From<mq_base::NoMemory> for SqlNo {
    ghost from_gives = { λ _ e. e ≡ refusal.NoMemory };

    fn from(_refused: mq_base::NoMemory) -> SqlNo {
        SqlNo::NoMemory
    }
}

impl From<LexNo> for SqlNo {
    ghost from_gives = { λ lexical e. query_refusal e ≡ lexical_refusal lexical };

    fn from(refused: LexNo) -> SqlNo {
        match refused {
            LexNo::BadChar { at } => SqlNo::BadChar { at },
            LexNo::OpenText { at } => SqlNo::OpenText { at },
            LexNo::NoMemory => SqlNo::NoMemory,
        }
    }
}
