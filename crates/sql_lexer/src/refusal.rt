ghost use Rattle.std.specs.Prelude.{◌≡◌};
ghost use Rattle.sql_lexer.specs.Codes.{lexical_refusal};
ghost use Rattle.sql_lexer.specs.declared.refusal.LexNo.TheVariants as refusal;

use crate::codes::{BAD_CHAR, OPEN_TEXT};
use mq_base::{Refusal, Refusing};
use std::alloc::{AllocError, AllocFailed};
use std::error::Error;
use std::fmt;

/// Why a text has no tokens. Places are counted in bytes from 0. docs/FORMATS.md, "Query", has the rules.
#[derive(Clone, Copy, Debug, PartialEq, Eq)]
pub enum LexNo {
    /// A character that begins no token stands at this place, and every token before it is whole.
    BadChar {
        /// The place of the character's first byte.
        at: u32,
    },
    /// A text in quotes that begins at this place has no end, and every token before it is whole.
    OpenText {
        /// The place of the first quote of the text.
        at: u32,
    },
    /// The allocator refused a request. It may come in place of any other answer.
    NoMemory,
}

impl fmt::Display for LexNo {
    fn fmt<W: fmt::Write>(&self, f: &mut fmt::Formatter<W>) -> fmt::Result {
        match self {
            LexNo::BadChar { at } => write!(f, "no token begins at byte {at}"),
            LexNo::OpenText { at } => write!(f, "the text at byte {at} has no closing quote"),
            LexNo::NoMemory => f.write_str("no memory"),
        }
    }
}

impl Error for LexNo {}

impl Refusing for LexNo {
    ghost told = { lexical_refusal };

    fn refusal(&self) -> Option<Refusal> {
        let (code, at) = match self {
            LexNo::BadChar { at } => (BAD_CHAR, *at),
            LexNo::OpenText { at } => (OPEN_TEXT, *at),
            LexNo::NoMemory => return None,
        };
        Some(Refusal {
            code,
            at: u64::from(at),
            item: 0,
        })
    }
}

impl From<AllocError> for LexNo {
    ghost from_gives = { λ _ e. e ≡ refusal.NoMemory };

    fn from(_refused: AllocError) -> LexNo {
        LexNo::NoMemory
    }
}

impl<T: Drop> From<AllocFailed<T>> for LexNo {
    ghost from_gives = { λ _ e. e ≡ refusal.NoMemory };

    fn from(_refused: AllocFailed<T>) -> LexNo {
        LexNo::NoMemory
    }
}

impl From<mq_base::NoMemory> for LexNo {
    ghost from_gives = { λ _ e. e ≡ refusal.NoMemory };

    fn from(_refused: mq_base::NoMemory) -> LexNo {
        LexNo::NoMemory
    }
}
