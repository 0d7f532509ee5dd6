ghost use Rattle.std.specs.Prelude.{◌≡◌};
ghost use Rattle.query_bind.specs.Codes.{number_of};
ghost use Rattle.query_bind.specs.declared.refusal.BindNo.TheVariants.{NoMemory};

use mq_base::{Refusal, Refusing};
use std::alloc::{AllocError, AllocFailed};
use std::error::Error;
use std::fmt;

/// Why a query is not bound to a schema. docs/FORMATS.md, "Query", lists the refusals in their order.
#[derive(Clone, Copy, Debug, PartialEq, Eq)]
pub enum BindCode {
    /// A table of the FROM list is none of the schema, or the table before a column's dot is none of the FROM list.
    UnknownTable,
    /// The same table stands earlier in the FROM list.
    RepeatedTable,
    /// No table of the schema has the column.
    UnknownAttribute,
    /// The column's table is none of the FROM list, or not the one before the dot.
    NotInTable,
    /// Two types are compared, a TEXT is summed, or a text stands beside the count.
    TypeMismatch,
    /// A text has more than 120 bytes, a doubled quote counting as one.
    TextTooLong,
    /// A selected column is not grouped.
    NotGrouped,
    /// The column under a function is grouped.
    AggregateOfGrouped,
    /// The column stands under another function earlier.
    RepeatedAggregate,
    /// A function or the count is selected without GROUP BY.
    AggregateWithoutGroup,
    /// The plan has more than 64 nodes.
    TooManyNodes,
    /// Both sides of a condition are one attribute.
    SameAttribute,
}

impl BindCode {
    /// The number of the refusal in messages, 11 to 22.
    pub fn number(self) -> u16
        ensures { result ≡ number_of self }
    {
        match self {
            BindCode::UnknownTable => 11,
            BindCode::RepeatedTable => 12,
            BindCode::UnknownAttribute => 13,
            BindCode::NotInTable => 14,
            BindCode::TypeMismatch => 15,
            BindCode::TextTooLong => 16,
            BindCode::NotGrouped => 17,
            BindCode::AggregateOfGrouped => 18,
            BindCode::RepeatedAggregate => 19,
            BindCode::AggregateWithoutGroup => 20,
            BindCode::TooManyNodes => 21,
            BindCode::SameAttribute => 22,
        }
    }
}

/// Why there is no bound query.
#[derive(Clone, Copy, Debug, PartialEq, Eq)]
pub enum BindNo {
    /// The query is refused, for this reason at this place, in bytes from 0.
    Refused { code: BindCode, at: u32 },
    /// The allocator refused a request. It may come in place of any other answer.
    NoMemory,
}

impl fmt::Display for BindNo {
    fn fmt<W: fmt::Write>(&self, f: &mut fmt::Formatter<W>) -> fmt::Result {
        match self {
            BindNo::Refused { code, at } => {
                write!(f, "query refused: code {} at byte {at}", code.number())
            }
            BindNo::NoMemory => f.write_str("no memory"),
        }
    }
}

impl Error for BindNo {}

impl Refusing for BindNo {
    ghost use Rattle.query_bind.specs.Codes.{refusal_of};

    ghost told = { refusal_of };

    fn refusal(&self) -> Option<Refusal> {
        match self {
            BindNo::Refused { code, at } => Some(Refusal {
                code: code.number(),
                at: u64::from(*at),
                item: 0,
            }),
            BindNo::NoMemory => None,
        }
    }
}

impl From<AllocError> for BindNo {
    ghost from_gives = { λ _ e. e ≡ NoMemory };

    fn from(_refused: AllocError) -> BindNo {
        BindNo::NoMemory
    }
}

impl<T: Drop> From<AllocFailed<T>> for BindNo {
    ghost from_gives = { λ _ e. e ≡ NoMemory };

    fn from(_refused: AllocFailed<T>) -> BindNo {
        BindNo::NoMemory
    }
}

impl From<mq_base::NoMemory> for BindNo {
    ghost from_gives = { λ _ e. e ≡ NoMemory };

    fn from(_refused: mq_base::NoMemory) -> BindNo {
        BindNo::NoMemory
    }
}
