ghost use Rattle.std.specs.Prelude.{◌≡◌};
ghost use Rattle.table_reader.specs.declared.refusal.TableNo.TheVariants as refusal;

use mq_base::{NoMemory, Refusal, Refusing};
use std::alloc::{AllocError, AllocFailed};
use std::error::Error;
use std::fmt;

/// Why a table's file is refused: its first fault in the order of docs/FORMATS.md, "Table file". Rows are
/// counted from 1, the header left out; columns from 0. The refusals stand in the order of their codes, from 1.
#[derive(Clone, Copy, Debug, PartialEq, Eq)]
pub enum TableNo {
    /// The first record does not list the names of the table's columns in the order of the policy, or there
    /// is no record.
    BadHeader,
    /// The row has another number of fields than the table has columns.
    BadRow { row: u64 },
    /// The field of an INT column is not an optional `-` and at least one digit, or its value is outside `i64`.
    BadInt { row: u64, col: u32 },
    /// The field of a TEXT column has more than 120 bytes.
    TextTooLong { row: u64, col: u32 },
    /// There is a row 100,001.
    TooManyRows,
    /// The allocator refused a request for memory. It may stand in place of any other answer.
    NoMemory,
}

impl fmt::Display for TableNo {
    fn fmt<W: fmt::Write>(&self, f: &mut fmt::Formatter<W>) -> fmt::Result {
        match self {
            TableNo::BadHeader => f.write_str("the header does not list the table's columns"),
            TableNo::BadRow { row } => write!(f, "row {row} has another number of fields"),
            TableNo::BadInt { row, col } => write!(f, "row {row} has no INT in column {col}"),
            TableNo::TextTooLong { row, col } => {
                write!(f, "row {row} has a TEXT over 120 bytes in column {col}")
            }
            TableNo::TooManyRows => f.write_str("there are more than 100000 rows"),
            TableNo::NoMemory => f.write_str("no memory"),
        }
    }
}

impl Error for TableNo {}

impl Refusing for TableNo {
    ghost use Rattle.table_reader.specs.Codes.{refusal_of};

    ghost told = { refusal_of };

    fn refusal(&self) -> Option<Refusal> {
        let (code, at, item) = match self {
            TableNo::BadHeader => (1, 0, 0),
            TableNo::BadRow { row } => (2, *row, 0),
            TableNo::BadInt { row, col } => (3, *row, u64::from(*col)),
            TableNo::TextTooLong { row, col } => (4, *row, u64::from(*col)),
            TableNo::TooManyRows => (5, 100_001, 0),
            TableNo::NoMemory => return None,
        };
        Some(Refusal { code, at, item })
    }
}

impl From<AllocError> for TableNo {
    ghost from_gives = { λ _ e. e ≡ refusal.NoMemory };

    fn from(_refused: AllocError) -> TableNo {
        TableNo::NoMemory
    }
}

impl<T: Drop> From<AllocFailed<T>> for TableNo {
    ghost from_gives = { λ _ e. e ≡ refusal.NoMemory };

    fn from(_refused: AllocFailed<T>) -> TableNo {
        TableNo::NoMemory
    }
}

impl From<NoMemory> for TableNo {
    ghost from_gives = { λ _ e. e ≡ refusal.NoMemory };

    fn from(_refused: NoMemory) -> TableNo {
        TableNo::NoMemory
    }
}
