ghost use Rattle.std.specs.Prelude.{◌≡◌};
ghost use Rattle.toml_tree.specs.Outcome.{told};
ghost use Rattle.toml_tree.specs.declared.error.ReadError.TheVariants.{NoMemory};

use mq_base::{Refusal, Refusing};
use std::alloc::{AllocError, AllocFailed};

/// Why a value of a tree gives nothing.
#[derive(Debug, Drop, PartialEq)]
pub enum ReadError {
    /// It has not the form that is asked for.
    Malformed,
    /// The allocator refused a request for memory.
    NoMemory,
}

impl From<AllocError> for ReadError {
    ghost from_gives = { λ _ e. e ≡ NoMemory };

    fn from(_refused: AllocError) -> ReadError {
        ReadError::NoMemory
    }
}

impl<T: Drop> From<AllocFailed<T>> for ReadError {
    ghost from_gives = { λ _ e. e ≡ NoMemory };

    fn from(_refused: AllocFailed<T>) -> ReadError {
        ReadError::NoMemory
    }
}

impl From<mq_base::NoMemory> for ReadError {
    ghost from_gives = { λ _ e. e ≡ NoMemory };

    fn from(_refused: mq_base::NoMemory) -> ReadError {
        ReadError::NoMemory
    }
}

/// Why a file gives no lists.
#[derive(Debug, Drop, PartialEq)]
pub enum DocumentNo {
    /// The bytes are no UTF-8 or no TOML document. The number of this refusal is 1.
    Syntax,
    /// The document has not the form that is asked for. The number of this refusal is 2.
    Shape,
    /// The allocator refused a request for memory.
    NoMemory,
}

impl Refusing for DocumentNo {
    ghost told = { told };

    fn refusal(&self) -> Option<Refusal> {
        let code = match self {
            DocumentNo::Syntax => 1,
            DocumentNo::Shape => 2,
            DocumentNo::NoMemory => return None,
        };
        Some(Refusal {
            code,
            at: 0,
            item: 0,
        })
    }
}
