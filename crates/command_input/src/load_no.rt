ghost use Rattle.std.specs.Prelude.{◌≡◌};
ghost use Rattle.command_input.specs.declared.load_no.LoadNo.TheVariants as load;
ghost use Rattle.command_input.specs.Input.{fault_of};
ghost use Rattle.command_input.specs.Loading.{judged_as};

use crate::fault::{FileRole, InputFault};
use mq_base::{NoMemory, Refusal, Refusing};
use std::alloc::{AllocError, AllocFailed};

/// Why the files of a command are not loaded.
#[derive(Drop)]
pub enum LoadNo {
    /// A file is refused.
    Refused(InputFault),
    /// A file could not be read.
    Failed(FileRole),
    /// The allocator refused a request for memory.
    NoMemory,
}

// The refusal of a file.
pub fn refused(file: FileRole, refusal: Refusal) -> LoadNo
    ensures { result ≡ load.Refused (fault_of file refusal) }
{
    LoadNo::Refused(InputFault {
        file,
        code: refusal.code,
        at: refusal.at,
        item: refusal.item,
    })
}

// What a reader answered for a file.
pub fn judge<X: Drop, E: Refusing>(file: FileRole, answer: Result<X, E>) -> Result<X, LoadNo>
    ensures { result ≡ judged_as file E.told answer }
{
    match answer {
        Ok(value) => Ok(value),
        Err(error) => match error.refusal() {
            Some(refusal) => Err(refused(file, refusal)),
            None => Err(LoadNo::NoMemory),
        },
    }
}

impl From<AllocError> for LoadNo {
    ghost from_gives = { λ _ no. no ≡ load.NoMemory };

    fn from(_refused: AllocError) -> LoadNo {
        LoadNo::NoMemory
    }
}

impl<T: Drop> From<AllocFailed<T>> for LoadNo {
    ghost from_gives = { λ _ no. no ≡ load.NoMemory };

    fn from(_refused: AllocFailed<T>) -> LoadNo {
        LoadNo::NoMemory
    }
}

impl From<NoMemory> for LoadNo {
    ghost from_gives = { λ _ no. no ≡ load.NoMemory };

    fn from(_refused: NoMemory) -> LoadNo {
        LoadNo::NoMemory
    }
}
