ghost use Rattle.std.specs.Prelude.{◌≡◌, true, ◌<◌, ◌≤◌, length, Some, IsSome, IfOk, IsErrOf};
ghost use Rattle.outside_io.specs.declared.shelf.ShelfNo.TheVariants.{NoMemory};
ghost use Rattle.outside_io.specs.Outside.{ShelfState, IsHeld, IsAbsent, TakesWithin, Rose, Follows, KeepsName};

use std::alloc::{AllocError, AllocFailed, Global};
use std::error::Error;
use std::fmt;

/// Why a shelf gives no bytes.
#[derive(Clone, Copy, Debug, PartialEq, Eq)]
pub enum ShelfNo {
    /// The shelf has no such name, or could not read what it holds.
    Failed,
    /// The content is longer than the caller takes.
    TooLong,
    /// The allocator refused a request for memory.
    NoMemory,
}

impl fmt::Display for ShelfNo {
    fn fmt<W: fmt::Write>(&self, f: &mut fmt::Formatter<W>) -> fmt::Result {
        match self {
            ShelfNo::Failed => f.write_str("the file cannot be read"),
            ShelfNo::TooLong => f.write_str("the file is too long"),
            ShelfNo::NoMemory => f.write_str("no memory"),
        }
    }
}

impl Error for ShelfNo {}

impl From<AllocError> for ShelfNo {
    ghost from_gives = { λ _ no. no ≡ NoMemory };

    fn from(_refused: AllocError) -> ShelfNo {
        ShelfNo::NoMemory
    }
}

impl<T: Drop> From<AllocFailed<T>> for ShelfNo {
    ghost from_gives = { λ _ no. no ≡ NoMemory };

    fn from(_refused: AllocFailed<T>) -> ShelfNo {
        ShelfNo::NoMemory
    }
}

impl From<mq_base::NoMemory> for ShelfNo {
    ghost from_gives = { λ _ no. no ≡ NoMemory };

    fn from(_refused: mq_base::NoMemory) -> ShelfNo {
        ShelfNo::NoMemory
    }
}

/// Names with bytes, from which a caller reads. What a shelf holds is settled when it is made: no call
/// changes it. docs/ARCHITECTURE.md, "The outside", says what each meaning is for.
pub trait Shelf: Drop {
    /// What the shelf means: the names with their bytes, where it tells that; the number of bytes that the
    /// last call took; a count of faults, which never falls; the name of the last call that answered
    /// `Failed`, if there was one; and whether every name that is held can be read.
    ghost state: { Self → ShelfState };

    /// The bytes that the name is held with, at most `most` of them. `Failed` where the shelf does not
    /// hold the name or could not read it, `TooLong` where there are more bytes than `most`, and
    /// `NoMemory` where the allocator refused.
    fn read(&mut self, alloc: Global, name: &str, most: usize) -> Result<Vec<u8>, ShelfNo>
        ensures content { IfOk result (λ bytes. IsHeld (state self.old).held name.now bytes.items) }
        ensures within { IfOk result (λ bytes. length bytes.items ≤ most) }
        ensures fault { IsErrOf result ShelfNo.Failed → Rose (state self.old).faults (state self.new).faults }
        ensures named { IsErrOf result ShelfNo.Failed → (state self.new).failed ≡ Some name.now }
        ensures name_kept { KeepsName result (state self.old).failed (state self.new).failed }
        ensures absent { (state self.old).steady ≡ true → IsErrOf result ShelfNo.Failed → IsAbsent (state self.old).held name.now }
        ensures told { (state self.old).steady ≡ true → IsSome (state self.old).held }
        ensures too_long { IsErrOf result ShelfNo.TooLong → most < (state self.new).taken }
        ensures taken { TakesWithin (state self.old).held name.now (state self.new).taken }
        ensures follows { Follows (state self.old) (state self.new) };
}
