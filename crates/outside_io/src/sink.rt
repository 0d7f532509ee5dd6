ghost use Rattle.std.specs.Prelude.{◌≡◌, true, OnOk, IsErrOf};
ghost use Rattle.outside_io.specs.declared.sink.SinkNo.TheVariants.{NoMemory};
ghost use Rattle.outside_io.specs.Outside.{SinkState, SinkFollows, Rose, Appends, AppendsFront};

use std::alloc::{AllocError, AllocFailed};
use std::error::Error;
use std::fmt;

/// Why a sink did not take a piece.
#[derive(Clone, Copy, Debug, PartialEq, Eq)]
pub enum SinkNo {
    /// The piece could not be written whole.
    Failed,
    /// The allocator refused a request for memory.
    NoMemory,
}

impl fmt::Display for SinkNo {
    fn fmt<W: fmt::Write>(&self, f: &mut fmt::Formatter<W>) -> fmt::Result {
        match self {
            SinkNo::Failed => f.write_str("the output cannot be written"),
            SinkNo::NoMemory => f.write_str("no memory"),
        }
    }
}

impl Error for SinkNo {}

impl From<AllocError> for SinkNo {
    ghost from_gives = { λ _ no. no ≡ NoMemory };

    fn from(_refused: AllocError) -> SinkNo {
        SinkNo::NoMemory
    }
}

impl<T: Drop> From<AllocFailed<T>> for SinkNo {
    ghost from_gives = { λ _ no. no ≡ NoMemory };

    fn from(_refused: AllocFailed<T>) -> SinkNo {
        SinkNo::NoMemory
    }
}

impl From<mq_base::NoMemory> for SinkNo {
    ghost from_gives = { λ _ no. no ≡ NoMemory };

    fn from(_refused: mq_base::NoMemory) -> SinkNo {
        SinkNo::NoMemory
    }
}

/// A place to which bytes are written, piece after piece. docs/ARCHITECTURE.md, "The outside", says what
/// each meaning is for.
pub trait Sink: Drop {
    /// What the sink means: what was written so far, where it tells that; a count of faults, which never
    /// falls; and whether every piece is taken for which there is memory.
    ghost state: { Self → SinkState };

    /// Writes the piece after what was written. `Failed` where only a front of it was written, which
    /// may be empty, and `NoMemory` where the allocator refused and nothing was written.
    fn put(&mut self, piece: &[u8]) -> Result<(), SinkNo>
        ensures ok { OnOk result (Appends (state self.old).written (state self.new).written piece.now) }
        ensures fault { IsErrOf result SinkNo.Failed → Rose (state self.old).faults (state self.new).faults }
        ensures front { IsErrOf result SinkNo.Failed → AppendsFront (state self.old).written (state self.new).written piece.now }
        ensures memory { IsErrOf result SinkNo.NoMemory → (state self.new).written ≡ (state self.old).written }
        ensures steady { (state self.old).steady ≡ true → IsErrOf result SinkNo.Failed → ⊥ }
        ensures follows { SinkFollows (state self.old) (state self.new) };
}
