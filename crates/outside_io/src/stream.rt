// The loops over the system's reads and writes.
ghost use Rattle.std.specs.Prelude.{◌≡◌, ◌+◌, ◌<◌, ◌≤◌, [], length, IfSome, OnOk, IsErrOf};
ghost use Rattle.std.specs.Io.KnownBytes.{Appends};

use crate::shelf::ShelfNo;
use crate::sink::SinkNo;
use std::io::{Read, Write};

// The most bytes that one read takes.
const CHUNK: usize = 8192;

// Reads to the end. It stops with `TooLong` once more than `most` bytes were taken, and takes at most one
// byte more. Room is made before each read, so that want of memory loses no byte.
pub(crate) fn read_within<R: Read>(
    from: &mut R,
    into: &mut Vec<u8>,
    most: usize,
) -> Result<(), ShelfNo>
    requires { into.old.items ≡ [] }
    ensures whole { OnOk result (IfSome (R.remaining from.old) (λ bytes. into.new.items ≡ bytes)) }
    ensures within { OnOk result (length into.new.items ≤ most) }
    ensures too_long { IsErrOf result ShelfNo.TooLong → most < length into.new.items }
    ensures one_more { length into.new.items ≤ most + 1 }
{
    let mut buffer = [0u8; CHUNK];
    while into.len() <= most {
        let room = (most - into.len()).min(CHUNK - 1) + 1;
        into.reserve(room)?;
        match from.read(&mut buffer[..room]) {
            Ok(0) => return Ok(()),
            Ok(count) => into.extend_from_slice(&buffer[..count])?,
            Err(_) => return Err(ShelfNo::Failed),
        }
    }
    Err(ShelfNo::TooLong)
}

// Writes the whole piece. A write that takes nothing is a fault.
pub(crate) fn write_whole<W: Write>(to: &mut W, piece: &[u8]) -> Result<(), SinkNo>
    ensures whole { OnOk result (Appends (W.contents to.old) (W.contents to.new) piece.now) }
    ensures failed { IsErrOf result SinkNo.NoMemory → ⊥ }
{
    let mut rest = piece;
    while !rest.is_empty() {
        match to.write(rest) {
            Ok(0) => return Err(SinkNo::Failed),
            Ok(count) => rest = &rest[count..],
            Err(_) => return Err(SinkNo::Failed),
        }
    }
    match to.flush() {
        Ok(()) => Ok(()),
        Err(_) => Err(SinkNo::Failed),
    }
}
