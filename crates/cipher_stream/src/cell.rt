ghost use Rattle.std.specs.Prelude.{◌≡◌, ℕ, ◌+◌, ◌^◌, ◌<◌, ◌≤◌, List, length};
ghost use Rattle.cipher_stream.specs.Stream.{sealed, step_of, row_of};

use crate::stream::cover;

/// Seals `block`, of at most 122 bytes, under a key, a step and a row into `out`, which is 12 bytes
/// longer (docs/CIPHERS.md, "Randomised seal"). It takes no memory and cannot fail.
pub fn seal_into(key: &[u8; 32], step: u32, row: u64, block: &[u8], out: &mut [u8])
    requires short { length block.now ≤ 122 }
    requires room { length out.old ≡ length block.now + 12 }
    ensures sealed { out.new ≡ sealed key.now step row block.now }
{
    out[..4].copy_from_slice(&step.to_be_bytes());
    out[4..12].copy_from_slice(&row.to_be_bytes());
    let body = &mut out[12..];
    body.copy_from_slice(block);
    cover(key, step, row, body);
}

/// Opens `cell` under a key into `out`, of at most 122 bytes; the cell is 12 bytes longer, and names
/// its step and its row (docs/CIPHERS.md, "Randomised seal"). It takes no memory and cannot fail:
/// each cell is the seal of one block.
pub fn unseal_into(key: &[u8; 32], cell: &[u8], out: &mut [u8])
    requires short { length out.old ≤ 122 }
    requires whole { length cell.now ≡ length out.old + 12 }
    ensures opened { sealed key.now (step_of cell.now) (row_of cell.now) out.new ≡ cell.now }
    ensures undone { (step row : ℕ) (block : List ℕ) → step < 2 ^ 32 → row < 2 ^ 64
        → length block ≡ length out.old → sealed key.now step row block ≡ cell.now → block ≡ out.new }
{
    out.copy_from_slice(&cell[12..]);
    cover(key, step_of(cell), row_of(cell), out);
}

// The step that a cell names.
#[tactic(auto, unfolding(crate::specs::Stream::step_of))]
fn step_of(cell: &[u8]) -> u32
    requires { 12 ≤ length cell.now }
    ensures { result ≡ step_of cell.now }
{
    u32::from_be_bytes([cell[0], cell[1], cell[2], cell[3]])
}

// The row that a cell names.
#[tactic(auto, unfolding(crate::specs::Stream::row_of))]
fn row_of(cell: &[u8]) -> u64
    requires { 12 ≤ length cell.now }
    ensures { result ≡ row_of cell.now }
{
    u64::from_be_bytes([
        cell[4], cell[5], cell[6], cell[7], cell[8], cell[9], cell[10], cell[11],
    ])
}
