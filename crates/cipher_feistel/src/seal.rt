//! Sealing a block and opening its cell.

ghost use Rattle.std.specs.Prelude.{◌≡◌, ℕ, ◌%◌, ◌≤◌, List, length};
ghost use Rattle.cipher_feistel.specs.Feistel.{sealed};

use crate::round::{turn, turn_back};

const ROUNDS: u8 = 8;

/// Writes into `out` the cell of `block` under `key`, by the rule of docs/CIPHERS.md, "Deterministic seal".
///
/// Both slices have one even length, of at most 122 bytes. The call takes no memory and cannot fail.
/// Under one key, blocks of one length have equal cells only where they are equal.
pub fn seal_into(key: &[u8; 32], block: &[u8], out: &mut [u8])
    requires even { length block.now % 2 ≡ 0 }
    requires short { length block.now ≤ 122 }
    requires same_length { length out.old ≡ length block.now }

    ensures sealed { out.new ≡ sealed key.now block.now }
    ensures bijective { (other : List ℕ) → length other ≡ length block.now
        → sealed key.now other ≡ out.new → other ≡ block.now }
{
    out.copy_from_slice(block);
    let half = out.len() / 2;
    let (left, right) = out.split_at_mut(half);
    for round in 0..ROUNDS {
        turn(key, round, left, right);
    }
}

/// Writes into `out` the block whose cell under `key` is `cell`, by docs/CIPHERS.md, "Deterministic seal".
///
/// Both slices have one even length, of at most 122 bytes. The call takes no memory and cannot fail:
/// each list of bytes of such a length is the cell of exactly one block.
pub fn unseal_into(key: &[u8; 32], cell: &[u8], out: &mut [u8])
    requires even { length cell.now % 2 ≡ 0 }
    requires short { length cell.now ≤ 122 }
    requires same_length { length out.old ≡ length cell.now }

    ensures opened { sealed key.now out.new ≡ cell.now }
    ensures undone { (block : List ℕ) → length block ≡ length cell.now
        → sealed key.now block ≡ cell.now → block ≡ out.new }
{
    out.copy_from_slice(cell);
    let half = out.len() / 2;
    let (left, right) = out.split_at_mut(half);
    for round in (0..ROUNDS).rev() {
        turn_back(key, round, left, right);
    }
}
