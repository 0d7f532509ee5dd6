//! The work that is timed: cells, and the bare hashing behind as many.

ghost use Rattle.std.specs.Prelude.{◌≡◌, ◌+◌, ◌*◌, ◌/◌, ◌≤◌, length, max};
ghost use Rattle.seal_times.specs.Cells.{cell_of, cell_len_of, end_of};

use crate::cases::{Case, Seal};
use crate::costs::{Messages, messages_of, steps_of};
use rand_chacha::ChaCha20Rng;
use rand_core::{Rng, SeedableRng};
use sha2::{Digest, Sha256};
use std::io;
use std::time::Instant;

// The step and the row of the randomised seal.
const STEP: u32 = 1;

const ROW: u64 = 7;

// What follows the first 32 bytes of a message in the bare work.
const FILL: [u8; 268] = [0; 268];

/// What is timed of a case.
#[derive(Clone, Copy)]
pub(crate) enum Work {
    /// Sealing a cell.
    Seal(Case),
    /// Hashing messages as many and as long as those of a cell; for the randomised seal, drawing its words too.
    Bare(Case),
}

// The bytes of the cell.
fn cell_len(case: Case) -> usize
    ensures value { result ≡ cell_len_of case.seal case.value }
    ensures least { 1 ≤ result }
    ensures most { result ≤ 240 }
{
    match case.seal {
        Seal::Deterministic => case.value.block().len(),
        Seal::OrderPreserving => 2 * case.value.digits().len(),
        Seal::Randomised => case.value.block().len() + 12,
    }
}

// Writes the cell under a key.
fn seal_into(case: Case, key: &[u8; 32], cell: &mut [u8])
    requires { length cell.old ≡ cell_len_of case.seal case.value }
    ensures { cell.new ≡ cell_of case.seal case.value key.now }
{
    match case.seal {
        Seal::Deterministic => cipher_feistel::seal_into(key, case.value.block(), cell),
        Seal::OrderPreserving => cipher_order::seal_into(key, case.value.digits(), cell),
        Seal::Randomised => cipher_stream::seal_into(key, STEP, ROW, case.value.block(), cell),
    }
}

// The last byte of the cell under a key.
fn cell_end(case: Case, key: &[u8; 32]) -> u8
    ensures { result ≡ end_of (cell_of case.seal case.value key.now) }
{
    let mut room = [0; 240];
    let cell = &mut room[..cell_len(case)];
    seal_into(case, key, cell);
    cell[cell.len() - 1]
}

// Hashes the messages of a step, each of which begins with the digest before it.
fn hash_step(mut digest: [u8; 32], messages: Messages) -> [u8; 32]
    requires long { 32 ≤ messages.bytes }
    requires short { messages.bytes ≤ 300 }
{
    for _ in 0..messages.count {
        let mut hasher = Sha256::new();
        hasher.update(digest);
        hasher.update(&FILL[..messages.bytes - 32]);
        digest = hasher.finalize();
    }
    digest
}

// The last of the bytes that the generator draws for a block.
fn draw(seed: [u8; 32], case: Case) -> u8 {
    let mut stream = [0; 122];
    let stream = &mut stream[..case.value.block().len()];
    let mut generator = ChaCha20Rng::from_seed(seed);
    generator.set_stream(ROW);
    generator.fill_bytes(stream);
    stream[stream.len() - 1]
}

// The last byte of what the bare work of one cell comes to, begun with a key.
fn bare_end(case: Case, key: &[u8; 32]) -> u8 {
    let mut digest = *key;
    for step in 0..steps_of(case) {
        digest = hash_step(digest, messages_of(case, step));
    }
    match case.seal {
        Seal::Deterministic | Seal::OrderPreserving => digest[31],
        Seal::Randomised => draw(digest, case),
    }
}

// Does the work of so many cells, each under the key that those before it left.
fn perform(work: Work, count: u32) -> [u8; 32] {
    let mut key = [7; 32];
    for turn in 0..count as usize {
        let end = match work {
            Work::Seal(case) => cell_end(case, &key),
            Work::Bare(case) => bare_end(case, &key),
        };
        key[turn % 32] ^= end;
    }
    key
}

/// The nanoseconds that the work of so many cells takes.
pub(crate) fn nanos_of(rt: &HostRuntime, work: Work, count: u32) -> io::Result<u64> {
    let start = Instant::now(rt)?;
    let key = perform(work, count);
    let nanos = start.elapsed(rt)?.as_nanos();
    // No run comes to this key, but no compiler can know it, and so none drops the work.
    if key == [0; 32] {
        eprintln!(rt; "the key came to zero")?;
    }
    Ok(u64::try_from(nanos).unwrap_or(u64::MAX))
}

/// The whole cells in a second, where `count` took so many nanoseconds. No time counts as one.
pub(crate) fn cells_a_second(count: u32, nanos: u64) -> u64
    ensures { result ≡ count * 1_000_000_000 / max nanos 1 }
{
    count as u64 * 1_000_000_000 / nanos.max(1)
}

/// How many hundredths of the bare time the time of the seal is, to the nearest. No time counts as one.
pub(crate) fn hundredths(seal: u64, bare: u64) -> u128
    ensures { result ≡ (seal * 100 + bare / 2) / max bare 1 }
{
    (seal as u128 * 100 + bare as u128 / 2) / bare.max(1) as u128
}
