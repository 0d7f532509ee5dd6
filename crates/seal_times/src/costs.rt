//! What one cell hashes, by docs/CIPHERS.md.

ghost use Rattle.std.specs.Prelude.{◌≡◌, ◌*◌, ◌<◌, ◌≤◌};
ghost use Rattle.seal_times.specs.Costs.{blocks_of, steps_of, messages_of, cell_messages, cell_blocks};

use crate::cases::{Case, Seal};

// The bytes of a block of SHA-256, and those that it adds to a message at least: a mark and the length.
const BLOCK_LEN: usize = 64;

const END_LEN: usize = 9;

// The rounds of the deterministic seal, and the half up to which one digest covers it.
const ROUNDS: usize = 8;

const DIGEST_LEN: usize = 32;

// The gaps that one digest gives the order-preserving seal.
const GAP_COUNT: usize = 32;

// The key and the three bytes with which the messages of these two seals begin.
const HEAD_LEN: usize = 35;

// The message of the randomised seal: the key, a byte and the step.
const SEED_LEN: usize = 37;

/// Messages of one length that are hashed at one step.
#[derive(Clone, Copy)]
pub(crate) struct Messages {
    pub(crate) count: usize,
    pub(crate) bytes: usize,
}

/// The messages that one cell needs, and the blocks of SHA-256 that they take.
#[derive(Clone, Copy)]
pub(crate) struct Cost {
    pub(crate) messages: usize,
    pub(crate) blocks: usize,
}

// The blocks of SHA-256 that so many messages take.
fn blocks_of(messages: Messages) -> usize
    requires few { messages.count ≤ 9 }
    requires short { messages.bytes ≤ 300 }
    ensures value { result ≡ messages.count * blocks_of messages.bytes }
    ensures few { result ≤ 45 }
{
    messages.count * (messages.bytes + END_LEN).div_ceil(BLOCK_LEN)
}

/// The steps of one cell: the rounds, the digits, or the one seed.
pub(crate) fn steps_of(case: Case) -> usize
    ensures value { result ≡ steps_of case.seal case.value }
    ensures few { result ≤ 120 }
{
    match case.seal {
        Seal::Deterministic => ROUNDS,
        Seal::OrderPreserving => case.value.digits().len(),
        Seal::Randomised => 1,
    }
}

/// The messages of a step of one cell.
pub(crate) fn messages_of(case: Case, step: usize) -> Messages
    requires { step < steps_of case.seal case.value }
    ensures value { result ≡ messages_of case.seal case.value step }
    ensures few { result.count ≤ 9 }
    ensures long { 32 ≤ result.bytes }
    ensures short { result.bytes ≤ 300 }
{
    match case.seal {
        Seal::Deterministic => {
            let half = case.value.block().len() / 2;
            Messages {
                count: if half <= DIGEST_LEN { 1 } else { 2 },
                bytes: HEAD_LEN + half,
            }
        }
        Seal::OrderPreserving => Messages {
            count: case.value.digits()[step] as usize / GAP_COUNT + 1,
            bytes: HEAD_LEN + 2 * step,
        },
        Seal::Randomised => Messages {
            count: 1,
            bytes: SEED_LEN,
        },
    }
}

/// What one cell costs.
pub(crate) fn cost_of(case: Case) -> Cost
    ensures messages { result.messages ≡ cell_messages case.seal case.value }
    ensures blocks { result.blocks ≡ cell_blocks case.seal case.value }
{
    let mut cost = Cost {
        messages: 0,
        blocks: 0,
    };
    for step in 0..steps_of(case) {
        let messages = messages_of(case, step);
        cost.messages += messages.count;
        cost.blocks += blocks_of(messages);
    }
    cost
}
