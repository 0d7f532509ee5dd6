// The gaps and the heights of the digits at one position.

ghost use Rattle.std.specs.Prelude.{◌≡◌, ◌≢◌, ℕ, ◌/◌, ◌%◌, ◌<◌, ◌≤◌, IfSome, IfNone};
ghost use Rattle.cipher_order.specs.Order.{gap, gap_block, height};

use crate::earlier::Earlier;
use sha2::{Digest, Sha256};

// Marks the hashes of this seal, so that they are no other's.
const MARK: u8 = 79;

// There are 257 digits, from 0 to 256.
const DIGIT_COUNT: u16 = 257;

// Block `block` of the bytes that the gaps come from: 32 of them, for as many digits.
fn gap_block(key: &[u8; 32], earlier: &Earlier, block: u8) -> [u8; 32]
    ensures { result ≡ gap_block key.now earlier.now block }
{
    let position = earlier.len() as u8;
    let mut hasher = Sha256::new();
    hasher.update(key);
    hasher.update(&[MARK, position, block]);
    hasher.update(earlier.spelling());
    hasher.finalize()
}

// The gap of `digit`. A digit that begins a block has the block hashed into `block`; the digits
// after it find it there.
#[tactic(auto, unfolding(crate::specs::Order::gap))]
fn next_gap(key: &[u8; 32], earlier: &Earlier, digit: u16, block: &mut [u8; 32]) -> u16
    requires small { digit ≤ 256 }
    requires at_hand { digit % 32 ≢ 0 → block.old ≡ gap_block key.now earlier.now (digit / 32) }
    ensures value { result ≡ gap key.now earlier.now digit }
    ensures kept { block.new ≡ gap_block key.now earlier.now (digit / 32) }
{
    if digit % 32 == 0 {
        *block = gap_block(key, earlier, (digit / 32) as u8);
    }
    1 + u16::from(block[usize::from(digit % 32)] % 255)
}

/// The height of `digit` at the position after `earlier`.
pub(crate) fn height(key: &[u8; 32], earlier: &Earlier, digit: u16) -> u16
    requires { digit ≤ 256 }
    ensures { result ≡ height key.now earlier.now digit }
{
    let mut block = [0; 32];
    let mut sum = 0;
    for i in 0..digit + 1 {
        sum += next_gap(key, earlier, i, &mut block);
    }
    sum
}

/// The digit that has the height `wanted` at the position after `earlier`, if one has.
pub(crate) fn digit_of(key: &[u8; 32], earlier: &Earlier, wanted: u16) -> Option<u16>
    ensures digit { IfSome result (λ d. d ≤ 256) }
    ensures found { IfSome result (λ d. height key.now earlier.now d ≡ wanted) }
    ensures none { IfNone result ((d : ℕ) → d ≤ 256 → height key.now earlier.now d ≢ wanted) }
{
    let mut block = [0; 32];
    let mut sum = 0;
    for digit in 0..DIGIT_COUNT {
        sum += next_gap(key, earlier, digit, &mut block);
        if sum == wanted {
            return Some(digit);
        }
        if sum > wanted {
            return None;
        }
    }
    None
}
