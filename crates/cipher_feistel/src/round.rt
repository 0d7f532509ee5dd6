//! One round of the deterministic seal, and its undoing.

ghost use Rattle.std.specs.Prelude.{◌≡◌, ◌≤◌, length};
ghost use Rattle.cipher_feistel.specs.Feistel.{mask, round_hash, turned, xored};

use sha2::{Digest, Sha256};

// The byte that stands behind the key in each hashed message, and sets these hashes apart.
const MARK: u8 = 68;

const DIGEST_LEN: usize = 32;

// The hash that is one part of a round's mask.
#[tactic(auto, unfolding(crate::specs::Feistel::round_hash))]
fn round_hash(key: &[u8; 32], round: u8, part: u8, right: &[u8]) -> [u8; 32]
    ensures { result ≡ round_hash key.now round part right.now }
{
    let mut hasher = Sha256::new();
    hasher.update(key);
    hasher.update([MARK, round, part]);
    hasher.update(right);
    hasher.finalize()
}

// Xors each byte of `target` with the byte at its place in `bytes`.
fn xor_onto(target: &mut [u8], bytes: &[u8])
    requires { length target.old ≤ length bytes.now }
    ensures { target.new ≡ xored target.old bytes.now }
{
    for (i, byte) in target.iter_mut().enumerate() {
        *byte ^= bytes[i];
    }
}

// Xors the mask of `right` onto `left`. One hash covers a half of up to 32 bytes.
fn mask_onto(key: &[u8; 32], round: u8, left: &mut [u8], right: &[u8])
    requires short { length right.now ≤ 61 }
    requires same_length { length left.old ≡ length right.now }
    ensures { left.new ≡ xored left.old (mask key.now round right.now) }
{
    let first = round_hash(key, round, 0, right);
    if left.len() <= DIGEST_LEN {
        xor_onto(left, &first);
    } else {
        let second = round_hash(key, round, 1, right);
        let (front, back) = left.split_at_mut(DIGEST_LEN);
        xor_onto(front, &first);
        xor_onto(back, &second);
    }
}

// One round on the two halves.
#[tactic(auto, unfolding(crate::specs::Feistel::turned))]
pub(crate) fn turn(key: &[u8; 32], round: u8, left: &mut [u8], right: &mut [u8])
    requires short { length right.old ≤ 61 }
    requires same_length { length left.old ≡ length right.old }
    ensures { turned key.now round (record { left = left.old; right = right.old })
        ≡ record { left = left.new; right = right.new } }
{
    mask_onto(key, round, left, right);
    left.swap_with_slice(right);
}

// The halves that the round turned into these.
#[tactic(auto, unfolding(crate::specs::Feistel::turned))]
pub(crate) fn turn_back(key: &[u8; 32], round: u8, left: &mut [u8], right: &mut [u8])
    requires short { length right.old ≤ 61 }
    requires same_length { length left.old ≡ length right.old }
    ensures { turned key.now round (record { left = left.new; right = right.new })
        ≡ record { left = left.old; right = right.old } }
{
    right.swap_with_slice(left);
    mask_onto(key, round, left, right);
}
