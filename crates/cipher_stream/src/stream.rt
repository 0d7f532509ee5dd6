ghost use Rattle.std.specs.Prelude.{◌≡◌, ◌≤◌, length, slice_index, EachIndex};
ghost use Rattle.cipher_stream.specs.Stream.{seed_of, stream_byte, covered};

use rand_chacha::ChaCha20Rng;
use rand_core::{Rng, SeedableRng};
use sha2::{Digest, Sha256};

// The bytes of the longest block.
const LONGEST: usize = 122;

// The byte between the key and the step in what is hashed, which marks this use of the key.
const MARK: u8 = 82;

// Xors the stream of a key, a step and a row onto a block. The same call again takes it off.
pub(crate) fn cover(key: &[u8; 32], step: u32, row: u64, block: &mut [u8])
    requires { length block.old ≤ LONGEST }
    ensures { block.new ≡ covered (seed_of key.now step) row block.old }
{
    let mut stream = [0; LONGEST];
    let stream = &mut stream[..block.len()];
    draw(seed(key, step), row, stream);
    for (place, byte) in block.iter_mut().enumerate() {
        *byte ^= stream[place];
    }
}

// The seed of the generator under a key at a step.
fn seed(key: &[u8; 32], step: u32) -> [u8; 32]
    ensures { result ≡ seed_of key.now step }
{
    let mut hasher = Sha256::new();
    hasher.update(key);
    hasher.update([MARK]);
    hasher.update(step.to_be_bytes());
    hasher.finalize()
}

// Fills `stream` with the first bytes of a row's stream.
fn draw(seed: [u8; 32], row: u64, stream: &mut [u8])
    requires { length stream.old ≤ LONGEST }
    ensures { EachIndex stream.new (λ place. slice_index stream.new place ≡ stream_byte seed row place) }
{
    let mut generator = ChaCha20Rng::from_seed(seed);
    generator.set_stream(row);
    generator.fill_bytes(stream);
}
