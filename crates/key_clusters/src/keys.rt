ghost use Rattle.std.specs.Prelude.{◌≡◌, ◌<◌, map};
ghost use Rattle.std.specs.List.{range_with_len};
ghost use Rattle.key_clusters.specs.Keys as spec;
ghost use Rattle.key_clusters.specs.Keys.{key_at, scheme_number};

use crate::assigned::Clusters;
use mq_base::{AttrId, Scheme};
use sha2::{Digest, Sha256};

/// For each attribute, by its id, the key under which its cells are sealed. docs/MODEL.md, "Clusters and keys".
#[derive(Clone, Copy)]
pub struct Keys {
    pub keys: [[u8; 32]; 64],
}

/// The key of a cluster under a scheme: the SHA-256 of the seed, the number of the cluster and the number of the scheme, a byte
/// each. docs/MODEL.md, "Clusters and keys". It takes no memory.
#[tactic(auto, unfolding(crate::specs::Keys::key_of))]
pub fn key_of(seed: &[u8; 32], cluster: AttrId, scheme: Scheme) -> [u8; 32]
    ensures { result ≡ spec.key_of seed.now cluster scheme }
{
    let mut hasher = Sha256::new();
    hasher.update(seed);
    hasher.update([cluster.0, scheme_number(scheme)]);
    hasher.finalize()
}

fn scheme_number(scheme: Scheme) -> u8
    ensures { result ≡ scheme_number scheme }
{
    match scheme {
        Scheme::Rnd => 0,
        Scheme::Det => 1,
        Scheme::Ope => 2,
    }
}

// The key of an attribute.
fn key_at(seed: &[u8; 32], clusters: &Clusters, a: AttrId) -> [u8; 32]
    requires { a.0 < 64 }
    ensures { result ≡ key_at seed.now clusters.now a.0 }
{
    key_of(seed, clusters.cluster_of(a), clusters.scheme_of(a))
}

impl Keys {
    /// The key of each attribute, which is that of its cluster. It takes no memory.
    pub fn of(seed: &[u8; 32], clusters: &Clusters) -> Keys
        ensures { result.keys ≡ map (key_at seed.now clusters.now) (range_with_len 0 64) }
    {
        let mut keys = [[0u8; 32]; 64];
        for a in 0..64u8 {
            keys[usize::from(a)] = key_at(seed, clusters, AttrId(a));
        }
        Keys { keys }
    }
}
