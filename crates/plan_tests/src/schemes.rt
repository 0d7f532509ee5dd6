//! Clusters, schemes and keys of queries, worked out by hand from docs/MODEL.md, "Clusters and keys".
use crate::told::{facts_of, schema, told_clusters};
use key_clusters::{Keys, clusters, key_of};
use mq_base::{AttrId, Scheme};
use std::test::Fail;

// Keys of the seed of zeros, computed by Python's hashlib.
const KEYS: [(u8, Scheme, [u8; 32]); 6] = [
    (
        0,
        Scheme::Rnd,
        [
            0xeb, 0x14, 0x2b, 0x0c, 0xae, 0x0b, 0xaa, 0x72, 0xa7, 0x67, 0xeb, 0xc0, 0x82, 0x3d,
            0x1b, 0xe9, 0x4e, 0x14, 0xc5, 0xbf, 0xc5, 0x2d, 0x8e, 0x41, 0x7f, 0xc4, 0x30, 0x2f,
            0xce, 0xb6, 0x24, 0x0c,
        ],
    ),
    (
        0,
        Scheme::Det,
        [
            0x53, 0xfa, 0x90, 0x28, 0xd8, 0x68, 0x3c, 0x41, 0xa1, 0x9c, 0xfc, 0x6e, 0x9c, 0x45,
            0x7c, 0xc7, 0x59, 0x1e, 0x9b, 0xaa, 0x15, 0xe6, 0x68, 0x15, 0x6d, 0x93, 0x0e, 0x47,
            0xd8, 0x8a, 0xb9, 0x56,
        ],
    ),
    (
        0,
        Scheme::Ope,
        [
            0xa4, 0x7b, 0xf2, 0x30, 0x76, 0x64, 0xe6, 0x2e, 0xf4, 0x58, 0x5a, 0x1c, 0xb3, 0xf6,
            0xd9, 0x46, 0xd7, 0xcd, 0x72, 0x85, 0x5a, 0xec, 0x10, 0x0e, 0x08, 0x56, 0xca, 0x1a,
            0x5d, 0x79, 0x04, 0x81,
        ],
    ),
    (
        63,
        Scheme::Rnd,
        [
            0xc7, 0xe7, 0x0c, 0x63, 0x18, 0x0d, 0xb0, 0xdf, 0x38, 0xf8, 0x8f, 0x37, 0x81, 0x57,
            0xdb, 0xe9, 0xc0, 0xd1, 0xcf, 0x8b, 0x46, 0xc6, 0x31, 0x64, 0x0d, 0x65, 0x13, 0xe6,
            0xbf, 0x69, 0x7f, 0xca,
        ],
    ),
    (
        63,
        Scheme::Det,
        [
            0x0d, 0x55, 0xa5, 0x8c, 0xb0, 0x33, 0xd5, 0x8f, 0x19, 0x9b, 0xf5, 0x3c, 0x8d, 0x69,
            0x9c, 0x97, 0x6c, 0x00, 0x86, 0xd3, 0x13, 0xc0, 0x7c, 0xba, 0xd1, 0xf6, 0x1e, 0xd1,
            0x5a, 0x42, 0xd0, 0xf4,
        ],
    ),
    (
        63,
        Scheme::Ope,
        [
            0x38, 0x9f, 0x58, 0xbc, 0x5f, 0x5d, 0x8d, 0x2f, 0xb2, 0x10, 0x1c, 0x2b, 0xf8, 0x34,
            0x5f, 0x8f, 0x18, 0x40, 0xf1, 0x2e, 0x59, 0xa4, 0x20, 0xe0, 0x23, 0x99, 0x15, 0xe6,
            0x34, 0x57, 0x33, 0x77,
        ],
    ),
];

// A query, an attribute with a ceiling below the others, and for each of the first six attributes its cluster and scheme.
const SCHEMES: [(&str, (u8, Scheme), &str); 8] = [
    (
        "select b, d from r, s where a = c",
        (0, Scheme::Ope),
        "aDet bRnd aDet dRnd eRnd fRnd",
    ),
    (
        "select b, d from r, s where a = c",
        (2, Scheme::Rnd),
        "aRnd bRnd aRnd dRnd eRnd fRnd",
    ),
    (
        "select b, d from r, s where a = c and a >= 2",
        (0, Scheme::Ope),
        "aOpe bRnd aOpe dRnd eRnd fRnd",
    ),
    (
        "select b, d from r, s where a = c and a >= 2",
        (0, Scheme::Det),
        "aDet bRnd aDet dRnd eRnd fRnd",
    ),
    (
        "select a, sum(b) from r group by a having sum(b) > 100",
        (0, Scheme::Ope),
        "aDet bOpe cRnd dRnd eRnd fRnd",
    ),
    (
        "select a, sum(b), count(*) from r group by a having count(*) > 1",
        (0, Scheme::Ope),
        "aDet bRnd cRnd dRnd eRnd fRnd",
    ),
    (
        "select a, min(b) from r group by a",
        (0, Scheme::Ope),
        "aDet bOpe cRnd dRnd eRnd fRnd",
    ),
    (
        "select a, e from r join s on a = e join t on c = f where e = c",
        (3, Scheme::Rnd),
        "aDet bRnd aDet dRnd aDet aDet",
    ),
];

#[test]
fn keys_are_those_of_an_outside_hash(rt: HostRuntime) -> Result<(), Fail> {
    for (cluster, scheme, want) in KEYS {
        assert_eq!(rt; key_of(&[0; 32], AttrId(cluster), scheme), want);
    }
    Ok(())
}

#[test]
fn queries_have_their_clusters_and_schemes(rt: HostRuntime) -> Result<(), Fail> {
    let alloc = rt.alloc();
    let schema = schema(alloc)?;
    for (text, (low, ceiling), want) in SCHEMES {
        assert!(rt; text.len() < 1000);
        let facts = facts_of(alloc, text, &schema)?;
        let mut ceilings = [Scheme::Ope; 64];
        ceilings[usize::from(low % 64)] = ceiling;
        let line = told_clusters(alloc, &clusters(&facts, &ceilings))?;
        assert_eq!(rt; line.as_str(), want, "of {text:?}");
    }
    Ok(())
}

#[test]
fn an_attribute_has_the_key_of_its_cluster(rt: HostRuntime) -> Result<(), Fail> {
    let alloc = rt.alloc();
    let schema = schema(alloc)?;
    let facts = facts_of(alloc, "select b, d from r, s where a = c", &schema)?;
    let keys = Keys::of(&[0; 32], &clusters(&facts, &[Scheme::Ope; 64])).keys;
    assert_eq!(rt; keys[0], key_of(&[0; 32], AttrId(0), Scheme::Det));
    assert_eq!(rt; keys[2], keys[0]);
    assert_eq!(rt; keys[63], key_of(&[0; 32], AttrId(63), Scheme::Rnd));
    Ok(())
}
