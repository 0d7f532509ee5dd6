use super::{estimated, padded, prices};
use crate::told::{facts_of, schema};
use policy_base::Prices;
use std::alloc::Global;
use std::process::Abort;
use std::test::Fail;

// A query, and the estimates of its nodes.
type Row<'a> = (&'a str, &'a [u64]);

// The stated rows of r, s, t and u, and distinct values of a to h.
const STATED: [u64; 4] = [10, 20, 7, 5];

const DISTINCT: [u64; 8] = [3, 4, 6, 20, 7, 2, 2, 5];

// Each rule by itself, and divisions that leave a rest.
const ROWS: [Row; 22] = [
    // leaf
    ("select a from r", &[10]),
    ("select e from t", &[7]),
    // projection
    ("select a from r where b = 1", &[10, 3, 3]),
    // a column and a constant
    ("select a from r where a = 1 and a = 2", &[10, 4, 2]),
    ("select h from u where h = 'x'", &[5, 1]),
    ("select a from r where a <> 1", &[10, 10]),
    (
        "select a from r where a < 1 and a <= 1 and a > 1 and a >= 1",
        &[10, 4, 2, 1, 1],
    ),
    // the count, whatever it is compared by
    (
        "select a, b, count(*) from r group by a, b having count(*) = 1 and count(*) <> 1 and count(*) >= 5",
        &[10, 10, 4, 2, 1],
    ),
    // two columns
    ("select a, b from r where a = b", &[10, 3]),
    ("select a, b from r where b = a", &[10, 3]),
    ("select a, b from r where a <> b", &[10, 10]),
    ("select a, b from r where a < b and b >= a", &[10, 4, 2]),
    // product
    ("select a, c from r, s", &[10, 20, 200]),
    ("select a from r, s, t", &[10, 20, 200, 7, 1400]),
    // join
    ("select a, c from r, s where a = c", &[10, 20, 34]),
    ("select d, a from s, r where d = a", &[20, 10, 10]),
    ("select a, c from r, s where a <> c", &[10, 20, 200]),
    ("select a, c from r, s where a < c", &[10, 20, 67]),
    // group
    ("select a from r group by a", &[10, 3]),
    ("select a, b from r group by a, b", &[10, 10]),
    (
        "select b, c, sum(d) from r, s group by b, c",
        &[10, 20, 200, 24],
    ),
    ("select count(*) from r group by a", &[10, 3, 3]),
];

fn check(rt: &impl Abort, alloc: Global, prices: &Prices, rows: &[Row]) -> Result<(), Fail> {
    let schema = schema(alloc)?;
    for (query, want) in rows {
        assert!(rt; query.len() < 1000);
        let facts = facts_of(alloc, query, &schema)?;
        let found = estimated(rt, &facts, prices);
        assert_eq!(rt; found.rows, padded(want, 0), "{query}");
    }
    Ok(())
}

#[test]
fn nodes_have_their_estimates(rt: HostRuntime) -> Result<(), Fail> {
    let prices = prices(&[], 0, &STATED, &DISTINCT);
    check(&rt, rt.alloc(), &prices, &ROWS)
}

// A table that is stated to be empty.
const EMPTY: [Row; 3] = [
    ("select a from r where a = 1", &[0, 0]),
    ("select a, c from r, s where a < c", &[0, 20, 0]),
    ("select a from r group by a", &[0, 0]),
];

#[test]
fn nothing_is_estimated_of_nothing(rt: HostRuntime) -> Result<(), Fail> {
    let prices = prices(&[], 0, &[0, 20], &DISTINCT);
    check(&rt, rt.alloc(), &prices, &EMPTY)
}

// The largest estimate, 2^64 - 1.
const MOST: u64 = 18446744073709551615;

// The stated rows of r and s, the distinct values of a, b and c, and a query with its estimates.
type Cut<'a> = (&'a [u64], &'a [u64], Row<'a>);

// A product below 2^64 - 1, at it as 4294967295 * 4294967297, and above; a join is cut before it divides; a group never has
// more than its operand, whatever the combinations.
const CUTS: [Cut; 11] = [
    (&[MOST], &[1], ("select a from r", &[MOST])),
    (
        &[4294967295, 4294967296],
        &[1],
        (
            "select a, c from r, s",
            &[4294967295, 4294967296, 18446744069414584320],
        ),
    ),
    (
        &[4294967295, 4294967297],
        &[1],
        ("select a, c from r, s", &[4294967295, 4294967297, MOST]),
    ),
    (
        &[4294967296, 4294967296],
        &[1],
        ("select a, c from r, s", &[4294967296, 4294967296, MOST]),
    ),
    (
        &[MOST, MOST, 2],
        &[1],
        ("select a from r, s, t", &[MOST, MOST, MOST, 2, MOST]),
    ),
    (
        &[4294967296, 8589934592],
        &[10, 1, 2],
        (
            "select a, c from r, s where a = c",
            &[4294967296, 8589934592, 1844674407370955162],
        ),
    ),
    (
        &[4294967296, 8589934592],
        &[1],
        (
            "select a, c from r, s where a >= c",
            &[4294967296, 8589934592, 6148914691236517205],
        ),
    ),
    (
        &[4294967296, 8589934592],
        &[1],
        (
            "select a, c from r, s where a <> c",
            &[4294967296, 8589934592, MOST],
        ),
    ),
    (
        &[MOST],
        &[4294967295, 4294967297],
        ("select a, b from r group by a, b", &[MOST, MOST]),
    ),
    (
        &[10],
        &[4294967296, 4294967296],
        ("select a, b from r group by a, b", &[10, 10]),
    ),
    (
        &[MOST],
        &[MOST],
        ("select a from r where a = 1 and a > 1", &[MOST, 1, 1]),
    ),
];

fn check_cuts(rt: &impl Abort, alloc: Global, cuts: &[Cut]) -> Result<(), Fail> {
    for (stated, distinct, row) in cuts {
        check(rt, alloc, &prices(&[], 0, stated, distinct), &[*row])?;
    }
    Ok(())
}

#[test]
fn estimates_are_cut(rt: HostRuntime) -> Result<(), Fail> {
    check_cuts(&rt, rt.alloc(), &CUTS)
}
