use super::{Row, cost, prices};
use crate::told::schema;
use mq_base::{AttrId, NodeId, Step, SubjectId};
use std::alloc::Global;
use std::process::Abort;
use std::test::Fail;

// The largest cost, 2^128 - 1.
const MOST: u128 = 340282366920938463463374607431768211455;

// The square of 2^64 - 1, the most that a product or a node with one operand costs.
const SQUARE: u128 = 340282366920938463426481119284349108225;

const SEND: Step = Step::Send(SubjectId(2));

const SEAL: Step = Step::Enc(AttrId(0));

const OPEN: Step = Step::Dec(AttrId(0));

const BOTH: Step = Step::Bin(NodeId(2));

const FIRST: Step = Step::Un(NodeId(1));

// The stated rows of r and s, the distinct values of a, b and c, the price of work and of sending, and a step with its cost.
type Cut<'a> = (&'a [u64], &'a [u64], u64, u64, Row<'a>);

const CUTS: [Cut; 15] = [
    // a send of 16 bytes a row: (2^62 - 1) * 16 * (2^62 + 1) is 2^128 - 16
    (
        &[4611686018427387903],
        &[1],
        0,
        4611686018427387905,
        (
            "select a from r",
            SEND,
            (1, 0, 0),
            340282366920938463463374607431768211440,
        ),
    ),
    (
        &[4611686018427387904],
        &[1],
        0,
        4611686018427387903,
        (
            "select a from r",
            SEND,
            (1, 0, 0),
            340282366920938463389587631136930004992,
        ),
    ),
    (
        &[4611686018427387904],
        &[1],
        0,
        4611686018427387904,
        ("select a from r", SEND, (1, 0, 0), MOST),
    ),
    (
        &[9223372036854775807],
        &[1],
        0,
        9223372036854775807,
        ("select a from r", SEND, (1, 0, 0), MOST),
    ),
    (
        &[18446744073709551615],
        &[1],
        0,
        18446744073709551615,
        ("select a, b from r", SEND, (1, 0, 0), MOST),
    ),
    // sealing and opening 64 units a row: (2^61 - 1) * 64 * (2^61 + 1) is 2^128 - 64
    (
        &[2305843009213693951],
        &[1],
        2305843009213693953,
        0,
        (
            "select a from r where a > 1",
            SEAL,
            (1, 0, 0),
            340282366920938463463374607431768211392,
        ),
    ),
    (
        &[2305843009213693952],
        &[1],
        2305843009213693952,
        0,
        ("select a from r where a > 1", SEAL, (1, 0, 0), MOST),
    ),
    (
        &[6917529027641081853],
        &[1],
        2305843009213693953,
        0,
        (
            "select a from r where a > 1",
            OPEN,
            (1, 1, 1),
            340282366920938463463374607431768211392,
        ),
    ),
    (
        &[6917529027641081854],
        &[1],
        2305843009213693952,
        0,
        ("select a from r where a > 1", OPEN, (1, 1, 1), MOST),
    ),
    // a join of 1 + 2^63 + 2^63 rows, or of 2 + 2^63 + 2^63
    (
        &[1, 9223372036854775808],
        &[1],
        18446744073709551614,
        0,
        (
            "select a, c from r, s where a <> c",
            BOTH,
            (1, 2, 0),
            340282366920938463444927863358058659838,
        ),
    ),
    (
        &[1, 9223372036854775808],
        &[1],
        18446744073709551615,
        0,
        ("select a, c from r, s where a <> c", BOTH, (1, 2, 0), MOST),
    ),
    (
        &[2, 9223372036854775808],
        &[2],
        18446744073709551615,
        0,
        ("select a, c from r, s where a = c", BOTH, (1, 2, 0), MOST),
    ),
    (
        &[18446744073709551615, 18446744073709551615],
        &[1],
        18446744073709551615,
        0,
        ("select a, c from r, s where a = c", BOTH, (1, 2, 0), MOST),
    ),
    // a product and a node with one operand
    (
        &[4294967296, 4294967296],
        &[1],
        18446744073709551615,
        0,
        ("select a, c from r, s", BOTH, (1, 2, 0), SQUARE),
    ),
    (
        &[18446744073709551615],
        &[1],
        18446744073709551615,
        0,
        ("select a from r group by a", FIRST, (1, 1, 0), SQUARE),
    ),
];

fn check(rt: &impl Abort, alloc: Global, cuts: &[Cut]) -> Result<(), Fail> {
    let schema = schema(alloc)?;
    for (stated, distinct, cpu, net, row) in cuts {
        let prices = prices(&[0, *cpu], *net, stated, distinct);
        let found = cost(rt, alloc, &schema, &prices, row)?;
        assert_eq!(rt; found, row.3, "{:?} of {} at {cpu} and {net}", row.2, row.0);
    }
    Ok(())
}

#[test]
fn step_costs_are_cut(rt: HostRuntime) -> Result<(), Fail> {
    check(&rt, rt.alloc(), &CUTS)
}
