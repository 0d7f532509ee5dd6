use super::{Row, cost, prices};
use crate::told::schema;
use mq_base::{AttrId, NodeId, Step, SubjectId, TableId};
use policy_base::Prices;
use std::alloc::Global;
use std::process::Abort;
use std::test::Fail;

// The step is at the subject 1, whose work costs 3, or at the subject 2, whose work costs 5. Sending costs 7 from 1 to 2, and
// 11 from 2 to 1. r, s, t and u have 10, 20, 7 and 5 rows, and a to h have 3, 4, 6, 20, 7, 2, 2 and 5 distinct values.
fn stated() -> Prices {
    let mut prices = prices(&[2, 3, 5], 1, &[10, 20, 7, 5], &[3, 4, 6, 20, 7, 2, 2, 5]);
    prices.net[1][1] = 0;
    prices.net[1][2] = 7;
    prices.net[2][1] = 11;
    prices
}

const SEAL_G: Step = Step::Enc(AttrId(6));

const SEAL_H: Step = Step::Enc(AttrId(7));

const OPEN_G: Step = Step::Dec(AttrId(6));

const OPEN_H: Step = Step::Dec(AttrId(7));

const SEND: Step = Step::Send(SubjectId(2));

const BACK: Step = Step::Send(SubjectId(1));

const FIRST: Step = Step::Un(NodeId(1));

const SECOND: Step = Step::Un(NodeId(2));

const BOTH: Step = Step::Bin(NodeId(2));

const ROWS: [Row; 40] = [
    ("select a from r", Step::Base(TableId(0)), (1, 0, 0), 0),
    // sealing and opening, by the scheme and the type
    ("select g from u", SEAL_G, (1, 0, 0), 15),
    ("select h from u", SEAL_H, (1, 0, 0), 60),
    ("select g from u where g = 1", SEAL_G, (1, 0, 0), 60),
    ("select h from u where h = 'x'", SEAL_H, (1, 0, 0), 240),
    ("select g from u where g > 1", SEAL_G, (1, 0, 0), 960),
    ("select h from u where h > 'x'", SEAL_H, (1, 0, 0), 3840),
    ("select g from u", OPEN_G, (2, 0, 64), 25),
    ("select h from u", OPEN_H, (2, 0, 128), 100),
    ("select g from u where g = 1", OPEN_G, (2, 1, 64), 60),
    ("select h from u where h = 'x'", OPEN_H, (2, 1, 128), 80),
    ("select g from u where g > 1", OPEN_G, (2, 1, 64), 640),
    ("select h from u where h > 'x'", OPEN_H, (1, 1, 128), 1536),
    // sending, by the bytes of each cell
    ("select g from u", SEND, (1, 0, 0), 560),
    ("select h from u", SEND, (1, 0, 0), 4270),
    ("select g from u", SEND, (1, 0, 64), 980),
    ("select h from u", SEND, (1, 0, 128), 4690),
    ("select g from u where g = 1", SEND, (1, 0, 64), 560),
    ("select h from u where h = 'x'", SEND, (1, 0, 128), 4270),
    ("select g from u where g > 1", SEND, (1, 0, 64), 1120),
    ("select h from u where h > 'x'", SEND, (1, 0, 128), 8400),
    ("select g, h from u where h > 'x'", SEND, (1, 0, 128), 8960),
    ("select g, h from u where h > 'x'", SEND, (1, 0, 64), 5250),
    ("select h from u where h = 'x'", SEND, (1, 1, 128), 854),
    // the other way, and to itself
    ("select g from u", BACK, (2, 0, 0), 880),
    ("select g from u", BACK, (1, 0, 0), 0),
    // with the count column, with it alone, and without a column
    ("select a, count(*) from r group by a", SEND, (1, 1, 0), 504),
    ("select count(*) from r group by a", SEND, (1, 2, 0), 168),
    ("select a from r, s", SEND, (1, 1, 0), 0),
    // one operand
    ("select a from r where b = 1", FIRST, (1, 1, 0), 30),
    ("select a from r where b = 1", SECOND, (1, 2, 0), 9),
    ("select a, b from r where a = b", FIRST, (1, 1, 0), 30),
    ("select a from r group by a", FIRST, (1, 1, 0), 30),
    (
        "select a, b, count(*) from r group by a, b having count(*) = 1",
        SECOND,
        (2, 2, 0),
        50,
    ),
    // two operands
    ("select a, c from r, s", BOTH, (1, 2, 0), 600),
    ("select a, c from r, s where a = c", BOTH, (1, 2, 0), 192),
    ("select a, c from r, s where a = c", BOTH, (1, 2, 5), 192),
    ("select a, c from r, s where a = c", BOTH, (2, 2, 0), 320),
    ("select a, c from r, s where a <> c", BOTH, (1, 2, 0), 690),
    ("select a, c from r, s where a < c", BOTH, (1, 2, 0), 291),
];

fn check(rt: &impl Abort, alloc: Global, rows: &[Row]) -> Result<(), Fail> {
    let schema = schema(alloc)?;
    let prices = stated();
    for row in rows {
        let found = cost(rt, alloc, &schema, &prices, row)?;
        assert_eq!(rt; found, row.3, "{:?} of {}", row.2, row.0);
    }
    Ok(())
}

#[test]
fn steps_have_their_costs(rt: HostRuntime) -> Result<(), Fail> {
    check(&rt, rt.alloc(), &ROWS)
}

// Each step of these rows, where nothing has a price.
fn check_free(rt: &impl Abort, alloc: Global, rows: &[Row]) -> Result<(), Fail> {
    let schema = schema(alloc)?;
    let prices = prices(&[], 0, &[10, 20, 7, 5], &[3, 4, 6, 20, 7, 2, 2, 5]);
    for row in rows {
        let found = cost(rt, alloc, &schema, &prices, row)?;
        assert_eq!(rt; found, 0, "{:?} of {}", row.2, row.0);
    }
    Ok(())
}

#[test]
fn where_nothing_has_a_price_each_step_is_free(rt: HostRuntime) -> Result<(), Fail> {
    check_free(&rt, rt.alloc(), &ROWS)
}
