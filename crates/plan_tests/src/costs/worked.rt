use super::{Row, cost, prices};
use crate::told::schema;
use mq_base::{AttrId, NodeId, Step, SubjectId, TableId};
use std::alloc::Global;
use std::process::Abort;
use std::test::Fail;

// The subjects are A, B, X and U. A has r and B has s.
const TO_X: Step = Step::Send(SubjectId(2));

const TO_U: Step = Step::Send(SubjectId(3));

// Join on deterministic cells.
const EQUAL: &str = "select b, d from r, s where a = c";

const DETERMINISTIC: [Row; 13] = [
    (EQUAL, Step::Base(TableId(0)), (0, 0, 0), 0),
    (EQUAL, Step::Enc(AttrId(0)), (0, 0, 0), 40),
    (EQUAL, Step::Enc(AttrId(1)), (0, 0, 0b1), 10),
    (EQUAL, TO_X, (0, 0, 0b11), 440),
    (EQUAL, Step::Base(TableId(1)), (1, 1, 0), 0),
    (EQUAL, Step::Enc(AttrId(2)), (1, 1, 0), 80),
    (EQUAL, Step::Enc(AttrId(3)), (1, 1, 0b100), 20),
    (EQUAL, TO_X, (1, 1, 0b1100), 880),
    (EQUAL, Step::Bin(NodeId(2)), (2, 2, 0), 40),
    (EQUAL, Step::Un(NodeId(3)), (2, 3, 0), 10),
    (EQUAL, TO_U, (2, 3, 0b1010), 560),
    (EQUAL, Step::Dec(AttrId(1)), (3, 3, 0b1010), 2000),
    (EQUAL, Step::Dec(AttrId(3)), (3, 3, 0b1000), 2000),
];

// Join on order-preserving cells.
const ORDERED: &str = "select b, d from r, s where a = c and a >= 2";

const ORDER_PRESERVING: [Row; 14] = [
    (ORDERED, Step::Base(TableId(0)), (0, 0, 0), 0),
    (ORDERED, Step::Enc(AttrId(0)), (0, 0, 0), 640),
    (ORDERED, Step::Un(NodeId(1)), (0, 1, 0), 10),
    (ORDERED, Step::Enc(AttrId(1)), (0, 1, 0b1), 4),
    (ORDERED, TO_X, (0, 1, 0b11), 240),
    (ORDERED, Step::Base(TableId(1)), (1, 2, 0), 0),
    (ORDERED, Step::Enc(AttrId(2)), (1, 2, 0), 1280),
    (ORDERED, Step::Enc(AttrId(3)), (1, 2, 0b100), 20),
    (ORDERED, TO_X, (1, 2, 0b1100), 1200),
    (ORDERED, Step::Bin(NodeId(3)), (2, 3, 0), 28),
    (ORDERED, Step::Un(NodeId(4)), (2, 4, 0), 4),
    (ORDERED, TO_U, (2, 4, 0b1010), 224),
    (ORDERED, Step::Dec(AttrId(1)), (3, 4, 0b1010), 800),
    (ORDERED, Step::Dec(AttrId(3)), (3, 4, 0b1000), 800),
];

// Each step costs what its row says, and all of them together this.
fn check(rt: &impl Abort, alloc: Global, rows: &[Row], whole: u128) -> Result<(), Fail> {
    let schema = schema(alloc)?;
    let prices = prices(&[1, 1, 1, 200], 1, &[10, 20], &[10, 10, 20, 20]);
    let mut sum = 0u128;
    for row in rows {
        let found = cost(rt, alloc, &schema, &prices, row)?;
        assert_eq!(rt; found, row.3, "{:?} of {}", row.2, row.0);
        sum = sum.saturating_add(found);
    }
    assert_eq!(rt; sum, whole);
    Ok(())
}

#[test]
fn a_join_on_deterministic_cells(rt: HostRuntime) -> Result<(), Fail> {
    check(&rt, rt.alloc(), &DETERMINISTIC, 6080)
}

#[test]
fn a_join_on_order_preserving_cells(rt: HostRuntime) -> Result<(), Fail> {
    check(&rt, rt.alloc(), &ORDER_PRESERVING, 5250)
}
