//! The join that docs/MODEL.md, "Extended plans", works out, and the same with a bound on a, whose cells then keep their order: after each
//! step the table is told as it was worked out by hand.

use crate::given::{Branch, Given, Join, Run};
use crate::run::check;
use mq_base::{AttrId, NodeId, Step, SubjectId, TableId};
use std::test::Fail;

// A owns r(a INT, b INT) and B owns s(c INT, d INT); the user U may see all of them, and X may see all of them sealed.
const TWO_OWNERS: &str =
    "version = 1\nuser = \"U\"\nsubjects = [\"A\", \"B\", \"X\", \"U\"]\n[[table]]\nname = \"r\"\nowner = \"A\"\ncolumns = [{ name = \"a\", type = \"INT\" }, { name = \"b\", type = \"INT\" }]\n[[table]]\nname = \"s\"\nowner = \"B\"\ncolumns = [{ name = \"c\", type = \"INT\" }, { name = \"d\", type = \"INT\" }]\n[[rule]]\ntable = \"r\"\nsubject = \"U\"\nplain = [\"a\", \"b\"]\n[[rule]]\ntable = \"s\"\nsubject = \"U\"\nplain = [\"c\", \"d\"]\n[[rule]]\ntable = \"r\"\nsubject = \"X\"\nsealed = [\"a\", \"b\"]\n[[rule]]\ntable = \"s\"\nsubject = \"X\"\nsealed = [\"c\", \"d\"]\n";

const PRICES: &str =
    "version = 1\n[cpu]\nA = 1\nB = 1\nX = 1\nU = 200\n[net]\ndefault = 1\n[rows]\nr = 10\ns = 20\n[distinct]\na = 10\nb = 10\nc = 20\nd = 20\n";

const R_ROWS: &str = "a,b\n1,10\n2,20\n2,21\n";

const S_ROWS: &str = "c,d\n2,7\n3,8\n2,9\n";

const A: AttrId = AttrId(0);

const B: AttrId = AttrId(1);

const C: AttrId = AttrId(2);

const D: AttrId = AttrId(3);

const X: SubjectId = SubjectId(2);

const U: SubjectId = SubjectId(3);

// Join on deterministic cells.
const EQUAL: Given = Given {
    policy: TWO_OWNERS,
    prices: PRICES,
    query: "select b, d from r, s where a = c",
    run: Run::Join(Join {
        left: Branch {
            table: TableId(0),
            rows: R_ROWS,
            leaf: "at 0 node 0, 3 rows; a 1 2 2; b 10 20 21",
            steps: &[
                (Step::Enc(B), "at 0 node 0, 3 rows; a 1 2 2; b rnd 10 20 21"),
                (
                    Step::Enc(A),
                    "at 0 node 0, 3 rows; a det 1 2 2; b rnd 10 20 21",
                ),
                (
                    Step::Send(X),
                    "at 2 node 0, 3 rows; a det 1 2 2; b rnd 10 20 21",
                ),
            ],
        },
        right: Branch {
            table: TableId(1),
            rows: S_ROWS,
            leaf: "at 1 node 1, 3 rows; c 2 3 2; d 7 8 9",
            steps: &[
                (Step::Enc(D), "at 1 node 1, 3 rows; c 2 3 2; d rnd 7 8 9"),
                (
                    Step::Enc(C),
                    "at 1 node 1, 3 rows; c det 2 3 2; d rnd 7 8 9",
                ),
                (
                    Step::Send(X),
                    "at 2 node 1, 3 rows; c det 2 3 2; d rnd 7 8 9",
                ),
            ],
        },
        both: (
            NodeId(2),
            "at 2 node 2, 4 rows; a det 2 2 2 2; b rnd 20 20 21 21; c det 2 2 2 2; d rnd 7 9 7 9",
        ),
        after: &[
            (
                Step::Un(NodeId(3)),
                "at 2 node 3, 4 rows; b rnd 20 20 21 21; d rnd 7 9 7 9",
            ),
            (
                Step::Send(U),
                "at 3 node 3, 4 rows; b rnd 20 20 21 21; d rnd 7 9 7 9",
            ),
            (
                Step::Dec(D),
                "at 3 node 3, 4 rows; b rnd 20 20 21 21; d 7 9 7 9",
            ),
            (
                Step::Dec(B),
                "at 3 node 3, 4 rows; b 20 20 21 21; d 7 9 7 9",
            ),
        ],
    }),
};

// Join on order-preserving cells.
const ORDERED: Given = Given {
    policy: TWO_OWNERS,
    prices: PRICES,
    query: "select b, d from r, s where a = c and a >= 2",
    run: Run::Join(Join {
        left: Branch {
            table: TableId(0),
            rows: R_ROWS,
            leaf: "at 0 node 0, 3 rows; a 1 2 2; b 10 20 21",
            steps: &[
                (Step::Enc(A), "at 0 node 0, 3 rows; a ope 1 2 2; b 10 20 21"),
                (
                    Step::Un(NodeId(1)),
                    "at 0 node 1, 2 rows; a ope 2 2; b 20 21",
                ),
                (Step::Enc(B), "at 0 node 1, 2 rows; a ope 2 2; b rnd 20 21"),
                (Step::Send(X), "at 2 node 1, 2 rows; a ope 2 2; b rnd 20 21"),
            ],
        },
        right: Branch {
            table: TableId(1),
            rows: S_ROWS,
            leaf: "at 1 node 2, 3 rows; c 2 3 2; d 7 8 9",
            steps: &[
                (Step::Enc(D), "at 1 node 2, 3 rows; c 2 3 2; d rnd 7 8 9"),
                (
                    Step::Enc(C),
                    "at 1 node 2, 3 rows; c ope 2 3 2; d rnd 7 8 9",
                ),
                (
                    Step::Send(X),
                    "at 2 node 2, 3 rows; c ope 2 3 2; d rnd 7 8 9",
                ),
            ],
        },
        both: (
            NodeId(3),
            "at 2 node 3, 4 rows; a ope 2 2 2 2; b rnd 20 20 21 21; c ope 2 2 2 2; d rnd 7 9 7 9",
        ),
        after: &[
            (
                Step::Un(NodeId(4)),
                "at 2 node 4, 4 rows; b rnd 20 20 21 21; d rnd 7 9 7 9",
            ),
            (
                Step::Send(U),
                "at 3 node 4, 4 rows; b rnd 20 20 21 21; d rnd 7 9 7 9",
            ),
            (
                Step::Dec(D),
                "at 3 node 4, 4 rows; b rnd 20 20 21 21; d 7 9 7 9",
            ),
            (
                Step::Dec(B),
                "at 3 node 4, 4 rows; b 20 20 21 21; d 7 9 7 9",
            ),
        ],
    }),
};

#[test]
fn a_join_on_deterministic_cells(rt: HostRuntime) -> Result<(), Fail> {
    check(&rt, rt.alloc(), &EQUAL)
}

#[test]
fn a_join_on_order_preserving_cells(rt: HostRuntime) -> Result<(), Fail> {
    check(&rt, rt.alloc(), &ORDERED)
}
