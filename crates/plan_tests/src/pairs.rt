//! Lists of steps over a join of the tables of two owners, with a provider X: their places and causes by the rules, by hand.
use crate::steps::Told::{Breaks, Ends, Fails};
use crate::steps::{Given, Told, check};
use extended_plan::StepWhy::{NotRunnable, NotTheGoal, NotThePlan, Shape};
use mq_base::{AttrId, NodeId, Step, SubjectId, TableId};
use std::test::Fail;

/// A owns r(a, b), B owns s(c, d), and U sees both. X sees r and d plain, and c sealed.
const PLAIN_POLICY: &str = "version = 1\nuser = 'U'\nsubjects = ['A', 'B', 'X', 'U']\n\
[[table]]\nname = 'r'\nowner = 'A'\ncolumns = [{name = 'a', type = 'INT'}, {name = 'b', type = 'INT'}]\n\
[[table]]\nname = 's'\nowner = 'B'\ncolumns = [{name = 'c', type = 'INT'}, {name = 'd', type = 'INT'}]\n\
[[rule]]\ntable = 'r'\nsubject = 'U'\nplain = ['a', 'b']\n\
[[rule]]\ntable = 's'\nsubject = 'U'\nplain = ['c', 'd']\n\
[[rule]]\ntable = 'r'\nsubject = 'X'\nplain = ['a', 'b']\n\
[[rule]]\ntable = 's'\nsubject = 'X'\nplain = ['d']\nsealed = ['c']\n";

const PLAIN_PRICES: &str = "version = 1\ncpu = {A = 1, B = 1, X = 1, U = 1}\nnet = {default = 1}\n\
rows = {r = 10, s = 20}\ndistinct = {a = 10, b = 10, c = 20, d = 20}\n";

/// The same, where X sees all of both tables sealed, and U works at 200.
const SEALED_POLICY: &str = "version = 1\nuser = 'U'\nsubjects = ['A', 'B', 'X', 'U']\n\
[[table]]\nname = 'r'\nowner = 'A'\ncolumns = [{name = 'a', type = 'INT'}, {name = 'b', type = 'INT'}]\n\
[[table]]\nname = 's'\nowner = 'B'\ncolumns = [{name = 'c', type = 'INT'}, {name = 'd', type = 'INT'}]\n\
[[rule]]\ntable = 'r'\nsubject = 'U'\nplain = ['a', 'b']\n\
[[rule]]\ntable = 's'\nsubject = 'U'\nplain = ['c', 'd']\n\
[[rule]]\ntable = 'r'\nsubject = 'X'\nsealed = ['a', 'b']\n\
[[rule]]\ntable = 's'\nsubject = 'X'\nsealed = ['c', 'd']\n";

const SEALED_PRICES: &str =
    "version = 1\ncpu = {A = 1, B = 1, X = 1, U = 200}\nnet = {default = 1}\n\
rows = {r = 10, s = 20}\ndistinct = {a = 10, b = 10, c = 20, d = 20}\n";

const PLAIN: Given = Given {
    policy: PLAIN_POLICY,
    prices: PLAIN_PRICES,
    query: "select b, d from r, s where a = c",
};

const SEALED: Given = Given {
    policy: SEALED_POLICY,
    prices: SEALED_PRICES,
    query: "select b, d from r, s where a = c",
};

const ORDERED: Given = Given {
    policy: SEALED_POLICY,
    prices: SEALED_PRICES,
    query: "select b, d from r, s where a = c and a >= 2",
};

const R: Step = Step::Base(TableId(0));

const S: Step = Step::Base(TableId(1));

const ENC_A: Step = Step::Enc(AttrId(0));

const ENC_B: Step = Step::Enc(AttrId(1));

const ENC_C: Step = Step::Enc(AttrId(2));

const ENC_D: Step = Step::Enc(AttrId(3));

const DEC_A: Step = Step::Dec(AttrId(0));

const DEC_B: Step = Step::Dec(AttrId(1));

const DEC_D: Step = Step::Dec(AttrId(3));

const TO_A: Step = Step::Send(SubjectId(0));

const TO_B: Step = Step::Send(SubjectId(1));

const TO_X: Step = Step::Send(SubjectId(2));

const TO_U: Step = Step::Send(SubjectId(3));

// The join of the plan on the leaves 0 and 1, and its projection.
const JOIN: Step = Step::Bin(NodeId(2));

const CUT: Step = Step::Un(NodeId(3));

// The selection of a before the join, and the join and the projection behind it.
const CHOOSE: Step = Step::Un(NodeId(1));

const LATE_JOIN: Step = Step::Bin(NodeId(3));

const LATE_CUT: Step = Step::Un(NodeId(4));

// Ids that the policy and the plan do not have, and nodes of another kind.
const NO_TABLE: Step = Step::Base(TableId(2));

const LAST_TABLE: Step = Step::Base(TableId(255));

const ENC_NONE: Step = Step::Enc(AttrId(4));

const ENC_PAST: Step = Step::Enc(AttrId(64));

const ENC_LAST: Step = Step::Enc(AttrId(255));

const DEC_PAST: Step = Step::Dec(AttrId(64));

const DEC_LAST: Step = Step::Dec(AttrId(255));

const TO_NONE: Step = Step::Send(SubjectId(4));

const TO_PAST: Step = Step::Send(SubjectId(16));

const TO_LAST: Step = Step::Send(SubjectId(255));

const UN_LEAF: Step = Step::Un(NodeId(0));

const UN_JOIN: Step = Step::Un(NodeId(2));

const UN_NONE: Step = Step::Un(NodeId(4));

const UN_LAST: Step = Step::Un(NodeId(255));

const BIN_LEAF: Step = Step::Bin(NodeId(0));

const BIN_CUT: Step = Step::Bin(NodeId(3));

const BIN_NONE: Step = Step::Bin(NodeId(4));

const BIN_LAST: Step = Step::Bin(NodeId(255));

const A: u8 = 0;

const B: u8 = 1;

const X: u8 = 2;

// A missing operand at the first place and at the last one, and ends with no table or with two.
const SHAPE: [(&[Step], Told); 10] = [
    (&[], Fails(0, Shape)),
    (&[ENC_A], Fails(0, Shape)),
    (&[DEC_A], Fails(0, Shape)),
    (&[TO_U], Fails(0, Shape)),
    (&[CUT], Fails(0, Shape)),
    (&[JOIN], Fails(0, Shape)),
    (&[R, JOIN], Fails(1, Shape)),
    (&[R, TO_U, S, TO_U, JOIN, CUT, JOIN], Fails(6, Shape)),
    (&[R, S], Fails(2, Shape)),
    (&[R, TO_U, S, TO_U, JOIN, CUT, R], Fails(7, Shape)),
];

// Tables and nodes that the plan does not have, nodes of another kind, operands that are not those of the node, some of them at two holders, and ends before the root.
const NOT_THE_PLAN: [(&[Step], Told); 18] = [
    (&[NO_TABLE], Fails(0, NotThePlan)),
    (&[LAST_TABLE], Fails(0, NotThePlan)),
    (&[R, UN_LEAF], Fails(1, NotThePlan)),
    (&[R, UN_JOIN], Fails(1, NotThePlan)),
    (&[R, CUT], Fails(1, NotThePlan)),
    (&[R, UN_NONE], Fails(1, NotThePlan)),
    (&[R, UN_LAST], Fails(1, NotThePlan)),
    (&[R, S, BIN_LEAF], Fails(2, NotThePlan)),
    (&[R, S, BIN_CUT], Fails(2, NotThePlan)),
    (&[R, S, BIN_NONE], Fails(2, NotThePlan)),
    (&[R, S, BIN_LAST], Fails(2, NotThePlan)),
    (&[S, R, JOIN], Fails(2, NotThePlan)),
    (&[R, R, JOIN], Fails(2, NotThePlan)),
    (&[S, TO_U, R, TO_U, JOIN], Fails(4, NotThePlan)),
    (&[R, TO_U, S, TO_U, JOIN, CUT, CUT], Fails(6, NotThePlan)),
    (&[R], Fails(1, NotThePlan)),
    (&[R, TO_U], Fails(2, NotThePlan)),
    (&[R, TO_U, S, TO_U, JOIN], Fails(5, NotThePlan)),
];

// Attributes that are not there, sealed or not sealed; sends to oneself and to nobody; operands at two holders; sealed cells compared with plain ones, where X may not hold the join either.
const NOT_RUNNABLE: [(&[Step], Told); 20] = [
    (&[R, ENC_A, ENC_A], Fails(2, NotRunnable)),
    (&[R, DEC_A], Fails(1, NotRunnable)),
    (&[R, ENC_C], Fails(1, NotRunnable)),
    (&[R, ENC_NONE], Fails(1, NotRunnable)),
    (&[R, ENC_PAST], Fails(1, NotRunnable)),
    (&[R, ENC_LAST], Fails(1, NotRunnable)),
    (&[R, DEC_PAST], Fails(1, NotRunnable)),
    (&[R, DEC_LAST], Fails(1, NotRunnable)),
    (&[R, TO_A], Fails(1, NotRunnable)),
    (&[R, TO_NONE], Fails(1, NotRunnable)),
    (&[R, TO_PAST], Fails(1, NotRunnable)),
    (&[R, TO_LAST], Fails(1, NotRunnable)),
    (&[R, TO_U, TO_U], Fails(2, NotRunnable)),
    (&[R, S, JOIN], Fails(2, NotRunnable)),
    (&[R, TO_U, S, JOIN], Fails(3, NotRunnable)),
    (&[R, ENC_A, TO_U, S, TO_U, JOIN], Fails(5, NotRunnable)),
    (&[R, TO_X, S, ENC_C, TO_X, JOIN], Fails(5, NotRunnable)),
    (&[R, TO_U, S, TO_U, JOIN, CUT, ENC_A], Fails(6, NotRunnable)),
    (&[R, TO_U, S, TO_U, JOIN, CUT, DEC_B], Fails(6, NotRunnable)),
    (&[R, TO_U, S, TO_U, JOIN, CUT, TO_U], Fails(6, NotRunnable)),
];

// Each condition, with the least attribute that breaks it, at the first step that can break one and at the last one.
const BREACHES: [(&[Step], Told); 9] = [
    (&[R, TO_B], Breaks(1, B, 1, 0)),
    (&[S, TO_X], Breaks(1, X, 1, 2)),
    (&[S, ENC_C, TO_A], Breaks(2, A, 1, 3)),
    (&[R, ENC_A, TO_B], Breaks(2, B, 1, 1)),
    (&[R, ENC_B, ENC_A, TO_B], Breaks(3, B, 2, 0)),
    (&[S, ENC_D, ENC_C, TO_A], Breaks(3, A, 2, 2)),
    (&[R, ENC_A, TO_X, S, ENC_C, TO_X, JOIN], Breaks(6, X, 3, 2)),
    (&[R, TO_U, S, TO_U, JOIN, CUT, TO_A], Breaks(6, A, 1, 3)),
    (&[R, TO_U, S, TO_U, JOIN, CUT, TO_X], Breaks(6, X, 3, 2)),
];

// Ends at the user: with a sealed attribute, and without one.
const PLAIN_ENDS: [(&[Step], Told); 5] = [
    (&[R, TO_U, S, TO_U, JOIN, CUT, ENC_B], Fails(7, NotTheGoal)),
    (
        &[R, TO_U, S, TO_U, JOIN, CUT, ENC_B, ENC_D, DEC_B],
        Fails(9, NotTheGoal),
    ),
    (&[R, TO_U, S, TO_U, JOIN, CUT], Ends(0, 0, 1010)),
    (
        &[R, ENC_B, TO_U, DEC_B, S, TO_U, JOIN, CUT],
        Ends(0, 0, 1150),
    ),
    (
        &[R, ENC_A, TO_U, S, ENC_C, TO_U, JOIN, CUT],
        Ends(0, 0, 1130),
    ),
];

// X holds sealed cells alone: breaches at a send, at an opening before the join and at one after it; ends at X, and at the user with a sealed attribute.
const SEALED_LISTS: [(&[Step], Told); 10] = [
    (&[R, TO_X], Breaks(1, X, 1, 0)),
    (&[R, TO_X, ENC_A, ENC_B], Breaks(1, X, 1, 0)),
    (&[R, ENC_A, TO_X], Breaks(2, X, 1, 1)),
    (&[R, ENC_A, ENC_B, TO_X, DEC_A], Breaks(4, X, 1, 0)),
    (
        &[
            R, ENC_A, ENC_B, TO_X, S, ENC_C, ENC_D, TO_X, JOIN, CUT, DEC_B,
        ],
        Breaks(10, X, 1, 1),
    ),
    (
        &[
            R, ENC_A, ENC_B, TO_X, S, ENC_C, ENC_D, TO_X, JOIN, CUT, TO_A,
        ],
        Breaks(10, A, 2, 3),
    ),
    (
        &[R, ENC_A, ENC_B, TO_X, S, ENC_C, ENC_D, TO_X, JOIN, CUT],
        Fails(10, NotTheGoal),
    ),
    (
        &[
            R, ENC_A, ENC_B, TO_X, S, ENC_C, ENC_D, TO_X, JOIN, CUT, TO_U, DEC_B,
        ],
        Fails(12, NotTheGoal),
    ),
    (
        &[
            R, ENC_A, ENC_B, TO_X, S, ENC_C, ENC_D, TO_X, JOIN, CUT, TO_U, DEC_B, DEC_D,
        ],
        Ends(0, 0, 6080),
    ),
    (&[R, TO_U, S, TO_U, JOIN, CUT], Ends(0, 0, 10960)),
];

// A selection before the join: on plain cells it tells X of a, on sealed ones it does not.
const ORDERED_LISTS: [(&[Step], Told); 4] = [
    (&[R, CHOOSE, ENC_A, ENC_B, TO_X], Breaks(4, X, 1, 0)),
    (&[R, ENC_A, CHOOSE, ENC_B, TO_X, LATE_JOIN], Fails(5, Shape)),
    (&[R, S, LATE_JOIN], Fails(2, NotThePlan)),
    (
        &[
            R, ENC_A, CHOOSE, ENC_B, TO_X, S, ENC_C, ENC_D, TO_X, LATE_JOIN, LATE_CUT, TO_U, DEC_B,
            DEC_D,
        ],
        Ends(0, 1, 5250),
    ),
];

#[test]
fn shapes(rt: HostRuntime) -> Result<(), Fail> {
    check(&rt, rt.alloc(), &PLAIN, 64, &SHAPE)
}

#[test]
fn other_plans(rt: HostRuntime) -> Result<(), Fail> {
    check(&rt, rt.alloc(), &PLAIN, 64, &NOT_THE_PLAN)
}

#[test]
fn steps_that_do_not_run(rt: HostRuntime) -> Result<(), Fail> {
    check(&rt, rt.alloc(), &PLAIN, 64, &NOT_RUNNABLE)
}

#[test]
fn holders_that_may_not(rt: HostRuntime) -> Result<(), Fail> {
    check(&rt, rt.alloc(), &PLAIN, 64, &BREACHES)
}

#[test]
fn ends_of_plain_lists(rt: HostRuntime) -> Result<(), Fail> {
    check(&rt, rt.alloc(), &PLAIN, 64, &PLAIN_ENDS)
}

#[test]
fn joins_on_sealed_cells(rt: HostRuntime) -> Result<(), Fail> {
    check(&rt, rt.alloc(), &SEALED, 64, &SEALED_LISTS)?;
    check(&rt, rt.alloc(), &ORDERED, 64, &ORDERED_LISTS)
}

// Each sealing and each opening of b at A costs 10.
#[test]
fn a_hundred_thousand_steps(rt: HostRuntime) -> Result<(), Fail> {
    let mut steps = Vec::new(rt.alloc());
    steps.push(R)?;
    for _ in 0..50_000 {
        steps.push(ENC_B)?;
        steps.push(DEC_B)?;
    }
    steps.extend_from_slice(&[TO_U, S, TO_U, JOIN, CUT])?;
    let rows = [(steps.as_slice(), Ends(0, 0, 1_001_010))];
    check(&rt, rt.alloc(), &PLAIN, steps.len(), &rows)
}
