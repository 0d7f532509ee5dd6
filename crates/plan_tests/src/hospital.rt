//! Lists of steps over a hospital and an insurance: their places and causes by the rules, by hand.
use crate::steps::Told::{Breaks, Ends, Fails};
use crate::steps::{Given, Told, check};
use extended_plan::StepWhy::{NotRunnable, NotTheGoal, NotThePlan};
use mq_base::{AttrId, NodeId, Step, SubjectId, TableId};
use std::test::Fail;

const POLICY: &str = "version = 1\nuser = 'U'\nsubjects = ['H', 'I', 'U', 'X', 'Y', 'Z']\n\
[[table]]\nname = 'Hosp'\nowner = 'H'\ncolumns = [{name = 'S', type = 'INT'}, {name = 'B', type = 'INT'}, {name = 'D', type = 'TEXT'}, {name = 'T', type = 'TEXT'}]\n\
[[table]]\nname = 'Ins'\nowner = 'I'\ncolumns = [{name = 'C', type = 'INT'}, {name = 'P', type = 'INT'}]\n\
[[rule]]\ntable = 'Hosp'\nsubject = 'I'\nplain = ['B']\nsealed = ['S', 'D', 'T']\n\
[[rule]]\ntable = 'Hosp'\nsubject = 'U'\nplain = ['S', 'D', 'T']\n\
[[rule]]\ntable = 'Hosp'\nsubject = 'X'\nplain = ['D', 'T']\nsealed = ['S']\n\
[[rule]]\ntable = 'Hosp'\nsubject = 'Y'\nplain = ['B', 'D', 'T']\nsealed = ['S']\n\
[[rule]]\ntable = 'Hosp'\nsubject = 'Z'\nplain = ['S', 'T']\nsealed = ['D']\n\
[[rule]]\ntable = 'Hosp'\nsubject = 'any'\nplain = ['D', 'T']\n\
[[rule]]\ntable = 'Ins'\nsubject = 'H'\nplain = ['C']\nsealed = ['P']\n\
[[rule]]\ntable = 'Ins'\nsubject = 'U'\nplain = ['C', 'P']\n\
[[rule]]\ntable = 'Ins'\nsubject = 'X'\nsealed = ['C', 'P']\n\
[[rule]]\ntable = 'Ins'\nsubject = 'Y'\nplain = ['P']\nsealed = ['C']\n\
[[rule]]\ntable = 'Ins'\nsubject = 'Z'\nplain = ['C']\nsealed = ['P']\n\
[[rule]]\ntable = 'Ins'\nsubject = 'any'\nplain = ['P']\n";

const PRICES: &str =
    "version = 1\ncpu = {H = 10, I = 10, U = 100, X = 1, Y = 2, Z = 1}\nnet = {default = 1}\n\
rows = {Hosp = 1000, Ins = 5000}\ndistinct = {S = 1000, B = 100, D = 50, T = 20, C = 5000, P = 1000}\n";

const GIVEN: Given = Given {
    policy: POLICY,
    prices: PRICES,
    query: "SELECT T, SUM(P) FROM Hosp JOIN Ins ON S = C WHERE D = 'stroke' GROUP BY T HAVING SUM(P) > 100",
};

// The leaves, and the selection, the join, the group and the selection of HAVING, which are the nodes 1, 3, 4 and 5.
const HOSP: Step = Step::Base(TableId(0));

const INS: Step = Step::Base(TableId(1));

const CHOOSE: Step = Step::Un(NodeId(1));

const JOIN: Step = Step::Bin(NodeId(3));

const GROUP: Step = Step::Un(NodeId(4));

const HAVING: Step = Step::Un(NodeId(5));

const BIN_CHOOSE: Step = Step::Bin(NodeId(1));

const UN_JOIN: Step = Step::Un(NodeId(3));

const UN_NONE: Step = Step::Un(NodeId(6));

const ENC_S: Step = Step::Enc(AttrId(0));

const ENC_D: Step = Step::Enc(AttrId(2));

const ENC_C: Step = Step::Enc(AttrId(4));

const ENC_P: Step = Step::Enc(AttrId(5));

const DEC_S: Step = Step::Dec(AttrId(0));

const TO_H: Step = Step::Send(SubjectId(0));

const TO_I: Step = Step::Send(SubjectId(1));

const TO_U: Step = Step::Send(SubjectId(2));

const TO_X: Step = Step::Send(SubjectId(3));

const TO_Y: Step = Step::Send(SubjectId(4));

const TO_Z: Step = Step::Send(SubjectId(5));

const H: u8 = 0;

const I: u8 = 1;

const X: u8 = 3;

const Y: u8 = 4;

const Z: u8 = 5;

// D that was compared in plaintext stays implicit, and sealed cells are not summed.
const FAILING: [(&[Step], Told); 15] = [
    (&[HOSP, TO_I], Breaks(1, I, 1, 0)),
    (&[INS, TO_H], Breaks(1, H, 1, 5)),
    (&[HOSP, CHOOSE, TO_X], Breaks(2, X, 1, 0)),
    (&[HOSP, CHOOSE, ENC_D, TO_Z], Breaks(3, Z, 1, 2)),
    (&[HOSP, CHOOSE, ENC_S, TO_Y, DEC_S], Breaks(4, Y, 1, 0)),
    (&[HOSP, UN_NONE], Fails(1, NotThePlan)),
    (&[HOSP, CHOOSE, GROUP], Fails(2, NotThePlan)),
    (&[HOSP, CHOOSE, UN_JOIN], Fails(2, NotThePlan)),
    (&[HOSP, INS, JOIN], Fails(2, NotThePlan)),
    (&[HOSP, INS, BIN_CHOOSE], Fails(2, NotThePlan)),
    (&[HOSP, CHOOSE, INS, JOIN], Fails(3, NotRunnable)),
    (
        &[
            HOSP, CHOOSE, ENC_S, TO_Y, INS, ENC_C, ENC_P, TO_Y, JOIN, GROUP,
        ],
        Fails(9, NotRunnable),
    ),
    (
        &[
            HOSP, CHOOSE, ENC_S, TO_X, INS, ENC_C, ENC_P, TO_X, JOIN, GROUP,
        ],
        Fails(9, NotRunnable),
    ),
    (
        &[
            HOSP, CHOOSE, ENC_S, TO_Y, INS, ENC_C, TO_Y, JOIN, GROUP, HAVING,
        ],
        Fails(10, NotTheGoal),
    ),
    (
        &[
            HOSP, CHOOSE, ENC_S, TO_Y, INS, ENC_C, TO_Y, JOIN, GROUP, HAVING, HAVING,
        ],
        Fails(10, NotThePlan),
    ),
];

// The plan that is least, the same with D sealed, and all work at the user.
const ENDING: [(&[Step], Told); 3] = [
    (
        &[
            HOSP, CHOOSE, ENC_S, TO_Y, INS, ENC_C, TO_Y, JOIN, GROUP, HAVING, TO_U,
        ],
        Ends(44, 0, 387_126),
    ),
    (
        &[
            HOSP, ENC_D, CHOOSE, ENC_S, TO_Y, INS, ENC_C, TO_Y, JOIN, GROUP, HAVING, TO_U,
        ],
        Ends(40, 4, 547_126),
    ),
    (
        &[HOSP, TO_U, CHOOSE, INS, TO_U, JOIN, GROUP, HAVING],
        Ends(44, 0, 1_028_000),
    ),
];

#[test]
fn lists_that_fail(rt: HostRuntime) -> Result<(), Fail> {
    check(&rt, rt.alloc(), &GIVEN, 64, &FAILING)
}

#[test]
fn lists_that_end(rt: HostRuntime) -> Result<(), Fail> {
    check(&rt, rt.alloc(), &GIVEN, 64, &ENDING)
}
