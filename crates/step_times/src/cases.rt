//! The steps that are timed, of each kind one at least, on states of the worked plan: the leaf of Hosp is node 0, its selection 1,
//! the leaf of Ins 2, then the join, the group and the selection of HAVING.

use crate::case::Case;
use extended_plan::State;
use mq_base::{AttrId, AttrSet, NodeId, Step, SubjectId};
use relation_profile::View;

// The subjects and the attributes that the cases name, by their places in the policy.
const H: SubjectId = SubjectId(0);

const I: SubjectId = SubjectId(1);

const U: SubjectId = SubjectId(2);

const Y: SubjectId = SubjectId(4);

const Z: SubjectId = SubjectId(5);

const S: AttrId = AttrId(0);

const C: AttrId = AttrId(4);

// S and C, D, and T as sets.
const S_SET: u64 = 1;

const D_SET: u64 = 4;

const T_SET: u64 = 8;

const C_SET: u64 = 16;

// A state in which nothing is implicit encrypted.
fn state(holder: SubjectId, enc: u64, ip: u64) -> State {
    State {
        holder,
        view: View {
            enc: AttrSet(enc),
            ip: AttrSet(ip),
            ie: AttrSet::EMPTY,
        },
    }
}

// A case whose other state differs in that T is implicit encrypted.
fn case(node: u8, step: Step, first: State, second: Option<State>) -> Case {
    let mut other = first;
    other.view.ie = AttrSet(T_SET);
    Case {
        node: NodeId(node),
        step,
        first,
        other,
        second,
    }
}

/// The cases with their names.
pub(crate) fn cases() -> [(&'static str, Case); 10] {
    let joined = state(Y, S_SET | C_SET, D_SET);
    [
        (
            "encryption",
            case(1, Step::Enc(S), state(H, 0, D_SET), None),
        ),
        (
            "encryption of what is encrypted",
            case(1, Step::Enc(S), state(H, S_SET, D_SET), None),
        ),
        (
            "decryption",
            case(2, Step::Dec(C), state(I, C_SET, 0), None),
        ),
        (
            "send of three attributes",
            case(1, Step::Send(Y), state(H, S_SET, D_SET), None),
        ),
        (
            "send of five attributes",
            case(3, Step::Send(U), joined, None),
        ),
        (
            "send to one who may not hold it",
            case(1, Step::Send(Z), state(H, S_SET, D_SET), None),
        ),
        (
            "selection",
            case(1, Step::Un(NodeId(1)), state(H, 0, 0), None),
        ),
        (
            "join",
            case(
                3,
                Step::Bin(NodeId(3)),
                state(Y, S_SET, D_SET),
                Some(state(Y, C_SET, 0)),
            ),
        ),
        ("group", case(4, Step::Un(NodeId(4)), joined, None)),
        (
            "selection after the group",
            case(5, Step::Un(NodeId(5)), state(Y, 0, D_SET | T_SET), None),
        ),
    ]
}
