use super::{FILE, POLICY, Row, check, policy_of};
use crate::refusals::ACCEPTED;
use std::test::Fail;

// The faults of the sections in their order: 3 an unknown name, 4 a number out of range, 5 a missing name, 6 a bad link.
const ROWS: [Row; 77] = [
    // cpu: an unknown name, by the byte order of the names
    ("O = 1", "A = 0, O = 1", (3, 0, 0)),
    ("O = 1", "'' = 0, O = 1", (3, 0, 0)),
    ("O = 1", "O = 1, P = 0", (3, 0, 1)),
    ("O = 1", "O = 1, any = 0", (3, 0, 3)),
    ("O = 1", "O = 1, r = 0", (3, 0, 3)),
    ("X = 3", "Z = 0, X = 3, Y = 0", (3, 0, 3)),
    ("O = 1", "A = -1, O = 1", (3, 0, 0)),
    // a number that is negative
    ("O = 1", "O = -1", (4, 0, 0)),
    ("O = 1", "O = -9223372036854775808", (4, 0, 0)),
    ("U = 2", "U = -2", (4, 0, 1)),
    ("X = 3", "X = -3", (4, 0, 2)),
    ("X = 3, O = 1", "Z = 3, O = -1", (4, 0, 0)),
    ("O = 1", "A = 1, O = -1", (3, 0, 0)),
    // a missing name, by the ids, after each fault of an entry
    ("X = 3, O = 1, U = 2", "", (5, 0, 0)),
    (", U = 2", "", (5, 0, 0)),
    ("O = 1, ", "", (5, 0, 1)),
    ("X = 3, ", "", (5, 0, 2)),
    ("X = 3, O = 1, ", "", (5, 0, 1)),
    ("O = 1", "o = 1", (3, 0, 2)),
    ("X = 3, O = 1", "X = -3", (4, 0, 1)),
    ("O = 1", "O = 0", ACCEPTED),
    ("O = 1", "O = 9223372036854775807", ACCEPTED),
    // cpu before net
    (
        "U = 2}\nnet = {default = 4}",
        "u = 2}\nnet = {default = -4}",
        (3, 0, 2),
    ),
    (
        ", U = 2}\nnet = {default = 4}",
        "}\nnet = {default = -4}",
        (5, 0, 0),
    ),
    // net
    ("default = 4", "default = -1", (4, 1, 0)),
    ("default = 4", "default = -9223372036854775808", (4, 1, 0)),
    ("default = 4", "default = 0", ACCEPTED),
    ("default = 4", "default = 9223372036854775807", ACCEPTED),
    // net before link
    (
        "default = 4}\nlink = [{from = 'O'",
        "default = -4}\nlink = [{from = 'A'",
        (4, 1, 0),
    ),
    // link: an unknown subject at either end, before all else of the link
    ("from = 'O'", "from = 'A'", (3, 2, 0)),
    ("to = 'U'", "to = 'any'", (3, 2, 0)),
    ("from = 'U'", "from = 'u'", (3, 2, 1)),
    ("to = 'O'", "to = ''", (3, 2, 1)),
    ("from = 'O', to = 'U'", "from = 'A', to = 'A'", (3, 2, 0)),
    ("to = 'O', price = 6", "to = 'r', price = -6", (3, 2, 1)),
    // from a subject to itself, and the same pair again
    ("from = 'O'", "from = 'U'", (6, 2, 0)),
    ("to = 'O'", "to = 'U'", (6, 2, 1)),
    ("from = 'U', to = 'O'", "from = 'O', to = 'U'", (6, 2, 1)),
    (
        "from = 'U', to = 'O', price = 6",
        "from = 'O', to = 'U', price = 5",
        (6, 2, 1),
    ),
    (
        "from = 'U', to = 'O', price = 6",
        "from = 'O', to = 'U', price = -1",
        (6, 2, 1),
    ),
    ("to = 'O', price = 6", "to = 'U', price = -1", (6, 2, 1)),
    (
        "price = 6}",
        "price = 6}, {from = 'O', to = 'U', price = 0}",
        (6, 2, 2),
    ),
    (
        "price = 6}",
        "price = 6}, {from = 'U', to = 'O', price = 0}",
        (6, 2, 2),
    ),
    // a negative price, and the links in their order
    ("price = 5", "price = -5", (4, 2, 0)),
    ("price = 6", "price = -9223372036854775808", (4, 2, 1)),
    (
        "price = 5}, {from = 'U'",
        "price = -5}, {from = 'A'",
        (4, 2, 0),
    ),
    (
        "price = 5}, {from = 'U', to = 'O'",
        "price = -5}, {from = 'O', to = 'U'",
        (4, 2, 0),
    ),
    ("price = 5", "price = 0", ACCEPTED),
    ("price = 6", "price = 9223372036854775807", ACCEPTED),
    (
        "price = 6}",
        "price = 6}, {from = 'X', to = 'U', price = 1}, {from = 'X', to = 'O', price = 1}",
        ACCEPTED,
    ),
    // link before rows
    (
        "price = 6}]\nrows = {r",
        "price = -6}]\nrows = {q",
        (4, 2, 1),
    ),
    // rows
    ("r = 7", "q = 0, r = 7", (3, 3, 0)),
    ("r = 7", "R = -7, r = 7", (3, 3, 0)),
    ("r = 7", "r = 7, ra = 7", (3, 3, 1)),
    ("s = 8", "s = 8, U = 8, t = 8", (3, 3, 0)),
    ("s = 8", "s = 8, t = 8", (3, 3, 2)),
    ("r = 7", "r = -7", (4, 3, 0)),
    ("s = 8", "s = -8", (4, 3, 1)),
    ("r = 7, s = 8", "s = -8, t = 0", (4, 3, 0)),
    ("r = 7, s = 8", "", (5, 3, 0)),
    (", s = 8", "", (5, 3, 0)),
    ("r = 7, ", "", (5, 3, 1)),
    ("r = 7", "t = 7", (3, 3, 1)),
    ("r = 7, s = 8", "r = 0, s = 9223372036854775807", ACCEPTED),
    // rows before distinct
    (
        "r = 7, s = 8}\ndistinct = {a = 9",
        "s = 8}\ndistinct = {a = 0",
        (5, 3, 1),
    ),
    // distinct, where 0 is out of range too
    ("a = 9", "A = 0, a = 9", (3, 4, 0)),
    ("c = 11", "c = 11, d = 12", (3, 4, 3)),
    ("c = 11", "c = 11, r = 0", (3, 4, 3)),
    ("a = 9", "a = 0", (4, 4, 0)),
    ("b = 10", "b = -1", (4, 4, 1)),
    ("c = 11", "c = 0", (4, 4, 2)),
    ("a = 9, b = 10, c = 11", "c = 0, d = 1", (4, 4, 0)),
    ("a = 9, b = 10, c = 11", "", (5, 4, 0)),
    (", c = 11", "", (5, 4, 0)),
    ("b = 10, ", "", (5, 4, 1)),
    ("a = 9, ", "", (5, 4, 2)),
    (
        "a = 9, b = 10, c = 11",
        "a = 1, b = 9223372036854775807, c = 1",
        ACCEPTED,
    ),
];

#[test]
fn prices_have_their_faults(rt: HostRuntime) -> Result<(), Fail> {
    let alloc = rt.alloc();
    let policy = policy_of(alloc, POLICY)?;
    check(&rt, alloc, &policy, FILE, &ROWS)
}
