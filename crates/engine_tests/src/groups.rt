//! Groups: in the order in which their keys first occur, each with what its functions make of its rows, and with its count.

use crate::given::{Branch, Given, Run};
use crate::run::check;
use mq_base::{AttrId, NodeId, Step, TableId};
use std::test::Fail;

// O owns g(k INT, m INT, n INT, s INT, w TEXT), whose attributes are told as a to e.
const ONE_OWNER: &str =
    "version = 1\nuser = \"U\"\nsubjects = [\"O\", \"U\"]\n[[table]]\nname = \"g\"\nowner = \"O\"\ncolumns = [{ name = \"k\", type = \"INT\" }, { name = \"m\", type = \"INT\" }, { name = \"n\", type = \"INT\" }, { name = \"s\", type = \"INT\" }, { name = \"w\", type = \"TEXT\" }]\n[[rule]]\ntable = \"g\"\nsubject = \"U\"\nplain = [\"k\", \"m\", \"n\", \"s\", \"w\"]\n";

const PRICES: &str =
    "version = 1\n[cpu]\nO = 1\nU = 2\n[net]\ndefault = 3\n[rows]\ng = 10\n[distinct]\nk = 5\nm = 5\nn = 5\ns = 5\nw = 5\n";

// The key 1 occurs again after the key 2, and twice beside 5.
const ROWS: &str = "k,m,n,s,w\n1,5,5,10,pear\n2,7,-1,20,fig\n1,3,9,-4,plum\n1,5,2,1,kiwi\n";

const NO_ROWS: &str = "k,m,n,s,w\n";

const G: TableId = TableId(0);

const K: AttrId = AttrId(0);

const M: AttrId = AttrId(1);

const S: AttrId = AttrId(3);

const W: AttrId = AttrId(4);

const EACH_FUNCTION: &str = "select k, min(m), max(n), sum(s), max(w), count(*) from g group by k";

const PLAIN: Given = Given {
    policy: ONE_OWNER,
    prices: PRICES,
    query: EACH_FUNCTION,
    run: Run::Branch(Branch {
        table: G,
        rows: ROWS,
        leaf: "at 0 node 0, 4 rows; a 1 2 1 1; b 5 7 3 5; c 5 -1 9 2; d 10 20 -4 1; e pear fig plum kiwi",
        steps: &[(
            Step::Un(NodeId(1)),
            "at 0 node 1, 2 rows; a 1 2; b 3 7; c 9 -1; d 7 20; e plum fig; # 3 1",
        )],
    }),
};

const EMPTY: Given = Given {
    policy: ONE_OWNER,
    prices: PRICES,
    query: EACH_FUNCTION,
    run: Run::Branch(Branch {
        table: G,
        rows: NO_ROWS,
        leaf: "at 0 node 0, 0 rows; a; b; c; d; e",
        steps: &[(Step::Un(NodeId(1)), "at 0 node 1, 0 rows; a; b; c; d; e; #")],
    }),
};

// HAVING is tested on the counts, and the projection on s keeps them.
const PROJECTED: Given = Given {
    policy: ONE_OWNER,
    prices: PRICES,
    query: "select sum(s), count(*) from g group by k having count(*) <= 1",
    run: Run::Branch(Branch {
        table: G,
        rows: ROWS,
        leaf: "at 0 node 0, 4 rows; a 1 2 1 1; d 10 20 -4 1",
        steps: &[
            (
                Step::Un(NodeId(1)),
                "at 0 node 1, 2 rows; a 1 2; d 7 20; # 3 1",
            ),
            (Step::Un(NodeId(2)), "at 0 node 2, 1 rows; a 2; d 20; # 1"),
            (Step::Un(NodeId(3)), "at 0 node 3, 1 rows; d 20; # 1"),
        ],
    }),
};

// Two keys, of which one is sealed.
const PAIRED: Given = Given {
    policy: ONE_OWNER,
    prices: PRICES,
    query: "select k, m, sum(s), count(*) from g group by k, m",
    run: Run::Branch(Branch {
        table: G,
        rows: ROWS,
        leaf: "at 0 node 0, 4 rows; a 1 2 1 1; b 5 7 3 5; d 10 20 -4 1",
        steps: &[
            (
                Step::Enc(M),
                "at 0 node 0, 4 rows; a 1 2 1 1; b det 5 7 3 5; d 10 20 -4 1",
            ),
            (
                Step::Un(NodeId(1)),
                "at 0 node 1, 3 rows; a 1 2 1; b det 5 7 3; d 11 20 -4; # 2 1 1",
            ),
        ],
    }),
};

// Keys, least and greatest values are found in sealed cells.
const SEALED: Given = Given {
    policy: ONE_OWNER,
    prices: PRICES,
    query: "select k, min(s), max(w) from g group by k",
    run: Run::Branch(Branch {
        table: G,
        rows: ROWS,
        leaf: "at 0 node 0, 4 rows; a 1 2 1 1; d 10 20 -4 1; e pear fig plum kiwi",
        steps: &[
            (
                Step::Enc(K),
                "at 0 node 0, 4 rows; a det 1 2 1 1; d 10 20 -4 1; e pear fig plum kiwi",
            ),
            (
                Step::Enc(S),
                "at 0 node 0, 4 rows; a det 1 2 1 1; d ope 10 20 -4 1; e pear fig plum kiwi",
            ),
            (
                Step::Enc(W),
                "at 0 node 0, 4 rows; a det 1 2 1 1; d ope 10 20 -4 1; e ope pear fig plum kiwi",
            ),
            (
                Step::Un(NodeId(1)),
                "at 0 node 1, 2 rows; a det 1 2; d ope -4 20; e ope plum fig",
            ),
            (
                Step::Dec(S),
                "at 0 node 1, 2 rows; a det 1 2; d -4 20; e ope plum fig",
            ),
            (
                Step::Dec(W),
                "at 0 node 1, 2 rows; a det 1 2; d -4 20; e plum fig",
            ),
            (
                Step::Dec(K),
                "at 0 node 1, 2 rows; a 1 2; d -4 20; e plum fig",
            ),
        ],
    }),
};

#[test]
fn groups_stand_in_the_order_of_their_keys(rt: HostRuntime) -> Result<(), Fail> {
    check(&rt, rt.alloc(), &PLAIN)
}

#[test]
fn no_rows_give_no_group(rt: HostRuntime) -> Result<(), Fail> {
    check(&rt, rt.alloc(), &EMPTY)
}

#[test]
fn a_projection_keeps_the_counts(rt: HostRuntime) -> Result<(), Fail> {
    check(&rt, rt.alloc(), &PROJECTED)
}

#[test]
fn each_combination_of_keys_is_a_group(rt: HostRuntime) -> Result<(), Fail> {
    check(&rt, rt.alloc(), &PAIRED)
}

#[test]
fn sealed_cells_are_grouped(rt: HostRuntime) -> Result<(), Fail> {
    check(&rt, rt.alloc(), &SEALED)
}
