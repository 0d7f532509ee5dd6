//! Products. Of tables without columns they are a number of rows alone, up to 2^48 - 1.

use crate::given::{Given, Products, Run};
use crate::run::check;
use std::test::Fail;

// O owns r(a INT), s1(k1 INT), s2(k2 INT) and s3(k3 INT).
const FOUR_TABLES: &str =
    "version = 1\nuser = \"U\"\nsubjects = [\"O\", \"U\"]\n[[table]]\nname = \"r\"\nowner = \"O\"\ncolumns = [{ name = \"a\", type = \"INT\" }]\n[[table]]\nname = \"s1\"\nowner = \"O\"\ncolumns = [{ name = \"k1\", type = \"INT\" }]\n[[table]]\nname = \"s2\"\nowner = \"O\"\ncolumns = [{ name = \"k2\", type = \"INT\" }]\n[[table]]\nname = \"s3\"\nowner = \"O\"\ncolumns = [{ name = \"k3\", type = \"INT\" }]\n[[rule]]\ntable = \"r\"\nsubject = \"U\"\nplain = [\"a\"]\n";

const PRICES: &str =
    "version = 1\n[cpu]\nO = 1\nU = 2\n[net]\ndefault = 3\n[rows]\nr = 10\ns1 = 1\ns2 = 1\ns3 = 1\n[distinct]\na = 5\nk1 = 1\nk2 = 1\nk3 = 1\n";

// The leaves of s1, s2, s3 and r are the nodes 0, 1, 3 and 5, and that of r alone has a column; each of the nodes 2, 4 and 6 is the product
// of all leaves before it.
const QUERY: &str = "select a from s1, s2, s3, r";

const R_ROWS: &str = "a\n5\n6\n";

const LONG: u32 = 100_000;

const FEW: Given = Given {
    policy: FOUR_TABLES,
    prices: PRICES,
    query: QUERY,
    run: Run::Products(Products {
        rows: [2, 1, 1],
        last: R_ROWS,
        two: "at 0 node 2, 2 rows",
        three: Some("at 0 node 4, 2 rows"),
        four: Some("at 0 node 6, 4 rows; a 5 6 5 6"),
    }),
};

const EMPTY: Given = Given {
    policy: FOUR_TABLES,
    prices: PRICES,
    query: QUERY,
    run: Run::Products(Products {
        rows: [LONG, LONG, 0],
        last: R_ROWS,
        two: "at 0 node 2, 10000000000 rows",
        three: Some("at 0 node 4, 0 rows"),
        four: Some("at 0 node 6, 0 rows; a"),
    }),
};

// 65,535 * 65,793 * 65,281 is 2^48 - 1.
const WIDEST: Given = Given {
    policy: FOUR_TABLES,
    prices: PRICES,
    query: QUERY,
    run: Run::Products(Products {
        rows: [65_535, 65_793, 65_281],
        last: R_ROWS,
        two: "at 0 node 2, 4311744255 rows",
        three: Some("at 0 node 4, 281474976710655 rows"),
        four: None,
    }),
};

// 65,536 * 65,536 * 65,536 is 2^48.
const ONE_MORE: Given = Given {
    policy: FOUR_TABLES,
    prices: PRICES,
    query: QUERY,
    run: Run::Products(Products {
        rows: [65_536, 65_536, 65_536],
        last: R_ROWS,
        two: "at 0 node 2, 4294967296 rows",
        three: None,
        four: None,
    }),
};

const LONGEST: Given = Given {
    policy: FOUR_TABLES,
    prices: PRICES,
    query: QUERY,
    run: Run::Products(Products {
        rows: [LONG, LONG, LONG],
        last: R_ROWS,
        two: "at 0 node 2, 10000000000 rows",
        three: None,
        four: None,
    }),
};

#[test]
fn a_product_has_each_row_beside_each(rt: HostRuntime) -> Result<(), Fail> {
    check(&rt, rt.alloc(), &FEW)?;
    check(&rt, rt.alloc(), &EMPTY)
}

#[test]
fn a_product_past_the_limit_is_refused(rt: HostRuntime) -> Result<(), Fail> {
    check(&rt, rt.alloc(), &WIDEST)?;
    check(&rt, rt.alloc(), &ONE_MORE)?;
    check(&rt, rt.alloc(), &LONGEST)
}
