//! What a test is given, and what is run over it.

use mq_base::{NodeId, Step, TableId};

/// A policy, its prices and a query, with what is run over the query's tables.
pub(crate) struct Given {
    pub(crate) policy: &'static str,
    pub(crate) prices: &'static str,
    pub(crate) query: &'static str,
    pub(crate) run: Run,
}

/// What is run.
pub(crate) enum Run {
    /// Steps on one table.
    Branch(Branch),
    /// Steps on two tables, and on what comes of both.
    Join(Join),
    /// The products of all tables.
    Products(Products),
}

/// A leaf and the steps that are taken on it, each with what its table is told as.
pub(crate) struct Branch {
    pub(crate) table: TableId,
    pub(crate) rows: &'static str,
    pub(crate) leaf: &'static str,
    pub(crate) steps: &'static [(Step, &'static str)],
}

/// Two branches, the node that stands on both with what its table is told as, and the steps after it.
pub(crate) struct Join {
    pub(crate) left: Branch,
    pub(crate) right: Branch,
    pub(crate) both: (NodeId, &'static str),
    pub(crate) after: &'static [(Step, &'static str)],
}

/// The numbers of rows of the tables 1, 2 and 3, and the file of table 0; then what the products of the first two, of these and the third,
/// and of these and the last are told as. The first that is not told is refused.
pub(crate) struct Products {
    pub(crate) rows: [u32; 3],
    pub(crate) last: &'static str,
    pub(crate) two: &'static str,
    pub(crate) three: Option<&'static str>,
    pub(crate) four: Option<&'static str>,
}
