use crate::attr_set::AttrSet;
use crate::ids::{AttrId, TableId};
use crate::seq::Seq;
use crate::value::Value;

/// A comparison: the left side stands before the word.
#[derive(Clone, Copy, Debug, PartialEq, Eq)]
pub enum CmpOp {
    Eq,
    Ne,
    Lt,
    Le,
    Gt,
    Ge,
}

/// A function over the values of an attribute in a group.
#[derive(Clone, Copy, Debug)]
pub enum Agg {
    Sum,
    Min,
    Max,
}

/// A condition of ON or WHERE.
#[derive(Drop)]
pub enum Cond {
    /// An attribute compared with a constant of its type.
    Const(AttrId, CmpOp, Value),
    /// Two attributes of one type compared.
    Attrs(AttrId, CmpOp, AttrId),
}

/// A condition of HAVING.
#[derive(Drop)]
pub enum Having {
    /// An aggregated attribute compared with a constant.
    Const(AttrId, CmpOp, Value),
    /// The number of rows of the group compared with a constant.
    Count(CmpOp, i64),
}

/// A selected item.
#[derive(Clone, Copy)]
pub enum Item {
    /// An attribute, or its aggregate where the query aggregates it.
    Attr(AttrId),
    /// The number of rows of the group.
    Count,
}

/// A query with ids in place of names.
#[derive(Drop)]
pub struct Query {
    /// The select list, in order, repeated items included.
    pub items: Seq<Item>,
    /// The tables in FROM order, each once.
    pub tables: Seq<TableId>,
    /// The conditions of ON in order, then those of WHERE.
    pub conds: Seq<Cond>,
    /// Whether there is a GROUP BY.
    pub grouped: bool,
    /// The grouped attributes.
    pub group: AttrSet,
    /// Each aggregated attribute once, with its function, in order of first occurrence.
    pub aggs: Seq<(AttrId, Agg)>,
    /// Whether COUNT(*) stands anywhere.
    pub count: bool,
    /// The conditions of HAVING in order.
    pub having: Seq<Having>,
}
