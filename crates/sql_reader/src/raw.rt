use mq_base::{Agg, CmpOp, Seq};

/// A column as a query names it.
#[derive(Clone, Copy)]
pub struct RawCol<'a> {
    /// The table before the dot, where there is one.
    pub table: Option<&'a str>,
    /// The column's name.
    pub name: &'a str,
    /// The place of its first word, in bytes from 0.
    pub at: u32,
}

/// A literal of a query.
#[derive(Clone, Copy)]
pub enum RawLit<'a> {
    /// A number.
    Number(i64),
    /// A text: the slice between the outer quotes, in which each quote is doubled.
    Text(&'a str),
}

/// The right side of a comparison.
#[derive(Clone, Copy)]
pub enum RawSide<'a> {
    /// A column.
    Col(RawCol<'a>),
    /// A literal.
    Lit(RawLit<'a>),
}

/// A condition of ON or WHERE.
#[derive(Clone, Copy)]
pub struct RawCond<'a> {
    /// The column on the left.
    pub left: RawCol<'a>,
    /// The comparison.
    pub op: CmpOp,
    /// What the column is compared with.
    pub right: RawSide<'a>,
}

/// An item of a select list.
#[derive(Clone, Copy)]
pub enum RawItem<'a> {
    /// A column.
    Col(RawCol<'a>),
    /// A function over the values of a column.
    Agg {
        /// The function.
        func: Agg,
        /// The column.
        col: RawCol<'a>,
        /// The place of the function's word, in bytes from 0.
        at: u32,
    },
    /// `COUNT(*)`.
    Count {
        /// The place of the word COUNT, in bytes from 0.
        at: u32,
    },
}

/// A table of a FROM list.
#[derive(Drop)]
pub struct RawSource<'a> {
    /// The table's name.
    pub table: &'a str,
    /// The place of its name, in bytes from 0.
    pub at: u32,
    /// The conditions of its ON, in order. None where it has no ON.
    pub on: Seq<RawCond<'a>>,
}

/// A condition of HAVING.
#[derive(Clone, Copy)]
pub struct RawHaving<'a> {
    /// What is compared: a function over a column, or the count.
    pub item: RawItem<'a>,
    /// The comparison.
    pub op: CmpOp,
    /// The literal on the right.
    pub lit: RawLit<'a>,
}

/// A query as its text gives it, with slices of the text for names and texts.
#[derive(Drop)]
pub struct RawQuery<'a> {
    /// The select list, in order.
    pub items: Seq<RawItem<'a>>,
    /// The FROM list, in order.
    pub sources: Seq<RawSource<'a>>,
    /// The conditions of WHERE, in order.
    pub conds: Seq<RawCond<'a>>,
    /// The grouped columns, in order. None where there is no GROUP BY.
    pub group: Seq<RawCol<'a>>,
    /// The conditions of HAVING, in order.
    pub having: Seq<RawHaving<'a>>,
}
