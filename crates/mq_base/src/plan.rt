use crate::attr_set::AttrSet;
use crate::ids::{AttrId, NodeId, SubjectId, TableId};
use crate::query::{Agg, CmpOp};
use crate::seq::Seq;
use crate::value::Value;

/// An operation of a query plan.
#[derive(Drop)]
pub enum PlanOp {
    /// The used attributes of a table.
    Base(TableId, AttrSet),
    /// The rows cut to these attributes; a count column stays.
    Project(AttrSet),
    /// The rows whose attribute compares so with the constant.
    SelConst(AttrId, CmpOp, Value),
    /// The rows whose count compares so with the constant.
    SelCount(CmpOp, i64),
    /// The rows whose two attributes compare so.
    SelAttr(AttrId, CmpOp, AttrId),
    /// Each left row beside each right row.
    Product,
    /// The rows of the product whose left and right attribute compare so.
    Join(AttrId, CmpOp, AttrId),
    /// One row for each combination of the attributes, with the functions over its rows and, where told, their number.
    Group(AttrSet, Seq<(AttrId, Agg)>, bool),
}

/// A node: its operation and its operands, which stand before it.
#[derive(Drop)]
pub struct PlanNode {
    pub op: PlanOp,
    pub left: Option<NodeId>,
    pub right: Option<NodeId>,
}

/// A query plan: its nodes in post-order, the last one its root. At most 64 nodes.
#[derive(Drop)]
pub struct Plan {
    pub nodes: Seq<PlanNode>,
}

/// A step of an extended plan, written after the steps that make its operands.
#[derive(Clone, Copy)]
pub enum Step {
    /// The used attributes of a table, at its owner.
    Base(TableId),
    /// Seals a visible plaintext attribute.
    Enc(AttrId),
    /// Opens a visible sealed attribute.
    Dec(AttrId),
    /// Sends the table to another subject.
    Send(SubjectId),
    /// Does a node with one operand.
    Un(NodeId),
    /// Does a node with two operands.
    Bin(NodeId),
}
