use mq_base::NodeId;

/// Of which kind a node is, with the numbers of its operands.
#[derive(Clone, Copy)]
pub enum Kind {
    /// The used attributes of a table.
    Leaf,
    /// An operation on one operand.
    One(NodeId),
    /// An operation on two operands, the left one first.
    Two(NodeId, NodeId),
}
