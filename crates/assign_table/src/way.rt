use extended_plan::State;
use mq_base::{AttrSet, NodeId, Step, TableId};

/// How a state was reached. Operands are places of the arena of settled states, before one's own; it has at most 200,000.
#[derive(Clone, Copy)]
pub enum Way {
    /// As the leaf of a table.
    Leaf(TableId),
    /// By a step on the state at a place: an encryption, a decryption, a send, or a node's operation on one operand.
    One { step: Step, operand: u32 },
    /// By a node's operation on the states at two places.
    Two { node: NodeId, left: u32, right: u32 },
}

/// A state that no longer waits, with its final label and the way in which it was reached.
#[derive(Clone, Copy)]
pub struct Settled {
    pub state: State,
    pub label: u128,
    pub way: Way,
}

/// A settled state, with attributes whose encryption or decryption lowers no label from it, since the state to which it leads is settled.
#[derive(Clone, Copy)]
pub struct Taken {
    pub settled: Settled,
    pub near: AttrSet,
}
