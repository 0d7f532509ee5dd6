use mq_base::{Seq, Step, SubjectId};
use relation_profile::View;

/// Who holds the table of a node, and what the steps so far made of it. The view is one of the node's. docs/MODEL.md, "States".
#[derive(Clone, Copy, Debug, PartialEq, Eq, PartialOrd, Ord, Hash)]
pub struct State {
    pub holder: SubjectId,
    pub view: View,
}

/// A state with a label: what reaching it costs at least, cut at 2^128 - 1.
#[derive(Clone, Copy)]
pub struct Entry {
    pub state: State,
    pub label: u128,
}

/// For each node of a plan, in post-order, its entries in ascending order of states. docs/MODEL.md, "Certificate".
#[derive(Drop)]
pub struct Labels {
    pub nodes: Seq<Seq<Entry>>,
}

/// Where a list of steps ends, and what it costs, cut at 2^128 - 1.
#[derive(Clone, Copy, PartialEq, Eq)]
pub struct PlanTotals {
    pub state: State,
    pub cost: u128,
}

/// What a search for a least valid extended plan comes to, with the labels that show it.
#[derive(Drop)]
pub enum Found {
    /// A least valid extended plan, as its steps, and its cost.
    Plan {
        steps: Seq<Step>,
        cost: u128,
        labels: Labels,
    },
    /// There is no valid extended plan.
    Nothing {
        labels: Labels,
    },
}
