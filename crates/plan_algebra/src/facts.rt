use mq_base::{AttrSet, Seq};

/// What is known of the table that a node gives, whatever is sealed in it and wherever it is.
/// docs/MODEL.md, "Facts of a node".
#[derive(Drop)]
pub struct NodeFacts {
    /// The attributes that it has.
    pub visible: AttrSet,
    /// The sets of attributes that comparisons made equivalent, in the order of their least members. No two meet.
    pub eq: Seq<AttrSet>,
    /// Whether it has the count column.
    pub count: bool,
}
