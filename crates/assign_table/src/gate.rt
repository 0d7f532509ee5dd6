ghost use Rattle.std.specs.Prelude.{◌≡◌, ◌<◌, ◌≤◌, length};
ghost use Rattle.assign_table.specs.inside.Arrivals.{IsGate};
ghost use Rattle.assign_table.specs.inside.Blocks.{start_of};

use crate::way::Settled;
use extended_plan::Job;
use mq_base::NodeId;

/// A node to which states arrive, with the settled states of the nodes before it, and where their blocks begin.
#[derive(Clone, Copy)]
pub struct Gate<'a, 'b> {
    pub job: &'a Job<'b>,
    pub node: NodeId,
    pub settled: &'a [Settled],
    pub starts: &'a [usize],
}

impl<'a, 'b> Gate<'a, 'b> {
    /// Where the block of a node up to this one begins; it ends where that of the next node begins.
    pub fn start(self, node: usize) -> usize
        requires gate { IsGate self }
        requires before { node ≤ self.node.0 }
        ensures starts { result ≡ start_of self.entry.starts.now node }
        ensures inside { result ≤ length self.entry.settled.now }
    {
        self.starts[node]
    }
}
