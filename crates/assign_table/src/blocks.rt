ghost use Rattle.std.specs.Prelude.{◌≡◌, ◌<◌, ◌+◌, ◌++◌, ◌∷◌, [], Err, OnOk, length};
ghost use Rattle.mq_base.specs.declared.ids.NodeId.{NodeId};
ghost use Rattle.extended_plan.specs.Job.{setting_of};
ghost use Rattle.extended_plan.specs.States.{IsFirstTooMany};
ghost use Rattle.assign_table.specs.declared.answer.SearchNo.TheVariants.{CostRange, TooManyStates};
ghost use Rattle.assign_table.specs.declared.table.TableNo.TheVariants.{Full};
ghost use Rattle.assign_table.specs.inside.Blocks.{AreDone};
ghost use Rattle.assign_table.specs.inside.Settling.{IsCrowded};

use crate::answer::SearchNo;
use crate::arrive::arrive;
use crate::gate::Gate;
use crate::settle::settle_all;
use crate::table::{Table, TableNo};
use crate::way::Settled;
use extended_plan::Job;
use mq_base::NodeId;
use std::alloc::Global;

// The most states that a search reaches.
const MOST_STATES: usize = 200_000;

/// Settles the states of each node, in a block for each behind those of the nodes before, and tells where the blocks begin and end.
/// docs/MODEL.md, "Search".
///
/// `TooManyStates` where more than 200,000 states are reached, at the first node up to which it is so; `NoMemory` where the allocator
/// refused a request.
pub fn settle_nodes(
    alloc: Global,
    job: &Job<'_>,
    settled: &mut Vec<Settled>,
    starts: &mut Vec<usize>,
) -> Result<(), SearchNo>
    requires done { AreDone (setting_of job.now) settled.old.items starts.old.items 0 }
    ensures done { OnOk result (AreDone (setting_of job.now) settled.new.items starts.new.items (length (setting_of job.now).basis.nodes)) }
    ensures too_many { (n : NodeId) → result ≡ Err (TooManyStates n) → IsFirstTooMany (setting_of job.now) n.0 }
    ensures in_range { result ≡ Err CostRange → ⊥ }
{
    let mut table = Table::new(alloc);
    'nodes: for node in 0..job.facts.node_count() {
        settle_node(alloc, job, NodeId(node as u8), &mut table, settled, starts)?;
    }
    Ok(())
}

// Settles the states of a node behind those of the nodes before it, and tells where its block ends. The table lends its memory.
fn settle_node(
    alloc: Global,
    job: &Job<'_>,
    node: NodeId,
    table: &mut Table,
    settled: &mut Vec<Settled>,
    starts: &mut Vec<usize>,
) -> Result<(), SearchNo>
    requires node { node.0 < length (setting_of job.now).basis.nodes }
    requires done { AreDone (setting_of job.now) settled.old.items starts.old.items node.0 }
    ensures done { OnOk result (AreDone (setting_of job.now) settled.new.items starts.new.items (node.0 + 1)) }
    ensures too_many { (n : NodeId) → result ≡ Err (TooManyStates n) → IsFirstTooMany (setting_of job.now) n.0 }
    ensures in_range { result ≡ Err CostRange → ⊥ }
{
    let room = MOST_STATES - settled.len();
    match settle_block(alloc, job, node, table, room, starts.as_slice(), settled) {
        Ok(()) => {
            starts.push(settled.len())?;
            Ok(())
        }
        Err(TableNo::Full) => Err(SearchNo::TooManyStates { node }),
        Err(TableNo::NoMemory) => Err(SearchNo::NoMemory),
    }
}

// Settles the states of a node, of which there may be so many as there is room for, behind those of the nodes before it.
fn settle_block(
    alloc: Global,
    job: &Job<'_>,
    node: NodeId,
    table: &mut Table,
    room: usize,
    starts: &[usize],
    settled: &mut Vec<Settled>,
) -> Result<(), TableNo>
    requires node { node.0 < length (setting_of job.now).basis.nodes }
    requires done { AreDone (setting_of job.now) settled.old.items starts.now node.0 }
    requires room { room + length settled.old.items ≡ 200000 }
    ensures done { OnOk result (AreDone (setting_of job.now) settled.new.items (starts.now ++ length settled.new.items ∷ []) (node.0 + 1)) }
    ensures full { result ≡ Err Full → IsCrowded (setting_of job.now) node.0 room }
{
    table.clear();
    let gate = Gate {
        job,
        node,
        settled: settled.as_slice(),
        starts,
    };
    arrive(alloc, gate, table, room)?;
    settle_all(job, node, table, room, settled)
}
