ghost use Rattle.std.specs.Prelude.{◌≡◌, ℕ, ◌+◌, ◌≤◌, ◌<◌, length, IfOk};
ghost use Rattle.assign_table.specs.inside.Blocks.{AreApart, AreBlocks, AreEntriesOf, AreLabelsOf, entries_from, start_of};

use crate::way::Settled;
use extended_plan::{Entry, Labels};
use mq_base::{NoMemory, Seq};
use std::alloc::Global;

/// The entries of so many nodes, each node's in ascending order of states. docs/MODEL.md, "Certificate".
///
/// `NoMemory` where the allocator refused a request. The time is that of sorting the settled states of each node.
pub fn labels_of(
    alloc: Global,
    settled: &[Settled],
    starts: &[usize],
    count: usize,
) -> Result<Labels, NoMemory>
    requires blocks { AreBlocks settled.now starts.now count }
    requires apart { (m : ℕ) → m < count → AreApart settled.now (start_of starts.now m) (start_of starts.now (m + 1)) }
    ensures { IfOk result (λ labels. AreLabelsOf settled.now starts.now count labels.nodes) }
{
    let mut nodes = Vec::new(alloc);
    'nodes: for node in 0..count {
        nodes.push(sorted_from(alloc, settled, starts[node], starts[node + 1])?)?;
    }
    Ok(Labels {
        nodes: Seq::of(nodes),
    })
}

// The entries of the settled states from one place up to another, in their order.
fn listed_from(
    alloc: Global,
    settled: &[Settled],
    from: usize,
    to: usize,
) -> Result<Vec<Entry>, NoMemory>
    requires inside { to ≤ length settled.now }
    requires rise { from ≤ to }
    ensures { IfOk result (λ entries. entries.items ≡ entries_from settled.now from to) }
{
    let mut entries = Vec::with_capacity(alloc, to - from)?;
    'places: for at in from..to {
        let one = settled[at];
        entries.push(Entry {
            state: one.state,
            label: one.label,
        })?;
    }
    Ok(entries)
}

// The same in ascending order of states.
fn sorted_from(
    alloc: Global,
    settled: &[Settled],
    from: usize,
    to: usize,
) -> Result<Seq<Entry>, NoMemory>
    requires inside { to ≤ length settled.now }
    requires rise { from ≤ to }
    requires apart { AreApart settled.now from to }
    ensures { IfOk result (λ entries. AreEntriesOf settled.now from to entries) }
{
    let mut entries = listed_from(alloc, settled, from, to)?;
    entries.sort_unstable_by_key(|entry| entry.state);
    Ok(Seq::of(entries))
}
