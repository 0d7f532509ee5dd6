ghost use Rattle.std.specs.Prelude.{◌≡◌, ◌<◌, Err, IfOk, length};
ghost use Rattle.mq_base.specs.declared.ids.NodeId.{NodeId};
ghost use Rattle.extended_plan.specs.Job.{setting_of};
ghost use Rattle.extended_plan.specs.States.{IsFirstTooMany};
ghost use Rattle.assign_table.specs.Found.{CostsTooMuch, HasFew, IsAnswer};
ghost use Rattle.assign_table.specs.declared.answer.SearchNo.TheVariants.{CostRange, TooManyStates};
ghost use Rattle.assign_table.specs.inside.Blocks.{AreDone, IsBestOf};

use crate::answer::SearchNo;
use crate::blocks::settle_nodes;
use crate::goal::best_goal;
use crate::labels::labels_of;
use crate::spell::steps_of;
use crate::way::Settled;
use extended_plan::{Found, Job};
use mq_base::Seq;
use std::alloc::Global;

/// Searches for a least valid extended plan of a job. It answers such a plan with its cost, or that there is none, and with either the
/// labels that show it: at each node the states that are reached there, each with its least cost, cut at 2^128 - 1. docs/MODEL.md,
/// "Search".
///
/// `TooManyStates` where more than 200,000 states are reached, at the first node up to which it is so; `CostRange` where there are
/// valid extended plans and each costs 2^128 - 1 or more; `NoMemory` where the allocator refused a request. The time is that of a step
/// for each state with each attribute of its node and each subject, of a step for each pair of states of one class at a node with two
/// operands, and of keeping as many states in order.
pub fn search(alloc: Global, job: &Job<'_>) -> Result<Found, SearchNo>
    ensures found { IfOk result (λ found. IsAnswer (setting_of job.now) found × HasFew (setting_of job.now)) }
    ensures too_many { (n : NodeId) → result ≡ Err (TooManyStates n) → IsFirstTooMany (setting_of job.now) n.0 }
    ensures cost_range { result ≡ Err CostRange → CostsTooMuch (setting_of job.now) × HasFew (setting_of job.now) }
{
    let mut settled = Vec::new(alloc);
    let mut starts = Vec::new(alloc);
    starts.push(0)?;
    settle_nodes(alloc, job, &mut settled, &mut starts)?;
    answer(alloc, job, settled.as_slice(), starts.as_slice())
}

// The answer of a search that has settled the states of all nodes.
fn answer(
    alloc: Global,
    job: &Job<'_>,
    settled: &[Settled],
    starts: &[usize],
) -> Result<Found, SearchNo>
    requires { AreDone (setting_of job.now) settled.now starts.now (length (setting_of job.now).basis.nodes) }
    ensures found { IfOk result (λ found. IsAnswer (setting_of job.now) found × HasFew (setting_of job.now)) }
    ensures few { (n : NodeId) → result ≡ Err (TooManyStates n) → ⊥ }
    ensures cost_range { result ≡ Err CostRange → CostsTooMuch (setting_of job.now) × HasFew (setting_of job.now) }
{
    let count = job.facts.node_count();
    match best_goal(job, settled, starts[count - 1], starts[count]) {
        None => Ok(Found::Nothing {
            labels: labels_of(alloc, settled, starts, count)?,
        }),
        Some(place) => plan_at(alloc, job, settled, starts, place),
    }
}

// The plan to which the best goal leads.
fn plan_at(
    alloc: Global,
    job: &Job<'_>,
    settled: &[Settled],
    starts: &[usize],
    place: usize,
) -> Result<Found, SearchNo>
    requires done { AreDone (setting_of job.now) settled.now starts.now (length (setting_of job.now).basis.nodes) }
    requires best { IsBestOf (setting_of job.now) settled.now starts.now (Some place) }
    ensures found { IfOk result (λ found. IsAnswer (setting_of job.now) found × HasFew (setting_of job.now)) }
    ensures few { (n : NodeId) → result ≡ Err (TooManyStates n) → ⊥ }
    ensures cost_range { result ≡ Err CostRange → CostsTooMuch (setting_of job.now) × HasFew (setting_of job.now) }
{
    let count = job.facts.node_count();
    let best = settled[place];
    if best.label == u128::MAX {
        return Err(SearchNo::CostRange);
    }
    let steps = steps_of(alloc, settled, best.way)?;
    Ok(Found::Plan {
        steps: Seq::of(steps),
        cost: best.label,
        labels: labels_of(alloc, settled, starts, count)?,
    })
}
