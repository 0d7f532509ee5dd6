//! The engine's steps, on the tables that the earlier steps left.

ghost use Rattle.std.specs.Prelude.{◌≡◌, ◌+◌, ◌<◌, ◌^◌, List, ℕ, IfOk, OnOk, drop, length};
ghost use Rattle.column_table.specs.Cells.{cell_tests};
ghost use Rattle.column_table.specs.Tables.{most_rows};
ghost use Rattle.extended_plan.specs.Job.{setting_of};
ghost use Rattle.extended_plan.specs.Setting.{op_at};
ghost use Rattle.mq_base.specs.declared.ids.NodeId.{NodeId};
ghost use Rattle.plan_algebra.specs.Tree.{apply_two};
ghost use Rattle.plan_runner.specs.declared.stop.RunStop.TheVariants.{RowRange};
ghost use Rattle.plan_runner.specs.inside.Made.{IsMadeOfLeaf, IsMadeOnOne, IsMadeOnTwo, IsReadyForLeaf, IsReadyForTwo};
ghost use Rattle.plan_runner.specs.inside.UnderWay.{IsUnderWay};
ghost use Rattle.plan_runner.specs.Running.{IsFirstWide};
ghost use Rattle.provider_engine.specs.Decoding.{IsRun};
ghost use Rattle.provider_engine.specs.Held.{table_of};
ghost use Rattle.provider_engine.specs.OfJob.{IsOfJob, IsOpenedBy};
ghost use Rattle.provider_engine.specs.Opening.{seals_of};
ghost use Rattle.provider_engine.specs.Steps.{IsRunnableOn};
ghost use Rattle.provider_engine.specs.Typed.{AreTyped};
ghost use Rattle.row_algebra.specs.Contents.{Contents};

use crate::pile::Pile;
use crate::stop::RunStop;
use column_table::RunNo;
use extended_plan::Job;
use key_clusters::Keys;
use mq_base::{NoMemory, NodeId, PlainTable, Step};
use provider_engine::{Held, run_binary, run_leaf, run_unary};
use std::alloc::Global;

// Takes the step at a place: it takes its operands off the stack, or a table that waits, and puts the table that it makes on the stack.
pub fn run_step(
    alloc: Global,
    job: &Job<'_>,
    keys: &Keys,
    steps: &[Step],
    place: usize,
    waiting: &mut Pile<PlainTable>,
    stack: &mut Pile<Held>,
) -> Result<(), RunStop>
    ghost contents: { Contents }
    requires run { IsRun (setting_of job.now) keys.now.keys contents }
    requires place { place < length steps.now }
    requires few { length steps.now < 2 ^ 32 }
    requires under_way { IsUnderWay (setting_of job.now) keys.now.keys contents (drop place steps.now) place waiting.old stack.old }
    ensures goes { OnOk result (IsUnderWay (setting_of job.now) keys.now.keys contents (drop (place + 1) steps.now) (place + 1)
        waiting.new stack.new) }
    ensures range { (n : NodeId) → result ≡ Err (RowRange n) → IsFirstWide (setting_of job.now) contents n.0 }
{
    match &steps[place] {
        Step::Base(_) => {
            let table = waiting.take();
            let made = leaf_on(alloc, job, keys, place as u32, table)?;
            Ok(stack.push(made)?)
        }
        Step::Bin(node) => {
            let right = stack.take();
            let left = stack.take();
            let made = two_on(alloc, job, *node, left, right)?;
            Ok(stack.push(made)?)
        }
        step => {
            let held = stack.take();
            let made = one_on(alloc, job, keys, place as u32, step, held)?;
            Ok(stack.push(made)?)
        }
    }
}

// The table of a leaf.
fn leaf_on(
    alloc: Global,
    job: &Job<'_>,
    keys: &Keys,
    place: u32,
    table: PlainTable,
) -> Result<Held, NoMemory>
    requires { IsReadyForLeaf (setting_of job.now) table }
    ensures { IfOk result (IsMadeOfLeaf (setting_of job.now) keys.now.keys place table) }
{
    match run_leaf(alloc, job, keys, place, table) {
        Ok(made) => Ok(made),
        Err((_, no_memory)) => Err(no_memory),
    }
}

// The table after a step on one table.
fn one_on(
    alloc: Global,
    job: &Job<'_>,
    keys: &Keys,
    place: u32,
    step: &Step,
    held: Held,
) -> Result<Held, NoMemory>
    requires of_job { IsOfJob (setting_of job.now) held }
    requires opened { IsOpenedBy (setting_of job.now) keys.now.keys held }
    requires runnable { IsRunnableOn (setting_of job.now) step.now held }
    requires typed { AreTyped (setting_of job.now).policy.schema (setting_of job.now).basis.nodes }
    ensures { IfOk result (IsMadeOnOne (setting_of job.now) keys.now.keys step.now place held) }
{
    match run_unary(alloc, job, keys, place, step, held) {
        Ok(made) => Ok(made),
        Err((_, no_memory)) => Err(no_memory),
    }
}

// The table of a node on two tables.
fn two_on(
    alloc: Global,
    job: &Job<'_>,
    node: NodeId,
    left: Held,
    right: Held,
) -> Result<Held, RunStop>
    requires { IsReadyForTwo (setting_of job.now) node left right }
    ensures made { IfOk result (λ made. (keys : List (List ℕ)) → IsMadeOnTwo (setting_of job.now) keys node left right made) }
    ensures named { (n : NodeId) → result ≡ Err (RowRange n) → n ≡ node }
    ensures range { (n : NodeId) → result ≡ Err (RowRange n) → (keys : List (List ℕ))
        → most_rows < length (apply_two (cell_tests (seals_of job.now.clusters keys)) (op_at (setting_of job.now) node.0)
        (table_of left) (table_of right)) }
{
    match run_binary(alloc, job, node, left, right) {
        Ok(made) => Ok(made),
        Err((_, _, RunNo::RowRange)) => Err(RunStop::RowRange(node)),
        Err((_, _, RunNo::NoMemory)) => Err(RunStop::NoMemory),
    }
}
