//! The table of a node that groups.

ghost use Rattle.std.specs.Prelude.{◌≡◌, IfErr, IfOk, Some, true};
ghost use Rattle.column_table.specs.Cells.{Seals, cell_tests};
ghost use Rattle.column_table.specs.Tables.{rows_of};
ghost use Rattle.extended_plan.specs.Job.{setting_of};
ghost use Rattle.extended_plan.specs.Setting.{op_at};
ghost use Rattle.mq_base.specs.declared.plan.Step.TheVariants as step;
ghost use Rattle.plan_algebra.specs.Tree.{apply_one};
ghost use Rattle.provider_engine.specs.Held.{node_of, state_of, table_of};
ghost use Rattle.provider_engine.specs.OfJob.{IsOfJob, IsOpenedBy};
ghost use Rattle.provider_engine.specs.Opening.{seals_of};
ghost use Rattle.provider_engine.specs.Steps.{IsRunnableOn, state_after};
ghost use Rattle.provider_engine.specs.Typed.{AreTyped, groups};
ghost use Rattle.provider_engine.specs.inside.Operations.{IsGroupFit, IsGroupMade};

use crate::held::Held;
use crate::state::state_on_one;
use column_table::{Table, group};
use extended_plan::Job;
use key_clusters::Keys;
use mq_base::{NoMemory, NodeId, PlanOp};
use std::alloc::Global;

// The table of a group, which is one for each combination of the grouped cells that occurs.
pub(crate) fn run_group(
    alloc: Global,
    job: &Job<'_>,
    keys: &Keys,
    node: NodeId,
    input: Held,
) -> Result<Held, (Held, NoMemory)>
    requires of_job { IsOfJob (setting_of job.now) input }
    requires opened { IsOpenedBy (setting_of job.now) keys.now.keys input }
    requires runnable { IsRunnableOn (setting_of job.now) (step.Un node) input }
    requires typed { AreTyped (setting_of job.now).policy.schema (setting_of job.now).basis.nodes }
    requires group { groups (op_at (setting_of job.now) node.0) ≡ true }
    ensures node { IfOk result (λ made. node_of made ≡ node) }
    ensures state { IfOk result (λ made. state_after (setting_of job.now) (node_of input) (step.Un node) (state_of input) ≡ Some (state_of made)) }
    ensures rows { IfOk result (λ made. table_of made ≡ apply_one (cell_tests (seals_of job.now.clusters keys.now.keys)) (op_at (setting_of job.now) node.0) (table_of input)) }
    ensures of_job { IfOk result (IsOfJob (setting_of job.now)) }
    ensures opened { IfOk result (IsOpenedBy (setting_of job.now) keys.now.keys) }
    ensures back { IfErr result (λ failed. failed.0 ≡ input) }
{
    match group_on(alloc, job.facts.operation(node), &input.table) {
        Ok(table) => {
            let state = state_on_one(job, node, &input);
            Ok(Held { node, state, table })
        }
        Err(no_memory) => Err((input, no_memory)),
    }
}

// The table of an operation that groups.
fn group_on(alloc: Global, op: &PlanOp, table: &Table) -> Result<Table, NoMemory>
    requires { IsGroupFit op.now table.now }
    ensures rows { IfOk result (λ made. (seals : Seals) → rows_of made ≡ apply_one (cell_tests seals) op.now (rows_of table.now)) }
    ensures made { IfOk result (IsGroupMade op.now table.now) }
{
    match op {
        PlanOp::Group(by, aggs, counted) => group(alloc, table, *by, aggs.as_slice(), *counted),
        _ => unreachable!(),
    }
}
