//! The steps on one table.

ghost use Rattle.std.specs.Prelude.{◌≡◌, IfErr, IfOk, Some};
ghost use Rattle.column_table.specs.Cells.{cell_tests};
ghost use Rattle.column_table.specs.Columns.{shown_columns};
ghost use Rattle.column_table.specs.Tables.{rows_of};
ghost use Rattle.extended_plan.specs.Job.{setting_of};
ghost use Rattle.extended_plan.specs.Setting.{op_at};
ghost use Rattle.key_clusters.specs.declared.assigned.Clusters.{Clusters};
ghost use Rattle.mq_base.specs.declared.plan.PlanOp.TheVariants as op;
ghost use Rattle.mq_base.specs.declared.plan.Step.TheVariants as step;
ghost use Rattle.plan_algebra.specs.Tree.{apply_one};
ghost use Rattle.provider_engine.specs.Held.{node_of, state_of, table_of};
ghost use Rattle.provider_engine.specs.OfJob.{IsOfJob, IsOpenedBy};
ghost use Rattle.provider_engine.specs.Opening.{seals_of};
ghost use Rattle.provider_engine.specs.Steps.{IsRunnableOn, node_after, rows_after, state_after};
ghost use Rattle.provider_engine.specs.Typed.{AreTyped};
ghost use Rattle.provider_engine.specs.inside.Choosing.{AreSealedUnder, IsAtRows, IsSelection};

use crate::choose::select;
use crate::group::run_group;
use crate::held::Held;
use crate::seal::{run_dec, run_enc};
use crate::state::state_on_one;
use extended_plan::{Job, State};
use key_clusters::Keys;
use mq_base::{AttrSet, NoMemory, NodeId, PlanOp, Step, SubjectId};
use std::alloc::Global;

/// The table after an encryption, a decryption, a send or the operation of a node on one table, at this place in the list of steps. The
/// step is runnable on the table, whose columns open under these keys. docs/MODEL.md, "Encoded run".
///
/// `NoMemory` where the allocator refused a request, with the table handed back. The time is that of a seal for each distinct value, or of
/// keeping the rows in order by what they are grouped by, and else linear in the cells.
pub fn run_unary(
    alloc: Global,
    job: &Job<'_>,
    keys: &Keys,
    place: u32,
    step: &Step,
    input: Held,
) -> Result<Held, (Held, NoMemory)>
    requires of_job { IsOfJob (setting_of job.now) input }
    requires opened { IsOpenedBy (setting_of job.now) keys.now.keys input }
    requires runnable { IsRunnableOn (setting_of job.now) step.now input }
    requires typed { AreTyped (setting_of job.now).policy.schema (setting_of job.now).basis.nodes }
    ensures node { IfOk result (λ made. node_of made ≡ node_after step.now (node_of input)) }
    ensures state { IfOk result (λ made. state_after (setting_of job.now) (node_of input) step.now (state_of input) ≡ Some (state_of made)) }
    ensures rows { IfOk result (λ made. table_of made ≡ rows_after (setting_of job.now) (seals_of job.now.clusters keys.now.keys) place step.now (table_of input)) }
    ensures of_job { IfOk result (IsOfJob (setting_of job.now)) }
    ensures opened { IfOk result (IsOpenedBy (setting_of job.now) keys.now.keys) }
    ensures back { IfErr result (λ failed. failed.0 ≡ input) }
{
    match step {
        Step::Enc(a) => run_enc(alloc, job, keys, place, *a, input),
        Step::Dec(a) => run_dec(alloc, job, keys, *a, input),
        Step::Send(to) => Ok(run_send(job, *to, input)),
        Step::Un(node) => run_one(alloc, job, keys, *node, input),
        Step::Base(_) | Step::Bin(_) => unreachable!(),
    }
}

// The table after a send.
fn run_send(job: &Job<'_>, to: SubjectId, input: Held) -> Held
    requires of_job { IsOfJob (setting_of job.now) input }
    requires runnable { IsRunnableOn (setting_of job.now) (step.Send to) input }
    ensures node { node_of result ≡ node_of input }
    ensures state { state_after (setting_of job.now) (node_of input) (step.Send to) (state_of input) ≡ Some (state_of result) }
    ensures table { result.table ≡ input.table }
    ensures of_job { IsOfJob (setting_of job.now) result }
{
    let Held { node, state, table } = input;
    Held {
        node,
        state: State {
            holder: to,
            view: state.view,
        },
        table,
    }
}

// The table of a node with one operand.
fn run_one(
    alloc: Global,
    job: &Job<'_>,
    keys: &Keys,
    node: NodeId,
    input: Held,
) -> Result<Held, (Held, NoMemory)>
    requires of_job { IsOfJob (setting_of job.now) input }
    requires opened { IsOpenedBy (setting_of job.now) keys.now.keys input }
    requires runnable { IsRunnableOn (setting_of job.now) (step.Un node) input }
    requires typed { AreTyped (setting_of job.now).policy.schema (setting_of job.now).basis.nodes }
    ensures node { IfOk result (λ made. node_of made ≡ node) }
    ensures state { IfOk result (λ made. state_after (setting_of job.now) (node_of input) (step.Un node) (state_of input) ≡ Some (state_of made)) }
    ensures rows { IfOk result (λ made. table_of made ≡ apply_one (cell_tests (seals_of job.now.clusters keys.now.keys)) (op_at (setting_of job.now) node.0) (table_of input)) }
    ensures of_job { IfOk result (IsOfJob (setting_of job.now)) }
    ensures opened { IfOk result (IsOpenedBy (setting_of job.now) keys.now.keys) }
    ensures back { IfErr result (λ failed. failed.0 ≡ input) }
{
    match job.facts.operation(node) {
        PlanOp::Project(kept) => Ok(run_project(job, keys, node, *kept, input)),
        PlanOp::Group(..) => run_group(alloc, job, keys, node, input),
        _ => run_select(alloc, job, keys, node, input),
    }
}

// The table of a projection.
fn run_project(job: &Job<'_>, keys: &Keys, node: NodeId, kept: AttrSet, input: Held) -> Held
    requires of_job { IsOfJob (setting_of job.now) input }
    requires opened { IsOpenedBy (setting_of job.now) keys.now.keys input }
    requires runnable { IsRunnableOn (setting_of job.now) (step.Un node) input }
    requires project { op_at (setting_of job.now) node.0 ≡ op.Project kept }
    ensures node { node_of result ≡ node }
    ensures state { state_after (setting_of job.now) (node_of input) (step.Un node) (state_of input) ≡ Some (state_of result) }
    ensures rows { table_of result ≡ apply_one (cell_tests (seals_of job.now.clusters keys.now.keys)) (op_at (setting_of job.now) node.0) (table_of input) }
    ensures of_job { IsOfJob (setting_of job.now) result }
    ensures opened { IsOpenedBy (setting_of job.now) keys.now.keys result }
{
    let state = state_on_one(job, node, &input);
    Held {
        node,
        state,
        table: input.table.project(kept),
    }
}

// The table of a selection.
fn run_select(
    alloc: Global,
    job: &Job<'_>,
    keys: &Keys,
    node: NodeId,
    input: Held,
) -> Result<Held, (Held, NoMemory)>
    requires of_job { IsOfJob (setting_of job.now) input }
    requires opened { IsOpenedBy (setting_of job.now) keys.now.keys input }
    requires runnable { IsRunnableOn (setting_of job.now) (step.Un node) input }
    requires selection { IsSelection (op_at (setting_of job.now) node.0) }
    ensures node { IfOk result (λ made. node_of made ≡ node) }
    ensures state { IfOk result (λ made. state_after (setting_of job.now) (node_of input) (step.Un node) (state_of input) ≡ Some (state_of made)) }
    ensures rows { IfOk result (λ made. table_of made ≡ apply_one (cell_tests (seals_of job.now.clusters keys.now.keys)) (op_at (setting_of job.now) node.0) (table_of input)) }
    ensures of_job { IfOk result (IsOfJob (setting_of job.now)) }
    ensures opened { IfOk result (IsOpenedBy (setting_of job.now) keys.now.keys) }
    ensures back { IfErr result (λ failed. failed.0 ≡ input) }
{
    match select(alloc, keys, job.facts.operation(node), &input.table) {
        Ok(table) => Ok(Held {
            node,
            state: state_on_one(job, node, &input),
            table,
        }),
        Err(no_memory) => Err((input, no_memory)),
    }
}
