//! The operations on two tables.

ghost use Rattle.std.specs.Prelude.{◌≡◌, ◌<◌, List, IfErr, IfOk, Some, ℕ, length};
ghost use Rattle.column_table.specs.declared.run_no.RunNo.TheVariants.{RowRange};
ghost use Rattle.column_table.specs.Beside.{IsBeside};
ghost use Rattle.column_table.specs.Cells.{Seals, cell_tests};
ghost use Rattle.column_table.specs.Tables.{most_rows, rows_of};
ghost use Rattle.extended_plan.specs.Job.{IsStateAt, setting_of};
ghost use Rattle.extended_plan.specs.Setting.{op_at};
ghost use Rattle.plan_algebra.specs.Tree.{apply_two};
ghost use Rattle.provider_engine.specs.Held.{node_of, state_of, table_of};
ghost use Rattle.provider_engine.specs.OfJob.{IsOfJob, IsOpenedBy};
ghost use Rattle.provider_engine.specs.Steps.{IsRunnableOnTwo, state_after_two};
ghost use Rattle.provider_engine.specs.inside.Operations.{IsOnTables};

use crate::held::Held;
use column_table::{RunNo, Table, join, product};
use extended_plan::{Job, State};
use mq_base::{NodeId, PlanOp};
use relation_profile::after_binary;
use std::alloc::Global;

/// The table of a node on two tables, which one subject holds and on which the node is runnable. docs/MODEL.md, "Encoded run".
///
/// `RowRange` where the result would have more than 2^48 - 1 rows, before any of it is built; `NoMemory` where the allocator refused a
/// request; with either the tables are handed back. The time of a join by equality is that of keeping the right rows in order by their
/// cells and of the rows that come out, of another join that of comparing each pair; a product of tables without columns takes none.
pub fn run_binary(
    alloc: Global,
    job: &Job<'_>,
    node: NodeId,
    left: Held,
    right: Held,
) -> Result<Held, (Held, Held, RunNo)>
    requires left { IsOfJob (setting_of job.now) left }
    requires right { IsOfJob (setting_of job.now) right }
    requires runnable { IsRunnableOnTwo (setting_of job.now) node left right }
    ensures node { IfOk result (λ made. node_of made ≡ node) }
    ensures state { IfOk result (λ made. state_after_two (setting_of job.now) node (state_of left) (state_of right) ≡ Some (state_of made)) }
    ensures rows { IfOk result (λ made. (seals : Seals) → table_of made ≡ apply_two (cell_tests seals) (op_at (setting_of job.now) node.0) (table_of left) (table_of right)) }
    ensures of_job { IfOk result (IsOfJob (setting_of job.now)) }
    ensures opened { IfOk result (λ made. (keys : List (List ℕ)) → IsOpenedBy (setting_of job.now) keys left → IsOpenedBy (setting_of job.now) keys right
        → IsOpenedBy (setting_of job.now) keys made) }
    ensures range { IfErr result (λ failed. failed.2 ≡ RowRange → (seals : Seals)
        → most_rows < length (apply_two (cell_tests seals) (op_at (setting_of job.now) node.0) (table_of left) (table_of right))) }
    ensures left_back { IfErr result (λ failed. failed.0 ≡ left) }
    ensures right_back { IfErr result (λ failed. failed.1 ≡ right) }
{
    match on_tables(alloc, job.facts.operation(node), &left.table, &right.table) {
        Ok(table) => {
            let state = state_on_two(job, node, &left, &right);
            Ok(Held { node, state, table })
        }
        Err(no) => Err((left, right, no)),
    }
}

// The state after the operation of a node on two tables.
fn state_on_two(job: &Job<'_>, node: NodeId, left: &Held, right: &Held) -> State
    requires left { IsOfJob (setting_of job.now) left.now }
    requires right { IsOfJob (setting_of job.now) right.now }
    requires runnable { IsRunnableOnTwo (setting_of job.now) node left.now right.now }
    ensures state { state_after_two (setting_of job.now) node (state_of left.now) (state_of right.now) ≡ Some result }
    ensures stands { IsStateAt (setting_of job.now) node.0 result }
{
    let view = after_binary(
        &job.facts,
        &job.clusters.scheme,
        node,
        &left.state.view,
        &right.state.view,
    );
    match view {
        Some(view) => State {
            holder: left.state.holder,
            view,
        },
        None => unreachable!(),
    }
}

// The table of an operation on two tables.
fn on_tables(alloc: Global, op: &PlanOp, left: &Table, right: &Table) -> Result<Table, RunNo>
    requires { IsOnTables op.now left.now right.now }
    ensures rows { IfOk result (λ made. (seals : Seals) → rows_of made ≡ apply_two (cell_tests seals) op.now (rows_of left.now) (rows_of right.now)) }
    ensures beside { IfOk result (IsBeside left.now right.now) }
    ensures range { IfErr result (λ no. no ≡ RowRange → (seals : Seals)
        → most_rows < length (apply_two (cell_tests seals) op.now (rows_of left.now) (rows_of right.now))) }
{
    match op {
        PlanOp::Product => product(alloc, left, right),
        PlanOp::Join(a, cmp, b) => join(alloc, left, *a, *cmp, right, *b),
        _ => unreachable!(),
    }
}
