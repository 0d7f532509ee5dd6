ghost use Rattle.std.specs.Prelude.{◌≡◌, ◌<◌, ◌^◌, ℕ, Err, IfOk, OnOk, [], length, map};
ghost use Rattle.std.specs.List.{AllByRecursion};
ghost use Rattle.extended_plan.specs.Job.{setting_of};
ghost use Rattle.key_clusters.specs.Laws.{IfPair, ShareKey};
ghost use Rattle.mq_base.specs.BoundQuery.{IsBound};
ghost use Rattle.mq_base.specs.Table.{HasForm};
ghost use Rattle.mq_base.specs.declared.ids.NodeId.{NodeId};
ghost use Rattle.mq_base.specs.declared.table.PlainTable.{PlainTable};
ghost use Rattle.plan_algebra.specs.Facts.{node_at};
ghost use Rattle.plan_algebra.specs.Meaning.{MeansQuery};
ghost use Rattle.plan_runner.specs.declared.stop.RunStop.TheVariants.{RowRange};
ghost use Rattle.plan_runner.specs.inside.UnderWay.{IsRanTo, IsUnderWay};
ghost use Rattle.plan_runner.specs.Running.{IsFirstWide, IsNarrow, IsSpelt};
ghost use Rattle.policy_base.specs.Accepted.{IsAccepted};
ghost use Rattle.provider_engine.specs.Decoding.{IsRun};
ghost use Rattle.row_algebra.specs.Contents.{Contents, contents_of};
ghost use Rattle.row_algebra.specs.Meaning.{query_rows};

use crate::bytes::tables_have_bytes;
use crate::pile::Pile;
use crate::rows::rows_of;
use crate::step::run_step;
use crate::stop::RunStop;
use extended_plan::Job;
use key_clusters::{Keys, compared_share_a_key};
use mq_base::{NodeId, PlainTable, Seq, Step, Value};
use provider_engine::{Held, constants_have_bytes};
use std::alloc::Global;

/// The rows that a query asks for, by its valid extended plan of these steps, run over the query's tables, which are in the order of FROM,
/// under the keys that the seed gives. docs/MODEL.md, "Encoded run".
///
/// `RowRange` where the plain table of a node has more than 2^48 - 1 rows, with the least such node; `NoMemory` where the allocator refused
/// a request. The time is that of the engine's steps, and of the selected cells.
pub fn run_plan(
    alloc: Global,
    job: &Job<'_>,
    seed: &[u8; 32],
    tables: Seq<PlainTable>,
    steps: &[Step],
) -> Result<Vec<Seq<Value>>, RunStop>
    requires accepted { IsAccepted job.now.policy.now }
    requires bound { IsBound job.now.policy.now.schema job.now.query.now }
    requires means { MeansQuery job.now.policy.now.schema job.now.query.now job.now.facts.plan }
    requires listed { map (λ (table : PlainTable). table.table) tables ≡ job.now.query.now.tables }
    requires form { AllByRecursion (HasForm job.now.policy.now.schema) tables }
    requires spelt { IsSpelt (setting_of job.now) steps.now }
    requires few { length steps.now < 2 ^ 32 }
    ensures rows { IfOk result (λ rows. rows.items ≡ query_rows (contents_of job.now.policy.now.schema tables) job.now.query.now) }
    ensures narrow { OnOk result (IsNarrow (setting_of job.now) (contents_of job.now.policy.now.schema tables)) }
    ensures range { (n : NodeId) → result ≡ Err (RowRange n) → IsFirstWide (setting_of job.now) (contents_of job.now.policy.now.schema tables) n.0 }
{
    tables_have_bytes(tables.as_slice());
    constants_have_bytes(job.query);
    compared_share_keys(job, seed);
    let keys = Keys::of(seed, &job.clusters);
    let root = run_steps(alloc, job, &keys, tables, steps)?;
    Ok(rows_of(alloc, &root, job.query.items.as_slice())?)
}

// The table of the root, by all steps in order.
fn run_steps(
    alloc: Global,
    job: &Job<'_>,
    keys: &Keys,
    tables: Seq<PlainTable>,
    steps: &[Step],
) -> Result<Held, RunStop>
    ghost contents: { Contents }
    requires run { IsRun (setting_of job.now) keys.now.keys contents }
    requires few { length steps.now < 2 ^ 32 }
    requires starts { IsUnderWay (setting_of job.now) keys.now.keys contents steps.now 0 tables [] }
    ensures ran { IfOk result (IsRanTo (setting_of job.now) keys.now.keys contents (length steps.now)) }
    ensures range { (n : NodeId) → result ≡ Err (RowRange n) → IsFirstWide (setting_of job.now) contents n.0 }
{
    let mut waiting = Pile::of(tables.into_vec());
    let mut stack = Pile::new(alloc);
    for place in 0..steps.len() {
        run_step(alloc, job, keys, steps, place, &mut waiting, &mut stack)?;
    }
    Ok(stack.take())
}

// That the attributes that a node compares share a key. It does nothing.
fn compared_share_keys(job: &Job<'_>, seed: &[u8; 32])
    ensures { (n : ℕ) → n < length job.now.facts.plan.nodes
        → IfPair (node_at job.now.facts.plan.nodes n).op (ShareKey job.now.facts job.now.policy.now.ceiling seed.now) }
{
    for n in 0..job.facts.node_count() {
        compared_share_a_key(&job.facts, &job.policy.ceiling, seed, NodeId(n as u8));
    }
}
