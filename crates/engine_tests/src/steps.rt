//! Single steps of the engine. Each asks first whether it may be taken.
ghost use Rattle.std.specs.Prelude.{IfOk};
ghost use Rattle.extended_plan.specs.Job.{setting_of};
ghost use Rattle.policy_base.specs.Accepted.{IsAccepted};
ghost use Rattle.provider_engine.specs.OfJob.{IsOfJob, IsOpenedBy};
ghost use Rattle.provider_engine.specs.Typed.{AreTyped};

use crate::given::Branch;
use crate::premises::{is_runnable, is_runnable_on_two};
use crate::told::told;
use column_table::RunNo;
use extended_plan::{Job, leaf_of};
use key_clusters::Keys;
use mq_base::{NodeId, Step, TableId};
use provider_engine::{Held, run_binary, run_leaf, run_unary};
use std::alloc::Global;
use std::process::Abort;
use std::test::Fail;
use table_reader::read_table;

/// The table of the leaf of a table with this file.
pub(crate) fn leaf(
    rt: &impl Abort,
    alloc: Global,
    job: &Job<'_>,
    keys: &Keys,
    place: u32,
    t: TableId,
    file: &str,
) -> Result<Held, Fail>
    requires { IsAccepted job.now.policy.now }
    ensures of_job { IfOk result (IsOfJob (setting_of job.now)) }
    ensures opened { IfOk result (IsOpenedBy (setting_of job.now) keys.now.keys) }
{
    let table = read_table(alloc, file.as_bytes(), &job.policy.schema, t)?;
    assert!(rt; leaf_of(job, table.table).is_some());
    match run_leaf(alloc, job, keys, place, table) {
        Ok(made) => Ok(made),
        Err((_, no_memory)) => Err(Fail::from(no_memory)),
    }
}

// The table after a step on one table.
fn on_one(
    rt: &impl Abort,
    alloc: Global,
    job: &Job<'_>,
    keys: &Keys,
    place: u32,
    step: &Step,
    held: Held,
) -> Result<Held, Fail>
    requires of_job { IsOfJob (setting_of job.now) held }
    requires opened { IsOpenedBy (setting_of job.now) keys.now.keys held }
    requires typed { AreTyped (setting_of job.now).policy.schema (setting_of job.now).basis.nodes }
    ensures of_job { IfOk result (IsOfJob (setting_of job.now)) }
    ensures opened { IfOk result (IsOpenedBy (setting_of job.now) keys.now.keys) }
{
    assert!(rt; is_runnable(job, step, &held), "at {place}");
    match run_unary(alloc, job, keys, place, step, held) {
        Ok(made) => Ok(made),
        Err((_, no_memory)) => Err(Fail::from(no_memory)),
    }
}

/// The table of a node on two tables, which is told as is said beside the node.
pub(crate) fn on_two(
    rt: &impl Abort,
    alloc: Global,
    job: &Job<'_>,
    keys: &Keys,
    both: (NodeId, &str),
    left: Held,
    right: Held,
) -> Result<Held, Fail>
    requires left { IsOfJob (setting_of job.now) left }
    requires right { IsOfJob (setting_of job.now) right }
    requires left_opened { IsOpenedBy (setting_of job.now) keys.now.keys left }
    requires right_opened { IsOpenedBy (setting_of job.now) keys.now.keys right }
    ensures of_job { IfOk result (IsOfJob (setting_of job.now)) }
    ensures opened { IfOk result (IsOpenedBy (setting_of job.now) keys.now.keys) }
{
    let (node, wanted) = both;
    assert!(rt; is_runnable_on_two(job, node, &left, &right), "{node:?}");
    match run_binary(alloc, job, node, left, right) {
        Ok(made) => {
            assert_eq!(rt; told(alloc, keys, &made)?.as_str(), wanted);
            Ok(made)
        }
        Err((_, _, no)) => Err(Fail::from(no)),
    }
}

/// That a node on two tables would have too many rows, and that both are handed back as they were.
pub(crate) fn check_refused(
    rt: &impl Abort,
    alloc: Global,
    job: &Job<'_>,
    keys: &Keys,
    node: NodeId,
    left: Held,
    right: Held,
) -> Result<(), Fail>
    requires left { IsOfJob (setting_of job.now) left }
    requires right { IsOfJob (setting_of job.now) right }
{
    let left_told = told(alloc, keys, &left)?;
    let right_told = told(alloc, keys, &right)?;
    assert!(rt; is_runnable_on_two(job, node, &left, &right), "{node:?}");
    match run_binary(alloc, job, node, left, right) {
        Ok(_) => panic!(rt; "{node:?}"),
        Err((left, right, no)) => {
            assert_eq!(rt; no, RunNo::RowRange);
            assert_eq!(rt; told(alloc, keys, &left)?, left_told);
            assert_eq!(rt; told(alloc, keys, &right)?, right_told);
        }
    }
    Ok(())
}

/// The table after the steps of a list, of which the first has this place. After each step it is told as the list says.
pub(crate) fn walk(
    rt: &impl Abort,
    alloc: Global,
    job: &Job<'_>,
    keys: &Keys,
    place: u32,
    held: Held,
    steps: &[(Step, &str)],
) -> Result<Held, Fail>
    requires of_job { IsOfJob (setting_of job.now) held }
    requires opened { IsOpenedBy (setting_of job.now) keys.now.keys held }
    requires typed { AreTyped (setting_of job.now).policy.schema (setting_of job.now).basis.nodes }
    ensures of_job { IfOk result (IsOfJob (setting_of job.now)) }
    ensures opened { IfOk result (IsOpenedBy (setting_of job.now) keys.now.keys) }
{
    let mut held = held;
    let mut place = place;
    for (step, wanted) in steps {
        held = on_one(rt, alloc, job, keys, place, step, held)?;
        assert_eq!(rt; told(alloc, keys, &held)?.as_str(), *wanted, "at {place}");
        place = place.wrapping_add(1);
    }
    Ok(held)
}

/// The table of a branch, whose leaf has this place. After each step it is told as the branch says.
pub(crate) fn grow(
    rt: &impl Abort,
    alloc: Global,
    job: &Job<'_>,
    keys: &Keys,
    place: u32,
    branch: &Branch,
) -> Result<Held, Fail>
    requires accepted { IsAccepted job.now.policy.now }
    requires typed { AreTyped (setting_of job.now).policy.schema (setting_of job.now).basis.nodes }
    ensures of_job { IfOk result (IsOfJob (setting_of job.now)) }
    ensures opened { IfOk result (IsOpenedBy (setting_of job.now) keys.now.keys) }
{
    let held = leaf(rt, alloc, job, keys, place, branch.table, branch.rows)?;
    assert_eq!(rt; told(alloc, keys, &held)?.as_str(), branch.leaf);
    walk(
        rt,
        alloc,
        job,
        keys,
        place.wrapping_add(1),
        held,
        branch.steps,
    )
}
