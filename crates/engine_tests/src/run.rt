//! Runs what a test is given.
ghost use Rattle.std.specs.Prelude.{IfOk};
ghost use Rattle.extended_plan.specs.Job.{setting_of};
ghost use Rattle.policy_base.specs.Accepted.{IsAccepted};
ghost use Rattle.provider_engine.specs.OfJob.{IsOfJob, IsOpenedBy};
ghost use Rattle.provider_engine.specs.Typed.{AreTyped};

use crate::given::{Given, Join, Products, Run};
use crate::steps::{check_refused, grow, leaf, on_two, walk};
use crate::typed::is_typed;
use extended_plan::Job;
use key_clusters::Keys;
use mq_base::{NodeId, TableId};
use policy_reader::read_policy;
use price_reader::read_prices;
use provider_engine::Held;
use query_bind::bind;
use sql_reader::read_query;
use std::alloc::Global;
use std::process::Abort;
use std::test::Fail;

const SEED: [u8; 32] = [9; 32];

/// Each step makes what is told.
pub(crate) fn check(rt: &impl Abort, alloc: Global, given: &Given) -> Result<(), Fail> {
    let policy = read_policy(alloc, given.policy.as_bytes())?;
    let prices = read_prices(alloc, given.prices.as_bytes(), &policy)?;
    assert!(rt; given.query.len() < 1000);
    let raw = read_query(alloc, given.query)?;
    let query = bind(alloc, &raw, &policy.schema)?;
    let job = Job::of(alloc, &policy, &prices, &query)?;
    let keys = Keys::of(&SEED, &job.clusters);
    is_typed(&job);
    run(rt, alloc, &job, &keys, &given.run)
}

// Each step on the tables makes what is told.
fn run(rt: &impl Abort, alloc: Global, job: &Job<'_>, keys: &Keys, given: &Run) -> Result<(), Fail>
    requires accepted { IsAccepted job.now.policy.now }
    requires typed { AreTyped (setting_of job.now).policy.schema (setting_of job.now).basis.nodes }
{
    match given {
        Run::Branch(branch) => {
            grow(rt, alloc, job, keys, 0, branch)?;
            Ok(())
        }
        Run::Join(join) => run_join(rt, alloc, job, keys, join),
        Run::Products(products) => multiply(rt, alloc, job, keys, products),
    }
}

// Each step makes what is told: those on the left table, those on the right, at places from 10 on, the one on both, and those after it, from
// 20 on. So no two that seal have one place.
fn run_join(
    rt: &impl Abort,
    alloc: Global,
    job: &Job<'_>,
    keys: &Keys,
    join: &Join,
) -> Result<(), Fail>
    requires accepted { IsAccepted job.now.policy.now }
    requires typed { AreTyped (setting_of job.now).policy.schema (setting_of job.now).basis.nodes }
{
    let left = grow(rt, alloc, job, keys, 0, &join.left)?;
    let right = grow(rt, alloc, job, keys, 10, &join.right)?;
    let both = on_two(rt, alloc, job, keys, join.both, left, right)?;
    walk(rt, alloc, job, keys, 20, both, join.after)?;
    Ok(())
}

// The leaf of a table of one column, with so many rows.
fn long_leaf(
    rt: &impl Abort,
    alloc: Global,
    job: &Job<'_>,
    keys: &Keys,
    t: u8,
    rows: u32,
) -> Result<Held, Fail>
    requires { IsAccepted job.now.policy.now }
    ensures of_job { IfOk result (IsOfJob (setting_of job.now)) }
    ensures opened { IfOk result (IsOpenedBy (setting_of job.now) keys.now.keys) }
{
    let text = long_text(alloc, t, rows)?;
    leaf(rt, alloc, job, keys, 0, TableId(t), text.as_str())
}

// The file of a table of one column, whose name ends in its number.
fn long_text(alloc: Global, t: u8, rows: u32) -> Result<String, Fail> {
    let mut text = String::from_str(alloc, "k")?;
    text.push(char::from(t.wrapping_add(b'0')))?;
    for _ in 0..rows {
        text.push_str("\n1")?;
    }
    Ok(text)
}

// Each product is what is told, or is refused, with both of its tables handed back as they were.
fn multiply(
    rt: &impl Abort,
    alloc: Global,
    job: &Job<'_>,
    keys: &Keys,
    products: &Products,
) -> Result<(), Fail>
    requires { IsAccepted job.now.policy.now }
{
    let first = long_leaf(rt, alloc, job, keys, 1, products.rows[0])?;
    let second = long_leaf(rt, alloc, job, keys, 2, products.rows[1])?;
    let third = long_leaf(rt, alloc, job, keys, 3, products.rows[2])?;
    let two = on_two(
        rt,
        alloc,
        job,
        keys,
        (NodeId(2), products.two),
        first,
        second,
    )?;
    let Some(three) = products.three else {
        return check_refused(rt, alloc, job, keys, NodeId(4), two, third);
    };
    let three = on_two(rt, alloc, job, keys, (NodeId(4), three), two, third)?;
    let last = leaf(rt, alloc, job, keys, 0, TableId(0), products.last)?;
    let Some(four) = products.four else {
        return check_refused(rt, alloc, job, keys, NodeId(6), three, last);
    };
    on_two(rt, alloc, job, keys, (NodeId(6), four), three, last)?;
    Ok(())
}
