ghost use Rattle.std.specs.Prelude.{◌≡◌, ◌<◌, ◌≤◌, [], length, map, IfOk};
ghost use Rattle.std.specs.List.{AllByRecursion};
ghost use Rattle.assign_table.specs.Found.{HasFew, IsLeastPlan, most_cost};
ghost use Rattle.command_input.specs.Loading.{IsSoundRun, IsSound};
ghost use Rattle.extended_plan.specs.Job.{setting_of};
ghost use Rattle.mq_base.specs.BoundQuery.{IsBound};
ghost use Rattle.mq_base.specs.Table.{HasForm};
ghost use Rattle.mq_base.specs.declared.table.PlainTable.{PlainTable};
ghost use Rattle.plan_algebra.specs.Meaning.{MeansQuery};
ghost use Rattle.policy_base.specs.Accepted.{IsAccepted};
ghost use Rattle.planner_cli.specs.Ends.{EndsUnder, RunEnds, Ends, HaveOneStatus};

use crate::status::Status;
use assign_table::{SearchNo, search};
use command_input::{RunTask, Task};
use extended_plan::{Found, Job};
use mq_base::{NoMemory, PlainTable, Seq, Step};
use plan_runner::{RunStop, run_plan};
use std::alloc::Global;

// How a command ends: its status and the text of its report.
#[derive(Drop)]
pub struct End {
    pub status: Status,
    pub text: Vec<u8>,
}

// An end at which nothing is written.
fn silent(alloc: Global, status: Status) -> End
    ensures status { result.status ≡ status }
    ensures text { result.text.items ≡ [] }
{
    End {
        status,
        text: Vec::new(alloc),
    }
}

// The end of a run of a least plan.
fn planned_end(
    alloc: Global,
    job: &Job<'_>,
    seed: &[u8; 32],
    tables: Seq<PlainTable>,
    steps: &[Step],
    cost: u128,
) -> Result<End, NoMemory>
    requires accepted { IsAccepted job.now.policy.now }
    requires bound { IsBound job.now.policy.now.schema job.now.query.now }
    requires means { MeansQuery job.now.policy.now.schema job.now.query.now job.now.facts.plan }
    requires listed { map (λ (table : PlainTable). table.table) tables ≡ job.now.query.now.tables }
    requires form { AllByRecursion (HasForm job.now.policy.now.schema) tables }
    requires plan { IsLeastPlan (setting_of job.now) steps.now cost }
    requires within { cost < most_cost }
    requires short { length steps.now ≤ 200000 }
    requires few { HasFew (setting_of job.now) }
    ensures { IfOk result (λ end. EndsUnder (setting_of job.now) job.now.query.now tables end.status end.text.items) }
{
    match run_plan(alloc, job, seed, tables, steps) {
        Ok(rows) => {
            let items = job.query.items.as_slice();
            Ok(End {
                status: Status::Done,
                text: run_report::text(alloc, job.policy, items, steps, cost, rows)?,
            })
        }
        Err(RunStop::RowRange(node)) => Ok(silent(alloc, Status::RowRange(node))),
        Err(RunStop::NoMemory) => Err(NoMemory),
    }
}

// The end of a query over its tables: a least plan is sought, and run where there is one.
fn job_end(
    alloc: Global,
    job: &Job<'_>,
    seed: &[u8; 32],
    tables: Seq<PlainTable>,
) -> Result<End, NoMemory>
    requires accepted { IsAccepted job.now.policy.now }
    requires bound { IsBound job.now.policy.now.schema job.now.query.now }
    requires means { MeansQuery job.now.policy.now.schema job.now.query.now job.now.facts.plan }
    requires listed { map (λ (table : PlainTable). table.table) tables ≡ job.now.query.now.tables }
    requires form { AllByRecursion (HasForm job.now.policy.now.schema) tables }
    ensures { IfOk result (λ end. EndsUnder (setting_of job.now) job.now.query.now tables end.status end.text.items) }
{
    match search(alloc, job) {
        Ok(
            Found::Plan {
                steps,
                cost,
                labels: _,
            },
        ) => { planned_end(alloc, job, seed, tables, steps.as_slice(), cost) }
        Ok(Found::Nothing { labels: _ }) => Ok(End {
            status: Status::NoPlan,
            text: run_report::none_text(alloc)?,
        }),
        Err(SearchNo::TooManyStates { node }) => Ok(silent(alloc, Status::TooManyStates(node))),
        Err(SearchNo::CostRange) => Ok(silent(alloc, Status::CostRange)),
        Err(SearchNo::NoMemory) => Err(NoMemory),
    }
}

// The end of a command `run`.
fn run_end(alloc: Global, task: RunTask) -> Result<End, NoMemory>
    requires { IsSoundRun task }
    ensures { IfOk result (λ end. RunEnds task end.status end.text.items) }
{
    let RunTask {
        policy,
        prices,
        query,
        tables,
        seed,
        schedule: _,
    } = task;
    let job = Job::of(alloc, &policy, &prices, &query)?;
    job_end(alloc, &job, &seed, tables)
}

// The end of a command.
pub fn end_of(alloc: Global, task: Task) -> Result<End, NoMemory>
    requires { IsSound task }
    ensures { IfOk result (λ end. Ends task end.status end.text.items) }
{
    match task {
        Task::Run(run) => run_end(alloc, run),
    }
}

/// Two ends of one task have one status, so that each status of an end comes exactly where its cause holds.
/// The call does nothing: its clause is the law.
pub fn one_status()
    ensures { HaveOneStatus }
{}
