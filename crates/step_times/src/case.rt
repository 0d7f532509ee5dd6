//! A case that is timed, and whether it is a step on states of a job.

ghost use Rattle.std.specs.Prelude.{◌≡◌, ◌<◌, length, IsTrue};
ghost use Rattle.extended_plan.specs.Job.{AreOperands, IsOperand, IsStateAt, IsStepAt, IsTakenOn, setting_of};
ghost use Rattle.extended_plan.specs.Setting.{kind_at};
ghost use Rattle.step_times.specs.Cases.{IsCase};

use extended_plan::{Job, State};
use mq_base::{NodeId, Step};
use plan_algebra::Kind;

/// A step with its result at a node, on one of two states, and on a second one where it does a node with two operands.
#[derive(Clone, Copy)]
pub(crate) struct Case {
    pub(crate) node: NodeId,
    pub(crate) step: Step,
    pub(crate) first: State,
    pub(crate) other: State,
    pub(crate) second: Option<State>,
}

/// Whether both calls of a case are ones of the job's steps.
pub(crate) fn is_case(job: &Job<'_>, case: &Case) -> bool
    ensures { IsTrue result → IsCase (setting_of job.now) case.now }
{
    is_step_at(job, case.node, &case.step, &case.first, &case.second)
        && is_step_at(job, case.node, &case.step, &case.other, &case.second)
}

fn is_step_at(
    job: &Job<'_>,
    node: NodeId,
    step: &Step,
    first: &State,
    second: &Option<State>,
) -> bool
    ensures { IsTrue result → IsStepAt (setting_of job.now) node step.now first.now second.now }
{
    usize::from(node.0) < job.facts.node_count() && is_taken_on(job, node, step, first, second)
}

fn is_taken_on(
    job: &Job<'_>,
    node: NodeId,
    step: &Step,
    first: &State,
    second: &Option<State>,
) -> bool
    requires { node.0 < length job.now.facts.plan.nodes }
    ensures { IsTrue result → IsTakenOn (setting_of job.now) node step.now first.now second.now }
{
    match (step, second) {
        (Step::Enc(_), None) => is_state_at(job, node, first),
        (Step::Dec(_), None) => is_state_at(job, node, first),
        (Step::Send(_), None) => is_state_at(job, node, first),
        (Step::Un(n), None) => *n == node && is_operand(job, node, first),
        (Step::Bin(n), Some(other)) => *n == node && are_operands(job, node, first, other),
        _ => false,
    }
}

fn is_operand(job: &Job<'_>, node: NodeId, first: &State) -> bool
    requires { node.0 < length job.now.facts.plan.nodes }
    ensures { IsTrue result → IsOperand (setting_of job.now) (kind_at (setting_of job.now) node.0) first.now }
{
    match job.facts.kind(node) {
        Kind::One(x) => is_state_at(job, x, first),
        _ => false,
    }
}

fn are_operands(job: &Job<'_>, node: NodeId, left: &State, right: &State) -> bool
    requires { node.0 < length job.now.facts.plan.nodes }
    ensures { IsTrue result → AreOperands (setting_of job.now) (kind_at (setting_of job.now) node.0) left.now right.now }
{
    match job.facts.kind(node) {
        Kind::Two(x, y) => is_state_at(job, x, left) && is_state_at(job, y, right),
        _ => false,
    }
}

fn is_state_at(job: &Job<'_>, node: NodeId, state: &State) -> bool
    requires { node.0 < length job.now.facts.plan.nodes }
    ensures { IsTrue result → IsStateAt (setting_of job.now) node.0 state.now }
{
    usize::from(state.holder.0) < job.policy.subjects.as_slice().len()
        && state.view.enc.is_subset(job.facts.visible(node))
}
