//! The states that the operations of nodes lead to.

ghost use Rattle.std.specs.Prelude.{◌≡◌, Some};
ghost use Rattle.extended_plan.specs.Job.{IsStateAt, setting_of};
ghost use Rattle.mq_base.specs.declared.plan.Step.TheVariants as step;
ghost use Rattle.provider_engine.specs.Held.{node_of, state_of};
ghost use Rattle.provider_engine.specs.OfJob.{IsOfJob};
ghost use Rattle.provider_engine.specs.Steps.{IsRunnableOn, state_after};

use crate::held::Held;
use extended_plan::{Job, State};
use mq_base::NodeId;
use relation_profile::after_unary;

// The state after the operation of a node on one table, on which it is runnable.
pub(crate) fn state_on_one(job: &Job<'_>, node: NodeId, input: &Held) -> State
    requires of_job { IsOfJob (setting_of job.now) input.now }
    requires runnable { IsRunnableOn (setting_of job.now) (step.Un node) input.now }
    ensures answers { state_after (setting_of job.now) (node_of input.now) (step.Un node) (state_of input.now) ≡ Some result }
    ensures stands { IsStateAt (setting_of job.now) node.0 result }
{
    match after_unary(&job.facts, &job.clusters.scheme, node, &input.state.view) {
        Some(view) => State {
            holder: input.state.holder,
            view,
        },
        None => unreachable!(),
    }
}
