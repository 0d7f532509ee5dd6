//! That the plan of a query is typed, as the engine asks of a job. It does nothing.
ghost use Rattle.extended_plan.specs.Job.{setting_of};
ghost use Rattle.mq_base.specs.BoundQuery.{IsBound};
ghost use Rattle.provider_engine.specs.Typed.{AreTyped};

use extended_plan::Job;
use provider_engine::{constants_have_bytes, plans_are_typed};

/// That the plan of a job is typed.
pub(crate) fn is_typed(job: &Job<'_>)
    requires { IsBound job.now.policy.now.schema job.now.query.now }
    ensures { AreTyped (setting_of job.now).policy.schema (setting_of job.now).basis.nodes }
{
    constants_have_bytes(job.query);
    plans_are_typed();
}
