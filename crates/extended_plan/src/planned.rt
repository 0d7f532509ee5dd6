ghost use Rattle.std.specs.Prelude.{◌≡◌, IfOk};
ghost use Rattle.mq_base.specs.BoundQuery.{IsBound};
ghost use Rattle.plan_algebra.specs.Leaves.{leaf_tables};
ghost use Rattle.plan_algebra.specs.Meaning.{MeansQuery};
ghost use Rattle.plan_algebra.specs.Uses.{UsesOf};
ghost use Rattle.policy_base.specs.Accepted.{IsAccepted};
ghost use Rattle.extended_plan.specs.Parts.{IsPlanOf};

use mq_base::{NoMemory, Query};
use plan_algebra::{PlanFacts, plan_of};
use policy_base::Policy;
use std::alloc::Global;

// The plan of a query with its facts.
pub fn facts_of(alloc: Global, policy: &Policy, query: &Query) -> Result<PlanFacts, NoMemory>
    requires accepted { IsAccepted policy.now }
    requires bound { IsBound policy.now.schema query.now }
    ensures planned { IfOk result (IsPlanOf policy.now query.now) }
    ensures leaves { IfOk result (λ facts. leaf_tables facts.plan.nodes ≡ query.now.tables) }
    ensures uses { IfOk result (λ facts. UsesOf policy.now.schema query.now facts.plan) }
    ensures means { IfOk result (λ facts. MeansQuery policy.now.schema query.now facts.plan) }
{
    let plan = plan_of(alloc, query, &policy.schema)?;
    match PlanFacts::of(alloc, plan) {
        Ok(facts) => Ok(facts),
        Err((_, no_memory)) => Err(no_memory),
    }
}
