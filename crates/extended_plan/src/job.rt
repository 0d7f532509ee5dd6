ghost use Rattle.cost_model.specs.Costs.{basis_of};
ghost use Rattle.extended_plan.specs.Parts.{AreClustersOf, AreEstimatesOf, IsPlanOf, setting_by};
ghost use Rattle.extended_plan.specs.PropLaws.{IsReady-prop};
ghost use Rattle.extended_plan.specs.Ready.{IsReady};
ghost use Rattle.std.proofs.Props.{props};

use crate::planned::facts_of;
use cost_model::{CostBase, Estimates, estimates};
use key_clusters::{Clusters, clusters};
use mq_base::{NoMemory, Query};
use plan_algebra::PlanFacts;
use policy_base::{Policy, Prices};
use std::alloc::Global;

/// A query over a policy with prices, its plan with the facts of each node, and what costs are reckoned from: all that extended
/// plans are judged by. docs/MODEL.md, "Extended plans".
#[derive(Drop)]
pub struct Job<'a> {
    pub policy: &'a Policy,
    pub prices: &'a Prices,
    pub query: &'a Query,
    /// The facts of the query's plan.
    pub facts: PlanFacts,
    /// The clusters of the plan, under the policy's ceilings.
    pub clusters: Clusters,
    /// The estimates of the plan, by the prices.
    pub estimates: Estimates,
    pub ghost ready: { IsReady (setting_by policy.now prices.now facts clusters estimates) } by { IsReady-prop (setting_by policy.now prices.now facts clusters estimates) },
    pub ghost planned: { IsPlanOf policy.now query.now facts },
    pub ghost clustered: { AreClustersOf policy.now facts clusters } by { Prim.hlevel props },
    pub ghost estimated: { AreEstimatesOf prices.now facts estimates },
}

impl<'a> Job<'a> {
    ghost use Rattle.std.specs.Prelude.{◌≡◌, length, IfOk};
    ghost use Rattle.mq_base.specs.BoundQuery.{IsBound};
    ghost use Rattle.plan_algebra.specs.Meaning.{MeansQuery};
    ghost use Rattle.policy_base.specs.Accepted.{IsAccepted};
    ghost use Rattle.policy_base.specs.Priced.{IsPriced};
    ghost use Rattle.extended_plan.specs.Job.{IsJobOf, setting_of};

    /// The job of a query that was bound to this policy's schema, by prices that were read for the policy: its plan, which means the
    /// query, with facts, clusters and estimates. docs/MODEL.md, "Extended plans".
    ///
    /// `NoMemory` where the allocator refused a request. The time is that of `plan_of`, of `PlanFacts::of` and of `clusters`.
    pub fn of(
        alloc: Global,
        policy: &'a Policy,
        prices: &'a Prices,
        query: &'a Query,
    ) -> Result<Job<'a>, NoMemory>
        requires accepted { IsAccepted policy.now }
        requires priced { IsPriced (length policy.now.schema.attrs) prices.now }
        requires bound { IsBound policy.now.schema query.now }
        ensures given { IfOk result (IsJobOf policy.now prices.now query.now) }
        ensures means { IfOk result (λ job. MeansQuery policy.now.schema query.now job.facts.plan) }
    {
        let facts = facts_of(alloc, policy, query)?;
        let clusters = clusters(&facts, &policy.ceiling);
        let estimates = estimates(&facts, prices);
        Ok(Job {
            policy,
            prices,
            query,
            facts,
            clusters,
            estimates,
        })
    }

    // What the costs of the job's steps are reckoned from.
    pub(crate) fn base(&self) -> CostBase<'_>
        ensures { basis_of result ≡ (setting_of self.now).basis }
    {
        CostBase {
            facts: &self.facts,
            clusters: &self.clusters,
            prices: self.prices,
            schema: &self.policy.schema,
            estimates: &self.estimates,
        }
    }
}
