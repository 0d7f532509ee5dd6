//! Whether a step may be taken on tables, asked of public calls.
ghost use Rattle.std.specs.Prelude.{◌≡◌, ◌<◌, IsSome, IsTrue, length};
ghost use Rattle.extended_plan.specs.Job.{IsStateAt, setting_of};
ghost use Rattle.extended_plan.specs.Setting as setting;
ghost use Rattle.extended_plan.specs.Setting.{kind_at};
ghost use Rattle.extended_plan.specs.Validity.{may_get};
ghost use Rattle.plan_algebra.specs.declared.kind.Kind.TheVariants as kind;
ghost use Rattle.provider_engine.specs.Held.{node_of, state_of};
ghost use Rattle.provider_engine.specs.OfJob.{IsOfJob};
ghost use Rattle.provider_engine.specs.Steps.{IsOnOne, IsRunnableOn, IsRunnableOnTwo, IsTakenFrom, state_after, state_after_two};

use extended_plan::Job;
use mq_base::{NodeId, Step, SubjectId};
use plan_algebra::Kind;
use provider_engine::Held;
use relation_profile::{after_binary, after_dec, after_enc, after_unary};

/// Whether a step is runnable on a table.
pub(crate) fn is_runnable(job: &Job<'_>, step: &Step, held: &Held) -> bool
    requires { IsOfJob (setting_of job.now) held.now }
    ensures { IsTrue result → IsRunnableOn (setting_of job.now) step.now held.now }
{
    is_taken_from(job, step, held.node()) && runs(job, step, held)
}

fn is_taken_from(job: &Job<'_>, step: &Step, from: NodeId) -> bool
    ensures { IsTrue result → IsTakenFrom (setting_of job.now) step.now from }
{
    match step {
        Step::Un(n) => is_on_one(job, *n, from),
        _ => true,
    }
}

fn is_on_one(job: &Job<'_>, n: NodeId, from: NodeId) -> bool
    ensures { IsTrue result → IsOnOne (setting_of job.now) n from }
{
    if usize::from(n.0) >= job.facts.node_count() {
        return false;
    }
    match job.facts.kind(n) {
        Kind::One(x) => x.0 == from.0,
        _ => false,
    }
}

fn runs(job: &Job<'_>, step: &Step, held: &Held) -> bool
    requires of_job { IsOfJob (setting_of job.now) held.now }
    requires taken { IsTakenFrom (setting_of job.now) step.now (node_of held.now) }
    ensures { IsTrue result → IsSome (state_after (setting_of job.now) (node_of held.now) step.now (state_of held.now)) }
{
    let node = held.node();
    let view = held.view();
    match step {
        Step::Enc(a) => after_enc(&job.facts, node, *a, &view).is_some(),
        Step::Dec(a) => after_dec(&job.facts, node, *a, &view).is_some(),
        Step::Send(to) => may_get(job, held.holder(), *to),
        Step::Un(n) => after_unary(&job.facts, &job.clusters.scheme, *n, &view).is_some(),
        Step::Base(_) | Step::Bin(_) => false,
    }
}

fn may_get(job: &Job<'_>, from: SubjectId, to: SubjectId) -> bool
    ensures { result ≡ may_get (setting_of job.now) from to }
{
    usize::from(to.0) < job.policy.subjects.as_slice().len() && to.0 != from.0
}

/// Whether a node is runnable on two tables, which one subject holds.
pub(crate) fn is_runnable_on_two(job: &Job<'_>, n: NodeId, left: &Held, right: &Held) -> bool
    requires left { IsOfJob (setting_of job.now) left.now }
    requires right { IsOfJob (setting_of job.now) right.now }
    ensures { IsTrue result → IsRunnableOnTwo (setting_of job.now) n left.now right.now }
{
    left.holder().0 == right.holder().0
        && is_on_two(job, n, left.node(), right.node())
        && runs_on_two(job, n, left, right)
}

fn is_on_two(job: &Job<'_>, n: NodeId, left: NodeId, right: NodeId) -> bool
    ensures node { IsTrue result → n.0 < length job.now.facts.plan.nodes }
    ensures stands { IsTrue result → kind_at (setting_of job.now) n.0 ≡ kind.Two left right }
{
    if usize::from(n.0) >= job.facts.node_count() {
        return false;
    }
    match job.facts.kind(n) {
        Kind::Two(x, y) => x.0 == left.0 && y.0 == right.0,
        _ => false,
    }
}

fn runs_on_two(job: &Job<'_>, n: NodeId, left: &Held, right: &Held) -> bool
    requires left { IsOfJob (setting_of job.now) left.now }
    requires right { IsOfJob (setting_of job.now) right.now }
    requires node { n.0 < length job.now.facts.plan.nodes }
    requires stands { kind_at (setting_of job.now) n.0 ≡ kind.Two (node_of left.now) (node_of right.now) }
    ensures { IsTrue result → IsSome (state_after_two (setting_of job.now) n (state_of left.now) (state_of right.now)) }
{
    let (left, right) = (left.view(), right.view());
    after_binary(&job.facts, &job.clusters.scheme, n, &left, &right).is_some()
}
