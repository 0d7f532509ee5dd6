ghost use Rattle.std.specs.Prelude.{◌≡◌, ◌<◌, true, length, if◌then◌else◌, option_map, Some, None, IfSome, IsSome};
ghost use Rattle.base_laws.specs.Sets.{has};
ghost use Rattle.mq_base.specs.declared.plan.Step.TheVariants as step;
ghost use Rattle.cost_model.specs.Costs as costs;
ghost use Rattle.cost_model.specs.Costs.{cut, step_work};
ghost use Rattle.extended_plan.specs.Gains as gains;
ghost use Rattle.extended_plan.specs.Gains.{cross_gain, leaf_gain, shown, step_gain};
ghost use Rattle.extended_plan.specs.Job.{AreOperands, IsHeldAt, IsLeafState, IsStateAt, IsStepAt, setting_of, told};
ghost use Rattle.extended_plan.specs.Setting as setting;
ghost use Rattle.extended_plan.specs.States.{state};
ghost use Rattle.extended_plan.specs.Term.{Leaf};
ghost use Rattle.extended_plan.specs.Validity as validity;
ghost use Rattle.extended_plan.specs.Ran as ran;

use crate::job::Job;
use crate::state::State;
use cost_model::{send_cost, send_load, step_cost};
use mq_base::{AttrId, AttrSet, NodeId, PlanOp, Step, SubjectId, TableId};
use relation_profile::{View, after_binary, after_dec, after_enc, after_unary, leaf_view};
use view_authority::check_view;

/// The state of the leaf of a table, where its store may hold it, and else None. docs/MODEL.md, "States". It takes no memory, and
/// a time that is linear in the nodes of the plan.
pub fn leaf_state(job: &Job<'_>, t: TableId) -> Option<State>
    requires { IsSome (setting.leaf_of (setting_of job.now) t) }
    ensures answers { result ≡ leaf_gain (setting_of job.now) t }
    ensures within { IfSome result (IsLeafState (setting_of job.now) t) }
{
    let at = leaf_of(job, t)?;
    let node = NodeId(at as u8);
    where_held(job, node, leaf_at(job, t, node))
}

/// The state of the leaf of a table, which is at this node, at its store, whether that may hold it or not. docs/MODEL.md, "States". It
/// takes no memory.
pub fn leaf_at(job: &Job<'_>, t: TableId, node: NodeId) -> State
    requires { setting.leaf_of (setting_of job.now) t ≡ Some node.0 }
    ensures answers { result ≡ state (setting_of job.now) (Leaf t) }
    ensures stands { IsStateAt (setting_of job.now) node.0 result }
{
    State {
        holder: store_of(job, t),
        view: leaf_view(&job.facts, node, job.policy.rest),
    }
}

// A state, where its holder may hold the table that it stands for at a node.
fn where_held(job: &Job<'_>, node: NodeId, state: State) -> Option<State>
    requires holder { state.holder.0 < 16 }
    requires node { node.0 < length job.now.facts.plan.nodes }
    ensures { result ≡ (if validity.may_hold (setting_of job.now) state.holder (shown (setting_of job.now) node.0 state) then Some state else None) }
{
    if may_hold(job, node, &state) {
        Some(state)
    } else {
        None
    }
}

/// The place of the leaf of a table, where the plan has one. It takes no memory.
pub fn leaf_of(job: &Job<'_>, t: TableId) -> Option<usize>
    ensures { result ≡ setting.leaf_of (setting_of job.now) t }
{
    job.facts
        .plan
        .nodes
        .as_slice()
        .iter()
        .position(|node| is_base(t, &node.op))
}

// The subject that stores a table.
fn store_of(job: &Job<'_>, t: TableId) -> SubjectId
    requires { t.0 < length job.now.policy.now.store }
    ensures { result ≡ setting.store_of (setting_of job.now) t }
{
    job.policy.store.as_slice()[usize::from(t.0)]
}

// Whether an operation is the leaf of a table.
fn is_base(t: TableId, op: &PlanOp) -> bool
    ensures { result ≡ setting.is_base t op.now }
{
    match op {
        PlanOp::Base(u, _) => u.0 == t.0,
        _ => false,
    }
}

/// The state after a step and what the step costs, cut at 2^128 - 1: None exactly where the step is not runnable or the new holder
/// may not hold the result. `node` is the node of the result; the step seals, opens or sends a table in the state `first` at that
/// node, or does the node on `first` and, where it has two operands, on `second`. docs/MODEL.md, "States". It takes no memory, and
/// a time that is linear in the equivalent sets of the node and in the attributes of what is sent or grouped.
pub fn after_step(
    job: &Job<'_>,
    node: NodeId,
    step: &Step,
    first: &State,
    second: Option<&State>,
) -> Option<(State, u128)>
    requires { IsStepAt (setting_of job.now) node step.now first.now (option_map (λ s. s.now) second) }
    ensures within { IfSome result (λ gain. IsHeldAt (setting_of job.now) node.0 gain.0) }
    ensures answers { result ≡ option_map told (step_gain (setting_of job.now) node step.now first.now (option_map (λ s. s.now) second.entry)) }
{
    // Put together from its parts, the state is not copied with the bytes between them, for which the next read would wait.
    let State { holder, view } = run_step(job, node, step, first, second)?;
    let state = State { holder, view };
    if !may_hold(job, node, &state) {
        return None;
    }
    Some((state, work_of(job, node, step, first)))
}

/// The attributes of a node's table that a subject sees plain. Where it may hold the table, it can encrypt or decrypt each of them, and no
/// other. docs/MODEL.md, "States". It takes no memory, and a time that depends on nothing.
pub fn crossable(job: &Job<'_>, node: NodeId, holder: SubjectId) -> AttrSet
    requires node { node.0 < length (setting_of job.now).basis.nodes }
    requires holder { holder.0 < 16 }
    ensures { result.0 ≡ gains.crossable (setting_of job.now) node.0 holder }
{
    let plain = job.policy.plain(holder);
    job.facts.visible(node).intersection(plain)
}

/// The state across an attribute that the holder can encrypt or decrypt, and what that costs, cut at 2^128 - 1. The attribute is decrypted
/// where it is encrypted, and else encrypted. docs/MODEL.md, "States". It takes no memory, and a time that depends on nothing.
pub fn after_cross(job: &Job<'_>, node: NodeId, a: AttrId, first: &State) -> (State, u128)
    requires node { node.0 < length (setting_of job.now).basis.nodes }
    requires small { a.0 < 64 }
    requires held { IsHeldAt (setting_of job.now) node.0 first.now }
    requires crosses { has (gains.crossable (setting_of job.now) node.0 first.now.holder) a.0 ≡ true }
    ensures within { IsHeldAt (setting_of job.now) node.0 result.0 }
    ensures answers { Some result ≡ option_map told (cross_gain (setting_of job.now) node.0 a first.now) }
{
    let State { holder, view } = *first;
    let enc = AttrSet(view.enc.0 ^ AttrSet::of(a).0);
    let across = State {
        holder,
        view: View { enc, ..view },
    };
    (across, work_of(job, node, &Step::Enc(a), first))
}

/// The state after a send, and what it costs, as `after_step` tells them. `load` is kept from one send of a table to its next: the
/// bytes of the table, which are the same wherever it goes, once a send that can run has asked for them. docs/MODEL.md, "States". It
/// takes no memory, and a time that is linear in the equivalent sets of the node, and for the first such send in its attributes.
pub fn after_send(
    job: &Job<'_>,
    node: NodeId,
    to: SubjectId,
    first: &State,
    load: &mut Option<u128>,
) -> Option<(State, u128)>
    requires taken { IsStepAt (setting_of job.now) node (step.Send to) first.now None }
    requires load { IfSome load.old (λ bytes. bytes ≡ costs.load (setting_of job.now).basis node.0 first.now.view) }
    ensures load { IfSome load.new (λ bytes. bytes ≡ costs.load (setting_of job.now).basis node.0 first.now.view) }
    ensures within { IfSome result (λ gain. IsHeldAt (setting_of job.now) node.0 gain.0) }
    ensures answers { result ≡ option_map told (step_gain (setting_of job.now) node (step.Send to) first.now None) }
{
    let State { holder, view } = sent(job, first, to)?;
    let gained = State { holder, view };
    if may_hold(job, node, &gained) {
        let bytes = load_of(job, node, first, *load);
        *load = Some(bytes);
        Some((gained, send_cost(&job.base(), first.holder, to, bytes)))
    } else {
        None
    }
}

// The bytes of a table in a state, where they are not known yet.
fn load_of(job: &Job<'_>, node: NodeId, first: &State, known: Option<u128>) -> u128
    requires node { node.0 < length (setting_of job.now).basis.nodes }
    requires known { IfSome known (λ bytes. bytes ≡ costs.load (setting_of job.now).basis node.0 first.now.view) }
    ensures { result ≡ costs.load (setting_of job.now).basis node.0 first.now.view }
{
    match known {
        Some(bytes) => bytes,
        None => send_load(&job.base(), node, &first.view),
    }
}

/// The state after a step, where it is runnable, whether its holder may hold the result or not. `node`, `first` and `second` are as for
/// `after_step`. docs/MODEL.md, "States". It takes no memory.
pub fn run_step(
    job: &Job<'_>,
    node: NodeId,
    step: &Step,
    first: &State,
    second: Option<&State>,
) -> Option<State>
    requires { IsStepAt (setting_of job.now) node step.now first.now (option_map (λ s. s.now) second) }
    ensures stands { IfSome result (IsStateAt (setting_of job.now) node.0) }
    ensures answers { result ≡ ran.ran (setting_of job.now) node step.now first.now (option_map (λ s. s.now) second.entry) }
{
    match (step, second) {
        (Step::Enc(a), None) => at_holder(
            first.holder,
            after_enc(&job.facts, node, *a, &first.view),
        ),
        (Step::Dec(a), None) => at_holder(
            first.holder,
            after_dec(&job.facts, node, *a, &first.view),
        ),
        (Step::Send(to), None) => sent(job, first, *to),
        (Step::Un(_), None) => at_holder(
            first.holder,
            after_unary(&job.facts, &job.clusters.scheme, node, &first.view),
        ),
        (Step::Bin(_), Some(other)) => joined(job, node, first, other),
        _ => None,
    }
}

// The state of a holder with a view, where there is one.
fn at_holder(holder: SubjectId, view: Option<View>) -> Option<State>
    ensures { result ≡ ran.at_holder holder view }
{
    Some(State {
        holder,
        view: view?,
    })
}

// The state after a send, which goes to a subject of the policy other than the holder.
fn sent(job: &Job<'_>, first: &State, to: SubjectId) -> Option<State>
    ensures { result ≡ ran.sent (setting_of job.now) first.now to }
{
    if usize::from(to.0) < job.policy.subjects.as_slice().len() && to.0 != first.holder.0 {
        Some(State {
            holder: to,
            view: first.view,
        })
    } else {
        None
    }
}

// The state after the operation of a node on two operands, which one subject holds.
fn joined(job: &Job<'_>, node: NodeId, left: &State, right: &State) -> Option<State>
    requires node { node.0 < length job.now.facts.plan.nodes }
    requires operands { AreOperands (setting_of job.now) (setting.kind_at (setting_of job.now) node.0) left.now right.now }
    ensures stands { IfSome result (IsStateAt (setting_of job.now) node.0) }
    ensures answers { result ≡ ran.joined (setting_of job.now) node left.now right.now }
{
    if left.holder.0 != right.holder.0 {
        return None;
    }
    at_holder(
        left.holder,
        after_binary(
            &job.facts,
            &job.clusters.scheme,
            node,
            &left.view,
            &right.view,
        ),
    )
}

// Whether the holder of a state may hold the table that it stands for at a node.
pub(crate) fn may_hold(job: &Job<'_>, node: NodeId, state: &State) -> bool
    requires holder { state.now.holder.0 < 16 }
    requires node { node.0 < length job.now.facts.plan.nodes }
    ensures { result ≡ validity.may_hold (setting_of job.now) state.now.holder (shown (setting_of job.now) node.0 state.now) }
{
    check_view(job.policy, state.holder, &job.facts, node, &state.view).is_ok()
}

/// What a step costs whose result is at a node and which is taken from this state, cut at 2^128 - 1. docs/MODEL.md, "Costs". It takes no
/// memory.
pub fn work_of(job: &Job<'_>, node: NodeId, step: &Step, from: &State) -> u128
    requires { node.0 < length job.now.facts.plan.nodes }
    ensures { result ≡ cut (step_work (setting_of job.now).basis step.now from.now.holder.0 node.0 from.now.view) }
{
    step_cost(&job.base(), step, from.holder, node, &from.view)
}
