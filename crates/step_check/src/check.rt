ghost use Rattle.std.specs.Prelude.{◌≡◌, ◌^◌, ◌<◌, ◌≤◌, length, IfOk, Some, option_map};
ghost use Rattle.std.specs.List.{AllByRecursion};
ghost use Rattle.extended_plan.specs.Certificate as certificate;
ghost use Rattle.extended_plan.specs.Job.{IsStateAt, IsStepAt, setting_of};
ghost use Rattle.step_check.specs.Room.{IsToldOf, room_of};
ghost use Rattle.extended_plan.specs.Setting as setting;
ghost use Rattle.extended_plan.specs.StepList.{steps_outcome};
ghost use Rattle.extended_plan.specs.Term.{stands_on, stands_on_both};
ghost use Rattle.step_check.specs.inside.Slots as slots;
ghost use Rattle.step_check.specs.inside.Slots.{IsSlot, above, slots_of};

use crate::stack::{Slot, StepStack};
use crate::steps_no::StepsNo;
use extended_plan::{Job, PlanTotals, State, StepNo, StepWhy, leaf_at, leaf_of, run_step, work_of};
use mq_base::{NodeId, Step, TableId};
use plan_algebra::Kind;
use std::alloc::Global;
use view_authority::check_view;

/// What a list of fewer than 2^32 steps comes to: the state of the valid extended plan that it spells, and its cost, cut at 2^128 - 1.
/// docs/MODEL.md, "Step lists".
///
/// `Refused` with the first place at which the list fails, and why; `NoMemory` where the allocator refused a stack for as many tables
/// as there are steps. The time is linear in the steps.
pub fn check_steps(alloc: Global, job: &Job<'_>, steps: &[Step]) -> Result<PlanTotals, StepsNo>
    requires few { length steps.now < 2 ^ 32 }
    ensures found { IsToldOf (steps_outcome (setting_of job.now) steps.now) result }
{
    let mut stack = StepStack::with(alloc, steps.len())?;
    match check_steps_in(job, steps, &mut stack) {
        Ok(totals) => Ok(totals),
        Err(no) => Err(StepsNo::Refused(no)),
    }
}

/// The same over a lent stack with room for as many tables as there are steps, whatever is on it; its room stays as it was. It takes
/// no memory, and the time is linear in the steps. docs/MODEL.md, "Step lists".
pub fn check_steps_in(
    job: &Job<'_>,
    steps: &[Step],
    stack: &mut StepStack,
) -> Result<PlanTotals, StepNo>
    requires few { length steps.now < 2 ^ 32 }
    requires room { length steps.now ≤ room_of stack.old }
    ensures found { result ≡ steps_outcome (setting_of job.now) steps.now }
    ensures room { room_of stack.new ≡ room_of stack.old }
{
    stack.clear();
    for at in 0..steps.len() {
        match next_table(job, &steps[at], stack) {
            Ok(table) => stack.push(table),
            Err(why) => return Err(StepNo { at: at as u32, why }),
        }
    }
    at_end(job, steps.len() as u32, stack)
}

// The table that a step makes of those that it takes off the stack, or why it makes none.
fn next_table(job: &Job<'_>, step: &Step, stack: &mut StepStack) -> Result<Slot, StepWhy>
    requires { AllByRecursion (IsSlot (setting_of job.now)) (slots_of stack.old) }
    ensures made { slots.slots_after (setting_of job.now) step.now (slots_of stack.old) ≡ above (slots_of stack.new) result }
    ensures stand { AllByRecursion (IsSlot (setting_of job.now)) (slots_of stack.new) }
    ensures table { IfOk result (IsSlot (setting_of job.now)) }
    ensures room { room_of stack.new ≡ room_of stack.old }
    ensures fewer { length (slots_of stack.new) ≤ length (slots_of stack.old) }
{
    match step {
        Step::Base(t) => leaf_table(job, *t),
        Step::Enc(_) | Step::Dec(_) | Step::Send(_) => {
            let Some(x) = stack.pop() else {
                return Err(StepWhy::Shape);
            };
            stepped(job, x.node, step, x.cost, &x.state, None)
        }
        Step::Un(n) => {
            let Some(x) = stack.pop() else {
                return Err(StepWhy::Shape);
            };
            one_table(job, *n, &x)
        }
        Step::Bin(n) => {
            let Some(right) = stack.pop() else {
                return Err(StepWhy::Shape);
            };
            let Some(left) = stack.pop() else {
                return Err(StepWhy::Shape);
            };
            two_table(job, *n, &left, &right)
        }
    }
}

// The leaf of a table of the query.
fn leaf_table(job: &Job<'_>, t: TableId) -> Result<Slot, StepWhy>
    ensures table { result ≡ slots.leaf_at (setting_of job.now) t (setting.leaf_of (setting_of job.now) t) }
    ensures stands { IfOk result (IsSlot (setting_of job.now)) }
{
    let Some(place) = leaf_of(job, t) else {
        return Err(StepWhy::NotThePlan);
    };
    let node = NodeId(place as u8);
    placed(job, node, leaf_at(job, t, node), 0)
}

// The table of a node on one table, which is to be of its operand.
#[tactic(auto, using(crate::proofs::AtLaws::one_step))]
fn one_table(job: &Job<'_>, n: NodeId, x: &Slot) -> Result<Slot, StepWhy>
    requires { IsSlot (setting_of job.now) x.now }
    ensures table { result ≡ slots.one_slot (setting_of job.now) n x.now }
    ensures stands { IfOk result (IsSlot (setting_of job.now)) }
{
    if !is_on_one(job, n, x.node) {
        return Err(StepWhy::NotThePlan);
    }
    stepped(job, n, &Step::Un(n), x.cost, &x.state, None)
}

// The table of a node on two tables, which are to be of its operands.
#[tactic(auto, using(crate::proofs::AtLaws::two_step))]
fn two_table(job: &Job<'_>, n: NodeId, left: &Slot, right: &Slot) -> Result<Slot, StepWhy>
    requires left { IsSlot (setting_of job.now) left.now }
    requires right { IsSlot (setting_of job.now) right.now }
    ensures table { result ≡ slots.two_slot (setting_of job.now) n left.now right.now }
    ensures stands { IfOk result (IsSlot (setting_of job.now)) }
{
    if !is_on_two(job, n, left.node, right.node) {
        return Err(StepWhy::NotThePlan);
    }
    let paid = left.cost.saturating_add(right.cost);
    stepped(job, n, &Step::Bin(n), paid, &left.state, Some(&right.state))
}

// The table after a step whose result is at a node, where so much was paid before.
fn stepped(
    job: &Job<'_>,
    node: NodeId,
    step: &Step,
    paid: u128,
    first: &State,
    second: Option<&State>,
) -> Result<Slot, StepWhy>
    requires { IsStepAt (setting_of job.now) node step.now first.now (option_map (λ s. s.now) second) }
    ensures table { result ≡ slots.stepped (setting_of job.now) node step.now paid first.now (option_map (λ s. s.now) second.entry) }
    ensures stands { IfOk result (IsSlot (setting_of job.now)) }
{
    match run_step(job, node, step, first, second) {
        Some(state) => placed(
            job,
            node,
            state,
            paid.saturating_add(work_of(job, node, step, first)),
        ),
        None => Err(StepWhy::NotRunnable),
    }
}

// The table of a node in a state, where the holder may hold it.
fn placed(job: &Job<'_>, node: NodeId, state: State, cost: u128) -> Result<Slot, StepWhy>
    requires node { node.0 < length job.now.facts.plan.nodes }
    requires state { IsStateAt (setting_of job.now) node.0 state }
    ensures table { result ≡ slots.placed (setting_of job.now) node cost (Some state) }
    ensures stands { IfOk result (IsSlot (setting_of job.now)) }
{
    match check_view(job.policy, state.holder, &job.facts, node, &state.view) {
        Ok(()) => Ok(Slot { node, state, cost }),
        Err(broken) => Err(StepWhy::Breach(state.holder, broken)),
    }
}

// Whether a node stands on one operand, which is this node.
fn is_on_one(job: &Job<'_>, n: NodeId, x: NodeId) -> bool
    ensures { result ≡ stands_on (setting.kind_at (setting_of job.now) n.0) (Some x.0) }
{
    match kind_at(job, n) {
        Kind::One(operand) => operand.0 == x.0,
        _ => false,
    }
}

// Whether a node stands on two operands, which are these nodes.
fn is_on_two(job: &Job<'_>, n: NodeId, x: NodeId, y: NodeId) -> bool
    ensures { result ≡ stands_on_both (setting.kind_at (setting_of job.now) n.0) (Some x.0) (Some y.0) }
{
    match kind_at(job, n) {
        Kind::Two(left, right) => left.0 == x.0 && right.0 == y.0,
        _ => false,
    }
}

// The kind of a node; one that the plan does not have counts as a leaf.
#[tactic(auto, using(crate::proofs::AtLaws::past_leaf))]
fn kind_at(job: &Job<'_>, n: NodeId) -> Kind
    ensures { result ≡ setting.kind_at (setting_of job.now) n.0 }
{
    if usize::from(n.0) < job.facts.node_count() {
        job.facts.kind(n)
    } else {
        Kind::Leaf
    }
}

// What a list comes to at its end, which has this number, by what is left on the stack.
fn at_end(job: &Job<'_>, at: u32, stack: &mut StepStack) -> Result<PlanTotals, StepNo>
    ensures found { result ≡ slots.slots_end (setting_of job.now) at (slots_of stack.old) }
    ensures room { room_of stack.new ≡ room_of stack.old }
{
    let Some(x) = stack.pop() else {
        return Err(StepNo {
            at,
            why: StepWhy::Shape,
        });
    };
    if stack.pop().is_some() {
        return Err(StepNo {
            at,
            why: StepWhy::Shape,
        });
    }
    match last_fault(job, &x) {
        Some(why) => Err(StepNo { at, why }),
        None => Ok(PlanTotals {
            state: x.state,
            cost: x.cost,
        }),
    }
}

// What is wrong with the only table that is left.
fn last_fault(job: &Job<'_>, x: &Slot) -> Option<StepWhy>
    ensures { result ≡ slots.last_slot (setting_of job.now) x.now }
{
    if usize::from(x.node.0) + 1 != job.facts.node_count() {
        return Some(StepWhy::NotThePlan);
    }
    if !is_goal(job, &x.state) {
        return Some(StepWhy::NotTheGoal);
    }
    None
}

// Whether the user holds a table in which nothing is encrypted.
fn is_goal(job: &Job<'_>, state: &State) -> bool
    ensures { result ≡ certificate.is_goal (setting_of job.now) state.now }
{
    state.holder.0 == job.policy.user.0 && state.view.enc.0 == 0
}
