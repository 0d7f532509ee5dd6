ghost use Rattle.std.specs.Prelude.{◌≡◌, ℕ, ◌+◌, ◌≤◌, ◌<◌, Err, IfOk, IfSome, None, OnOk, length, option_map, true, if◌then◌else◌};
ghost use Rattle.base_laws.specs.Sets.{has, IsWithin};
ghost use Rattle.mq_base.specs.declared.ids.AttrId.{AttrId};
ghost use Rattle.mq_base.specs.declared.ids.SubjectId.{SubjectId};
ghost use Rattle.mq_base.specs.declared.plan.Step.TheVariants as step;
ghost use Rattle.cost_model.specs.Costs.{cut};
ghost use Rattle.extended_plan.specs.Gains as gains;
ghost use Rattle.extended_plan.specs.Gains.{across, send_gain, step_gain};
ghost use Rattle.extended_plan.specs.Job.{IsHeldAt, setting_of, told};
ghost use Rattle.assign_table.specs.declared.table.TableNo.TheVariants.{Full};
ghost use Rattle.assign_table.specs.inside.Cells.{IsListedOn};
ghost use Rattle.assign_table.specs.inside.Crossing.{IsTried, crossed_label, crossing};
ghost use Rattle.assign_table.specs.inside.Neighbours.{AreNear};
ghost use Rattle.assign_table.specs.inside.Order.{IsOrdered};
ghost use Rattle.assign_table.specs.inside.Settling.{AreKnown, AreTried, Continues, IsClosedOn, IsDone, IsFront, IsGainListed, IsTurn, ShowsCrowd, ShowsCrowdFrom, ShowsCrowdOver, Stays};
ghost use Rattle.assign_table.specs.inside.Sheet.{sheet_of};

use crate::table::{Table, TableNo};
use crate::way::{Settled, Taken, Way};
use extended_plan::{Job, State, after_cross, after_send, crossable};
use mq_base::{AttrId, AttrSet, NodeId, Step, SubjectId};

/// Settles what was offered at a node, and all that encryptions, decryptions and sends gain from it: each state once, behind what the
/// arena has, with a label that none of these steps lowers and a way that has it. docs/MODEL.md, "Search".
///
/// `Full` where more than `room` different states are reached at the node; `NoMemory` where the allocator refused a request. The time
/// is that of an offer for each state and subject, and of one for each state and attribute of the node at most.
pub fn settle_all(
    job: &Job<'_>,
    node: NodeId,
    table: &mut Table,
    room: usize,
    arena: &mut Vec<Settled>,
) -> Result<(), TableNo>
    requires node { node.0 < length (setting_of job.now).basis.nodes }
    requires ordered { IsOrdered (length arena.old.items) arena.old.items (sheet_of table.old) 0 }
    requires known { AreKnown (setting_of job.now) node.0 (sheet_of table.old) }
    requires within { length (sheet_of table.old).cells ≤ room }
    requires few { room + length arena.old.items ≤ 200000 }
    ensures done { OnOk result (IsDone (setting_of job.now) node.0 room arena.old.items (sheet_of table.old) arena.new.items) }
    ensures full { result ≡ Err Full → ShowsCrowdOver (setting_of job.now) node.0 room arena.old.items (sheet_of table.old) }
{
    'turns: loop {
        if !settle_next(job, node, table, room, arena)? {
            return Ok(());
        }
    }
}

// Settles the least that waits, and offers what steps gain from it; false where nothing waits.
fn settle_next(
    job: &Job<'_>,
    node: NodeId,
    table: &mut Table,
    room: usize,
    arena: &mut Vec<Settled>,
) -> Result<bool, TableNo>
    requires node { node.0 < length (setting_of job.now).basis.nodes }
    requires known { AreKnown (setting_of job.now) node.0 (sheet_of table.old) }
    requires few { length arena.old.items ≤ 200000 }
    ensures turn { IfOk result (λ more. IsTurn (setting_of job.now) node.0 room more arena.old.items (sheet_of table.old) arena.new.items (sheet_of table.new)) }
    ensures full { result ≡ Err Full → ShowsCrowdFrom (setting_of job.now) node.0 room arena.old.items (sheet_of table.old) }
{
    let Some(taken) = table.take() else {
        return Ok(false);
    };
    let at = arena.len() as u32;
    arena.push(taken.settled)?;
    offer_steps(job, node, table, room, at, &taken)?;
    Ok(true)
}

// Offers what each encryption, decryption and send gains from a settled state, but for the encryptions and decryptions that need not be
// tried.
fn offer_steps(
    job: &Job<'_>,
    node: NodeId,
    table: &mut Table,
    room: usize,
    at: u32,
    taken: &Taken,
) -> Result<(), TableNo>
    requires node { node.0 < length (setting_of job.now).basis.nodes }
    requires held { IsHeldAt (setting_of job.now) node.0 taken.now.settled.state }
    requires front { IsFront table.old taken.now.settled }
    requires near { AreNear (sheet_of table.old).cells taken.now.settled.state taken.now.near.0 taken.now.settled.label }
    ensures continues { OnOk result (Continues (setting_of job.now) node.0 room at taken.now.settled (sheet_of table.old) (sheet_of table.new)) }
    ensures closed { OnOk result (IsClosedOn (setting_of job.now) node.0 (sheet_of table.new).cells taken.now.settled) }
    ensures full { result ≡ Err Full → ShowsCrowd (setting_of job.now) node.0 room at taken.now.settled (sheet_of table.old) }
{
    offer_crypts(job, node, table, room, at, taken)?;
    offer_sends(job, node, table, room, at, &taken.settled)
}

// Offers what each encryption and decryption gains that is tried from a settled state, but for those across the attributes that come with
// it: the states across these are settled.
fn offer_crypts(
    job: &Job<'_>,
    node: NodeId,
    table: &mut Table,
    room: usize,
    at: u32,
    taken: &Taken,
) -> Result<(), TableNo>
    requires node { node.0 < length (setting_of job.now).basis.nodes }
    requires held { IsHeldAt (setting_of job.now) node.0 taken.now.settled.state }
    requires front { IsFront table.old taken.now.settled }
    requires near { AreNear (sheet_of table.old).cells taken.now.settled.state taken.now.near.0 taken.now.settled.label }
    ensures continues { OnOk result (Continues (setting_of job.now) node.0 room at taken.now.settled (sheet_of table.old) (sheet_of table.new)) }
    ensures tried { OnOk result (AreTried (setting_of job.now) node.0 (sheet_of table.new).cells taken.now.settled) }
    ensures full { result ≡ Err Full → ShowsCrowd (setting_of job.now) node.0 room at taken.now.settled (sheet_of table.old) }
{
    let from = &taken.settled;
    let mut left = tried(job, node, from).difference(taken.near);
    'attributes: while let Some(a) = left.first() {
        offer_across(job, node, table, room, at, from, a)?;
        left = left.difference(AttrSet::of(a));
    }
    Ok(())
}

// The attributes across which steps are tried from a settled state: all that its holder sees plain, or those of them before the one across
// which it was reached itself. It does not matter which of two is crossed first, and so the others are tried from other states.
fn tried(job: &Job<'_>, node: NodeId, from: &Settled) -> AttrSet
    requires node { node.0 < length (setting_of job.now).basis.nodes }
    requires holder { from.now.state.holder.0 < 16 }
    ensures each { (a : ℕ) → has (gains.crossable (setting_of job.now) node.0 from.now.state.holder) a ≡ true → IsTried from.now.way a → has result.0 a ≡ true }
    ensures within { IsWithin result.0 (gains.crossable (setting_of job.now) node.0 from.now.state.holder) }
{
    let all = crossable(job, node, from.state.holder);
    match leads_across(from.way) {
        Some(a) if a.0 < 64 => all.intersection(AttrSet(AttrSet::of(a).0 - 1)),
        _ => all,
    }
}

// The attribute across which a way leads, where it is an encryption or a decryption.
fn leads_across(way: Way) -> Option<AttrId>
    ensures { result ≡ option_map (λ (c : AttrId × ℕ). c.0) (crossing way) }
{
    match way {
        Way::One { step, .. } => match step {
            Step::Enc(a) | Step::Dec(a) => Some(a),
            _ => None,
        },
        _ => None,
    }
}

// Offers what the encryption of an attribute gains from a settled state whose holder sees it plain, or its decryption where it is
// encrypted.
fn offer_across(
    job: &Job<'_>,
    node: NodeId,
    table: &mut Table,
    room: usize,
    at: u32,
    from: &Settled,
    a: AttrId,
) -> Result<(), TableNo>
    requires node { node.0 < length (setting_of job.now).basis.nodes }
    requires held { IsHeldAt (setting_of job.now) node.0 from.now.state }
    requires small { a.0 < 64 }
    requires crosses { has (gains.crossable (setting_of job.now) node.0 from.now.state.holder) a.0 ≡ true }
    requires front { IsFront table.old from.now }
    ensures front { OnOk result (IsFront table.new from.now) }
    ensures continues { OnOk result (Continues (setting_of job.now) node.0 room at from.now (sheet_of table.old) (sheet_of table.new)) }
    ensures listed { OnOk result (IsListedOn (sheet_of table.new).cells (across a.0 from.now.state) (crossed_label (setting_of job.now) node.0 a.0 from.now)) }
    ensures full { result ≡ Err Full → ShowsCrowd (setting_of job.now) node.0 room at from.now (sheet_of table.old) }
{
    let step = crypt_of(&from.state, a);
    let gain = after_cross(job, node, a, &from.state);
    offer_gain(
        job,
        node,
        table,
        room,
        at,
        from,
        step,
        Some(gain),
        AttrSet::of(a),
    )
}

// The decryption of an attribute that is encrypted in a state, and the encryption of another.
fn crypt_of(state: &State, a: AttrId) -> Step
    requires { a.0 < 64 }
    ensures { result ≡ (if has state.now.view.enc.0 a.0 then step.Dec a else step.Enc a) }
{
    if state.view.enc.has(a) {
        Step::Dec(a)
    } else {
        Step::Enc(a)
    }
}

// Offers what a send to each subject gains from a settled state.
fn offer_sends(
    job: &Job<'_>,
    node: NodeId,
    table: &mut Table,
    room: usize,
    at: u32,
    from: &Settled,
) -> Result<(), TableNo>
    requires node { node.0 < length (setting_of job.now).basis.nodes }
    requires held { IsHeldAt (setting_of job.now) node.0 from.now.state }
    ensures continues { OnOk result (Continues (setting_of job.now) node.0 room at from.now (sheet_of table.old) (sheet_of table.new)) }
    ensures tried { OnOk result ((to : SubjectId) → IfSome (send_gain (setting_of job.now) node.0 to from.now.state) (IsGainListed (sheet_of table.new).cells from.now.label)) }
    ensures full { result ≡ Err Full → ShowsCrowd (setting_of job.now) node.0 room at from.now (sheet_of table.old) }
{
    let mut load = None;
    let subjects = job.policy.subjects.as_slice();
    'subjects: for to in 0..subjects.len() {
        let to = SubjectId(to as u8);
        let gain = after_send(job, node, to, &from.state, &mut load);
        offer_gain(
            job,
            node,
            table,
            room,
            at,
            from,
            Step::Send(to),
            gain,
            AttrSet(0),
        )?;
    }
    Ok(())
}

// Offers what a step gained from a settled state, where it gained something, and tells attributes across which settled states stand.
fn offer_gain(
    job: &Job<'_>,
    node: NodeId,
    table: &mut Table,
    room: usize,
    at: u32,
    from: &Settled,
    step: Step,
    gain: Option<(State, u128)>,
    near: AttrSet,
) -> Result<(), TableNo>
    requires node { node.0 < length (setting_of job.now).basis.nodes }
    requires held { IsHeldAt (setting_of job.now) node.0 from.now.state }
    requires stays { Stays step }
    requires within { IfSome gain (λ gained. IsHeldAt (setting_of job.now) node.0 gained.0) }
    requires gain { gain ≡ option_map told (step_gain (setting_of job.now) node step from.now.state None) }
    requires near { IfSome (step_gain (setting_of job.now) node step from.now.state None) (λ gained. AreNear (sheet_of table.old).cells gained.state near.0 table.old.front) }
    ensures front { OnOk result (table.new.front ≡ table.old.front) }
    ensures continues { OnOk result (Continues (setting_of job.now) node.0 room at from.now (sheet_of table.old) (sheet_of table.new)) }
    ensures listed { OnOk result (IfSome (step_gain (setting_of job.now) node step from.now.state None) (IsGainListed (sheet_of table.new).cells from.now.label)) }
    ensures full { result ≡ Err Full → ShowsCrowd (setting_of job.now) node.0 room at from.now (sheet_of table.old) }
{
    match gain {
        None => Ok(()),
        Some((state, cost)) => {
            let way = Way::One { step, operand: at };
            table.offer(&state, label_after(from.label, cost), way, near, room)
        }
    }
}

/// The label after a step, cut at 2^128 - 1. It is no lower.
pub fn label_after(label: u128, cost: u128) -> u128
    ensures sum { result ≡ cut (label + cost) }
    ensures no_lower { label ≤ result }
{
    label.saturating_add(cost)
}
