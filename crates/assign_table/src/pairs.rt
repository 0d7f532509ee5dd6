ghost use Rattle.std.specs.Prelude.{◌≡◌, ℕ, ◌<◌, Err, IfOk, IfSome, OnOk, length};
ghost use Rattle.std.specs.List.{Contains};
ghost use Rattle.plan_algebra.specs.declared.kind.Kind.TheVariants as kind;
ghost use Rattle.extended_plan.specs.Setting.{kind_at};
ghost use Rattle.assign_table.specs.declared.table.TableNo.TheVariants.{Full};
ghost use Rattle.assign_table.specs.inside.Arrivals.{ArePairsListed, ArePairsOf, ArePlacesOf, IsArrivedOn, IsClassListed, IsCrowdedAt, IsGate, IsHolderListed, IsOpenAt, IsPairListed, IsPairOf, StaysOpen, gate_setting};
ghost use Rattle.assign_table.specs.inside.Pairs as pairs;
ghost use Rattle.assign_table.specs.inside.Sheet.{sheet_of};

use crate::arrive::offer_arrival;
use crate::gate::Gate;
use crate::settle::label_after;
use crate::table::{Table, TableNo};
use crate::way::Way;
use extended_plan::{State, after_step};
use mq_base::{AttrId, NoMemory, NodeId, PlanOp, Step, SubjectId};
use std::alloc::Global;

/// The states of one holder in which a compared attribute is encrypted, or those in which it is not.
#[derive(Clone, Copy)]
pub struct Class {
    pub holder: SubjectId,
    pub sealed: bool,
}

/// Offers what the operation of a node gains from each pair of settled states of its two operands. Only pairs of one class are tried:
/// of one holder, and for a join both with the compared attribute plain or both with it encrypted; others gain nothing.
pub fn arrive_pairs(
    alloc: Global,
    gate: Gate<'_, '_>,
    left: NodeId,
    right: NodeId,
    table: &mut Table,
    room: usize,
) -> Result<(), TableNo>
    requires gate { IsGate gate }
    requires opened { IsOpenAt gate room (sheet_of table.old) }
    requires kind { kind_at (gate_setting gate) gate.node.0 ≡ kind.Two left right }
    ensures opened { OnOk result (StaysOpen gate.entry room (sheet_of table.old) (sheet_of table.new)) }
    ensures arrived { OnOk result (IsArrivedOn gate.entry (kind.Two left right) (sheet_of table.new).cells) }
    ensures crowded { result ≡ Err Full → IsCrowdedAt gate.entry room }
{
    let subjects = gate.job.policy.subjects.as_slice();
    'holders: for holder in 0..subjects.len() {
        pair_holder(
            alloc,
            gate,
            left,
            right,
            SubjectId(holder as u8),
            table,
            room,
        )?;
    }
    Ok(())
}

// The same for the states of one holder.
fn pair_holder(
    alloc: Global,
    gate: Gate<'_, '_>,
    left: NodeId,
    right: NodeId,
    holder: SubjectId,
    table: &mut Table,
    room: usize,
) -> Result<(), TableNo>
    requires gate { IsGate gate }
    requires opened { IsOpenAt gate room (sheet_of table.old) }
    requires kind { kind_at (gate_setting gate) gate.node.0 ≡ kind.Two left right }
    ensures opened { OnOk result (StaysOpen gate.entry room (sheet_of table.old) (sheet_of table.new)) }
    ensures listed { OnOk result (IsHolderListed gate.entry left right holder.0 (sheet_of table.new).cells) }
    ensures crowded { result ≡ Err Full → IsCrowdedAt gate.entry room }
{
    let plain = Class {
        holder,
        sealed: false,
    };
    let sealed = Class {
        holder,
        sealed: true,
    };
    pair_class(alloc, gate, left, right, plain, table, room)?;
    pair_class(alloc, gate, left, right, sealed, table, room)
}

// The same for the states of one class.
fn pair_class(
    alloc: Global,
    gate: Gate<'_, '_>,
    left: NodeId,
    right: NodeId,
    class: Class,
    table: &mut Table,
    room: usize,
) -> Result<(), TableNo>
    requires gate { IsGate gate }
    requires opened { IsOpenAt gate room (sheet_of table.old) }
    requires kind { kind_at (gate_setting gate) gate.node.0 ≡ kind.Two left right }
    ensures opened { OnOk result (StaysOpen gate.entry room (sheet_of table.old) (sheet_of table.new)) }
    ensures listed { OnOk result (IsClassListed gate.entry left right class.holder.0 class.sealed (sheet_of table.new).cells) }
    ensures crowded { result ≡ Err Full → IsCrowdedAt gate.entry room }
{
    let op = gate.job.facts.operation(gate.node);
    let lefts = places_in(alloc, gate, left, compared_left(op), class)?;
    if lefts.is_empty() {
        return Ok(());
    }
    let rights = places_in(alloc, gate, right, compared_right(op), class)?;
    pair_lefts(gate, lefts.as_slice(), rights.as_slice(), table, room)
}

// The places in the block of a node before the gate's whose states are in a class.
fn places_in(
    alloc: Global,
    gate: Gate<'_, '_>,
    node: NodeId,
    compared: Option<AttrId>,
    class: Class,
) -> Result<Vec<usize>, NoMemory>
    requires gate { IsGate gate }
    requires before { node.0 < gate.node.0 }
    requires small { IfSome compared (λ a. a.0 < 64) }
    ensures { IfOk result (λ places. ArePlacesOf gate.entry node compared class.holder.0 class.sealed places.items) }
{
    let mut places = Vec::new(alloc);
    let block = usize::from(node.0);
    'block: for at in gate.start(block)..gate.start(block + 1) {
        if is_in(compared, class, &gate.settled[at].state) {
            places.push(at)?;
        }
    }
    Ok(places)
}

// Whether a state is in a class.
fn is_in(compared: Option<AttrId>, class: Class, state: &State) -> bool
    requires { IfSome compared (λ a. a.0 < 64) }
    ensures { result ≡ pairs.is_in compared class.holder.0 class.sealed state.now }
{
    state.holder.0 == class.holder.0 && is_same(class.sealed, is_sealed(compared, state))
}

// Whether two answers are one.
fn is_same(x: bool, y: bool) -> bool
    ensures { result ≡ pairs.is_same x y }
{
    if x { y } else { !y }
}

// Whether an attribute is encrypted in a state, where there is one.
fn is_sealed(compared: Option<AttrId>, state: &State) -> bool
    requires { IfSome compared (λ a. a.0 < 64) }
    ensures { result ≡ pairs.is_sealed compared state.now }
{
    match compared {
        Some(a) => state.view.enc.has(a),
        None => false,
    }
}

// The attribute that an operation compares in its left operand.
fn compared_left(op: &PlanOp) -> Option<AttrId>
    ensures { result ≡ pairs.compared_left op.now }
{
    match op {
        PlanOp::Join(a, _, _) => Some(*a),
        _ => None,
    }
}

// The attribute that it compares in its right one.
fn compared_right(op: &PlanOp) -> Option<AttrId>
    ensures { result ≡ pairs.compared_right op.now }
{
    match op {
        PlanOp::Join(_, _, b) => Some(*b),
        _ => None,
    }
}

// Offers what a node gains from each pair of these places.
fn pair_lefts(
    gate: Gate<'_, '_>,
    lefts: &[usize],
    rights: &[usize],
    table: &mut Table,
    room: usize,
) -> Result<(), TableNo>
    requires gate { IsGate gate }
    requires opened { IsOpenAt gate room (sheet_of table.old) }
    requires pairs { ArePairsOf gate lefts.now rights.now }
    ensures opened { OnOk result (StaysOpen gate.entry room (sheet_of table.old) (sheet_of table.new)) }
    ensures listed { OnOk result (ArePairsListed gate.entry (sheet_of table.new).cells lefts.now rights.now) }
    ensures crowded { result ≡ Err Full → IsCrowdedAt gate.entry room }
{
    'lefts: for left in lefts {
        pair_rights(gate, *left, rights, table, room)?;
    }
    Ok(())
}

// Offers what a node gains from a place with each of these.
fn pair_rights(
    gate: Gate<'_, '_>,
    left: usize,
    rights: &[usize],
    table: &mut Table,
    room: usize,
) -> Result<(), TableNo>
    requires gate { IsGate gate }
    requires opened { IsOpenAt gate room (sheet_of table.old) }
    requires pairs { (w : ℕ) → Contains rights.now w → IsPairOf gate left w }
    ensures opened { OnOk result (StaysOpen gate.entry room (sheet_of table.old) (sheet_of table.new)) }
    ensures listed { OnOk result ((w : ℕ) → Contains rights.now w → IsPairListed gate.entry (sheet_of table.new).cells left w) }
    ensures crowded { result ≡ Err Full → IsCrowdedAt gate.entry room }
{
    'rights: for right in rights {
        offer_pair(gate, left, *right, table, room)?;
    }
    Ok(())
}

// Offers what a node gains from two places.
fn offer_pair(
    gate: Gate<'_, '_>,
    left: usize,
    right: usize,
    table: &mut Table,
    room: usize,
) -> Result<(), TableNo>
    requires gate { IsGate gate }
    requires opened { IsOpenAt gate room (sheet_of table.old) }
    requires pair { IsPairOf gate left right }
    requires left { left < length gate.settled.now }
    requires right { right < length gate.settled.now }
    ensures opened { OnOk result (StaysOpen gate.entry room (sheet_of table.old) (sheet_of table.new)) }
    ensures listed { OnOk result (IsPairListed gate.entry (sheet_of table.new).cells left right) }
    ensures crowded { result ≡ Err Full → IsCrowdedAt gate.entry room }
{
    let first = &gate.settled[left];
    let second = &gate.settled[right];
    let node = gate.node;
    match after_step(
        gate.job,
        node,
        &Step::Bin(node),
        &first.state,
        Some(&second.state),
    ) {
        None => Ok(()),
        Some((state, cost)) => {
            let label = label_after(label_after(first.label, second.label), cost);
            let way = Way::Two {
                node,
                left: left as u32,
                right: right as u32,
            };
            offer_arrival(gate, state, label, way, table, room)
        }
    }
}
