ghost use Rattle.std.specs.Prelude.{◌≡◌, ◌<◌, Err, OnOk, length};
ghost use Rattle.plan_algebra.specs.declared.kind.Kind.TheVariants as kind;
ghost use Rattle.extended_plan.specs.Setting.{kind_at};
ghost use Rattle.assign_table.specs.declared.table.TableNo.TheVariants.{Full};
ghost use Rattle.assign_table.specs.inside.Arrivals.{IsArrival, IsArrivedOn, IsCrowdedAt, IsGate, IsOneListed, IsOpenAt, StaysOpen, gate_setting};
ghost use Rattle.assign_table.specs.inside.Blocks.{IsPlaceOf};
ghost use Rattle.assign_table.specs.inside.Cells.{IsListedOn};
ghost use Rattle.assign_table.specs.inside.Sheet.{sheet_of};

use crate::gate::Gate;
use crate::pairs::arrive_pairs;
use crate::settle::label_after;
use crate::table::{Table, TableNo};
use crate::way::Way;
use extended_plan::{State, after_step, leaf_state};
use mq_base::{AttrSet, NodeId, PlanOp, Step};
use plan_algebra::Kind;
use std::alloc::Global;

/// Offers what arrives at a node: the state of its leaf, or what its operation gains from the settled states of its operands.
/// docs/MODEL.md, "Search".
///
/// `Full` where more than `room` different states are reached at the node; `NoMemory` where the allocator refused a request.
pub fn arrive(
    alloc: Global,
    gate: Gate<'_, '_>,
    table: &mut Table,
    room: usize,
) -> Result<(), TableNo>
    requires gate { IsGate gate }
    requires opened { IsOpenAt gate room (sheet_of table.old) }
    ensures opened { OnOk result (StaysOpen gate.entry room (sheet_of table.old) (sheet_of table.new)) }
    ensures arrived { OnOk result (IsArrivedOn gate.entry (kind_at (gate_setting gate.entry) gate.entry.node.0) (sheet_of table.new).cells) }
    ensures crowded { result ≡ Err Full → IsCrowdedAt gate.entry room }
{
    match gate.job.facts.kind(gate.node) {
        Kind::Leaf => arrive_leaf(gate, table, room),
        Kind::One(operand) => arrive_one(gate, operand, table, room),
        Kind::Two(left, right) => arrive_pairs(alloc, gate, left, right, table, room),
    }
}

// Offers the state of a leaf, where its store may hold it.
fn arrive_leaf(gate: Gate<'_, '_>, table: &mut Table, room: usize) -> Result<(), TableNo>
    requires gate { IsGate gate }
    requires opened { IsOpenAt gate room (sheet_of table.old) }
    requires kind { kind_at (gate_setting gate) gate.node.0 ≡ kind.Leaf }
    ensures opened { OnOk result (StaysOpen gate.entry room (sheet_of table.old) (sheet_of table.new)) }
    ensures arrived { OnOk result (IsArrivedOn gate.entry kind.Leaf (sheet_of table.new).cells) }
    ensures crowded { result ≡ Err Full → IsCrowdedAt gate.entry room }
{
    let PlanOp::Base(t, _) = gate.job.facts.operation(gate.node) else {
        return Ok(());
    };
    match leaf_state(gate.job, *t) {
        None => Ok(()),
        Some(state) => offer_arrival(gate, state, 0, Way::Leaf(*t), table, room),
    }
}

// Offers what the operation of a node gains from each settled state of its operand.
fn arrive_one(
    gate: Gate<'_, '_>,
    operand: NodeId,
    table: &mut Table,
    room: usize,
) -> Result<(), TableNo>
    requires gate { IsGate gate }
    requires opened { IsOpenAt gate room (sheet_of table.old) }
    requires kind { kind_at (gate_setting gate) gate.node.0 ≡ kind.One operand }
    ensures opened { OnOk result (StaysOpen gate.entry room (sheet_of table.old) (sheet_of table.new)) }
    ensures arrived { OnOk result (IsArrivedOn gate.entry (kind.One operand) (sheet_of table.new).cells) }
    ensures crowded { result ≡ Err Full → IsCrowdedAt gate.entry room }
{
    let block = usize::from(operand.0);
    'places: for at in gate.start(block)..gate.start(block + 1) {
        offer_one(gate, operand, at, table, room)?;
    }
    Ok(())
}

// Offers what the operation of a node gains from one settled state of its operand.
fn offer_one(
    gate: Gate<'_, '_>,
    operand: NodeId,
    at: usize,
    table: &mut Table,
    room: usize,
) -> Result<(), TableNo>
    requires gate { IsGate gate }
    requires opened { IsOpenAt gate room (sheet_of table.old) }
    requires kind { kind_at (gate_setting gate) gate.node.0 ≡ kind.One operand }
    requires place { IsPlaceOf gate.starts.now operand.0 at }
    requires inside { at < length gate.settled.now }
    ensures opened { OnOk result (StaysOpen gate.entry room (sheet_of table.old) (sheet_of table.new)) }
    ensures listed { OnOk result (IsOneListed gate.entry (sheet_of table.new).cells at) }
    ensures crowded { result ≡ Err Full → IsCrowdedAt gate.entry room }
{
    let from = &gate.settled[at];
    let step = Step::Un(gate.node);
    match after_step(gate.job, gate.node, &step, &from.state, None) {
        None => Ok(()),
        Some((state, cost)) => {
            let way = Way::One {
                step,
                operand: at as u32,
            };
            offer_arrival(gate, state, label_after(from.label, cost), way, table, room)
        }
    }
}

/// Offers a state that arrives at a node, with a label and a way.
pub fn offer_arrival(
    gate: Gate<'_, '_>,
    state: State,
    label: u128,
    way: Way,
    table: &mut Table,
    room: usize,
) -> Result<(), TableNo>
    requires opened { IsOpenAt gate room (sheet_of table.old) }
    requires arrives { IsArrival gate state label way }
    ensures opened { OnOk result (StaysOpen gate.entry room (sheet_of table.old) (sheet_of table.new)) }
    ensures listed { OnOk result (IsListedOn (sheet_of table.new).cells state label) }
    ensures crowded { result ≡ Err Full → IsCrowdedAt gate.entry room }
{
    table.offer(&state, label, way, AttrSet(0), room)
}
