ghost use Rattle.std.specs.Prelude.{◌≡◌, ◌+◌, ◌*◌, ◌<◌, ◌≤◌, length, slice_index};
ghost use Rattle.cost_model.specs.Costs as costs;
ghost use Rattle.cost_model.specs.Costs.{basis_of, cut, step_work};

use crate::estimated::Estimates;
use crate::sizes::{cell_bytes, cell_units};
use crate::tables::{net_of, number_at, scheme_of, type_of};
use key_clusters::Clusters;
use mq_base::{AttrId, AttrSet, NodeId, PlanOp, Schema, Step, SubjectId};
use plan_algebra::{Kind, PlanFacts};
use policy_base::Prices;
use relation_profile::View;

/// What the costs of the steps of a plan are reckoned from. docs/MODEL.md, "Estimates and costs".
#[derive(Clone, Copy)]
pub struct CostBase<'a> {
    pub facts: &'a PlanFacts,
    /// The clusters of the plan.
    pub clusters: &'a Clusters,
    pub prices: &'a Prices,
    /// The schema for which the plan was made.
    pub schema: &'a Schema,
    /// The estimates of the plan.
    pub estimates: &'a Estimates,
}

/// What a step costs its holder, cut at 2^128 - 1; `holder` is the holder before the step. For Enc, Dec and Send `node` and
/// `view` are those of the table that is sealed, opened or sent. For the others `node` is the step's own, and `view` is not
/// looked at. docs/MODEL.md, "Estimates and costs". It takes no memory, and a time that is linear in the attributes of a
/// table that is sent, and else depends on nothing.
pub fn step_cost(
    base: &CostBase<'_>,
    step: &Step,
    holder: SubjectId,
    node: NodeId,
    view: &View,
) -> u128
    requires { node.0 < length base.now.facts.now.plan.nodes }
    ensures { result ≡ cut (step_work (basis_of base.now) step.now holder.0 node.0 view.now) }
{
    match step {
        Step::Base(_) => 0,
        Step::Enc(a) | Step::Dec(a) => sealing(base, *a, holder, node),
        Step::Send(to) => sending(base, holder, *to, node, view),
        Step::Un(_) | Step::Bin(_) => working(base, holder, node),
    }
}

// The cost of sealing or opening an attribute of a node's table.
fn sealing(base: &CostBase<'_>, a: AttrId, holder: SubjectId, node: NodeId) -> u128
    ensures { result ≡ cut (costs.sealing (basis_of base.now) a.0 holder.0 node.0) }
{
    let units = cell_units(scheme_of(base.clusters, a), type_of(base.schema, a));
    priced(
        product(rows_of(base.estimates, node), units),
        cpu_of(base.prices, holder),
    )
}

// The cost of sending a node's table.
fn sending(base: &CostBase<'_>, from: SubjectId, to: SubjectId, node: NodeId, view: &View) -> u128
    requires { node.0 < length base.now.facts.now.plan.nodes }
    ensures { result ≡ cut (costs.sending (basis_of base.now) from.0 to.0 node.0 view.now) }
{
    send_cost(base, from, to, send_load(base, node, view))
}

/// The bytes of a node's table in a view: the node's estimate times the bytes of a row. They are the same wherever it is sent.
/// docs/MODEL.md, "Estimates and costs". It takes no memory, and a time that is linear in the attributes of the table.
pub fn send_load(base: &CostBase<'_>, node: NodeId, view: &View) -> u128
    requires { node.0 < length base.now.facts.now.plan.nodes }
    ensures { result ≡ costs.load (basis_of base.now) node.0 view.now }
{
    product(rows_of(base.estimates, node), width(base, node, view))
}

/// What sending so many bytes from a subject to another costs, cut at 2^128 - 1. docs/MODEL.md, "Estimates and costs". It takes no
/// memory, and a time that depends on nothing.
pub fn send_cost(base: &CostBase<'_>, from: SubjectId, to: SubjectId, load: u128) -> u128
    ensures { result ≡ cut (load * costs.net_of (basis_of base.now).prices from.0 to.0) }
{
    priced(load, net_of(base.prices, from, to))
}

// The cost of doing a node.
fn working(base: &CostBase<'_>, holder: SubjectId, node: NodeId) -> u128
    requires { node.0 < length base.now.facts.now.plan.nodes }
    ensures { result ≡ cut (costs.working (basis_of base.now) holder.0 node.0) }
{
    priced(handled(base, node), cpu_of(base.prices, holder))
}

// So many units at a price, cut.
fn priced(amount: u128, price: u64) -> u128
    ensures { result ≡ cut (amount * price) }
{
    amount.saturating_mul(u128::from(price))
}

fn product(a: u64, b: u64) -> u128
    ensures { result ≡ a * b }
{
    u128::from(a) * u128::from(b)
}

// The estimate of a node.
fn rows_of(estimates: &Estimates, node: NodeId) -> u64
    ensures { result ≡ slice_index estimates.now.rows node.0 }
{
    number_at(&estimates.rows, node.0)
}

// The price of a unit of work.
fn cpu_of(prices: &Prices, holder: SubjectId) -> u64
    ensures { result ≡ slice_index prices.now.cpu holder.0 }
{
    number_at(&prices.cpu, holder.0)
}

// The rows that are handled in doing a node.
fn handled(base: &CostBase<'_>, node: NodeId) -> u128
    requires { node.0 < length base.now.facts.now.plan.nodes }
    ensures { result ≡ costs.handled (basis_of base.now) node.0 }
{
    let estimates = base.estimates;
    match base.facts.kind(node) {
        Kind::Leaf => 0,
        Kind::One(x) => u128::from(rows_of(estimates, x)),
        Kind::Two(x, y) => both_handled(
            base.facts.operation(node),
            rows_of(estimates, x),
            rows_of(estimates, y),
            rows_of(estimates, node),
        ),
    }
}

// The rows that are handled in doing a node with two operands.
fn both_handled(op: &PlanOp, left: u64, right: u64, made: u64) -> u128
    ensures { result ≡ costs.both_handled op.now left right made }
{
    match op {
        PlanOp::Product => u128::from(made),
        _ => u128::from(left) + u128::from(right) + u128::from(made),
    }
}

// The bytes of a row of a node's table.
fn width(base: &CostBase<'_>, node: NodeId, view: &View) -> u64
    requires { node.0 < length base.now.facts.now.plan.nodes }
    ensures { result ≡ costs.width (basis_of base.now) node.0 view.now }
{
    let facts = base.facts;
    cells(base, facts.visible(node), view) + count_bytes(facts.counts(node))
}

// The bytes of the count column, where there is one.
fn count_bytes(counts: bool) -> u64
    ensures same { result ≡ costs.count_bytes counts }
    ensures few { result ≤ 8 }
{
    if counts { 8 } else { 0 }
}

// The bytes of a row's cells of these attributes.
fn cells(base: &CostBase<'_>, set: AttrSet, view: &View) -> u64
    ensures same { result ≡ costs.cells (basis_of base.now) set.0 view.now }
    ensures few { result ≤ 15360 }
{
    let mut total = 0u64;
    let mut left = set;
    while let Some(a) = left.first() {
        total += bytes_of(base, a, view);
        left = left.difference(AttrSet::of(a));
    }
    total
}

// The bytes of a cell of an attribute, as the view has it.
fn bytes_of(base: &CostBase<'_>, a: AttrId, view: &View) -> u64
    requires { a.0 < 64 }
    ensures { result ≡ costs.bytes_at (basis_of base.now) view.now a.0 }
{
    let ty = type_of(base.schema, a);
    if view.enc.has(a) {
        cell_bytes(ty, Some(scheme_of(base.clusters, a)))
    } else {
        cell_bytes(ty, None)
    }
}
