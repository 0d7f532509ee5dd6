ghost use Rattle.std.specs.Prelude.{◌≡◌, ℕ, ◌<◌, length, slice_index};
ghost use Rattle.plan_algebra.specs.Facts.{node_at};
ghost use Rattle.cost_model.specs.Estimates.{HasDistinct, IsPricedFor, estimate_of, estimates_of, padded};

use crate::estimated::Estimates;
use crate::rules::{leaf_rule, one_rule, two_rule};
use crate::tables::number_at;
use mq_base::NodeId;
use plan_algebra::{Kind, PlanFacts};
use policy_base::Prices;

/// The estimates of the nodes of a plan, in post-order, each by those of its operands and the stated rows and distinct values.
/// Each is cut at 2^64 - 1, and divisions round up. docs/MODEL.md, "Estimates and costs". Each attribute that the plan uses
/// needs a distinct value at least, as every price file states. It takes no memory, and a time that is linear in the nodes
/// and the grouped attributes.
pub fn estimates(facts: &PlanFacts, prices: &Prices) -> Estimates
    requires priced { IsPricedFor facts.now prices.now }
    ensures rows { result.rows ≡ padded (estimates_of prices.now facts.now.plan.nodes) }
    ensures node { (n : ℕ) → n < length facts.now.plan.nodes → slice_index result.rows n ≡ estimate_of prices.now (slice_index result.rows) (node_at facts.now.plan.nodes n) }
{
    let mut rows = [0u64; 64];
    for n in 0..facts.node_count() {
        rows[n] = estimate_of(facts, prices, &rows, NodeId(n as u8));
    }
    Estimates { rows }
}

// The estimate of a node, by those of the nodes before it.
#[tactic(auto, using(crate::proofs::CutLaws::fits))]
fn estimate_of(facts: &PlanFacts, prices: &Prices, rows: &[u64; 64], n: NodeId) -> u64
    requires node { n.0 < length facts.now.plan.nodes }
    requires distinct { HasDistinct prices.now (node_at facts.now.plan.nodes n.0).op }
    ensures { result ≡ estimate_of prices.now (slice_index rows.now) (node_at facts.now.plan.nodes n.0) }
{
    let op = facts.operation(n);
    match facts.kind(n) {
        Kind::Leaf => leaf_rule(prices, op),
        Kind::One(x) => one_rule(prices, op, number_at(rows, x.0)),
        Kind::Two(x, y) => two_rule(prices, op, number_at(rows, x.0), number_at(rows, y.0)),
    }
}
