//! Estimates and step costs, worked out by hand from docs/MODEL.md, "Estimates and costs".
ghost use Rattle.std.specs.Prelude.{◌≡◌, ◌≤◌, ℕ, true, nat_le, slice_index};
ghost use Rattle.std.specs.List.{list_all};
ghost use Rattle.base_laws.specs.Sets.{has};
ghost use Rattle.mq_base.specs.Schema.{IsSchema};

use crate::told::facts_of;
use cost_model::{CostBase, Estimates, estimates, step_cost};
use key_clusters::clusters;
use mq_base::{AttrSet, NodeId, Schema, Scheme, Step, SubjectId};
use plan_algebra::PlanFacts;
use policy_base::Prices;
use relation_profile::View;
use std::alloc::Global;
use std::process::Abort;
use std::test::Fail;

mod cuts;
mod rows;
mod steps;
mod worked;

// These numbers, and the last one past them.
fn padded<const N: usize>(numbers: &[u64], past: u64) -> [u64; N] {
    let mut all = [past; N];
    for (at, number) in numbers.iter().enumerate() {
        if let Some(place) = all.get_mut(at) {
            *place = *number;
        }
    }
    all
}

// Prices with these for work, one for sending, these rows and distinct values, and 1 for each further attribute.
fn prices(cpu: &[u64], net: u64, rows: &[u64], distinct: &[u64]) -> Prices {
    Prices {
        cpu: padded(cpu, 0),
        net: [[net; 16]; 16],
        rows: padded(rows, 0),
        distinct: padded(distinct, 1),
    }
}

// Whether each of these is at least 1.
fn are_some(numbers: &[u64]) -> bool
    ensures { result ≡ list_all (λ n. nat_le 1 n) numbers.now }
{
    numbers.iter().all(|number| 1 <= *number)
}

// Whether each of all attributes has a distinct value; then so have these.
fn are_stated(used: u64, distinct: &[u64; 64]) -> bool
    ensures { result ≡ true → (a : ℕ) → has used a ≡ true → 1 ≤ slice_index distinct.now a }
{
    are_some(distinct)
}

// The estimates of a plan, at prices that state a distinct value of each attribute.
fn estimated(rt: &impl Abort, facts: &PlanFacts, prices: &Prices) -> Estimates {
    let stated = are_stated(facts.used.0, &prices.distinct);
    assert!(rt; stated);
    estimates(facts, prices)
}

// A query, a step, its holder, its node, the encrypted attributes of the view, and the cost.
type Row<'a> = (&'a str, Step, (u8, u8, u64), u128);

// The cost of the step of a row.
fn cost(
    rt: &impl Abort,
    alloc: Global,
    schema: &Schema,
    prices: &Prices,
    row: &Row,
) -> Result<u128, Fail>
    requires { IsSchema schema.now }
{
    let (query, step, (holder, node, encrypted), _) = *row;
    assert!(rt; query.len() < 1000);
    let facts = facts_of(alloc, query, schema)?;
    assert!(rt; usize::from(node) < facts.node_count());
    let base = CostBase {
        facts: &facts,
        clusters: &clusters(&facts, &[Scheme::Ope; 64]),
        prices,
        schema,
        estimates: &estimated(rt, &facts, prices),
    };
    let view = View {
        enc: AttrSet(encrypted),
        ip: AttrSet(0),
        ie: AttrSet(0),
    };
    Ok(step_cost(&base, &step, SubjectId(holder), NodeId(node), &view))
}
