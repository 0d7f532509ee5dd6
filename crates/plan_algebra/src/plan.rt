ghost use Rattle.std.specs.Prelude.{◌≡◌, ◌≤◌, length, IfOk, OnOk};
ghost use Rattle.mq_base.specs.BoundQuery.{IsBound};
ghost use Rattle.mq_base.specs.Schema.{IsSchema};
ghost use Rattle.mq_base.specs.Nodes.{node_count};
ghost use Rattle.mq_base.specs.Small.{HasSmallIds};
ghost use Rattle.plan_algebra.specs.inside.Building.{over_all, plan_nodes};
ghost use Rattle.plan_algebra.specs.Facts.{IsPlan};
ghost use Rattle.plan_algebra.specs.Leaves.{leaf_tables};
ghost use Rattle.plan_algebra.specs.Meaning.{MeansQuery};
ghost use Rattle.plan_algebra.specs.Nodes.{nodes_of};
ghost use Rattle.plan_algebra.specs.Plan.{grouping, plan_tree, projection};
ghost use Rattle.plan_algebra.specs.Uses.{UsesOf};

use crate::nodes::{group, push_having, push_over};
use crate::tables::push_tables;
use mq_base::{NoMemory, Plan, PlanNode, PlanOp, Query, Schema, Seq};
use std::alloc::Global;

/// The plan of a query that was bound to this schema, in post-order. Each table is cut to its used attributes and kept by
/// the conditions on it alone; each further table in FROM order is joined by the first of the conditions that link it with
/// the earlier ones, and kept by the others, or stands in a product; then come the group, the conditions of HAVING, and
/// the projection on the selected attributes where these are not exactly the visible ones. docs/FORMATS.md, "Plan".
///
/// `NoMemory` where the allocator refused a request. The time is linear in the length of the query, times the number of
/// its tables.
pub fn plan_of(alloc: Global, q: &Query, schema: &Schema) -> Result<Plan, NoMemory>
    requires schema { IsSchema schema.now }
    requires bound { IsBound schema.now q.now }
    ensures planned { IfOk result (λ plan. plan.nodes ≡ nodes_of 0 (plan_tree schema.now q.now)) }
    ensures counted { IfOk result (λ plan. length plan.nodes ≡ node_count schema.now q.now) }
    ensures sound { IfOk result IsPlan }
    ensures means { IfOk result (MeansQuery schema.now q.now) }
    ensures used { IfOk result (UsesOf schema.now q.now) }
    ensures leaves { IfOk result (λ plan. leaf_tables plan.nodes ≡ q.now.tables) }
{
    let nodes = nodes_of(alloc, q, schema)?;
    Ok(Plan { nodes })
}

// The nodes of the plan.
#[tactic(auto, using(crate::proofs::BuildingLaws::building))]
fn nodes_of(alloc: Global, q: &Query, schema: &Schema) -> Result<Seq<PlanNode>, NoMemory>
    requires small { HasSmallIds q.now }
    requires some { 1 ≤ length q.now.tables }
    requires few { length (plan_nodes schema.now q.now) ≤ 64 }
    ensures { IfOk result (λ nodes. nodes ≡ plan_nodes schema.now q.now) }
{
    let mut nodes = Seq::new(alloc);
    push_tables(alloc, schema, q, q.used_set(), &mut nodes)?;
    push_grouping(alloc, q, &mut nodes)?;
    push_projection(q, &mut nodes)?;
    Ok(nodes)
}

// Puts the group and the selections of HAVING, where there is a GROUP BY.
#[tactic(auto, using(crate::proofs::BuildingLaws::building))]
fn push_grouping(alloc: Global, q: &Query, nodes: &mut Seq<PlanNode>) -> Result<(), NoMemory>
    requires { length (over_all (grouping q.now) nodes.old) ≤ 64 }
    ensures { OnOk result (nodes.new ≡ over_all (grouping q.now) nodes.old) }
{
    if !q.grouped {
        return Ok(());
    }
    push_over(nodes, group(alloc, q)?)?;
    push_having(alloc, nodes, q.having.as_slice())
}

// Puts the projection on the selected attributes, where these are not exactly the visible ones.
fn push_projection(q: &Query, nodes: &mut Seq<PlanNode>) -> Result<(), NoMemory>
    requires small { HasSmallIds q.now }
    requires few { length nodes.old ≤ 64 }
    ensures { OnOk result (nodes.new ≡ over_all (projection q.now) nodes.old) }
{
    if !q.projects() {
        return Ok(());
    }
    push_over(nodes, PlanOp::Project(q.selected_set()))
}
