ghost use Rattle.std.specs.Prelude.{◌≡◌, ◌+◌, ◌<◌, ◌≤◌, [], length, filter, position, take, drop, OnOk};
ghost use Rattle.mq_base.specs.Nodes.{is_of, is_of_some, joins, used_set};
ghost use Rattle.plan_algebra.specs.inside.Building.{attached_on, branch_on, over_kept, table_on, tables_after, tables_on};
ghost use Rattle.plan_algebra.specs.Plan.{columns_set, is_about, join_by, used_of};

use crate::nodes::{last, push_beside, push_leaf, select_if, turned};
use mq_base::{
    AttrId, AttrSet, Cond, NoMemory, NodeId, PlanNode, PlanOp, Query, Schema, Seq, TableId,
};
use std::alloc::Global;

// Puts all tables of the query, each with its conditions. There is a table.
#[tactic(auto, using(crate::proofs::BuildingLaws::building))]
pub fn push_tables(
    alloc: Global,
    schema: &Schema,
    q: &Query,
    used: AttrSet,
    nodes: &mut Seq<PlanNode>,
) -> Result<(), NoMemory>
    requires used { used.0 ≡ used_set q.now }
    requires empty { nodes.old ≡ [] }
    requires some { 1 ≤ length q.now.tables }
    requires few { length (tables_on schema.now q.now q.now.tables) ≤ 64 }
    ensures { OnOk result (nodes.new ≡ tables_on schema.now q.now q.now.tables) }
{
    let tables = q.tables.as_slice();
    push_branch(alloc, schema, q, used, tables[0], nodes)?;
    push_further(alloc, schema, q, used, tables, nodes)
}

// Puts all tables but the first.
#[tactic(auto, using(crate::proofs::BuildingLaws::building))]
fn push_further(
    alloc: Global,
    schema: &Schema,
    q: &Query,
    used: AttrSet,
    tables: &[TableId],
    nodes: &mut Seq<PlanNode>,
) -> Result<(), NoMemory>
    requires used { used.0 ≡ used_set q.now }
    requires few { length (tables_after schema.now q.now (take 1 tables.now) (drop 1 tables.now) nodes.old) ≤ 64 }
    ensures { OnOk result (nodes.new ≡ tables_after schema.now q.now (take 1 tables.now) (drop 1 tables.now) nodes.old) }
{
    for at in 1..tables.len() {
        push_table(alloc, schema, q, used, &tables[..at], tables[at], nodes)?;
    }
    Ok(())
}

// Puts a further table: its branch, and what joins it to the earlier ones.
#[tactic(auto, using(crate::proofs::BuildingLaws::building))]
fn push_table(
    alloc: Global,
    schema: &Schema,
    q: &Query,
    used: AttrSet,
    earlier: &[TableId],
    t: TableId,
    nodes: &mut Seq<PlanNode>,
) -> Result<(), NoMemory>
    requires used { used.0 ≡ used_set q.now }
    requires few { length (table_on schema.now q.now earlier.now t nodes.old) ≤ 64 }
    ensures { OnOk result (nodes.new ≡ table_on schema.now q.now earlier.now t nodes.old) }
{
    let left = last(nodes);
    push_branch(alloc, schema, q, used, t, nodes)?;
    push_joined(alloc, schema, q.conds.as_slice(), earlier, t, left, nodes)
}

// Puts the branch of a table: its used attributes, and a selection for each condition on it alone.
#[tactic(auto, using(crate::proofs::BuildingLaws::building))]
fn push_branch(
    alloc: Global,
    schema: &Schema,
    q: &Query,
    used: AttrSet,
    t: TableId,
    nodes: &mut Seq<PlanNode>,
) -> Result<(), NoMemory>
    requires used { used.0 ≡ used_set q.now }
    requires few { length (branch_on schema.now q.now t nodes.old) ≤ 64 }
    ensures { OnOk result (nodes.new ≡ branch_on schema.now q.now t nodes.old) }
{
    push_leaf(nodes, t, used.intersection(columns_set(schema, t)))?;
    push_about(alloc, schema, t, q.conds.as_slice(), nodes)
}

// The columns of a table.
fn columns_set(schema: &Schema, t: TableId) -> AttrSet
    ensures { result.0 ≡ columns_set schema.now t }
{
    match schema.tables.as_slice().get(usize::from(t.0)) {
        Some(info) => info.attrs,
        None => AttrSet::EMPTY,
    }
}

// Puts a selection for each condition on this table alone.
#[tactic(auto, using(crate::proofs::BuildingLaws::building))]
fn push_about(
    alloc: Global,
    schema: &Schema,
    t: TableId,
    conds: &[Cond],
    nodes: &mut Seq<PlanNode>,
) -> Result<(), NoMemory>
    requires { length (over_kept (is_about schema.now t) conds.now nodes.old) ≤ 64 }
    ensures { OnOk result (nodes.new ≡ over_kept (is_about schema.now t) conds.now nodes.old) }
{
    for cond in conds {
        select_if(alloc, nodes, is_about(schema, t, cond), cond)?;
    }
    Ok(())
}

// Puts what joins a table to the earlier ones, whose last node is `left`: a join and further selections, or a product.
#[tactic(auto, using(crate::proofs::BuildingLaws::building))]
fn push_joined(
    alloc: Global,
    schema: &Schema,
    conds: &[Cond],
    earlier: &[TableId],
    t: TableId,
    left: NodeId,
    nodes: &mut Seq<PlanNode>,
) -> Result<(), NoMemory>
    requires { length (attached_on schema.now t (filter (joins schema.now earlier.now t) conds.now) left.0 nodes.old) ≤ 64 }
    ensures { OnOk result (nodes.new ≡ attached_on schema.now t (filter (joins schema.now earlier.now t) conds.now) left.0 nodes.old) }
{
    match first_link(schema, conds, earlier, t) {
        Some(at) => {
            push_beside(nodes, join_by(schema, t, &conds[at]), left)?;
            push_links(alloc, schema, after(conds, at), earlier, t, nodes)
        }
        None => push_beside(nodes, PlanOp::Product, left),
    }
}

// The conditions after this place.
#[tactic(auto, using(crate::proofs::BuildingLaws::rest))]
fn after(conds: &[Cond], at: usize) -> &[Cond]
    requires { at < length conds.now }
    ensures { result.now ≡ drop (at + 1) conds.now }
{
    &conds[at + 1..]
}

// Puts a selection for each condition that links this table with the earlier ones.
#[tactic(auto, using(crate::proofs::BuildingLaws::building))]
fn push_links(
    alloc: Global,
    schema: &Schema,
    conds: &[Cond],
    earlier: &[TableId],
    t: TableId,
    nodes: &mut Seq<PlanNode>,
) -> Result<(), NoMemory>
    requires { length (over_kept (joins schema.now earlier.now t) conds.now nodes.old) ≤ 64 }
    ensures { OnOk result (nodes.new ≡ over_kept (joins schema.now earlier.now t) conds.now nodes.old) }
{
    for cond in conds {
        select_if(alloc, nodes, joins(schema, earlier, t, cond), cond)?;
    }
    Ok(())
}

// The place of the first condition that links this table with the earlier ones.
fn first_link(schema: &Schema, conds: &[Cond], earlier: &[TableId], t: TableId) -> Option<usize>
    ensures { result ≡ position (joins schema.now earlier.now t) conds.now }
{
    conds
        .iter()
        .position(|cond| joins(schema, earlier, t, cond))
}

// The join of a condition that links this table with earlier ones.
fn join_by(schema: &Schema, t: TableId, cond: &Cond) -> PlanOp
    ensures { result ≡ join_by schema.now t cond.now }
{
    match cond {
        Cond::Const(..) => PlanOp::Product,
        Cond::Attrs(a, cmp, b) => {
            if is_of(schema, t, *b) {
                PlanOp::Join(*a, *cmp, *b)
            } else {
                PlanOp::Join(*b, turned(*cmp), *a)
            }
        }
    }
}

fn joins(schema: &Schema, earlier: &[TableId], t: TableId, cond: &Cond) -> bool
    ensures { result ≡ joins schema.now earlier.now t cond.now }
{
    match cond {
        Cond::Const(..) => false,
        Cond::Attrs(a, _, b) => {
            (is_of_some(schema, earlier, *a) && is_of(schema, t, *b))
                || (is_of(schema, t, *a) && is_of_some(schema, earlier, *b))
        }
    }
}

fn is_about(schema: &Schema, t: TableId, cond: &Cond) -> bool
    ensures { result ≡ is_about schema.now t cond.now }
{
    match cond {
        Cond::Const(a, _, _) => is_of(schema, t, *a),
        Cond::Attrs(a, _, b) => is_of(schema, t, *a) && is_of(schema, t, *b),
    }
}

fn is_of_some(schema: &Schema, tables: &[TableId], a: AttrId) -> bool
    ensures { result ≡ is_of_some schema.now tables.now a }
{
    tables.iter().any(|t| is_of(schema, *t, a))
}

fn is_of(schema: &Schema, t: TableId, a: AttrId) -> bool
    ensures { result ≡ is_of schema.now t.0 a }
{
    match schema.attrs.as_slice().get(usize::from(a.0)) {
        Some(info) => info.table.0 == t.0,
        None => false,
    }
}
