ghost use Rattle.std.specs.Prelude.{◌≡◌, ◌≤◌, ◌-◌, ◌^◌, if◌then◌else◌, min};
ghost use Rattle.std.specs.List.{list_any};
ghost use Rattle.mq_base.specs.Nodes.{is_of, is_of_some, joins, node_count, unjoined};
ghost use Rattle.mq_base.specs.Small.{HasSmallIds};
ghost use Rattle.query_bind.specs.Faults.{nodes_fault};
ghost use Rattle.query_bind.specs.inside.Results.{fault_of};

use crate::fault::{Fault, refuse_if};
use crate::names::table_of;
use crate::refusal::BindCode;
use mq_base::{AttrId, Cond, Query, Schema, TableId};

/// The plan of the query has at most 64 nodes.
pub fn check_nodes(schema: &Schema, query: &Query) -> Result<(), Fault>
    requires { HasSmallIds query.now }
    ensures { fault_of result ≡ nodes_fault schema.now query.now }
{
    refuse_if(node_count(schema, query) > 64, BindCode::TooManyNodes, 0)
}

// The number of nodes of the query's plan, cut at the largest number.
#[tactic(auto, unfolding(mq_base::specs::Nodes::node_count))]
fn node_count(schema: &Schema, query: &Query) -> usize
    requires { HasSmallIds query.now }
    ensures { result ≡ min (node_count schema.now query.now) (2 ^ 64 - 1) }
{
    let tables = query.tables.as_slice();
    let conds = query.conds.as_slice();
    let ends = usize::from(query.grouped) + usize::from(query.projects());
    tables
        .len()
        .saturating_add(conds.len())
        .saturating_add(unjoined(schema, conds, tables))
        .saturating_add(query.having.as_slice().len())
        .saturating_add(ends)
}

// How many tables after the first no condition joins to an earlier one.
#[tactic(auto, using(crate::proofs::NodeLaws::tables))]
fn unjoined(schema: &Schema, conds: &[Cond], tables: &[TableId]) -> usize
    ensures { result ≡ unjoined schema.now conds.now tables.now }
{
    let mut count = 0;
    for at in 1..tables.len() {
        count += one_unless_joined(schema, conds, &tables[..at], tables[at]);
    }
    count
}

// 1 where no condition joins the table to one before it.
fn one_unless_joined(schema: &Schema, conds: &[Cond], earlier: &[TableId], t: TableId) -> usize
    ensures one { result ≡ (if list_any (joins schema.now earlier.now t) conds.now then 0 else 1) }
    ensures small { result ≤ 1 }
{
    if is_joined(schema, conds, earlier, t) {
        0
    } else {
        1
    }
}

// Whether a condition compares an attribute of this table with one of the tables before it.
fn is_joined(schema: &Schema, conds: &[Cond], earlier: &[TableId], t: TableId) -> bool
    ensures { result ≡ list_any (joins schema.now earlier.now t) conds.now }
{
    conds.iter().any(|cond| joins(schema, earlier, t, cond))
}

fn joins(schema: &Schema, earlier: &[TableId], t: TableId, cond: &Cond) -> bool
    ensures { result ≡ joins schema.now earlier.now t cond.now }
{
    match cond {
        Cond::Const(..) => false,
        Cond::Attrs(a, _, b) => {
            (is_of_some(schema, earlier, *a) && is_of(schema, t, *b))
                || (is_of(schema, t, *a) && is_of_some(schema, earlier, *b))
        }
    }
}

fn is_of_some(schema: &Schema, tables: &[TableId], a: AttrId) -> bool
    ensures { result ≡ is_of_some schema.now tables.now a }
{
    tables.iter().any(|t| is_of(schema, *t, a))
}

fn is_of(schema: &Schema, t: TableId, a: AttrId) -> bool
    ensures { result ≡ is_of schema.now t.0 a }
{
    match table_of(schema, a) {
        Some(owner) => owner.0 == t.0,
        None => false,
    }
}
