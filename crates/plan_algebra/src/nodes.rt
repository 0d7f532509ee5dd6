ghost use Rattle.std.specs.Prelude.{◌≡◌, ◌≤◌, ◌-◌, ◌++◌, ◌∷◌, [], length, map, IfOk, OnOk};
ghost use Rattle.mq_base.specs.declared.plan.PlanOp.TheVariants as op;
ghost use Rattle.plan_algebra.specs.inside.Building.{beside_last, over_all, over_if, over_last};
ghost use Rattle.plan_algebra.specs.Nodes.{leaf_node};
ghost use Rattle.plan_algebra.specs.Plan.{kept_by, selection, turned};

use mq_base::{
    AttrSet, CmpOp, Cond, Having, NoMemory, NodeId, PlanNode, PlanOp, Query, Seq, TableId, Text,
    Value,
};
use std::alloc::Global;

// The number of the last node.
pub fn last(nodes: &Seq<PlanNode>) -> NodeId
    requires { length nodes.now ≤ 64 }
    ensures { result.0 ≡ length nodes.now - 1 }
{
    NodeId(nodes.as_slice().len().saturating_sub(1) as u8)
}

// Puts a leaf at the end.
pub fn push_leaf(nodes: &mut Seq<PlanNode>, t: TableId, used: AttrSet) -> Result<(), NoMemory>
    ensures { OnOk result (nodes.new ≡ nodes.old ++ leaf_node t used ∷ []) }
{
    nodes.push(PlanNode {
        op: PlanOp::Base(t, used),
        left: None,
        right: None,
    })
}

// Puts a node on the last one.
pub fn push_over(nodes: &mut Seq<PlanNode>, op: PlanOp) -> Result<(), NoMemory>
    requires { length nodes.old ≤ 64 }
    ensures { OnOk result (nodes.new ≡ over_last op nodes.old) }
{
    let operand = last(nodes);
    nodes.push(PlanNode {
        op,
        left: Some(operand),
        right: None,
    })
}

// Puts a node on the left one and the last one.
pub fn push_beside(nodes: &mut Seq<PlanNode>, op: PlanOp, left: NodeId) -> Result<(), NoMemory>
    requires { length nodes.old ≤ 64 }
    ensures { OnOk result (nodes.new ≡ beside_last op left.0 nodes.old) }
{
    let right = last(nodes);
    nodes.push(PlanNode {
        op,
        left: Some(left),
        right: Some(right),
    })
}

// Puts a condition's selection on the last node, where it is wanted.
pub fn select_if(
    alloc: Global,
    nodes: &mut Seq<PlanNode>,
    wanted: bool,
    cond: &Cond,
) -> Result<(), NoMemory>
    requires { length nodes.old ≤ 64 }
    ensures { OnOk result (nodes.new ≡ over_if wanted (selection cond.now) nodes.old) }
{
    if wanted {
        push_over(nodes, selection(alloc, cond)?)?;
    }
    Ok(())
}

fn selection(alloc: Global, cond: &Cond) -> Result<PlanOp, NoMemory>
    ensures { IfOk result (λ op. op ≡ selection cond.now) }
{
    match cond {
        Cond::Const(a, cmp, value) => Ok(PlanOp::SelConst(*a, *cmp, copied(alloc, value)?)),
        Cond::Attrs(a, cmp, b) => Ok(PlanOp::SelAttr(*a, *cmp, *b)),
    }
}

fn kept_by(alloc: Global, having: &Having) -> Result<PlanOp, NoMemory>
    ensures { IfOk result (λ op. op ≡ kept_by having.now) }
{
    match having {
        Having::Const(a, cmp, value) => Ok(PlanOp::SelConst(*a, *cmp, copied(alloc, value)?)),
        Having::Count(cmp, n) => Ok(PlanOp::SelCount(*cmp, *n)),
    }
}

fn copied(alloc: Global, value: &Value) -> Result<Value, NoMemory>
    ensures { IfOk result (λ copy. copy ≡ value.now) }
{
    match value {
        Value::Int(x) => Ok(Value::Int(*x)),
        Value::Text(text) => Ok(Value::Text(Text::copied(alloc, text.as_bytes())?)),
    }
}

// A comparison for its sides exchanged.
pub fn turned(cmp: CmpOp) -> CmpOp
    ensures { result ≡ turned cmp }
{
    match cmp {
        CmpOp::Eq => CmpOp::Eq,
        CmpOp::Ne => CmpOp::Ne,
        CmpOp::Lt => CmpOp::Gt,
        CmpOp::Le => CmpOp::Ge,
        CmpOp::Gt => CmpOp::Lt,
        CmpOp::Ge => CmpOp::Le,
    }
}

// Puts the selections of HAVING on the last node, in order.
#[tactic(auto, using(crate::proofs::BuildingLaws::building))]
pub fn push_having(
    alloc: Global,
    nodes: &mut Seq<PlanNode>,
    having: &[Having],
) -> Result<(), NoMemory>
    requires { length (over_all (map kept_by having.now) nodes.old) ≤ 64 }
    ensures { OnOk result (nodes.new ≡ over_all (map kept_by having.now) nodes.old) }
{
    for condition in having {
        push_over(nodes, kept_by(alloc, condition)?)?;
    }
    Ok(())
}

// The operation of GROUP BY.
pub fn group(alloc: Global, q: &Query) -> Result<PlanOp, NoMemory>
    ensures { IfOk result (λ made. made ≡ op.Group q.now.group q.now.aggs q.now.count) }
{
    let aggs = Vec::from_slice(alloc, q.aggs.as_slice())?;
    Ok(PlanOp::Group(q.group, Seq::of(aggs), q.count))
}
