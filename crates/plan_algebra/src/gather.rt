ghost use Rattle.std.specs.Prelude.{◌≡◌, ◌<◌, ◌≤◌, ◌+◌, [], length, IfOk, OnOk};
ghost use Rattle.plan_algebra.specs.Facts.{IsOneOn, IsTwoOn, compared, cut_to, facts_at, group_set, leaf_set, leaves_set, node_at, one_facts, product_facts, two_facts};
ghost use Rattle.plan_algebra.specs.inside.Gathering.{AllStand, IsBase, Stands, base_facts, facts_after, node_facts};
ghost use Rattle.plan_algebra.specs.Kinds.{kind_of};

use crate::facts::NodeFacts;
use crate::families::{merged, united};
use crate::kind::Kind;
use mq_base::{AttrId, AttrSet, NoMemory, NodeId, PlanNode, PlanOp, Seq};
use std::alloc::Global;

// The facts of all nodes.
#[tactic(auto, using(crate::proofs::GatherLaws::gathering))]
pub fn gathered(alloc: Global, nodes: &[PlanNode]) -> Result<Seq<NodeFacts>, NoMemory>
    requires { AllStand [] nodes.now }
    ensures { IfOk result (λ facts. facts ≡ facts_after [] nodes.now) }
{
    let mut facts = Seq::new(alloc);
    for node in nodes {
        let next = node_facts(alloc, facts.as_slice(), node)?;
        facts.push(next)?;
    }
    Ok(facts)
}

// The facts of a node, by those of the nodes before it.
fn node_facts(alloc: Global, earlier: &[NodeFacts], node: &PlanNode) -> Result<NodeFacts, NoMemory>
    requires { Stands earlier.now node.now }
    ensures { IfOk result (λ facts. facts ≡ node_facts earlier.now node.now) }
{
    match kind_of(node) {
        Kind::Leaf => Ok(base_facts(alloc, &node.op)),
        Kind::One(x) => one_facts(alloc, &node.op, facts_at(earlier, x)),
        Kind::Two(x, y) => two_facts(alloc, &node.op, facts_at(earlier, x), facts_at(earlier, y)),
    }
}

// The kind of a node.
pub fn kind_of(node: &PlanNode) -> Kind
    ensures { result ≡ kind_of node.now }
{
    match (node.left, node.right) {
        (None, _) => Kind::Leaf,
        (Some(x), None) => Kind::One(x),
        (Some(x), Some(y)) => Kind::Two(x, y),
    }
}

// The facts of a node.
pub fn facts_at(facts: &[NodeFacts], n: NodeId) -> &NodeFacts
    requires { n.0 < length facts.now }
    ensures { result.now ≡ facts_at facts.now n.0 }
{
    &facts[usize::from(n.0)]
}

// The facts of an operation without operands.
fn base_facts(alloc: Global, op: &PlanOp) -> NodeFacts
    ensures { result ≡ base_facts op.now }
{
    let visible = match op {
        PlanOp::Base(_, used) => *used,
        _ => AttrSet::EMPTY,
    };
    NodeFacts {
        visible,
        eq: Seq::new(alloc),
        count: false,
    }
}

// The facts of an operation on one operand.
fn one_facts(alloc: Global, op: &PlanOp, operand: &NodeFacts) -> Result<NodeFacts, NoMemory>
    requires { IsOneOn op.now operand.now }
    ensures { IfOk result (λ facts. facts ≡ one_facts op.now operand.now) }
{
    match op {
        PlanOp::Project(kept) => cut_to(alloc, *kept, operand, operand.count),
        PlanOp::SelAttr(a, _, b) => compared(
            alloc,
            *a,
            *b,
            operand.visible,
            operand.eq.as_slice(),
            operand.count,
        ),
        PlanOp::Group(by, aggs, count) => cut_to(
            alloc,
            by.with_aggregated(aggs.as_slice()),
            operand,
            *count,
        ),
        _ => same(alloc, operand),
    }
}

// The same facts.
fn same(alloc: Global, facts: &NodeFacts) -> Result<NodeFacts, NoMemory>
    ensures { IfOk result (λ made. made ≡ facts.now) }
{
    Ok(NodeFacts {
        visible: facts.visible,
        eq: Seq::of(Vec::from_slice(alloc, facts.eq.as_slice())?),
        count: facts.count,
    })
}

// Facts with the visible attributes cut to a set, and this count.
fn cut_to(
    alloc: Global,
    kept: AttrSet,
    facts: &NodeFacts,
    count: bool,
) -> Result<NodeFacts, NoMemory>
    ensures { IfOk result (λ made. made ≡ record { visible = (cut_to kept.0 facts.now).visible; eq = facts.now.eq; count = count }) }
{
    Ok(NodeFacts {
        visible: facts.visible.intersection(kept),
        eq: Seq::of(Vec::from_slice(alloc, facts.eq.as_slice())?),
        count,
    })
}

// Facts with two attributes made equivalent.
fn compared(
    alloc: Global,
    a: AttrId,
    b: AttrId,
    visible: AttrSet,
    eq: &[AttrSet],
    count: bool,
) -> Result<NodeFacts, NoMemory>
    requires left { a.0 < 64 }
    requires right { b.0 < 64 }
    ensures { IfOk result (λ made. made ≡ compared a b (record { visible = visible; eq = eq.now; count = count })) }
{
    Ok(NodeFacts {
        visible,
        eq: Seq::of(merged(alloc, a, b, eq)?),
        count,
    })
}

// The facts of an operation on two operands.
fn two_facts(
    alloc: Global,
    op: &PlanOp,
    left: &NodeFacts,
    right: &NodeFacts,
) -> Result<NodeFacts, NoMemory>
    requires { IsTwoOn op.now left.now right.now }
    ensures { IfOk result (λ facts. facts ≡ two_facts op.now left.now right.now) }
{
    let both = product_facts(alloc, left, right)?;
    match op {
        PlanOp::Join(a, _, b) => compared(
            alloc,
            *a,
            *b,
            both.visible,
            both.eq.as_slice(),
            both.count,
        ),
        _ => Ok(both),
    }
}

// The facts of a product.
fn product_facts(alloc: Global, left: &NodeFacts, right: &NodeFacts) -> Result<NodeFacts, NoMemory>
    ensures { IfOk result (λ facts. facts ≡ product_facts left.now right.now) }
{
    Ok(NodeFacts {
        visible: left.visible.union(right.visible),
        eq: Seq::of(united(alloc, left.eq.as_slice(), right.eq.as_slice())?),
        count: left.count || right.count,
    })
}

// The attributes of all leaves.
#[tactic(auto, using(crate::proofs::GatherLaws::gathering))]
pub fn leaves_set(nodes: &[PlanNode]) -> AttrSet
    ensures { result.0 ≡ leaves_set nodes.now }
{
    let mut set = AttrSet::EMPTY;
    for node in nodes {
        set = set.union(leaf_set(&node.op));
    }
    set
}

fn leaf_set(op: &PlanOp) -> AttrSet
    ensures { result.0 ≡ leaf_set op.now }
{
    match op {
        PlanOp::Base(_, used) => *used,
        _ => AttrSet::EMPTY,
    }
}

// A node of a plan.
pub fn node_at(nodes: &[PlanNode], n: NodeId) -> &PlanNode
    requires { n.0 < length nodes.now }
    ensures { result.now ≡ node_at nodes.now n.0 }
{
    &nodes[usize::from(n.0)]
}
