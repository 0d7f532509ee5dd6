ghost use Rattle.std.specs.Prelude.{◌≡◌, ◌<◌, ◌^◌, All, length, if◌then◌else◌};
ghost use Rattle.base_laws.specs.Sets.{with_member, with_members};
ghost use Rattle.key_clusters.specs.Asked.{equated_by, equated_set, extremes, is_extreme, is_order, ordered_by, ordered_set};
ghost use Rattle.key_clusters.specs.inside.Small.{IsSmallOp};
ghost use Rattle.mq_base.specs.Small.{IsSmallAgg};
ghost use Rattle.plan_algebra.specs.Facts.{node_at};
ghost use Rattle.plan_algebra.specs.Families.{pair};

use mq_base::{Agg, AttrId, AttrSet, CmpOp, NodeId, PlanOp};
use plan_algebra::PlanFacts;

// The attributes whose order the plan asks for.
#[tactic(auto, using(crate::proofs::AskedLaws::asked))]
pub fn ordered_set(facts: &PlanFacts) -> AttrSet
    ensures { result ≡ ordered_set facts.now.plan.nodes }
{
    let mut set = AttrSet::EMPTY;
    for n in 0..facts.node_count() {
        set = set.union(ordered_at(facts, NodeId(n as u8)));
    }
    set
}

// The attributes of which the plan asks whether values are equal.
#[tactic(auto, using(crate::proofs::AskedLaws::asked))]
pub fn equated_set(facts: &PlanFacts) -> AttrSet
    ensures { result ≡ equated_set facts.now.plan.nodes }
{
    let mut set = AttrSet::EMPTY;
    for n in 0..facts.node_count() {
        set = set.union(equated_at(facts, NodeId(n as u8)));
    }
    set
}

// What a node orders.
#[tactic(auto, using(crate::proofs::AskedLaws::small))]
fn ordered_at(facts: &PlanFacts, n: NodeId) -> AttrSet
    requires { n.0 < length facts.now.plan.nodes }
    ensures { result.0 ≡ ordered_by (node_at facts.now.plan.nodes n.0).op }
{
    ordered_by(facts.operation(n))
}

// What a node equates.
#[tactic(auto, using(crate::proofs::AskedLaws::small))]
fn equated_at(facts: &PlanFacts, n: NodeId) -> AttrSet
    requires { n.0 < length facts.now.plan.nodes }
    ensures { result.0 ≡ equated_by (node_at facts.now.plan.nodes n.0).op }
{
    equated_by(facts.operation(n))
}

fn ordered_by(op: &PlanOp) -> AttrSet
    requires { IsSmallOp op.now }
    ensures { result.0 ≡ ordered_by op.now }
{
    match op {
        PlanOp::SelConst(a, cmp, _) => only_if(is_order(*cmp), AttrSet::of(*a)),
        PlanOp::SelAttr(a, cmp, b) => only_if(is_order(*cmp), pair(*a, *b)),
        PlanOp::Join(a, cmp, b) => only_if(is_order(*cmp), pair(*a, *b)),
        PlanOp::Group(_, aggs, _) => extremes(aggs.as_slice()),
        _ => AttrSet::EMPTY,
    }
}

fn equated_by(op: &PlanOp) -> AttrSet
    requires { IsSmallOp op.now }
    ensures { result.0 ≡ equated_by op.now }
{
    match op {
        PlanOp::SelConst(a, cmp, _) => unless(is_order(*cmp), AttrSet::of(*a)),
        PlanOp::SelAttr(a, cmp, b) => unless(is_order(*cmp), pair(*a, *b)),
        PlanOp::Join(a, _, b) => pair(*a, *b),
        PlanOp::Group(by, _, _) => *by,
        _ => AttrSet::EMPTY,
    }
}

fn is_order(cmp: CmpOp) -> bool
    ensures { result ≡ is_order cmp }
{
    match cmp {
        CmpOp::Eq | CmpOp::Ne => false,
        _ => true,
    }
}

fn is_extreme(func: Agg) -> bool
    ensures { result ≡ is_extreme func }
{
    match func {
        Agg::Sum => false,
        Agg::Min | Agg::Max => true,
    }
}

fn only_if(wanted: bool, set: AttrSet) -> AttrSet
    ensures { result.0 ≡ (if wanted then set.0 else 0) }
{
    if wanted { set } else { AttrSet::EMPTY }
}

fn unless(unwanted: bool, set: AttrSet) -> AttrSet
    ensures { result.0 ≡ (if unwanted then 0 else set.0) }
{
    if unwanted { AttrSet::EMPTY } else { set }
}

fn pair(a: AttrId, b: AttrId) -> AttrSet
    requires left { a.0 < 64 }
    requires right { b.0 < 64 }
    ensures { result ≡ pair a b }
{
    AttrSet::of(a).with(b)
}

// The attributes under MIN or MAX.
#[tactic(auto, using(crate::proofs::AskedLaws::functions))]
fn extremes(aggs: &[(AttrId, Agg)]) -> AttrSet
    requires { All IsSmallAgg aggs.now }
    ensures { result.0 ≡ with_members 0 (extremes aggs.now) }
{
    let mut set = AttrSet::EMPTY;
    for (a, func) in aggs {
        set = with_extreme(set, *a, *func);
    }
    set
}

fn with_extreme(set: AttrSet, a: AttrId, func: Agg) -> AttrSet
    requires { a.0 < 64 }
    ensures { result.0 ≡ (if is_extreme func then with_member set.0 a.0 else set.0) }
{
    if is_extreme(func) { set.with(a) } else { set }
}
