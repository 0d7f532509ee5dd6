ghost use Rattle.std.specs.Prelude.{◌≡◌, ◌<◌, ◌≤◌, [], length, IfErr, IfOk, count_ones};
ghost use Rattle.mq_base.specs.declared.plan.Plan.{Plan};
ghost use Rattle.plan_algebra.specs.Facts.{IsFacts, IsNodeAt, IsPlan, facts_at, leaves_set, node_at};
ghost use Rattle.plan_algebra.specs.Families.{IsFamily};
ghost use Rattle.plan_algebra.specs.PropLaws.{IsFacts-prop, IsPlan-prop};
ghost use Rattle.plan_algebra.specs.Kinds.{IsTreeAt, kind_of};
ghost use Rattle.plan_algebra.specs.Nodes.{tree_at, trees_after};

use crate::facts::NodeFacts;
use crate::gather::{facts_at, gathered, kind_of, leaves_set, node_at};
use crate::kind::Kind;
use mq_base::{AttrSet, NoMemory, NodeId, Plan, PlanOp, Seq};
use std::alloc::Global;

/// A plan with the facts of each of its nodes, each by those of its operands. docs/MODEL.md, "Facts of a node".
#[derive(Drop)]
pub struct PlanFacts {
    pub plan: Plan,
    /// The facts of each node of the plan.
    pub nodes: Seq<NodeFacts>,
    /// The attributes of all leaves.
    pub used: AttrSet,
    pub ghost is_plan: { IsPlan plan } by { IsPlan-prop plan },
    pub ghost are_facts: { IsFacts plan.nodes nodes } by { IsFacts-prop plan.nodes nodes },
    pub ghost are_used: { used.0 ≡ leaves_set plan.nodes },
}

impl PlanFacts {
    /// The facts of a plan that `plan_of` gave. Where memory is wanting the plan is handed back. The time is linear in the
    /// nodes times the attributes.
    pub fn of(alloc: Global, plan: Plan) -> Result<PlanFacts, (Plan, NoMemory)>
        requires { IsPlan plan }
        ensures plan { IfOk result (λ made. made.plan ≡ plan) }
        ensures facts { IfOk result (λ made. IsFacts plan.nodes made.nodes) }
        ensures handed_back { IfErr result (λ e. e.0 ≡ plan) }
    {
        match gathered(alloc, plan.nodes.as_slice()) {
            Ok(nodes) => {
                let used = leaves_set(plan.nodes.as_slice());
                Ok(PlanFacts { plan, nodes, used })
            }
            Err(no_memory) => Err((plan, no_memory)),
        }
    }

    /// The number of nodes, from 1 to 64; the last one is the root. It takes no memory.
    pub fn node_count(&self) -> usize
        ensures counted { result ≡ length self.now.plan.nodes }
        ensures some { 1 ≤ result }
        ensures few { result ≤ 64 }
    {
        self.plan.nodes.as_slice().len()
    }

    /// The kind of a node, with its operands, which stand before it. The facts of the node are its operation's by those
    /// of its operands, and the operation names what they have; its tree is made of theirs. It takes no memory.
    #[tactic(auto, using(crate::proofs::TreeLaws::trees))]
    pub fn kind(&self, n: NodeId) -> Kind
        requires { n.0 < length self.now.plan.nodes }
        ensures kind { result ≡ kind_of (node_at self.now.plan.nodes n.0) }
        ensures facts { IsNodeAt (facts_at self.now.nodes) n.0 (node_at self.now.plan.nodes n.0).op result }
        ensures tree { IsTreeAt (tree_at (trees_after [] self.now.plan.nodes)) n.0 (node_at self.now.plan.nodes n.0).op result }
    {
        kind_of(node_at(self.plan.nodes.as_slice(), n))
    }

    /// The operation of a node. It takes no memory.
    pub fn operation(&self, n: NodeId) -> &PlanOp
        requires { n.0 < length self.now.plan.nodes }
        ensures { result.now ≡ (node_at self.now.plan.nodes n.0).op }
    {
        &node_at(self.plan.nodes.as_slice(), n).op
    }

    /// The facts of a node. It takes no memory.
    pub fn facts(&self, n: NodeId) -> &NodeFacts
        requires { n.0 < length self.now.plan.nodes }
        ensures { result.now ≡ facts_at self.now.nodes n.0 }
    {
        facts_at(self.nodes.as_slice(), n)
    }

    /// The attributes that a node has. It takes no memory.
    pub fn visible(&self, n: NodeId) -> AttrSet
        requires { n.0 < length self.now.plan.nodes }
        ensures { result ≡ (facts_at self.now.nodes n.0).visible }
    {
        facts_at(self.nodes.as_slice(), n).visible
    }

    /// The sets of attributes that comparisons up to a node made equivalent. They are disjoint, each has a member, and they
    /// stand in the order of their least members. It takes no memory.
    #[tactic(auto, using(crate::proofs::ClassLaws::families))]
    pub fn equivalent(&self, n: NodeId) -> &[AttrSet]
        requires { n.0 < length self.now.plan.nodes }
        ensures sets { result.now ≡ (facts_at self.now.nodes n.0).eq }
        ensures family { IsFamily result.now }
    {
        facts_at(self.nodes.as_slice(), n).eq.as_slice()
    }

    /// Whether a node has the count column. It takes no memory.
    pub fn counts(&self, n: NodeId) -> bool
        requires { n.0 < length self.now.plan.nodes }
        ensures { result ≡ (facts_at self.now.nodes n.0).count }
    {
        facts_at(self.nodes.as_slice(), n).count
    }

    /// The used attributes, which are those of all leaves. It takes no memory.
    pub fn used(&self) -> AttrSet
        ensures { result.0 ≡ leaves_set self.now.plan.nodes }
    {
        self.used
    }

    /// The number of used attributes. It takes no memory.
    pub fn attribute_count(&self) -> usize
        ensures { result ≡ count_ones (leaves_set self.now.plan.nodes) }
    {
        self.used.0.count_ones() as usize
    }
}
