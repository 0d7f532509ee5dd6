//! What clusters are for, as laws: contracts of functions that do nothing.
ghost use Rattle.std.specs.Prelude.{◌≡◌, ◌<◌, true, All, length, map};
ghost use Rattle.std.specs.List.{range_with_len};
ghost use Rattle.base_laws.specs.Sets.{IsLeastMember};
ghost use Rattle.key_clusters.specs.Clusters as spec;
ghost use Rattle.key_clusters.specs.Clusters.{cluster_in, scheme_in, set_in};
ghost use Rattle.key_clusters.specs.Laws.{IfPair, IsSupported, ShareKey, are_together};
ghost use Rattle.mq_base.specs.declared.table.Scheme.TheVariants.{Ope};
ghost use Rattle.plan_algebra.specs.Facts.{node_at};

use crate::finding::root_family;
use mq_base::{AttrId, NodeId, Scheme};
use plan_algebra::PlanFacts;

/// A cluster is the least member of the set of an attribute.
pub fn cluster_is_least(facts: &PlanFacts, a: AttrId)
    requires { a.0 < 64 }
    ensures { IsLeastMember (set_in facts.now a.0).0 (cluster_in facts.now a.0).0 }
{
    let _family = root_family(facts);
}

/// Two attributes that stand in one of the sets that the whole plan makes equivalent have one cluster, one scheme and one key.
#[tactic(auto, using(crate::proofs::SupportLaws::laws))]
pub fn merged_share_a_key(
    facts: &PlanFacts,
    ceilings: &[Scheme; 64],
    seed: &[u8; 32],
    a: AttrId,
    b: AttrId,
)
    requires { are_together a.0 b.0 (spec.root_family facts.now) ≡ true }
    ensures { ShareKey facts.now ceilings.now seed.now a.0 b.0 }
{
    let _family = root_family(facts);
}

/// So have the two attributes that a node compares, be it a selection or a join.
#[tactic(auto, using(crate::proofs::SupportLaws::laws))]
pub fn compared_share_a_key(facts: &PlanFacts, ceilings: &[Scheme; 64], seed: &[u8; 32], n: NodeId)
    requires { n.0 < length facts.now.plan.nodes }
    ensures { IfPair (node_at facts.now.plan.nodes n.0).op (ShareKey facts.now ceilings.now seed.now) }
{
    let _family = root_family(facts);
}

/// Where no ceiling is below the order-preserving scheme, the schemes support each comparison that a node makes on its attributes,
/// its grouping, and its MIN and MAX.
#[tactic(auto, using(crate::proofs::SupportLaws::laws))]
pub fn schemes_support(facts: &PlanFacts, ceilings: &[Scheme; 64], n: NodeId)
    requires node { n.0 < length facts.now.plan.nodes }
    requires high { All (λ ceiling. ceiling ≡ Ope) ceilings.now }
    ensures { IsSupported (map (scheme_in facts.now ceilings.now) (range_with_len 0 64)) (node_at facts.now.plan.nodes n.0).op }
{}
