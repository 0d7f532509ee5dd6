ghost use Rattle.std.specs.Prelude.{◌≡◌, ◌<◌, map, slice_index_or, if◌then◌else◌};
ghost use Rattle.std.specs.List.{range_with_len};
ghost use Rattle.base_laws.specs.Sets.{has};
ghost use Rattle.key_clusters.specs.Clusters as spec;
ghost use Rattle.key_clusters.specs.Clusters.{ceiling_of, cluster_in, least_of, scheme_in, set_of, smaller, wanted};
ghost use Rattle.mq_base.specs.declared.table.Scheme.TheVariants.{Ope};
ghost use Rattle.plan_algebra.specs.Families.{IsFamily, meets};

use crate::asked::{equated_set, ordered_set};
use crate::assigned::Clusters;
use mq_base::{AttrId, AttrSet, NodeId, Scheme};
use plan_algebra::PlanFacts;

/// The clusters of a plan, and their schemes under these ceilings, one for each attribute: an attribute is in the set of the
/// root's equivalent sets that has it, or alone. docs/MODEL.md, "Clusters and keys". It takes no memory, and a time that is
/// linear in the nodes of the plan and the functions of its group.
pub fn clusters(facts: &PlanFacts, ceilings: &[Scheme; 64]) -> Clusters
    ensures cluster { result.cluster ≡ map (cluster_in facts.now) (range_with_len 0 64) }
    ensures scheme { result.scheme ≡ map (scheme_in facts.now ceilings.now) (range_with_len 0 64) }
{
    let family = root_family(facts);
    Clusters {
        cluster: all_clusters(family),
        scheme: all_schemes(family, ordered_set(facts), equated_set(facts), ceilings),
    }
}

// The sets that the whole plan makes equivalent.
pub fn root_family(facts: &PlanFacts) -> &[AttrSet]
    ensures sets { result.now ≡ spec.root_family facts.now }
    ensures family { IsFamily result.now }
{
    facts.equivalent(NodeId((facts.node_count() - 1) as u8))
}

// The set of an attribute.
#[tactic(auto, using(crate::proofs::SetLaws::sets))]
fn set_of(family: &[AttrSet], a: AttrId) -> AttrSet
    requires { a.0 < 64 }
    ensures { result ≡ set_of family.now a.0 }
{
    for set in family {
        if set.has(a) {
            return *set;
        }
    }
    AttrSet::of(a)
}

// The least member of a set.
fn least_of(set: AttrSet) -> AttrId
    ensures { result ≡ least_of set }
{
    AttrId(set.0.trailing_zeros() as u8)
}

// The cluster of each attribute.
fn all_clusters(family: &[AttrSet]) -> [AttrId; 64]
    ensures { result ≡ map (λ a. least_of (set_of family.now a)) (range_with_len 0 64) }
{
    let mut cluster = [AttrId(0); 64];
    for a in 0..64u8 {
        cluster[usize::from(a)] = least_of(set_of(family, AttrId(a)));
    }
    cluster
}

// The scheme of each attribute.
fn all_schemes(
    family: &[AttrSet],
    ordered: AttrSet,
    equated: AttrSet,
    ceilings: &[Scheme; 64],
) -> [Scheme; 64]
    ensures { result ≡ map (λ a. smaller (wanted ordered equated (set_of family.now a)) (ceiling_of ceilings.now (set_of family.now a))) (range_with_len 0 64) }
{
    let mut scheme = [Scheme::Rnd; 64];
    for a in 0..64u8 {
        scheme[usize::from(a)] = scheme_for(set_of(family, AttrId(a)), ordered, equated, ceilings);
    }
    scheme
}

// The scheme of a set.
fn scheme_for(set: AttrSet, ordered: AttrSet, equated: AttrSet, ceilings: &[Scheme; 64]) -> Scheme
    ensures { result ≡ smaller (wanted ordered equated set) (ceiling_of ceilings.now set) }
{
    smaller(wanted(ordered, equated, set), ceiling_of(ceilings, set))
}

// The scheme that serves what is asked of a set.
fn wanted(ordered: AttrSet, equated: AttrSet, set: AttrSet) -> Scheme
    ensures { result ≡ wanted ordered equated set }
{
    if meets(set, ordered) {
        Scheme::Ope
    } else if meets(set, equated) {
        Scheme::Det
    } else {
        Scheme::Rnd
    }
}

fn meets(s: AttrSet, t: AttrSet) -> bool
    ensures { result ≡ meets s t }
{
    s.0 & t.0 != 0
}

// The scheme that tells less of the two.
fn smaller(one: Scheme, other: Scheme) -> Scheme
    ensures { result ≡ smaller one other }
{
    match (one, other) {
        (Scheme::Rnd, _) => Scheme::Rnd,
        (Scheme::Det, Scheme::Rnd) => Scheme::Rnd,
        (Scheme::Det, _) => Scheme::Det,
        (Scheme::Ope, _) => other,
    }
}

// The least ceiling of the members of a set.
#[tactic(auto, using(crate::proofs::CeilingLaws::ceilings))]
fn ceiling_of(ceilings: &[Scheme; 64], set: AttrSet) -> Scheme
    ensures { result ≡ ceiling_of ceilings.now set }
{
    let mut least = Scheme::Ope;
    for a in 0..64u8 {
        least = lowered(least, set, AttrId(a), ceiling_at(ceilings, AttrId(a)));
    }
    least
}

// The ceiling of an attribute.
fn ceiling_at(ceilings: &[Scheme; 64], a: AttrId) -> Scheme
    requires { a.0 < 64 }
    ensures { result ≡ slice_index_or ceilings.now a.0 Ope }
{
    ceilings[usize::from(a.0)]
}

// A scheme lowered to the ceiling of a member.
fn lowered(least: Scheme, set: AttrSet, a: AttrId, ceiling: Scheme) -> Scheme
    requires { a.0 < 64 }
    ensures { result ≡ (if has set.0 a.0 then smaller least ceiling else least) }
{
    if set.has(a) {
        smaller(least, ceiling)
    } else {
        least
    }
}
