ghost use Rattle.std.specs.Prelude.{◌≡◌, ◌↔◌, ◌<◌, ℕ, true, false, length};
ghost use Rattle.base_laws.specs.Firsts.{judged};
ghost use Rattle.base_laws.specs.Sets as sets;
ghost use Rattle.policy_base.specs.Accepted.{plain_of, sealed_of};
ghost use Rattle.relation_profile.specs.Nodes.{profile_at};
ghost use Rattle.relation_profile.specs.Profile.{Profile};
ghost use Rattle.relation_profile.specs.View.{profile_of};
ghost use Rattle.view_authority.specs.Authority as authority;
ghost use Rattle.view_authority.specs.Breaches as breaches;

use crate::breach::Breach;
use mq_base::{AttrId, AttrSet, NodeId, SubjectId};
use plan_algebra::PlanFacts;
use policy_base::Policy;
use relation_profile::View;

/// Whether a subject is authorised for the table that a view of a node stands for: `Ok` exactly where the three conditions
/// hold, and else the first that fails, with an attribute that breaks it. docs/MODEL.md, "Authorised". It takes no memory,
/// and a time that is linear in the equivalent sets of the node.
pub fn check_view(
    policy: &Policy,
    s: SubjectId,
    facts: &PlanFacts,
    node: NodeId,
    view: &View,
) -> Result<(), Breach>
    requires subject { s.0 < 16 }
    requires node { node.0 < length facts.now.plan.nodes }
    ensures found { result ≡ judged (breaches.breach (plain_of policy.now s.0) (sealed_of policy.now s.0) (profile_at facts.now node.0 view.now)) tt }
{
    match breach(
        policy.plain(s),
        policy.sealed(s),
        facts.visible(node),
        facts.equivalent(node),
        view,
    ) {
        None => Ok(()),
        Some(found) => Err(found),
    }
}

// The first condition that a view breaks, at a node with this visible set and family, for a subject that may see these sets
// plain and sealed.
fn breach(
    plain: AttrSet,
    sealed: AttrSet,
    visible: AttrSet,
    family: &[AttrSet],
    view: &View,
) -> Option<Breach>
    ensures { result ≡ breaches.breach plain.0 sealed.0 (profile_of (record { visible = visible; eq = family.now; count = false }) view.now) }
{
    let shown = visible.difference(view.enc).union(view.ip);
    if let Some(found) = least_breach(1, shown.difference(plain)) {
        return Some(found);
    }
    let hidden = view.enc.union(view.ie);
    if let Some(found) = least_breach(2, hidden.difference(plain.union(sealed))) {
        return Some(found);
    }
    family_breach(plain, sealed, family)
}

// The first set of a family that breaks the third condition.
fn family_breach(plain: AttrSet, sealed: AttrSet, family: &[AttrSet]) -> Option<Breach>
    ensures { result ≡ breaches.family_breach plain.0 sealed.0 family.now }
{
    for set in family {
        if let Some(found) = set_breach(plain, sealed, *set) {
            return Some(found);
        }
    }
    None
}

// Whether and by which attribute a set of equivalent attributes breaks the third condition.
fn set_breach(plain: AttrSet, sealed: AttrSet, set: AttrSet) -> Option<Breach>
    ensures { result ≡ breaches.set_breach plain.0 sealed.0 set }
{
    if is_within(set, plain) || is_within(set, sealed) {
        None
    } else {
        least_breach(3, set.difference(plain))
    }
}

// The breach of a condition by the least member of a set, where it has one.
fn least_breach(rule: u8, set: AttrSet) -> Option<Breach>
    ensures { result ≡ breaches.least_breach rule set.0 }
{
    if set.0 == 0 {
        return None;
    }
    Some(Breach {
        rule,
        attr: AttrId(set.0.trailing_zeros() as u8),
    })
}

// Whether each member of a set is one of another.
fn is_within(set: AttrSet, other: AttrSet) -> bool
    ensures { result ≡ sets.is_within set.0 other.0 }
{
    set.0 | other.0 == other.0
}

/// No condition is broken exactly where the subject may hold a table of the profile.
pub fn may_exactly()
    ensures { (plain sealed : ℕ) (p : Profile) → (breaches.breach plain sealed p ≡ None) ↔ (authority.may plain sealed p ≡ true) }
{}
