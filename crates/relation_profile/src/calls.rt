ghost use Rattle.std.specs.Prelude.{◌≡◌, ◌<◌, length, option_map, IfSome};
ghost use Rattle.plan_algebra.specs.declared.kind.Kind.TheVariants as kind;
ghost use Rattle.plan_algebra.specs.Facts.{node_at};
ghost use Rattle.plan_algebra.specs.Kinds.{kind_of};
ghost use Rattle.relation_profile.specs.Nodes.{IsBinary, IsUnary, IsViewAt, binary_after, leaf_at, profile_at, unary_after};
ghost use Rattle.relation_profile.specs.Runnable.{run_dec, run_enc};
ghost use Rattle.relation_profile.specs.View.{view_of};

use crate::after::{dec, enc, one, two};
use crate::view::View;
use mq_base::{AttrId, AttrSet, NodeId, Scheme};
use plan_algebra::{Kind, PlanFacts};

/// The view of a leaf, where the attributes in `rest` are sealed at rest and no other ones are. docs/MODEL.md, "Relation
/// profile". It takes no memory.
pub fn leaf_view(facts: &PlanFacts, node: NodeId, rest: AttrSet) -> View
    requires node { node.0 < length facts.now.plan.nodes }
    requires leaf { kind_of (node_at facts.now.plan.nodes node.0) ≡ kind.Leaf }
    ensures answers { result ≡ view_of (leaf_at facts.now node.0 rest.0) }
    ensures stands { profile_at facts.now node.0 result ≡ leaf_at facts.now node.0 rest.0 }
    ensures within { IsViewAt facts.now node.0 result }
{
    View {
        enc: facts.visible(node).intersection(rest),
        ip: AttrSet::EMPTY,
        ie: AttrSet::EMPTY,
    }
}

/// The view of a node with one operand, by a view of that operand and the scheme of each attribute: None exactly where the
/// node's operation is not runnable there. docs/MODEL.md, "Relation profile" and "Runnable". It takes no memory, and a time
/// that is linear in the grouped attributes and the functions.
pub fn after_unary(
    facts: &PlanFacts,
    schemes: &[Scheme; 64],
    node: NodeId,
    view: &View,
) -> Option<View>
    requires node { node.0 < length facts.now.plan.nodes }
    requires view { IsUnary facts.now node.0 view.now }
    ensures answers { result ≡ option_map view_of (unary_after facts.now schemes.now node.0 view.now) }
    ensures stands { option_map (profile_at facts.now node.0) result ≡ unary_after facts.now schemes.now node.0 view.now }
    ensures within { IfSome result (IsViewAt facts.now node.0) }
{
    match facts.kind(node) {
        Kind::One(x) => one(
            schemes,
            facts.operation(node),
            facts.facts(x),
            facts.visible(node),
            view,
        ),
        _ => None,
    }
}

/// The view of a node with two operands, by their views and the scheme of each attribute: None exactly where the node's
/// operation is not runnable there, wherever the operands are. docs/MODEL.md, "Relation profile" and "Runnable". It takes no
/// memory, and a time that depends on nothing.
pub fn after_binary(
    facts: &PlanFacts,
    schemes: &[Scheme; 64],
    node: NodeId,
    left: &View,
    right: &View,
) -> Option<View>
    requires node { node.0 < length facts.now.plan.nodes }
    requires views { IsBinary facts.now node.0 left.now right.now }
    ensures answers { result ≡ option_map view_of (binary_after facts.now schemes.now node.0 left.now right.now) }
    ensures stands { option_map (profile_at facts.now node.0) result ≡ binary_after facts.now schemes.now node.0 left.now right.now }
    ensures within { IfSome result (IsViewAt facts.now node.0) }
{
    match facts.kind(node) {
        Kind::Two(x, y) => two(
            schemes,
            facts.operation(node),
            facts.facts(x),
            facts.facts(y),
            left,
            right,
        ),
        _ => None,
    }
}

/// The view of a node after the encryption of an attribute: None exactly where it is not visible in plaintext, as one that the
/// node does not have. docs/MODEL.md, "Relation profile". It takes no memory, and a time that depends on nothing.
pub fn after_enc(facts: &PlanFacts, node: NodeId, a: AttrId, view: &View) -> Option<View>
    requires node { node.0 < length facts.now.plan.nodes }
    requires view { IsViewAt facts.now node.0 view.now }
    ensures answers { result ≡ option_map view_of (run_enc a.0 (profile_at facts.now node.0 view.now)) }
    ensures stands { option_map (profile_at facts.now node.0) result ≡ run_enc a.0 (profile_at facts.now node.0 view.now) }
    ensures within { IfSome result (IsViewAt facts.now node.0) }
{
    enc(facts.facts(node), a, view)
}

/// The view of a node after the decryption of an attribute: None exactly where it is not visible encrypted, as one that the
/// node does not have. docs/MODEL.md, "Relation profile". It takes no memory, and a time that depends on nothing.
pub fn after_dec(facts: &PlanFacts, node: NodeId, a: AttrId, view: &View) -> Option<View>
    requires node { node.0 < length facts.now.plan.nodes }
    requires view { IsViewAt facts.now node.0 view.now }
    ensures answers { result ≡ option_map view_of (run_dec a.0 (profile_at facts.now node.0 view.now)) }
    ensures stands { option_map (profile_at facts.now node.0) result ≡ run_dec a.0 (profile_at facts.now node.0 view.now) }
    ensures within { IfSome result (IsViewAt facts.now node.0) }
{
    dec(facts.facts(node), a, view)
}
