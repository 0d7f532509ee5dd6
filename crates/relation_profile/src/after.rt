ghost use Rattle.std.specs.Prelude.{◌≡◌, ◌<◌, All, bit_and, bit_or, Some, None, option_map, if◌then◌else◌};
ghost use Rattle.base_laws.specs.Sets.{has};
ghost use Rattle.plan_algebra.specs.Facts.{IsOneOn, IsTwoOn, one_facts};
ghost use Rattle.relation_profile.specs.Runnable as runnable;
ghost use Rattle.relation_profile.specs.Steps as steps;
ghost use Rattle.relation_profile.specs.View.{IsView, profile_of, view_of};
ghost use Rattle.relation_profile.specs.inside.Seen.{showing};

use crate::runnable::{all_comparable, are_comparable, is_comparable, may_fold_all};
use crate::seen::Seen;
use crate::set::holds;
use crate::view::View;
use mq_base::{AttrId, AttrSet, CmpOp, PlanOp, Scheme};
use plan_algebra::NodeFacts;

/// The view after an operation on one operand with these facts, where it is runnable; `into` is the visible set of its result.
pub fn one(
    schemes: &[Scheme; 64],
    op: &PlanOp,
    facts: &NodeFacts,
    into: AttrSet,
    view: &View,
) -> Option<View>
    requires stands { IsOneOn op.now facts.now }
    requires into { into ≡ (one_facts op.now facts.now).visible }
    requires view { IsView facts.now view.now }
    ensures { result ≡ option_map view_of (runnable.run_one schemes.now op.now (profile_of facts.now view.now)) }
{
    if runs_one(schemes, op, facts, view) {
        Some(after_one(op, facts, into, view))
    } else {
        None
    }
}

// Whether an operation on one operand is runnable.
fn runs_one(schemes: &[Scheme; 64], op: &PlanOp, facts: &NodeFacts, view: &View) -> bool
    requires { IsOneOn op.now facts.now }
    ensures { result ≡ runnable.runs_one schemes.now op.now (profile_of facts.now view.now) }
{
    let seen = Seen::at(facts, view);
    match op {
        PlanOp::Project(_) | PlanOp::SelCount(_, _) => true,
        PlanOp::SelConst(a, cmp, _) => is_comparable(schemes, *cmp, *a, seen),
        PlanOp::SelAttr(a, cmp, b) => are_comparable(schemes, *cmp, *a, *b, seen),
        PlanOp::Group(by, aggs, _) => {
            all_comparable(schemes, CmpOp::Eq, *by, seen)
                && may_fold_all(schemes, aggs.as_slice(), seen)
        }
        _ => false,
    }
}

// The view after an operation on one operand.
fn after_one(op: &PlanOp, facts: &NodeFacts, into: AttrSet, view: &View) -> View
    requires stands { IsOneOn op.now facts.now }
    requires into { into ≡ (one_facts op.now facts.now).visible }
    requires view { IsView facts.now view.now }
    ensures { result ≡ view_of (steps.after_one op.now (profile_of facts.now view.now)) }
{
    match op {
        PlanOp::Project(_) => cut(*view, into),
        PlanOp::SelConst(a, _, _) => imply(facts, AttrSet::of(*a), view),
        PlanOp::Group(by, _, _) => cut(imply(facts, *by, view), into),
        _ => *view,
    }
}

// The view after rows were chosen or grouped by a set.
fn imply(facts: &NodeFacts, set: AttrSet, view: &View) -> View
    ensures { result ≡ view_of (steps.imply set.0 (profile_of facts.now view.now)) }
{
    let seen = Seen::at(facts, view);
    View {
        enc: view.enc,
        ip: view.ip.union(seen.plain.intersection(set)),
        ie: view.ie.union(seen.sealed.intersection(set)),
    }
}

// The view of what is left when the visible attributes are cut to a set.
fn cut(view: View, kept: AttrSet) -> View
    ensures { result ≡ record view { enc = record { 0 = bit_and view.enc.0 kept.0 } } }
{
    View {
        enc: view.enc.intersection(kept),
        ip: view.ip,
        ie: view.ie,
    }
}

/// The view after an operation on two operands with these facts, where it is runnable.
pub fn two(
    schemes: &[Scheme; 64],
    op: &PlanOp,
    left_facts: &NodeFacts,
    right_facts: &NodeFacts,
    left: &View,
    right: &View,
) -> Option<View>
    requires { IsTwoOn op.now left_facts.now right_facts.now }
    ensures { result ≡ option_map view_of (runnable.run_two schemes.now op.now (profile_of left_facts.now left.now) (profile_of right_facts.now right.now)) }
{
    let seen = Seen::at(left_facts, left).union(Seen::at(right_facts, right));
    match op {
        PlanOp::Product => Some(both(left, right)),
        PlanOp::Join(a, cmp, b) if are_comparable(schemes, *cmp, *a, *b, seen) => Some(both(
            left, right,
        )),
        _ => None,
    }
}

// The view of two tables beside each other.
fn both(left: &View, right: &View) -> View
    ensures { result ≡ record { enc = record { 0 = bit_or left.now.enc.0 right.now.enc.0 }; ip = record { 0 = bit_or left.now.ip.0 right.now.ip.0 }; ie = record { 0 = bit_or left.now.ie.0 right.now.ie.0 } } }
{
    View {
        enc: left.enc.union(right.enc),
        ip: left.ip.union(right.ip),
        ie: left.ie.union(right.ie),
    }
}

/// The view after the encryption of an attribute at a node with these facts, where it is visible in plaintext.
pub fn enc(facts: &NodeFacts, a: AttrId, view: &View) -> Option<View>
    ensures { result ≡ option_map view_of (runnable.run_enc a.0 (profile_of facts.now view.now)) }
{
    if holds(Seen::at(facts, view).plain, a) {
        Some(View {
            enc: view.enc.union(AttrSet::of(a)),
            ip: view.ip,
            ie: view.ie,
        })
    } else {
        None
    }
}

/// The view after the decryption of an attribute at a node with these facts, where it is visible encrypted.
pub fn dec(facts: &NodeFacts, a: AttrId, view: &View) -> Option<View>
    ensures { result ≡ option_map view_of (runnable.run_dec a.0 (profile_of facts.now view.now)) }
{
    if holds(view.enc, a) {
        Some(View {
            enc: view.enc.difference(AttrSet::of(a)),
            ip: view.ip,
            ie: view.ie,
        })
    } else {
        None
    }
}
