ghost use Rattle.std.specs.Prelude.{◌≡◌, ◌<◌, All, ◌&&◌};
ghost use Rattle.std.specs.List.{list_all};
ghost use Rattle.mq_base.specs.declared.ids.AttrId.{AttrId};
ghost use Rattle.mq_base.specs.declared.query.Agg.{Agg};
ghost use Rattle.base_laws.specs.Sets.{has};
ghost use Rattle.relation_profile.specs.Runnable as runnable;
ghost use Rattle.relation_profile.specs.inside.Seen.{showing};

use crate::scheme::offers;
use crate::seen::Seen;
use mq_base::{Agg, AttrId, AttrSet, CmpOp, Scheme};

// Whether an attribute is sealed under a scheme that supports the comparison.
fn is_sealed_for(schemes: &[Scheme; 64], cmp: CmpOp, a: AttrId, seen: Seen) -> bool
    requires { a.0 < 64 }
    ensures { result ≡ runnable.is_sealed_for schemes.now cmp a.0 (showing seen) }
{
    seen.sealed.has(a) && offers(schemes, cmp, a)
}

// Whether an attribute compares so with a constant.
pub fn is_comparable(schemes: &[Scheme; 64], cmp: CmpOp, a: AttrId, seen: Seen) -> bool
    requires { a.0 < 64 }
    ensures { result ≡ runnable.is_comparable schemes.now cmp a.0 (showing seen) }
{
    seen.plain.has(a) || is_sealed_for(schemes, cmp, a, seen)
}

// Whether two attributes compare so.
pub fn are_comparable(schemes: &[Scheme; 64], cmp: CmpOp, a: AttrId, b: AttrId, seen: Seen) -> bool
    requires left { a.0 < 64 }
    requires right { b.0 < 64 }
    ensures { result ≡ runnable.are_comparable schemes.now cmp a.0 b.0 (showing seen) }
{
    are_plain(a, b, seen) || are_sealed_for(schemes, cmp, a, b, seen)
}

// Whether two attributes are both plain.
fn are_plain(a: AttrId, b: AttrId, seen: Seen) -> bool
    requires left { a.0 < 64 }
    requires right { b.0 < 64 }
    ensures { result ≡ (has seen.plain.0 a.0 && has seen.plain.0 b.0) }
{
    seen.plain.has(a) && seen.plain.has(b)
}

// Whether two attributes are both sealed under schemes that support the comparison.
fn are_sealed_for(schemes: &[Scheme; 64], cmp: CmpOp, a: AttrId, b: AttrId, seen: Seen) -> bool
    requires left { a.0 < 64 }
    requires right { b.0 < 64 }
    ensures { result ≡ (runnable.is_sealed_for schemes.now cmp a.0 (showing seen) && runnable.is_sealed_for schemes.now cmp b.0 (showing seen)) }
{
    is_sealed_for(schemes, cmp, a, seen) && is_sealed_for(schemes, cmp, b, seen)
}

// Whether each member of a set compares so. Only its sealed members are looked at.
pub fn all_comparable(schemes: &[Scheme; 64], cmp: CmpOp, set: AttrSet, seen: Seen) -> bool
    ensures { result ≡ runnable.all_comparable schemes.now cmp set.0 (showing seen) }
{
    let mut left = set.difference(seen.plain);
    while let Some(a) = left.first() {
        if !is_comparable(schemes, cmp, a, seen) {
            return false;
        }
        left = left.difference(AttrSet::of(a));
    }
    true
}

// Whether the functions run over their attributes.
pub fn may_fold_all(schemes: &[Scheme; 64], aggs: &[(AttrId, Agg)], seen: Seen) -> bool
    requires { All (λ (under : AttrId × Agg). under.0.0 < 64) aggs.now }
    ensures { result ≡ list_all (λ (under : AttrId × Agg). runnable.may_fold schemes.now (showing seen) under.0 under.1) aggs.now }
{
    for (a, agg) in aggs {
        if !may_fold(schemes, *a, *agg, seen) {
            return false;
        }
    }
    true
}

// Whether a function runs over an attribute.
fn may_fold(schemes: &[Scheme; 64], a: AttrId, agg: Agg, seen: Seen) -> bool
    requires { a.0 < 64 }
    ensures { result ≡ runnable.may_fold schemes.now (showing seen) a agg }
{
    match agg {
        Agg::Sum => seen.plain.has(a),
        Agg::Min | Agg::Max => is_comparable(schemes, CmpOp::Lt, a, seen),
    }
}
