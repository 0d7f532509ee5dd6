ghost use Rattle.std.specs.Prelude.{◌≡◌, ◌≤◌, max};
ghost use Rattle.cost_model.specs.Estimates as estimates_spec;
ghost use Rattle.cost_model.specs.Estimates.{HasDistinct, combinations, distinct_of, fit, leaf_rule, one_rule, two_rule};

use crate::tables::number_at;
use mq_base::{AttrId, AttrSet, CmpOp, PlanOp};
use policy_base::Prices;

// The stated distinct values of an attribute.
fn distinct_of(prices: &Prices, a: AttrId) -> u64
    ensures { result ≡ distinct_of prices.now a.0 }
{
    number_at(&prices.distinct, a.0)
}

// Of so many rows those that a comparison keeps, where there are so many distinct values.
fn kept(cmp: CmpOp, distinct: u64, rows: u64) -> u64
    requires { 1 ≤ distinct }
    ensures { result ≡ estimates_spec.kept cmp distinct rows }
{
    match cmp {
        CmpOp::Eq => rows.div_ceil(distinct),
        CmpOp::Ne => rows,
        _ => rows.div_ceil(3),
    }
}

// The larger number of distinct values of two attributes.
fn larger(prices: &Prices, a: AttrId, b: AttrId) -> u64
    ensures { result ≡ max (distinct_of prices.now a.0) (distinct_of prices.now b.0) }
{
    distinct_of(prices, a).max(distinct_of(prices, b))
}

// The combinations of the distinct values of these attributes, cut.
fn combinations(prices: &Prices, by: AttrSet) -> u64
    ensures { result ≡ fit (combinations prices.now by.0) }
{
    let mut product = 1u64;
    let mut left = by;
    while let Some(a) = left.first() {
        product = product.saturating_mul(distinct_of(prices, a));
        left = left.difference(AttrSet::of(a));
    }
    product
}

// The rule of a leaf.
pub fn leaf_rule(prices: &Prices, op: &PlanOp) -> u64
    ensures { result ≡ leaf_rule prices.now op.now }
{
    match op {
        PlanOp::Base(t, _) => number_at(&prices.rows, t.0),
        _ => 0,
    }
}

// The rule of an operation on one operand.
pub fn one_rule(prices: &Prices, op: &PlanOp, rows: u64) -> u64
    requires { HasDistinct prices.now op.now }
    ensures { result ≡ one_rule prices.now op.now rows }
{
    match op {
        PlanOp::SelConst(a, cmp, _) => kept(*cmp, distinct_of(prices, *a), rows),
        PlanOp::SelCount(_, _) => rows.div_ceil(3),
        PlanOp::SelAttr(a, cmp, b) => kept(*cmp, larger(prices, *a, *b), rows),
        PlanOp::Group(by, _, _) => rows.min(combinations(prices, *by)),
        _ => rows,
    }
}

// The rule of an operation on two operands, cut.
pub fn two_rule(prices: &Prices, op: &PlanOp, left: u64, right: u64) -> u64
    requires { HasDistinct prices.now op.now }
    ensures { result ≡ fit (two_rule prices.now op.now left right) }
{
    let product = left.saturating_mul(right);
    match op {
        PlanOp::Join(a, cmp, b) => kept(*cmp, larger(prices, *a, *b), product),
        _ => product,
    }
}
