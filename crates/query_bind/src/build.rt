ghost use Rattle.std.specs.Prelude.{◌≡◌, ◌≤◌, ◌||◌, ◌∷◌, ◌++◌, [], All, List, length, map, IfOk, OnOk};
ghost use Rattle.std.specs.List.{flat_map, list_any};
ghost use Rattle.mq_base.specs.declared.schema.Schema.{Schema};
ghost use Rattle.sql_reader.specs.Syntax.{column_of, condition_of, having_of, item_of, literal_of, side_of};
ghost use Rattle.query_bind.specs.Bound.{bound_condition, bound_having, bound_item, bound_side, group_set, is_count};
ghost use Rattle.query_bind.specs.inside.Ranges.{ConditionFits, Fits, HavingFits, SideFits};
ghost use Rattle.query_bind.specs.inside.Results.{const_test, selects_count, tests_count};

use crate::literals::{literal_number, literal_value};
use crate::names::attribute_of;
use mq_base::{AttrId, AttrSet, CmpOp, Cond, Having, Item, NoMemory, Schema, Seq};
use sql_reader::{RawCol, RawCond, RawHaving, RawItem, RawLit, RawSide, RawSource};
use std::alloc::Global;

/// A part of a query that is a list of items in the query with ids.
pub trait Bind<B> {
    /// The items, in order.
    ghost bound: { Schema → Self → List B };

    /// Each number of the part is within 64 bits.
    ghost fits: { Self → Type 0 };

    /// Puts the items at the end.
    fn bind(&self, alloc: Global, schema: &Schema, out: &mut Seq<B>) -> Result<(), NoMemory>
        requires { length schema.now.attrs ≤ 64 }
        ensures bound { OnOk result (out.new ≡ out.old ++ bound schema.now self.now) }
        ensures fits { OnOk result (fits self.now) };
}

/// Puts the items of each part at the end, in order.
pub fn bind_each<B, T: Bind<B>>(
    alloc: Global,
    schema: &Schema,
    out: &mut Seq<B>,
    parts: &[T],
) -> Result<(), NoMemory>
    requires { length schema.now.attrs ≤ 64 }
    ensures bound { OnOk result (out.new ≡ out.old ++ flat_map (T.bound schema.now) parts.now) }
    ensures fits { OnOk result (All T.fits parts.now) }
{
    for part in parts {
        part.bind(alloc, schema, out)?;
    }
    Ok(())
}

impl Bind<Item> for RawItem<'_> {
    ghost bound = { λ schema i. bound_item schema (item_of i) ∷ [] };

    ghost fits = { λ i. Unit {0} };

    fn bind(&self, _alloc: Global, schema: &Schema, out: &mut Seq<Item>) -> Result<(), NoMemory> {
        out.push(bound_item(schema, self))
    }
}

impl Bind<Cond> for RawCond<'_> {
    ghost bound = { λ schema c. bound_condition schema (condition_of c) ∷ [] };

    ghost fits = { λ c. ConditionFits (condition_of c) };

    fn bind(&self, alloc: Global, schema: &Schema, out: &mut Seq<Cond>) -> Result<(), NoMemory> {
        out.push(bound_condition(alloc, schema, self)?)
    }
}

impl Bind<Cond> for RawSource<'_> {
    ghost bound = { λ schema s. flat_map (λ c. bound_condition schema (condition_of c) ∷ []) s.on };

    ghost fits = { λ s. All (λ c. ConditionFits (condition_of c)) s.on };

    fn bind(&self, alloc: Global, schema: &Schema, out: &mut Seq<Cond>) -> Result<(), NoMemory> {
        bind_each(alloc, schema, out, self.on.as_slice())
    }
}

impl Bind<Having> for RawHaving<'_> {
    ghost bound = { λ schema h. bound_having schema (having_of h) ∷ [] };

    ghost fits = { λ h. HavingFits (having_of h) };

    fn bind(&self, alloc: Global, schema: &Schema, out: &mut Seq<Having>) -> Result<(), NoMemory> {
        out.push(bound_test(alloc, schema, self)?)
    }
}

fn bound_item(schema: &Schema, item: &RawItem<'_>) -> Item
    requires { length schema.now.attrs ≤ 64 }
    ensures { result ≡ bound_item schema.now (item_of item.now) }
{
    match item {
        RawItem::Col(column) => Item::Attr(attribute_of(schema, column)),
        RawItem::Agg { col, .. } => Item::Attr(attribute_of(schema, col)),
        RawItem::Count { .. } => Item::Count,
    }
}

fn bound_condition(
    alloc: Global,
    schema: &Schema,
    condition: &RawCond<'_>,
) -> Result<Cond, NoMemory>
    requires { length schema.now.attrs ≤ 64 }
    ensures bound { IfOk result (λ bound. bound ≡ bound_condition schema.now (condition_of condition.now)) }
    ensures fits { IfOk result (λ _. ConditionFits (condition_of condition.now)) }
{
    let left = attribute_of(schema, &condition.left);
    bound_side(alloc, schema, left, condition.op, &condition.right)
}

fn bound_side(
    alloc: Global,
    schema: &Schema,
    left: AttrId,
    op: CmpOp,
    right: &RawSide<'_>,
) -> Result<Cond, NoMemory>
    requires { length schema.now.attrs ≤ 64 }
    ensures bound { IfOk result (λ bound. bound ≡ bound_side schema.now left op (side_of right.now)) }
    ensures fits { IfOk result (λ _. SideFits (side_of right.now)) }
{
    match right {
        RawSide::Col(column) => Ok(Cond::Attrs(left, op, attribute_of(schema, column))),
        RawSide::Lit(literal) => Ok(Cond::Const(left, op, literal_value(alloc, literal)?)),
    }
}

fn bound_test(alloc: Global, schema: &Schema, test: &RawHaving<'_>) -> Result<Having, NoMemory>
    requires { length schema.now.attrs ≤ 64 }
    ensures bound { IfOk result (λ bound. bound ≡ bound_having schema.now (having_of test.now)) }
    ensures fits { IfOk result (λ _. HavingFits (having_of test.now)) }
{
    match &test.item {
        RawItem::Col(column) => bound_constant(alloc, schema, column, test.op, &test.lit),
        RawItem::Agg { col, .. } => bound_constant(alloc, schema, col, test.op, &test.lit),
        RawItem::Count { .. } => Ok(Having::Count(test.op, literal_number(&test.lit))),
    }
}

fn bound_constant(
    alloc: Global,
    schema: &Schema,
    column: &RawCol<'_>,
    op: CmpOp,
    literal: &RawLit<'_>,
) -> Result<Having, NoMemory>
    requires { length schema.now.attrs ≤ 64 }
    ensures bound { IfOk result (λ bound. bound ≡ const_test schema.now (column_of column.now) op (literal_of literal.now)) }
    ensures fits { IfOk result (λ _. Fits (literal_of literal.now)) }
{
    let a = attribute_of(schema, column);
    Ok(Having::Const(a, op, literal_value(alloc, literal)?))
}

/// The set of the grouped columns.
#[tactic(auto, using(crate::proofs::BuildLaws::sets))]
pub fn group_set(schema: &Schema, group: &[RawCol<'_>]) -> AttrSet
    requires { length schema.now.attrs ≤ 64 }
    ensures { result.0 ≡ group_set schema.now (map column_of group.now) }
{
    let mut set = AttrSet::EMPTY;
    for column in group {
        set = set.with(attribute_of(schema, column));
    }
    set
}

/// Whether COUNT(*) stands anywhere.
pub fn has_count(items: &[RawItem<'_>], having: &[RawHaving<'_>]) -> bool
    ensures { result ≡ (list_any selects_count items.now || list_any tests_count having.now) }
{
    selects_count(items) || tests_count(having)
}

fn selects_count(items: &[RawItem<'_>]) -> bool
    ensures { result ≡ list_any selects_count items.now }
{
    items.iter().any(|item| is_count(item))
}

fn tests_count(having: &[RawHaving<'_>]) -> bool
    ensures { result ≡ list_any tests_count having.now }
{
    having.iter().any(|test| is_count(&test.item))
}

fn is_count(item: &RawItem<'_>) -> bool
    ensures { result ≡ is_count (item_of item.now) }
{
    match item {
        RawItem::Col(_) => false,
        RawItem::Agg { .. } => false,
        RawItem::Count { .. } => true,
    }
}
