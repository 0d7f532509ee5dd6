ghost use Rattle.std.specs.Prelude.{◌≡◌, ◌≤◌, [], length, map, IfOk, OnOk, option_map};
ghost use Rattle.base_laws.specs.Firsts.{StopsAt, first_of};
ghost use Rattle.sql_reader.specs.Syntax.{column_of, item_of, literal_of};
ghost use Rattle.query_bind.specs.Codes.{refusal_of};
ghost use Rattle.query_bind.specs.Faults.{bare_item_fault, function_fault, grouped_item_fault, is_long_literal, is_mistyped, is_no_sum, is_text, is_under_another, item_fault, same_function};
ghost use Rattle.query_bind.specs.Lookup.{is_some_column};
ghost use Rattle.query_bind.specs.inside.Gathered.{aggs_after, gathered_fault, is_listed, with_aggregate, with_item};
ghost use Rattle.query_bind.specs.inside.Results.{fault_of, selected_of, tested_of, uses_of};

use crate::fault::{Fault, refuse_if};
use crate::literals::{is_long, literal_type};
use crate::names::{attribute_of, has_type};
use crate::refusal::{BindCode, BindNo};
use mq_base::{Agg, AttrId, AttrSet, NoMemory, Schema, Seq, ValueType};
use sql_reader::{RawCol, RawHaving, RawItem, RawLit, RawQuery};
use std::alloc::Global;

/// Whether there is a GROUP BY.
pub fn has_group(group: &[RawCol<'_>]) -> bool
    ensures { result ≡ is_some_column (map column_of group.now) }
{
    match group {
        [] => false,
        [_, ..] => true,
    }
}

/// Without GROUP BY no item is a function or the count.
#[tactic(auto, using(crate::proofs::WalkLaws::walks))]
pub fn check_bare(items: &[RawItem<'_>]) -> Result<(), Fault>
    ensures { fault_of result ≡ first_of (map bare_item_fault (map item_of items.now)) }
{
    for item in items {
        check_bare_item(item)?;
    }
    Ok(())
}

fn check_bare_item(item: &RawItem<'_>) -> Result<(), Fault>
    ensures { fault_of result ≡ bare_item_fault (item_of item.now) }
{
    match item {
        RawItem::Col(_) => Ok(()),
        RawItem::Agg { at, .. } => Err(Fault::new(BindCode::AggregateWithoutGroup, *at)),
        RawItem::Count { at } => Err(Fault::new(BindCode::AggregateWithoutGroup, *at)),
    }
}

/// With GROUP BY each selected column is one of the group.
#[tactic(auto, using(crate::proofs::WalkLaws::walks))]
pub fn check_grouped(schema: &Schema, group: AttrSet, items: &[RawItem<'_>]) -> Result<(), Fault>
    requires { length schema.now.attrs ≤ 64 }
    ensures { fault_of result ≡ first_of (map (grouped_item_fault schema.now group.0) (map item_of items.now)) }
{
    for item in items {
        check_grouped_item(schema, group, item)?;
    }
    Ok(())
}

fn check_grouped_item(schema: &Schema, group: AttrSet, item: &RawItem<'_>) -> Result<(), Fault>
    requires { length schema.now.attrs ≤ 64 }
    ensures { fault_of result ≡ grouped_item_fault schema.now group.0 (item_of item.now) }
{
    match item {
        RawItem::Col(column) => {
            let grouped = group.has(attribute_of(schema, column));
            refuse_if(!grouped, BindCode::NotGrouped, column.at)
        }
        RawItem::Agg { .. } => Ok(()),
        RawItem::Count { .. } => Ok(()),
    }
}

/// The attributes under functions, each with its function, in the order of their first use. Each function and count
/// of the select list, and of HAVING after it, can be had.
#[tactic(auto, using(crate::proofs::UseLaws::joins))]
pub fn check_uses(
    alloc: Global,
    schema: &Schema,
    group: AttrSet,
    raw: &RawQuery<'_>,
) -> Result<Seq<(AttrId, Agg)>, BindNo>
    requires { length schema.now.attrs ≤ 64 }
    ensures fault { StopsAt refusal_of result (gathered_fault schema.now group.0 [] (uses_of raw.now)) }
    ensures aggs { IfOk result (λ aggs. aggs ≡ aggs_after schema.now [] (uses_of raw.now)) }
{
    let mut aggs = Seq::new(alloc);
    check_selected(schema, group, &mut aggs, raw.items.as_slice())?;
    check_tested(schema, group, &mut aggs, raw.having.as_slice())?;
    Ok(aggs)
}

#[tactic(auto, using(crate::proofs::UseLaws::walks))]
fn check_selected(
    schema: &Schema,
    group: AttrSet,
    aggs: &mut Seq<(AttrId, Agg)>,
    items: &[RawItem<'_>],
) -> Result<(), BindNo>
    requires { length schema.now.attrs ≤ 64 }
    ensures fault { StopsAt refusal_of result (gathered_fault schema.now group.0 aggs.old (map selected_of items.now)) }
    ensures aggs { OnOk result (aggs.new ≡ aggs_after schema.now aggs.old (map selected_of items.now)) }
{
    for item in items {
        check_use(schema, group, aggs, item, None)?;
    }
    Ok(())
}

#[tactic(auto, using(crate::proofs::UseLaws::walks))]
fn check_tested(
    schema: &Schema,
    group: AttrSet,
    aggs: &mut Seq<(AttrId, Agg)>,
    having: &[RawHaving<'_>],
) -> Result<(), BindNo>
    requires { length schema.now.attrs ≤ 64 }
    ensures fault { StopsAt refusal_of result (gathered_fault schema.now group.0 aggs.old (map tested_of having.now)) }
    ensures aggs { OnOk result (aggs.new ≡ aggs_after schema.now aggs.old (map tested_of having.now)) }
{
    for test in having {
        check_use(schema, group, aggs, &test.item, Some(&test.lit))?;
    }
    Ok(())
}

// The item can be had behind the functions so far, and is noted among them.
fn check_use(
    schema: &Schema,
    group: AttrSet,
    aggs: &mut Seq<(AttrId, Agg)>,
    item: &RawItem<'_>,
    literal: Option<&RawLit<'_>>,
) -> Result<(), BindNo>
    requires { length schema.now.attrs ≤ 64 }
    ensures fault { StopsAt refusal_of result (item_fault schema.now group.0 aggs.old (item_of item.now) (option_map (λ l. literal_of l.now) literal.entry)) }
    ensures aggs { OnOk result (aggs.new ≡ with_item schema.now (item_of item.now) aggs.old) }
{
    check_item(schema, group, aggs.as_slice(), item, literal)?;
    note_item(schema, aggs, item)?;
    Ok(())
}

fn check_item(
    schema: &Schema,
    group: AttrSet,
    aggs: &[(AttrId, Agg)],
    item: &RawItem<'_>,
    literal: Option<&RawLit<'_>>,
) -> Result<(), Fault>
    requires { length schema.now.attrs ≤ 64 }
    ensures { fault_of result ≡ item_fault schema.now group.0 aggs.now (item_of item.now) (option_map (λ l. literal_of l.now) literal.entry) }
{
    match item {
        RawItem::Col(_) => Ok(()),
        RawItem::Agg { func, col, at } => {
            check_function(schema, group, aggs, *func, col, *at, literal)
        }
        RawItem::Count { at } => refuse_if(is_text(literal), BindCode::TypeMismatch, *at),
    }
}

fn check_function(
    schema: &Schema,
    group: AttrSet,
    aggs: &[(AttrId, Agg)],
    func: Agg,
    column: &RawCol<'_>,
    at: u32,
    literal: Option<&RawLit<'_>>,
) -> Result<(), Fault>
    requires { length schema.now.attrs ≤ 64 }
    ensures { fault_of result ≡ function_fault schema.now group.0 aggs.now func (column_of column.now) at (option_map (λ l. literal_of l.now) literal.entry) }
{
    let a = attribute_of(schema, column);
    let mistyped = is_no_sum(schema, func, column) || is_mistyped(schema, column, literal);
    refuse_if(group.has(a), BindCode::AggregateOfGrouped, at)?;
    refuse_if(mistyped, BindCode::TypeMismatch, at)?;
    refuse_if(is_long_literal(literal), BindCode::TextTooLong, at)?;
    refuse_if(
        is_under_another(a, func, aggs),
        BindCode::RepeatedAggregate,
        at,
    )
}

// Whether it is the sum of what is no number.
fn is_no_sum(schema: &Schema, func: Agg, column: &RawCol<'_>) -> bool
    requires { length schema.now.attrs ≤ 64 }
    ensures { result ≡ is_no_sum schema.now func (column_of column.now) }
{
    match func {
        Agg::Sum => !has_type(schema, column, ValueType::Int),
        Agg::Min | Agg::Max => false,
    }
}

// Whether a literal has another type than the column.
fn is_mistyped(schema: &Schema, column: &RawCol<'_>, literal: Option<&RawLit<'_>>) -> bool
    requires { length schema.now.attrs ≤ 64 }
    ensures { result ≡ is_mistyped schema.now (column_of column.now) (option_map (λ l. literal_of l.now) literal.entry) }
{
    match literal {
        Some(literal) => !has_type(schema, column, literal_type(literal)),
        None => false,
    }
}

fn is_long_literal(literal: Option<&RawLit<'_>>) -> bool
    ensures { result ≡ is_long_literal (option_map (λ l. literal_of l.now) literal.entry) }
{
    match literal {
        Some(literal) => is_long(literal),
        None => false,
    }
}

fn is_text(literal: Option<&RawLit<'_>>) -> bool
    ensures { result ≡ is_text (option_map (λ l. literal_of l.now) literal.entry) }
{
    match literal {
        Some(RawLit::Text(_)) => true,
        Some(RawLit::Number(_)) => false,
        None => false,
    }
}

fn same_function(left: Agg, right: Agg) -> bool
    ensures { result ≡ same_function left right }
{
    match (left, right) {
        (Agg::Sum, Agg::Sum) | (Agg::Min, Agg::Min) | (Agg::Max, Agg::Max) => true,
        _ => false,
    }
}

// Whether the attribute stands under another of these functions.
fn is_under_another(a: AttrId, func: Agg, aggs: &[(AttrId, Agg)]) -> bool
    ensures { result ≡ is_under_another a func aggs.now }
{
    aggs.iter().any(|(other, earlier)| other.0 == a.0 && !same_function(*earlier, func))
}

// Whether the attribute stands under one of these functions.
fn is_listed(a: AttrId, aggs: &[(AttrId, Agg)]) -> bool
    ensures { result ≡ is_listed a aggs.now }
{
    aggs.iter().any(|(other, _)| other.0 == a.0)
}

// Puts the function of an item at the end, where its attribute stands under none yet.
fn note_item(
    schema: &Schema,
    aggs: &mut Seq<(AttrId, Agg)>,
    item: &RawItem<'_>,
) -> Result<(), NoMemory>
    requires { length schema.now.attrs ≤ 64 }
    ensures { OnOk result (aggs.new ≡ with_item schema.now (item_of item.now) aggs.old) }
{
    let RawItem::Agg { func, col, .. } = item else {
        return Ok(());
    };
    note(aggs, attribute_of(schema, col), *func)
}

// Puts a function over an attribute at the end, where the attribute stands under none yet.
fn note(aggs: &mut Seq<(AttrId, Agg)>, a: AttrId, func: Agg) -> Result<(), NoMemory>
    ensures { OnOk result (aggs.new ≡ with_aggregate a func aggs.old) }
{
    if is_listed(a, aggs.as_slice()) {
        return Ok(());
    }
    aggs.push((a, func))
}
