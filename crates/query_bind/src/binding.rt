ghost use Rattle.std.specs.Prelude.{◌≡◌, ◌≤◌, [], length, IfOk};
ghost use Rattle.mq_base.specs.Refusal.{Answers};
ghost use Rattle.mq_base.specs.BoundQuery.{IsBound};
ghost use Rattle.mq_base.specs.Schema.{IsSchema};
ghost use Rattle.base_laws.specs.Firsts.{StopsAt};
ghost use Rattle.sql_reader.specs.Syntax.{query_of};
ghost use Rattle.sql_reader.specs.Writable.{IsWritable};
ghost use Rattle.query_bind.specs.Bound.{aggregates, bound_query, group_set};
ghost use Rattle.query_bind.specs.Codes.{refusal_of};
ghost use Rattle.query_bind.specs.Faults.{bare_fault, grouped_fault, items_fault};
ghost use Rattle.query_bind.specs.Lookup.{all_uses, source_tables};
ghost use Rattle.query_bind.specs.Outcome.{bind_outcome, first_fault};
ghost use Rattle.query_bind.specs.inside.Ranges.{NumbersFit};
ghost use Rattle.query_bind.specs.inside.Results.{numbers};

use crate::build::{bind_each, group_set, has_count};
use crate::columns::check_columns;
use crate::conditions::check_conditions;
use crate::items::{check_bare, check_grouped, check_uses, has_group};
use crate::nodes::check_nodes;
use crate::refusal::BindNo;
use crate::sources::tables_of;
use mq_base::{Agg, AttrId, AttrSet, NoMemory, Query, Refusing, Schema, Seq, TableId};
use sql_reader::RawQuery;
use std::alloc::Global;

/// The query with the ids of a schema in place of its names: the select list in order with repeated items, the tables
/// in FROM order, the conditions of ON and then those of WHERE, the set of grouped attributes, each attribute under a
/// function once, in order of first use, and the conditions of HAVING. A doubled quote of a text stands once in its
/// value. docs/FORMATS.md, "Query", has the rules. The time is linear in the length of the query, times the number
/// of tables and columns of the schema.
///
/// `Refused` with the first fault in this order: `UnknownTable` and `RepeatedTable` at the word of a table of FROM;
/// `UnknownTable`, `UnknownAttribute` and `NotInTable` at a column, in the order of the text; `SameAttribute`,
/// `TypeMismatch` and `TextTooLong` at the left column of a condition of ON and WHERE; without GROUP BY
/// `AggregateWithoutGroup` at a function or the count; with it `NotGrouped` at a selected column, and then
/// `AggregateOfGrouped`, `TypeMismatch`, `TextTooLong` and `RepeatedAggregate` at the word of a function or count of
/// the select list and of HAVING; and `TooManyNodes` at 0. `NoMemory` where the allocator refused a request.
#[tactic(auto, using(crate::proofs::OutcomeLaws::outcomes))]
pub fn bind(alloc: Global, raw: &RawQuery<'_>, schema: &Schema) -> Result<Query, BindNo>
    requires written { IsWritable (query_of raw.now) }
    requires schema { IsSchema schema.now }
    ensures read { Answers ⟦<BindNo as Refusing>⟧.told result (bind_outcome schema.now (query_of raw.now)) }
    ensures bound { IfOk result (IsBound schema.now) }
{
    bound(alloc, raw, schema)
}

// The query with ids, or its first fault.
fn bound(alloc: Global, raw: &RawQuery<'_>, schema: &Schema) -> Result<Query, BindNo>
    requires written { IsWritable (query_of raw.now) }
    requires schema { IsSchema schema.now }
    ensures fault { StopsAt refusal_of result (first_fault schema.now (query_of raw.now)) }
    ensures bound { IfOk result (λ bound. bound ≡ bound_query schema.now (query_of raw.now)) }
    ensures fits { IfOk result (λ _. NumbersFit (query_of raw.now)) }
{
    let tables = tables_of(alloc, schema, raw.sources.as_slice())?;
    check_columns(schema, tables.as_slice(), raw)?;
    check_conditions(schema, raw)?;
    let group = group_set(schema, raw.group.as_slice());
    let aggs = check_items(alloc, schema, group, raw)?;
    let query = query_with(alloc, schema, raw, tables, group, aggs)?;
    check_nodes(schema, &query)?;
    Ok(query)
}

// The attributes under functions. The items of the select list and of HAVING can be had.
fn check_items(
    alloc: Global,
    schema: &Schema,
    group: AttrSet,
    raw: &RawQuery<'_>,
) -> Result<Seq<(AttrId, Agg)>, BindNo>
    requires written { IsWritable (query_of raw.now) }
    requires few { length schema.now.attrs ≤ 64 }
    requires group { group.0 ≡ group_set schema.now (query_of raw.now).group }
    ensures fault { StopsAt refusal_of result (items_fault schema.now (query_of raw.now)) }
    ensures aggs { IfOk result (λ aggs. aggs ≡ aggregates schema.now (all_uses (query_of raw.now))) }
{
    if has_group(raw.group.as_slice()) {
        check_with_group(alloc, schema, group, raw)
    } else {
        check_without_group(alloc, raw)
    }
}

#[tactic(auto, using(crate::proofs::OutcomeLaws::uses))]
fn check_with_group(
    alloc: Global,
    schema: &Schema,
    group: AttrSet,
    raw: &RawQuery<'_>,
) -> Result<Seq<(AttrId, Agg)>, BindNo>
    requires { length schema.now.attrs ≤ 64 }
    ensures fault { StopsAt refusal_of result (grouped_fault schema.now group.0 (query_of raw.now)) }
    ensures aggs { IfOk result (λ aggs. aggs ≡ aggregates schema.now (all_uses (query_of raw.now))) }
{
    check_grouped(schema, group, raw.items.as_slice())?;
    check_uses(alloc, schema, group, raw)
}

fn check_without_group(alloc: Global, raw: &RawQuery<'_>) -> Result<Seq<(AttrId, Agg)>, BindNo>
    ensures fault { StopsAt refusal_of result (bare_fault (query_of raw.now)) }
    ensures aggs { IfOk result (λ aggs. aggs ≡ []) }
{
    check_bare(raw.items.as_slice())?;
    Ok(Seq::new(alloc))
}

// The query with ids, of its tables, its group and the attributes under functions.
fn query_with(
    alloc: Global,
    schema: &Schema,
    raw: &RawQuery<'_>,
    tables: Seq<TableId>,
    group: AttrSet,
    aggs: Seq<(AttrId, Agg)>,
) -> Result<Query, NoMemory>
    requires few { length schema.now.attrs ≤ 64 }
    requires tables { numbers tables ≡ source_tables schema.now (query_of raw.now).sources }
    requires group { group.0 ≡ group_set schema.now (query_of raw.now).group }
    requires aggs { aggs ≡ aggregates schema.now (all_uses (query_of raw.now)) }
    ensures bound { IfOk result (λ bound. bound ≡ bound_query schema.now (query_of raw.now)) }
    ensures fits { IfOk result (λ _. NumbersFit (query_of raw.now)) }
{
    let mut items = Seq::new(alloc);
    bind_each(alloc, schema, &mut items, raw.items.as_slice())?;
    let mut conds = Seq::new(alloc);
    bind_each(alloc, schema, &mut conds, raw.sources.as_slice())?;
    bind_each(alloc, schema, &mut conds, raw.conds.as_slice())?;
    let mut having = Seq::new(alloc);
    bind_each(alloc, schema, &mut having, raw.having.as_slice())?;
    Ok(Query {
        items,
        tables,
        conds,
        grouped: has_group(raw.group.as_slice()),
        group,
        aggs,
        count: has_count(raw.items.as_slice(), raw.having.as_slice()),
        having,
    })
}
