ghost use Rattle.std.specs.Prelude.{◌≡◌, ◌≤◌, ◌∷◌, [], List, length, map};
ghost use Rattle.std.specs.List.{flat_map};
ghost use Rattle.base_laws.specs.Firsts.{first_of};
ghost use Rattle.mq_base.specs.Schema.{IsSchema};
ghost use Rattle.sql_reader.specs.Syntax.{Column, column_of, condition_of, having_of, item_of, query_of, side_of, source_of};
ghost use Rattle.query_bind.specs.Faults.{column_fault, columns_fault, is_elsewhere, is_outside, is_stranger};
ghost use Rattle.query_bind.specs.Lookup.{condition_columns, having_columns, item_columns, side_columns, source_columns};
ghost use Rattle.query_bind.specs.inside.Results.{fault_of, numbers};

use crate::fault::{Fault, refuse_if};
use crate::names::{attribute_named, attribute_of, is_among, table_named, table_of};
use crate::refusal::BindCode;
use mq_base::{Schema, TableId};
use sql_reader::{RawCol, RawCond, RawHaving, RawItem, RawQuery, RawSide, RawSource};

// A part of a query, with the columns that stand in it.
trait Part {
    // The columns in the order of the text.
    ghost columns: { Self → List Column };

    // Each column names an attribute of these tables, and of the table before its dot.
    fn check(&self, schema: &Schema, tables: &[TableId]) -> Result<(), Fault>
        requires { IsSchema schema.now }
        ensures { fault_of result ≡ first_of (map (column_fault schema.now (numbers tables.now)) (columns self.now)) };
}

/// Each column of the query names an attribute of these tables, and of the table before its dot.
#[tactic(auto, using(crate::proofs::WalkLaws::parts))]
pub fn check_columns(schema: &Schema, tables: &[TableId], raw: &RawQuery<'_>) -> Result<(), Fault>
    requires { IsSchema schema.now }
    ensures { fault_of result ≡ columns_fault schema.now (numbers tables.now) (query_of raw.now) }
{
    check_each(schema, tables, raw.items.as_slice())?;
    check_each(schema, tables, raw.sources.as_slice())?;
    check_each(schema, tables, raw.conds.as_slice())?;
    check_each(schema, tables, raw.group.as_slice())?;
    check_each(schema, tables, raw.having.as_slice())
}

// The same of each part in order.
#[tactic(auto, using(crate::proofs::WalkLaws::pieces))]
fn check_each<T: Part>(schema: &Schema, tables: &[TableId], parts: &[T]) -> Result<(), Fault>
    requires { IsSchema schema.now }
    ensures { fault_of result ≡ first_of (map (column_fault schema.now (numbers tables.now)) (flat_map T.columns parts.now)) }
{
    for part in parts {
        part.check(schema, tables)?;
    }
    Ok(())
}

impl Part for RawCol<'_> {
    ghost columns = { λ c. column_of c ∷ [] };

    fn check(&self, schema: &Schema, tables: &[TableId]) -> Result<(), Fault> {
        check_column(schema, tables, self)
    }
}

impl Part for RawItem<'_> {
    ghost columns = { λ i. item_columns (item_of i) };

    fn check(&self, schema: &Schema, tables: &[TableId]) -> Result<(), Fault> {
        match self {
            RawItem::Col(column) => column.check(schema, tables),
            RawItem::Agg { col, .. } => col.check(schema, tables),
            RawItem::Count { .. } => Ok(()),
        }
    }
}

impl Part for RawSide<'_> {
    ghost columns = { λ s. side_columns (side_of s) };

    fn check(&self, schema: &Schema, tables: &[TableId]) -> Result<(), Fault> {
        match self {
            RawSide::Col(column) => column.check(schema, tables),
            RawSide::Lit(_) => Ok(()),
        }
    }
}

impl Part for RawCond<'_> {
    ghost columns = { λ c. condition_columns (condition_of c) };

    fn check(&self, schema: &Schema, tables: &[TableId]) -> Result<(), Fault> {
        self.left.check(schema, tables)?;
        self.right.check(schema, tables)
    }
}

impl Part for RawSource<'_> {
    ghost columns = { λ s. flat_map (λ c. condition_columns (condition_of c)) s.on };

    fn check(&self, schema: &Schema, tables: &[TableId]) -> Result<(), Fault> {
        check_each(schema, tables, self.on.as_slice())
    }
}

impl Part for RawHaving<'_> {
    ghost columns = { λ h. having_columns (having_of h) };

    fn check(&self, schema: &Schema, tables: &[TableId]) -> Result<(), Fault> {
        self.item.check(schema, tables)
    }
}

// The column names an attribute of these tables, and of the table before its dot.
fn check_column(schema: &Schema, tables: &[TableId], column: &RawCol<'_>) -> Result<(), Fault>
    requires { IsSchema schema.now }
    ensures { fault_of result ≡ column_fault schema.now (numbers tables.now) (column_of column.now) }
{
    let unknown = attribute_named(schema, column.name).is_none();
    refuse_if(
        is_stranger(schema, tables, column),
        BindCode::UnknownTable,
        column.at,
    )?;
    refuse_if(unknown, BindCode::UnknownAttribute, column.at)?;
    refuse_if(
        is_outside(schema, tables, column),
        BindCode::NotInTable,
        column.at,
    )
}

// Whether the table before the dot is none of these.
fn is_stranger(schema: &Schema, tables: &[TableId], column: &RawCol<'_>) -> bool
    requires { length schema.now.tables ≤ 8 }
    ensures { result ≡ is_stranger schema.now (numbers tables.now) (column_of column.now).table }
{
    let Some(name) = column.table else {
        return false;
    };
    match table_named(schema, name) {
        Some(t) => !is_among(t, tables),
        None => true,
    }
}

// Whether a table stands before the dot that is not this one.
fn is_elsewhere(schema: &Schema, column: &RawCol<'_>, t: TableId) -> bool
    requires { length schema.now.tables ≤ 8 }
    ensures { result ≡ is_elsewhere schema.now (column_of column.now).table t.0 }
{
    let Some(name) = column.table else {
        return false;
    };
    match table_named(schema, name) {
        Some(other) => other.0 != t.0,
        None => true,
    }
}

// Whether the column's table is none of these, or not the one before the dot.
fn is_outside(schema: &Schema, tables: &[TableId], column: &RawCol<'_>) -> bool
    requires { IsSchema schema.now }
    ensures { result ≡ is_outside schema.now (numbers tables.now) (column_of column.now) }
{
    match table_of(schema, attribute_of(schema, column)) {
        Some(t) => !is_among(t, tables) || is_elsewhere(schema, column, t),
        None => true,
    }
}
