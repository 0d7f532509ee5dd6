ghost use Rattle.std.specs.Prelude.{◌≡◌, ◌<◌, ◌≤◌, ◌==◌, IfSome, bytes_eq, length, option_map, position};
ghost use Rattle.std.specs.List.{list_any};
ghost use Rattle.mq_base.specs.BoundQuery.{type_at};
ghost use Rattle.mq_base.specs.Schema.{table_of};
ghost use Rattle.sql_reader.specs.Syntax.{column_of};
ghost use Rattle.query_bind.specs.Bound.{attribute};
ghost use Rattle.query_bind.specs.Faults.{has_type, same_type};
ghost use Rattle.query_bind.specs.Lookup.{attribute_named, is_among, table_named};
ghost use Rattle.query_bind.specs.inside.Results.{numbers};

use mq_base::{AttrId, AttrInfo, Schema, TableId, TableInfo, ValueType};
use sql_reader::RawCol;

// The place of the first table with this name.
fn table_place(tables: &[TableInfo], name: &[u8]) -> Option<usize>
    ensures { result ≡ position (λ (info : TableInfo). bytes_eq info.name name.now) tables.now }
{
    tables.iter().position(|info| info.name.as_bytes() == name)
}

// The place of the first column with this name.
fn attribute_place(attrs: &[AttrInfo], name: &[u8]) -> Option<usize>
    ensures { result ≡ position (λ (info : AttrInfo). bytes_eq info.name name.now) attrs.now }
{
    attrs.iter().position(|info| info.name.as_bytes() == name)
}

/// The table with this name.
#[tactic(auto, using(crate::proofs::PlaceLaws::below))]
pub fn table_named(schema: &Schema, name: &str) -> Option<TableId>
    requires { length schema.now.tables ≤ 8 }
    ensures { option_map (λ (t : TableId). t.0) result ≡ table_named schema.now name.now }
{
    let place = table_place(schema.tables.as_slice(), name.as_bytes())?;
    Some(TableId(place as u8))
}

/// The attribute with this name.
#[tactic(auto, using(crate::proofs::PlaceLaws::below))]
pub fn attribute_named(schema: &Schema, name: &str) -> Option<AttrId>
    requires { length schema.now.attrs ≤ 64 }
    ensures number { option_map (λ (a : AttrId). a.0) result ≡ attribute_named schema.now name.now }
    ensures small { IfSome result (λ (a : AttrId). a.0 < 64) }
{
    let place = attribute_place(schema.attrs.as_slice(), name.as_bytes())?;
    Some(AttrId(place as u8))
}

/// The attribute that a column names, and the first one where it names none.
#[tactic(auto, using(crate::proofs::PlaceLaws::below))]
pub fn attribute_of(schema: &Schema, column: &RawCol<'_>) -> AttrId
    requires { length schema.now.attrs ≤ 64 }
    ensures named { result ≡ attribute schema.now (column_of column.now) }
    ensures small { result.0 < 64 }
{
    match attribute_named(schema, column.name) {
        Some(found) => found,
        None => AttrId(0),
    }
}

// Whether a table with this number is one of these.
fn has_number(tables: &[TableId], number: u8) -> bool
    ensures { result ≡ list_any (λ (other : TableId). other.0 == number) tables.now }
{
    tables.iter().any(|other| other.0 == number)
}

/// Whether a table is one of these.
#[tactic(auto, using(crate::proofs::PlaceLaws::among))]
pub fn is_among(t: TableId, tables: &[TableId]) -> bool
    ensures { result ≡ is_among t.0 (numbers tables.now) }
{
    has_number(tables, t.0)
}

/// The table of an attribute.
pub fn table_of(schema: &Schema, a: AttrId) -> Option<TableId>
    ensures { option_map (λ (t : TableId). t.0) result ≡ table_of schema.now a.0 }
{
    match schema.attrs.as_slice().get(usize::from(a.0)) {
        Some(info) => Some(info.table),
        None => None,
    }
}

/// The type of an attribute.
pub fn type_of(schema: &Schema, a: AttrId) -> Option<ValueType>
    ensures { result ≡ type_at schema.now a.0 }
{
    match schema.attrs.as_slice().get(usize::from(a.0)) {
        Some(info) => Some(info.ty),
        None => None,
    }
}

// Whether two types are one.
fn same_type(left: ValueType, right: ValueType) -> bool
    ensures { result ≡ same_type left right }
{
    match (left, right) {
        (ValueType::Int, ValueType::Int) | (ValueType::Text, ValueType::Text) => true,
        (ValueType::Int, ValueType::Text) | (ValueType::Text, ValueType::Int) => false,
    }
}

/// Whether a column has this type.
pub fn has_type(schema: &Schema, column: &RawCol<'_>, ty: ValueType) -> bool
    requires { length schema.now.attrs ≤ 64 }
    ensures { result ≡ has_type schema.now (column_of column.now) ty }
{
    match type_of(schema, attribute_of(schema, column)) {
        Some(own) => same_type(ty, own),
        None => false,
    }
}
