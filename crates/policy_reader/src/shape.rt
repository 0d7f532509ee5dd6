ghost use Rattle.std.specs.Prelude.{◌≡◌, codes};
ghost use Rattle.toml.specs.View.{table_view};
ghost use Rattle.toml_tree.specs.Form.{field, Reads};
ghost use Rattle.policy_reader.specs.Shape.{type_as, column_as, table_as, rule_as, policy_as};

use crate::raw::{RawColumn, RawPolicy, RawRule, RawTable};
use mq_base::ValueType;
use std::alloc::Global;
use toml::{Table, Value};
use toml_tree::{
    FromValue, ReadError, check_version, filled, has_only, list_at, read_at, value_at,
};

impl FromValue for RawColumn {
    ghost from_data = { column_as };

    fn read(alloc: Global, value: &Value) -> Result<RawColumn, ReadError> {
        let Some(table) = value.as_table() else {
            return Err(ReadError::Malformed);
        };
        if !has_only(table, &["name", "type"]) {
            return Err(ReadError::Malformed);
        }
        Ok(RawColumn {
            name: read_at(alloc, table, "name")?,
            ty: read_type(table)?,
        })
    }
}

impl FromValue for RawTable {
    ghost from_data = { table_as };

    fn read(alloc: Global, value: &Value) -> Result<RawTable, ReadError> {
        let Some(table) = value.as_table() else {
            return Err(ReadError::Malformed);
        };
        if !has_only(table, &["name", "owner", "columns"]) {
            return Err(ReadError::Malformed);
        }
        Ok(RawTable {
            name: read_at(alloc, table, "name")?,
            owner: read_at(alloc, table, "owner")?,
            columns: filled(read_at(alloc, table, "columns")?)?,
        })
    }
}

impl FromValue for RawRule {
    ghost from_data = { rule_as };

    fn read(alloc: Global, value: &Value) -> Result<RawRule, ReadError> {
        let Some(table) = value.as_table() else {
            return Err(ReadError::Malformed);
        };
        if !has_only(table, &["table", "subject", "plain", "sealed"]) {
            return Err(ReadError::Malformed);
        }
        Ok(RawRule {
            table: read_at(alloc, table, "table")?,
            subject: read_at(alloc, table, "subject")?,
            plain: list_at(alloc, table, "plain")?,
            sealed: list_at(alloc, table, "sealed")?,
        })
    }
}

impl FromValue for RawPolicy {
    ghost from_data = { policy_as };

    fn read(alloc: Global, value: &Value) -> Result<RawPolicy, ReadError> {
        let Some(table) = value.as_table() else {
            return Err(ReadError::Malformed);
        };
        if !has_only(table, &["version", "user", "subjects", "table", "rule"]) {
            return Err(ReadError::Malformed);
        }
        check_version(table)?;
        Ok(RawPolicy {
            user: read_at(alloc, table, "user")?,
            subjects: filled(read_at(alloc, table, "subjects")?)?,
            tables: filled(read_at(alloc, table, "table")?)?,
            rules: list_at(alloc, table, "rule")?,
        })
    }
}

// The type of a column.
fn read_type(table: &Table) -> Result<ValueType, ReadError>
    ensures { Reads result (field type_as (codes "type") (table_view table.now)) }
{
    let Some(value) = value_at(table, "type") else {
        return Err(ReadError::Malformed);
    };
    match value.as_str() {
        Some("INT") => Ok(ValueType::Int),
        Some("TEXT") => Ok(ValueType::Text),
        _ => Err(ReadError::Malformed),
    }
}
