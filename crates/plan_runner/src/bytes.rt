//! That texts are made of bytes. These walks do nothing.

ghost use Rattle.std.specs.Prelude.{All};
ghost use Rattle.plan_runner.specs.inside.Given.{ColumnHasBytes, TableHasBytes};
ghost use Rattle.sealed_column.specs.Seal.{HasBytes};

use mq_base::{PlainTable, Seq, Value};
use provider_engine::value_has_bytes;

// Of each value of each column of each table.
pub fn tables_have_bytes(tables: &[PlainTable])
    ensures { All TableHasBytes tables.now }
{
    for table in tables {
        table_has_bytes(table);
    }
}

fn table_has_bytes(table: &PlainTable)
    ensures { TableHasBytes table.now }
{
    columns_have_bytes(table.columns.as_slice());
}

fn columns_have_bytes(columns: &[Seq<Value>])
    ensures { All ColumnHasBytes columns.now }
{
    for column in columns {
        values_have_bytes(column.as_slice());
    }
}

fn values_have_bytes(values: &[Value])
    ensures { All HasBytes values.now }
{
    for value in values {
        value_has_bytes(value);
    }
}
