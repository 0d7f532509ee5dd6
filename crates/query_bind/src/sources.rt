ghost use Rattle.std.specs.Prelude.{◌≡◌, ◌≤◌, [], length, map, IfOk};
ghost use Rattle.mq_base.specs.Schema.{IsSchema};
ghost use Rattle.base_laws.specs.Firsts.{StopsAt, first_behind};
ghost use Rattle.sql_reader.specs.Syntax.{source_of};
ghost use Rattle.query_bind.specs.Codes.{refusal_of};
ghost use Rattle.query_bind.specs.Faults.{source_behind, source_fault};
ghost use Rattle.query_bind.specs.Lookup.{source_table, source_tables};
ghost use Rattle.query_bind.specs.inside.Results.{fault_of, numbers};

use crate::fault::{Fault, refuse_if};
use crate::names::{is_among, table_named};
use crate::refusal::{BindCode, BindNo};
use mq_base::{Schema, Seq, TableId};
use sql_reader::RawSource;
use std::alloc::Global;

/// The tables of a FROM list. Each is one of the schema, and none stands twice.
#[tactic(auto, using(crate::proofs::SourceLaws::walks))]
pub fn tables_of(
    alloc: Global,
    schema: &Schema,
    sources: &[RawSource<'_>],
) -> Result<Seq<TableId>, BindNo>
    requires { IsSchema schema.now }
    ensures fault { StopsAt refusal_of result (first_behind (source_behind schema.now) [] (map source_of sources.now)) }
    ensures tables { IfOk result (λ tables. numbers tables ≡ source_tables schema.now (map source_of sources.now)) }
{
    let mut tables = Seq::new(alloc);
    for source in sources {
        tables.push(table_of_source(schema, tables.as_slice(), source)?)?;
    }
    Ok(tables)
}

// The table of the schema that a FROM list names behind these.
fn table_of_source(
    schema: &Schema,
    earlier: &[TableId],
    source: &RawSource<'_>,
) -> Result<TableId, Fault>
    requires { length schema.now.tables ≤ 8 }
    ensures fault { fault_of result ≡ source_fault schema.now (numbers earlier.now) (source_of source.now) }
    ensures table { IfOk result (λ t. t.0 ≡ source_table schema.now (source_of source.now)) }
{
    let Some(t) = table_named(schema, source.table) else {
        return Err(Fault::new(BindCode::UnknownTable, source.at));
    };
    refuse_if(is_among(t, earlier), BindCode::RepeatedTable, source.at)?;
    Ok(t)
}
