ghost use Rattle.std.specs.Prelude.{◌≡◌, ◌<◌, ◌^◌, ℕ, suc, length, IfOk, OnOk};
ghost use Rattle.csv.specs.Records.{fields_of};
ghost use Rattle.base_laws.specs.Firsts.{StopsAt};
ghost use Rattle.mq_base.specs.Refusal.{Answers};
ghost use Rattle.mq_base.specs.Schema.{IsSchema, columns_of};
ghost use Rattle.mq_base.specs.Table.{HasForm};
ghost use Rattle.table_reader.specs.Codes.{refusal_of};
ghost use Rattle.table_reader.specs.Content.{content_of};
ghost use Rattle.table_reader.specs.Faults.{header_fault, is_header, names_of, rows_fault, rows_under, types_of};
ghost use Rattle.table_reader.specs.Outcome.{table_outcome};
ghost use Rattle.table_reader.specs.inside.Reading.{IsReading, records_left};

use crate::columns::{empty_columns, read_rows};
use crate::records::{field, next_record, open};
use crate::refusal::TableNo;
use csv::{ByteRecord, Reader};
use mq_base::{PlainTable, Refusing, Schema, Seq, TableId, ValueType};
use std::alloc::{AllocError, Global};

// The types of a table's columns, in the order of the policy.
fn column_types(alloc: Global, schema: &Schema, t: TableId) -> Result<Vec<ValueType>, AllocError>
    ensures { IfOk result (λ types. types.items ≡ types_of (columns_of schema.now t.0)) }
{
    schema
        .attrs
        .as_slice()
        .iter()
        .filter(|column| column.table.0 == t.0)
        .map(|column| column.ty)
        .collect(alloc)
}

// Whether a record lists exactly the names of a table's columns, in the order of the policy.
#[tactic(auto, using(crate::proofs::HeaderLaws::name_by_name))]
fn lists_names(schema: &Schema, t: TableId, current: &ByteRecord) -> bool
    ensures { result ≡ is_header (names_of (columns_of schema.now t.0)) (fields_of current.now) }
{
    let mut at = 0;
    for column in schema.attrs.as_slice() {
        if column.table.0 == t.0 {
            if current.len() <= at || column.name.as_bytes() != field(current, at) {
                return false;
            }
            at += 1;
        }
    }
    at == current.len()
}

// Reads the header, which is to list the names of a table's columns. `current` is only room.
fn read_header(
    reader: &mut Reader<&[u8]>,
    current: &mut ByteRecord,
    schema: &Schema,
    t: TableId,
) -> Result<(), TableNo>
    requires { IsReading reader.old }
    ensures reading { OnOk result (IsReading reader.new) }
    ensures fault { (n : ℕ) → StopsAt refusal_of result (header_fault (names_of (columns_of schema.now t.0)) (records_left (suc n) reader.old)) }
    ensures rows { OnOk result ((n : ℕ) → rows_under (records_left (suc n) reader.old) ≡ records_left n reader.new) }
{
    if !next_record(reader, current)? || !lists_names(schema, t, current) {
        return Err(TableNo::BadHeader);
    }
    Ok(())
}

// Reads the rows that stand under the header: their number and their values. `current` is only room.
fn read_content(
    alloc: Global,
    reader: &mut Reader<&[u8]>,
    current: &mut ByteRecord,
    types: &[ValueType],
    t: TableId,
) -> Result<PlainTable, TableNo>
    requires reading { IsReading reader.old }
    requires few { length types.now < 2 ^ 32 }
    ensures fault { StopsAt refusal_of result (rows_fault types.now 1 (records_left 100001 reader.old)) }
    ensures content { IfOk result (λ table. table ≡ content_of t.0 types.now (records_left 100001 reader.old)) }
{
    let mut columns = empty_columns(alloc, types.len())?;
    let rows = read_rows(alloc, reader, current, types, columns.as_mut_slice())?;
    Ok(PlainTable {
        table: t,
        rows,
        columns: Seq::of(columns),
    })
}

/// Reads the file of a table of the schema, as docs/FORMATS.md, "Table file", says: at most 100,000 rows under a
/// header, INT within `i64`, TEXT of at most 120 bytes. It answers the values, or the first fault in the order
/// told there. Its time is linear in the length of the file, and each TEXT is copied once.
#[tactic(auto, unfolding(crate::specs::Outcome::table_outcome))]
pub fn read_table(
    alloc: Global,
    bytes: &[u8],
    schema: &Schema,
    t: TableId,
) -> Result<PlainTable, TableNo>
    requires schema { IsSchema schema.now }

    // The content of the file, or its first fault.
    ensures read { Answers ⟦<TableNo as Refusing>⟧.told result (table_outcome schema.now t.0 bytes.now) }
    ensures form { IfOk result (HasForm schema.now) }
    ensures named { IfOk result (λ table. table.table ≡ t) }
{
    let mut reader = open(alloc, bytes);
    let mut current = ByteRecord::new(alloc);
    read_header(&mut reader, &mut current, schema, t)?;
    let types = column_types(alloc, schema, t)?;
    read_content(alloc, &mut reader, &mut current, types.as_slice(), t)
}
