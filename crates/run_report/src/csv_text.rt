ghost use Rattle.std.specs.Prelude.{◌≡◌, ℕ, List, [], ◌∷◌, ◌++◌, map, OnOk, IfOk};
ghost use Rattle.csv.specs.Records.{fields_of, partial_of};
ghost use Rattle.csv.specs.Writing.{row_text, default_writer};
ghost use Rattle.run_report.specs.Answer.{shown, csv_text};
ghost use Rattle.run_report.specs.CsvWriting.{IsWriting};

use csv::{ByteRecord, Writer};
use mq_base::{NoMemory, Seq, Value};
use std::alloc::Global;

// A writer that goes on after a text.
fn open(text: Vec<u8>) -> Writer<Vec<u8>>
    ensures { IsWriting result text.items }
{
    Writer::from_writer(text)
}

// Writes a record at the end.
fn put(writer: &mut Writer<Vec<u8>>, fields: &ByteRecord) -> Result<(), NoMemory>
    ensures { OnOk result ((bytes : List ℕ) → IsWriting writer.old bytes
        → IsWriting writer.new (bytes ++ row_text default_writer (fields_of fields.now))) }
{
    match writer.write_byte_record(fields) {
        Ok(()) => Ok(()),
        Err(_) => Err(NoMemory),
    }
}

// What was written.
fn close(writer: Writer<Vec<u8>>) -> Result<Vec<u8>, NoMemory>
    ensures { IfOk result (λ text. (bytes : List ℕ) → IsWriting writer bytes → text.items ≡ bytes) }
{
    match writer.into_inner() {
        Ok(text) => Ok(text),
        Err(_) => Err(NoMemory),
    }
}

// Puts a value at the end of a record, as it is written.
fn push_value(alloc: Global, fields: &mut ByteRecord, value: &Value) -> Result<(), NoMemory>
    requires { partial_of fields.old ≡ [] }
    ensures field { OnOk result (fields_of fields.new ≡ fields_of fields.old ++ shown value.now ∷ []) }
    ensures whole { OnOk result (partial_of fields.new ≡ []) }
{
    match value {
        Value::Int(number) => fields.push_field(number.to_string(alloc)?.as_bytes())?,
        Value::Text(text) => fields.push_field(text.as_bytes())?,
    }
    Ok(())
}

// Makes a record that of a row.
fn fill(alloc: Global, fields: &mut ByteRecord, row: &[Value]) -> Result<(), NoMemory>
    ensures { OnOk result (fields_of fields.new ≡ map shown row.now) }
{
    fields.clear();
    'cells: for value in row {
        push_value(alloc, fields, value)?;
    }
    Ok(())
}

// The record of the columns' names.
fn header(alloc: Global, names: &[&str]) -> Result<ByteRecord, NoMemory>
    ensures { IfOk result (λ names_record. fields_of names_record ≡ map (λ n. n.now) names.now) }
{
    let mut record = ByteRecord::new(alloc);
    'names: for name in names {
        record.push_field(name.as_bytes())?;
    }
    Ok(record)
}

// Puts the names and then the rows as comma-separated text at the end of a text.
pub fn append(
    alloc: Global,
    text: Vec<u8>,
    names: &[&str],
    rows: &[Seq<Value>],
) -> Result<Vec<u8>, NoMemory>
    ensures { IfOk result (λ whole. whole.items ≡ text.items ++ csv_text (map (λ n. n.now) names.now ∷ map (map shown) rows.now)) }
{
    let mut writer = open(text);
    let mut record = header(alloc, names)?;
    put(&mut writer, &record)?;
    'rows: for row in rows {
        fill(alloc, &mut record, row.as_slice())?;
        put(&mut writer, &record)?;
    }
    close(writer)
}
