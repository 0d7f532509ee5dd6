ghost use Rattle.std.specs.Prelude.{◌≡◌, ◌<◌, ℕ, suc, IfOk, OnOk, length, slice_index_or, []};
ghost use Rattle.csv.specs.Records.{fields_of};
ghost use Rattle.table_reader.specs.Records.{records_of};
ghost use Rattle.table_reader.specs.inside.Reading.{IsReading, records_left, records_with};
ghost use Rattle.table_reader.specs.Faults.{field_in};

use csv::{ByteRecord, Reader, ReaderBuilder};
use mq_base::NoMemory;
use std::alloc::Global;

/// A reader of a file's records, at its first.
pub fn open(alloc: Global, bytes: &[u8]) -> Reader<&[u8]>
    ensures reading { IsReading result }
    ensures records { records_left 100002 result ≡ records_of bytes.now }
{
    ReaderBuilder::new()
        .has_headers(false)
        .flexible(true)
        .from_reader(alloc, bytes)
}

/// Reads the next record into `current`, and answers whether there was one.
#[tactic(auto, using(crate::proofs::RecordLaws::record_by_record))]
pub fn next_record(reader: &mut Reader<&[u8]>, current: &mut ByteRecord) -> Result<bool, NoMemory>
    requires { IsReading reader.old }
    ensures reading { OnOk result (IsReading reader.new) }
    ensures records { IfOk result (λ found. (n : ℕ) → records_left (suc n) reader.old ≡ records_with found (fields_of current.new) (records_left n reader.new)) }
{
    let Ok(found) = reader.read_byte_record(current) else {
        return Err(NoMemory);
    };
    Ok(found)
}

/// The field of a record at a place.
pub fn field(current: &ByteRecord, col: usize) -> &[u8]
    requires { col < length (fields_of current.now) }
    ensures { result.now ≡ field_in (fields_of current.now) col }
{
    match current.get(col) {
        Some(field) => field,
        None => &[],
    }
}
