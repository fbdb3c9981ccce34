//! The records of a file that is in memory, one at a time.
ghost use Rattle.std.specs.Prelude.{◌≡◌, [], ◌∷◌, IfOk};
ghost use Rattle.std.specs.Bool.{MatchBool, OnTrue};
ghost use Rattle.csv.specs.Records.{fields_of};
ghost use Rattle.gq_tables.specs.Records.{records_of};
ghost use Rattle.gq_tables.specs.steps.Unread.{IsOpen, records_left};

use csv::{ByteRecord, Reader, ReaderBuilder};
use gq_base::Memory;
use std::alloc::Global;

/// A reader of all records of these bytes.
pub fn open_records(alloc: Global, bytes: &[u8]) -> Reader<&[u8]>
    ensures is_open { IsOpen result }
    ensures left { records_left result ≡ records_of bytes.now }
{
    ReaderBuilder::new()
        .has_headers(false)
        .flexible(true)
        .from_reader(alloc, bytes)
}

/// Reads the next record into `texts`, and answers whether there was one. Over bytes in memory only memory can fail.
pub fn read_next(reader: &mut Reader<&[u8]>, texts: &mut ByteRecord) -> Result<bool, Memory>
    requires { IsOpen reader.old }
    ensures is_open { IfOk result (λ found. OnTrue found (IsOpen reader.new)) }
    ensures next { IfOk result (λ found. MatchBool found
        (records_left reader.old ≡ fields_of texts.new ∷ records_left reader.new)
        (records_left reader.old ≡ [])) }
{
    let Ok(found) = reader.read_byte_record(texts) else {
        return Err(Memory::Exhausted);
    };
    Ok(found)
}
