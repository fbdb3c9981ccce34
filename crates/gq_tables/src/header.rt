//! The header of a file, which is its first record.
ghost use Rattle.std.specs.Prelude.{◌≡◌, IfOk};
ghost use Rattle.csv.specs.Records.{fields_of};
ghost use Rattle.gq_fields.specs.Headers.{header_of};
ghost use Rattle.gq_tables.specs.Answers.{Answers};
ghost use Rattle.gq_tables.specs.Cells.{under_header};
ghost use Rattle.gq_tables.specs.steps.Cells.{IsHead, head_of};
ghost use Rattle.gq_tables.specs.steps.Unread.{IsOpen, records_left};
ghost use Rattle.std.specs.Prelude.{Ok};

use crate::records::read_next;
use crate::refusal::{TableRefusal, TableStop};
use csv::{ByteRecord, Reader};
use gq_base::{Bytes, Field, List, Memory};
use gq_fields::{FileKind, HeaderRefusal, read_header};
use std::alloc::Global;

/// Reads the header, which is the next record.
pub(crate) fn read_head(
    alloc: Global,
    reader: &mut Reader<&[u8]>,
    kind: FileKind,
) -> Result<List<Field>, TableStop>
    requires { IsOpen reader.old }
    ensures is_open { IfOk result (λ fields. IsOpen reader.new) }
    ensures head { Answers (head_of kind (records_left reader.old)) result }
    ensures rest { IfOk result (λ fields.
        IsHead kind fields (records_left reader.old) (records_left reader.new)) }
{
    let mut texts = ByteRecord::new(alloc);
    if !read_next(reader, &mut texts)? {
        return Err(TableStop::Refused(TableRefusal::BadHeader));
    }
    read_fields(alloc, &texts, kind)
}

// The properties that the record names.
fn read_fields(alloc: Global, texts: &ByteRecord, kind: FileKind) -> Result<List<Field>, TableStop>
    ensures { Answers (under_header (header_of kind (fields_of texts.now)) Ok) result }
{
    let texts = copy_texts(alloc, texts)?;
    match read_header(alloc, &texts, kind) {
        Ok(fields) => Ok(fields),
        Err(HeaderRefusal::Bad) => Err(TableStop::Refused(TableRefusal::BadHeader)),
        Err(HeaderRefusal::TooMany) => Err(TableStop::Refused(TableRefusal::TooManyProperties)),
        Err(HeaderRefusal::Memory) => Err(TableStop::Memory),
    }
}

fn copy_texts(alloc: Global, header: &ByteRecord) -> Result<List<Bytes>, Memory>
    ensures { IfOk result (λ texts. texts ≡ fields_of header.now) }
{
    let mut texts = List::new(alloc);
    for text in header {
        texts.push(Bytes::new(alloc, text)?)?;
    }
    Ok(texts)
}
