//! The properties that the first record of a file names.
ghost use Rattle.std.specs.Prelude.{◌≡◌, ◌==◌, ◌<◌, length, position, IfOk, IfSome};
ghost use Rattle.std.specs.List.{after_first, before_first};
ghost use Rattle.std.specs.Option.{option_copied};
ghost use Rattle.gq_fields.specs.Fields.{field_of, kind_of};
ghost use Rattle.gq_fields.specs.Headers.{Answers, after_ends, are_ends, form_of, has_key};
ghost use Rattle.gq_fields.specs.Headers.{header_of, properties_of};
ghost use Rattle.gq_base.specs.Valid.{same_name};
ghost use Rattle.gq_base.specs.Lists.{all_distinct, each};
ghost use Rattle.gq_fields.specs.declared.header.HeaderRefusal.TheVariants as refusal;

use gq_base::{Bytes, Field, Kind, List, Memory, Text, read_name};
use std::alloc::Global;
use std::collections::BTreeSet;

/// How many properties a table may have.
const MOST_PROPERTIES: usize = 64;

/// What the records of a file stand for.
#[derive(Clone, Copy, Debug, PartialEq, Eq)]
pub enum FileKind {
    /// The nodes of a table.
    Nodes,
    /// The relationships of a table.
    Rels,
}

/// Why a header names no properties.
#[derive(Clone, Copy, Debug, PartialEq, Eq)]
pub enum HeaderRefusal {
    /// The record is not of the form of a header.
    Bad,
    /// It is of that form, but it names more than 64 properties.
    TooMany,
    /// There was not enough memory.
    Memory,
}

impl From<Memory> for HeaderRefusal {
    ghost from_gives = { λ _ e. e ≡ refusal.Memory };

    fn from(_memory: Memory) -> HeaderRefusal {
        HeaderRefusal::Memory
    }
}

/// The properties that a header names, of which there are at most 64.
///
/// In a file of nodes each field is `name:kind`, the names are distinct plain names, and there is a
/// first field, the key, which is no `bool`. In a file of relationships the fields `from` and `to`
/// come first. Any number of such properties follows them, of any kinds; they may be called `from`
/// and `to` too. A record that is `Bad` is never `TooMany`. It takes n log n steps for n fields.
pub fn read_header(
    alloc: Global,
    record_fields: &List<Bytes>,
    kind: FileKind,
) -> Result<List<Field>, HeaderRefusal>
    ensures { Answers (header_of kind record_fields.now) result }
{
    let Some(fields) = read_form(alloc, record_fields.as_slice(), kind)? else {
        return Err(HeaderRefusal::Bad);
    };
    if fields.len() > MOST_PROPERTIES {
        return Err(HeaderRefusal::TooMany);
    }
    Ok(fields)
}

// The properties, where the record is of the form of a header.
fn read_form(alloc: Global, texts: &[Bytes], kind: FileKind) -> Result<Option<List<Field>>, Memory>
    ensures { IfOk result (λ fields. fields ≡ form_of kind texts.now) }
{
    match kind {
        FileKind::Nodes => match read_properties(alloc, texts)? {
            Some(fields) if has_key(fields.as_slice()) => Ok(Some(fields)),
            _ => Ok(None),
        },
        FileKind::Rels => match after_ends(texts) {
            Some(texts) => read_properties(alloc, texts),
            None => Ok(None),
        },
    }
}

// Whether the first field may be a key.
fn has_key(fields: &[Field]) -> bool
    ensures { result ≡ has_key fields.now }
{
    match fields {
        [key, ..] => key.kind != Kind::Flag,
        [] => false,
    }
}

// What stands behind `from` and `to`.
fn after_ends(texts: &[Bytes]) -> Option<&[Bytes]>
    ensures { option_copied result ≡ after_ends texts.now }
{
    match texts {
        [from, to, properties @ ..] if are_ends(from.as_slice(), to.as_slice()) => Some(properties),
        _ => None,
    }
}

// Every field, where all are `name:kind` and no two have one name.
fn read_properties(alloc: Global, texts: &[Bytes]) -> Result<Option<List<Field>>, Memory>
    ensures { IfOk result (λ fields. fields ≡ properties_of texts.now) }
{
    let Some(fields) = read_fields(alloc, texts)? else {
        return Ok(None);
    };
    if are_distinct(alloc, fields.as_slice())? {
        Ok(Some(fields))
    } else {
        Ok(None)
    }
}

// Every field, where all are `name:kind`.
fn read_fields(alloc: Global, texts: &[Bytes]) -> Result<Option<List<Field>>, Memory>
    ensures { IfOk result (λ fields. fields ≡ each field_of texts.now) }
{
    let mut fields = Vec::with_capacity(alloc, texts.len())?;
    for text in texts {
        let Some(field) = read_field(alloc, text.as_slice())? else {
            return Ok(None);
        };
        fields.push(field)?;
    }
    Ok(Some(List::from_vec(fields)))
}

// Whether no two fields have one name. An ordered set keeps it from being quadratic.
fn are_distinct(alloc: Global, fields: &[Field]) -> Result<bool, Memory>
    ensures { IfOk result (λ answer. answer ≡ all_distinct same_name fields.now) }
{
    let mut names = BTreeSet::new(alloc);
    for field in fields {
        let Ok(is_new) = names.insert(field.name.as_str()) else {
            return Err(Memory::Exhausted);
        };
        if !is_new {
            return Ok(false);
        }
    }
    Ok(true)
}

fn read_field(alloc: Global, text: &[u8]) -> Result<Option<Field>, Memory>
    ensures { IfOk result (λ field. field ≡ field_of text.now) }
{
    let (name, word) = cut(text, b':');
    let Some(name) = read_name(name) else {
        return Ok(None);
    };
    let Some(kind) = read_kind(word) else {
        return Ok(None);
    };
    let name = Text::new(alloc, name)?;
    Ok(Some(Field { name, kind }))
}

fn read_kind(word: &[u8]) -> Option<Kind>
    ensures { result ≡ kind_of word.now }
{
    if word == b"int".as_slice() {
        Some(Kind::Int)
    } else if word == b"string".as_slice() {
        Some(Kind::Str)
    } else if word == b"bool".as_slice() {
        Some(Kind::Flag)
    } else {
        None
    }
}

fn are_ends(from: &[u8], to: &[u8]) -> bool
    ensures { result ≡ are_ends from.now to.now }
{
    from == b"from".as_slice() && to == b"to".as_slice()
}

// What stands before the first such byte, and what stands after it.
fn cut(bytes: &[u8], at: u8) -> (&[u8], &[u8])
    ensures before { result.0.now ≡ before_first (λ b. b == at) bytes.now }
    ensures after { result.1.now ≡ after_first (λ b. b == at) bytes.now }
{
    match place_of(bytes, at) {
        Some(place) => (&bytes[..place], &bytes[place + 1..]),
        None => (bytes, &[]),
    }
}

fn place_of(bytes: &[u8], at: u8) -> Option<usize>
    ensures value { result ≡ position (λ b. b == at) bytes.now }
    ensures within { IfSome result (λ place. place < length bytes.now) }
{
    bytes.iter().position(|b| *b == at)
}
