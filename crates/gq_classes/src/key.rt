//! A value behind a front of values, told so that it takes few bytes.
ghost use Rattle.std.specs.Prelude.{◌≡◌, IfOk, true};
ghost use Rattle.gq_base.specs.Values.{val};
ghost use Rattle.gq_classes.specs.steps.Levels.{Grows, IsKeyOf, IsTextOf, front_of, key_val};
ghost use Rattle.gq_classes.specs.steps.Levels.{texts_of};

use gq_base::{Memory, NodeId, RelId, Value};
use indexmap::IndexSet;

/// A value behind the front of a number. A text is told by its number among the texts.
#[derive(Clone, Copy, PartialEq, Eq, Hash)]
pub enum Key {
    Null { front: u32 },
    Flag { front: u32, flag: bool },
    Int { front: u32, int: i64 },
    Text { front: u32, number: u32 },
    Node { front: u32, table: u32, row: u32 },
    Rel { front: u32, table: u32, row: u32 },
}

impl Key {
    /// A value behind a front. A text that is new has the next number.
    pub(crate) fn new<'g>(
        front: u32,
        value: Value<'g>,
        texts: &mut IndexSet<&'g str>,
    ) -> Result<Key, Memory>
        ensures texts { Grows (texts_of texts.old) (texts_of texts.new) }
        ensures key { IfOk result (IsKeyOf (texts_of texts.new) front (val value.entry)) }
    {
        let key = match value {
            Value::Null => Key::Null { front },
            Value::Flag(flag) => Key::Flag { front, flag },
            Value::Int(int) => Key::Int { front, int },
            Value::Str(text) => Key::Text {
                front,
                number: number_of(text, texts)?,
            },
            Value::Node(node) => Key::Node {
                front,
                table: node.table,
                row: node.row,
            },
            Value::Rel(rel) => Key::Rel {
                front,
                table: rel.table,
                row: rel.row,
            },
        };
        Ok(key)
    }

    /// The number of the front.
    pub(crate) fn front(&self) -> u32
        ensures { result ≡ front_of self.now }
    {
        match *self {
            Key::Null { front } => front,
            Key::Flag { front, .. } => front,
            Key::Int { front, .. } => front,
            Key::Text { front, .. } => front,
            Key::Node { front, .. } => front,
            Key::Rel { front, .. } => front,
        }
    }

    /// Whether it is a value behind a front.
    pub(crate) fn is<'g>(&self, front: u32, value: Value<'g>, texts: &IndexSet<&'g str>) -> bool
        ensures front { result ≡ true → front_of self.now ≡ front }
        ensures value { result ≡ true → key_val (texts_of texts.now) self.now ≡ val value.entry }
    {
        if self.front() != front {
            return false;
        }
        match (*self, value) {
            (Key::Null { .. }, Value::Null) => true,
            (Key::Flag { flag, .. }, Value::Flag(other)) => flag == other,
            (Key::Int { int, .. }, Value::Int(other)) => int == other,
            (Key::Text { number, .. }, Value::Str(text)) => is_text(number, text, texts),
            (Key::Node { table, row, .. }, Value::Node(node)) => {
                table == node.table && row == node.row
            }
            (Key::Rel { table, row, .. }, Value::Rel(rel)) => {
                table == rel.table && row == rel.row
            }
            _ => false,
        }
    }

    /// The value.
    pub(crate) fn value<'g>(&self, texts: &IndexSet<&'g str>) -> Value<'g>
        ensures { val result ≡ key_val (texts_of texts.now) self.now }
    {
        match *self {
            Key::Null { .. } => Value::Null,
            Key::Flag { flag, .. } => Value::Flag(flag),
            Key::Int { int, .. } => Value::Int(int),
            Key::Text { number, .. } => match texts.get_index(number as usize) {
                Some(text) => Value::Str(*text),
                None => Value::Null,
            },
            Key::Node { table, row, .. } => Value::Node(NodeId { table, row }),
            Key::Rel { table, row, .. } => Value::Rel(RelId { table, row }),
        }
    }
}

// Whether a text has this number among the texts.
fn is_text<'g>(number: u32, text: &'g str, texts: &IndexSet<&'g str>) -> bool
    ensures { result ≡ true → IsTextOf (texts_of texts.now) text.now number }
{
    match texts.get_index(number as usize) {
        None => false,
        Some(other) => text == *other,
    }
}

// The number of a text among the texts.
fn number_of<'g>(text: &'g str, texts: &mut IndexSet<&'g str>) -> Result<u32, Memory>
    ensures texts { Grows (texts_of texts.old) (texts_of texts.new) }
    ensures number { IfOk result (IsTextOf (texts_of texts.new) text.now) }
{
    if texts.len() >= u32::MAX as usize {
        return Err(Memory::Limit);
    }
    let (number, _) = texts.insert_full(text)?;
    Ok(number as u32)
}
