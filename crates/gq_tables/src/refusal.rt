//! Why the bytes of a file give no table.
ghost use Rattle.std.specs.Prelude.{◌≡◌};
ghost use Rattle.gq_tables.specs.declared.refusal.TableStop.TheVariants as stop;

use gq_base::Memory;
use std::alloc::{AllocError, AllocFailed};

/// The first record of a file that is refused, and the first rule that refuses it. Records are
/// counted from 1, the header among them, and so are the columns of their fields.
#[derive(Clone, Copy, Debug, PartialEq, Eq)]
pub enum TableRefusal {
    /// There is no record, or the first is not of the form of a header.
    BadHeader,
    /// The header names more than 64 properties.
    TooManyProperties,
    /// The record is one more after the header than there may be.
    TooManyRows,
    /// The record has another number of fields than the header.
    FieldCount { number: u32 },
    /// The field is not empty, and not of its kind.
    BadField { number: u32, column: u32 },
    /// The key of a node is empty.
    NullKey { number: u32 },
    /// An end of a relationship is empty, or is no key of its table.
    NoSuchNode { number: u32, column: u32 },
    /// The key of a node is that of an earlier one.
    KeyRepeated { number: u32 },
    /// An end of a relationship has one already, and the multiplicity of the table allows no
    /// second.
    NotSingle { number: u32 },
}

/// Why there is no table.
#[derive(Clone, Copy, Debug, PartialEq, Eq)]
pub enum TableStop {
    /// The file is refused.
    Refused(TableRefusal),
    /// There was not enough memory.
    Memory,
}

impl From<TableRefusal> for TableStop {
    ghost from_gives = { λ refusal e. e ≡ stop.Refused refusal };

    fn from(refusal: TableRefusal) -> TableStop {
        TableStop::Refused(refusal)
    }
}

impl From<Memory> for TableStop {
    ghost from_gives = { λ _ e. e ≡ stop.Memory };

    fn from(_memory: Memory) -> TableStop {
        TableStop::Memory
    }
}

impl From<AllocError> for TableStop {
    ghost from_gives = { λ _ e. e ≡ stop.Memory };

    fn from(_error: AllocError) -> TableStop {
        TableStop::Memory
    }
}

impl<T: Drop> From<AllocFailed<T>> for TableStop {
    ghost from_gives = { λ _ e. e ≡ stop.Memory };

    fn from(_failed: AllocFailed<T>) -> TableStop {
        TableStop::Memory
    }
}
