//! What a table of rows answers to an assignment.
ghost use Rattle.std.specs.Prelude.{◌≡◌};
ghost use Rattle.gq_kept.specs.declared.refusal.RowRefusal.TheVariants as refusal;

use gq_base::Memory;
use gq_expr::Fault;

/// Whether further assignments can change what a table of rows answers.
#[derive(Clone, Copy, Debug, PartialEq, Eq)]
pub enum More {
    /// They can.
    Go,
    /// They cannot: SKIP plus LIMIT rows are held, and neither DISTINCT nor ORDER BY is asked.
    Enough,
}

/// Why a table of rows takes no assignment.
#[derive(Clone, Copy, Debug, PartialEq, Eq)]
pub enum RowRefusal {
    /// A conjunct, a column or a key has no value for the assignment.
    Fault(Fault),
    /// The kept rows would be more than the limit.
    TooManyRows { limit: u32 },
    /// There was not enough memory.
    Memory(Memory),
}

impl From<Memory> for RowRefusal {
    ghost from_gives = { λ memory e. e ≡ refusal.Memory memory };

    fn from(memory: Memory) -> RowRefusal {
        RowRefusal::Memory(memory)
    }
}
