//! Why a query has no rows.
ghost use Rattle.std.specs.Prelude.{◌≡◌};
ghost use Rattle.gq_execute.specs.Refusals.{of_join, of_rows};
ghost use Rattle.gq_execute.specs.declared.refusal.AnswerRefusal.TheVariants as refusal;

use gq_base::Memory;
use gq_expr::Fault;
use gq_join::JoinRefusal;
use gq_rows::RowRefusal;

/// Why there are no rows.
#[derive(Clone, Copy, Debug, PartialEq, Eq)]
pub enum AnswerRefusal {
    /// An outcome that is looked at is this fault.
    Fault(Fault),
    /// More rows would be kept than this limit, or a part that is joined has more assignments, or
    /// the path of a test more different keys, or an alternative of an optional clause more matches.
    TooManyRows { limit: u32 },
    /// There was not enough memory.
    Memory(Memory),
}

impl From<Memory> for AnswerRefusal {
    ghost from_gives = { λ memory e. e ≡ refusal.Memory memory };

    fn from(memory: Memory) -> AnswerRefusal {
        AnswerRefusal::Memory(memory)
    }
}

impl From<JoinRefusal> for AnswerRefusal {
    ghost from_gives = { λ refused e. e ≡ of_join refused };

    fn from(refused: JoinRefusal) -> AnswerRefusal {
        match refused {
            JoinRefusal::TooManyRows { limit } => AnswerRefusal::TooManyRows { limit },
            JoinRefusal::Memory(memory) => AnswerRefusal::Memory(memory),
        }
    }
}

impl From<RowRefusal> for AnswerRefusal {
    ghost from_gives = { λ refused e. e ≡ of_rows refused };

    fn from(refused: RowRefusal) -> AnswerRefusal {
        match refused {
            RowRefusal::Fault(fault) => AnswerRefusal::Fault(fault),
            RowRefusal::TooManyRows { limit } => AnswerRefusal::TooManyRows { limit },
            RowRefusal::Memory(memory) => AnswerRefusal::Memory(memory),
        }
    }
}
