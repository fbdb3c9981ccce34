//! Which assignments of a chunk a table takes.
ghost use Rattle.std.specs.Prelude.{◌≡◌, true};
ghost use Rattle.gq_plan.specs.Assignments.{row_of};

use gq_group::ChunkRow;

/// What an assignment is asked beside its conjuncts: where it is not admitted, it is left out, as
/// where a conjunct is false.
pub trait Admits {
    ghost use Rattle.std.specs.Prelude.{Bool};
    ghost use Rattle.gq_expr.specs.Reading.{Assignment};

    ghost admitted: { Self → Assignment → Bool };

    /// Whether an assignment is admitted.
    fn admits(&self, row: &ChunkRow<'_, '_, '_, '_, '_>) -> bool
        ensures { result ≡ admitted self.now (row_of row.now) };
}

/// Every assignment is admitted.
#[derive(Clone, Copy)]
pub struct Everything;

impl Admits for Everything {
    ghost admitted = { λ _ _. true };

    fn admits(&self, _row: &ChunkRow<'_, '_, '_, '_, '_>) -> bool {
        true
    }
}
