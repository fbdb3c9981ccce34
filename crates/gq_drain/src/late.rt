//! What the conjuncts that an alternative leaves say of a row, and the tests of paths.
ghost use Rattle.std.specs.Prelude.{◌≡◌};
ghost use Rattle.gq_drain.specs.steps.Continued.{left_by, rows_marked};
ghost use Rattle.gq_eval.specs.Judged.{marks_of};

use crate::prepared::Prepared;
use gq_eval::Verdict;
use gq_expr::Assigned;
use gq_plan::Typed;
use gq_project::check_late;

/// What those of a query's conjuncts say of a row that an alternative leaves; a row that the tests
/// of paths do not admit is dropped. It takes no memory.
pub(crate) fn judge_row<R: Assigned>(prepared: &Prepared<'_>, typed: &Typed, row: &R) -> Verdict
    ensures { let here = R.assignment row.now in
        rows_marked here (marks_of result) ≡ left_by prepared.now typed.now here }
{
    let late = typed.late.as_slice();
    let verdict = check_late(&prepared.conjuncts, late, row);
    if let Verdict::Dropped = verdict {
        return Verdict::Dropped;
    }
    if !prepared.tests.pass(row) {
        return Verdict::Dropped;
    }
    verdict
}
