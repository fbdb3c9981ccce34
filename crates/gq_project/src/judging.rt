//! What a query makes of an assignment: it drops it, faults, or gives it the values of a row.
ghost use Rattle.std.specs.Prelude.{◌≡◌};
ghost use Rattle.gq_eval.specs.Asked.{answers};
ghost use Rattle.gq_eval.specs.Judged.{judged_after};
ghost use Rattle.gq_eval.specs.declared.judging.Verdict.TheVariants.{Pass};
ghost use Rattle.gq_project.specs.Judged.{IsRead, Judges, PushesValues, asked_outcome};
ghost use Rattle.gq_project.specs.Judged.{column_count, key_count, late_checked};
ghost use Rattle.gq_project.specs.Reading.{at_numbers};

use crate::conjunct::Conjunct;
use crate::reading::Reading;
use gq_base::{List, Memory, Value};
use gq_eval::{Evaluator, Verdict};
use gq_expr::Assigned;
use gq_kept::RowRefusal;
use gq_plan::Bound;
use gq_store::Graph;

/// What is asked of each row, and the most rows that are kept.
#[derive(Clone, Copy)]
pub struct Question<'q, 'g> {
    pub graph: &'g Graph,
    pub bound: &'g Bound,
    /// The numbers of the conjuncts that are left.
    pub late: &'g [u32],
    pub limit: u32,
    /// Each column and each key is sure to have a value.
    pub sure: bool,
    /// The columns, the keys and the conjuncts as they are evaluated over the graph.
    pub reading: &'q Reading<'g>,
}

/// Looks at the conjuncts that are left, by their numbers: one that drops counts before any fault,
/// also an earlier one.
#[tactic(auto, using(gq_eval::proofs::Verdicts::stays_dropped))]
pub fn check_late<R: Assigned>(conjuncts: &List<Conjunct<'_>>, late: &[u32], row: &R) -> Verdict
    ensures { let left = at_numbers conjuncts.now late.now in
        result ≡ judged_after Pass (answers (R.assignment row.now) left) }
{
    let mut verdict = Verdict::Pass;
    'late: for number in late {
        if let Some(conjunct) = conjuncts.get(*number as usize) {
            verdict = conjunct.judge_more(verdict, row);
            if let Verdict::Dropped = verdict {
                return Verdict::Dropped;
            }
        }
    }
    verdict
}

// Appends the values of expressions.
fn push_values<'g, R: Assigned>(
    values: &mut Vec<Value<'g>>,
    all: &[Evaluator<'g>],
    row: &R,
) -> Result<(), RowRefusal>
    ensures { PushesValues (answers (R.assignment row.now) all.now)
        values.old.items values.new.items result }
{
    'all: for one in all {
        match one.value(row) {
            Ok(value) => values.push(value).map_err(Memory::from)?,
            Err(fault) => return Err(RowRefusal::Fault(fault)),
        }
    }
    Ok(())
}

/// What the conjuncts that are left say of an assignment.
pub fn check<R: Assigned>(question: &Question<'_, '_>, row: &R) -> Verdict
    requires { IsRead question.now }
    ensures { result ≡ late_checked question.now (R.assignment row.now) }
{
    check_late(&question.reading.conjuncts, question.late, row)
}

/// Appends the values of an assignment's row, or answers false where the conjuncts that are left
/// drop it. After a refusal some of the values may stand there.
pub fn judge<'g, R: Assigned>(
    checked: Verdict,
    columns: &mut Vec<Value<'g>>,
    keys: &mut Vec<Value<'g>>,
    question: &Question<'_, 'g>,
    row: &R,
) -> Result<bool, RowRefusal>
    requires checked { checked ≡ late_checked question.now (R.assignment row.now) }
    requires reading { IsRead question.now }
    ensures { let judges = Judges (column_count question.now) (key_count question.now) in
        judges (asked_outcome question.now (R.assignment row.now))
        columns.old.items columns.new.items keys.old.items keys.new.items result }
{
    match checked {
        Verdict::Dropped => return Ok(false),
        Verdict::Fault(fault) => return Err(RowRefusal::Fault(fault)),
        Verdict::Pass => {}
    }
    match push_values(columns, question.reading.columns.as_slice(), row) {
        Ok(()) => {}
        Err(refusal) => return Err(refusal),
    }
    match push_values(keys, question.reading.keys.as_slice(), row) {
        Ok(()) => {}
        Err(refusal) => return Err(refusal),
    }
    Ok(true)
}
