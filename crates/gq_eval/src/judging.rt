//! What conjuncts say of a row.
ghost use Rattle.std.specs.Prelude.{◌≡◌};
ghost use Rattle.gq_expr.specs.Operators.{outcome};
ghost use Rattle.gq_plan.specs.Marked.{marks};
ghost use Rattle.gq_eval.specs.Asked.{answers};
ghost use Rattle.gq_eval.specs.Judged.{behind, marks_of, one_more};

use crate::evaluator::Evaluator;
use gq_base::Value;
use gq_expr::{Assigned, Fault};

/// What conjuncts say of a row.
#[derive(Clone, Copy, Debug, PartialEq, Eq)]
pub enum Verdict {
    /// One of them is false or null.
    Dropped,
    /// All are true.
    Pass,
    /// The first that faults, or that is neither boolean nor null, where none is false or null.
    Fault(Fault),
}

// The first fault counts.
fn behind(verdict: Verdict, fault: Fault) -> Verdict
    ensures { result ≡ behind verdict fault }
{
    match verdict {
        Verdict::Pass => Verdict::Fault(fault),
        Verdict::Fault(_) | Verdict::Dropped => verdict,
    }
}

/// What was found so far, and one more conjunct: it drops the row where it is false or null.
pub fn judge_more(verdict: Verdict, answer: Result<Value<'_>, Fault>) -> Verdict
    ensures { result ≡ one_more verdict (outcome answer.entry) }
{
    match answer {
        Ok(Value::Null) | Ok(Value::Flag(false)) => Verdict::Dropped,
        Ok(Value::Flag(true)) => verdict,
        Ok(_) => behind(verdict, Fault::Kind),
        Err(fault) => behind(verdict, fault),
    }
}

/// What conjuncts say of a row. One that drops it counts before any fault, also an earlier one. It
/// takes no memory.
#[tactic(auto, using(crate::proofs::Verdicts::stays_dropped, crate::proofs::Verdicts::judged_so))]
pub fn judge<R: Assigned>(conjuncts: &[Evaluator<'_>], row: &R) -> Verdict
    ensures { marks_of result ≡ marks (answers (R.assignment row.now) conjuncts.now) }
{
    let mut verdict = Verdict::Pass;
    'conjuncts: for conjunct in conjuncts {
        verdict = judge_more(verdict, conjunct.value(row));
        if let Verdict::Dropped = verdict {
            return Verdict::Dropped;
        }
    }
    verdict
}
