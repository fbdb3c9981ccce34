//! The logical operators at values.
ghost use Rattle.std.specs.Prelude.{◌≡◌, Option, Bool};
ghost use Rattle.gq_base.specs.Values.{val};
ghost use Rattle.gq_expr.specs.Operators.{Outcome, outcome, logic_vals, not_val, of_truth};
ghost use Rattle.gq_expr.specs.Operators.{with_truth};
ghost use Rattle.gq_expr.specs.steps.Operators.{with_known};

use crate::expr::{Fault, LogicOp};
use gq_base::{Value, and3, not3, or3, xor3};

/// A logical operator at two values: `Kind` where one is neither boolean nor null.
pub fn logic<'v>(op: LogicOp, a: &Value<'_>, b: &Value<'_>) -> Result<Value<'v>, Fault>
    ensures { outcome result ≡ logic_vals op (val a.now) (val b.now) }
{
    let a = truth(a)?;
    let b = truth(b)?;
    Ok(truth_value(match op {
        LogicOp::And => and3(a, b),
        LogicOp::Or => or3(a, b),
        LogicOp::Xor => xor3(a, b),
    }))
}

/// `NOT` at a value: `Kind` where it is neither boolean nor null.
pub fn not_value<'v>(a: &Value<'_>) -> Result<Value<'v>, Fault>
    ensures { outcome result ≡ not_val (val a.now) }
{
    let a = truth(a)?;
    Ok(truth_value(not3(a)))
}

/// The value of a truth: null where it is not known.
pub fn truth_value<'v>(truth: Option<bool>) -> Value<'v>
    ensures { val result ≡ of_truth truth }
{
    match truth {
        None => Value::Null,
        Some(b) => Value::Flag(b),
    }
}

// The truth of a boolean or null.
fn truth(value: &Value<'_>) -> Result<Option<bool>, Fault>
    ensures { (go : Option Bool → Outcome) → with_truth (val value.now) go ≡ with_known result go }
{
    match value {
        Value::Null => Ok(None),
        Value::Flag(b) => Ok(Some(*b)),
        _ => Err(Fault::Kind),
    }
}
