//! The operators at values: comparisons, tests and integers.
ghost use Rattle.std.specs.Prelude.{◌≡◌};
ghost use Rattle.gq_base.specs.Values.{val};
ghost use Rattle.gq_expr.specs.Operators.{outcome, compare_vals, is_null_val, member_of};
ghost use Rattle.gq_expr.specs.Operators as spec;
ghost use Rattle.gq_expr.specs.Operators.{text_vals, occurs};
ghost use Rattle.gq_expr.specs.Operators.{arith_vals, int_arith, negate_val};
ghost use Rattle.gq_expr.specs.steps.Operators.{fitting_or_overflow};
ghost use Rattle.gq_expr.specs.Operators.{plus_val, first_known};

use crate::expr::Fault;
use gq_base::{ArithOp, CompareOp, Literal, TextTest, Value, equal3, less3, not3, or3};
use memchr::memmem;

/// The first that is not null.
pub fn known<'v>(a: Value<'v>, b: Value<'v>) -> Value<'v>
    ensures { val result ≡ first_known (val a.entry) (val b.entry) }
{
    match a {
        Value::Null => b,
        _ => a,
    }
}

/// A comparison of two values, or `None` where it is not known (openCypher 9).
pub fn compare(op: CompareOp, a: &Value<'_>, b: &Value<'_>) -> Option<bool>
    ensures { result ≡ compare_vals op (val a.now) (val b.now) }
{
    match op {
        CompareOp::Equal => equal3(a, b),
        CompareOp::NotEqual => not3(equal3(a, b)),
        CompareOp::Less => less3(a, b),
        CompareOp::LessEqual => not3(less3(b, a)),
        CompareOp::Greater => less3(b, a),
        CompareOp::GreaterEqual => not3(less3(a, b)),
    }
}

/// Whether a value is null.
pub fn is_null(value: &Value<'_>) -> bool
    ensures { result ≡ is_null_val (val value.now) }
{
    matches!(value, Value::Null)
}

/// Whether a value equals one of the literals, or `None` where that is not known (openCypher 9).
#[tactic(auto, using(gq_base::proofs::TruthLaws::or3_laws))]
pub fn is_member(value: &Value<'_>, literals: &[Literal]) -> Option<bool>
    ensures { result ≡ member_of (val value.now) literals.now }
{
    let mut answer = Some(false);
    for literal in literals {
        answer = or3(answer, equal3(value, &literal.value()));
    }
    answer
}

/// Whether a text passes a test by another, or `None` where one of them is no text.
pub fn text_test(test: TextTest, value: &Value<'_>, part: &Value<'_>) -> Option<bool>
    ensures { result ≡ text_vals test (val value.now) (val part.now) }
{
    match (*value, *part) {
        (Value::Str(text), Value::Str(part)) => {
            Some(passes(test, text.as_bytes(), part.as_bytes()))
        }
        _ => None,
    }
}

fn passes(test: TextTest, text: &[u8], part: &[u8]) -> bool
    ensures { result ≡ spec.passes test text.now part.now }
{
    match test {
        TextTest::Starts => text.starts_with(part),
        TextTest::Ends => text.ends_with(part),
        TextTest::Contains => has_part(text, part),
    }
}

fn has_part(text: &[u8], part: &[u8]) -> bool
    ensures { result ≡ occurs text.now part.now }
{
    memmem::find(text, part).is_some()
}

/// `-` before a value: `Overflow` where it does not fit 64 signed bits, `Kind` where it is no integer and not null.
pub fn negate<'v>(value: &Value<'_>) -> Result<Value<'v>, Fault>
    ensures { outcome result ≡ negate_val (val value.now) }
{
    match *value {
        Value::Null => Ok(Value::Null),
        Value::Int(x) => fitting(x.checked_neg()),
        _ => Err(Fault::Kind),
    }
}

/// `+` before a value: `Kind` where it is no integer and not null.
pub fn plus<'v>(value: &Value<'_>) -> Result<Value<'v>, Fault>
    ensures { outcome result ≡ plus_val (val value.now) }
{
    match *value {
        Value::Null => Ok(Value::Null),
        Value::Int(x) => Ok(Value::Int(x)),
        _ => Err(Fault::Kind),
    }
}

/// An operator on integers: null where an operand is, `Overflow` where the result does not fit 64
/// signed bits, `DivideByZero` for `/` and `%` by 0, and `Kind` where an operand is of another kind.
pub fn arith<'v>(op: ArithOp, a: &Value<'_>, b: &Value<'_>) -> Result<Value<'v>, Fault>
    ensures { outcome result ≡ arith_vals op (val a.now) (val b.now) }
{
    match (*a, *b) {
        (Value::Null, _) | (_, Value::Null) => Ok(Value::Null),
        (Value::Int(x), Value::Int(y)) => int_arith(op, x, y),
        _ => Err(Fault::Kind),
    }
}

fn int_arith<'v>(op: ArithOp, x: i64, y: i64) -> Result<Value<'v>, Fault>
    ensures { outcome result ≡ int_arith op x y }
{
    match op {
        ArithOp::Add => fitting(x.checked_add(y)),
        ArithOp::Subtract => fitting(x.checked_sub(y)),
        ArithOp::Multiply => fitting(x.checked_mul(y)),
        ArithOp::Divide => {
            if y == 0 {
                return Err(Fault::DivideByZero);
            }
            fitting(x.checked_div(y))
        }
        ArithOp::Remainder => {
            if y == 0 {
                return Err(Fault::DivideByZero);
            }
            // The least integer has no remainder by -1 in 64 bits, since its quotient does not fit.
            if y == -1 {
                return Ok(Value::Int(0));
            }
            Ok(Value::Int(x % y))
        }
    }
}

fn fitting<'v>(answer: Option<i64>) -> Result<Value<'v>, Fault>
    ensures { outcome result ≡ fitting_or_overflow answer }
{
    match answer {
        Some(z) => Ok(Value::Int(z)),
        None => Err(Fault::Overflow),
    }
}
