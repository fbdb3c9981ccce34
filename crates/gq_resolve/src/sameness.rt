//! When two expressions are the same.
ghost use Rattle.std.specs.Prelude.{◌≡◌};
ghost use Rattle.std.specs.Cmp.Lexicographic.{pointwise};
ghost use Rattle.gq_expr.specs.declared.Expr.{out-Expr};
ghost use Rattle.gq_resolve.specs.MadeOf as made;
ghost use Rattle.gq_resolve.specs.MadeOf.{same_arith, same_compare, same_expr};

use crate::operands::{operand, place_count};
use gq_base::{ArithOp, CompareOp, Literal, same as same_value};
use gq_expr::{ArithOperand, CompareOperand, Expr, ExprTester, Tester};

/// Whether two expressions are the same.
#[tactic(auto, using(crate::proofs::Walks::sameness))]
pub(crate) fn same(expr: &Expr, other: &Expr) -> bool
    ensures { result ≡ same_expr expr.now other.now }
{
    let count = place_count(expr);
    if place_count(other) != count {
        return false;
    }
    if !same_head(expr, other) {
        return false;
    }
    for place in 0..count {
        let agree = match (operand(expr, place), operand(other, place)) {
            (Some(own), Some(part)) => same(own, part),
            (None, None) => true,
            _ => false,
        };
        if !agree {
            return false;
        }
    }
    true
}

// Whether two expressions are the same but for their operands.
fn same_head(expr: &Expr, other: &Expr) -> bool
    ensures { result ≡ made.same_head (out-Expr expr.now) (out-Expr other.now) }
{
    match expr {
        Expr::Literal(literal) => match other {
            Expr::Literal(own) => same_literal(literal, own),
            _ => false,
        },
        Expr::Node(variable) => match other {
            Expr::Node(own) => *variable == *own,
            _ => false,
        },
        Expr::Rel(variable) => match other {
            Expr::Rel(own) => *variable == *own,
            _ => false,
        },
        Expr::NodeProperty(variable, name) => match other {
            Expr::NodeProperty(own, key) => *variable == *own && name.is(key.as_str()),
            _ => false,
        },
        Expr::RelProperty(variable, name) => match other {
            Expr::RelProperty(own, key) => *variable == *own && name.is(key.as_str()),
            _ => false,
        },
        Expr::TypeName(_) => matches!(other, Expr::TypeName(_)),
        Expr::Coalesce(_) => matches!(other, Expr::Coalesce(_)),
        Expr::Negate(_) => matches!(other, Expr::Negate(_)),
        Expr::Plus(_) => matches!(other, Expr::Plus(_)),
        Expr::Not(_) => matches!(other, Expr::Not(_)),
        Expr::Or(_) => matches!(other, Expr::Or(_)),
        Expr::Xor(_) => matches!(other, Expr::Xor(_)),
        Expr::And(_) => matches!(other, Expr::And(_)),
        Expr::Compare(_, terms) => match other {
            Expr::Compare(_, own) => same_compares(terms.as_slice(), own.as_slice()),
            _ => false,
        },
        Expr::Test(_, testers) => match other {
            Expr::Test(_, own) => same_tests(testers.as_slice(), own.as_slice()),
            _ => false,
        },
        Expr::Arith(_, terms) => match other {
            Expr::Arith(_, own) => same_ariths(terms.as_slice(), own.as_slice()),
            _ => false,
        },
    }
}

fn same_compares(terms: &[CompareOperand], others: &[CompareOperand]) -> bool
    ensures { result ≡ pointwise same_compare terms.now others.now }
{
    for (at, term) in terms.iter().enumerate() {
        match others.get(at) {
            Some(other) if compare_rank(term.op) == compare_rank(other.op) => {}
            _ => return false,
        }
    }
    others.len() <= terms.len()
}

fn same_ariths(terms: &[ArithOperand], others: &[ArithOperand]) -> bool
    ensures { result ≡ pointwise same_arith terms.now others.now }
{
    for (at, term) in terms.iter().enumerate() {
        match others.get(at) {
            Some(other) if arith_rank(term.op) == arith_rank(other.op) => {}
            _ => return false,
        }
    }
    others.len() <= terms.len()
}

fn same_tests(testers: &[ExprTester], others: &[ExprTester]) -> bool
    ensures { result ≡ pointwise made.same_test testers.now others.now }
{
    for (at, tester) in testers.iter().enumerate() {
        match others.get(at) {
            Some(other) if same_test(tester, other) => {}
            _ => return false,
        }
    }
    others.len() <= testers.len()
}

fn same_test(tester: &ExprTester, other: &ExprTester) -> bool
    ensures { result ≡ made.same_test tester.now other.now }
{
    match tester {
        Tester::IsNull => matches!(other, Tester::IsNull),
        Tester::IsNotNull => matches!(other, Tester::IsNotNull),
        Tester::Member(literals) => match other {
            Tester::Member(own) => same_literals(literals.as_slice(), own.as_slice()),
            _ => false,
        },
        Tester::Text(test, _) => match other {
            Tester::Text(own, _) => *test == *own,
            _ => false,
        },
    }
}

fn same_literals(literals: &[Literal], others: &[Literal]) -> bool
    ensures { result ≡ made.same_literals literals.now others.now }
{
    for (at, literal) in literals.iter().enumerate() {
        match others.get(at) {
            Some(other) if same_literal(literal, other) => {}
            _ => return false,
        }
    }
    others.len() <= literals.len()
}

fn same_literal(literal: &Literal, other: &Literal) -> bool
    ensures { result ≡ made.same_literal literal.now other.now }
{
    same_value(&literal.value(), &other.value())
}

fn compare_rank(op: CompareOp) -> u32
    ensures { result ≡ made.compare_rank op }
{
    match op {
        CompareOp::Equal => 0,
        CompareOp::NotEqual => 1,
        CompareOp::Less => 2,
        CompareOp::LessEqual => 3,
        CompareOp::Greater => 4,
        CompareOp::GreaterEqual => 5,
    }
}

fn arith_rank(op: ArithOp) -> u32
    ensures { result ≡ made.arith_rank op }
{
    match op {
        ArithOp::Add => 0,
        ArithOp::Subtract => 1,
        ArithOp::Multiply => 2,
        ArithOp::Divide => 3,
        ArithOp::Remainder => 4,
    }
}
