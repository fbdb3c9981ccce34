//! The operands of an expression at one level, each at its place.
ghost use Rattle.std.specs.Prelude.{◌≡◌, ◌∷◌, Some, None, length, get_or};
ghost use Rattle.std.specs.Option.{option_copied};
ghost use Rattle.gq_expr.specs.declared.Expr.{out-Expr};
ghost use Rattle.gq_resolve.specs.Operands as operands;
ghost use Rattle.gq_resolve.specs.Operands.{places, list_places, term_places, test_places};

use gq_expr::{Expr, ExprTester, Operand, Tester};

/// How many places an expression has for operands.
pub fn place_count(expr: &Expr) -> usize
    ensures { result ≡ length (places (out-Expr expr.now)) }
{
    match expr {
        Expr::TypeName(_) | Expr::Negate(_) | Expr::Plus(_) | Expr::Not(_) => 1,
        Expr::Coalesce(all) | Expr::Or(all) | Expr::Xor(all) | Expr::And(all) => all.len(),
        Expr::Compare(_, terms) => terms.as_slice().len() + 1,
        Expr::Test(_, testers) => testers.as_slice().len() + 1,
        Expr::Arith(_, terms) => terms.as_slice().len() + 1,
        _ => 0,
    }
}

/// The operand at a place, if there is one.
pub fn operand(expr: &Expr, place: usize) -> Option<&Expr>
    ensures { option_copied result ≡ get_or (places (out-Expr expr.now)) place None }
{
    match expr {
        Expr::TypeName(inner) | Expr::Negate(inner) | Expr::Plus(inner) | Expr::Not(inner) => {
            if place == 0 { Some(inner.get()) } else { None }
        }
        Expr::Coalesce(all) | Expr::Or(all) | Expr::Xor(all) | Expr::And(all) => {
            operand_of_list(all.as_slice(), place)
        }
        Expr::Compare(first, terms) => operand_of_terms(first.get(), terms.as_slice(), place),
        Expr::Test(first, testers) => operand_of_tests(first.get(), testers.as_slice(), place),
        Expr::Arith(first, terms) => operand_of_terms(first.get(), terms.as_slice(), place),
        _ => None,
    }
}

#[tactic(auto, using(crate::proofs::Walks::at_list))]
fn operand_of_list(all: &[Expr], place: usize) -> Option<&Expr>
    ensures { option_copied result ≡ get_or (list_places all.now) place None }
{
    all.get(place)
}

#[tactic(auto, using(crate::proofs::Walks::at_place))]
fn operand_of_terms<'e, O>(
    first: &'e Expr,
    terms: &'e [Operand<O, Expr>],
    place: usize,
) -> Option<&'e Expr>
    ensures { option_copied result ≡ get_or (Some first.now ∷ term_places terms.now) place None }
{
    if place == 0 {
        return Some(first);
    }
    match terms.get(place - 1) {
        Some(term) => Some(&term.expr),
        None => None,
    }
}

#[tactic(auto, using(crate::proofs::Walks::at_place))]
fn operand_of_tests<'e>(
    first: &'e Expr,
    testers: &'e [ExprTester],
    place: usize,
) -> Option<&'e Expr>
    ensures { option_copied result ≡ get_or (Some first.now ∷ test_places testers.now) place None }
{
    if place == 0 {
        return Some(first);
    }
    match testers.get(place - 1) {
        Some(tester) => test_operand(tester),
        None => None,
    }
}

fn test_operand(tester: &ExprTester) -> Option<&Expr>
    ensures { option_copied result ≡ operands.test_operand tester.now }
{
    match tester {
        Tester::IsNull | Tester::IsNotNull | Tester::Member(_) => None,
        Tester::Text(_, part) => Some(part),
    }
}
