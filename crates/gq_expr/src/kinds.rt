//! Which expressions may fault, as far as the kinds of the properties tell.
ghost use Rattle.std.specs.Prelude.{◌≡◌, ◌<◌, ◌||◌, not, length, map, slice_get, false, true, IfSome};
ghost use Rattle.std.specs.List.{list_any};
ghost use Rattle.gq_expr.specs.Kinds as rule;
ghost use Rattle.gq_expr.specs.Kinds.{may, field_kind, kinds_at, literal_kinds};
ghost use Rattle.gq_expr.specs.steps.Kinds.{summary_of, both};
ghost use Rattle.gq_expr.specs.Kinds.{safe, all_of, truth, misfits, test_may, term_faults};
ghost use Rattle.gq_expr.specs.Kinds.{tester_faults};
ghost use Rattle.gq_expr.specs.steps.Parts.{operand_with, tester_with};
ghost use Rattle.gq_expr.specs.Safety.{HasTruth, HasValue};

use crate::expr::{CompareOperand, Expr, ExprTester, Tester};
use gq_base::{Field, Kind, List, Literal, Text, find_field};

/// The fields of a table.
pub type FieldList = List<Field>;

/// The fields that an alternative of a query gives each variable: those of the variable's table.
#[derive(Debug, Drop)]
pub struct Kinds {
    pub nodes: List<FieldList>,
    pub rels: List<FieldList>,
}

/// What the kinds tell of an expression.
#[derive(Clone, Copy)]
struct Summary {
    /// It may fault.
    faults: bool,
    /// Its value is a boolean or null.
    boolean: bool,
    /// Its value is a relationship or null.
    relationship: bool,
}

/// Whether a condition may fault, or have another value than true, false and null, as far as the
/// kinds tell. It may where it has a sign or an operator on integers, where an operand of a logical
/// operator may be no boolean, where an argument of `type` may be no relationship, and where it may
/// itself be no boolean. Null fits everywhere. One that cannot fault is true, false or null in every
/// graph, under each assignment that fits the kinds.
#[tactic(auto, using(crate::proofs::Promise::kinds_promise))]
pub fn can_fault(expr: &Expr, kinds: &Kinds) -> bool
    ensures told { result ≡ rule.can_fault kinds.now expr.now }
    ensures sound { result ≡ false → HasTruth kinds.now expr.now }
{
    misfits(summarize(expr, kinds))
}

/// Whether an expression is a literal, a variable or a property. These have a value in every graph,
/// under each assignment.
#[tactic(auto, using(crate::proofs::Equations::equations))]
pub fn is_sure(expr: &Expr) -> bool
    ensures { result ≡ true → HasValue expr.now }
{
    match expr {
        Expr::Literal(_) | Expr::Node(_) | Expr::Rel(_) => true,
        Expr::NodeProperty(_, _) | Expr::RelProperty(_, _) => true,
        _ => false,
    }
}

#[cycle(summarize)]
#[tactic(auto, using(crate::proofs::KindEquations::equations))]
fn summarize(expr: &Expr, kinds: &Kinds) -> Summary
    ensures { result ≡ summary_of (may kinds.now expr.now) }
{
    match expr {
        Expr::Literal(literal) => literal_summary(literal),
        Expr::Node(_) => harmless(false, false),
        Expr::Rel(_) => harmless(false, true),
        Expr::NodeProperty(variable, name) => {
            kind_summary(field_kind(kinds.nodes.as_slice(), *variable, name))
        }
        Expr::RelProperty(variable, name) => {
            kind_summary(field_kind(kinds.rels.as_slice(), *variable, name))
        }
        Expr::TypeName(inner) => {
            let inner = summarize(inner.get(), kinds);
            Summary {
                faults: inner.faults || !inner.relationship,
                boolean: false,
                relationship: false,
            }
        }
        Expr::Coalesce(all) => summary_of_all(all.as_slice(), kinds),
        Expr::Negate(_) => arithmetic(),
        Expr::Plus(_) => arithmetic(),
        Expr::Not(inner) => condition(misfits(summarize(inner.get(), kinds))),
        Expr::Or(all) => condition(some_misfits(all.as_slice(), kinds)),
        Expr::Xor(all) => condition(some_misfits(all.as_slice(), kinds)),
        Expr::And(all) => condition(some_misfits(all.as_slice(), kinds)),
        Expr::Compare(first, terms) => {
            let first = summarize(first.get(), kinds);
            condition(first.faults || some_term_faults(terms.as_slice(), kinds))
        }
        Expr::Test(first, testers) => {
            let first = summarize(first.get(), kinds);
            summary_of_tests(first, testers.as_slice(), kinds)
        }
        Expr::Arith(_, _) => arithmetic(),
    }
}

#[cycle(summarize)]
#[tactic(auto, using(crate::proofs::Summaries::joining))]
fn summary_of_all(all: &[Expr], kinds: &Kinds) -> Summary
    ensures { result ≡ summary_of (all_of (map (may kinds.now) all.now)) }
{
    let mut whole = harmless(true, true);
    for part in all {
        let next = summarize(part, kinds);
        whole = joined(whole, next);
    }
    whole
}

#[cycle(summarize)]
fn some_misfits(all: &[Expr], kinds: &Kinds) -> bool
    ensures { result ≡ list_any rule.misfits (map (may kinds.now) all.now) }
{
    for part in all {
        if misfits(summarize(part, kinds)) {
            return true;
        }
    }
    false
}

#[cycle(summarize)]
fn some_term_faults(terms: &[CompareOperand], kinds: &Kinds) -> bool
    ensures { result ≡ list_any term_faults (map (operand_with (may kinds.now)) terms.now) }
{
    for term in terms {
        if summarize(&term.expr, kinds).faults {
            return true;
        }
    }
    false
}

#[cycle(summarize)]
fn summary_of_tests(first: Summary, testers: &[ExprTester], kinds: &Kinds) -> Summary
    ensures { (m : _) → first ≡ summary_of m
        → result ≡ summary_of (test_may m (map (tester_with (may kinds.now)) testers.now)) }
{
    match testers {
        [] => first,
        [_, ..] => condition(first.faults || some_tester_faults(testers, kinds)),
    }
}

#[cycle(summarize)]
fn some_tester_faults(testers: &[ExprTester], kinds: &Kinds) -> bool
    ensures { result ≡ list_any tester_faults (map (tester_with (may kinds.now)) testers.now) }
{
    for tester in testers {
        let faults = match tester {
            Tester::IsNull => false,
            Tester::IsNotNull => false,
            Tester::Member(_) => false,
            Tester::Text(_, part) => summarize(part, kinds).faults,
        };
        if faults {
            return true;
        }
    }
    false
}

fn misfits(part: Summary) -> bool
    ensures { result ≡ (part.faults || not part.boolean) }
{
    part.faults || !part.boolean
}

fn harmless(boolean: bool, relationship: bool) -> Summary
    ensures { result ≡ record { faults = false; boolean = boolean; relationship = relationship } }
{
    Summary {
        faults: false,
        boolean,
        relationship,
    }
}

fn condition(faults: bool) -> Summary
    ensures { result ≡ summary_of (truth faults) }
{
    Summary {
        faults,
        boolean: true,
        relationship: false,
    }
}

fn arithmetic() -> Summary
    ensures { result ≡ summary_of rule.arithmetic }
{
    Summary {
        faults: true,
        boolean: false,
        relationship: false,
    }
}

fn joined(a: Summary, b: Summary) -> Summary
    ensures { result ≡ both a b }
{
    Summary {
        faults: a.faults || b.faults,
        boolean: a.boolean && b.boolean,
        relationship: a.relationship && b.relationship,
    }
}

fn literal_summary(literal: &Literal) -> Summary
    ensures { result ≡ summary_of (safe (literal_kinds literal.now)) }
{
    match literal {
        Literal::Null => harmless(true, true),
        Literal::Flag(_) => harmless(true, false),
        Literal::Int(_) => harmless(false, false),
        Literal::Str(_) => harmless(false, false),
    }
}

fn kind_summary(kind: Option<Kind>) -> Summary
    ensures { result ≡ summary_of (safe (kinds_at kind)) }
{
    match kind {
        None => harmless(true, true),
        Some(Kind::Flag) => harmless(true, false),
        Some(Kind::Int) => harmless(false, false),
        Some(Kind::Str) => harmless(false, false),
    }
}

// The kind of the field of that name, where the variable has such a field.
fn field_kind(tables: &[FieldList], variable: u32, name: &Text) -> Option<Kind>
    ensures { result ≡ rule.field_kind (slice_get tables.now variable) name.now }
{
    match tables.get(variable as usize) {
        None => None,
        Some(fields) => kind_in(fields.as_slice(), name),
    }
}

fn kind_in(fields: &[Field], name: &Text) -> Option<Kind>
    ensures { result ≡ rule.kind_in fields.now name.now }
{
    match find_field(fields, name) {
        None => None,
        Some(place) => Some(fields[place].kind),
    }
}
