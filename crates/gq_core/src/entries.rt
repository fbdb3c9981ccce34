//! What the maps of patterns ask, as tests.
ghost use Rattle.std.specs.Prelude.{◌≡◌, ◌++◌, ◌∷◌, [], codes, map, All, IfOk};
ghost use Rattle.gq_base.specs.declared.operator.CompareOp.TheVariants as compare;
ghost use Rattle.gq_expr.specs.declared.expr.Expr.TheVariants as variant;
ghost use Rattle.gq_core.specs.Entries as asked;
ghost use Rattle.gq_ast.specs.Sources as sources;
ghost use Rattle.gq_ast.specs.Spans.{IsWholeEntry};

use gq_base::{Boxed, CompareOp, List, Literal, Memory, Text, TryClone};
use gq_expr::{CompareOperand, Expr, Operand};
use gq_plan::{BoundExpr, NamedExpr};
use gq_resolve::source_text;
use gq_scopes::{MapEntry, Variable};
use std::alloc::Global;

/// The tests of map entries: a property of an entry's variable equals the entry's literal.
pub fn entry_tests(
    alloc: Global,
    text: &[u8],
    entries: &[MapEntry<'_>],
) -> Result<List<NamedExpr>, Memory>
    requires { All (λ e. IsWholeEntry text.now e.entry) entries.now }
    ensures { IfOk result (λ es. es ≡ map (asked.entry_test text.now) entries.now) }
{
    let mut tests = List::new(alloc);
    for entry in entries {
        let test = entry_test(alloc, text, entry)?;
        tests.push(test)?;
    }
    Ok(tests)
}

/// The test of a map entry.
pub fn entry_test(alloc: Global, text: &[u8], entry: &MapEntry<'_>) -> Result<NamedExpr, Memory>
    requires { IsWholeEntry text.now entry.now.entry }
    ensures { IfOk result (λ e. e ≡ asked.entry_test text.now entry.now) }
{
    Ok(NamedExpr {
        name: entry_name(alloc, text, entry)?,
        expr: BoundExpr::new(alloc, entry_expr(alloc, entry)?)?,
    })
}

// `v.k = c`, with c as it is written.
fn entry_name(alloc: Global, text: &[u8], entry: &MapEntry<'_>) -> Result<Text, Memory>
    requires { IsWholeEntry text.now entry.now.entry }
    ensures { let literal = sources.source_text text.now entry.now.entry.value_span in
        IfOk result (λ t.
        t ≡ entry.now.called ++ (codes "." ++ (entry.now.entry.key ++ (codes " = " ++ literal)))) }
{
    let called = &entry.called;
    let key = &entry.entry.key;
    let literal = source_text(alloc, text, entry.entry.value_span)?;
    match format!(in alloc; "{called}.{key} = {literal}") {
        Ok(name) => Ok(Text::from_string(name)),
        Err(_) => Err(Memory::Exhausted),
    }
}

fn entry_expr(alloc: Global, entry: &MapEntry<'_>) -> Result<Expr, Memory>
    ensures { IfOk result (λ e. e ≡ asked.entry_expr entry.now) }
{
    let terms = equal_to(alloc, entry.entry.value.try_clone(alloc)?)?;
    let property = property_of(alloc, entry.variable, &entry.entry.key)?;
    Ok(Expr::Compare(Boxed::new(alloc, property)?, terms))
}

// What an operand has to equal.
fn equal_to(alloc: Global, literal: Literal) -> Result<List<CompareOperand>, Memory>
    ensures { IfOk result (λ terms.
        terms ≡ record { op = compare.Equal; expr = variant.Literal literal } ∷ []) }
{
    let mut terms = List::new(alloc);
    terms.push(Operand {
        op: CompareOp::Equal,
        expr: Expr::Literal(literal),
    })?;
    Ok(terms)
}

fn property_of(alloc: Global, variable: Variable, key: &Text) -> Result<Expr, Memory>
    ensures { IfOk result (λ e. e ≡ asked.property_of variable key.now) }
{
    let key = key.try_clone(alloc)?;
    match variable {
        Variable::Node(number) => Ok(Expr::NodeProperty(number, key)),
        Variable::Rel(number) => Ok(Expr::RelProperty(number, key)),
    }
}
