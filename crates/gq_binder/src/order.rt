//! What ORDER BY may not ask.
ghost use Rattle.std.specs.Prelude.{◌≡◌, All, IfOk};
ghost use Rattle.std.specs.Option.{option_copied, option_map};
ghost use Rattle.gq_bound.specs.Checks.{Checks};
ghost use Rattle.gq_bound.specs.steps.Parts.{ambiguous_in, out_of_scope_in};
ghost use Rattle.gq_bound.specs.Refusals as refusals;
ghost use Rattle.gq_bound.specs.Refusals.{first_in, out_of_scope_from, sorts_in};
ghost use Rattle.gq_bound.specs.declared.refusal.BindRefusal.TheVariants as refusal;
ghost use Rattle.gq_resolve.specs.Checks.{check_of};
ghost use Rattle.gq_resolve.specs.MadeOf.{column_exprs};
ghost use Rattle.gq_resolve.specs.Renames.{ambiguous_name, renamed_name};
ghost use Rattle.gq_resolve.specs.Resolving.{as_lists, resolved};
ghost use Rattle.gq_ast.specs.Spans.{IsWholeTree};

use crate::columns::push_columns;
use gq_ast::{Ast, Query, Sort};
use gq_base::{List, Memory, Text, TryClone};
use gq_bound::BindRefusal;
use gq_resolve::{CallForm, Check, ColumnExprs, Renamed, first_refused, resolve_part};
use gq_scopes::{Column, Copying, Pattern, Scope, next};
use std::alloc::Global;

/// With DISTINCT, an item of ORDER BY is not made of columns. Here alone calls are compared as they
/// are written, since they may yet be none.
pub fn order_out_of_scope(
    alloc: Global,
    text: &[u8],
    query: &Query,
    pattern: &Pattern<'_>,
) -> Result<(), BindRefusal>
    requires { All (λ item. IsWholeTree text.now item.tree) query.now.items }
    ensures { Checks (out_of_scope_in text.now query.now pattern.now) result }
{
    if !query.distinct {
        return Ok(());
    }
    let mut columns = List::new(alloc);
    push_columns(alloc, CallForm::Lists, text, pattern, query, &mut columns)?;
    let scope = pattern.scope(columns.as_slice())?;
    first_out_of_scope(alloc, columns.as_slice(), &scope, query.order.as_slice())
}

fn first_out_of_scope(
    alloc: Global,
    columns: &[Column],
    scope: &Scope<'_>,
    order: &[Sort],
) -> Result<(), BindRefusal>
    ensures { Checks (out_of_scope_from 1 (column_exprs columns.now) scope.now order.now) result }
{
    let exprs = ColumnExprs::of(alloc, columns)?;
    first_not_made(alloc, &exprs, scope, order)
}

// The first item of ORDER BY that is not made of these columns.
fn first_not_made(
    alloc: Global,
    columns: &ColumnExprs<'_>,
    scope: &Scope<'_>,
    order: &[Sort],
) -> Result<(), BindRefusal>
    ensures { Checks (out_of_scope_from 1 columns.now scope.now order.now) result }
{
    let mut copying = Copying::new();
    let mut item = 1;
    for sort in order {
        if !is_made(alloc, &mut copying, columns, scope, &sort.tree)? {
            return Err(BindRefusal::OrderOutOfScope { item });
        }
        item = next(item)?;
    }
    Ok(())
}

// Whether a tree is made of columns; one without an expression is refused elsewhere.
fn is_made(
    alloc: Global,
    copying: &mut Copying,
    columns: &ColumnExprs<'_>,
    scope: &Scope<'_>,
    tree: &Ast,
) -> Result<bool, Memory>
    ensures { IfOk result (λ b.
        b ≡ refusals.is_made columns.now (resolved as_lists scope.now tree.now)) }
{
    match resolve_part(alloc, copying, CallForm::Lists, scope, tree)? {
        Some(expr) => Ok(columns.make(&expr)),
        None => Ok(true),
    }
}

/// A name in ORDER BY is a variable, and AS gives it to another column.
pub fn ambiguous_order_name(
    alloc: Global,
    query: &Query,
    pattern: &Pattern<'_>,
) -> Result<(), BindRefusal>
    ensures { Checks (ambiguous_in query.now pattern.now) result }
{
    let scope = pattern.scope(&[])?;
    ambiguous_in(alloc, query, &scope)
}

fn ambiguous_in(alloc: Global, query: &Query, scope: &Scope<'_>) -> Result<(), BindRefusal>
    ensures { let ambiguous = ambiguous_name scope.now query.now.items in
        Checks (option_map refusal.AmbiguousOrderName
        (first_in (λ _. ambiguous) (sorts_in scope.now query.now.order))) result }
{
    let renamed = Renamed::of(alloc, scope, query.items.as_slice())?;
    not_renamed(alloc, &renamed, scope, query.order.as_slice())
}

// AS gives no name of these sort items to another column.
fn not_renamed(
    alloc: Global,
    renamed: &Renamed<'_>,
    scope: &Scope<'_>,
    order: &[Sort],
) -> Result<(), BindRefusal>
    ensures { Checks (option_map refusal.AmbiguousOrderName
        (first_in (λ _. renamed_name renamed.now) (sorts_in scope.now order.now))) result }
{
    let Some(name) = first_renamed(renamed, scope, order) else {
        return Ok(());
    };
    let name = name.try_clone(alloc)?;
    Err(BindRefusal::AmbiguousOrderName { name })
}

// The first name that AS gives to another column.
fn first_renamed<'q>(
    renamed: &Renamed<'_>,
    scope: &Scope<'_>,
    order: &'q [Sort],
) -> Option<&'q Text>
    ensures { option_copied result
        ≡ first_in (λ _. renamed_name renamed.now) (sorts_in scope.now order.now) }
{
    first_in_sorts(Check::AmbiguousName(renamed), scope, order)
}

// The first name of sort items that a check refuses.
fn first_in_sorts<'t>(check: Check<'_>, scope: &Scope<'_>, order: &'t [Sort]) -> Option<&'t Text>
    ensures { option_copied result
        ≡ first_in (check_of check.entry) (sorts_in scope.now order.now) }
{
    for sort in order {
        if let Some(name) = first_refused(check, scope, &sort.tree) {
            return Some(name);
        }
    }
    None
}
