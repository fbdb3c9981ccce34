//! The columns of a query and their names.
ghost use Rattle.std.specs.Prelude.{◌≡◌, ◌++◌, ◌∷◌, [], map, filter_map, All, IfOk, OnOk, if◌then◌else◌};
ghost use Rattle.std.specs.List.{list_any};
ghost use Rattle.gq_bound.specs.Columns as columns;
ghost use Rattle.gq_bound.specs.Columns.{columns_in, column_expr, column_of, item_column};
ghost use Rattle.gq_bound.specs.Columns.{item_name};
ghost use Rattle.gq_scopes.specs.Patterns.{is_called};
ghost use Rattle.gq_resolve.specs.Resolving.{calls_of};
ghost use Rattle.gq_ast.specs.Spans.{IsWholeTree};

use gq_ast::{Item, Query};
use gq_base::{List, Memory, Text, TryClone};
use gq_expr::Expr;
use gq_plan::{BoundExpr, NamedExpr};
use gq_resolve::{CallForm, resolve, source_text};
use gq_scopes::{Column, NamedVariable, Names, Pattern, Scope, Variable};
use std::alloc::Global;
use std::mem;

/// Appends the columns of a query with these patterns, whose items stand in this text.
#[tactic(auto, unfolding(gq_bound::specs::Columns::columns_in))]
pub fn push_columns(
    alloc: Global,
    form: CallForm,
    text: &[u8],
    pattern: &Pattern<'_>,
    query: &Query,
    all: &mut List<Column>,
) -> Result<(), Memory>
    requires { All (λ item. IsWholeTree text.now item.tree) query.now.items }
    ensures { OnOk result (all.new
        ≡ all.old ++ columns_in (calls_of form) text.now pattern.now query.now) }
{
    if query.star {
        push_firsts(alloc, all, pattern.named())?;
    }
    let scope = pattern.scope(&[])?;
    push_items(alloc, all, form, text, &scope, query.items.as_slice())
}

// Pushes each named variable where its name stands first.
fn push_firsts(
    alloc: Global,
    all: &mut List<Column>,
    named: &[NamedVariable<'_>],
) -> Result<(), Memory>
    ensures { IfOk result (λ _.
        all.new ≡ all.old ++ map column_of (columns.firsts_behind [] named.now)) }
{
    let mut met = Names::new(alloc);
    for variable in named {
        push_unless_met(alloc, all, &met, variable)?;
        met.push_name(variable.name)?;
    }
    Ok(())
}

fn push_unless_met(
    alloc: Global,
    all: &mut List<Column>,
    met: &Names,
    variable: &NamedVariable<'_>,
) -> Result<(), Memory>
    ensures { IfOk result (λ _. all.new ≡ all.old ++ map column_of
        (if list_any (is_called variable.now.name) met.now then [] else variable.now ∷ [])) }
{
    if met.contains(variable.name) {
        return Ok(());
    }
    let column = column(alloc, variable)?;
    all.push(column)
}

fn column(alloc: Global, variable: &NamedVariable<'_>) -> Result<Column, Memory>
    ensures { IfOk result (λ c. c ≡ column_of variable.now) }
{
    Ok(Column {
        name: variable.name.try_clone(alloc)?,
        expr: Some(whole(variable.variable)),
    })
}

fn whole(variable: Variable) -> Expr
    ensures { result ≡ columns.whole variable }
{
    match variable {
        Variable::Node(number) => Expr::Node(number),
        Variable::Rel(number) => Expr::Rel(number),
    }
}

fn push_items(
    alloc: Global,
    all: &mut List<Column>,
    form: CallForm,
    text: &[u8],
    scope: &Scope<'_>,
    items: &[Item],
) -> Result<(), Memory>
    requires { All (λ item. IsWholeTree text.now item.tree) items.now }
    ensures { IfOk result (λ _.
        all.new ≡ all.old ++ map (item_column (calls_of form) text.now scope.now) items.now) }
{
    for item in items {
        let name = name_of(alloc, text, item)?;
        let expr = resolve(alloc, form, scope, &item.tree)?;
        all.push(Column { name, expr })?;
    }
    Ok(())
}

#[tactic(auto, using(gq_ast::proofs::SpanLemmas::tree_span))]
fn name_of(alloc: Global, text: &[u8], item: &Item) -> Result<Text, Memory>
    requires { IsWholeTree text.now item.now.tree }
    ensures { IfOk result (λ t. t ≡ item_name text.now item.now) }
{
    match &item.name {
        Some(name) => name.try_clone(alloc),
        None => source_text(alloc, text, item.tree.span),
    }
}

/// Appends columns with their expressions, of those that have one. The columns are taken.
pub fn push_known(
    alloc: Global,
    columns: &mut List<Column>,
    known: &mut List<NamedExpr>,
) -> Result<(), Memory>
    ensures { OnOk result (known.new ≡ known.old ++ filter_map column_expr columns.old) }
{
    let taken = mem::replace(columns, List::new(alloc));
    for column in taken.into_vec() {
        let Column { name, expr } = column;
        let Some(expr) = expr else {
            continue;
        };
        let expr = BoundExpr::new(alloc, expr)?;
        known.push(NamedExpr { name, expr })?;
    }
    Ok(())
}
