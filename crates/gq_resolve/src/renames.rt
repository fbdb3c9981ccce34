//! The names of variables that AS gives to other columns.
ghost use Rattle.std.specs.Prelude.{◌≡◌, ◌++◌, nat_eq, not, IfOk, Some};
ghost use Rattle.std.specs.List.{list_any};
ghost use Rattle.std.specs.Cmp.Lexicographic.{pointwise};
ghost use Rattle.gq_resolve.specs.Renames.{renamed_names, renamed_as, gives_away, is_among};
ghost use Rattle.gq_resolve.specs.Renames.{same_known};
ghost use Rattle.gq_resolve.specs.Resolving.{functions, resolved};

use crate::calls::CallForm;
use crate::resolution::resolve;
use crate::sameness::same;
use gq_ast::{Ast, Item};
use gq_base::{List, Memory, Text};
use gq_expr::Expr;
use gq_scopes::Scope;
use std::alloc::Global;
use std::marker::Model;

/// The names of variables that AS gives to columns which are not these variables.
#[derive(Drop)]
pub struct Renamed<'q> {
    names: List<&'q Text>,
}

impl<'q> Model for Renamed<'q> {
    ghost use Rattle.std.specs.Prelude.{List, map};
    ghost use Rattle.gq_scopes.specs.Patterns.{Name};

    ghost Value = { List Name };

    ghost view = { λ r. map (λ n. n.now) r.names };
}

impl<'q> Renamed<'q> {
    /// Those of items, whose trees name what a scope has.
    pub fn of(alloc: Global, scope: &Scope<'_>, items: &'q [Item]) -> Result<Renamed<'q>, Memory>
        ensures { IfOk result (λ r. r ≡ renamed_names scope.now items.now) }
    {
        let mut renamed = Renamed {
            names: List::new(alloc),
        };
        for item in items {
            renamed.push_item(alloc, scope, item)?;
        }
        Ok(renamed)
    }

    fn push_item(&mut self, alloc: Global, scope: &Scope<'_>, item: &'q Item) -> Result<(), Memory>
        ensures { IfOk result (λ _. self.new
            ≡ self.old ++ renamed_as scope.now item.now.tree item.now.name) }
    {
        let Some(name) = &item.name else {
            return Ok(());
        };
        if is_given_away(alloc, scope, name, &item.tree)? {
            self.names.push(name)?;
        }
        Ok(())
    }

    /// Whether a name stands among them.
    #[tactic(auto, using(crate::proofs::RenameLemmas::any_map))]
    pub fn contains(&self, name: &Text) -> bool
        ensures { result ≡ is_among self.now name.now }
    {
        stands_in(self.names.as_slice(), name)
    }
}

fn stands_in(names: &[&Text], name: &Text) -> bool
    ensures { result ≡ list_any (λ n. pointwise nat_eq n.now name.now) names.now }
{
    names.iter().any(|own| own.is(name.as_str()))
}

// Whether a name is a variable, and a tree does not stand for it.
fn is_given_away(alloc: Global, scope: &Scope<'_>, name: &Text, tree: &Ast) -> Result<bool, Memory>
    ensures { IfOk result (λ b. b ≡ gives_away scope.now tree.now name.now) }
{
    match scope.variable(name) {
        Some(variable) => is_another(alloc, scope, tree, &variable),
        None => Ok(false),
    }
}

// Whether a tree does not stand for a variable.
fn is_another(alloc: Global, scope: &Scope<'_>, tree: &Ast, variable: &Expr) -> Result<bool, Memory>
    ensures { IfOk result (λ b.
        b ≡ not (same_known (resolved functions scope.now tree.now) (Some variable.now))) }
{
    let found = resolve(alloc, CallForm::Functions, scope, tree)?;
    Ok(!is_same(&found, variable))
}

fn is_same(found: &Option<Expr>, variable: &Expr) -> bool
    ensures { result ≡ same_known found.now (Some variable.now) }
{
    match found {
        Some(expr) => same(expr, variable),
        None => false,
    }
}
