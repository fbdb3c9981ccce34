//! The variables that a path shares with a query.
ghost use Rattle.std.specs.Prelude.{◌≡◌, IfOk, filter_map};
ghost use Rattle.gq_scopes.specs.PathPatterns.{shared_names};
ghost use Rattle.gq_scopes.specs.Patterns.{find_name};

use crate::counts::number;
use crate::patterns::Pattern;
use crate::scope::Scope;
use gq_ast::Path;
use gq_base::{List, Memory, Text};
use std::alloc::Global;

/// The node variables of a scope that a path names, in the order of their first appearance there.
pub fn shared_variables(alloc: Global, scope: &Scope<'_>, path: &Path) -> Result<List<u32>, Memory>
    ensures { IfOk result (λ vs.
        vs ≡ filter_map (find_name scope.now.nodes) (shared_names path.now)) }
{
    let mut named = Pattern::new(alloc);
    named.push_name(alloc, &path.first.name)?;
    named.push_names(alloc, path.hops.as_slice())?;
    variables_of(alloc, scope, named.node_names())
}

fn variables_of(alloc: Global, scope: &Scope<'_>, names: &[Text]) -> Result<List<u32>, Memory>
    ensures { IfOk result (λ vs. vs ≡ filter_map (find_name scope.now.nodes) names.now) }
{
    let mut variables = List::new(alloc);
    for name in names {
        let Some(at) = scope.node(name) else {
            continue;
        };
        variables.push(number(at)?)?;
    }
    Ok(variables)
}
