//! How many patterns a query has, with those of the paths of its tests.
ghost use Rattle.std.specs.Prelude.{◌≡◌, ◌+◌, nat_lt};
ghost use Rattle.gq_bound.specs.Checks.{Checks};
ghost use Rattle.gq_bound.specs.Refusals as refusals;
ghost use Rattle.gq_bound.specs.Refusals.{nodes_in, paths_of, rels_in};
ghost use Rattle.gq_plan.specs.Soundness.{max_variables};

use gq_bound::{BindRefusal, SharedTest};
use gq_scopes::Pattern;

const MAX_VARIABLES: usize = 24;

/// There are too many patterns, with those of the paths of tests.
pub(crate) fn too_many_patterns(
    pattern: &Pattern<'_>,
    tests: &[SharedTest<'_>],
) -> Result<(), BindRefusal>
    ensures { Checks (refusals.too_many_patterns pattern.now (paths_of tests.now)) result }
{
    if has_many_nodes(pattern.nodes().len(), tests) || has_many_rels(pattern.rels().len(), tests) {
        Err(BindRefusal::TooManyPatterns)
    } else {
        Ok(())
    }
}

// Whether there are too many node patterns, beside so many those of the paths of tests.
fn has_many_nodes(own: usize, tests: &[SharedTest<'_>]) -> bool
    ensures { result ≡ nat_lt max_variables (own + nodes_in (paths_of tests.now)) }
{
    let mut nodes = own;
    for test in tests {
        let hops = test.test.path.hops.len();
        if nodes > MAX_VARIABLES || hops > MAX_VARIABLES {
            return true;
        }
        nodes += 1 + hops;
    }
    nodes > MAX_VARIABLES
}

// Whether there are too many relationship patterns, beside so many those of the paths of tests.
fn has_many_rels(own: usize, tests: &[SharedTest<'_>]) -> bool
    ensures { result ≡ nat_lt max_variables (own + rels_in (paths_of tests.now)) }
{
    let mut rels = own;
    for test in tests {
        let hops = test.test.path.hops.len();
        if rels > MAX_VARIABLES || hops > MAX_VARIABLES {
            return true;
        }
        rels += hops;
    }
    rels > MAX_VARIABLES
}
