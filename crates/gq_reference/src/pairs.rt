//! The pairs of relationship patterns that never get the same relationship: those of one MATCH
//! clause.
ghost use Rattle.std.specs.Prelude.{◌≡◌, suc, ◌++◌, IfOk};
ghost use Rattle.gq_alternatives.specs.Matches.{pairs_from, pairs_with};

use gq_base::{List, Memory};
use gq_plan::RelPair;
use gq_scopes::{RelPattern, next};
use std::alloc::Global;

/// The pairs of patterns of one clause, by the numbers of their variables.
pub(crate) fn pairs_of(alloc: Global, patterns: &[RelPattern<'_>]) -> Result<List<RelPair>, Memory>
    ensures { IfOk result (λ ps. ps ≡ pairs_from 0 patterns.now) }
{
    let mut pairs = List::new(alloc);
    let mut first = 0;
    for (at, pattern) in patterns.iter().enumerate() {
        push_pairs(&mut pairs, pattern.clause, first, &patterns[at + 1..])?;
        first = next(first)?;
    }
    Ok(pairs)
}

// The pairs of a relationship variable with the patterns that follow its own.
fn push_pairs(
    pairs: &mut List<RelPair>,
    clause: u32,
    first: u32,
    patterns: &[RelPattern<'_>],
) -> Result<(), Memory>
    ensures { IfOk result (λ _.
        pairs.new ≡ pairs.old ++ pairs_with clause first (suc first) patterns.now) }
{
    let mut second = first;
    for pattern in patterns {
        second = next(second)?;
        if clause == pattern.clause {
            pairs.push(RelPair { first, second })?;
        }
    }
    Ok(())
}
