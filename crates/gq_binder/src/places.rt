//! Which trails there may be, and where trails and EXISTS may stand.
ghost use Rattle.std.specs.Prelude.{◌≡◌, ◌||◌, is_some, nat_lt, not};
ghost use Rattle.std.specs.List.{list_any};
ghost use Rattle.gq_base.specs.Lists.{is_empty};
ghost use Rattle.gq_bound.specs.Checks.{Checks};
ghost use Rattle.gq_bound.specs.Refusals as refusals;

use gq_ast::{Query, Range};
use gq_bound::{BindRefusal, SharedTest};
use gq_scopes::{Pattern, RelPattern};

const MAX_LENGTH: u64 = 16;

/// A trail may be empty, or too long, or is to have more relationships at least than at most.
pub(crate) fn trail_length(pattern: &Pattern<'_>) -> Result<(), BindRefusal>
    ensures { Checks (refusals.trail_length pattern.now) result }
{
    if has_unfit(pattern) {
        Err(BindRefusal::TrailLength)
    } else {
        Ok(())
    }
}

fn has_unfit(pattern: &Pattern<'_>) -> bool
    ensures { result ≡ list_any (λ r. refusals.is_unfit r.part.trail) pattern.now.rels }
{
    pattern.rels().iter().any(|rel| is_unfit(rel))
}

fn is_unfit(rel: &RelPattern<'_>) -> bool
    ensures { result ≡ refusals.is_unfit rel.now.part.trail }
{
    match rel.part.trail {
        None => false,
        Some(range) => range.low == 0 || exceeds(range),
    }
}

fn exceeds(range: Range) -> bool
    ensures { result ≡ nat_lt refusals.max_length range.high || nat_lt range.high range.low }
{
    range.high > MAX_LENGTH || range.low > range.high
}

/// There are a trail and an OPTIONAL MATCH clause.
pub(crate) fn trail_with_optional(query: &Query, pattern: &Pattern<'_>) -> Result<(), BindRefusal>
    ensures { Checks (refusals.trail_with_optional query.now pattern.now) result }
{
    if has_trail(pattern) && has_optional(query) {
        Err(BindRefusal::TrailWithOptional)
    } else {
        Ok(())
    }
}

fn has_trail(pattern: &Pattern<'_>) -> bool
    ensures { result ≡ refusals.has_trail pattern.now }
{
    pattern.rels().iter().any(|rel| is_trail(rel))
}

fn is_trail(rel: &RelPattern<'_>) -> bool
    ensures { result ≡ is_some rel.now.part.trail }
{
    rel.part.trail.is_some()
}

fn has_optional(query: &Query) -> bool
    ensures { result ≡ not (is_empty query.now.optionals) }
{
    !query.optionals.as_slice().is_empty()
}

/// An EXISTS is no test: it stands elsewhere than as a whole conjunct of a MATCH clause's condition.
pub(crate) fn exists_place(exists: &[SharedTest<'_>]) -> Result<(), BindRefusal>
    ensures { Checks (refusals.exists_place exists.now) result }
{
    if has_misplaced(exists) {
        Err(BindRefusal::ExistsPlace)
    } else {
        Ok(())
    }
}

fn has_misplaced(exists: &[SharedTest<'_>]) -> bool
    ensures { result ≡ refusals.has_misplaced exists.now }
{
    exists.iter().any(|test| is_misplaced(test))
}

fn is_misplaced(test: &SharedTest<'_>) -> bool
    ensures { result ≡ refusals.is_misplaced test.now }
{
    test.name.is_none()
}
