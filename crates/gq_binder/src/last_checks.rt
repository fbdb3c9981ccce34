//! The last checks of a query, behind the others: of its alternatives, of its trails and of the places of EXISTS.
ghost use Rattle.std.specs.Prelude.{◌≡◌, ◌∷◌, ◌+◌, [], All, IfOk, IfSome};
ghost use Rattle.std.specs.Prelude.{filter_map, length, map};
ghost use Rattle.gq_alternatives.specs.Alternatives.{pattern_alternatives};
ghost use Rattle.gq_alternatives.specs.Searching.{at_most};
ghost use Rattle.gq_bound.specs.Checks.{Checks};
ghost use Rattle.gq_bound.specs.steps.Parts.{counted_in, exists_part, last_checks_in};
ghost use Rattle.gq_bound.specs.steps.Parts.{own_patterns};
ghost use Rattle.gq_bound.specs.Refusals as refusals;
ghost use Rattle.gq_bound.specs.Refusals.{alternatives_in, alternatives_of, first_of_all};
ghost use Rattle.gq_bound.specs.Refusals.{max_alternatives, over_limit, paths_of};
ghost use Rattle.gq_bound.specs.declared.refusal.BindRefusal.TheVariants as refusal;
ghost use Rattle.gq_ast.specs.steps.Spans.{IsWholePath};

use crate::optionals::clause_choices;
use crate::path_tests::exists_parts;
use crate::places::{exists_place, trail_length, trail_with_optional};
use gq_alternatives::Choice;
use gq_ast::Query;
use gq_base::{Catalog, List, Memory};
use gq_bound::{BindRefusal, QueryParts, SharedTest};
use gq_choices::choices_of;
use gq_core::Core;
use gq_plan::ExistsPart;
use gq_scopes::Pattern;
use std::alloc::Global;

const MAX_ALTERNATIVES: usize = 512;

/// The alternatives of a query's MATCH clauses, those of each OPTIONAL MATCH clause by itself, and the
/// parts that its tests of paths give.
#[derive(Drop)]
pub struct Alternatives {
    pub choices: List<Choice>,
    pub optionals: List<List<Choice>>,
    pub patterns: List<ExistsPart>,
}

/// The checks behind the others, in their order, and the alternatives of a query, whose core this is
/// where it has trails.
#[tactic(auto, using(gq_bound::proofs::RefusalLemmas::firsts))]
pub fn check_last(
    alloc: Global,
    text: &[u8],
    catalog: &Catalog,
    query: &Query,
    parts: &QueryParts<'_>,
    core: &Option<Core<'_>>,
) -> Result<Alternatives, BindRefusal>
    requires { All (λ t. IfSome t.name (λ _. IsWholePath text.now t.test.path)) parts.now.exists }
    ensures passed { Checks
        (first_of_all (last_checks_in catalog.now query.now parts.now
        (counted_in core.now parts.now.matched))) result }
    ensures choices { IfOk result (λ all.
        all.choices ≡ pattern_alternatives catalog.now (counted_in core.now parts.now.matched)) }
    ensures optionals { IfOk result (λ all. all.optionals
        ≡ map (pattern_alternatives catalog.now) (own_patterns parts.now.optionals)) }
    ensures patterns { IfOk result (λ all. all.patterns
        ≡ filter_map (exists_part text.now catalog.now) parts.now.exists) }
{
    let all = few_alternatives(alloc, text, catalog, parts, core)?;
    check_places(query, &parts.pattern, parts.exists.as_slice())?;
    Ok(all)
}

/// The checks behind that of the alternatives: those of trails and of the places of EXISTS.
#[tactic(auto, using(gq_bound::proofs::RefusalLemmas::firsts))]
fn check_places(
    query: &Query,
    pattern: &Pattern<'_>,
    exists: &[SharedTest<'_>],
) -> Result<(), BindRefusal>
    ensures { Checks (first_of_all (refusals.trail_length pattern.now
        ∷ refusals.trail_with_optional query.now pattern.now
        ∷ refusals.exists_place exists.now ∷ [])) result }
{
    trail_length(pattern)?;
    trail_with_optional(query, pattern)?;
    exists_place(exists)
}

/// The alternatives of a query's clauses and of the paths of its tests, unless there are too many.
#[tactic(auto, using(gq_bound::proofs::RefusalLemmas::within, gq_bound::proofs::RefusalLemmas::within_more, gq_bound::proofs::RefusalLemmas::beyond_more, gq_bound::proofs::RefusalLemmas::over_spent, gq_bound::proofs::RefusalLemmas::over_more))]
fn few_alternatives(
    alloc: Global,
    text: &[u8],
    catalog: &Catalog,
    parts: &QueryParts<'_>,
    core: &Option<Core<'_>>,
) -> Result<Alternatives, BindRefusal>
    requires { All (λ t. IfSome t.name (λ _. IsWholePath text.now t.test.path)) parts.now.exists }
    ensures few { Checks (over_limit max_alternatives
        (length (pattern_alternatives catalog.now (counted_in core.now parts.now.matched))
        + (alternatives_of catalog.now (own_patterns parts.now.optionals)
        + alternatives_in catalog.now (paths_of parts.now.exists))) refusal.TooManyAlternatives)
        result }
    ensures choices { IfOk result (λ all.
        all.choices ≡ pattern_alternatives catalog.now (counted_in core.now parts.now.matched)) }
    ensures optionals { IfOk result (λ all. all.optionals
        ≡ map (pattern_alternatives catalog.now) (own_patterns parts.now.optionals)) }
    ensures patterns { IfOk result (λ all. all.patterns
        ≡ filter_map (exists_part text.now catalog.now) parts.now.exists) }
{
    let Some(choices) = core_choices(alloc, catalog, core, &parts.matched)? else {
        return Err(BindRefusal::TooManyAlternatives);
    };
    let mut left = MAX_ALTERNATIVES - choices.len();
    let optionals = clause_choices(alloc, catalog, parts.optionals.as_slice(), &mut left)?;
    let patterns = exists_parts(alloc, text, catalog, parts.exists.as_slice(), left)?;
    Ok(Alternatives {
        choices,
        optionals,
        patterns,
    })
}

// The alternatives of the core of MATCH clauses, or of all their patterns where they have no trail,
// unless there are too many.
fn core_choices(
    alloc: Global,
    catalog: &Catalog,
    core: &Option<Core<'_>>,
    matched: &Pattern<'_>,
) -> Result<Option<List<Choice>>, Memory>
    ensures { IfOk result (λ found. found ≡ at_most max_alternatives
        (pattern_alternatives catalog.now (counted_in core.now matched.now))) }
{
    match core {
        None => choices_of(alloc, catalog, matched, MAX_ALTERNATIVES),
        Some(core) => choices_of(alloc, catalog, &core.pattern, MAX_ALTERNATIVES),
    }
}
