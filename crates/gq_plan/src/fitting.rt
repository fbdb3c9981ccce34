//! Whether a plan fits a typed alternative.
ghost use Rattle.std.specs.Prelude.{◌≡◌, ◌↔◌, ◌&&◌, ◌||◌, ◌<◌, ◌≤◌, not, IsTrue, true, false};
ghost use Rattle.std.specs.Prelude.{length, slice_get};
ghost use Rattle.std.specs.List.{list_all, range_with_len};
ghost use Rattle.gq_plan.specs.Covers as fit;
ghost use Rattle.gq_plan.specs.Covers.{after, after_step, fits_step, fits_extend, fits_close};
ghost use Rattle.gq_plan.specs.Covers.{is_new, is_joined, goes, start_of, end_of, test_bound};
ghost use Rattle.gq_plan.specs.Covers.{pair_bound, loop_bound, Fits};
ghost use Rattle.gq_plan.specs.Known.{known_of, none, with_node, with_rel, with_both};
ghost use Rattle.gq_plan.specs.Meaning.{holds};
ghost use Rattle.gq_plan.specs.Soundness.{IsSound, has_number, max_variables};
ghost use Rattle.gq_plan.specs.Plans.{plan_of, step_of};

use crate::follow::{Follow, following};
use crate::known::Known;
use crate::numbers::has_number;
use crate::plan::{Plan, Step};
use crate::typed::{Typed, TypedRel};
use gq_base::{Catalog, Direction};

/// Whether a plan fits a typed alternative by itself: each step names what the alternative has,
/// uses variables that are bound where it stands and binds new ones; it leads from its
/// relationship's source to its target, backward the other way round; it is a column step exactly
/// where the relationship's type is single in that direction; and a side plan fits by itself and
/// shares with the plan that joins it the keys and nothing else. It takes no memory.
pub fn fits(plan: &Plan, typed: &Typed, catalog: &Catalog) -> bool
    requires { IsSound catalog.now typed.now }
    ensures { IsTrue result ↔ Fits catalog.now typed.now (plan_of plan.now) }
{
    let mut known = Known::none();
    takes_plan(plan, typed, catalog, &mut known)
}

/// What a plan binds that fits a typed alternative by itself. It takes no memory, and goes through
/// the plan once.
pub fn bound_after(plan: &Plan, typed: &Typed, catalog: &Catalog) -> Known
    requires sound { IsSound catalog.now typed.now }
    requires fits { Fits catalog.now typed.now (plan_of plan.now) }
    ensures { known_of result ≡ after (plan_of plan.now) none }
{
    let mut known = Known::none();
    takes_plan(plan, typed, catalog, &mut known);
    known
}

// Whether a plan fits where so much is bound; what it binds is known afterwards, if it does.
#[cycle(takes_plan)]
fn takes_plan(plan: &Plan, typed: &Typed, catalog: &Catalog, known: &mut Known) -> bool
    requires { IsSound catalog.now typed.now }
    ensures value { result
        ≡ fit.fits catalog.now typed.now (plan_of plan.now) (known_of known.old) }
    ensures bound { result ≡ true
        → known_of known.new ≡ after (plan_of plan.now) (known_of known.old) }
{
    for step in plan.steps.as_slice() {
        if !takes_step(step, typed, catalog, known) {
            return false;
        }
    }
    true
}

#[cycle(takes_plan)]
#[tactic(auto, using(crate::proofs::StepEquations::equations), unfolding(crate::specs::Covers::fits_step, crate::specs::Covers::after_step))]
fn takes_step(step: &Step, typed: &Typed, catalog: &Catalog, known: &mut Known) -> bool
    requires { IsSound catalog.now typed.now }
    ensures value { result
        ≡ fits_step catalog.now typed.now (step_of step.now) (known_of known.old) }
    ensures bound { result ≡ true
        → known_of known.new ≡ after_step (step_of step.now) (known_of known.old) }
{
    match step {
        Step::Scan { node } => takes_scan(*node, typed, known),
        Step::Extend {
            rel,
            from,
            to,
            direction,
        } => following(*rel, *from, *to, *direction).extends(false, typed, catalog, known),
        Step::ColumnExtend {
            rel,
            from,
            to,
            direction,
        } => following(*rel, *from, *to, *direction).extends(true, typed, catalog, known),
        Step::Close {
            rel,
            from,
            to,
            direction,
        } => following(*rel, *from, *to, *direction).closes(false, typed, catalog, known),
        Step::ColumnClose {
            rel,
            from,
            to,
            direction,
        } => following(*rel, *from, *to, *direction).closes(true, typed, catalog, known),
        Step::Join { side, keys } => {
            let mut own = Known::none();
            takes_plan(side.get(), typed, catalog, &mut own)
                && takes_join(own, keys.as_slice(), typed, known)
        }
        Step::Keep { test } => has_test(*test, typed, *known),
        Step::Differ { pair } => has_pair(*pair, typed, *known),
        Step::NoLoop { rel } => has_loop(*rel, typed, *known),
    }
}

impl Follow {
    fn extends(self, column: bool, typed: &Typed, catalog: &Catalog, known: &mut Known) -> bool
        requires { IsSound catalog.now typed.now }
        ensures value { result ≡ fits_extend catalog.now typed.now
            column self.rel self.from self.to self.direction (known_of known.old) }
        ensures bound { result ≡ true
            → known_of known.new ≡ with_node self.to (with_rel self.rel (known_of known.old)) }
    {
        if !(follows(column, self, typed, catalog)
            && !known.rels.has(self.rel)
            && known.nodes.has(self.from)
            && is_new(self.to, typed, *known))
        {
            return false;
        }
        known.rels.insert(self.rel);
        known.nodes.insert(self.to);
        true
    }

    fn closes(self, column: bool, typed: &Typed, catalog: &Catalog, known: &mut Known) -> bool
        requires { IsSound catalog.now typed.now }
        ensures value { result ≡ fits_close catalog.now typed.now
            column self.rel self.from self.to self.direction (known_of known.old) }
        ensures bound { result ≡ true
            → known_of known.new ≡ with_rel self.rel (known_of known.old) }
    {
        if !(follows(column, self, typed, catalog)
            && !known.rels.has(self.rel)
            && known.nodes.has(self.from)
            && known.nodes.has(self.to))
        {
            return false;
        }
        known.rels.insert(self.rel);
        true
    }
}

fn takes_scan(node: u32, typed: &Typed, known: &mut Known) -> bool
    requires { length typed.now.nodes ≤ max_variables }
    ensures value { result ≡ fit.is_new typed.now (known_of known.old) node }
    ensures bound { result ≡ true → known_of known.new ≡ with_node node (known_of known.old) }
{
    if !is_new(node, typed, *known) {
        return false;
    }
    known.nodes.insert(node);
    true
}

fn is_new(node: u32, typed: &Typed, known: Known) -> bool
    ensures { result ≡ fit.is_new typed.now (known_of known) node }
{
    (node as usize) < typed.nodes.len() && !known.nodes.has(node)
}

// Whether the alternative has a relationship that goes so.
fn follows(column: bool, follow: Follow, typed: &Typed, catalog: &Catalog) -> bool
    requires { IsSound catalog.now typed.now }
    ensures value { result ≡ holds
        (goes catalog.now column follow.from follow.to follow.direction)
        (slice_get typed.now.rels follow.rel) }
    ensures within { result ≡ true → follow.rel < max_variables }
{
    match typed.rels.get(follow.rel as usize) {
        None => false,
        Some(rel) => goes(column, follow, rel, catalog),
    }
}

fn goes(column: bool, follow: Follow, rel: &TypedRel, catalog: &Catalog) -> bool
    requires { rel.now.table < length catalog.now.rels }
    ensures { result
        ≡ fit.goes catalog.now column follow.from follow.to follow.direction rel.now }
{
    let (start, end) = ends_of(rel, follow.direction);
    let single = catalog
        .rel_table(rel.table)
        .mult
        .is_single(follow.direction);
    follow.from == start && follow.to == end && column == single
}

/// The node variable from which a relationship is followed in a direction, and the one to which it
/// leads.
pub fn ends_of(rel: &TypedRel, direction: Direction) -> (u32, u32)
    ensures start { result.0 ≡ start_of direction rel.now }
    ensures end { result.1 ≡ end_of direction rel.now }
{
    match direction {
        Direction::Forward => (rel.source, rel.target),
        Direction::Backward => (rel.target, rel.source),
    }
}

fn takes_join(side: Known, keys: &[u32], typed: &Typed, known: &mut Known) -> bool
    requires nodes { length typed.now.nodes ≤ max_variables }
    requires rels { length typed.now.rels ≤ max_variables }
    ensures value { result ≡ is_joined typed.now keys.now (known_of side) (known_of known.old) }
    ensures bound { result ≡ true
        → known_of known.new ≡ with_both (known_of side) (known_of known.old) }
{
    if !(has_keys(side, keys, *known)
        && shares_keys(side, keys, typed.nodes.len() as u32, *known)
        && shares_none(side, typed.rels.len() as u32, *known))
    {
        return false;
    }
    known.insert_all(side);
    true
}

fn has_keys(side: Known, keys: &[u32], known: Known) -> bool
    ensures { result
        ≡ list_all (λ v. (known_of side).nodes v && (known_of known).nodes v) keys.now }
{
    keys.iter()
        .all(|key| side.nodes.has(*key) && known.nodes.has(*key))
}

// Whether each of the first node variables that both know is a key.
fn shares_keys(side: Known, keys: &[u32], nodes: u32, known: Known) -> bool
    ensures { result ≡ list_all (λ v.
        not ((known_of side).nodes v && (known_of known).nodes v) || has_number keys.now v)
        (range_with_len 0 nodes) }
{
    (0..nodes).all(|node| {
        !(side.nodes.has(node) && known.nodes.has(node)) || has_number(keys, node as usize)
    })
}

// Whether none of the first relationship variables is known to both.
fn shares_none(side: Known, rels: u32, known: Known) -> bool
    ensures { result ≡ list_all (λ x. not ((known_of side).rels x && (known_of known).rels x))
        (range_with_len 0 rels) }
{
    (0..rels).all(|rel| !(side.rels.has(rel) && known.rels.has(rel)))
}

fn has_test(test: u32, typed: &Typed, known: Known) -> bool
    ensures { result ≡ holds (test_bound (known_of known)) (slice_get typed.now.tests test) }
{
    match typed.tests.get(test as usize) {
        None => false,
        Some(found) => known.binds_all(&found.expr),
    }
}

fn has_pair(pair: u32, typed: &Typed, known: Known) -> bool
    ensures { result ≡ holds (pair_bound (known_of known)) (slice_get typed.now.pairs pair) }
{
    match typed.pairs.get(pair as usize) {
        None => false,
        Some(found) => known.rels.has(found.first) && known.rels.has(found.second),
    }
}

fn has_loop(rel: u32, typed: &Typed, known: Known) -> bool
    ensures { result ≡ holds (loop_bound (known_of known) rel) (slice_get typed.now.rels rel) }
{
    match typed.rels.get(rel as usize) {
        None => false,
        Some(found) => {
            found.no_loop
                && known.rels.has(rel)
                && known.nodes.has(found.source)
                && known.nodes.has(found.target)
        }
    }
}
