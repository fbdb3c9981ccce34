//! The groups of a plan: what form each has, and which of them are flat.

ghost use Rattle.std.specs.Prelude.{◌≡◌, [], ◌∷◌, ◌++◌, IfOk};
ghost use Rattle.std.specs.Prelude.{filter, length, map, nat_lt, slice_get};
ghost use Rattle.gq_plan.specs.Columns.{FitsSound};
ghost use Rattle.gq_plan.specs.Plans.{plan_of, step_of};
ghost use Rattle.gq_plan.specs.Shapes as plan_groups;
ghost use Rattle.gq_plan.specs.Shapes.{all_flat, flat_by, places_of, shape_with};
ghost use Rattle.gq_plan.specs.Soundness as soundness;

use crate::places::{Places, place_variables};
use crate::plan::{Plan, Step};
use crate::read::Read;
use crate::typed::Typed;
use gq_base::{List, Memory};
use std::alloc::Global;

/// What the pieces of a group are.
#[derive(Clone, Copy, Debug, PartialEq, Eq)]
pub enum Form {
    /// Rows of a node table, one after another.
    Span,
    /// A part of the list of one node's relationships in a direction.
    List,
    /// A part of the rows of a join's build that have the keys.
    Matches,
}

/// A group of a plan.
#[derive(Clone, Copy, Debug, PartialEq, Eq)]
pub struct GroupShape {
    pub form: Form,
    /// Whether the group stands at one position at a time: a later step reads it to make a group,
    /// or tests it together with a later group.
    pub flat: bool,
}

/// The form and the flatness of each group of a plan, in the order in which the plan makes them: a
/// scan, a list extend, a list close and a join make one each. After `Memory` there is none.
pub fn shape(alloc: Global, plan: &Plan, typed: &Typed) -> Result<List<GroupShape>, Memory>
    requires { FitsSound typed.now (plan_of plan.now) }
    ensures { IfOk result (λ all. all ≡ plan_groups.shape typed.now (plan_of plan.now)) }
{
    let places = place_variables(plan, typed);
    let flat = flat_groups(alloc, plan, typed, places)?;
    let flat = flat.as_slice();
    let mut shapes = List::new(alloc);
    for step in plan.steps.as_slice() {
        push_shape(&mut shapes, step, flat)?;
    }
    Ok(shapes)
}

// Puts the group that a step makes, if it makes one, behind those of the steps before it.
fn push_shape(shapes: &mut List<GroupShape>, step: &Step, flat: &[usize]) -> Result<(), Memory>
    ensures { IfOk result (λ _. shapes.new ≡ shapes.old
        ++ shape_with (soundness.has_number flat.now) (length shapes.old)
        (plan_groups.form_of (step_of step.now))) }
{
    match form_of(step) {
        None => Ok(()),
        Some(form) => {
            let flat = has_group(flat, shapes.len());
            shapes.push(GroupShape { form, flat })
        }
    }
}

/// The form of the group that a step makes, if it makes one.
#[tactic(auto, using(crate::proofs::StepEquations::equations))]
pub fn form_of(step: &Step) -> Option<Form>
    ensures { result ≡ plan_groups.form_of (step_of step.now) }
{
    match step {
        Step::Scan { .. } => Some(Form::Span),
        Step::Extend { .. } => Some(Form::List),
        Step::Close { .. } => Some(Form::List),
        Step::Join { .. } => Some(Form::Matches),
        Step::ColumnExtend { .. } => None,
        Step::ColumnClose { .. } => None,
        Step::Keep { .. } => None,
        Step::Differ { .. } => None,
        Step::NoLoop { .. } => None,
    }
}

/// Whether a group stands among others.
pub fn has_group(groups: &[usize], group: usize) -> bool
    ensures { result ≡ soundness.has_number groups.now group }
{
    groups.iter().any(|own| *own == group)
}

/// The groups that are flat because of a plan's steps, by the groups of its variables. A group may
/// stand more than once. After `Memory` there is none.
pub fn flat_groups(
    alloc: Global,
    plan: &Plan,
    typed: &Typed,
    places: Places,
) -> Result<List<usize>, Memory>
    ensures { IfOk result (λ groups. groups
        ≡ all_flat typed.now (places_of places) (plan_of plan.now)) }
{
    let mut groups = List::new(alloc);
    for step in plan.steps.as_slice() {
        let own = flat_by(alloc, step, typed, places)?;
        groups.extend(own.as_slice())?;
    }
    Ok(groups)
}

// The groups that are flat because of a step.
#[tactic(auto, using(crate::proofs::StepEquations::equations))]
fn flat_by(alloc: Global, step: &Step, typed: &Typed, places: Places) -> Result<List<usize>, Memory>
    ensures { IfOk result (λ groups. groups
        ≡ flat_by typed.now (places_of places) (step_of step.now)) }
{
    match step {
        Step::Extend { from, .. } => one(alloc, places.nodes.of(*from)),
        Step::Close { from, to, .. } => two(alloc, places.nodes.of(*from), places.nodes.of(*to)),
        Step::Join { keys, .. } => node_groups(alloc, keys.as_slice(), places),
        Step::Keep { .. } => earlier(alloc, tested(alloc, step, typed, places)?),
        Step::Differ { .. } => earlier(alloc, tested(alloc, step, typed, places)?),
        Step::NoLoop { .. } => earlier(alloc, tested(alloc, step, typed, places)?),
        Step::ColumnClose { .. } => earlier(alloc, tested(alloc, step, typed, places)?),
        Step::Scan { .. } => Ok(List::new(alloc)),
        Step::ColumnExtend { .. } => Ok(List::new(alloc)),
    }
}

/// The groups that a step tests together, by the groups of the variables: those of all that a test
/// reads, and those of the ends of a column close. After `Memory` there is none.
#[tactic(auto, using(crate::proofs::StepEquations::equations))]
pub fn tested(
    alloc: Global,
    step: &Step,
    typed: &Typed,
    places: Places,
) -> Result<List<usize>, Memory>
    ensures { IfOk result (λ groups. groups
        ≡ plan_groups.tested typed.now (places_of places) (step_of step.now)) }
{
    match step {
        Step::Keep { test } => test_groups(alloc, *test, typed, places),
        Step::Differ { pair } => pair_groups(alloc, *pair, typed, places),
        Step::NoLoop { rel } => loop_groups(alloc, *rel, typed, places),
        Step::ColumnClose { from, to, .. } => {
            two(alloc, places.nodes.of(*from), places.nodes.of(*to))
        }
        Step::Scan { .. } => Ok(List::new(alloc)),
        Step::Extend { .. } => Ok(List::new(alloc)),
        Step::ColumnExtend { .. } => Ok(List::new(alloc)),
        Step::Close { .. } => Ok(List::new(alloc)),
        Step::Join { .. } => Ok(List::new(alloc)),
    }
}

fn one(alloc: Global, group: usize) -> Result<List<usize>, Memory>
    ensures { IfOk result (λ groups. groups ≡ group ∷ []) }
{
    let mut groups = List::new(alloc);
    groups.push(group)?;
    Ok(groups)
}

fn two(alloc: Global, first: usize, second: usize) -> Result<List<usize>, Memory>
    ensures { IfOk result (λ groups. groups ≡ first ∷ second ∷ []) }
{
    let mut groups = List::new(alloc);
    groups.push(first)?;
    groups.push(second)?;
    Ok(groups)
}

fn node_groups(alloc: Global, nodes: &[u32], places: Places) -> Result<List<usize>, Memory>
    ensures { IfOk result (λ groups. groups ≡ map (places_of places).nodes nodes.now) }
{
    let mut groups = List::new(alloc);
    for node in nodes {
        groups.push(places.nodes.of(*node))?;
    }
    Ok(groups)
}

// Those of the groups that a step tests together that are made before the last of them.
fn earlier(alloc: Global, tested: List<usize>) -> Result<List<usize>, Memory>
    ensures { IfOk result (λ groups. groups
        ≡ filter (λ i. nat_lt i (plan_groups.last_of tested)) tested) }
{
    let tested = tested.as_slice();
    let last = last_of(tested);
    let mut groups = List::new(alloc);
    for group in tested {
        if *group < last {
            groups.push(*group)?;
        }
    }
    Ok(groups)
}

/// The latest of some groups; 0 where there is none.
pub fn last_of(groups: &[usize]) -> usize
    ensures { result ≡ plan_groups.last_of groups.now }
{
    let mut last = 0;
    for group in groups {
        last = last.max(*group);
    }
    last
}

fn test_groups(
    alloc: Global,
    test: u32,
    typed: &Typed,
    places: Places,
) -> Result<List<usize>, Memory>
    ensures { IfOk result (λ groups. groups
        ≡ plan_groups.test_groups (places_of places) (slice_get typed.now.tests test)) }
{
    match typed.tests.get(test as usize) {
        None => Ok(List::new(alloc)),
        Some(found) => read_groups(alloc, found.expr.reads(), places),
    }
}

fn read_groups(alloc: Global, reads: &[Read], places: Places) -> Result<List<usize>, Memory>
    ensures { IfOk result (λ groups. groups
        ≡ map (λ r. plan_groups.group_of (places_of places) r.variable) reads.now) }
{
    let mut groups = List::new(alloc);
    for read in reads {
        groups.push(places.of(read.variable))?;
    }
    Ok(groups)
}

fn pair_groups(
    alloc: Global,
    pair: u32,
    typed: &Typed,
    places: Places,
) -> Result<List<usize>, Memory>
    ensures { IfOk result (λ groups. groups
        ≡ plan_groups.pair_groups (places_of places) (slice_get typed.now.pairs pair)) }
{
    match typed.pairs.get(pair as usize) {
        None => Ok(List::new(alloc)),
        Some(found) => two(
            alloc,
            places.rels.of(found.first),
            places.rels.of(found.second),
        ),
    }
}

fn loop_groups(
    alloc: Global,
    rel: u32,
    typed: &Typed,
    places: Places,
) -> Result<List<usize>, Memory>
    ensures { IfOk result (λ groups. groups ≡ (places_of places).rels rel
        ∷ plan_groups.end_groups (places_of places) (slice_get typed.now.rels rel)) }
{
    let mut groups = one(alloc, places.rels.of(rel))?;
    if let Some(found) = typed.rels.get(rel as usize) {
        groups.push(places.nodes.of(found.source))?;
        groups.push(places.nodes.of(found.target))?;
    }
    Ok(groups)
}
