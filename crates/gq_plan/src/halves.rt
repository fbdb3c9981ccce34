//! The halves in which a column close runs.
ghost use Rattle.std.specs.Prelude.{◌≡◌, ◌∷◌, ◌++◌, [], IfOk, map};
ghost use Rattle.gq_plan.specs.Columns.{steps_of};
ghost use Rattle.gq_plan.specs.Halves.{halves_of, numbered_halves};
ghost use Rattle.gq_plan.specs.Plans.{plan_of, step_of};

use crate::plan::{Plan, Step};
use gq_base::{List, Memory};
use std::alloc::Global;

/// How much of a step runs.
#[derive(Clone, Copy, Debug, PartialEq, Eq)]
pub enum Half {
    /// All of it.
    Whole,
    /// Of a column close: it takes the relationship of its source.
    First,
    /// Of a column close: it tests that the relationship leads to its target.
    Second,
}

/// A step of a plan, by its number, and how much of it runs.
#[derive(Clone, Copy, Debug, PartialEq, Eq)]
pub struct StepHalf {
    pub step: usize,
    pub half: Half,
}

/// How the steps of a plan run, in the order of the plan: a column close in two halves, any other
/// step as a whole. After `Memory` there is no answer.
pub fn step_halves(alloc: Global, plan: &Plan) -> Result<List<StepHalf>, Memory>
    ensures { IfOk result (λ all. all ≡ numbered_halves 0 (steps_of (plan_of plan.now))) }
{
    let steps = plan.steps.as_slice();
    let mut all = List::new(alloc);
    for number in 0..steps.len() {
        push_step(&mut all, &steps[number], number)?;
    }
    Ok(all)
}

// Puts the halves of a step with this number behind those of the steps before it.
#[tactic(auto, using(crate::proofs::StepEquations::equations))]
fn push_step(all: &mut List<StepHalf>, step: &Step, number: usize) -> Result<(), Memory>
    ensures { IfOk result (λ _. all.new ≡ all.old
        ++ map (λ h. record { step = number; half = h }) (halves_of (step_of step.now))) }
{
    match step {
        Step::ColumnClose { .. } => push_halves(all, number),
        Step::Scan { .. } => all.push(step_half(number, Half::Whole)),
        Step::Extend { .. } => all.push(step_half(number, Half::Whole)),
        Step::ColumnExtend { .. } => all.push(step_half(number, Half::Whole)),
        Step::Close { .. } => all.push(step_half(number, Half::Whole)),
        Step::Join { .. } => all.push(step_half(number, Half::Whole)),
        Step::Keep { .. } => all.push(step_half(number, Half::Whole)),
        Step::Differ { .. } => all.push(step_half(number, Half::Whole)),
        Step::NoLoop { .. } => all.push(step_half(number, Half::Whole)),
    }
}

fn push_halves(all: &mut List<StepHalf>, number: usize) -> Result<(), Memory>
    ensures { IfOk result (λ _. all.new ≡ all.old
        ++ map (λ h. record { step = number; half = h }) (Half.First ∷ Half.Second ∷ [])) }
{
    all.push(StepHalf {
        step: number,
        half: Half::First,
    })?;
    all.push(StepHalf {
        step: number,
        half: Half::Second,
    })?;
    Ok(())
}

fn step_half(step: usize, half: Half) -> StepHalf
    ensures { result ≡ record { step = step; half = half } }
{
    StepHalf { step, half }
}
