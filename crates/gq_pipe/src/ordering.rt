//! The steps of a plan as they run, and the builds of its joins, in an order.
ghost use Rattle.std.specs.Prelude.{◌≡◌, ◌<◌, length, map, slice_index_or, All, IfOk, None};
ghost use Rattle.std.specs.Option.{option_copied};
ghost use Rattle.gq_plan.specs.Halves.{half_in};
ghost use Rattle.gq_plan.specs.Plans.{step_of};
ghost use Rattle.gq_steps.specs.Moves.{run_steps};

use gq_base::Memory;
use gq_join::Sealed;
use gq_plan::{Step, StepHalf};
use gq_steps::RunStep;
use std::alloc::Global;

/// The steps of these halves, as they run.
pub(crate) fn steps_in_order<'g>(
    alloc: Global,
    steps: &'g [Step],
    order: &[StepHalf],
) -> Result<Vec<RunStep<'g>>, Memory>
    requires { All (λ q. q.step < length steps.now) order.now }
    ensures { IfOk result (λ ordered. run_steps ordered.items
        ≡ map (half_in (map step_of steps.now)) order.now) }
{
    let mut ordered = Vec::with_capacity(alloc, order.len())?;
    for half in order {
        let step = &steps[half.step];
        ordered.push(RunStep::new(step, half.half))?;
    }
    Ok(ordered)
}

/// The builds of the steps of these halves.
pub(crate) fn builds_in_order<'g>(
    alloc: Global,
    builds: &'g [Option<Sealed>],
    order: &[StepHalf],
) -> Result<Vec<Option<&'g Sealed>>, Memory>
    requires { All (λ q. q.step < length builds.now) order.now }
    ensures { IfOk result (λ ordered. map option_copied ordered.items
        ≡ map (λ q. slice_index_or builds.now q.step None) order.now) }
{
    let mut ordered = Vec::with_capacity(alloc, order.len())?;
    for half in order {
        ordered.push(builds[half.step].as_ref())?;
    }
    Ok(ordered)
}
