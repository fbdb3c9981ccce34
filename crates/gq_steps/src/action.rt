//! What the steps of a plan do, told apart in one place.
ghost use Rattle.std.specs.Prelude.{◌≡◌, ◌<◌, length};
ghost use Rattle.gq_plan.specs.Halves.{half_of};
ghost use Rattle.gq_plan.specs.Plans.{step_of};
ghost use Rattle.gq_steps.specs.Actions.{action_of, half_action, keys_of};
ghost use Rattle.gq_steps.specs.Levels.{step_at};
ghost use Rattle.gq_steps.specs.Moves.{run_of, run_step, steps_in};

use crate::plan_run::{PlanRun, RunStep};
use gq_plan::{Follow, Half, Step, following};

/// What a step does, as much of it as runs. It has places, each of which binds something, or it tests
/// what is bound.
#[derive(Clone, Copy)]
pub enum Action {
    /// It has the rows of a node variable.
    Scan(u32),
    /// It follows a list to a node that was not bound.
    List(Follow),
    /// It follows the only relationship to a node that was not bound.
    Column(Follow),
    /// It follows a list to a node that is bound.
    Close(Follow),
    /// It follows the only relationship to a node that is bound.
    ColumnClose(Follow),
    /// It takes the only relationship, wherever that leads.
    Take(Follow),
    /// It tests that the only relationship leads to a node that is bound.
    Meet(Follow),
    /// It has the rows of a build.
    Join,
    /// It asks for a test of the alternative.
    Test(u32),
    /// It asks a pair of relationships to differ.
    Differ(u32),
    /// It asks a relationship to be no loop.
    NoLoop(u32),
}

impl<'g> RunStep<'g> {
    /// A step of a plan, as much of it as runs: what it does is found here, once for all.
    pub fn new(step: &'g Step, half: Half) -> RunStep<'g>
        ensures step { result.step.now ≡ step.now }
        ensures runs { run_step result ≡ half_of half (step_of step.now) }
    {
        let action = action_of(step, half);
        RunStep { step, action }
    }
}

impl PlanRun<'_> {
    /// What the step at a depth does.
    #[inline(always)]
    pub fn action(&self, depth: usize) -> Action
        requires { depth < length (steps_in self.now) }
        ensures { result ≡ action_of (step_at (run_of self.now) depth) }
    {
        let step = self.steps[depth];
        step.action
    }
}

/// The keys of a step, if it is a join.
#[tactic(auto, using(gq_plan::proofs::StepEquations::equations))]
pub fn join_keys(step: &Step) -> &[u32]
    ensures { result.now ≡ keys_of (step_of step.now) }
{
    match step {
        Step::Join { side: _, keys } => keys.as_slice(),
        Step::Scan { .. } | Step::Extend { .. } | Step::ColumnExtend { .. } => &[],
        Step::Close { .. } | Step::ColumnClose { .. } => &[],
        Step::Keep { .. } | Step::Differ { .. } | Step::NoLoop { .. } => &[],
    }
}

// What a step does, as much of it as runs.
fn action_of(step: &Step, half: Half) -> Action
    ensures { result ≡ action_of (half_of half (step_of step.now)) }
{
    match step {
        Step::Scan { node } => Action::Scan(*node),
        Step::Extend {
            rel,
            from,
            to,
            direction,
        } => Action::List(following(*rel, *from, *to, *direction)),
        Step::ColumnExtend {
            rel,
            from,
            to,
            direction,
        } => Action::Column(following(*rel, *from, *to, *direction)),
        Step::Close {
            rel,
            from,
            to,
            direction,
        } => Action::Close(following(*rel, *from, *to, *direction)),
        Step::ColumnClose {
            rel,
            from,
            to,
            direction,
        } => half_action(half, following(*rel, *from, *to, *direction)),
        Step::Join { .. } => Action::Join,
        Step::Keep { test } => Action::Test(*test),
        Step::Differ { pair } => Action::Differ(*pair),
        Step::NoLoop { rel } => Action::NoLoop(*rel),
    }
}

// What a column close does, as much of it as runs.
fn half_action(half: Half, follow: Follow) -> Action
    ensures { result ≡ half_action half follow }
{
    match half {
        Half::Whole => Action::ColumnClose(follow),
        Half::First => Action::Take(follow),
        Half::Second => Action::Meet(follow),
    }
}
