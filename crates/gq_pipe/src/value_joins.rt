//! Which groups join by a value: a test asks that a property of a node of the build is equal to one of
//! a node that stands, number by number or text by text.
ghost use Rattle.std.specs.Prelude.{◌≡◌, ◌<◌, ◌≤◌, Some, IfSome, length, true, false};
ghost use Rattle.gq_filter.specs.Equal.{HaveOne};
ghost use Rattle.gq_join.specs.Kept.{place_of};
ghost use Rattle.gq_pipe.specs.steps.Valued.{AsksEqual, IsBuildOf, IsValueJoin, dicts_of, is_test};
ghost use Rattle.gq_plan.specs.Plans.{Keep};
ghost use Rattle.gq_same_texts.specs.Same.{HaveOneText};
ghost use Rattle.gq_steps.specs.Levels.{step_at};
ghost use Rattle.gq_steps.specs.Moves.{run_of, IsRun};
ghost use Rattle.gq_steps.specs.steps.Outcomes.{passes_at};

use gq_dict::Dict;
use gq_filter::{EqualColumns, NodeColumn};
use gq_join::Sealed;
use gq_plan::Assignment;
use gq_same_texts::{EqualTexts, equal_texts};
use gq_steps::{Action, GroupSteps, PlanRun};

/// The build of a join, and what a test of its group asks to be equal.
#[derive(Clone, Copy)]
pub(crate) struct ValueJoin<'g> {
    pub(crate) build: &'g Sealed,
    pub(crate) asks: Asks<'g>,
}

/// Properties of two nodes that are asked to be equal: one of a node that a build keeps, and the other
/// of one that it does not keep.
#[derive(Clone, Copy)]
pub(crate) struct Asks<'g> {
    pub(crate) own: NodeColumn<'g>,
    pub(crate) asked: NodeColumn<'g>,
    // Where they are texts of two dictionaries, these.
    pub(crate) dicts: Option<TwoDicts<'g>>,
}

/// The dictionary of the texts that are asked for, and that of a build's texts.
#[derive(Clone, Copy)]
pub(crate) struct TwoDicts<'g> {
    pub(crate) from: &'g Dict,
    pub(crate) to: &'g Dict,
}

/// How a group joins by a value, if it does.
pub(crate) fn value_join<'g>(plan_run: &PlanRun<'g>, group: GroupSteps) -> Option<ValueJoin<'g>>
    requires { IsRun (run_of plan_run.now) }
    ensures { IfSome result (λ j. IsValueJoin (run_of plan_run.now) group j.build.now j.asks.own
        j.asks.asked (dicts_of j.asks.dicts)) }
{
    let build = build_of(plan_run, group.first)?;
    if group.first >= group.end {
        return None;
    }
    for depth in group.first + 1..group.end {
        if !is_test(plan_run, depth) {
            return None;
        }
        match asks_equal(plan_run, depth, build) {
            None => {}
            Some(asks) => return Some(ValueJoin { build, asks }),
        }
    }
    None
}

// The build of the step at a depth, if it is a join.
fn build_of<'g>(plan_run: &PlanRun<'g>, depth: usize) -> Option<&'g Sealed>
    requires { IsRun (run_of plan_run.now) }
    ensures { IfSome result (λ h. IsBuildOf (run_of plan_run.now) depth h.now) }
{
    if depth >= plan_run.steps.len() {
        return None;
    }
    if depth >= plan_run.builds.len() {
        return None;
    }
    match plan_run.action(depth) {
        Action::Join => plan_run.build_at(depth),
        _ => None,
    }
}

// Whether the step at a depth is a test that binds nothing.
fn is_test(plan_run: &PlanRun<'_>, depth: usize) -> bool
    ensures { result ≡ true → is_test (step_at (run_of plan_run.now) depth) ≡ true }
{
    if depth >= plan_run.steps.len() {
        return false;
    }
    match plan_run.action(depth) {
        Action::Test(_) => true,
        Action::Differ(_) => true,
        Action::NoLoop(_) => true,
        _ => false,
    }
}

// Properties of two nodes that the step at a depth asks to be equal: one that a build keeps, and one
// that it does not keep.
fn asks_equal<'g>(plan_run: &PlanRun<'g>, depth: usize, build: &Sealed) -> Option<Asks<'g>>
    requires { IsRun (run_of plan_run.now) }
    ensures { IfSome result (λ a. AsksEqual (run_of plan_run.now) depth build.now a.own a.asked
        (dicts_of a.dicts)) }
{
    match asks_columns(plan_run, depth, build) {
        Some(asks) => Some(asks),
        None => asks_texts(plan_run, depth, build),
    }
}

// The same of properties whose cells are equal.
fn asks_columns<'g>(plan_run: &PlanRun<'g>, depth: usize, build: &Sealed) -> Option<Asks<'g>>
    requires { IsRun (run_of plan_run.now) }
    ensures { IfSome result (λ a. AsksEqual (run_of plan_run.now) depth build.now a.own a.asked
        (dicts_of a.dicts)) }
{
    let test = test_at(plan_run, depth)?;
    let equal = equal_columns(plan_run, test)?;
    let left = keeps(build, equal.left.node);
    let right = keeps(build, equal.right.node);
    if left && !right {
        Some(Asks {
            own: equal.left,
            asked: equal.right,
            dicts: None,
        })
    } else if right && !left {
        Some(Asks {
            own: equal.right,
            asked: equal.left,
            dicts: None,
        })
    } else {
        None
    }
}

// The same of texts, each a code of its own dictionary.
fn asks_texts<'g>(plan_run: &PlanRun<'g>, depth: usize, build: &Sealed) -> Option<Asks<'g>>
    requires { IsRun (run_of plan_run.now) }
    ensures { IfSome result (λ a. AsksEqual (run_of plan_run.now) depth build.now a.own a.asked
        (dicts_of a.dicts)) }
{
    let test = test_at(plan_run, depth)?;
    let equal = one_text(plan_run, test)?;
    let left = keeps(build, equal.left.cells.node);
    let right = keeps(build, equal.right.cells.node);
    if left && !right {
        Some(Asks {
            own: equal.left.cells,
            asked: equal.right.cells,
            dicts: Some(TwoDicts {
                from: equal.right.dict,
                to: equal.left.dict,
            }),
        })
    } else if right && !left {
        Some(Asks {
            own: equal.right.cells,
            asked: equal.left.cells,
            dicts: Some(TwoDicts {
                from: equal.left.dict,
                to: equal.right.dict,
            }),
        })
    } else {
        None
    }
}

/// The test that the step at a depth asks for, if it does.
pub(crate) fn test_at(plan_run: &PlanRun<'_>, depth: usize) -> Option<u32>
    ensures { IfSome result (λ i. step_at (run_of plan_run.now) depth ≡ Keep i) }
{
    if depth >= plan_run.steps.len() {
        return None;
    }
    match plan_run.action(depth) {
        Action::Test(test) => Some(test),
        _ => None,
    }
}

// Properties of two nodes that a test asks to be equal, if it is seen to ask for that.
fn equal_columns<'g>(plan_run: &PlanRun<'g>, test: u32) -> Option<EqualColumns<'g>>
    requires { IsRun (run_of plan_run.now) }
    ensures { let c = run_of plan_run.now in IfSome result (λ e. (row : Assignment)
        → passes_at c.graph c.typed row test ≡ true → HaveOne e row) }
{
    match plan_run.tests.get(test as usize) {
        None => None,
        Some(test) => test.equal_columns(),
    }
}

// Text properties of two nodes that a test asks to be equal, if it is seen to ask for that.
fn one_text<'g>(plan_run: &PlanRun<'g>, test: u32) -> Option<EqualTexts<'g>>
    requires { IsRun (run_of plan_run.now) }
    ensures { let c = run_of plan_run.now in IfSome result (λ e. (row : Assignment)
        → passes_at c.graph c.typed row test ≡ true → HaveOneText e row) }
{
    match plan_run.typed.tests.get(test as usize) {
        None => None,
        Some(condition) => equal_texts(plan_run.graph, plan_run.typed, condition),
    }
}

// Whether a build keeps a node variable.
fn keeps(build: &Sealed, node: u32) -> bool
    ensures yes { result ≡ true → place_of build.now.nodes node < length build.now.nodes }
    ensures no { result ≡ false → length build.now.nodes ≤ place_of build.now.nodes node }
{
    build.node_place(node) < build.nodes().len()
}
