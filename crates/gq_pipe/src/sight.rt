//! Places of flat groups of which a later group makes nothing, since the list that it follows leads
//! to no row that its tests pass, or to none of which the groups behind it make anything.
ghost use Rattle.std.specs.Prelude.{◌≡◌, ◌≤◌, ◌<◌, ◌+◌, ◌-◌, ◌&&◌, ℕ, length, false, true};
ghost use Rattle.gq_bits.specs.Places.{is_marked};
ghost use Rattle.gq_filter.specs.Rows.{count_in, row_in};
ghost use Rattle.gq_masks.specs.Masks.{IsPart, next_end};
ghost use Rattle.gq_pipe.specs.steps.Sights.{IsUnseen, may_pass, passes_check};
ghost use Rattle.gq_steps.specs.Levels.{step_at};
ghost use Rattle.gq_steps.specs.Moves.{run_of, IsRun};
ghost use Rattle.gq_steps.specs.steps.Outcomes.{passes_at, with_row};

use crate::sights::asked_at;
use gq_bits::{Marks, VECTOR};
use gq_filter::Rows;
use gq_masks::Mask;
use gq_plan::Assignment;
use gq_steps::{GroupSteps, PlanRun};

/// What a group that binds a node is told by a later one, which follows a list from it to another
/// node: from which rows relationships lead to rows of which something may come.
#[derive(Drop)]
pub(crate) struct Sight<'g> {
    pub(crate) node: u32,
    // The later group, by its number too, and the other node.
    pub(crate) later: usize,
    pub(crate) group: GroupSteps,
    pub(crate) far: u32,
    pub(crate) mask: Mask<'g>,
}

impl Sight<'_> {
    /// Whether it is known that the later group makes nothing where the node has a row.
    pub(crate) fn ends_at(&self, own: u32) -> bool
        ensures { result ≡ true → IsUnseen self.now own }
    {
        self.mask.is_whole() && !self.mask.has(own)
    }

    /// Those of the next rows of which the mask is told that all tests of the later group pass which
    /// read the other node alone and which columns decide. It takes no memory.
    pub(crate) fn passed(&self, plan_run: &mut PlanRun<'_>, row: &mut Assignment) -> Marks
        requires { IsRun (run_of plan_run.old) }
        ensures passed { let c = run_of plan_run.old in let t = self.now in
            t.far < length c.typed.nodes → IsPart (may_pass c t.group t.far) t.mask.told
            (next_end t.mask) result }
        ensures row { row.new ≡ row.old }
        ensures same { plan_run.new ≡ plan_run.old }
    {
        let low = self.mask.told();
        let high = self.mask.next_end();
        let mut chosen = Marks::first(high - low);
        if self.far as usize >= row.nodes.len() {
            return chosen;
        }
        if self.group.end > plan_run.steps.len() {
            return chosen;
        }
        if self.group.first >= self.group.end {
            return chosen;
        }
        for depth in self.group.first + 1..self.group.end {
            keep_asked(plan_run, depth, self.far, low, high, row, &mut chosen);
        }
        chosen
    }
}

// Keeps the marked rows that the step at a depth passes if it is a test that reads a node alone and
// that columns decide.
fn keep_asked(
    plan_run: &mut PlanRun<'_>,
    depth: usize,
    node: u32,
    low: u32,
    high: u32,
    row: &mut Assignment,
    marks: &mut Marks,
)
    requires run { IsRun (run_of plan_run.old) }
    requires node { node < length row.old.nodes }
    requires few { high - low ≤ VECTOR }
    requires within { (k : ℕ) → high - low ≤ k → is_marked marks.old k ≡ false }
    ensures kept { let c = run_of plan_run.old in node < length c.typed.nodes → (k : ℕ)
        → passes_check c node (low + k) (step_at c depth) ≡ true → is_marked marks.old k ≡ true
        → is_marked marks.new k ≡ true }
    ensures within { (k : ℕ) → high - low ≤ k → is_marked marks.new k ≡ false }
    ensures row { row.new ≡ row.old }
    ensures same { plan_run.new ≡ plan_run.old }
{
    match asked_at(plan_run, depth, node) {
        None => {}
        Some(test) => {
            let rows = Rows::Span { low, high };
            keep_passed(plan_run, test, node, rows, row, marks);
        }
    }
}

// Keeps the marked rows that a test passes: a node variable has the row.
fn keep_passed(
    plan_run: &mut PlanRun<'_>,
    test: u32,
    node: u32,
    rows: Rows<'_>,
    row: &mut Assignment,
    marks: &mut Marks,
)
    requires run { IsRun (run_of plan_run.old) }
    requires node { node < length row.old.nodes }
    requires few { count_in rows ≤ VECTOR }
    requires within { (j : ℕ) → count_in rows ≤ j → is_marked marks.old j ≡ false }
    ensures kept { (j : ℕ) → is_marked marks.new j ≡ (is_marked marks.old j
        && passes_at plan_run.old.graph.now plan_run.old.typed.now
        (with_row node (row_in rows.entry j) row.old) test) }
    ensures row { row.new ≡ row.old }
    ensures same { plan_run.new ≡ plan_run.old }
{
    match plan_run.tests.get_mut(test as usize) {
        None => *marks = Marks::none(),
        Some(test) => test.keep_rows(node, rows, row, marks),
    }
}
