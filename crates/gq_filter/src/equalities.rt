//! Properties of two nodes that a condition asks to be equal.
ghost use Rattle.std.specs.Prelude.{◌≡◌, ℕ, ℤ, Option, IfSome, map, true};
ghost use Rattle.std.specs.List.{list_all};
ghost use Rattle.gq_base.specs.Plain.{Graph};
ghost use Rattle.gq_filter.specs.Equal.{AreOne, HaveOne, node_cell, row_cell};
ghost use Rattle.gq_filter.specs.LaneTests.{holds, pass};
ghost use Rattle.gq_lanes.specs.Tests.{compares};
ghost use Rattle.gq_filter.specs.steps.RowCells.{cells_of};
ghost use Rattle.gq_plan.specs.declared.assignment.Assignment.{Assignment};

use crate::lane_test::LaneTest;
use crate::row_cells::cell_at;
use crate::source::Feed;
use gq_column::Column;
use gq_lanes::LaneOp;
use gq_plan::{Assignment, Variable};

/// A property of a node variable: the column of its table that has it.
#[derive(Clone, Copy)]
pub struct NodeColumn<'g> {
    pub node: u32,
    pub column: &'g Column,
}

/// Properties of two node variables that are asked to be equal.
#[derive(Clone, Copy)]
pub struct EqualColumns<'g> {
    pub left: NodeColumn<'g>,
    pub right: NodeColumn<'g>,
}

// Lanes whose cells are asked to be equal.
#[derive(Clone, Copy)]
struct EqualLanes {
    left: u32,
    right: u32,
}

impl NodeColumn<'_> {
    /// The cell that a row of the table has, where it is known.
    pub fn row_cell(&self, row: u32) -> Option<i64>
        ensures { result ≡ row_cell self.now row }
    {
        cell_at(self.column, row)
    }

    /// The cell that the variable has, where it is known.
    pub fn node_cell(&self, row: &Assignment) -> Option<i64>
        ensures { result ≡ node_cell self.now row.now }
    {
        match row.nodes.get(self.node as usize) {
            None => None,
            Some(row) => self.row_cell(*row),
        }
    }
}

/// Properties of two node variables that are known and equal wherever a test holds, if it is seen to
/// ask for that.
pub(crate) fn equal_columns<'g>(test: &LaneTest, feeds: &[Feed<'g>]) -> Option<EqualColumns<'g>>
    ensures { IfSome result (λ e. (g : Graph) (row : Assignment)
        → holds (cells_of g feeds.now row) test.now ≡ true → HaveOne e row) }
{
    let lanes = equal_lanes(test)?;
    let left = node_column(feeds, lanes.left)?;
    let right = node_column(feeds, lanes.right)?;
    Some(EqualColumns { left, right })
}

// Lanes whose cells are known and equal wherever a test holds, if it is seen to ask for that.
#[tactic(auto, using(crate::proofs::Equations::equations))]
fn equal_lanes(test: &LaneTest) -> Option<EqualLanes>
    ensures { IfSome result (λ e. (cells : ℕ → Option ℤ) → holds cells test.now ≡ true
        → AreOne (cells e.left) (cells e.right)) }
{
    match test {
        LaneTest::All(tests) => first_equal(tests.as_slice()),
        _ => compared_lanes(test),
    }
}

// The same of the first of several tests that is seen to ask for that.
fn first_equal(tests: &[LaneTest]) -> Option<EqualLanes>
    ensures { IfSome result (λ e. (cells : ℕ → Option ℤ)
        → list_all (λ on. on) (map (holds cells) tests.now) ≡ true
        → AreOne (cells e.left) (cells e.right)) }
{
    for test in tests {
        match compared_lanes(test) {
            None => {}
            Some(lanes) => return Some(lanes),
        }
    }
    None
}

// The lanes that a test compares, if it asks that they are equal and for nothing else.
#[tactic(auto, using(crate::proofs::Equations::equations))]
fn compared_lanes(test: &LaneTest) -> Option<EqualLanes>
    ensures { IfSome result (λ e. (cells : ℕ → Option ℤ) → holds cells test.now ≡ true
        → AreOne (cells e.left) (cells e.right)) }
{
    match test {
        LaneTest::Columns { left, op, right } => equal_if(*left, *op, *right),
        _ => None,
    }
}

// Two lanes, if they are to be equal.
fn equal_if(left: u32, op: LaneOp, right: u32) -> Option<EqualLanes>
    ensures { IfSome result (λ e. (cells : ℕ → Option ℤ) → pass (compares op) (cells left)
        (cells right) ≡ true → AreOne (cells e.left) (cells e.right)) }
{
    match op {
        LaneOp::Equal => Some(EqualLanes { left, right }),
        LaneOp::NotEqual => None,
        LaneOp::Less => None,
        LaneOp::LessEqual => None,
        LaneOp::Greater => None,
        LaneOp::GreaterEqual => None,
    }
}

// The property of a node variable with which a lane is filled, if it is one of a node.
fn node_column<'g>(feeds: &[Feed<'g>], lane: u32) -> Option<NodeColumn<'g>>
    ensures { IfSome result (λ c. (g : Graph) (row : Assignment)
        → cells_of g feeds.now row lane ≡ node_cell c row) }
{
    let feed = feeds.get(lane as usize)?;
    match feed.variable {
        Variable::Node(node) => Some(NodeColumn {
            node,
            column: feed.property.column(),
        }),
        Variable::Rel(_) => None,
    }
}
