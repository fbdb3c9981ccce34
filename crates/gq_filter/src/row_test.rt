//! Conditions that are decided row by row: by the columns of what they read where lanes or a text
//! can decide them, and else by evaluating them.
ghost use Rattle.std.specs.Prelude.{◌≡◌, ◌≤◌, ◌<◌, ◌-◌, ◌&&◌, ℕ, IfOk, IfSome, IsTrue, false, length};
ghost use Rattle.std.specs.Prelude.{true};
ghost use Rattle.gq_bits.specs.Places.{is_marked};
ghost use Rattle.gq_filter.specs.Equal.{HaveOne};
ghost use Rattle.gq_filter.specs.Placed.{IsPassingTest, IsPlacedTest};
ghost use Rattle.gq_filter.specs.RowTests.{condition_over, conditions_of, is_true_of, ReadsRows};
ghost use Rattle.gq_filter.specs.Rows.{count_in, row_in, with_row};
ghost use Rattle.gq_filter.specs.steps.RowCells.{AreOfNodes};
ghost use Rattle.gq_filter.specs.steps.SpanLanes.{AreSpanned, IsSpanned};
ghost use Rattle.gq_plan.specs.Soundness.{IsSound};
ghost use Rattle.gq_plan.specs.declared.assignment.Assignment.{Assignment};

use crate::cells::holds_at;
use crate::deciders::{evaluator_of, is_true, test_of};
use crate::equalities::{EqualColumns, equal_columns};
use crate::kernels::keep_lanes;
use crate::lane_test::LaneTest;
use crate::placed::{PlacedTest, Placement, placed_test, placement_of};
use crate::recall::Recall;
use crate::row_cells::RowCells;
use crate::row_feeds::add_feeds;
use crate::rows::Rows;
use crate::source::Feed;
use crate::span_lanes::SpanLanes;
use crate::standing::keep_standing;
use crate::standing_row::StandingRow;
use crate::text_test::{CodeSet, PartTest, code_count, text_test};
use gq_base::Memory;
use gq_bits::{Marks, VECTOR};
use gq_eval::Evaluator;
use gq_plan::{Assignment, NamedExpr, Typed, TypedRow, Variable};
use gq_store::Graph;
use std::alloc::Global;
use std::marker::Model;

/// A condition over the rows of an alternative over a graph. It is seen as these three.
#[derive(Drop)]
pub struct RowTest<'g> {
    graph: &'g Graph,
    typed: &'g Typed,
    condition: &'g NamedExpr,
    // What decides it, if lanes can, and the feeds of the lanes.
    test: Option<LaneTest>,
    feeds: Vec<Feed<'g>>,
    // What places have to do with it, if all lanes are of one relationship variable.
    placement: Option<Placement>,
    // What decides it where lanes cannot, if it asks for a part of a text.
    text: Option<PartTest<'g>>,
    // What decides it where neither does.
    evaluator: Option<Evaluator<'g>>,
    // What is remembered of the test of lanes.
    recall: Recall,
    // What is remembered of the texts of the test of a text.
    tried: CodeSet,
}

impl<'g> Model for RowTest<'g> {
    ghost use Rattle.std.specs.Coded.{codes};
    ghost use Rattle.std.specs.Prelude.{IfSome};
    ghost use Rattle.gq_expr.specs.contracts.expr.Expr as expr;
    ghost use Rattle.gq_filter.specs.RowTests.{RowCondition};
    ghost use Rattle.gq_filter.specs.steps.Evaluating.{Evaluates};
    ghost use Rattle.gq_filter.specs.steps.Placing.{IsPlacementOf};
    ghost use Rattle.gq_filter.specs.steps.Recalling.{TellsOf};
    ghost use Rattle.gq_filter.specs.steps.RowCells.{AreFeedsIn, DecidesRows};
    ghost use Rattle.gq_filter.specs.steps.Texts.{AreKnown, TextDecides};

    ghost Value = { RowCondition };

    ghost coded = { Prim.hlevel (codes, expr.the_row.coded) };

    ghost view = { λ t. record {
      graph = t.graph.now;
      typed = t.typed.now;
      condition = t.condition.now;
    } };

    ghost invariant = { λ t. AreFeedsIn t.graph.now t.typed.now t.feeds.items
        × DecidesRows t.graph.now t.typed.now t.condition.now t.feeds.items t.test
        × TextDecides t.graph.now t.typed.now t.condition.now t.text
        × Evaluates t.graph.now t.condition.now t.test t.text t.evaluator
        × TellsOf t.feeds.items t.test t.recall.passed.told
        × AreKnown t.text t.tried.known
        × IfSome t.placement (IsPlacementOf t.feeds.items) };
}

impl<'g> RowTest<'g> {
    /// The test of a condition.
    pub fn new(
        alloc: Global,
        graph: &'g Graph,
        typed: &'g Typed,
        condition: &'g NamedExpr,
    ) -> Result<RowTest<'g>, Memory>
        requires { IsSound graph.now.catalog typed.now }
        ensures { let asked = condition_over graph.now typed.now condition.now in
            IfOk result (λ test. test ≡ asked) }
    {
        let mut feeds = Vec::new(alloc);
        add_feeds(&mut feeds, graph, typed, &condition.expr)?;
        let test = test_of(alloc, graph, typed, condition, feeds.as_slice())?;
        let placement = placement_of(feeds.as_slice());
        let text = text_test(graph, typed, condition);
        let evaluator = evaluator_of(alloc, graph, condition, &test, &text)?;
        Ok(RowTest {
            graph,
            typed,
            condition,
            test,
            feeds,
            placement,
            text,
            evaluator,
            recall: Recall::none(alloc),
            tried: CodeSet::none(alloc),
        })
    }

    /// From now on it is remembered which rows of a node variable's table the condition is true of,
    /// where lanes decide it by that variable alone, where the table has at most so many pieces, and
    /// where the memory is there, which is taken here. It answers how many pieces that is for.
    pub fn remember(&mut self, alloc: Global, variable: u32, room: u32) -> u32
        ensures same { self.new ≡ self.old }
        ensures within { result ≤ room }
    {
        let rows = self.spanned_rows(variable);
        let pieces = rows.div_ceil(VECTOR);
        if pieces > room {
            return 0;
        }
        match Recall::with_room(alloc, rows) {
            Ok(recall) => self.recall = recall,
            Err(_) => return 0,
        }
        pieces
    }

    /// From now on it is remembered which texts have the part that the condition asks for, where it
    /// asks for one, where they are of at most so many pieces, and where the memory is there, which is
    /// taken here. It answers how many pieces that is for.
    pub fn remember_texts(&mut self, alloc: Global, room: u32) -> u32
        ensures same { self.new ≡ self.old }
        ensures within { result ≤ room }
    {
        let count = code_count(&self.text);
        let pieces = count.div_ceil(VECTOR);
        if pieces > room {
            return 0;
        }
        match CodeSet::with_room(alloc, count) {
            Ok(tried) => self.tried = tried,
            Err(_) => return 0,
        }
        pieces
    }

    // How many rows the table of a node variable has, where lanes decide the condition by it alone.
    fn spanned_rows(&self, variable: u32) -> u32 {
        let feeds = self.feeds.as_slice();
        if self.test.is_none() || !are_spanned(feeds, variable, 0) {
            return 0;
        }
        match feeds.first() {
            Some(feed) => feed.property.column().len(),
            None => 0,
        }
    }

    /// Whether the rows alone decide the condition, and no load number.
    pub fn reads_rows(&self) -> bool
        ensures { IsTrue result → ReadsRows self.now }
    {
        if self.text.is_some() {
            return true;
        }
        self.test.is_some() && are_of_nodes(self.feeds.as_slice())
    }

    /// Properties of two node variables that are known and equal wherever the condition is true, if
    /// lanes decide it and it is seen to ask for that.
    pub fn equal_columns(&self) -> Option<EqualColumns<'g>>
        ensures { IfSome result (λ e. (row : Assignment) → is_true_of self.now row ≡ true
            → HaveOne e row) }
    {
        match &self.test {
            None => None,
            Some(test) => equal_columns(test, self.feeds.as_slice()),
        }
    }

    /// What tells of a place whether the condition is true of the relationship there, if lanes of
    /// that relationship's variable alone decide it.
    pub fn placed(&self, rel: u32) -> Option<PlacedTest<'_>>
        ensures refuses { IfSome result (IsPlacedTest self.now rel) }
        ensures passes { IfSome result (IsPassingTest self.now rel) }
    {
        match &self.test {
            None => None,
            Some(test) => placed_test(test, self.feeds.as_slice(), self.placement, rel),
        }
    }

    /// Whether the condition is true of rows and load numbers. It takes no memory.
    pub fn passes(&self, row: &Assignment) -> bool
        ensures { result ≡ is_true_of self.now row.now }
    {
        match &self.test {
            Some(test) => {
                let cells = RowCells {
                    graph: self.graph,
                    feeds: self.feeds.as_slice(),
                    row,
                };
                holds_at(test, &cells)
            }
            None => match &self.text {
                Some(text) => text.passes(&self.tried, row),
                None => {
                    let typed_row = TypedRow {
                        typed: self.typed,
                        row,
                    };
                    let Some(evaluator) = &self.evaluator else {
                        unreachable!()
                    };
                    is_true(evaluator, &typed_row)
                }
            },
        }
    }
}

impl RowTest<'_> {
    /// Keeps the marked places at whose row the condition is true: a node variable has that row, and
    /// all others have what they have in one row. It takes no memory.
    pub fn keep_rows(
        &mut self,
        variable: u32,
        rows: Rows<'_>,
        row: &mut Assignment,
        marks: &mut Marks,
    )
        requires few { count_in rows ≤ VECTOR }
        requires variable { variable < length row.old.nodes }
        requires within { (k : ℕ) → count_in rows ≤ k → is_marked marks.old k ≡ false }
        ensures kept { (k : ℕ) → is_marked marks.new k ≡ (is_marked marks.old k
            && is_true_of self.old (with_row variable (row_in rows.entry k) row.old)) }
        ensures row { row.new ≡ row.old }
        ensures same { self.new ≡ self.old }
    {
        match rows {
            Rows::List(list) => match &self.test {
                None => self.keep_ahead(variable, rows, row, marks),
                Some(test) => {
                    let feeds = self.feeds.as_slice();
                    // Where all lanes are of this variable, no other cell has to be read.
                    if are_spanned(feeds, variable, 0) {
                        self.recall.keep(test, feeds, list, marks);
                    } else {
                        let held = StandingRow {
                            graph: self.graph,
                            feeds,
                            row: &*row,
                            variable,
                        };
                        keep_standing(test, &held, list, marks);
                    }
                }
            },
            Rows::Span { low, high } => match &self.test {
                None => self.keep_ahead(variable, rows, row, marks),
                Some(test) => {
                    let feeds = self.feeds.as_slice();
                    if low <= high && are_spanned(feeds, variable, high) {
                        let lanes = SpanLanes { feeds, low, high };
                        keep_lanes(test, &lanes, high - low, marks);
                    } else {
                        self.keep_each(variable, rows, row, marks);
                    }
                }
            },
        }
    }

    // The same where lanes do not decide: by a text of the variable, or row by row.
    fn keep_ahead(&mut self, variable: u32, rows: Rows<'_>, row: &mut Assignment, marks: &mut Marks)
        requires few { count_in rows ≤ VECTOR }
        requires variable { variable < length row.old.nodes }
        requires within { (k : ℕ) → count_in rows ≤ k → is_marked marks.old k ≡ false }
        ensures kept { (k : ℕ) → is_marked marks.new k ≡ (is_marked marks.old k
            && is_true_of self.old (with_row variable (row_in rows.entry k) row.old)) }
        ensures row { row.new ≡ row.old }
        ensures same { self.new ≡ self.old }
    {
        self.ask_codes(marks);
        match &self.text {
            None => self.keep_each(variable, rows, row, marks),
            Some(text) => {
                if text.is_of(variable) {
                    text.keep(&self.tried, rows, marks);
                } else {
                    self.keep_each(variable, rows, row, marks);
                }
            }
        }
    }

    // The marked rows are asked for.
    fn ask_codes(&mut self, marks: &Marks)
        ensures { self.new ≡ self.old }
    {
        match &self.text {
            None => {}
            Some(text) => self.tried.ask(text, marks),
        }
    }

    // The same, row by row.
    fn keep_each(&self, variable: u32, rows: Rows<'_>, row: &mut Assignment, marks: &mut Marks)
        requires few { count_in rows ≤ VECTOR }
        requires variable { variable < length row.old.nodes }
        requires within { (k : ℕ) → count_in rows ≤ k → is_marked marks.old k ≡ false }
        ensures kept { (k : ℕ) → is_marked marks.new k ≡ (is_marked marks.old k
            && is_true_of self.now (with_row variable (row_in rows.entry k) row.old)) }
        ensures row { row.new ≡ row.old }
    {
        let stands = row.nodes.as_slice()[variable as usize];
        for place in 0..rows.len() {
            if !marks.get(place) {
                continue;
            }
            row.nodes.set(variable as usize, rows.row(place));
            if !self.passes(row) {
                marks.set(place, false);
            }
        }
        row.nodes.set(variable as usize, stands);
    }
}

// Whether each feed is of a node variable, and its column has the rows below `high`.
fn are_spanned(feeds: &[Feed<'_>], variable: u32, high: u32) -> bool
    ensures { IsTrue result → AreSpanned variable high feeds.now }
{
    for feed in feeds {
        if !is_spanned(feed, variable, high) {
            return false;
        }
    }
    true
}

fn is_spanned(feed: &Feed<'_>, variable: u32, high: u32) -> bool
    ensures { IsTrue result → IsSpanned variable high feed.now }
{
    match feed.variable {
        Variable::Node(node) => node == variable && high <= feed.property.column().len(),
        Variable::Rel(_) => false,
    }
}

// Whether each feed is of a node variable.
fn are_of_nodes(feeds: &[Feed<'_>]) -> bool
    ensures { IsTrue result → AreOfNodes feeds.now }
{
    for feed in feeds {
        match feed.variable {
            Variable::Node(_) => {}
            Variable::Rel(_) => return false,
        }
    }
    true
}

/// The tests of an alternative, in their order.
pub fn row_tests<'g>(
    alloc: Global,
    graph: &'g Graph,
    typed: &'g Typed,
) -> Result<Vec<RowTest<'g>>, Memory>
    requires { IsSound graph.now.catalog typed.now }
    ensures { IfOk result (λ tests. tests.items ≡ conditions_of graph.now typed.now) }
{
    let mut tests = Vec::with_capacity(alloc, typed.tests.len())?;
    for condition in typed.tests.as_slice() {
        tests.push(RowTest::new(alloc, graph, typed, condition)?)?;
    }
    Ok(tests)
}
