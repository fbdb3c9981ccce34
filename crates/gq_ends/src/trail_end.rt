//! What a trail asks of the node at its other end.
ghost use Rattle.std.specs.Prelude.{◌≡◌, ◌<◌, length, IfOk, None};
ghost use Rattle.std.specs.List.{list_all};
ghost use Rattle.gq_base.specs.declared.NodeId.{NodeId as Node};
ghost use Rattle.gq_ends.specs.Ends.{other_end};
ghost use Rattle.gq_ends.specs.steps.Answers.{at_node, holds, tests_of};
ghost use Rattle.gq_law_trails.specs.Trails.{fits_end};
ghost use Rattle.gq_plan.specs.Meaning.{row, nothing, with_node};

use crate::answers::{TableAnswers, answer_of, tell};
use crate::labels::has_labels;
use gq_base::{List, Memory, NodeId, RelId, Text, Value};
use gq_eval::{Evaluator, evaluators};
use gq_expr::Assigned;
use gq_plan::TrailPart;
use gq_store::Graph;
use std::alloc::Global;
use std::marker::Model;

/// The other end of a trail over a graph. It is seen as the two.
///
/// Where the trail has tests, no node is asked twice: for each row of the tables with the labels it
/// has two bits, whether it was asked and whether it passes. Their memory is taken when it is made;
/// without it each node is asked each time.
#[derive(Drop)]
pub struct TrailEnd<'g> {
    graph: &'g Graph,
    part: &'g TrailPart,
    tests: List<Evaluator<'g>>,
    answers: Vec<TableAnswers>,
}

impl<'g> Model for TrailEnd<'g> {
    ghost use Rattle.std.specs.Coded.{codes};
    ghost use Rattle.gq_expr.specs.contracts.expr.Expr as expr;
    ghost use Rattle.gq_ends.specs.Ends.{OtherEnd};

    ghost Value = { OtherEnd };

    ghost coded = { Prim.hlevel (codes, expr.the_row.coded) };

    ghost use Rattle.gq_ends.specs.steps.Answers.{IsEnd, end_of};

    ghost view = { end_of };

    ghost invariant = { IsEnd };
}

impl<'g> TrailEnd<'g> {
    /// The other end of a trail over a graph; `Memory` where there is no memory to prepare its tests.
    pub fn new(alloc: Global, graph: &'g Graph, part: &'g TrailPart) -> Result<TrailEnd<'g>, Memory>
        ensures { IfOk result (λ e. e ≡ other_end graph.now part.now) }
    {
        let tests = evaluators(alloc, part.tests.as_slice(), graph)?;
        Ok(TrailEnd {
            graph,
            part,
            tests,
            answers: answers_for(alloc, graph, part),
        })
    }

    /// Whether a node has the labels and passes the tests that the trail asks of its other end.
    #[inline(always)]
    #[tactic(auto, unfolding(gq_law_trails::specs::Trails::fits_end))]
    pub fn fits(&mut self, node: NodeId) -> bool
        ensures fits { result ≡ fits_end self.old.graph self.old.part node }
        ensures same { self.new ≡ self.old }
    {
        if self.part.labels.is_empty() && self.part.tests.is_empty() {
            return true;
        }
        self.is_as_asked(node)
    }

    // The same where the trail asks something.
    fn is_as_asked(&mut self, node: NodeId) -> bool
        ensures fits { result ≡ fits_end self.old.graph self.old.part node }
        ensures same { self.new ≡ self.old }
    {
        if let Some(answer) = answer_of(self.answers.as_slice(), node) {
            return answer;
        }
        let fits = is_fit(self.graph, self.part, self.tests.as_slice(), node);
        tell(&mut self.answers, node, fits);
        fits
    }
}

// Room for the answers about the nodes that are asked. They only save time, so that without memory
// there is none.
fn answers_for(alloc: Global, graph: &Graph, part: &TrailPart) -> Vec<TableAnswers>
    ensures { (n : Node) → at_node result.items n ≡ None }
{
    if part.both || part.tests.is_empty() {
        return Vec::new(alloc);
    }
    match room_for(alloc, graph, part.labels.as_slice()) {
        Ok(answers) => answers,
        Err(_) => Vec::new(alloc),
    }
}

// Room for the answers about the nodes with some labels.
fn room_for(alloc: Global, graph: &Graph, labels: &[Text]) -> Result<Vec<TableAnswers>, Memory>
    ensures { IfOk result (λ answers. (n : Node) → at_node answers.items n ≡ None) }
{
    let mut answers = Vec::new(alloc);
    'tables: for table in 0..graph.catalog().node_tables() {
        let rows = rows_with(graph, labels, table);
        answers.push(TableAnswers::new(alloc, rows)?)?;
    }
    Ok(answers)
}

// How many rows a table has, if its nodes have some labels.
fn rows_with(graph: &Graph, labels: &[Text], table: u32) -> u32
    requires { table < length graph.now.catalog.nodes }
{
    if has_labels(graph, labels, table) {
        graph.node_count(table)
    } else {
        0
    }
}

/// A row in which one variable has a node, and no other has anything.
#[derive(Clone, Copy)]
struct End {
    variable: u32,
    node: NodeId,
}

impl Assigned for End {
    ghost assignment = { λ e. row (with_node e.variable e.node nothing) };

    fn node(&self, variable: u32) -> Option<NodeId> {
        if self.variable == variable {
            Some(self.node)
        } else {
            None
        }
    }

    fn rel(&self, _variable: u32) -> Option<RelId> {
        None
    }
}

// Whether a node has the labels and passes the tests that a trail asks of its other end.
#[tactic(auto, using(crate::proofs::Asking::all_pass), unfolding(gq_law_trails::specs::Trails::fits_end))]
fn is_fit(graph: &Graph, part: &TrailPart, tests: &[Evaluator<'_>], node: NodeId) -> bool
    requires { tests.now ≡ tests_of graph.now part.now }
    ensures { result ≡ fits_end graph.now part.now node }
{
    let row = End {
        variable: part.to,
        node,
    };
    has_labels(graph, part.labels.as_slice(), node.table) && pass(tests, &row)
}

// Whether all tests are true of a row.
fn pass(tests: &[Evaluator<'_>], end: &End) -> bool
    ensures { let here = row (with_node end.now.variable end.now.node nothing) in
        result ≡ list_all (holds here) tests.now }
{
    tests.iter().all(|test| passes_one(test, end))
}

fn passes_one(test: &Evaluator<'_>, end: &End) -> bool
    ensures { let here = row (with_node end.now.variable end.now.node nothing) in
        result ≡ holds here test.now }
{
    match test.value(end) {
        Ok(Value::Flag(truth)) => truth,
        _ => false,
    }
}
