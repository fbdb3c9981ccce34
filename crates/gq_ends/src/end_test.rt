//! The tests of a trail's other end over the rows of one table, as tests of columns.
ghost use Rattle.std.specs.Prelude.{◌≡◌, ◌<◌, All, IfOk, IfSome, None, length, true};
ghost use Rattle.std.specs.List.{Contains};
ghost use Rattle.gq_base.specs.Catalogs.{find_field};
ghost use Rattle.gq_store.specs.Cells.{node_fields};
ghost use Rattle.gq_ends.specs.steps.Missing.{Compares, NoneFits, NonePasses};
ghost use Rattle.gq_ends.specs.steps.Tests.{IsNeeded};

use gq_base::{Memory, Text};
use gq_column::Column;
use gq_expr::Expr;
use gq_filter::{LaneTest, compile, node_feed};
use gq_plan::{NamedExpr, TrailPart};
use gq_store::Graph;
use std::alloc::Global;

/// A test of the cells of a column, its only lane.
#[derive(Drop)]
pub(crate) struct EndTest<'g> {
    pub(crate) column: &'g Column,
    pub(crate) test: LaneTest,
}

/// What the tests of a trail's other end ask of the columns of a table, as far as these decide them.
pub(crate) fn tests_in<'g>(
    alloc: Global,
    graph: &'g Graph,
    part: &'g TrailPart,
    table: u32,
) -> Result<Vec<EndTest<'g>>, Memory>
    requires { table < length graph.now.catalog.nodes }
    ensures { IfOk result (λ tests. All (IsNeeded graph.now part.now table) tests.items) }
{
    let mut tests = Vec::new(alloc);
    'tests: for asked in part.tests.as_slice() {
        match end_test(alloc, graph, part, table, asked)? {
            None => {}
            Some(test) => tests.push(test)?,
        }
    }
    Ok(tests)
}

// What a test of a trail's other end asks of a column of a table, where one decides it.
fn end_test<'g>(
    alloc: Global,
    graph: &'g Graph,
    part: &TrailPart,
    table: u32,
    asked: &'g NamedExpr,
) -> Result<Option<EndTest<'g>>, Memory>
    requires table { table < length graph.now.catalog.nodes }
    requires asked { Contains part.now.tests asked.now }
    ensures { IfOk result (λ found. IfSome found (IsNeeded graph.now part.now table)) }
{
    let expr = asked.expr.get();
    let name = match property_of(expr, part.to) {
        None => return Ok(None),
        Some(name) => name,
    };
    let feed = match node_feed(graph, part.to, table, name) {
        None => return Ok(None),
        Some(feed) => feed,
    };
    match compile(alloc, expr, &[feed])? {
        None => Ok(None),
        Some(test) => Ok(Some(EndTest {
            column: feed.property.column(),
            test,
        })),
    }
}

/// Whether a test of a trail's other end compares a property that a table does not have: then none
/// of its nodes is as the trail asks.
pub(crate) fn none_fits(graph: &Graph, part: &TrailPart, table: u32) -> bool
    requires { table < length graph.now.catalog.nodes }
    ensures { result ≡ true → NoneFits graph.now part.now table }
{
    'tests: for asked in part.tests.as_slice() {
        if is_missing(graph, part, table, asked) {
            return true;
        }
    }
    false
}

// Whether a test compares a property of a trail's other end that a table does not have.
fn is_missing<'g>(graph: &'g Graph, part: &TrailPart, table: u32, asked: &'g NamedExpr) -> bool
    requires { table < length graph.now.catalog.nodes }
    ensures { result ≡ true → NonePasses graph.now part.now.to table asked.now }
{
    match property_of(asked.expr.get(), part.to) {
        None => false,
        Some(name) => lacks(graph, part.to, table, name),
    }
}

// Whether a table does not have a property.
fn lacks<'g>(graph: &'g Graph, variable: u32, table: u32, name: &'g Text) -> bool
    requires { table < length graph.now.catalog.nodes }
    ensures { result ≡ true → find_field (node_fields graph.now table) name.now ≡ None }
{
    match node_feed(graph, variable, table, name) {
        None => true,
        Some(_) => false,
    }
}

// The property of a node variable that an expression compares with something, if it does.
fn property_of(expr: &Expr, variable: u32) -> Option<&Text>
    ensures { IfSome result (λ name. Compares expr.now variable name.now) }
{
    match expr {
        Expr::Compare(first, terms) => {
            if terms.is_empty() {
                return None;
            }
            match first.get() {
                Expr::NodeProperty(node, name) => {
                    if *node == variable { Some(name) } else { None }
                }
                _ => None,
            }
        }
        _ => None,
    }
}
