//! The value of an expression in a row, or its first fault.
ghost use Rattle.std.specs.Prelude.{◌≡◌, ◌≤◌, Ok, Some, IfOk, true};
ghost use Rattle.std.specs.Prelude.{map, flat_map, length, drop, take};
ghost use Rattle.gq_base.specs.Values.{val, null};
ghost use Rattle.gq_expr.specs.Operators.{outcome, type_val};
ghost use Rattle.gq_expr.specs.Reading as reading;
ghost use Rattle.gq_expr.specs.Reading.{node_val, rel_val};
ghost use Rattle.gq_expr.specs.Reading.{property_at};
ghost use Rattle.gq_expr.specs.Meaning.{meaning, logic_all, coalesce_all, compare_chain};
ghost use Rattle.gq_expr.specs.Meaning.{arith_chain, test_chain};
ghost use Rattle.gq_expr.specs.steps.Parts.{operand_with, tester_with};
ghost use Rattle.gq_eval.specs.steps.Places.{Leads, expr_places, node_places, past, rel_places};
ghost use Rattle.gq_eval.specs.steps.Places.{tester_places};

use crate::reading::{node_property, rel_property, type_name};
use gq_base::{NodeId, RelId, Text, Value, and3};
use gq_expr::{
    ArithOperand, Assigned, CompareOperand, Expr, ExprTester, Fault, LogicOp, Tester, arith,
    compare, is_member, is_null, known, logic, negate, not_value, plus, text_test, truth_value,
};
use gq_store::Graph;

/// The value of an expression in a row, or the first fault met, by the places of the properties
/// that it reads. Evaluation is strict, the left operand first. It takes no memory, and the value
/// lives as long as the graph and the expression.
#[inline(always)]
#[tactic(auto, using(crate::proofs::PlaceEquations::evaluating))]
pub(crate) fn evaluated<'v, R: Assigned>(
    expr: &'v Expr,
    graph: &'v Graph,
    row: &R,
    places: &[u8],
) -> Result<Value<'v>, Fault>
    requires { places.now ≡ expr_places graph.now.catalog expr.now }
    ensures { outcome result ≡ meaning graph.now (R.assignment row.now) expr.now }
{
    match expr {
        Expr::Literal(literal) => Ok(literal.value()),
        Expr::NodeProperty(variable, name) => Ok(property_of_node(
            graph,
            row.node(*variable),
            name,
            places,
        )),
        Expr::RelProperty(variable, name) => Ok(property_of_rel(
            graph,
            row.rel(*variable),
            name,
            places,
        )),
        _ => {
            let mut rest = places;
            eval_parts(expr, graph, row, &mut rest)
        }
    }
}

// The value of an expression, whose properties have the first of the places. Where there is no
// fault, these are taken. Literals and properties are most of what is evaluated, and take no call
// of `eval_parts`.
#[cycle(eval)]
#[inline(always)]
#[tactic(auto, using(crate::proofs::PlaceEquations::evaluating))]
fn eval<'v, R: Assigned>(
    expr: &'v Expr,
    graph: &'v Graph,
    row: &R,
    places: &mut &[u8],
) -> Result<Value<'v>, Fault>
    requires { Leads (expr_places graph.now.catalog expr.now) places.old.now }
    ensures value { outcome result ≡ meaning graph.now (R.assignment row.now) expr.now }
    ensures places { IfOk result (λ _.
        places.new.now ≡ past (expr_places graph.now.catalog expr.now) places.old.now) }
{
    match expr {
        Expr::Literal(literal) => Ok(literal.value()),
        Expr::NodeProperty(variable, name) => {
            Ok(next_of_node(graph, row.node(*variable), name, places))
        }
        Expr::RelProperty(variable, name) => Ok(next_of_rel(
            graph,
            row.rel(*variable),
            name,
            places,
        )),
        _ => eval_parts(expr, graph, row, places),
    }
}

#[cycle(eval)]
#[inline(never)]
#[tactic(auto, using(crate::proofs::PlaceEquations::evaluating))]
fn eval_parts<'v, R: Assigned>(
    expr: &'v Expr,
    graph: &'v Graph,
    row: &R,
    places: &mut &[u8],
) -> Result<Value<'v>, Fault>
    requires { Leads (expr_places graph.now.catalog expr.now) places.old.now }
    ensures value { outcome result ≡ meaning graph.now (R.assignment row.now) expr.now }
    ensures places { IfOk result (λ _.
        places.new.now ≡ past (expr_places graph.now.catalog expr.now) places.old.now) }
{
    match expr {
        Expr::Literal(literal) => Ok(literal.value()),
        Expr::Node(variable) => Ok(node_value(row.node(*variable))),
        Expr::Rel(variable) => Ok(rel_value(row.rel(*variable))),
        Expr::NodeProperty(variable, name) => {
            Ok(next_of_node(graph, row.node(*variable), name, places))
        }
        Expr::RelProperty(variable, name) => Ok(next_of_rel(
            graph,
            row.rel(*variable),
            name,
            places,
        )),
        Expr::TypeName(inner) => type_value(&eval(inner.get(), graph, row, places)?, graph),
        Expr::Coalesce(all) => eval_coalesce(all.as_slice(), graph, row, places),
        Expr::Negate(inner) => negate(&eval(inner.get(), graph, row, places)?),
        Expr::Plus(inner) => plus(&eval(inner.get(), graph, row, places)?),
        Expr::Not(inner) => not_value(&eval(inner.get(), graph, row, places)?),
        Expr::Or(all) => eval_logic(LogicOp::Or, all.as_slice(), graph, row, places),
        Expr::Xor(all) => eval_logic(LogicOp::Xor, all.as_slice(), graph, row, places),
        Expr::And(all) => eval_logic(LogicOp::And, all.as_slice(), graph, row, places),
        Expr::Compare(first, terms) => {
            let value = eval(first.get(), graph, row, places)?;
            eval_compares(value, terms.as_slice(), graph, row, places)
        }
        Expr::Test(first, testers) => {
            let value = eval(first.get(), graph, row, places)?;
            eval_tests(value, testers.as_slice(), graph, row, places)
        }
        Expr::Arith(first, terms) => {
            let value = eval(first.get(), graph, row, places)?;
            eval_ariths(value, terms.as_slice(), graph, row, places)
        }
    }
}

#[cycle(eval)]
fn eval_logic<'v, R: Assigned>(
    op: LogicOp,
    all: &'v [Expr],
    graph: &'v Graph,
    row: &R,
    places: &mut &[u8],
) -> Result<Value<'v>, Fault>
    requires { Leads (flat_map (expr_places graph.now.catalog) all.now) places.old.now }
    ensures value { let go = meaning graph.now (R.assignment row.now) in
        outcome result ≡ logic_all op (map go all.now) }
    ensures places { IfOk result (λ _. places.new.now
        ≡ past (flat_map (expr_places graph.now.catalog) all.now) places.old.now) }
{
    match all {
        [] => Ok(Value::Null),
        [first, rest @ ..] => {
            let mut value = eval(first, graph, row, places)?;
            for part in rest {
                let next = eval(part, graph, row, places)?;
                value = logic(op, &value, &next)?;
            }
            Ok(value)
        }
    }
}

#[cycle(eval)]
fn eval_coalesce<'v, R: Assigned>(
    all: &'v [Expr],
    graph: &'v Graph,
    row: &R,
    places: &mut &[u8],
) -> Result<Value<'v>, Fault>
    requires { Leads (flat_map (expr_places graph.now.catalog) all.now) places.old.now }
    ensures value { let go = meaning graph.now (R.assignment row.now) in
        outcome result ≡ coalesce_all null (map go all.now) }
    ensures places { IfOk result (λ _. places.new.now
        ≡ past (flat_map (expr_places graph.now.catalog) all.now) places.old.now) }
{
    let mut value = Value::Null;
    for part in all {
        let next = eval(part, graph, row, places)?;
        value = known(value, next);
    }
    Ok(value)
}

#[cycle(eval)]
fn eval_compares<'v, R: Assigned>(
    first: Value<'v>,
    terms: &'v [CompareOperand],
    graph: &'v Graph,
    row: &R,
    places: &mut &[u8],
) -> Result<Value<'v>, Fault>
    requires { let of = expr_places graph.now.catalog in
        Leads (flat_map (λ t. of t.expr) terms.now) places.old.now }
    ensures value { let go = meaning graph.now (R.assignment row.now) in
        outcome result
        ≡ compare_chain (Some true) (val first.entry) (map (operand_with go) terms.now) }
    ensures places { IfOk result (λ _. places.new.now
        ≡ past (flat_map (λ t. expr_places graph.now.catalog t.expr) terms.now) places.old.now) }
{
    let mut before = first;
    let mut truth = Some(true);
    for term in terms {
        let value = eval(&term.expr, graph, row, places)?;
        truth = and3(truth, compare(term.op, &before, &value));
        before = value;
    }
    Ok(truth_value(truth))
}

#[cycle(eval)]
fn eval_tests<'v, R: Assigned>(
    first: Value<'v>,
    testers: &'v [ExprTester],
    graph: &'v Graph,
    row: &R,
    places: &mut &[u8],
) -> Result<Value<'v>, Fault>
    requires { Leads (flat_map (tester_places graph.now.catalog) testers.now) places.old.now }
    ensures value { let go = meaning graph.now (R.assignment row.now) in
        outcome result ≡ test_chain (val first.entry) (map (tester_with go) testers.now) }
    ensures places { IfOk result (λ _. places.new.now
        ≡ past (flat_map (tester_places graph.now.catalog) testers.now) places.old.now) }
{
    let mut value = first;
    for tester in testers {
        value = match tester {
            Tester::IsNull => Value::Flag(is_null(&value)),
            Tester::IsNotNull => Value::Flag(!is_null(&value)),
            Tester::Member(literals) => truth_value(is_member(&value, literals.as_slice())),
            Tester::Text(test, part) => {
                let part = eval(part, graph, row, places)?;
                truth_value(text_test(*test, &value, &part))
            }
        };
    }
    Ok(value)
}

#[cycle(eval)]
fn eval_ariths<'v, R: Assigned>(
    first: Value<'v>,
    terms: &'v [ArithOperand],
    graph: &'v Graph,
    row: &R,
    places: &mut &[u8],
) -> Result<Value<'v>, Fault>
    requires { let of = expr_places graph.now.catalog in
        Leads (flat_map (λ t. of t.expr) terms.now) places.old.now }
    ensures value { let go = meaning graph.now (R.assignment row.now) in
        outcome result ≡ arith_chain (val first.entry) (map (operand_with go) terms.now) }
    ensures places { IfOk result (λ _. places.new.now
        ≡ past (flat_map (λ t. expr_places graph.now.catalog t.expr) terms.now) places.old.now) }
{
    let mut value = first;
    for term in terms {
        let next = eval(&term.expr, graph, row, places)?;
        value = arith(term.op, &value, &next)?;
    }
    Ok(value)
}

fn node_value<'v>(node: Option<NodeId>) -> Value<'v>
    ensures { val result ≡ node_val node }
{
    match node {
        None => Value::Null,
        Some(node) => Value::Node(node),
    }
}

fn rel_value<'v>(rel: Option<RelId>) -> Value<'v>
    ensures { val result ≡ rel_val rel }
{
    match rel {
        None => Value::Null,
        Some(rel) => Value::Rel(rel),
    }
}

// A property of the next places.
fn next_of_node<'v>(
    graph: &'v Graph,
    node: Option<NodeId>,
    name: &Text,
    places: &mut &[u8],
) -> Value<'v>
    requires { Leads (node_places graph.now.catalog name.now) places.old.now }
    ensures value { val result ≡ property_at (reading.node_property graph.now) node name.now }
    ensures places { places.new.now ≡ past (node_places graph.now.catalog name.now) places.old.now }
{
    let first = take_places(places, graph.catalog().node_tables());
    property_of_node(graph, node, name, first)
}

fn next_of_rel<'v>(
    graph: &'v Graph,
    rel: Option<RelId>,
    name: &Text,
    places: &mut &[u8],
) -> Value<'v>
    requires { Leads (rel_places graph.now.catalog name.now) places.old.now }
    ensures value { val result ≡ property_at (reading.rel_property graph.now) rel name.now }
    ensures places { places.new.now ≡ past (rel_places graph.now.catalog name.now) places.old.now }
{
    let first = take_places(places, graph.catalog().rel_tables());
    property_of_rel(graph, rel, name, first)
}

// Takes so many places.
fn take_places<'p>(places: &mut &'p [u8], count: u32) -> &'p [u8]
    requires { count ≤ length places.old.now }
    ensures taken { result.now ≡ take count places.old.now }
    ensures places { places.new.now ≡ drop count places.old.now }
{
    let all = *places;
    let (first, behind) = all.split_at(count as usize);
    *places = behind;
    first
}

#[inline(always)]
fn property_of_node<'v>(
    graph: &'v Graph,
    node: Option<NodeId>,
    name: &Text,
    places: &[u8],
) -> Value<'v>
    requires { places.now ≡ node_places graph.now.catalog name.now }
    ensures { val result ≡ property_at (reading.node_property graph.now) node name.now }
{
    match node {
        None => Value::Null,
        Some(node) => node_property(graph, node, name, places),
    }
}

#[inline(always)]
fn property_of_rel<'v>(
    graph: &'v Graph,
    rel: Option<RelId>,
    name: &Text,
    places: &[u8],
) -> Value<'v>
    requires { places.now ≡ rel_places graph.now.catalog name.now }
    ensures { val result ≡ property_at (reading.rel_property graph.now) rel name.now }
{
    match rel {
        None => Value::Null,
        Some(rel) => rel_property(graph, rel, name, places),
    }
}

fn type_value<'v>(value: &Value<'v>, graph: &'v Graph) -> Result<Value<'v>, Fault>
    ensures { outcome result ≡ type_val (reading.type_name graph.now) (val value.now) }
{
    match *value {
        Value::Null => Ok(Value::Null),
        Value::Rel(rel) => Ok(type_name(graph, rel)),
        _ => Err(Fault::Kind),
    }
}
