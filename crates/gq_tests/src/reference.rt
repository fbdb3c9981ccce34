//! Matches in a small graph of three persons, two cities, five acquaintances and two homes, worked out by hand.

use crate::graph::{KNOWS, LIVES, people};
use crate::made::Test;
use crate::queries::queried;
use gq_base::{Mult, NodeId, RelId};
use gq_plain::PlainGraph;
use gq_reference::{Match, matches};
use gq_scopes::Pattern;
use gq_syntax::Query;

const PERSONS: [&str; 3] = ["1", "2", "3"];

const CITIES: [&str; 2] = ["X", "Y"];

const ACQUAINTANCES: [&str; 5] = ["k0", "k1", "k2", "k3", "k4"];

const HOMES: [&str; 2] = ["h0", "h1"];

fn shown(names: &[&'static str], row: u32) -> &'static str {
    names.get(row as usize).copied().unwrap_or("?")
}

fn shown_node(node: NodeId) -> &'static str {
    match node.table {
        0 => shown(PERSONS.as_slice(), node.row),
        1 => shown(CITIES.as_slice(), node.row),
        _ => "?",
    }
}

fn shown_rel(rel: RelId) -> &'static str {
    match rel.table {
        0 => shown(ACQUAINTANCES.as_slice(), rel.row),
        1 => shown(HOMES.as_slice(), rel.row),
        _ => "?",
    }
}

fn push_match(rt: &impl Test, text: &mut String, found: &Match) {
    text.push_str(" ").expect(rt, "memory");
    for node in found.nodes.as_slice() {
        text.push_str(shown_node(*node)).expect(rt, "memory");
    }
    for rel in found.rels.as_slice() {
        text.push_str(shown_rel(*rel)).expect(rt, "memory");
    }
}

fn all_shown(rt: &impl Test, found: &[Match]) -> String {
    let mut text = String::new(rt.alloc());
    for found in found {
        push_match(rt, &mut text, found);
    }
    text
}

fn shown_of_pattern(rt: &impl Test, graph: &PlainGraph, pattern: &Pattern<'_>) -> String {
    let found = matches(rt.alloc(), graph, pattern).expect(rt, "memory");
    all_shown(rt, found.as_slice())
}

fn shown_of_query(rt: &impl Test, graph: &PlainGraph, query: &Query) -> String {
    let pattern = Pattern::of(rt.alloc(), query.clauses.as_slice()).expect(rt, "memory");
    shown_of_pattern(rt, graph, &pattern)
}

// The matches of a query: the nodes and then the relationships of each one, behind a blank.
fn matches_shown(rt: &impl Test, graph: &PlainGraph, text: &str) -> String {
    let query = queried(rt, text);
    shown_of_query(rt, graph, &query)
}

const QUERIES: [(&str, &str); 22] = [
    ("MATCH (p:Person) RETURN 1", " 1 2 3"),
    ("MATCH (n) RETURN 1", " 1 2 3 X Y"),
    ("MATCH (x:Nobody) RETURN 1", ""),
    (
        "MATCH (a)-[:KNOWS]->(b) RETURN 1",
        " 12k0 12k4 13k2 21k1 33k3",
    ),
    (
        "MATCH (b)<-[r:KNOWS]-(a) RETURN 1",
        " 12k1 21k0 21k4 31k2 33k3",
    ),
    (
        "MATCH (a)-[:KNOWS]-(b) RETURN 1",
        " 12k0 12k1 12k4 13k2 21k0 21k1 21k4 31k2 33k3",
    ),
    ("MATCH (a)-[:LOVES]->(b) RETURN 1", ""),
    ("MATCH (a)-->(a) RETURN 1", " 3k3"),
    (
        "MATCH (a)-[:KNOWS]->(b)-[:KNOWS]->(c) RETURN 1",
        " 121k0k1 121k4k1 133k2k3 212k1k0 212k1k4 213k1k2",
    ),
    (
        "MATCH (a)-[:KNOWS]->(b) MATCH (b)-[:KNOWS]->(c) RETURN 1",
        " 121k0k1 121k4k1 133k2k3 212k1k0 212k1k4 213k1k2 333k3k3",
    ),
    (
        "MATCH (b)<-[:KNOWS]-(a)-[:KNOWS]->(c) RETURN 1",
        " 212k0k4 212k4k0 213k0k2 213k4k2 312k2k0 312k2k4",
    ),
    (
        "MATCH (a)-[:KNOWS]->(b), (c)-[:KNOWS]->(b) RETURN 1",
        " 121k0k4 121k4k0 133k2k3 331k3k2",
    ),
    ("MATCH (p:Person)-[:LIVES_IN]->(c) RETURN 1", " 1Xh0 3Xh1"),
    ("MATCH (a)-[r]->(b:City) RETURN 1", " 1Xh0 3Xh1"),
    ("MATCH (a:City)<--(b) RETURN 1", " X1h0 X3h1"),
    (
        "MATCH (a {id: 1})-[:LIVES_IN|KNOWS]->(b) RETURN 1",
        " 12k0 12k4 13k2 1Xh0",
    ),
    (
        "MATCH (p:Person {name: 'Ann'})-[:KNOWS {since: 2010}]->(b) RETURN 1",
        " 12k0",
    ),
    ("MATCH (a)-[:KNOWS {since: 2015}]-(b) RETURN 1", " 33k3"),
    ("MATCH (p {age: 25, id: 3}) RETURN 1", " 3"),
    ("MATCH (p:Person {age: null}) RETURN 1", ""),
    ("MATCH (p {nick: 1}) RETURN 1", ""),
    ("MATCH (p {id: '1'}) RETURN 1", ""),
];

#[test]
fn matches_are_all_assignments_that_hold(rt: HostRuntime) {
    let graph = people(&rt, KNOWS, Mult::ManyMany, LIVES);
    for (text, wanted) in QUERIES.iter() {
        assert!(rt;
            matches_shown(&rt, &graph, text).as_str() == *wanted,
            "{text}"
        );
    }
}
