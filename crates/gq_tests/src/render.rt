//! Names, values and rows as they are written one by one, which no run shows; worked out by hand.
ghost use Rattle.std.specs.Prelude.{◌≡◌, ◌<◌, IsSome, length};
ghost use Rattle.gq_kept.specs.Tables.{StandsForSome};
ghost use Rattle.gq_rows.specs.Growing.{IsContinued};

use crate::made::{Test, text};
use crate::queries::bound;
use crate::store::example;
use gq_base::{List, NodeId, RelId, Value};
use gq_io::MemorySink;
use gq_outer::WideRow;
use gq_plan::Bound;
use gq_render::{write_name, write_row, write_value};
use gq_rows::{Listing, More, RowTable};
use gq_store::Graph;

fn sink(rt: &impl Test) -> MemorySink {
    MemorySink::new(rt.alloc(), 64, 7, List::new(rt.alloc())).expect(rt, "memory")
}

fn is_name(rt: &impl Test, name: &str, wanted: &str) -> bool {
    let mut out = sink(rt);
    let written = write_name(&mut out, &text(rt, name)).is_ok();
    written && out.taken() == wanted.as_bytes()
}

const NAMES: [(&str, &str); 4] = [
    ("", ""),
    ("a b", "a b"),
    ("'it'", "'it'"),
    ("\\ \n \r \t", "\\\\ \\n \\r \\t"),
];

#[test]
fn names_are_written_as_they_are_but_for_line_ends_and_tabs(rt: HostRuntime) {
    for (name, wanted) in NAMES.iter() {
        assert!(rt; is_name(&rt, name, wanted), "{wanted}");
    }
}

fn is_value(rt: &impl Test, graph: &Graph, value: Value<'_>, wanted: &str) -> bool {
    let mut out = sink(rt);
    let written = write_value(&mut out, graph, &value).is_ok();
    written && out.taken() == wanted.as_bytes()
}

const VALUES: [(Value<'static>, &str); 10] = [
    (Value::Null, "null"),
    (Value::Flag(true), "true"),
    (Value::Flag(false), "false"),
    (Value::Int(i64::MIN), "-9223372036854775808"),
    (Value::Str(""), "''"),
    (Value::Str("it's\\\n\r\t"), "'it\\'s\\\\\\n\\r\\t'"),
    (Value::Node(NodeId { table: 0, row: 2 }), "(Person 3)"),
    (Value::Node(NodeId { table: 1, row: 0 }), "(City 'X')"),
    (Value::Rel(RelId { table: 0, row: 4 }), "[KNOWS #4]"),
    (Value::Rel(RelId { table: 1, row: 0 }), "[LIVES_IN #0]"),
];

#[test]
fn values_are_written_by_their_kind(rt: HostRuntime) {
    let graph = example(&rt);
    for (value, wanted) in VALUES.iter() {
        assert!(rt; is_value(&rt, &graph, *value, wanted), "{wanted}");
    }
}

// The table of a query with optional clauses.
fn table<'g>(rt: &impl Test, bound: &'g Bound, graph: &'g Graph) -> RowTable<'g>
    ensures continued { IsContinued result.bound }
    ensures started { IsSome result.alternative }
    ensures graph { result.graph ≡ graph.now }
    ensures stands { StandsForSome result }
{
    assert!(rt; !bound.optionals.is_empty());
    let typed = bound.alternatives.as_slice().first();
    let typed = typed.expect(rt, "an alternative");
    let mut table = RowTable::new(rt.alloc(), bound, graph, 16);
    table.start_alternative(typed);
    table
}

// A person, and a city or nothing.
fn home(rt: &impl Test, person: NodeId, city: Option<NodeId>) -> WideRow {
    let mut row = WideRow::new(rt.alloc(), 2, 1).expect(rt, "memory");
    row.set_node(0, Some(person));
    row.set_node(1, city);
    row
}

fn push(rt: &impl Test, table: &mut RowTable<'_>, row: &WideRow)
    requires continued { IsContinued table.old.bound }
    requires started { IsSome table.old.alternative }
    requires stands { StandsForSome table.old }
    ensures continued { IsContinued table.new.bound }
    ensures started { IsSome table.new.alternative }
    ensures stands { StandsForSome table.new }
{
    assert!(rt; !table.enough());
    match table.push_wide(row, None) {
        Ok(More::Go) => {}
        _ => panic!(rt; "no row"),
    }
}

// Pushes Ann, who lives in X, and Bob, who lives nowhere.
fn fill(rt: &impl Test, table: &mut RowTable<'_>)
    requires continued { IsContinued table.old.bound }
    requires started { IsSome table.old.alternative }
    requires stands { StandsForSome table.old }
    ensures { StandsForSome table.new }
{
    let ann = NodeId { table: 0, row: 0 };
    let bob = NodeId { table: 0, row: 1 };
    let city = NodeId { table: 1, row: 0 };
    push(rt, table, &home(rt, ann, Some(city)));
    push(rt, table, &home(rt, bob, None));
}

fn is_row(rt: &impl Test, graph: &Graph, listing: &Listing<'_>, row: usize, wanted: &str) -> bool
    requires { row < length listing.now.lines }
{
    let mut out = sink(rt);
    let written = write_row(&mut out, graph, listing, row).is_ok();
    written && out.taken() == wanted.as_bytes()
}

fn are_rows(rt: &impl Test, graph: &Graph, listing: &Listing<'_>) -> bool {
    assert!(rt; listing.len() == 2);
    is_row(rt, graph, listing, 1, "(Person 2)\tnull\n")
        && is_row(rt, graph, listing, 0, "(Person 1)\t(City 'X')\n")
}

const HOMES: &str = "MATCH (p:Person) OPTIONAL MATCH (p)-[:LIVES_IN]->(c) RETURN p, c";

fn are_listed(rt: &impl Test, graph: &Graph, bound: &Bound) -> bool {
    let mut table = table(rt, bound, graph);
    fill(rt, &mut table);
    let listing = table.finish().expect(rt, "memory");
    are_rows(rt, graph, &listing)
}

#[test]
fn rows_are_written_by_their_numbers(rt: HostRuntime) {
    let graph = example(&rt);
    let bound = bound(&rt, HOMES, graph.catalog());
    assert!(rt; are_listed(&rt, &graph, &bound));
}
