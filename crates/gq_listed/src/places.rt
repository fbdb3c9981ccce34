//! Where the properties of columns stand in the tables of their variables.
ghost use Rattle.std.specs.Prelude.{◌≡◌};
ghost use Rattle.gq_expr.specs.declared.expr.Expr.TheVariants.{NodeProperty, RelProperty};
ghost use Rattle.gq_listed.specs.steps.Places.{IsReader};

use crate::tables::Tables;
use gq_base::{Text, find_field};
use gq_expr::Expr;
use gq_store::Graph;

/// A property of a variable, by its place in a table.
#[derive(Clone, Copy)]
pub struct Property {
    pub(crate) variable: u32,
    pub(crate) table: u32,
    pub(crate) place: u32,
}

/// What an expression reads of a row.
#[derive(Clone, Copy)]
pub enum Reader {
    /// No property by its place.
    Plain,
    /// A property of a node.
    Node(Property),
    /// A property of a relationship.
    Rel(Property),
}

/// What an expression reads of the rows of an alternative in a graph.
pub(crate) fn reader_of(expr: &Expr, tables: &Tables<'_>, graph: &Graph) -> Reader
    ensures { IsReader graph.now expr.now result }
{
    match expr {
        Expr::NodeProperty(variable, name) => node_reader(*variable, name, tables, graph),
        Expr::RelProperty(variable, name) => rel_reader(*variable, name, tables, graph),
        _ => Reader::Plain,
    }
}

fn node_reader(variable: u32, name: &Text, tables: &Tables<'_>, graph: &Graph) -> Reader
    ensures { IsReader graph.now (NodeProperty variable name.now) result }
{
    let catalog = graph.catalog();
    let Some(table) = tables.of_node(variable, graph) else {
        return Reader::Plain;
    };
    if table >= catalog.node_tables() {
        return Reader::Plain;
    }
    match find_field(catalog.node_table(table).fields.as_slice(), name) {
        Some(place) => Reader::Node(Property {
            variable,
            table,
            place: place as u32,
        }),
        None => Reader::Plain,
    }
}

fn rel_reader(variable: u32, name: &Text, tables: &Tables<'_>, graph: &Graph) -> Reader
    ensures { IsReader graph.now (RelProperty variable name.now) result }
{
    let catalog = graph.catalog();
    let Some(table) = tables.of_rel(variable) else {
        return Reader::Plain;
    };
    if table >= catalog.rel_tables() {
        return Reader::Plain;
    }
    match find_field(catalog.rel_table(table).fields.as_slice(), name) {
        Some(place) => Reader::Rel(Property {
            variable,
            table,
            place: place as u32,
        }),
        None => Reader::Plain,
    }
}
