//! How the value of a column is kept for an assignment: as the row or the place that the column's
//! variable has in its table, or else as the value itself.
ghost use Rattle.std.specs.Prelude.{◌≡◌, ◌++◌, ◌∷◌, ◌<◌, [], IfOk, IfSome, List, OnOk, length};
ghost use Rattle.gq_base.specs.Plain.{Graph as Plain};
ghost use Rattle.gq_base.specs.Values.{val};
ghost use Rattle.gq_cells.specs.declared.source.Source.{Source as Origin};
ghost use Rattle.gq_eval.specs.Asked.{Asked, asked};
ghost use Rattle.gq_expr.specs.Meaning.{meaning};
ghost use Rattle.gq_expr.specs.Reading.{Assignment};
ghost use Rattle.gq_listed.specs.Finding.{Extends, HasLoad, IsFinder, IsFound, IsNullAt};
ghost use Rattle.gq_listed.specs.Finding.{IsPlaced, PutsColumn};
ghost use Rattle.gq_listed.specs.Leads.{IsLedAt, IsSpot, here_at};
ghost use Rattle.gq_listed.specs.declared.finder.Way.TheVariants.{Rel};

use crate::leads::Spot;
use crate::places::{Reader, reader_of};
use crate::tables::Tables;
use gq_base::{Memory, Value};
use gq_cells::{Cells, Source, node_property, rel_places, rel_property};
use gq_eval::Evaluator;
use gq_expr::{Assigned, Expr};
use gq_kept::RowRefusal;
use gq_store::Graph;

/// The rows below a count, or the places, that a variable may have in a table.
#[derive(Clone, Copy)]
pub struct Range {
    pub(crate) variable: u32,
    pub(crate) table: u32,
    pub(crate) count: u32,
}

/// What tells the number that stands for an expression's value.
#[derive(Clone, Copy)]
pub enum Way {
    /// Nothing does: the value itself is kept.
    Value,
    /// The row of a node variable.
    Node(Range),
    /// The place of a relationship variable's relationship.
    Rel(Range),
}

/// Where the number of a column's variable lies in a chunk.
#[derive(Clone, Copy)]
pub enum Lead {
    /// That is not known: it is found for each assignment.
    Unknown,
    /// All assignments of the chunk have this number.
    Held(u32),
    /// It is the item of a group.
    Item { group: u32 },
    /// It is the row of the variable's node, which is of the way's table.
    Home,
    /// It is the place of the variable's relationship, which is of the way's table.
    Edge,
}

/// What tells the number that stands for the value of a column, and the places of the source of
/// such numbers and of the source of null, which is its value where its variable has nothing. While
/// a chunk is taken it tells where the number lies there.
#[derive(Clone, Copy)]
pub struct Finder {
    pub(crate) way: Way,
    pub(crate) source: u32,
    pub(crate) null: u32,
    pub(crate) lead: Lead,
}

/// What was found of a variable.
#[derive(Clone, Copy)]
pub enum Found {
    /// The number that stands for the value.
    Number(u32),
    /// The variable has nothing.
    Null,
    /// Neither: the value is to be evaluated.
    Other,
}

impl Finder {
    /// How an expression's values are kept for an alternative in a graph. Its source goes to the
    /// others, among which is that of null.
    pub(crate) fn new<'g>(
        cells: &mut Cells<'g>,
        null: u32,
        expr: &Expr,
        tables: &Tables<'_>,
        graph: &'g Graph,
    ) -> Result<Finder, Memory>
        requires { IsNullAt cells.old.sources null }
        ensures finds { IfOk result (IsFinder cells.new.sources (asked expr.now graph.now)) }
        ensures more { OnOk result (Extends cells.old.sources cells.new.sources) }
        ensures values { cells.new.values ≡ cells.old.values }
    {
        match reader_of(expr, tables, graph) {
            Reader::Plain => Finder::plain(cells, null, expr, tables, graph),
            Reader::Node(property) => {
                let source = cells.add(node_property(graph, property.table, property.place))?;
                let way = Way::Node(Range {
                    variable: property.variable,
                    table: property.table,
                    count: graph.node_count(property.table),
                });
                Ok(Finder {
                    way,
                    source,
                    null,
                    lead: Lead::Unknown,
                })
            }
            Reader::Rel(property) => {
                let source = cells.add(rel_property(graph, property.table, property.place))?;
                let way = Way::Rel(Range {
                    variable: property.variable,
                    table: property.table,
                    count: rel_places(graph, property.table, property.place),
                });
                Ok(Finder {
                    way,
                    source,
                    null,
                    lead: Lead::Unknown,
                })
            }
        }
    }

    // The same of an expression that is no property.
    fn plain<'g>(
        cells: &mut Cells<'g>,
        null: u32,
        expr: &Expr,
        tables: &Tables<'_>,
        graph: &'g Graph,
    ) -> Result<Finder, Memory>
        requires { IsNullAt cells.old.sources null }
        ensures finds { IfOk result (IsFinder cells.new.sources (asked expr.now graph.now)) }
        ensures more { OnOk result (Extends cells.old.sources cells.new.sources) }
        ensures values { cells.new.values ≡ cells.old.values }
    {
        match expr {
            Expr::Node(variable) => {
                if let Some(table) = tables.of_node(*variable, graph) {
                    let source = cells.add(Source::Node(table))?;
                    let way = Way::Node(Range {
                        variable: *variable,
                        table,
                        count: u32::MAX,
                    });
                    return Ok(Finder {
                        way,
                        source,
                        null,
                        lead: Lead::Unknown,
                    });
                }
            }
            Expr::Rel(variable) => {
                if let Some(table) = rel_table(tables, *variable, graph) {
                    let source = cells.add(Source::Rel { graph, table })?;
                    let way = Way::Rel(Range {
                        variable: *variable,
                        table,
                        count: u32::MAX,
                    });
                    return Ok(Finder {
                        way,
                        source,
                        null,
                        lead: Lead::Unknown,
                    });
                }
            }
            _ => {}
        }
        Ok(Finder::of_value(null))
    }

    // The values of any expression are kept themselves.
    fn of_value(null: u32) -> Finder
        ensures { (sources : List Origin) (of : Asked) → IsNullAt sources null
            → IsFinder sources of result }
    {
        Finder {
            way: Way::Value,
            source: 0,
            null,
            lead: Lead::Unknown,
        }
    }
}

// The table in which a relationship variable is looked for first, if the graph has it.
fn rel_table(tables: &Tables<'_>, variable: u32, graph: &Graph) -> Option<u32>
    ensures { IfSome result (λ table. table < length graph.now.catalog.rels) }
{
    let table = tables.of_rel(variable)?;
    if table < graph.catalog().rel_tables() {
        Some(table)
    } else {
        None
    }
}

// A place at which the relationship of a variable may be, where it is below the count.
#[inline(always)]
pub(crate) fn found_place(range: Range, place: u32) -> Found
    ensures { (g : Plain) (here : Assignment) → IsPlaced g range here place
        → IsFound g (Rel range) here result }
{
    if place < range.count {
        Found::Number(place)
    } else {
        Found::Other
    }
}

// What is found of a relationship, by its load number in the table of a range.
pub(crate) fn found_number(range: Range, graph: &Graph, number: u32) -> Found
    ensures { (here : Assignment) → HasLoad range here number
        → IsFound graph.now (Rel range) here result }
{
    if range.table >= graph.catalog().rel_tables() || number >= graph.rel_count(range.table) {
        return Found::Other;
    }
    found_place(range, graph.number_place(range.table, number))
}

/// What is found of the variable of a column.
pub(crate) fn find<R: Assigned>(way: Way, graph: &Graph, row: &R) -> Found
    ensures { IsFound graph.now way (R.assignment row.now) result }
{
    match way {
        Way::Value => Found::Other,
        Way::Node(range) => match row.node(range.variable) {
            None => Found::Null,
            Some(node) => if node.table == range.table && node.row < range.count {
                Found::Number(node.row)
            } else {
                Found::Other
            },
        },
        Way::Rel(range) => match row.rel(range.variable) {
            None => Found::Null,
            Some(rel) => if rel.table == range.table {
                found_number(range, graph, rel.row)
            } else {
                Found::Other
            },
        },
    }
}

// Appends a value that is kept itself.
fn put_value<'g>(cells: &mut Cells<'g>, value: Value<'g>) -> Result<(), Memory>
    ensures values { OnOk result (cells.new.values ≡ cells.old.values ++ val value.entry ∷ []) }
    ensures more { OnOk result (Extends cells.old.sources cells.new.sources) }
{
    let source = cells.add(Source::Value(value))?;
    cells.put(source, 0)
}

// Evaluates a column, and appends its value, which is kept itself.
#[inline(never)]
fn put_evaluated<'g, R: Assigned>(
    cells: &mut Cells<'g>,
    column: &Evaluator<'g>,
    row: &R,
) -> Result<(), RowRefusal>
    ensures puts { PutsColumn (meaning column.now.graph (R.assignment row.now) column.now.expr)
        cells.old.values cells.new.values result }
    ensures more { OnOk result (Extends cells.old.sources cells.new.sources) }
{
    match column.value(row) {
        Ok(value) => {
            put_value(cells, value)?;
            Ok(())
        }
        Err(fault) => Err(RowRefusal::Fault(fault)),
    }
}

/// Appends the value of a column for a row.
pub(crate) fn put_column<'g, R: Assigned>(
    cells: &mut Cells<'g>,
    finder: &Finder,
    column: &Evaluator<'g>,
    graph: &Graph,
    row: &R,
) -> Result<(), RowRefusal>
    requires finder { IsFinder cells.old.sources column.now finder.now }
    requires graph { column.now.graph ≡ graph.now }
    ensures puts { PutsColumn (meaning column.now.graph (R.assignment row.now) column.now.expr)
        cells.old.values cells.new.values result }
    ensures more { OnOk result (Extends cells.old.sources cells.new.sources) }
{
    match find(finder.way, graph, row) {
        Found::Number(number) => Ok(cells.put(finder.source, number)?),
        Found::Null => Ok(cells.put(finder.null, 0)?),
        Found::Other => put_evaluated(cells, column, row),
    }
}

/// The same at one selected position of each group of a chunk.
#[inline(always)]
pub(crate) fn put_led_column<'g>(
    cells: &mut Cells<'g>,
    finder: &Finder,
    column: &Evaluator<'g>,
    spot: &Spot<'_, '_, '_>,
) -> Result<(), RowRefusal>
    requires finder { IsFinder cells.old.sources column.now finder.now }
    requires graph { column.now.graph ≡ spot.now.graph.now }
    requires spot { IsSpot spot.now }
    requires led { IsLedAt spot.now finder.now }
    ensures puts { PutsColumn (meaning column.now.graph (here_at spot.now) column.now.expr)
        cells.old.values cells.new.values result }
    ensures more { OnOk result (Extends cells.old.sources cells.new.sources) }
{
    match spot.find(finder) {
        Found::Number(number) => Ok(cells.put(finder.source, number)?),
        Found::Null => Ok(cells.put(finder.null, 0)?),
        Found::Other => put_evaluated(cells, column, &spot.row()),
    }
}
