//! Whether a graph is valid: its rows fit their tables, keys tell nodes apart, ends exist, and
//! multiplicities and limits are kept.
ghost use Rattle.std.specs.Prelude.{◌≡◌, ◌<◌, length, All, IfOk};
ghost use Rattle.std.specs.List.{list_all};
ghost use Rattle.gq_base.specs.Lists.{all_zip};
ghost use Rattle.gq_base.specs.Rels.{rel_seen};
ghost use Rattle.gq_base.specs.Valid.{are_fields, are_nodes, are_rels, fits_fields, is_of_kind};
ghost use Rattle.gq_base.specs.Valid.{is_rel, is_valid, keeps_mult};
ghost use Rattle.gq_base.specs.Valid.{row_count};

use crate::distinct::{End, have_distinct_names, have_distinct_rows, have_keys};
use crate::{Catalog, Cell, Memory, NodeRows, RelRef, RelRows};
use gq_base::{Direction, Field, Kind, Mult, NodeTable, RelTable};
use std::alloc::Global;

/// How many node tables there may be, and how many relationship tables.
const MOST_TABLES: u32 = 64;

/// How many properties a table may have.
const MOST_PROPERTIES: usize = 64;

/// How many rows a node table may have.
const MOST_NODES: usize = 1 << 24;

/// How many relationships a relationship table may have.
const MOST_RELS: usize = 1 << 25;

/// Whether this catalogue and these rows, a list for each of its tables, are a valid graph.
pub(crate) fn are_valid(
    alloc: Global,
    catalog: &Catalog,
    nodes: &[NodeRows],
    rels: &[RelRows],
) -> Result<bool, Memory>
    requires nodes { length nodes.now ≡ length catalog.now.nodes }
    requires rels { length rels.now ≡ length catalog.now.rels }
    ensures { IfOk result (λ answer.
        answer ≡ is_valid (record { catalog = catalog.now; nodes = nodes.now; rels = rels.now })) }
{
    if catalog.node_tables() > MOST_TABLES || catalog.rel_tables() > MOST_TABLES {
        return Ok(false);
    }
    let nodes_pass = are_all_nodes(alloc, catalog, nodes)?;
    if !nodes_pass {
        return Ok(false);
    }
    are_all_rels(alloc, catalog, nodes, rels)
}

fn are_all_nodes(alloc: Global, catalog: &Catalog, nodes: &[NodeRows]) -> Result<bool, Memory>
    requires { length nodes.now ≡ length catalog.now.nodes }
    ensures { IfOk result (λ answer. answer ≡ all_zip are_nodes catalog.now.nodes nodes.now) }
{
    for table in 0..catalog.node_tables() {
        let rows = &nodes[table as usize];
        let pass = are_nodes(alloc, catalog.node_table(table), rows)?;
        if !pass {
            return Ok(false);
        }
    }
    Ok(true)
}

fn are_all_rels(
    alloc: Global,
    catalog: &Catalog,
    nodes: &[NodeRows],
    rels: &[RelRows],
) -> Result<bool, Memory>
    requires { length rels.now ≡ length catalog.now.rels }
    ensures { IfOk result (λ answer.
        answer ≡ all_zip (are_rels nodes.now) catalog.now.rels rels.now) }
{
    for table in 0..catalog.rel_tables() {
        let rels = &rels[table as usize];
        let pass = are_rels(alloc, nodes, catalog.rel_table(table), rels)?;
        if !pass {
            return Ok(false);
        }
    }
    Ok(true)
}

// Whether these may be the rows of a node table.
fn are_nodes(alloc: Global, table: &NodeTable, rows: &NodeRows) -> Result<bool, Memory>
    ensures { IfOk result (λ answer. answer ≡ are_nodes table.now rows.now) }
{
    let fields = table.fields.as_slice();
    let fields_pass = are_fields(alloc, fields)?;
    if !fields_pass || rows.len() > MOST_NODES || !all_fit(fields, rows) {
        return Ok(false);
    }
    have_keys(alloc, rows)
}

// Whether these may be the relationships of a relationship table, over the rows of the node tables.
fn are_rels(
    alloc: Global,
    nodes: &[NodeRows],
    table: &RelTable,
    rels: &RelRows,
) -> Result<bool, Memory>
    ensures { IfOk result (λ answer. answer ≡ are_rels nodes.now table.now rels.now) }
{
    if table.from as usize >= nodes.len() || table.to as usize >= nodes.len() {
        return Ok(false);
    }
    let fields = table.fields.as_slice();
    let fields_pass = are_fields(alloc, fields)?;
    if !fields_pass || rels.len() > MOST_RELS {
        return Ok(false);
    }
    let sources = row_count(nodes, table.from);
    let targets = row_count(nodes, table.to);
    if !all_connect(fields, sources, targets, rels) {
        return Ok(false);
    }
    keeps_mult(alloc, table.mult, rels, sources, targets)
}

// How many rows a node table has.
fn row_count(nodes: &[NodeRows], table: u32) -> usize
    ensures { result ≡ row_count nodes.now table }
{
    match nodes.get(table as usize) {
        Some(rows) => rows.len(),
        None => 0,
    }
}

// Whether there are not too many fields, and no two of one name.
fn are_fields(alloc: Global, fields: &[Field]) -> Result<bool, Memory>
    ensures { IfOk result (λ answer. answer ≡ are_fields fields.now) }
{
    if fields.len() > MOST_PROPERTIES {
        return Ok(false);
    }
    have_distinct_names(alloc, fields)
}

// Whether each row fits the fields.
fn all_fit(fields: &[Field], rows: &NodeRows) -> bool
    ensures { result ≡ list_all (fits_fields fields.now) rows.now }
{
    for row in 0..rows.len() {
        if !fits_fields(fields, rows.row(row)) {
            return false;
        }
    }
    true
}

// Whether each relationship is between nodes of which there are so many, and its cells fit the
// fields.
fn all_connect(fields: &[Field], sources: usize, targets: usize, rels: &RelRows) -> bool
    ensures { result ≡ list_all (is_rel fields.now sources targets) rels.now }
{
    for number in 0..rels.len() {
        if !is_rel(fields, sources, targets, &rels.rel(number)) {
            return false;
        }
    }
    true
}

fn is_rel(fields: &[Field], sources: usize, targets: usize, rel: &RelRef<'_>) -> bool
    ensures { result ≡ is_rel fields.now sources targets (rel_seen rel.now) }
{
    (rel.source as usize) < sources
        && (rel.target as usize) < targets
        && fits_fields(fields, rel.cells)
}

// Whether there is one cell for each field, of its kind.
fn fits_fields(fields: &[Field], cells: &[Option<Cell>]) -> bool
    ensures { result ≡ fits_fields fields.now cells.now }
{
    if fields.len() != cells.len() {
        return false;
    }
    for (at, cell) in cells.iter().enumerate() {
        if !is_of_kind(fields[at].kind, cell) {
            return false;
        }
    }
    true
}

// Null is of every kind.
fn is_of_kind(kind: Kind, cell: &Option<Cell>) -> bool
    ensures { result ≡ is_of_kind kind cell.now }
{
    match (kind, cell) {
        (_, None)
        | (Kind::Int, Some(Cell::Int(_)))
        | (Kind::Str, Some(Cell::Str(_)))
        | (Kind::Flag, Some(Cell::Flag(_))) => true,
        _ => false,
    }
}

// Whether the relationships, between so many sources and targets, are no more than the multiplicity
// allows each.
fn keeps_mult(
    alloc: Global,
    mult: Mult,
    rels: &RelRows,
    sources: usize,
    targets: usize,
) -> Result<bool, Memory>
    requires sources { All (λ rel. rel.source < sources) rels.now }
    requires targets { All (λ rel. rel.target < targets) rels.now }
    ensures { IfOk result (λ answer. answer ≡ keeps_mult mult rels.now) }
{
    if mult.is_single(Direction::Forward) {
        let sources_pass = have_distinct_rows(alloc, rels, End::Source, sources)?;
        if !sources_pass {
            return Ok(false);
        }
    }
    if mult.is_single(Direction::Backward) {
        have_distinct_rows(alloc, rels, End::Target, targets)
    } else {
        Ok(true)
    }
}
