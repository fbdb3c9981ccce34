//! What a stored graph keeps of each table of a plain one: its cells and its links.
ghost use Rattle.std.specs.Prelude.{◌≡◌, ◌<◌, true, length};
ghost use Rattle.std.specs.Prelude.{slice_get, IfOk, OnOk, Some, []};
ghost use Rattle.gq_base.specs.Plain.{rels_at};
ghost use Rattle.gq_base.specs.Valid.{is_valid};
ghost use Rattle.gq_store.specs.Cells.{rel_fields};
ghost use Rattle.gq_store.specs.steps.Kept.{AreNodesKept, AreRelsKept, AreTableCells};
ghost use Rattle.gq_store.specs.RelColumns.{rel_cells};
ghost use Rattle.gq_store.specs.steps.Stored.{AreLinked, IsLinked, IsShape};

use crate::links::{Links, Shape, links_of, numbers_by_place};
use crate::property::TableCells;
use gq_base::{Memory, NodeRows, RelRows, RelTable};
use gq_plain::PlainGraph;
use std::alloc::Global;
use std::snapshot::Snapshot;

// The cells of each node table. The rows of a table are dropped as soon as its cells are kept.
pub(crate) fn all_nodes(alloc: Global, plain: &mut PlainGraph) -> Result<Vec<TableCells>, Memory>
    requires { is_valid plain.old ≡ true }
    ensures cells { IfOk result (λ all. AreNodesKept plain.old all.items) }
    ensures catalog { plain.new.catalog ≡ plain.old.catalog }
    ensures rels { plain.new.rels ≡ plain.old.rels }
{
    let tables = plain.catalog().node_tables();
    let mut all = Vec::with_capacity(alloc, tables as usize)?;
    for table in 0..tables {
        let fields = plain.catalog().node_table(table).fields.as_slice();
        all.push(TableCells::of_rows(alloc, fields, plain.node_rows(table))?)?;
        plain.set_node_rows(table, NodeRows::new(alloc));
    }
    Ok(all)
}

// The links and the cells of each relationship table. The relationships of a table are dropped as
// soon as both are kept. `of` is the graph, for contracts alone; `plain` has its relationships.
pub(crate) fn all_rels(
    alloc: Global,
    of: &Snapshot<PlainGraph>,
    nodes: &[TableCells],
    plain: &mut PlainGraph,
    links: &mut Vec<Links>,
) -> Result<Vec<TableCells>, Memory>
    requires valid { is_valid of.now.value ≡ true }
    requires nodes { AreNodesKept of.now.value nodes.now }
    requires catalog { plain.old.catalog ≡ of.now.value.catalog }
    requires rels { plain.old.rels ≡ of.now.value.rels }
    requires none { links.old.items ≡ [] }
    ensures cells { IfOk result (λ all. AreRelsKept of.now.value all.items) }
    ensures linked { OnOk result (AreLinked of.now.value links.new.items) }
    ensures catalog { plain.new.catalog ≡ plain.old.catalog }
{
    let tables = plain.catalog().rel_tables();
    let mut all = Vec::with_capacity(alloc, tables as usize)?;
    for rel in 0..tables {
        let KeptRels { links: next, cells } = keep_rels(alloc, of, nodes, plain, rel)?;
        links.push(next)?;
        all.push(cells)?;
        plain.set_rel_rows(rel, RelRows::new(alloc));
    }
    Ok(all)
}

// The relationships of a table as they are kept.
#[derive(Drop)]
struct KeptRels {
    links: Links,
    cells: TableCells,
}

// Keeps the relationships of a table, which are still there.
fn keep_rels(
    alloc: Global,
    of: &Snapshot<PlainGraph>,
    nodes: &[TableCells],
    plain: &PlainGraph,
    rel: u32,
) -> Result<KeptRels, Memory>
    requires valid { is_valid of.now.value ≡ true }
    requires within { rel < length of.now.value.catalog.rels }
    requires nodes { AreNodesKept of.now.value nodes.now }
    requires catalog { plain.now.catalog ≡ of.now.value.catalog }
    requires rels { slice_get plain.now.rels rel ≡ slice_get of.now.value.rels rel }
    ensures linked { IfOk result (λ kept. IsLinked of.now.value rel kept.links) }
    ensures cells { IfOk result (λ kept. AreTableCells (length (rels_at of.now.value rel))
        (rel_fields of.now.value rel) (λ property. rel_cells of.now.value rel property)
        kept.cells) }
{
    let table = plain.catalog().rel_table(rel);
    let rels = plain.rel_rows(rel);
    let shape = shape_of(of, rel, table, nodes);
    let links = links_of(alloc, of, rel, shape, rels)?;
    let numbers = numbers_by_place(alloc, of, rel, &links)?;
    let fields = table.fields.as_slice();
    let cells = TableCells::of_rels(alloc, fields, rels, numbers.as_slice())?;
    Ok(KeptRels { links, cells })
}

// The shape of a table whose ends are among these node tables.
fn shape_of(of: &Snapshot<PlainGraph>, rel: u32, table: &RelTable, nodes: &[TableCells]) -> Shape
    requires valid { is_valid of.now.value ≡ true }
    requires table { slice_get of.now.value.catalog.rels rel ≡ Some table.now }
    requires nodes { AreNodesKept of.now.value nodes.now }
    ensures { IsShape of.now.value rel result }
{
    let _ = of;
    let _ = rel;
    Shape {
        mult: table.mult,
        sources: nodes[table.from as usize].rows,
        targets: nodes[table.to as usize].rows,
    }
}
