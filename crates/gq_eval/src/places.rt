//! Where the tables of a graph have the properties that an expression reads: of each property, from
//! left to right, a byte for each table of its kind.
ghost use Rattle.std.specs.Prelude.{◌≡◌, ◌++◌, ◌<◌, true, length, IfOk, IfSome};
ghost use Rattle.gq_base.specs.Catalogs.{find_field};
ghost use Rattle.gq_base.specs.Valid.{is_valid};
ghost use Rattle.gq_store.specs.Cells.{node_fields, rel_fields};
ghost use Rattle.gq_eval.specs.steps.Places.{byte_place, expr_places, node_places, place_byte};
ghost use Rattle.gq_eval.specs.steps.Places.{read_places, rel_places};

use gq_base::{List, Memory, Text, find_field};
use gq_plan::{BoundExpr, Read, Variable};
use gq_store::Graph;

// The byte of a table without such a property. A table has at most 64.
const NO_PLACE: u8 = 255;

fn place_byte(place: Option<usize>) -> u8
    requires { IfSome place (λ at. at < 255) }
    ensures { result ≡ place_byte place }
{
    match place {
        Some(at) => at as u8,
        None => NO_PLACE,
    }
}

#[inline(always)]
fn byte_place(byte: u8) -> Option<u32>
    ensures { result ≡ byte_place byte }
{
    if byte == NO_PLACE {
        None
    } else {
        Some(byte as u32)
    }
}

// The place of a name in each node table.
fn add_node_places(places: &mut List<u8>, graph: &Graph, name: &Text) -> Result<(), Memory>
    ensures { IfOk result (λ _.
        places.new ≡ places.old ++ node_places graph.now.catalog name.now) }
{
    let catalog = graph.catalog();
    for table in 0..catalog.node_tables() {
        let place = find_field(catalog.node_table(table).fields.as_slice(), name);
        places.push(place_byte(place))?;
    }
    Ok(())
}

// The place of a name in each relationship table.
fn add_rel_places(places: &mut List<u8>, graph: &Graph, name: &Text) -> Result<(), Memory>
    ensures { IfOk result (λ _.
        places.new ≡ places.old ++ rel_places graph.now.catalog name.now) }
{
    let catalog = graph.catalog();
    for table in 0..catalog.rel_tables() {
        let place = find_field(catalog.rel_table(table).fields.as_slice(), name);
        places.push(place_byte(place))?;
    }
    Ok(())
}

/// Takes the places of each property that an expression reads.
#[tactic(auto, using(crate::proofs::PlaceEquations::gathering), unfolding(crate::specs::steps::Places::expr_places))]
pub(crate) fn add_places(
    places: &mut List<u8>,
    graph: &Graph,
    expr: &BoundExpr,
) -> Result<(), Memory>
    ensures { IfOk result (λ _.
        places.new ≡ places.old ++ expr_places graph.now.catalog expr.now) }
{
    for read in expr.reads() {
        add_read(places, graph, read)?;
    }
    Ok(())
}

#[tactic(auto, using(crate::proofs::PlaceEquations::gathering))]
fn add_read(places: &mut List<u8>, graph: &Graph, read: &Read) -> Result<(), Memory>
    ensures { IfOk result (λ _.
        places.new ≡ places.old ++ read_places graph.now.catalog read.now) }
{
    match (read.variable, &read.property) {
        (_, None) => Ok(()),
        (Variable::Node(_), Some(name)) => add_node_places(places, graph, name),
        (Variable::Rel(_), Some(name)) => add_rel_places(places, graph, name),
    }
}

/// The place of a property in a node table, of the places of its name. The graph and the name are
/// there for the contract alone.
#[inline(always)]
#[tactic(auto, using(crate::proofs::PlaceLemmas::node_found))]
pub(crate) fn node_place(graph: &Graph, table: u32, name: &Text, places: &[u8]) -> Option<u32>
    requires valid { is_valid graph.now ≡ true }
    requires within { table < length graph.now.catalog.nodes }
    requires places { places.now ≡ node_places graph.now.catalog name.now }
    ensures { result ≡ find_field (node_fields graph.now table) name.now }
{
    byte_place(places[table as usize])
}

/// The place of a property in a relationship table, of the places of its name. The graph and the
/// name are there for the contract alone.
#[inline(always)]
#[tactic(auto, using(crate::proofs::PlaceLemmas::rel_found))]
pub(crate) fn rel_place(graph: &Graph, table: u32, name: &Text, places: &[u8]) -> Option<u32>
    requires valid { is_valid graph.now ≡ true }
    requires within { table < length graph.now.catalog.rels }
    requires places { places.now ≡ rel_places graph.now.catalog name.now }
    ensures { result ≡ find_field (rel_fields graph.now table) name.now }
{
    byte_place(places[table as usize])
}
