//! In which tables the variables of a query are looked for first.

use gq_base::{Catalog, Direction, RelTable};
use gq_plan::{Bound, OptionalPart, TrailPart, Typed};
use gq_store::Graph;

/// A bound query and one of its alternatives. They tell of each variable in which table its nodes or
/// relationships mostly are: of those that the alternative has, its table there; of those that a
/// trail brings, the one to which the first table of its type leads; of those that an optional clause
/// brings, the table in the first typed form of the clause. A row may have another table: its values
/// are then read another way.
#[derive(Clone, Copy)]
pub(crate) struct Tables<'t> {
    pub(crate) bound: &'t Bound,
    pub(crate) typed: &'t Typed,
}

impl Tables<'_> {
    /// The table in which a node variable is looked for first.
    pub(crate) fn of_node(&self, variable: u32, graph: &Graph) -> Option<u32> {
        if let Some(table) = self.typed.nodes.get(variable as usize) {
            return Some(*table);
        }
        if let Some(part) = trail_to(self.bound.trails.as_slice(), variable) {
            return end_table(part, graph.catalog());
        }
        for part in self.bound.optionals.as_slice() {
            if let Some(table) = node_in(part, variable) {
                return Some(table);
            }
        }
        None
    }

    /// The table in which a relationship variable is looked for first.
    pub(crate) fn of_rel(&self, variable: u32) -> Option<u32> {
        if let Some(rel) = self.typed.rels.get(variable as usize) {
            return Some(rel.table);
        }
        for part in self.bound.optionals.as_slice() {
            if let Some(table) = rel_in(part, variable) {
                return Some(table);
            }
        }
        None
    }
}

// The trail that brings a node variable.
fn trail_to(trails: &[TrailPart], variable: u32) -> Option<&TrailPart> {
    for part in trails {
        if !part.both && part.to == variable {
            return Some(part);
        }
    }
    None
}

// The table to which the first table of a trail's type leads, as the trail is walked.
fn end_table(part: &TrailPart, catalog: &Catalog) -> Option<u32> {
    for table in 0..catalog.rel_tables() {
        let found = catalog.rel_table(table);
        if found.name.is(part.kind.as_str()) {
            return Some(far_end(found, part.way));
        }
    }
    None
}

fn far_end(table: &RelTable, way: Direction) -> u32 {
    match way {
        Direction::Forward => table.to,
        Direction::Backward => table.from,
    }
}

// The table that the first typed form of an optional clause gives a node variable of the query.
fn node_in(part: &OptionalPart, variable: u32) -> Option<u32> {
    let form = part.alternatives.get(0)?;
    let place = place_of(part.nodes.as_slice(), variable)?;
    Some(*form.nodes.get(place)?)
}

// The same of a relationship variable.
fn rel_in(part: &OptionalPart, variable: u32) -> Option<u32> {
    let form = part.alternatives.get(0)?;
    let place = place_of(part.rels.as_slice(), variable)?;
    Some(form.rels.get(place)?.table)
}

// Where a variable stands first.
fn place_of(variables: &[u32], variable: u32) -> Option<usize> {
    variables.iter().position(|other| *other == variable)
}
