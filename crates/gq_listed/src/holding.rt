//! Where the numbers of columns lie in a chunk: those of variables in its flat groups are held, those
//! in other groups stand at the positions of these groups.
ghost use Rattle.std.specs.Prelude.{◌≡◌, IfSome, List, OnOk, true, ℕ};
ghost use Rattle.gq_base.specs.Plain.{Graph as Plain};
ghost use Rattle.gq_cells.specs.declared.source.Source.{Source};
ghost use Rattle.gq_eval.specs.Asked.{Asked};
ghost use Rattle.gq_group.specs.Chunks.{IsChunkOf, group_of};
ghost use Rattle.gq_group.specs.Groups.{AreSelected};
ghost use Rattle.gq_group.specs.declared.chunk.Chunk.{Chunk as Parts};
ghost use Rattle.gq_listed.specs.Flat.{IsFlat, IsFlatHome, IsFlatWay, IsHeldNumber};
ghost use Rattle.gq_listed.specs.Leads.{AreLed, HasTable, IsLedBy};
ghost use Rattle.gq_listed.specs.Listed.{AreFinders};
ghost use Rattle.gq_listed.specs.declared.finder.Way.TheVariants as ways;

use crate::finder::{Finder, Found, Lead, Range, Way, find};
use gq_base::Memory;
use gq_group::{Chunk, ChunkRow, NodeHome, Piece};
use gq_plan::Typed;
use gq_store::Graph;

/// Puts the finders of columns for a chunk in the place of what was there: they tell where the
/// numbers of variables lie in it.
pub fn hold_columns(
    held: &mut Vec<Finder>,
    finders: &[Finder],
    graph: &Graph,
    typed: &Typed,
    chunk: &Chunk<'_, '_>,
    positions: &[u32],
) -> Result<(), Memory>
    requires chunk { IsChunkOf graph.now typed.now chunk.now }
    requires selected { AreSelected chunk.now.groups.now positions.now }
    ensures finders { (ss : List Source) → (es : List Asked)
        → AreFinders ss es finders.now → OnOk result (AreFinders ss es held.new.items) }
    ensures led { OnOk result (AreLed graph.now typed.now chunk.now held.new.items) }
{
    held.clear();
    let many = has_many(chunk);
    'finders: for finder in finders {
        let lead = lead_of(many, finder.way, graph, typed, chunk, positions);
        held.push(Finder { lead, ..*finder })?;
    }
    Ok(())
}

/// Whether a chunk may have so many assignments that it pays to find leads.
pub(crate) fn has_many(chunk: &Chunk<'_, '_>) -> bool {
    let Some(group) = chunk.groups().last() else {
        return false;
    };
    if group.current().is_some() {
        return false;
    }
    match group.piece() {
        Piece::Span { low, high } => high.saturating_sub(low) >= 4,
        Piece::List { ids, first: _ } => ids.len() >= 4,
        Piece::Matches { rows, first: _ } => rows.len() >= 4,
    }
}

/// Where the number that is found of a variable lies in a chunk with many assignments.
pub(crate) fn lead_of(
    many: bool,
    way: Way,
    graph: &Graph,
    typed: &Typed,
    chunk: &Chunk<'_, '_>,
    positions: &[u32],
) -> Lead
    requires chunk { IsChunkOf graph.now typed.now chunk.now }
    requires selected { AreSelected chunk.now.groups.now positions.now }
    ensures { IsLedBy graph.now typed.now chunk.now way result }
{
    if !many {
        return Lead::Unknown;
    }
    match held_number(way, graph, typed, chunk, positions) {
        Some(number) => Lead::Held(number),
        None => match way {
            Way::Node(range) => home_of(range, typed, chunk),
            Way::Rel(range) => edge_of(range, typed),
            Way::Value => Lead::Unknown,
        },
    }
}

// Whether the nodes of a variable are of the table.
fn has_table(range: Range, typed: &Typed) -> bool
    ensures { result ≡ true → HasTable typed.now (ways.Node range) }
{
    match typed.nodes.get(range.variable as usize) {
        Some(table) => *table == range.table,
        None => false,
    }
}

// Where a node variable lives, if its nodes are of the table.
fn home_of(range: Range, typed: &Typed, chunk: &Chunk<'_, '_>) -> Lead
    ensures { (g : Plain) → IsLedBy g typed.now chunk.now (ways.Node range) result }
{
    if !has_table(range, typed) {
        return Lead::Unknown;
    }
    match chunk.homes().nodes.get(range.variable as usize) {
        Some(NodeHome::Item { group }) => Lead::Item { group: *group },
        Some(NodeHome::Column { .. }) | Some(NodeHome::Nowhere) | None => Lead::Home,
    }
}

// Whether the relationships of a variable are of the table.
fn edge_of(range: Range, typed: &Typed) -> Lead
    ensures { (g : Plain) (c : Parts)
        → IsLedBy g typed.now c (ways.Rel range) result }
{
    match typed.rels.get(range.variable as usize) {
        Some(rel) => if rel.table == range.table {
            Lead::Edge
        } else {
            Lead::Unknown
        },
        None => Lead::Unknown,
    }
}

// The number that is found of a variable at each choice of a chunk, where it lives in a flat group.
fn held_number(
    way: Way,
    graph: &Graph,
    typed: &Typed,
    chunk: &Chunk<'_, '_>,
    positions: &[u32],
) -> Option<u32>
    requires chunk { IsChunkOf graph.now typed.now chunk.now }
    requires selected { AreSelected chunk.now.groups.now positions.now }
    ensures { IfSome result (IsHeldNumber graph.now typed.now chunk.now way) }
{
    if !is_flat(way, chunk) {
        return None;
    }
    let row = ChunkRow::new(graph, typed, chunk, positions);
    match find(way, graph, &row) {
        Found::Number(number) => Some(number),
        Found::Null | Found::Other => None,
    }
}

// Whether a node variable lives in a flat group.
fn is_flat(way: Way, chunk: &Chunk<'_, '_>) -> bool
    ensures { result ≡ true → IsFlatWay chunk.now way }
{
    let Way::Node(range) = way else {
        return false;
    };
    match chunk.homes().nodes.get(range.variable as usize) {
        Some(home) => is_home_flat(*home, chunk),
        None => false,
    }
}

fn is_home_flat(home: NodeHome, chunk: &Chunk<'_, '_>) -> bool
    ensures { result ≡ true → IsFlatHome chunk.now home }
{
    match home {
        NodeHome::Nowhere => false,
        NodeHome::Item { group } => is_flat_group(chunk, group),
        NodeHome::Column { group, .. } => is_flat_group(chunk, group),
    }
}

fn is_flat_group(chunk: &Chunk<'_, '_>, group: u32) -> bool
    ensures { result ≡ true → IsFlat (group_of chunk.now group) }
{
    match chunk.groups().get(group as usize) {
        Some(group) => group.current().is_some(),
        None => false,
    }
}
