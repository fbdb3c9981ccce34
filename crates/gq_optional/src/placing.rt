//! A match, put into a row.
ghost use Rattle.std.specs.Prelude.{◌≡◌, ◌+◌, ◌^◌, ◌<◌, ◌≤◌, All, drop, length};
ghost use Rattle.gq_join.specs.Kept.{row_at};
ghost use Rattle.gq_plan.specs.Rows.{nodes_of_tables, rels_of_tables};
ghost use Rattle.gq_outer.specs.Clauses.{placed};
ghost use Rattle.gq_outer.specs.Rows.{item_at};

use gq_base::{NodeId, RelId};
use gq_group::KeptRels;
use gq_join::Sealed;
use gq_outer::WideRow;
use gq_plan::TypedRel;

/// Gives variables of a row the nodes that a row of a build has from a place on, by their tables.
pub(crate) fn place_nodes(
    row: &mut WideRow,
    place: usize,
    variables: &[u32],
    tables: &[u32],
    build: &Sealed,
    at: u32,
)
    requires at { at < length build.now.rows }
    requires inside { place + length tables.now ≤ length build.now.nodes }
    requires fits { place + length tables.now < 2 ^ 32 }
    requires sized { length (row_at build.now at).nodes ≡ length build.now.nodes }
    requires variables { All (λ v. v < length row.old.nodes) variables.now }
    ensures nodes { let found = nodes_of_tables tables.now
        (drop place (row_at build.now at).nodes) in
        item_at row.new.nodes ≡ placed variables.now found (item_at row.old.nodes) }
    ensures rels { row.new.rels ≡ row.old.rels }
    ensures count { length row.new.nodes ≡ length row.old.nodes }
{
    let Some((variable, variables)) = variables.split_first() else {
        return;
    };
    let Some((table, tables)) = tables.split_first() else {
        return;
    };
    place_nodes(row, place + 1, variables, tables, build, at);
    let node = NodeId {
        table: *table,
        row: build.node_at(at, place),
    };
    row.set_node(*variable, Some(node));
}

/// Gives variables of a row the relationships that a row of a build has from a place on, by their
/// tables.
pub(crate) fn place_rels(
    row: &mut WideRow,
    place: u32,
    variables: &[u32],
    typed: &[TypedRel],
    build: &Sealed,
    at: u32,
)
    requires at { at < length build.now.rows }
    requires inside { place + length typed.now ≤ length build.now.rels }
    requires fits { place + length typed.now < 2 ^ 32 }
    requires sized { length (row_at build.now at).rels ≡ length build.now.rels }
    requires variables { All (λ x. x < length row.old.rels) variables.now }
    ensures rels { let found = rels_of_tables typed.now
        (drop place (row_at build.now at).rels) in
        item_at row.new.rels ≡ placed variables.now found (item_at row.old.rels) }
    ensures nodes { row.new.nodes ≡ row.old.nodes }
    ensures count { length row.new.rels ≡ length row.old.rels }
{
    let Some((variable, variables)) = variables.split_first() else {
        return;
    };
    let Some((rel, typed)) = typed.split_first() else {
        return;
    };
    place_rels(row, place + 1, variables, typed, build, at);
    let rel = RelId {
        table: rel.table,
        row: build.kept_rels().number(at, place),
    };
    row.set_rel(*variable, Some(rel));
}
